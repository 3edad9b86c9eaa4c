// Proof records and their checks.
ghost use Rattle.std.specs.Prelude.{◌≡◌, ℕ, List, MatchOption};
ghost use Rattle.local_format.specs.Out.{ok};
ghost use Rattle.local_format.specs.Text.{text_at};
ghost use Rattle.local_format.specs.Maps.{answer_out, span_out};
ghost use Rattle.derivation.specs.Rule as of;
ghost use Rattle.derivation.specs.Rule.{rule_named};
ghost use Rattle.evr0_section.specs.Proof.{rest_of, proof_of, has_numbers, check_proof};
ghost use Rattle.evr0_head.specs.Maps.{counts_out};
ghost use Rattle.evr0_records.specs.Checks.{is_next, is_contiguous, ends_within};
ghost use Rattle.evr0_records.specs.Maps.{sized_out, unowned_out, proof_record, chars_by, rule_text_out, ruled_out};
ghost use Rattle.evr0_records.specs.Ruled.{NoneNamed, text_by, ruled_by};
ghost use Rattle.evr0_rules.specs.Maps.{rule_out, named_out, book_rules};

use crate::sized::Sized;
use evr0_fields::number::{ProofNumber, PropositionIndex, WitnessNumber};
use evr0_head::counts::Counts;
use evr0_rules::rule::Rule;
use evr0_rules::settle::Rulebook;
use local_format::field::{Field, field_at};
use local_format::refusal::{Refusal, check, refuse};
use local_format::text::{Span, text_at};

#[derive(Clone, Copy, Debug, PartialEq, Eq)]
pub struct Proof {
    pub proof_id: ProofNumber,
    pub proposition_index: PropositionIndex,
    pub rule_id: Span,
    pub authority_context: u32,
    pub witness_first: WitnessNumber,
    pub witness_count: u32,
    pub parent_first: u32,
    pub parent_count: u32,
    // Kept (1a): the Rust's field; it holds the byte that was read, which may be any, and 21 compares it with the rule's.
    pub authorized_operation: u8,
}

// The text of a proof's rule, and the rule of a call that it names.
// Kept (1d): a text that names no rule is a text still: `proof_of` reads it whole, and only the checks after 19 refuse it by 20.
#[derive(Clone, Copy)]
struct RuleText {
    text: Span,
    rule: Option<Rule>,
}

// A proof, how many bytes it takes, and the rule of a call that the text of its rule names.
// Kept (1d): a proof whose rule is unknown is read whole, and 17, 18 and 19 come before 20 refuses it.
#[derive(Clone, Copy, Debug, PartialEq, Eq)]
pub struct Ruled {
    pub proof: Proof,
    pub size: usize,
    pub rule: Option<Rule>,
}

// The next proof's number, and the next unowned witness and parent cell.
#[derive(Clone, Copy, Debug, PartialEq, Eq)]
pub struct Unowned {
    pub proof: usize,
    pub witness: usize,
    pub parent: usize,
}

// What follows a proof's rule. Where its 24 bytes are there, the fields are read in a part that is just these, where none is cut; the operation and the
// three reserved bytes after it are one field. Else the first field that is cut is told by how many bytes are left.
fn read_rest(
    tail: &[u8],
    proof_id: ProofNumber,
    proposition_index: PropositionIndex,
    rule_id: Span,
) -> Result<Sized<Proof>, Refusal>
    ensures { answer_out (sized_out proof_record) result ≡ rest_of tail.now proof_id.0 proposition_index.0 (span_out rule_id) }
{
    let at = rule_id.next;
    let Some(part) = local_format::part::tail(tail, at).first_chunk::<24>() else {
        let left = tail.len().saturating_sub(at);
        let cut = if 20 < left { 21 } else { left / 4 * 4 };
        return Err(refuse(5, at + cut));
    };
    let Some(
        Field {
            value: authority_context,
            next: witness_first_at,
        },
    ) = field_at::<u32>(part, 0)
    else {
        return Err(refuse(5, at));
    };
    let Some(
        Field {
            value: witness_first,
            next: witness_count_at,
        },
    ) = field_at::<u32>(part, witness_first_at)
    else {
        return Err(refuse(5, at + witness_first_at));
    };
    let Some(
        Field {
            value: witness_count,
            next: parent_first_at,
        },
    ) = field_at::<u32>(part, witness_count_at)
    else {
        return Err(refuse(5, at + witness_count_at));
    };
    let Some(
        Field {
            value: parent_first,
            next: parent_count_at,
        },
    ) = field_at::<u32>(part, parent_first_at)
    else {
        return Err(refuse(5, at + parent_first_at));
    };
    let Some(
        Field {
            value: parent_count,
            next: operation_at,
        },
    ) = field_at::<u32>(part, parent_count_at)
    else {
        return Err(refuse(5, at + parent_count_at));
    };
    let Some(
        Field {
            value: operation,
            next: part_end,
        },
    ) = field_at::<u32>(part, operation_at)
    else {
        return Err(refuse(5, at + operation_at));
    };
    let end = at + part_end;
    check(operation <= 255, 9, end)?;
    Ok(Sized {
        item: Proof {
            proof_id,
            proposition_index,
            rule_id,
            authority_context,
            witness_first: WitnessNumber(witness_first),
            witness_count,
            parent_first,
            parent_count,
            authorized_operation: operation as u8,
        },
        size: end,
    })
}

// The text of a rule's name, and the rule of a call that has it. A rule's name is known to be a text, so that it isn't scanned: its bytes are told as its
// characters, which they are in the names of the four.
fn known_at(rules: &Rulebook, tail: &[u8], at: usize) -> Option<RuleText>
    ensures { MatchOption result
        (NoneNamed (book_rules rules.now) tail.now at)
        (λ known. ok (rule_text_out (chars_by rules.now) tail.now known)
        ≡ text_by (chars_by rules.now) (rule_named (book_rules rules.now)) tail.now (text_at tail.now at)) }
{
    let Field { value, next: start } = field_at::<u16>(tail, at)?;
    let len = value as usize;
    let next = start + len;
    let rule = rules.rule_named(tail.get(start..next)?)?;
    Some(RuleText {
        text: Span {
            start,
            len,
            chars: len,
            next,
        },
        rule: Some(rule),
    })
}

// The text of a rule. Only what is no rule's name is scanned.
fn read_rule(rules: &Rulebook, tail: &[u8], at: usize) -> Result<RuleText, Refusal>
    ensures { answer_out (rule_text_out (chars_by rules.now) tail.now) result
        ≡ text_by (chars_by rules.now) (rule_named (book_rules rules.now)) tail.now (text_at tail.now at) }
{
    if let Some(known) = known_at(rules, tail, at) {
        return Ok(known);
    }
    let text = text_at(tail, at)?;
    Ok(RuleText { text, rule: None })
}

// The proof at the front of `tail`, by the rules of a call.
#[tactic(auto, unfolding(evr0_section::specs::Proof::proof_of))]
pub fn read_ruled(rules: &Rulebook, tail: &[u8]) -> Result<Ruled, Refusal>
    ensures { answer_out (ruled_out (chars_by rules.now) tail.now) result
        ≡ ruled_by (chars_by rules.now) (rule_named (book_rules rules.now)) tail.now (proof_of tail.now) }
{
    let Some(
        Field {
            value: proof_id,
            next: proposition_at,
        },
    ) = field_at::<u32>(tail, 0)
    else {
        return Err(refuse(5, 0));
    };
    let Some(
        Field {
            value: proposition_index,
            next: rule_at,
        },
    ) = field_at::<u32>(tail, proposition_at)
    else {
        return Err(refuse(5, proposition_at));
    };
    let RuleText { text, rule } = read_rule(rules, tail, rule_at)?;
    let Sized { item: proof, size } = read_rest(
        tail,
        ProofNumber(proof_id),
        PropositionIndex(proposition_index),
        text,
    )?;
    Ok(Ruled { proof, size, rule })
}

// The proof at the front of `tail`.
pub fn read_proof(tail: &[u8]) -> Result<Sized<Proof>, Refusal>
    ensures { answer_out (sized_out proof_record) result ≡ proof_of tail.now }
{
    let Ruled {
        proof: item,
        size,
        rule: _,
    } = read_ruled(&Rulebook::Four, tail)?;
    Ok(Sized { item, size })
}

// Whether a proof's number is its place, and its proposition is there.
fn is_next(counts: Counts, unowned: Unowned, proof: Proof) -> bool
    ensures { result ≡ is_next (counts_out counts) (unowned_out unowned) (proof_record proof) }
{
    (proof.proof_id.place() == unowned.proof)
        & (proof.proposition_index.place() < counts.propositions)
}

// Whether a proof's first witness and first parent are the next unowned.
fn is_contiguous(unowned: Unowned, proof: Proof) -> bool
    ensures { result ≡ is_contiguous (unowned_out unowned) (proof_record proof) }
{
    (proof.witness_first.place() == unowned.witness)
        & (proof.parent_first as usize == unowned.parent)
}

// Whether a proof's witnesses and parents end within their tables. The sums are wide.
fn ends_within(counts: Counts, proof: Proof) -> bool
    ensures { result ≡ ends_within (counts_out counts) (proof_record proof) }
{
    let witnesses = proof.witness_first.place() + proof.witness_count as usize;
    let parents = proof.parent_first as usize + proof.parent_count as usize;
    (witnesses <= counts.witnesses) & (parents <= counts.parents)
}

// Whether a proof's witness count, parent count and operation are the rule's.
#[tactic(auto, unfolding(evr0_section::specs::Proof::has_numbers))]
fn has_numbers(rule: Rule, proof: Proof) -> bool
    ensures { (name : List ℕ) → result ≡ has_numbers (rule_out name rule) (proof_record proof) }
{
    (proof.witness_count == rule.witnesses as u32)
        & ((proof.parent_count == rule.parents as u32)
            & (proof.authorized_operation == rule.operation))
}

// The rule of a proof that is the next one, by what its rule's text names.
#[tactic(auto, unfolding(evr0_section::specs::Proof::check_proof))]
pub fn check_proof(
    named: Option<Rule>,
    counts: Counts,
    unowned: Unowned,
    proof: Proof,
) -> Result<Rule, Refusal>
    ensures { (rules : List of.Rule) (name : List ℕ) → named_out name named ≡ rule_named rules name
        → answer_out (rule_out name) result ≡ check_proof rules (counts_out counts) (unowned_out unowned) name (proof_record proof) }
{
    check(is_next(counts, unowned, proof), 17, 0)?;
    check(is_contiguous(unowned, proof), 18, 0)?;
    check(ends_within(counts, proof), 19, 0)?;
    let Some(rule) = named else {
        return Err(refuse(20, 0));
    };
    check(has_numbers(rule, proof), 21, 0)?;
    Ok(rule)
}
