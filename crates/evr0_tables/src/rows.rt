// The next record of a table, with its checks.
ghost use Rattle.std.specs.Prelude.{◌≡◌, drop};
ghost use Rattle.local_format.specs.Maps.{answer_out};
ghost use Rattle.evr0_section.specs.Head.{span_width};
ghost use Rattle.evr0_section.specs.Proposition.{proposition_row, rises, key_of};
ghost use Rattle.evr0_section.specs.Proof.{proof_row};
ghost use Rattle.evr0_section.specs.Witness.{witness_row};
ghost use Rattle.evr0_head.specs.Maps.{counts_out};
ghost use Rattle.evr0_rules.specs.Maps.{book_rules};
ghost use Rattle.evr0_records.specs.Maps.{unowned_out, proposition_record, proof_record};
ghost use Rattle.evr0_tables.specs.Maps.{kept_in, kept_out, before_out, before_in, after_record, noted_in, noted_out, size_in};

use evr0_head::counts::Counts;
use evr0_records::proof::{Proof, Ruled, Unowned, check_proof, read_ruled};
use evr0_records::proposition::{Proposition, precedes, read_proposition};
use evr0_records::sized::Sized;
use evr0_records::witness::{check_witness, read_witness};
use evr0_rules::settle::Rulebook;
use local_format::part::tail;
use local_format::refusal::{Refusal, check};

// A record's size, and what the next one is read and checked by.
#[derive(Clone, Copy, Debug, PartialEq, Eq)]
pub struct Kept<S> {
    pub size: usize,
    pub state: S,
}

// The proposition before, and where it starts.
#[derive(Clone, Copy)]
pub struct Before {
    pub start: usize,
    pub proposition: Proposition,
}

#[tactic(auto, unfolding(evr0_section::specs::Proposition::rises))]
fn rises(payload: &[u8], before: Option<Before>, part: &[u8], proposition: Proposition) -> bool
    ensures { result ≡ rises (before_in payload.now before) (key_of part.now (proposition_record proposition)) }
{
    before.is_none_or(|b| precedes(tail(payload, b.start), b.proposition, part, proposition))
}

// The proposition at `at`, after the one before.
// Kept (2d): one function for the three rows takes what differs, `next_row(payload, at, read, check, keep)`, and that is all there is of each.
#[tactic(auto, unfolding(evr0_section::specs::Proposition::proposition_row))]
pub fn next_proposition(
    payload: &[u8],
    at: usize,
    before: Option<Before>,
) -> Result<Kept<Before>, Refusal>
    ensures { answer_out (kept_out (before_out payload.now)) result
        ≡ kept_in (proposition_row (before_in payload.now before) (drop at payload.now)) }
{
    let part = tail(payload, at);
    let Sized {
        item: proposition,
        size,
    } = read_proposition(part)?;
    check(rises(payload, before, part, proposition), 16, 0)?;
    Ok(Kept {
        size,
        state: Before {
            start: at,
            proposition,
        },
    })
}

// The polarity that a proof's rule asks, beside what is kept of the proof.
#[derive(Clone, Copy)]
pub struct Noted {
    // Kept (1a): a byte of a table of rules, as it was read; it goes into the lent table of depths, whose entries are words.
    pub polarity: u8,
    pub kept: Kept<Unowned>,
}

// The number after a proof's, and what comes after its witnesses and parents.
fn after_proof(proof: Proof) -> Unowned
    ensures { unowned_out result ≡ after_record (proof_record proof) }
{
    Unowned {
        proof: proof.proof_id.place() + 1,
        witness: proof.witness_first.place() + proof.witness_count as usize,
        parent: proof.parent_first as usize + proof.parent_count as usize,
    }
}

// The proof at `at`, which is to be the next one.
pub fn next_proof(
    rules: &Rulebook,
    payload: &[u8],
    at: usize,
    counts: Counts,
    unowned: Unowned,
) -> Result<Noted, Refusal>
    ensures { answer_out noted_out result ≡ noted_in (proof_row (book_rules rules.now) (counts_out counts)
        (unowned_out unowned) (drop at payload.now)) }
{
    let Ruled { proof, size, rule } = read_ruled(rules, tail(payload, at))?;
    let rule = check_proof(rule, counts, unowned, proof)?;
    Ok(Noted {
        polarity: rule.polarity,
        kept: Kept {
            size,
            state: after_proof(proof),
        },
    })
}

// The size of the witness at `at`, which is to be the next one.
// Kept (1a): the number of the head, which callers in C read; the readers of a witness take any u16 as the schema.
#[tactic(auto, unfolding(evr0_section::specs::Witness::witness_row))]
pub fn next_witness(
    payload: &[u8],
    at: usize,
    schema: u16,
    counts: Counts,
    number: usize,
) -> Result<usize, Refusal>
    ensures { answer_out (λ n. n) result ≡ size_in (witness_row (span_width schema) (counts_out counts) number (drop at payload.now)) }
{
    let Sized {
        item: witness,
        size,
    } = read_witness(tail(payload, at), schema)?;
    check_witness(counts, number, &witness)?;
    Ok(size)
}
