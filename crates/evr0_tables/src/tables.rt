// The tables of a payload, each from a place on, with the starts of its records at the front of a lent table.
ghost use Rattle.std.specs.Prelude.{◌≡◌, ◌≤◌, map, length};
ghost use Rattle.local_format.specs.Out.{ok};
ghost use Rattle.local_format.specs.Maps.{answer_out};
ghost use Rattle.lent_table.specs.Lent.{laid, Front};
ghost use Rattle.evr0_section.specs.Rows.{Rows, rows};
ghost use Rattle.evr0_section.specs.Head.{span_width};
ghost use Rattle.evr0_section.specs.Proposition.{first, proposition_row};
ghost use Rattle.evr0_section.specs.Proof as of;
ghost use Rattle.evr0_section.specs.Proof.{none_owned, proof_row};
ghost use Rattle.evr0_section.specs.Witness.{witness_row, parent_row};
ghost use Rattle.evr0_head.specs.Maps.{counts_out};
ghost use Rattle.evr0_rules.specs.Maps.{book_rules};
ghost use Rattle.evr0_tables.specs.Maps.{next_in, asked, starts_in, owned_in, owned_out};

use crate::part::moved;
use crate::rows::{next_proof, next_proposition, next_witness};
use evr0_head::counts::Counts;
use evr0_records::proof::Unowned;
use evr0_rules::settle::Rulebook;
use local_format::field::Field;
use local_format::refusal::{Refusal, refuse};

// The place after the propositions.
// Kept (2d): over a closure, as `fill_starts` of semcode_decode, the walk would carry a state and, for proofs, a second table: more than these four lines.
pub fn read_propositions(payload: &[u8], at: usize, starts: &mut [u64]) -> Result<usize, Refusal>
    requires { at ≤ length payload.now }
    ensures result_value { answer_out (λ n. n) result ≡ next_in (rows proposition_row (length starts.old) first payload.now at) }
    ensures front { Front (starts_in (rows proposition_row (length starts.old) first payload.now at)) starts.new }
{
    let mut before = None;
    let mut place = at;
    for start in starts {
        let next = moved(next_proposition(payload, place, before), place)?;
        *start = place as u64; // of a proposition
        before = Some(next.state);
        place += next.size;
    }
    Ok(place)
}

// What is unowned after the proofs, and the place after them. Their starts are put at the front of a lent table, and the polarities that their rules ask at
// the front of another, past which it holds what stood there.
// Kept (6d): `counts` stays for the checks of each proof, so of tables that are cut to their count the same two clauses are to be said, as equalities.
pub fn read_proofs(
    rules: &Rulebook,
    payload: &[u8],
    counts: Counts,
    at: usize,
    starts: &mut [u64],
    polarities: &mut [u64],
) -> Result<Field<Unowned>, Refusal>
    requires proofs_in_bounds { (counts.proofs ≤ length starts.old) × (counts.proofs ≤ length polarities.old) }
    requires at_in_bounds { at ≤ length payload.now }
    ensures result_value { answer_out owned_out result ≡ owned_in (rows (proof_row (book_rules rules.now) (counts_out counts))
        counts.proofs none_owned payload.now at) }
    ensures front { Front (starts_in (rows (proof_row (book_rules rules.now) (counts_out counts)) counts.proofs
        none_owned payload.now at))
        starts.new }
    ensures polarities_after { (t : Rows of.Settled of.Unowned) → rows (proof_row (book_rules rules.now) (counts_out counts))
        counts.proofs none_owned payload.now at ≡ ok t
        → polarities.new ≡ laid (map asked t.entries) polarities.old }
{
    let mut unowned = Unowned {
        proof: 0,
        witness: 0,
        parent: 0,
    };
    let mut place = at;
    for i in 0..counts.proofs {
        let noted = moved(next_proof(rules, payload, place, counts, unowned), place)?;
        starts[i] = place as u64;
        polarities[i] = noted.polarity as u64;
        unowned = noted.kept.state;
        place += noted.kept.size;
    }
    Ok(Field {
        value: unowned,
        next: place,
    })
}

// The place after the witnesses.
// Kept (1a): the number of the head, which callers in C read; the readers of a witness take any u16 as the schema.
pub fn read_witnesses(
    payload: &[u8],
    schema: u16,
    counts: Counts,
    at: usize,
) -> Result<usize, Refusal>
    requires { at ≤ length payload.now }
    ensures { answer_out (λ n. n) result ≡ next_in (rows (witness_row (span_width schema) (counts_out counts)) counts.witnesses 0 payload.now at) }
{
    let mut place = at;
    for number in 0..counts.witnesses {
        place += moved(next_witness(payload, place, schema, counts, number), place)?;
    }
    Ok(place)
}

// The place after the parent cells, which have one size.
pub fn read_parents(payload: &[u8], count: usize, at: usize) -> Result<usize, Refusal>
    requires { (count ≤ 262144) × (at ≤ length payload.now) }
    ensures { answer_out (λ n. n) result ≡ next_in (rows parent_row count tt payload.now at) }
{
    let rest = payload.len() - at;
    if rest < 4 * count {
        return Err(refuse(5, at + 4 * (rest / 4)));
    }
    Ok(at + 4 * count)
}
