// The rounds over the proofs of a payload whose tables have been read, made in place.
ghost use Rattle.std.specs.Prelude.{◌≡◌, ℕ, List, Some, unwrap_or, ◌≤◌, ◌<◌, length, take};
ghost use Rattle.local_format.specs.Maps.{answer_out};
ghost use Rattle.derivation.specs.Rule.{Rule};
ghost use Rattle.derivation.specs.Section.{proof_at};
ghost use Rattle.rounds.specs.Rounds as of;
ghost use Rattle.rounds.specs.InPlace.{was_marked, were_marked, turn_in};
ghost use Rattle.evr0_pass.specs.View.{TablesThere};
ghost use Rattle.evr0_pass.specs.Maps.{layout_out, tables_in};
ghost use Rattle.evr0_rounds.specs.Steps.{FirstUnmarked, RoundDue, Done, Fills};
ghost use Rattle.evr0_pass.specs.Tables.{tables_by};

use crate::kin::check_kin;
use evr0_pass::pass::{Layout, Tables};
use lent_table::{clear, clear_from};
use local_format::refusal::{Refusal, check};

// Whether the proof j was marked in an earlier round: its entry is neither 0 nor this round.
#[tactic(auto, unfolding(rounds::specs::InPlace::was_marked))]
fn was_marked(rounds: &[u64], round: u64, j: usize) -> bool
    ensures { result ≡ was_marked round rounds.now j }
{
    let entry = rounds.get(j).copied().unwrap_or(0);
    (entry != 0) & (entry != round)
}

// Whether the parents of the proof i all were.
// Kept (5d): `mark_round` writes the rounds that this and `turn_of` read, so a struct would have `tables` and `round` alone, one parameter fewer of four.
fn were_marked(tables: Tables, rounds: &[u64], round: u64, i: usize) -> bool
    requires { i < length tables.starts.now }
    ensures { (rules : List Rule) → result ≡ were_marked (tables_by rules tables.entry) round rounds.now
        (proof_at (tables_by rules tables.entry) i).parent_count (proof_at (tables_by rules tables.entry) i).first_parent }
{
    let (first, end) = tables.cells(i);
    for cell in first..end {
        if !was_marked(rounds, round, tables.parent(cell)) {
            return false;
        }
    }
    true
}

// The proof i in its turn.
// Kept (1a, 6a): 0 is an unmarked proof's entry in the table of rounds that C lends; parents are numbers of the payload.
#[tactic(auto, unfolding(rounds::specs::InPlace::turn_in))]
fn turn_of(tables: Tables, rounds: &[u64], round: u64, i: usize) -> u64
    requires { (i < length tables.starts.now) × (length rounds.now ≡ length tables.starts.now) }
    ensures { (rules : List Rule) → result ≡ turn_in (tables_by rules tables.entry) round rounds.now i }
{
    let entry = rounds[i];
    if entry != 0 {
        entry
    } else if were_marked(tables, rounds, round, i) {
        round
    } else {
        0
    }
}

// One round, from the first unmarked proof on.
// Kept (6a): C lends the starts and the rounds as two tables.
fn mark_round(tables: Tables, round: u64, first: usize, rounds: &mut [u64])
    requires { RoundDue (length tables.starts.now) round first rounds.old }
    ensures { (rules : List Rule) → rounds.new
        ≡ of.turns (tables_by rules tables.entry) round rounds.old (length tables.entry.starts.now) 0 }
{
    for i in first..tables.starts.len() {
        let turn = turn_of(tables, rounds, round, i);
        rounds[i] = turn;
    }
}

// The first unmarked proof from `from` on.
// Kept (6c): by `position` the proof that no entry passed is 0 did not close.
fn first_unmarked(rounds: &[u64], from: usize) -> Option<usize>
    requires { from ≤ length rounds.now }
    ensures first { FirstUnmarked rounds.now from (unwrap_or result (length rounds.now)) }
    ensures there { (i : ℕ) → result ≡ Some i → i < length rounds.now }
{
    for i in from..rounds.len() {
        if rounds[i] == 0 {
            return Some(i);
        }
    }
    None
}

// The rounds, until no proof is left; 27 where one is after 256.
// Kept (6a): C lends the starts and the rounds as two tables.
fn mark_rounds(tables: Tables, rounds: &mut [u64]) -> Result<(), Refusal>
    requires { length rounds.old ≡ length tables.starts.now }
    ensures { (rules : List Rule) → Done (tables_by rules tables.entry) rounds.new (answer_out (λ done. done) result) }
{
    clear(rounds);
    let mut first = 0;
    for done in 0..256 {
        let Some(next) = first_unmarked(rounds, first) else {
            return Ok(());
        };
        first = next;
        mark_round(tables, done + 1, first, rounds);
    }
    check(first_unmarked(rounds, first).is_none(), 27, 0)
}

// 25 and 26 of each proof, then its round, with zeros past the rounds; 27 where a proof is unmarked after 256 rounds.
fn fill_rounds(tables: Tables, rounds: &mut [u64]) -> Result<(), Refusal>
    requires { length tables.starts.now ≤ length rounds.old }
    ensures { (rules : List Rule) → Fills (of.rounds tables.entry.layout.parents_at (tables_by rules tables.entry))
        rounds.old rounds.new (answer_out (λ done. done) result) }
{
    check_kin(tables)?;
    let count = tables.starts.len();
    mark_rounds(tables, &mut rounds[..count])?;
    clear_from(rounds, count);
    Ok(())
}

// The same over the proofs that start at the front of a table, which stays as it is.
pub fn fill_front(
    payload: &[u8],
    layout: Layout,
    proofs: &mut [u64],
    rounds: &mut [u64],
) -> Result<(), Refusal>
    requires tables_there { TablesThere payload.now (take layout.counts.proofs proofs.old) (layout_out layout) }
    requires room { (layout.counts.proofs ≤ length proofs.old) × (layout.counts.proofs ≤ length rounds.old) }
    ensures kept { proofs.new ≡ proofs.old }
    ensures fills { (rules : List Rule) → Fills
        (of.rounds layout.parents_at (tables_in rules payload.now (take layout.counts.proofs proofs.old) layout))
        rounds.old rounds.new (answer_out (λ done. done) result) }
{
    let tables = Tables {
        payload,
        starts: &proofs[..layout.counts.proofs],
        layout,
    };
    fill_rounds(tables, rounds)
}
