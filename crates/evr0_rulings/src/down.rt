// The way down: from a proof, always the first parent.
ghost use Rattle.std.specs.Prelude.{◌≡◌, ◌*◌, ◌<◌, length};
ghost use Rattle.derivation.specs.Down.{way_down};
ghost use Rattle.evr0_section.specs.Section.{Section, section_of};
ghost use Rattle.evr0.specs.Answer.{lent_of};
ghost use Rattle.evr0_rules.specs.Maps.{given_out};
ghost use Rattle.local_format.specs.Maps.{answer_out};
ghost use Rattle.evr0_read.specs.Asked.{AnswersBy};
ghost use Rattle.evr0_read.specs.Ask.{proof_number};
ghost use Rattle.evr0_rulings.specs.Held.{Held};
ghost use Rattle.evr0_rulings.specs.Told.{way_down_told};
ghost use Rattle.evr0_rulings.specs.Maps.{down_out};

use crate::held::proof_in;
use evr0_fields::number::{ProofNumber, WitnessNumber};
use evr0_read::cell::start_before;
use evr0_read::find::{Found, find};
use evr0_read::table::{front, payload_of};
use evr0_records::proof::Proof;
use evr0_records::sized::Sized;
use evr0_rules::settle::Rules;
use local_format::field::{Field, field_at};
use local_format::part::tail;
use local_format::refusal::Refusal;

#[derive(Clone, Copy, Debug, PartialEq, Eq)]
pub enum Down {
    Witness { witness: WitnessNumber, moves: u64 },
    Spent(ProofNumber),
}

// Where a proof's first parent cell starts, in the table of parent cells.
fn first_cell(proof: Proof) -> usize
    ensures { result ≡ 4 * proof.parent_first }
{
    4 * (proof.parent_first as usize)
}

// From a proof of an accepted section, whose parent cells start at `cells`.
// Kept (6a): parents are numbers of the payload.
fn down_from(payload: &[u8], starts: &[u64], cells: usize, from: ProofNumber, limit: u64) -> Down
    ensures { (d : Section) → Held payload.now starts.now d → cells ≡ d.tables.witnesses.next
        → from.0 < length starts.now → down_out result ≡ way_down (section_of d.tables) limit from.0 }
{
    let table = tail(payload, cells);
    let mut reached = from;
    let mut moves = 0;
    // Kept (3d): what is read ends the walk; after a `for` over the moves an answer would be written that is never reached.
    loop {
        let read = proof_in(payload, starts, reached);
        let Ok(Sized { item: proof, .. }) = read else {
            return Down::Spent(from);
        };
        if proof.parent_count == 0 {
            let witness = proof.witness_first;
            return Down::Witness { witness, moves };
        }
        if moves == limit {
            return Down::Spent(reached);
        }
        let cell = field_at::<u32>(table, first_cell(proof));
        let Some(Field { value, .. }) = cell else {
            return Down::Spent(from);
        };
        reached = ProofNumber(value);
        moves += 1;
    }
}

// The way down from a proof of the section at a cursor, which is decoded anew by the rules of a call.
pub fn way_down(
    rules: Rules,
    bytes: &[u8],
    cursor: usize,
    from: ProofNumber,
    limit: u64,
    propositions: &mut [u64],
    proofs: &mut [u64],
    depths: &mut [u64],
) -> Result<Down, Refusal>
    ensures { AnswersBy (given_out rules.entry) (proof_number from.0) (way_down_told limit from.0) bytes.now cursor
        (lent_of propositions.old proofs.old depths.old)
        (lent_of propositions.new proofs.new depths.new) (answer_out down_out result) }
{
    let Found { end, counts, .. } = find(rules, bytes, cursor, from, propositions, proofs, depths)?;
    let payload = payload_of(bytes, cursor, end);
    let cells = start_before(payload.len(), 4, counts.parents);
    Ok(down_from(payload, front(proofs, counts.proofs), cells, from, limit))
}
