// Witnesses and parents of a payload, at a place and by number: they are as many bytes each, and stand at its end.
ghost use Rattle.std.specs.Prelude.{◌≡◌, ◌-◌, ◌*◌};
ghost use Rattle.local_format.specs.Maps.{answer_out};
ghost use Rattle.evr0_section.specs.Head.{span_width};
ghost use Rattle.evr0_section.specs.Witness.{witness_of, parent_row};
ghost use Rattle.evr0_records.specs.Maps.{witness_record};
ghost use Rattle.evr0_read.specs.Entry.{placed_witness, placed_parent, record_at};
ghost use Rattle.evr0_read.specs.Place.{witness_place, parent_place};
ghost use Rattle.evr0_read.specs.Maps.{entry_out, parent_number};

use crate::entry::Entry;
use evr0_fields::number::{ProofNumber, WitnessNumber};
use evr0_fields::schema::witness_size;
use evr0_head::counts::Counts;
use evr0_records::parent::read_parent;
use evr0_records::witness::{Witness, read_witness};
use local_format::part::tail;
use local_format::refusal::Refusal;

// The number of a parent cell.
#[derive(Clone, Copy, Debug, PartialEq, Eq)]
pub struct ParentNumber(pub u32);

// Where so many records of a size that end at a place start; 0 where they do not fit.
// Kept (1a): the definition's `-` ends at 0, and the contract equates with it; no caller asks whether they fit.
pub fn start_before(end: usize, size: usize, count: usize) -> usize
    ensures { result ≡ end - size * count }
{
    end.saturating_sub(size.saturating_mul(count))
}

// Where a witness starts in a payload of `len` bytes; 0 where there is none with the number.
// Kept (1a): `falgnust_witness_place` takes any schema and hands this number to C, 0 for none, as the definition has it.
// Kept (2d): what it shares with `parent_place` is `start_before`; behind the witnesses stand the parents too.
pub fn witness_place(len: usize, schema: u16, counts: Counts, number: WitnessNumber) -> usize
    ensures { result ≡ witness_place len (span_width schema) counts.witnesses counts.parents number.0 }
{
    let i = number.place();
    if counts.witnesses <= i {
        return 0;
    }
    let parents_at = start_before(len, 4, counts.parents);
    start_before(parents_at, witness_size(schema), counts.witnesses - i)
}

// Where a parent cell starts in a payload of `len` bytes; 0 where there is none with the number.
// Kept (1a): `falgnust_parent_place` hands this number to callers in C, who read 0 for none.
pub fn parent_place(len: usize, counts: Counts, number: ParentNumber) -> usize
    ensures { result ≡ parent_place len counts.parents number.0 }
{
    let i = number.0 as usize;
    if counts.parents <= i {
        return 0;
    }
    start_before(len, 4, counts.parents - i)
}

// The witness that starts at a place.
// Kept (1a): as `falgnust_read_witness` it takes any u16 as the schema; an enum of the two would refuse what it took.
#[tactic(auto, unfolding(crate::specs::Entry::record_at))]
pub fn witness_at(payload: &[u8], schema: u16, at: usize) -> Result<Entry<Witness>, Refusal>
    ensures { answer_out (entry_out witness_record) result ≡ record_at (witness_of (span_width schema)) placed_witness payload.now at }
{
    let read = read_witness(tail(payload, at), schema)?;
    Ok(Entry {
        start: at,
        item: read.item,
    })
}

// The parent cell that starts at a place.
#[tactic(auto, unfolding(crate::specs::Entry::record_at))]
pub fn parent_at(payload: &[u8], at: usize) -> Result<Entry<ProofNumber>, Refusal>
    ensures { answer_out (entry_out parent_number) result ≡ record_at (parent_row tt) placed_parent payload.now at }
{
    let read = read_parent(tail(payload, at))?;
    Ok(Entry {
        start: at,
        item: read.item,
    })
}
