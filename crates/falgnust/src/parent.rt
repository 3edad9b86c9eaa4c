// A parent cell of a section by number, for which the section is decoded anew, and at a place of its payload.
ghost use Rattle.std.specs.Prelude.{◌≡◌};
ghost use Rattle.local_format.specs.Maps.{answer_out};
ghost use Rattle.evr0_section.specs.Witness.{parent_row};
ghost use Rattle.rule_table.specs.ByTable.{table};
ghost use Rattle.evr0.specs.Answer.{lent_of};
ghost use Rattle.evr0_read.specs.Asked.{Answers, AnswersBy};
ghost use Rattle.evr0_read.specs.Ask.{parent_number, entry_told};
ghost use Rattle.evr0_read.specs.Entry.{placed_parent, record_at};
ghost use Rattle.evr0_read.specs.Place.{parent_place};
ghost use Rattle.evr0_read.specs.Maps as maps;
ghost use Rattle.evr0_read.specs.Maps.{entry_out};
ghost use Rattle.falgnust.specs.EntryMaps.{flat_parent};

use crate::refusal::{Answer, Refusal};
use evr0_fields::number::ProofNumber;
use evr0_head::counts::Counts;
use evr0_read::ask::by_number;
use evr0_read::cell::{ParentNumber, parent_at, parent_place};
use evr0_read::entry::Entry;
use evr0_rules::settle::Rules;

// Where the cell starts in the payload, and the proof's number in it; or a refusal, with zeros beside it.
// Kept (1a): callers in C read a flag and the values beside it.
#[repr(C)]
#[derive(Clone, Copy, Debug, Default, PartialEq, Eq)]
pub struct Parent {
    pub accepted: bool,
    pub refusal: Refusal,
    pub start: usize,
    pub proof_id: u32,
}

impl From<Answer<Entry<ProofNumber>>> for Parent {
    ghost from_gives = { λ entry x. x ≡ flat_parent (answer_out (entry_out maps.parent_number) entry) };

    fn from(entry: Answer<Entry<ProofNumber>>) -> Parent {
        match entry {
            Ok(Entry { start, item }) => Parent {
                accepted: true,
                start,
                proof_id: item.0,
                ..Parent::default()
            },
            Err(refused) => Parent {
                refusal: refused.into(),
                ..Parent::default()
            },
        }
    }
}

#[unsafe(no_mangle)]
pub extern "C" fn falgnust_parent_number(
    bytes: &[u8],
    cursor: usize,
    number: u32,
    propositions: &mut [u64],
    proofs: &mut [u64],
    depths: &mut [u64],
) -> Parent
    ensures { Answers (parent_number number) (λ x. flat_parent (entry_told x)) bytes.now cursor
        (lent_of propositions.old proofs.old depths.old)
        (lent_of propositions.new proofs.new depths.new) result }
{
    by_number(
        Rules::Four,
        bytes,
        cursor,
        ParentNumber(number),
        propositions,
        proofs,
        depths,
    )
    .into()
}

// By a table of rules, which is loaded before the section is looked at.
#[unsafe(no_mangle)]
pub extern "C" fn falgnust_parent_number_by_rules(
    rules: &[u8],
    bytes: &[u8],
    cursor: usize,
    number: u32,
    propositions: &mut [u64],
    proofs: &mut [u64],
    depths: &mut [u64],
) -> Parent
    ensures { AnswersBy (table rules.now) (parent_number number) (λ x. flat_parent (entry_told x)) bytes.now cursor
        (lent_of propositions.old proofs.old depths.old)
        (lent_of propositions.new proofs.new depths.new) result }
{
    by_number(
        Rules::Table(rules),
        bytes,
        cursor,
        ParentNumber(number),
        propositions,
        proofs,
        depths,
    )
    .into()
}

#[unsafe(no_mangle)]
pub extern "C" fn falgnust_read_parent(payload: &[u8], at: usize) -> Parent
    ensures { result ≡ flat_parent (record_at (parent_row tt) placed_parent payload.now at) }
{
    parent_at(payload, at).into()
}

// Where the parent cell with a number starts in the payload, of `len` bytes, of an accepted section with so many parents.
// Kept (1a): C has no Option: 0, where no record stands, for no place.
#[unsafe(no_mangle)]
pub extern "C" fn falgnust_parent_place(len: usize, parents: usize, number: u32) -> usize
    ensures { result ≡ parent_place len parents number }
{
    let counts = Counts {
        propositions: 0,
        proofs: 0,
        witnesses: 0,
        parents,
    };
    parent_place(len, counts, ParentNumber(number))
}
