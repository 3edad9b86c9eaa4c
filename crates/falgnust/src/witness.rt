// A witness of a section by number, for which the section is decoded anew, and at a place of its payload.
ghost use Rattle.std.specs.Prelude.{◌≡◌};
ghost use Rattle.local_format.specs.Maps.{answer_out};
ghost use Rattle.evr0_section.specs.Head.{span_width};
ghost use Rattle.evr0_section.specs.Witness.{witness_of};
ghost use Rattle.rule_table.specs.ByTable.{table};
ghost use Rattle.evr0.specs.Answer.{lent_of};
ghost use Rattle.evr0_read.specs.Asked.{Answers, AnswersBy};
ghost use Rattle.evr0_read.specs.Ask.{witness_number};
ghost use Rattle.evr0_read.specs.Entry.{placed_witness, record_at};
ghost use Rattle.evr0_read.specs.Place.{witness_place};
ghost use Rattle.evr0_records.specs.Maps.{witness_record};
ghost use Rattle.evr0_read.specs.Maps.{entry_out, witness_beside, witness_told};
ghost use Rattle.falgnust.specs.EntryMaps.{flat_witness};

use crate::refusal::{Answer, Refusal};
use evr0_fields::number::WitnessNumber;
use evr0_head::counts::Counts;
use evr0_read::ask::by_number;
use evr0_read::cell::{witness_at, witness_place};
use evr0_read::entry::Entry;
use evr0_rules::settle::Rules;

// Where the record starts in the payload, and its fields; or a refusal, with zeros beside it.
// Kept (1a): callers in C read a flag, the polarity as its number, and the values beside them.
#[repr(C)]
#[derive(Clone, Copy, Debug, Default, PartialEq, Eq)]
pub struct Witness {
    pub accepted: bool,
    pub refusal: Refusal,
    pub start: usize,
    pub file_digest: [u8; 32],
    pub origin_digest: [u8; 32],
    pub witness_id: u32,
    pub proposition_index: u32,
    pub polarity: u8,
    pub source_start: u64,
    pub source_end: u64,
}

impl From<Answer<Entry<evr0_records::witness::Witness>>> for Witness {
    ghost from_gives = { λ entry x. x ≡ flat_witness (witness_beside (answer_out (entry_out witness_record) entry)) };

    fn from(entry: Answer<Entry<evr0_records::witness::Witness>>) -> Witness {
        match entry {
            Ok(Entry { start, item }) => {
                let file_digest = item.file_digest;
                let origin_digest = item.origin_digest;
                Witness {
                    accepted: true,
                    start,
                    file_digest,
                    origin_digest,
                    witness_id: item.witness_id.0,
                    proposition_index: item.proposition_index.0,
                    polarity: item.polarity,
                    source_start: item.source_start,
                    source_end: item.source_end,
                    ..Witness::default()
                }
            }
            Err(refused) => Witness {
                refusal: refused.into(),
                file_digest: [0; 32],
                origin_digest: [0; 32],
                ..Witness::default()
            },
        }
    }
}

#[unsafe(no_mangle)]
pub extern "C" fn falgnust_witness_number(
    bytes: &[u8],
    cursor: usize,
    number: u32,
    propositions: &mut [u64],
    proofs: &mut [u64],
    depths: &mut [u64],
) -> Witness
    ensures { Answers (witness_number number) (λ x. flat_witness (witness_told x)) bytes.now cursor
        (lent_of propositions.old proofs.old depths.old)
        (lent_of propositions.new proofs.new depths.new) result }
{
    by_number(
        Rules::Four,
        bytes,
        cursor,
        WitnessNumber(number),
        propositions,
        proofs,
        depths,
    )
    .into()
}

// By a table of rules, which is loaded before the section is looked at.
#[unsafe(no_mangle)]
pub extern "C" fn falgnust_witness_number_by_rules(
    rules: &[u8],
    bytes: &[u8],
    cursor: usize,
    number: u32,
    propositions: &mut [u64],
    proofs: &mut [u64],
    depths: &mut [u64],
) -> Witness
    ensures { AnswersBy (table rules.now) (witness_number number) (λ x. flat_witness (witness_told x)) bytes.now cursor
        (lent_of propositions.old proofs.old depths.old)
        (lent_of propositions.new proofs.new depths.new) result }
{
    by_number(
        Rules::Table(rules),
        bytes,
        cursor,
        WitnessNumber(number),
        propositions,
        proofs,
        depths,
    )
    .into()
}

// The witness at a place of a payload of this schema. A schema other than 2 means spans whose ends have 4 bytes.
// Kept (1a): C gives the schema as its number, and any number.
#[unsafe(no_mangle)]
pub extern "C" fn falgnust_read_witness(payload: &[u8], schema: u16, at: usize) -> Witness
    ensures { result ≡ flat_witness (witness_beside (record_at (witness_of (span_width schema)) placed_witness payload.now at)) }
{
    witness_at(payload, schema, at).into()
}

// Where the witness with a number starts in the payload, of `len` bytes, of an accepted section with this schema and these counts.
// Kept (1a): C gives the schema as its number, and has no Option: 0, where no record stands, for no place.
#[unsafe(no_mangle)]
pub extern "C" fn falgnust_witness_place(
    len: usize,
    schema: u16,
    witnesses: usize,
    parents: usize,
    number: u32,
) -> usize
    ensures { result ≡ witness_place len (span_width schema) witnesses parents number }
{
    let counts = Counts {
        propositions: 0,
        proofs: 0,
        witnesses,
        parents,
    };
    witness_place(len, schema, counts, WitnessNumber(number))
}
