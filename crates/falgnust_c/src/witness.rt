// A witness of a section by number, for which the section is decoded anew, and at a place of its payload.
ghost use Rattle.std.specs.Prelude.{◌≡◌};
ghost use Rattle.evr0_section.specs.Head.{span_width};
ghost use Rattle.evr0_section.specs.Witness.{witness_of};
ghost use Rattle.rule_table.specs.ByTable.{table};
ghost use Rattle.evr0.specs.Answer.{lent_of};
ghost use Rattle.evr0_read.specs.Asked.{Answers, AnswersBy};
ghost use Rattle.evr0_read.specs.Ask.{witness_number};
ghost use Rattle.evr0_read.specs.Entry.{placed_witness, record_at};
ghost use Rattle.evr0_read.specs.Place.{witness_place};
ghost use Rattle.evr0_read.specs.Maps.{witness_beside, witness_told};
ghost use Rattle.falgnust.specs.EntryMaps.{flat_witness};

use falgnust::witness::Witness;

#[unsafe(no_mangle)]
pub extern "C" fn falgnust_witness_number(
    bytes: &[u8],
    cursor: usize,
    number: u32,
    propositions: &mut [u64],
    proofs: &mut [u64],
    depths: &mut [u64],
) -> Witness
    ensures { Answers (witness_number number) (λ x. flat_witness (witness_told x)) bytes.now cursor
        (lent_of propositions.old proofs.old depths.old)
        (lent_of propositions.new proofs.new depths.new) result }
{
    falgnust::witness::falgnust_witness_number(bytes, cursor, number, propositions, proofs, depths)
}

// By a table of rules, which is loaded before the section is looked at.
#[unsafe(no_mangle)]
pub extern "C" fn falgnust_witness_number_by_rules(
    rules: &[u8],
    bytes: &[u8],
    cursor: usize,
    number: u32,
    propositions: &mut [u64],
    proofs: &mut [u64],
    depths: &mut [u64],
) -> Witness
    ensures { AnswersBy (table rules.now) (witness_number number) (λ x. flat_witness (witness_told x)) bytes.now cursor
        (lent_of propositions.old proofs.old depths.old)
        (lent_of propositions.new proofs.new depths.new) result }
{
    falgnust::witness::falgnust_witness_number_by_rules(
        rules,
        bytes,
        cursor,
        number,
        propositions,
        proofs,
        depths,
    )
}

// The witness at a place of a payload of this schema. A schema other than 2 means spans whose ends have 4 bytes.
// Kept (1a): C gives the schema as its number.
#[unsafe(no_mangle)]
pub extern "C" fn falgnust_read_witness(payload: &[u8], schema: u16, at: usize) -> Witness
    ensures { result ≡ flat_witness (witness_beside (record_at (witness_of (span_width schema)) placed_witness payload.now at)) }
{
    falgnust::witness::falgnust_read_witness(payload, schema, at)
}

// Where the witness with a number starts in the payload, of `len` bytes, of an accepted section with this schema and these counts.
// Kept (1a): C gives the schema as its number.
#[unsafe(no_mangle)]
pub extern "C" fn falgnust_witness_place(
    len: usize,
    schema: u16,
    witnesses: usize,
    parents: usize,
    number: u32,
) -> usize
    ensures { result ≡ witness_place len (span_width schema) witnesses parents number }
{
    falgnust::witness::falgnust_witness_place(len, schema, witnesses, parents, number)
}
