// A parent cell of a section by number, for which the section is decoded anew, and at a place of its payload.
ghost use Rattle.std.specs.Prelude.{◌≡◌};
ghost use Rattle.evr0_section.specs.Witness.{parent_row};
ghost use Rattle.rule_table.specs.ByTable.{table};
ghost use Rattle.evr0.specs.Answer.{lent_of};
ghost use Rattle.evr0_read.specs.Asked.{Answers, AnswersBy};
ghost use Rattle.evr0_read.specs.Ask.{parent_number, entry_told};
ghost use Rattle.evr0_read.specs.Entry.{placed_parent, record_at};
ghost use Rattle.evr0_read.specs.Place.{parent_place};
ghost use Rattle.falgnust.specs.EntryMaps.{flat_parent};

use falgnust::parent::Parent;

#[unsafe(no_mangle)]
pub extern "C" fn falgnust_parent_number(
    bytes: &[u8],
    cursor: usize,
    number: u32,
    propositions: &mut [u64],
    proofs: &mut [u64],
    depths: &mut [u64],
) -> Parent
    ensures { Answers (parent_number number) (λ x. flat_parent (entry_told x)) bytes.now cursor
        (lent_of propositions.old proofs.old depths.old)
        (lent_of propositions.new proofs.new depths.new) result }
{
    falgnust::parent::falgnust_parent_number(bytes, cursor, number, propositions, proofs, depths)
}

// By a table of rules, which is loaded before the section is looked at.
#[unsafe(no_mangle)]
pub extern "C" fn falgnust_parent_number_by_rules(
    rules: &[u8],
    bytes: &[u8],
    cursor: usize,
    number: u32,
    propositions: &mut [u64],
    proofs: &mut [u64],
    depths: &mut [u64],
) -> Parent
    ensures { AnswersBy (table rules.now) (parent_number number) (λ x. flat_parent (entry_told x)) bytes.now cursor
        (lent_of propositions.old proofs.old depths.old)
        (lent_of propositions.new proofs.new depths.new) result }
{
    falgnust::parent::falgnust_parent_number_by_rules(
        rules,
        bytes,
        cursor,
        number,
        propositions,
        proofs,
        depths,
    )
}

#[unsafe(no_mangle)]
pub extern "C" fn falgnust_read_parent(payload: &[u8], at: usize) -> Parent
    ensures { result ≡ flat_parent (record_at (parent_row tt) placed_parent payload.now at) }
{
    falgnust::parent::falgnust_read_parent(payload, at)
}

// Where the parent cell with a number starts in the payload, of `len` bytes, of an accepted section with so many parents.
#[unsafe(no_mangle)]
pub extern "C" fn falgnust_parent_place(len: usize, parents: usize, number: u32) -> usize
    ensures { result ≡ parent_place len parents number }
{
    falgnust::parent::falgnust_parent_place(len, parents, number)
}
