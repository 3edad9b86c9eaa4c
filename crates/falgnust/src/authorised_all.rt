// An evidence section, with a byte for each proposition: 1 where it is authorised, else 0.
ghost use Rattle.rule_table.specs.ByTable.{four, table};
ghost use Rattle.evr0.specs.Answer.{lent_of};
ghost use Rattle.evr0_marks.specs.Answer.{with_marks};
ghost use Rattle.authorised_table.specs.Answer.{with_authorised};
ghost use Rattle.falgnust.specs.SectionMaps.{Tells};

use crate::section::Section;
use authorised_table::table::authorised_table;
use evr0_rules::settle::Rules;

#[unsafe(no_mangle)]
pub extern "C" fn falgnust_authorised_table(
    bytes: &[u8],
    cursor: usize,
    propositions: &mut [u64],
    proofs: &mut [u64],
    depths: &mut [u64],
    marks: &mut [u8],
    authorised: &mut [u8],
) -> Section
    ensures { Tells four bytes.now cursor
        (with_authorised (with_marks (lent_of propositions.old proofs.old depths.old) marks.old)
        authorised.old)
        (with_authorised (with_marks (lent_of propositions.new proofs.new depths.new) marks.new)
        authorised.new) result }
{
    authorised_table(
        Rules::Four,
        bytes,
        cursor,
        propositions,
        proofs,
        depths,
        marks,
        authorised,
    )
    .into()
}

// By a table of rules, which is loaded before the section is looked at.
#[unsafe(no_mangle)]
pub extern "C" fn falgnust_authorised_table_by_rules(
    rules: &[u8],
    bytes: &[u8],
    cursor: usize,
    propositions: &mut [u64],
    proofs: &mut [u64],
    depths: &mut [u64],
    marks: &mut [u8],
    authorised: &mut [u8],
) -> Section
    ensures { Tells (table rules.now) bytes.now cursor
        (with_authorised (with_marks (lent_of propositions.old proofs.old depths.old) marks.old)
        authorised.old)
        (with_authorised (with_marks (lent_of propositions.new proofs.new depths.new) marks.new)
        authorised.new) result }
{
    authorised_table(
        Rules::Table(rules),
        bytes,
        cursor,
        propositions,
        proofs,
        depths,
        marks,
        authorised,
    )
    .into()
}
