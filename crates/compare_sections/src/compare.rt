// Two sections, each in its bytes at its cursor: both are decoded, with their authorised propositions, and then held against each other.
ghost use Rattle.evr0_rules.specs.Maps.{given_out};
ghost use Rattle.evr0_compare.specs.Compare.{told};
ghost use Rattle.compare_sections.specs.Answer.{tables_of, lent_to, Compares};
ghost use Rattle.compare_sections.specs.Parts.{Answers};
ghost use Rattle.compare_sections.specs.Maps.{comparison_out, lent_out, SameTables};

use crate::tables::{Place, Tables};
use evr0_rules::settle::Rules;
use lent_table::clear;
use local_format::refusal::Refusal;
use section_pair::totals::Totals;

// A refusal and whose it is: that of the table of rules, of the first section, of the second, or of the pair.
#[derive(Clone, Copy, Debug, PartialEq, Eq)]
pub enum Fault {
    Rules(Refusal),
    First(Refusal),
    Second(Refusal),
    Pair(Refusal),
}

// Both sections. After a refusal the tables may hold anything.
fn compare(
    rules: Rules,
    first: Place,
    first_tables: &mut Tables,
    second: Place,
    second_tables: &mut Tables,
    verdicts: &mut [u8],
) -> Result<Totals, Fault>
    ensures first { SameTables first_tables.old first_tables.new }
    ensures second { SameTables second_tables.old second_tables.new }
    ensures answers { Answers (given_out rules.entry) first.entry.bytes.now first.entry.cursor second.entry.bytes.now second.entry.cursor
        (lent_to (lent_out first_tables.old) (lent_out second_tables.old) verdicts.old)
        (lent_to (lent_out first_tables.new) (lent_out second_tables.new) verdicts.new) (comparison_out result) }
{
    rules.count().map_err(Fault::Rules)?;
    let found = first_tables.decode(rules, first).map_err(Fault::First)?;
    let other = second_tables.decode(rules, second).map_err(Fault::Second)?;
    let one = first_tables.section(first, found);
    let two = second_tables.section(second, other);
    one.hold(two, verdicts).map_err(Fault::Pair)
}

// The same, with zeros in all eleven tables after a refusal.
fn compare_or_clear(
    rules: Rules,
    first: Place,
    first_tables: &mut Tables,
    second: Place,
    second_tables: &mut Tables,
    verdicts: &mut [u8],
) -> Result<Totals, Fault>
    ensures first { SameTables first_tables.old first_tables.new }
    ensures second { SameTables second_tables.old second_tables.new }
    ensures compares { Compares told (given_out rules.entry) first.entry.bytes.now first.entry.cursor second.entry.bytes.now second.entry.cursor
        (lent_to (lent_out first_tables.old) (lent_out second_tables.old) verdicts.old)
        (lent_to (lent_out first_tables.new) (lent_out second_tables.new) verdicts.new) (comparison_out result) }
{
    let answer = compare(rules, first, first_tables, second, second_tables, verdicts);
    if answer.is_err() {
        first_tables.clear();
        second_tables.clear();
        clear(verdicts);
    }
    answer
}

// The sections at two cursors by the rules of a call. The tables of both are filled, and the verdicts, one byte for each proposition of
// either in proposition order: 1 agreed, 2 contradicted, 3 first only, 4 second only. A refusal leaves zeros in all eleven.
// Kept (5a, 6a): the parameters of `falgnust_compare_sections`, which lends eleven tables; within the crate a section has its five in a struct.
pub fn compare_sections(
    rules: Rules,
    first: &[u8],
    first_cursor: usize,
    first_propositions: &mut [u64],
    first_proofs: &mut [u64],
    first_depths: &mut [u64],
    first_marks: &mut [u8],
    first_authorised: &mut [u8],
    second: &[u8],
    second_cursor: usize,
    second_propositions: &mut [u64],
    second_proofs: &mut [u64],
    second_depths: &mut [u64],
    second_marks: &mut [u8],
    second_authorised: &mut [u8],
    verdicts: &mut [u8],
) -> Result<Totals, Fault>
    ensures { Compares told (given_out rules.entry) first.now first_cursor second.now second_cursor
        (lent_to (tables_of first_propositions.old first_proofs.old first_depths.old first_marks.old
        first_authorised.old)
        (tables_of second_propositions.old second_proofs.old second_depths.old second_marks.old
        second_authorised.old) verdicts.old)
        (lent_to (tables_of first_propositions.new first_proofs.new first_depths.new first_marks.new
        first_authorised.new)
        (tables_of second_propositions.new second_proofs.new second_depths.new second_marks.new
        second_authorised.new) verdicts.new)
        (comparison_out result) }
{
    let mut first_tables = Tables {
        propositions: first_propositions,
        proofs: first_proofs,
        depths: first_depths,
        marks: first_marks,
        authorised: first_authorised,
    };
    let mut second_tables = Tables {
        propositions: second_propositions,
        proofs: second_proofs,
        depths: second_depths,
        marks: second_marks,
        authorised: second_authorised,
    };
    compare_or_clear(
        rules,
        Place {
            bytes: first,
            cursor: first_cursor,
        },
        &mut first_tables,
        Place {
            bytes: second,
            cursor: second_cursor,
        },
        &mut second_tables,
        verdicts,
    )
}
