// Two evidence sections held against each other.
ghost use Rattle.rule_table.specs.ByTable.{four, table};
ghost use Rattle.evr0_compare.specs.Compare.{told};
ghost use Rattle.compare_sections.specs.Answer.{tables_of, lent_to, Compares};
ghost use Rattle.falgnust.specs.CompareMaps.{flat_comparison};

use falgnust::compare::Compared;

#[unsafe(no_mangle)]
pub extern "C" fn falgnust_compare_sections(
    first: &[u8],
    first_cursor: usize,
    first_propositions: &mut [u64],
    first_proofs: &mut [u64],
    first_depths: &mut [u64],
    first_marks: &mut [u8],
    first_authorised: &mut [u8],
    second: &[u8],
    second_cursor: usize,
    second_propositions: &mut [u64],
    second_proofs: &mut [u64],
    second_depths: &mut [u64],
    second_marks: &mut [u8],
    second_authorised: &mut [u8],
    verdicts: &mut [u8],
) -> Compared
    ensures { Compares (λ x. flat_comparison (told x)) four first.now first_cursor second.now second_cursor
        (lent_to (tables_of first_propositions.old first_proofs.old first_depths.old first_marks.old
        first_authorised.old)
        (tables_of second_propositions.old second_proofs.old second_depths.old second_marks.old
        second_authorised.old) verdicts.old)
        (lent_to (tables_of first_propositions.new first_proofs.new first_depths.new first_marks.new
        first_authorised.new)
        (tables_of second_propositions.new second_proofs.new second_depths.new second_marks.new
        second_authorised.new) verdicts.new) result }
{
    falgnust::compare::falgnust_compare_sections(
        first,
        first_cursor,
        first_propositions,
        first_proofs,
        first_depths,
        first_marks,
        first_authorised,
        second,
        second_cursor,
        second_propositions,
        second_proofs,
        second_depths,
        second_marks,
        second_authorised,
        verdicts,
    )
}

// By a table of rules, which is loaded before either section is looked at.
#[unsafe(no_mangle)]
pub extern "C" fn falgnust_compare_sections_by_rules(
    rules: &[u8],
    first: &[u8],
    first_cursor: usize,
    first_propositions: &mut [u64],
    first_proofs: &mut [u64],
    first_depths: &mut [u64],
    first_marks: &mut [u8],
    first_authorised: &mut [u8],
    second: &[u8],
    second_cursor: usize,
    second_propositions: &mut [u64],
    second_proofs: &mut [u64],
    second_depths: &mut [u64],
    second_marks: &mut [u8],
    second_authorised: &mut [u8],
    verdicts: &mut [u8],
) -> Compared
    ensures { Compares (λ x. flat_comparison (told x)) (table rules.now) first.now first_cursor second.now
        second_cursor
        (lent_to (tables_of first_propositions.old first_proofs.old first_depths.old first_marks.old
        first_authorised.old)
        (tables_of second_propositions.old second_proofs.old second_depths.old second_marks.old
        second_authorised.old) verdicts.old)
        (lent_to (tables_of first_propositions.new first_proofs.new first_depths.new first_marks.new
        first_authorised.new)
        (tables_of second_propositions.new second_proofs.new second_depths.new second_marks.new
        second_authorised.new) verdicts.new) result }
{
    falgnust::compare::falgnust_compare_sections_by_rules(
        rules,
        first,
        first_cursor,
        first_propositions,
        first_proofs,
        first_depths,
        first_marks,
        first_authorised,
        second,
        second_cursor,
        second_propositions,
        second_proofs,
        second_depths,
        second_marks,
        second_authorised,
        verdicts,
    )
}
