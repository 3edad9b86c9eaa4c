// Two evidence sections held against each other.
ghost use Rattle.std.specs.Prelude.{◌≡◌};
ghost use Rattle.local_format.specs.Maps.{refusal_out};
ghost use Rattle.rule_table.specs.ByTable.{four, table};
ghost use Rattle.evr0_compare.specs.Compare.{told};
ghost use Rattle.compare_sections.specs.Answer.{tables_of, lent_to, Compares};
ghost use Rattle.compare_sections.specs.Maps.{comparison_out};
ghost use Rattle.falgnust.specs.CompareMaps.{refused_by, flat_comparison};

use crate::refusal::Refusal;
use compare_sections::compare::{Fault, compare_sections};
use evr0_rules::settle::Rules;
use section_pair::totals::Totals;

// The four totals; or a refusal, with zeros beside it. `whose` says whose refusal it is: 0 none, 1 that of the table of rules, 2 of the
// first section, 3 of the second, 4 of the pair.
// Kept (1a): callers in C read a flag, a number that says whose refusal it is, and the values beside them.
#[repr(C)]
#[derive(Clone, Copy, Debug, Default, PartialEq, Eq)]
pub struct Compared {
    pub accepted: bool,
    pub whose: u8,
    pub refusal: Refusal,
    pub agreed: usize,
    pub contradicted: usize,
    pub first_only: usize,
    pub second_only: usize,
}

// Kept (1a): the number of C's struct that says whose refusal it is.
fn refused_by(whose: u8, refused: local_format::refusal::Refusal) -> Compared
    ensures { result ≡ refused_by whose (refusal_out refused) }
{
    Compared {
        whose,
        refusal: refused.into(),
        ..Compared::default()
    }
}

impl From<Result<Totals, Fault>> for Compared {
    ghost from_gives = { λ answer c. c ≡ flat_comparison (comparison_out answer) };

    fn from(answer: Result<Totals, Fault>) -> Compared {
        match answer {
            Ok(totals) => Compared {
                accepted: true,
                agreed: totals.agreed,
                contradicted: totals.contradicted,
                first_only: totals.first_only,
                second_only: totals.second_only,
                ..Compared::default()
            },
            Err(Fault::Rules(refused)) => refused_by(1, refused),
            Err(Fault::First(refused)) => refused_by(2, refused),
            Err(Fault::Second(refused)) => refused_by(3, refused),
            Err(Fault::Pair(refused)) => refused_by(4, refused),
        }
    }
}

#[unsafe(no_mangle)]
pub extern "C" fn falgnust_compare_sections(
    first: &[u8],
    first_cursor: usize,
    first_propositions: &mut [u64],
    first_proofs: &mut [u64],
    first_depths: &mut [u64],
    first_marks: &mut [u8],
    first_authorised: &mut [u8],
    second: &[u8],
    second_cursor: usize,
    second_propositions: &mut [u64],
    second_proofs: &mut [u64],
    second_depths: &mut [u64],
    second_marks: &mut [u8],
    second_authorised: &mut [u8],
    verdicts: &mut [u8],
) -> Compared
    ensures { Compares (λ x. flat_comparison (told x)) four first.now first_cursor second.now second_cursor
        (lent_to (tables_of first_propositions.old first_proofs.old first_depths.old first_marks.old
        first_authorised.old)
        (tables_of second_propositions.old second_proofs.old second_depths.old second_marks.old
        second_authorised.old) verdicts.old)
        (lent_to (tables_of first_propositions.new first_proofs.new first_depths.new first_marks.new
        first_authorised.new)
        (tables_of second_propositions.new second_proofs.new second_depths.new second_marks.new
        second_authorised.new) verdicts.new) result }
{
    compare_sections(
        Rules::Four,
        first,
        first_cursor,
        first_propositions,
        first_proofs,
        first_depths,
        first_marks,
        first_authorised,
        second,
        second_cursor,
        second_propositions,
        second_proofs,
        second_depths,
        second_marks,
        second_authorised,
        verdicts,
    )
    .into()
}

// By a table of rules, which is loaded before either section is looked at.
#[unsafe(no_mangle)]
pub extern "C" fn falgnust_compare_sections_by_rules(
    rules: &[u8],
    first: &[u8],
    first_cursor: usize,
    first_propositions: &mut [u64],
    first_proofs: &mut [u64],
    first_depths: &mut [u64],
    first_marks: &mut [u8],
    first_authorised: &mut [u8],
    second: &[u8],
    second_cursor: usize,
    second_propositions: &mut [u64],
    second_proofs: &mut [u64],
    second_depths: &mut [u64],
    second_marks: &mut [u8],
    second_authorised: &mut [u8],
    verdicts: &mut [u8],
) -> Compared
    ensures { Compares (λ x. flat_comparison (told x)) (table rules.now) first.now first_cursor second.now
        second_cursor
        (lent_to (tables_of first_propositions.old first_proofs.old first_depths.old first_marks.old
        first_authorised.old)
        (tables_of second_propositions.old second_proofs.old second_depths.old second_marks.old
        second_authorised.old) verdicts.old)
        (lent_to (tables_of first_propositions.new first_proofs.new first_depths.new first_marks.new
        first_authorised.new)
        (tables_of second_propositions.new second_proofs.new second_depths.new second_marks.new
        second_authorised.new) verdicts.new) result }
{
    compare_sections(
        Rules::Table(rules),
        first,
        first_cursor,
        first_propositions,
        first_proofs,
        first_depths,
        first_marks,
        first_authorised,
        second,
        second_cursor,
        second_propositions,
        second_proofs,
        second_depths,
        second_marks,
        second_authorised,
        verdicts,
    )
    .into()
}
