// Whether a proposition of a section, which is decoded anew, is authorised.
ghost use Rattle.rule_table.specs.ByTable.{table};
ghost use Rattle.evr0.specs.Answer.{lent_of};
ghost use Rattle.evr0_marks.specs.Answer.{with_marks};
ghost use Rattle.evr0_authorised.specs.Authorised.{authorised_told, Authorises, AuthorisesBy};
ghost use Rattle.falgnust.specs.EntryMaps.{flat_authorised};

use falgnust::authorised::Authorised;

// Kept (2a): only a static library exports C functions, and no crate can stand on one (D128): so each function of falgnust has one here that calls it.
#[unsafe(no_mangle)]
pub extern "C" fn falgnust_authorised(
    bytes: &[u8],
    cursor: usize,
    proposition: u32,
    propositions: &mut [u64],
    proofs: &mut [u64],
    depths: &mut [u64],
    marks: &mut [u8],
) -> Authorised
    ensures { Authorises proposition (λ x. flat_authorised (authorised_told proposition x)) bytes.now cursor
        (with_marks (lent_of propositions.old proofs.old depths.old) marks.old)
        (with_marks (lent_of propositions.new proofs.new depths.new) marks.new) result }
{
    falgnust::authorised::falgnust_authorised(
        bytes,
        cursor,
        proposition,
        propositions,
        proofs,
        depths,
        marks,
    )
}

// By a table of rules, which is loaded before the section is looked at.
#[unsafe(no_mangle)]
pub extern "C" fn falgnust_authorised_by_rules(
    rules: &[u8],
    bytes: &[u8],
    cursor: usize,
    proposition: u32,
    propositions: &mut [u64],
    proofs: &mut [u64],
    depths: &mut [u64],
    marks: &mut [u8],
) -> Authorised
    ensures { AuthorisesBy (table rules.now) proposition (λ x. flat_authorised (authorised_told proposition x)) bytes.now cursor
        (with_marks (lent_of propositions.old proofs.old depths.old) marks.old)
        (with_marks (lent_of propositions.new proofs.new depths.new) marks.new) result }
{
    falgnust::authorised::falgnust_authorised_by_rules(
        rules,
        bytes,
        cursor,
        proposition,
        propositions,
        proofs,
        depths,
        marks,
    )
}
