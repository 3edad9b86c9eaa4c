// Whether a proposition of a section, which is decoded anew, is authorised.
ghost use Rattle.std.specs.Prelude.{◌≡◌};
ghost use Rattle.local_format.specs.Maps.{answer_out};
ghost use Rattle.rule_table.specs.ByTable.{table};
ghost use Rattle.evr0.specs.Answer.{lent_of};
ghost use Rattle.evr0_marks.specs.Answer.{with_marks};
ghost use Rattle.evr0_authorised.specs.Authorised.{authorised_told, Authorises, AuthorisesBy};
ghost use Rattle.falgnust.specs.EntryMaps.{flat_authorised};

use crate::refusal::{Answer, Refusal};
use evr0_authorised::authorised::authorised;
use evr0_fields::number::PropositionIndex;
use evr0_rules::settle::Rules;

// Kept (1a): callers in C read a flag and the values beside it.
#[repr(C)]
#[derive(Clone, Copy, Debug, Default, PartialEq, Eq)]
pub struct Authorised {
    pub accepted: bool,
    pub refusal: Refusal,
    pub authorised: bool,
}

impl From<Answer<bool>> for Authorised {
    ghost from_gives = { λ answer a. a ≡ flat_authorised (answer_out (λ holds. holds) answer) };

    fn from(answer: Answer<bool>) -> Authorised {
        match answer {
            Ok(authorised) => Authorised {
                accepted: true,
                authorised,
                ..Authorised::default()
            },
            Err(refused) => Authorised {
                refusal: refused.into(),
                ..Authorised::default()
            },
        }
    }
}

// Kept (2a): C has no enum with a value, so each function by the four has one by a table of rules; but for two decoders both call one of Rules.
#[unsafe(no_mangle)]
pub extern "C" fn falgnust_authorised(
    bytes: &[u8],
    cursor: usize,
    proposition: u32,
    propositions: &mut [u64],
    proofs: &mut [u64],
    depths: &mut [u64],
    marks: &mut [u8],
) -> Authorised
    ensures { Authorises proposition (λ x. flat_authorised (authorised_told proposition x)) bytes.now cursor
        (with_marks (lent_of propositions.old proofs.old depths.old) marks.old)
        (with_marks (lent_of propositions.new proofs.new depths.new) marks.new) result }
{
    authorised(
        Rules::Four,
        bytes,
        cursor,
        PropositionIndex(proposition),
        propositions,
        proofs,
        depths,
        marks,
    )
    .into()
}

// By a table of rules, which is loaded before the section is looked at.
#[unsafe(no_mangle)]
pub extern "C" fn falgnust_authorised_by_rules(
    rules: &[u8],
    bytes: &[u8],
    cursor: usize,
    proposition: u32,
    propositions: &mut [u64],
    proofs: &mut [u64],
    depths: &mut [u64],
    marks: &mut [u8],
) -> Authorised
    ensures { AuthorisesBy (table rules.now) proposition (λ x. flat_authorised (authorised_told proposition x)) bytes.now cursor
        (with_marks (lent_of propositions.old proofs.old depths.old) marks.old)
        (with_marks (lent_of propositions.new proofs.new depths.new) marks.new) result }
{
    authorised(
        Rules::Table(rules),
        bytes,
        cursor,
        PropositionIndex(proposition),
        propositions,
        proofs,
        depths,
        marks,
    )
    .into()
}
