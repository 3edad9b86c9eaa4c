// The way down from a proof of a section, which is decoded anew: always the first parent.
ghost use Rattle.std.specs.Prelude.{◌≡◌};
ghost use Rattle.local_format.specs.Maps.{answer_out};
ghost use Rattle.rule_table.specs.ByTable.{table};
ghost use Rattle.evr0.specs.Answer.{lent_of};
ghost use Rattle.evr0_read.specs.Asked.{Answers, AnswersBy};
ghost use Rattle.evr0_read.specs.Ask.{proof_number};
ghost use Rattle.evr0_rulings.specs.Told.{way_down_told};
ghost use Rattle.evr0_rulings.specs.Maps.{down_out};
ghost use Rattle.falgnust.specs.EntryMaps.{flat_way};

use crate::refusal::{Answer, Refusal};
use evr0_fields::number::ProofNumber;
use evr0_rules::settle::Rules;
use evr0_rulings::down::{Down, way_down};

// The witness and the moves made; or, where the limit was spent, the proof reached; or a refusal. The other numbers are zeros.
// Kept (1a): callers in C read two flags and the values beside them.
#[repr(C)]
#[derive(Clone, Copy, Debug, Default, PartialEq, Eq)]
pub struct WayDown {
    pub accepted: bool,
    pub refusal: Refusal,
    pub spent: bool,
    pub witness: u32,
    pub moves: u64,
    pub proof: u32,
}

impl From<Answer<Down>> for WayDown {
    ghost from_gives = { λ way w. w ≡ flat_way (answer_out down_out way) };

    fn from(way: Answer<Down>) -> WayDown {
        match way {
            Ok(Down::Witness { witness, moves }) => WayDown {
                accepted: true,
                witness: witness.0,
                moves,
                ..WayDown::default()
            },
            Ok(Down::Spent(proof)) => WayDown {
                accepted: true,
                spent: true,
                proof: proof.0,
                ..WayDown::default()
            },
            Err(refused) => WayDown {
                refusal: refused.into(),
                ..WayDown::default()
            },
        }
    }
}

#[unsafe(no_mangle)]
pub extern "C" fn falgnust_way_down(
    bytes: &[u8],
    cursor: usize,
    from: u32,
    limit: u64,
    propositions: &mut [u64],
    proofs: &mut [u64],
    depths: &mut [u64],
) -> WayDown
    ensures { Answers (proof_number from) (λ x. flat_way (way_down_told limit from x)) bytes.now cursor
        (lent_of propositions.old proofs.old depths.old)
        (lent_of propositions.new proofs.new depths.new) result }
{
    way_down(
        Rules::Four,
        bytes,
        cursor,
        ProofNumber(from),
        limit,
        propositions,
        proofs,
        depths,
    )
    .into()
}

// By a table of rules, which is loaded before the section is looked at.
#[unsafe(no_mangle)]
pub extern "C" fn falgnust_way_down_by_rules(
    rules: &[u8],
    bytes: &[u8],
    cursor: usize,
    from: u32,
    limit: u64,
    propositions: &mut [u64],
    proofs: &mut [u64],
    depths: &mut [u64],
) -> WayDown
    ensures { AnswersBy (table rules.now) (proof_number from) (λ x. flat_way (way_down_told limit from x)) bytes.now cursor
        (lent_of propositions.old proofs.old depths.old)
        (lent_of propositions.new proofs.new depths.new) result }
{
    way_down(
        Rules::Table(rules),
        bytes,
        cursor,
        ProofNumber(from),
        limit,
        propositions,
        proofs,
        depths,
    )
    .into()
}
