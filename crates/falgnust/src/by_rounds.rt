// Depth by rounds: how many proofs are marked, with proposition starts, proof starts and rounds in lent tables.
ghost use Rattle.std.specs.Prelude.{◌≡◌};
ghost use Rattle.local_format.specs.Maps.{answer_out};
ghost use Rattle.rule_table.specs.ByTable.{four, table};
ghost use Rattle.evr0.specs.Answer.{lent_of};
ghost use Rattle.evr0_rounds.specs.Steps.{answer_with};
ghost use Rattle.evr0_rounds.specs.AnswerMaps.{marked_out};
ghost use Rattle.falgnust.specs.RoundMaps.{flat_rounds, Rounded};

use crate::refusal::{Answer, Refusal};
use evr0_rounds::section::{Marked, depth_by_rounds};
use evr0_rules::settle::Rules;

// The cursor is the one that was brought where the section is refused.
// Kept (1a): callers in C read a flag and the values beside it.
#[repr(C)]
#[derive(Clone, Copy, Debug, Default, PartialEq, Eq)]
pub struct Rounds {
    pub accepted: bool,
    pub refusal: Refusal,
    pub proofs: usize,
    pub cursor: usize,
}

// Kept (2a): each makes a struct of the C interface, with fields of its own.
fn flat_rounds(found: Answer<Marked>, cursor: usize) -> Rounds
    ensures { result ≡ flat_rounds (answer_with cursor (answer_out marked_out found)) }
{
    match found {
        Ok(marked) => Rounds {
            accepted: true,
            proofs: marked.proofs,
            cursor: marked.cursor,
            ..Rounds::default()
        },
        Err(refused) => Rounds {
            refusal: refused.into(),
            cursor,
            ..Rounds::default()
        },
    }
}

#[unsafe(no_mangle)]
pub extern "C" fn falgnust_depth_by_rounds(
    bytes: &[u8],
    cursor: usize,
    propositions: &mut [u64],
    proofs: &mut [u64],
    rounds: &mut [u64],
) -> Rounds
    ensures { Rounded four bytes.now cursor
        (lent_of propositions.old proofs.old rounds.old)
        (lent_of propositions.new proofs.new rounds.new) result }
{
    let found = depth_by_rounds(Rules::Four, bytes, cursor, propositions, proofs, rounds);
    flat_rounds(found, cursor)
}

// By a table of rules, which is loaded before the section is looked at.
#[unsafe(no_mangle)]
pub extern "C" fn falgnust_depth_by_rounds_by_rules(
    rules: &[u8],
    bytes: &[u8],
    cursor: usize,
    propositions: &mut [u64],
    proofs: &mut [u64],
    rounds: &mut [u64],
) -> Rounds
    ensures { Rounded (table rules.now) bytes.now cursor
        (lent_of propositions.old proofs.old rounds.old)
        (lent_of propositions.new proofs.new rounds.new) result }
{
    let found = depth_by_rounds(
        Rules::Table(rules),
        bytes,
        cursor,
        propositions,
        proofs,
        rounds,
    );
    flat_rounds(found, cursor)
}
