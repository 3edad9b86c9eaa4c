// Depth by rounds: how many proofs are marked, with proposition starts, proof starts and rounds in lent tables.
ghost use Rattle.rule_table.specs.ByTable.{four, table};
ghost use Rattle.evr0.specs.Answer.{lent_of};
ghost use Rattle.falgnust.specs.RoundMaps.{Rounded};

use falgnust::by_rounds::Rounds;

#[unsafe(no_mangle)]
pub extern "C" fn falgnust_depth_by_rounds(
    bytes: &[u8],
    cursor: usize,
    propositions: &mut [u64],
    proofs: &mut [u64],
    rounds: &mut [u64],
) -> Rounds
    ensures { Rounded four bytes.now cursor
        (lent_of propositions.old proofs.old rounds.old)
        (lent_of propositions.new proofs.new rounds.new) result }
{
    falgnust::by_rounds::falgnust_depth_by_rounds(bytes, cursor, propositions, proofs, rounds)
}

// By a table of rules, which is loaded before the section is looked at.
#[unsafe(no_mangle)]
pub extern "C" fn falgnust_depth_by_rounds_by_rules(
    rules: &[u8],
    bytes: &[u8],
    cursor: usize,
    propositions: &mut [u64],
    proofs: &mut [u64],
    rounds: &mut [u64],
) -> Rounds
    ensures { Rounded (table rules.now) bytes.now cursor
        (lent_of propositions.old proofs.old rounds.old)
        (lent_of propositions.new proofs.new rounds.new) result }
{
    falgnust::by_rounds::falgnust_depth_by_rounds_by_rules(
        rules,
        bytes,
        cursor,
        propositions,
        proofs,
        rounds,
    )
}
