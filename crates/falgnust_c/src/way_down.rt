// The way down from a proof of a section, which is decoded anew: always the first parent.
ghost use Rattle.rule_table.specs.ByTable.{table};
ghost use Rattle.evr0.specs.Answer.{lent_of};
ghost use Rattle.evr0_read.specs.Asked.{Answers, AnswersBy};
ghost use Rattle.evr0_read.specs.Ask.{proof_number};
ghost use Rattle.evr0_rulings.specs.Told.{way_down_told};
ghost use Rattle.falgnust.specs.EntryMaps.{flat_way};

use falgnust::way_down::WayDown;

#[unsafe(no_mangle)]
pub extern "C" fn falgnust_way_down(
    bytes: &[u8],
    cursor: usize,
    from: u32,
    limit: u64,
    propositions: &mut [u64],
    proofs: &mut [u64],
    depths: &mut [u64],
) -> WayDown
    ensures { Answers (proof_number from) (λ x. flat_way (way_down_told limit from x)) bytes.now cursor
        (lent_of propositions.old proofs.old depths.old)
        (lent_of propositions.new proofs.new depths.new) result }
{
    falgnust::way_down::falgnust_way_down(bytes, cursor, from, limit, propositions, proofs, depths)
}

// By a table of rules, which is loaded before the section is looked at.
#[unsafe(no_mangle)]
pub extern "C" fn falgnust_way_down_by_rules(
    rules: &[u8],
    bytes: &[u8],
    cursor: usize,
    from: u32,
    limit: u64,
    propositions: &mut [u64],
    proofs: &mut [u64],
    depths: &mut [u64],
) -> WayDown
    ensures { AnswersBy (table rules.now) (proof_number from) (λ x. flat_way (way_down_told limit from x)) bytes.now cursor
        (lent_of propositions.old proofs.old depths.old)
        (lent_of propositions.new proofs.new depths.new) result }
{
    falgnust::way_down::falgnust_way_down_by_rules(
        rules,
        bytes,
        cursor,
        from,
        limit,
        propositions,
        proofs,
        depths,
    )
}
