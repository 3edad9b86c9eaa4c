// A proposition of a section by number, for which the section is decoded anew, and at a place of its payload.
ghost use Rattle.std.specs.Prelude.{◌≡◌};
ghost use Rattle.evr0_section.specs.Proposition.{proposition_of};
ghost use Rattle.rule_table.specs.ByTable.{table};
ghost use Rattle.evr0.specs.Answer.{lent_of};
ghost use Rattle.evr0_read.specs.Asked.{Answers, AnswersBy};
ghost use Rattle.evr0_read.specs.Ask.{proposition_number, proposition_told};
ghost use Rattle.evr0_read.specs.Entry.{placed_proposition, record_at};
ghost use Rattle.falgnust.specs.EntryMaps.{flat_proposition};

use falgnust::proposition::Proposition;

#[unsafe(no_mangle)]
pub extern "C" fn falgnust_proposition_number(
    bytes: &[u8],
    cursor: usize,
    number: u32,
    propositions: &mut [u64],
    proofs: &mut [u64],
    depths: &mut [u64],
) -> Proposition
    ensures { Answers (proposition_number number) (λ x. flat_proposition (proposition_told x)) bytes.now cursor
        (lent_of propositions.old proofs.old depths.old)
        (lent_of propositions.new proofs.new depths.new) result }
{
    falgnust::proposition::falgnust_proposition_number(
        bytes,
        cursor,
        number,
        propositions,
        proofs,
        depths,
    )
}

// By a table of rules, which is loaded before the section is looked at.
#[unsafe(no_mangle)]
pub extern "C" fn falgnust_proposition_number_by_rules(
    rules: &[u8],
    bytes: &[u8],
    cursor: usize,
    number: u32,
    propositions: &mut [u64],
    proofs: &mut [u64],
    depths: &mut [u64],
) -> Proposition
    ensures { AnswersBy (table rules.now) (proposition_number number) (λ x. flat_proposition (proposition_told x)) bytes.now cursor
        (lent_of propositions.old proofs.old depths.old)
        (lent_of propositions.new proofs.new depths.new) result }
{
    falgnust::proposition::falgnust_proposition_number_by_rules(
        rules,
        bytes,
        cursor,
        number,
        propositions,
        proofs,
        depths,
    )
}

#[unsafe(no_mangle)]
pub extern "C" fn falgnust_read_proposition(payload: &[u8], at: usize) -> Proposition
    ensures { result ≡ flat_proposition (record_at proposition_of placed_proposition payload.now at) }
{
    falgnust::proposition::falgnust_read_proposition(payload, at)
}
