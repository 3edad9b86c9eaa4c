// A proposition of a section by number, for which the section is decoded anew, and at a place of its payload.
ghost use Rattle.std.specs.Prelude.{◌≡◌};
ghost use Rattle.local_format.specs.Maps.{answer_out};
ghost use Rattle.evr0_section.specs.Proposition.{proposition_of};
ghost use Rattle.rule_table.specs.ByTable.{table};
ghost use Rattle.evr0.specs.Answer.{lent_of};
ghost use Rattle.evr0_read.specs.Asked.{Answers, AnswersBy};
ghost use Rattle.evr0_read.specs.Ask.{proposition_number, proposition_told};
ghost use Rattle.evr0_read.specs.Entry.{placed_proposition, record_at};
ghost use Rattle.evr0_records.specs.Maps.{proposition_record};
ghost use Rattle.evr0_read.specs.Maps.{entry_out};
ghost use Rattle.falgnust.specs.EntryMaps.{flat_proposition};

use crate::refusal::{Answer, Refusal};
use crate::span::Span;
use evr0_fields::number::PropositionIndex;
use evr0_read::ask::by_number;
use evr0_read::entry::{Entry, proposition_at};
use evr0_rules::settle::Rules;

// Where the record starts in the payload, and its fields; or a refusal, with zeros beside it.
// Kept (1a): callers in C read a flag and the values beside it.
#[repr(C)]
#[derive(Clone, Copy, Debug, Default, PartialEq, Eq)]
pub struct Proposition {
    pub accepted: bool,
    pub refusal: Refusal,
    pub start: usize,
    pub kind: Span,
    pub ast_owner_id: u32,
    pub semantic_scope_id: u32,
    pub type_obligation_id: u32,
}

impl From<Answer<Entry<evr0_records::proposition::Proposition>>> for Proposition {
    ghost from_gives = { λ entry x. x ≡ flat_proposition (answer_out (entry_out proposition_record) entry) };

    fn from(entry: Answer<Entry<evr0_records::proposition::Proposition>>) -> Proposition {
        match entry {
            Ok(Entry { start, item }) => Proposition {
                accepted: true,
                start,
                kind: item.kind.into(),
                ast_owner_id: item.ast_owner_id,
                semantic_scope_id: item.semantic_scope_id,
                type_obligation_id: item.type_obligation_id,
                ..Proposition::default()
            },
            Err(refused) => Proposition {
                refusal: refused.into(),
                ..Proposition::default()
            },
        }
    }
}

// Kept (2a): C has no generic functions: four names over one generic function.
#[unsafe(no_mangle)]
pub extern "C" fn falgnust_proposition_number(
    bytes: &[u8],
    cursor: usize,
    number: u32,
    propositions: &mut [u64],
    proofs: &mut [u64],
    depths: &mut [u64],
) -> Proposition
    ensures { Answers (proposition_number number) (λ x. flat_proposition (proposition_told x)) bytes.now cursor
        (lent_of propositions.old proofs.old depths.old)
        (lent_of propositions.new proofs.new depths.new) result }
{
    by_number(
        Rules::Four,
        bytes,
        cursor,
        PropositionIndex(number),
        propositions,
        proofs,
        depths,
    )
    .into()
}

// By a table of rules, which is loaded before the section is looked at.
// Kept (2a): C has no generic functions and no enum of rules: four names by the four rules and four by a table, over one generic function.
#[unsafe(no_mangle)]
pub extern "C" fn falgnust_proposition_number_by_rules(
    rules: &[u8],
    bytes: &[u8],
    cursor: usize,
    number: u32,
    propositions: &mut [u64],
    proofs: &mut [u64],
    depths: &mut [u64],
) -> Proposition
    ensures { AnswersBy (table rules.now) (proposition_number number) (λ x. flat_proposition (proposition_told x)) bytes.now cursor
        (lent_of propositions.old proofs.old depths.old)
        (lent_of propositions.new proofs.new depths.new) result }
{
    by_number(
        Rules::Table(rules),
        bytes,
        cursor,
        PropositionIndex(number),
        propositions,
        proofs,
        depths,
    )
    .into()
}

#[unsafe(no_mangle)]
pub extern "C" fn falgnust_read_proposition(payload: &[u8], at: usize) -> Proposition
    ensures { result ≡ flat_proposition (record_at proposition_of placed_proposition payload.now at) }
{
    proposition_at(payload, at).into()
}
