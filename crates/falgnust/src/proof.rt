// A proof of a section by number, for which the section is decoded anew, and at a place of its payload.
ghost use Rattle.std.specs.Prelude.{◌≡◌};
ghost use Rattle.local_format.specs.Maps.{answer_out};
ghost use Rattle.evr0_section.specs.Proof.{proof_of};
ghost use Rattle.rule_table.specs.ByTable.{table};
ghost use Rattle.evr0.specs.Answer.{lent_of};
ghost use Rattle.evr0_read.specs.Asked.{Answers, AnswersBy};
ghost use Rattle.evr0_read.specs.Ask.{proof_number, proof_told};
ghost use Rattle.evr0_read.specs.Entry.{placed_proof, record_at};
ghost use Rattle.evr0_records.specs.Maps.{proof_record};
ghost use Rattle.evr0_read.specs.Maps.{entry_out};
ghost use Rattle.falgnust.specs.EntryMaps.{flat_proof};

use crate::refusal::{Answer, Refusal};
use crate::span::Span;
use evr0_fields::number::ProofNumber;
use evr0_read::ask::by_number;
use evr0_read::entry::{Entry, proof_at};
use evr0_rules::settle::Rules;

// Where the record starts in the payload, and its fields; or a refusal, with zeros beside it.
// Kept (1a): callers in C read a flag, the operation as its number, and the values beside them.
#[repr(C)]
#[derive(Clone, Copy, Debug, Default, PartialEq, Eq)]
pub struct Proof {
    pub accepted: bool,
    pub refusal: Refusal,
    pub start: usize,
    pub proof_id: u32,
    pub proposition_index: u32,
    pub rule_id: Span,
    pub authority_context: u32,
    pub witness_first: u32,
    pub witness_count: u32,
    pub parent_first: u32,
    pub parent_count: u32,
    pub authorized_operation: u8,
}

impl From<Answer<Entry<evr0_records::proof::Proof>>> for Proof {
    ghost from_gives = { λ entry x. x ≡ flat_proof (answer_out (entry_out proof_record) entry) };

    fn from(entry: Answer<Entry<evr0_records::proof::Proof>>) -> Proof {
        match entry {
            Ok(Entry { start, item }) => Proof {
                accepted: true,
                start,
                proof_id: item.proof_id.0,
                proposition_index: item.proposition_index.0,
                rule_id: item.rule_id.into(),
                authority_context: item.authority_context,
                witness_first: item.witness_first.0,
                witness_count: item.witness_count,
                parent_first: item.parent_first,
                parent_count: item.parent_count,
                authorized_operation: item.authorized_operation,
                ..Proof::default()
            },
            Err(refused) => Proof {
                refusal: refused.into(),
                ..Proof::default()
            },
        }
    }
}

#[unsafe(no_mangle)]
pub extern "C" fn falgnust_proof_number(
    bytes: &[u8],
    cursor: usize,
    number: u32,
    propositions: &mut [u64],
    proofs: &mut [u64],
    depths: &mut [u64],
) -> Proof
    ensures { Answers (proof_number number) (λ x. flat_proof (proof_told x)) bytes.now cursor
        (lent_of propositions.old proofs.old depths.old)
        (lent_of propositions.new proofs.new depths.new) result }
{
    by_number(
        Rules::Four,
        bytes,
        cursor,
        ProofNumber(number),
        propositions,
        proofs,
        depths,
    )
    .into()
}

// By a table of rules, which is loaded before the section is looked at.
#[unsafe(no_mangle)]
pub extern "C" fn falgnust_proof_number_by_rules(
    rules: &[u8],
    bytes: &[u8],
    cursor: usize,
    number: u32,
    propositions: &mut [u64],
    proofs: &mut [u64],
    depths: &mut [u64],
) -> Proof
    ensures { AnswersBy (table rules.now) (proof_number number) (λ x. flat_proof (proof_told x)) bytes.now cursor
        (lent_of propositions.old proofs.old depths.old)
        (lent_of propositions.new proofs.new depths.new) result }
{
    by_number(
        Rules::Table(rules),
        bytes,
        cursor,
        ProofNumber(number),
        propositions,
        proofs,
        depths,
    )
    .into()
}

#[unsafe(no_mangle)]
pub extern "C" fn falgnust_read_proof(payload: &[u8], at: usize) -> Proof
    ensures { result ≡ flat_proof (record_at proof_of placed_proof payload.now at) }
{
    proof_at(payload, at).into()
}
