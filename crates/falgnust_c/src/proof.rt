// A proof of a section by number, for which the section is decoded anew, and at a place of its payload.
ghost use Rattle.std.specs.Prelude.{◌≡◌};
ghost use Rattle.evr0_section.specs.Proof.{proof_of};
ghost use Rattle.rule_table.specs.ByTable.{table};
ghost use Rattle.evr0.specs.Answer.{lent_of};
ghost use Rattle.evr0_read.specs.Asked.{Answers, AnswersBy};
ghost use Rattle.evr0_read.specs.Ask.{proof_number, proof_told};
ghost use Rattle.evr0_read.specs.Entry.{placed_proof, record_at};
ghost use Rattle.falgnust.specs.EntryMaps.{flat_proof};

use falgnust::proof::Proof;

#[unsafe(no_mangle)]
pub extern "C" fn falgnust_proof_number(
    bytes: &[u8],
    cursor: usize,
    number: u32,
    propositions: &mut [u64],
    proofs: &mut [u64],
    depths: &mut [u64],
) -> Proof
    ensures { Answers (proof_number number) (λ x. flat_proof (proof_told x)) bytes.now cursor
        (lent_of propositions.old proofs.old depths.old)
        (lent_of propositions.new proofs.new depths.new) result }
{
    falgnust::proof::falgnust_proof_number(bytes, cursor, number, propositions, proofs, depths)
}

// By a table of rules, which is loaded before the section is looked at.
#[unsafe(no_mangle)]
pub extern "C" fn falgnust_proof_number_by_rules(
    rules: &[u8],
    bytes: &[u8],
    cursor: usize,
    number: u32,
    propositions: &mut [u64],
    proofs: &mut [u64],
    depths: &mut [u64],
) -> Proof
    ensures { AnswersBy (table rules.now) (proof_number number) (λ x. flat_proof (proof_told x)) bytes.now cursor
        (lent_of propositions.old proofs.old depths.old)
        (lent_of propositions.new proofs.new depths.new) result }
{
    falgnust::proof::falgnust_proof_number_by_rules(
        rules,
        bytes,
        cursor,
        number,
        propositions,
        proofs,
        depths,
    )
}

#[unsafe(no_mangle)]
pub extern "C" fn falgnust_read_proof(payload: &[u8], at: usize) -> Proof
    ensures { result ≡ flat_proof (record_at proof_of placed_proof payload.now at) }
{
    falgnust::proof::falgnust_read_proof(payload, at)
}
