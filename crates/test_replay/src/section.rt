// A section of the list: decoded, and every part of the answer compared.
use crate::asked::Asked;
use crate::held::{bytes, numbers, refusal, table};
use evr0::section::{Accepted, DecodedEvr0, decode_evr0_unmarked};

const ENTRIES: usize = 20000;

// What a lent table holds before the call.
const OLD: u64 = 11936128518282651045;

// Number 0, the epoch, both places, and the four counts.
fn accepted(list: &[u8], given: Accepted) -> Option<&[u8]> {
    let counts = given.counts;
    numbers(
        list,
        &[
            0,
            given.epoch as usize,
            given.policy_namespace,
            given.issuer_namespace,
            given.policy_chars,
            given.issuer_chars,
            counts.propositions,
            counts.proofs,
            counts.witnesses,
            counts.parents,
        ],
    )
}

// The cursor and both digests.
fn beside(list: &[u8], decoded: DecodedEvr0) -> Option<&[u8]> {
    let DecodedEvr0 {
        source_set,
        compiler_contract,
        cursor,
        outcome: _,
    } = decoded;
    let told = numbers(list, &[cursor % 4294967296, cursor / 4294967296])?;
    bytes(bytes(told, &source_set)?, &compiler_contract)
}

// An entry that asks for longer tables than there are is not the same.
pub fn section(asked: Asked) -> Option<&[u8]> {
    let [a, b, c, _] = asked.lengths;
    if ENTRIES < a || ENTRIES < b || ENTRIES < c {
        return None;
    }
    let mut propositions = [OLD; ENTRIES];
    let mut proofs = [OLD; ENTRIES];
    let mut depths = [OLD; ENTRIES];
    let decoded = decode_evr0_unmarked(
        asked.input,
        asked.origin,
        &mut propositions[..a],
        &mut proofs[..b],
        &mut depths[..c],
    );
    let (told, proposition_count, proof_count) = match decoded.outcome {
        Ok(given) => (
            accepted(asked.rest, given)?,
            given.counts.propositions,
            given.counts.proofs,
        ),
        Err(refused) => (refusal(asked.rest, refused)?, 0, 0),
    };
    let rest = beside(told, decoded)?;
    let rest = table(rest, &propositions[..a], proposition_count)?;
    let rest = table(rest, &proofs[..b], proof_count)?;
    table(rest, &depths[..c], proof_count)
}
