// Witness records.
ghost use Rattle.std.specs.Prelude.{◌≡◌};
ghost use Rattle.local_format.specs.Field.{field_at};
ghost use Rattle.local_format.specs.Maps.{answer_out, field_out};
ghost use Rattle.evr0_section.specs.Head.{span_width};
ghost use Rattle.evr0_section.specs.Witness.{witness_of, check_witness};
ghost use Rattle.evr0_head.specs.Maps.{counts_out};
ghost use Rattle.evr0_records.specs.Maps.{sized_out, witness_record};

use crate::sized::Sized;
use evr0_fields::number::{PropositionIndex, WitnessNumber};
use evr0_fields::place::{digest_at, zeros_at};
use evr0_head::counts::Counts;
use local_format::field::{Field, field_at};
use local_format::refusal::{Refusal, check, refuse};

#[derive(Clone, Copy, Debug, PartialEq, Eq)]
pub struct Witness {
    pub witness_id: WitnessNumber,
    pub proposition_index: PropositionIndex,
    // Kept (1a): the Rust's field; it holds the byte that was read, which may be any, and 23 refuses one above 1.
    pub polarity: u8,
    pub file_digest: [u8; 32],
    pub source_start: u64,
    pub source_end: u64,
    pub origin_digest: [u8; 32],
}

// The start or the end of a span.
// Kept (1a, 7d): a witness is read under any schema, which C brings as a number; a closure for the width would be chosen by the same `if`.
#[tactic(auto, unfolding(evr0_section::specs::Head::span_width))]
fn span_field_at(tail: &[u8], at: usize, schema: u16) -> Option<Field<u64>>
    ensures { field_out (λ number. number) result ≡ field_at (span_width schema) tail.now at }
{
    if schema == 2 {
        return field_at::<u64>(tail, at);
    }
    let Field { value, next } = field_at::<u32>(tail, at)?;
    Some(Field {
        value: value as u64,
        next,
    })
}

// The witness at the front of `tail`.
// Kept (1a): a witness is read under any schema, which C brings as a number.
#[tactic(auto, unfolding(evr0_section::specs::Witness::witness_of))]
pub fn read_witness(tail: &[u8], schema: u16) -> Result<Sized<Witness>, Refusal>
    ensures { answer_out (sized_out witness_record) result ≡ witness_of (span_width schema) tail.now }
{
    let Some(
        Field {
            value: witness_id,
            next: proposition_at,
        },
    ) = field_at::<u32>(tail, 0)
    else {
        return Err(refuse(5, 0));
    };
    let Some(
        Field {
            value: proposition_index,
            next: polarity_at,
        },
    ) = field_at::<u32>(tail, proposition_at)
    else {
        return Err(refuse(5, proposition_at));
    };
    let Some(
        Field {
            value: polarity,
            next: reserved_at,
        },
    ) = field_at::<u8>(tail, polarity_at)
    else {
        return Err(refuse(5, polarity_at));
    };
    let file_at = zeros_at(tail, reserved_at)?;
    let Field {
        value: file_digest,
        next: start_at,
    } = digest_at(tail, file_at)?;
    let Some(
        Field {
            value: source_start,
            next: end_at,
        },
    ) = span_field_at(tail, start_at, schema)
    else {
        return Err(refuse(5, start_at));
    };
    let Some(
        Field {
            value: source_end,
            next: origin_at,
        },
    ) = span_field_at(tail, end_at, schema)
    else {
        return Err(refuse(5, end_at));
    };
    let Field {
        value: origin_digest,
        next: size,
    } = digest_at(tail, origin_at)?;
    let item = Witness {
        witness_id: WitnessNumber(witness_id),
        proposition_index: PropositionIndex(proposition_index),
        polarity,
        file_digest: *file_digest,
        source_start,
        source_end,
        origin_digest: *origin_digest,
    };
    Ok(Sized { item, size })
}

// The checks of a witness that is the next one, `place`.
#[tactic(auto, unfolding(evr0_section::specs::Witness::check_witness))]
pub fn check_witness(counts: Counts, place: usize, witness: &Witness) -> Result<(), Refusal>
    ensures { answer_out (λ done. done) result ≡ check_witness (counts_out counts) place (witness_record witness.now) }
{
    let is_next = witness.witness_id.place() == place;
    let is_bound = witness.proposition_index.place() < counts.propositions;
    let has_polarity = witness.polarity <= 1;
    let has_span = witness.source_start <= witness.source_end;
    check(is_next & (is_bound & (has_polarity & has_span)), 23, 0)
}
