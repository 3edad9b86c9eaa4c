// A parent cell.
ghost use Rattle.std.specs.Prelude.{◌≡◌};
ghost use Rattle.local_format.specs.Maps.{answer_out};
ghost use Rattle.evr0_section.specs.Witness.{parent_row};
ghost use Rattle.evr0_records.specs.Maps.{parent_out};

use crate::sized::Sized;
use evr0_fields::number::ProofNumber;
use local_format::field::{Field, field_at};
use local_format::refusal::{Refusal, refuse};

// The parent cell at the front of `tail`.
#[tactic(auto, unfolding(evr0_section::specs::Witness::parent_row))]
pub fn read_parent(tail: &[u8]) -> Result<Sized<ProofNumber>, Refusal>
    ensures { answer_out parent_out result ≡ parent_row tt tail.now }
{
    let Some(Field { value, next }) = field_at::<u32>(tail, 0) else {
        return Err(refuse(5, 0));
    };
    Ok(Sized {
        item: ProofNumber(value),
        size: next,
    })
}
