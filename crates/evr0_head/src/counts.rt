// The four counts of a head.
ghost use Rattle.std.specs.Prelude.{◌≡◌};
ghost use Rattle.local_format.specs.Maps.{answer_out};
ghost use Rattle.evr0_section.specs.Head.{counts_at};
ghost use Rattle.evr0_head.specs.Maps.{counted_out};

use local_format::field::{Field, field_at};
use local_format::part::tail;
use local_format::refusal::{Refusal, refuse};

#[derive(Clone, Copy, Debug, PartialEq, Eq)]
pub struct Counts {
    pub propositions: usize,
    pub proofs: usize,
    pub witnesses: usize,
    pub parents: usize,
}

// Where their 16 bytes are there, the counts are read in a part that is just these, where none is cut; else the first that is cut is told by how many bytes
// are left.
pub fn read_counts(payload: &[u8], at: usize) -> Result<Field<Counts>, Refusal>
    ensures { answer_out counted_out result ≡ counts_at payload.now at }
{
    let rest = tail(payload, at);
    let Some(part) = rest.first_chunk::<16>() else {
        return Err(refuse(5, at + rest.len() / 4 * 4));
    };
    let Some(
        Field {
            value: propositions,
            next: proofs_at,
        },
    ) = field_at::<u32>(part, 0)
    else {
        return Err(refuse(5, at));
    };
    let Some(
        Field {
            value: proofs,
            next: witnesses_at,
        },
    ) = field_at::<u32>(part, proofs_at)
    else {
        return Err(refuse(5, at + proofs_at));
    };
    let Some(
        Field {
            value: witnesses,
            next: parents_at,
        },
    ) = field_at::<u32>(part, witnesses_at)
    else {
        return Err(refuse(5, at + witnesses_at));
    };
    let Some(
        Field {
            value: parents,
            next: part_end,
        },
    ) = field_at::<u32>(part, parents_at)
    else {
        return Err(refuse(5, at + parents_at));
    };
    Ok(Field {
        value: Counts {
            propositions: propositions as usize,
            proofs: proofs as usize,
            witnesses: witnesses as usize,
            parents: parents as usize,
        },
        next: at + part_end,
    })
}
