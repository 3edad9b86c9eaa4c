// The section SIG0: the families of a function's parameters.
ghost use Rattle.std.specs.Prelude.{◌≡◌, ℕ, true, ◌≤◌, ◌<◌, length, get_or};
ghost use Rattle.local_format.specs.Maps.{answer_out};
ghost use Rattle.semcode_records.specs.Records.{records, ends};
ghost use Rattle.semcode_records.specs.Maps.{taken_out};
ghost use Rattle.semcode_decode.specs.Block.{family_at, family_table, signature_at};
ghost use Rattle.semcode_decode.specs.Layout.{extent, tagged};
ghost use Rattle.semcode_decode.specs.Maps.{table_is, section_is};

use crate::table::Table;
use local_format::field::{Field, field_at};
use local_format::refusal::{Kind, Refusal, check, refuse, refuse_as};
use local_format::tag::tag_at;

pub const SEMCODE_SIGNATURE_MIN_REVISION: u16 = 20;

pub const MAX_SIGNATURE_PARAMETERS_PER_FUNCTION: u16 = 4096;

// A byte from 1 to 15.
#[tactic(auto, unfolding(crate::specs::Block::family_at))]
pub fn read_family(bytes: &[u8], at: usize) -> Result<Field<u8>, Refusal>
    ensures { answer_out (taken_out (λ family. family)) result ≡ family_at bytes.now at }
{
    let Some(
        Field {
            value: family,
            next,
        },
    ) = field_at::<u8>(bytes, at)
    else {
        return Err(refuse(72, at));
    };
    check((1 <= family) & (family <= 15), 72, at)?;
    Ok(Field {
        value: family,
        next,
    })
}

// Whether each is a byte from 1 to 15. The loop looks at all of them, where `iter().all(..)` ends at the first that is none.
// Kept (3d): by `fold(true, |all, family| ..)` the closure would state what the loop's invariant says.
fn all_families(families: &[u8]) -> bool
    ensures { result ≡ true → (i : ℕ) → i < length families.now
        → (1 ≤ get_or families.now i 0) × (get_or families.now i 0 ≤ 15) }
{
    let mut all = true;
    for family in families {
        all &= (1 <= *family) & (*family <= 15);
    }
    all
}

// The place after so many families; where not all are there, they are read for the first refusal.
fn families_end(bytes: &[u8], at: usize, count: u16) -> Result<usize, Refusal>
    requires { at ≤ length bytes.now }
    ensures { answer_out (λ end. end) result ≡ ends (records (family_at bytes.now) count at) }
{
    let end = at + count as usize;
    if end <= bytes.len() && all_families(&bytes[at..end]) {
        return Ok(end);
    }
    for place in at..end {
        read_family(bytes, place)?;
    }
    Ok(end)
}

// The count and the families, for a lent table of so many bytes.
#[tactic(auto, unfolding(crate::specs::Block::family_table))]
fn family_table(bytes: &[u8], at: usize, families: usize) -> Result<Table, Refusal>
    ensures { answer_out table_is result ≡ extent (family_table bytes.now families at) }
{
    let Some(Field { value: count, next }) = field_at::<u16>(bytes, at) else {
        return Err(refuse(72, at));
    };
    check(count <= MAX_SIGNATURE_PARAMETERS_PER_FUNCTION, 73, next)?;
    check(count as usize <= families, 61, next)?;
    Ok(Table {
        start: next,
        count: count as usize,
        end: families_end(bytes, next, count)?,
    })
}

// From revision 20 on it has to be there, behind OWN0; below, there is none.
#[tactic(auto, unfolding(crate::specs::Block::signature_at))]
pub fn signature_section(
    bytes: &[u8],
    at: usize,
    header_rev: u16,
    ownership: bool,
    families: usize,
) -> Result<Option<Table>, Refusal>
    ensures { answer_out (section_is at) result ≡
        tagged (signature_at header_rev ownership bytes.now families at) }
{
    if header_rev < SEMCODE_SIGNATURE_MIN_REVISION {
        return Ok(None);
    }
    if !ownership {
        return Err(refuse_as(Kind::Ownership, 71, at));
    }
    check(tag_at(bytes, at, b"SIG0"), 71, at)?;
    Ok(Some(family_table(bytes, at + 4, families)?))
}
