// From a section's tag to its payload.
ghost use Rattle.std.specs.Prelude.{◌≡◌};
ghost use Rattle.local_format.specs.Maps.{answer_out};
ghost use Rattle.evr0_section.specs.Section.{frame_at};
ghost use Rattle.evr0.specs.Maps.{frame_out};
ghost use Rattle.evr0.specs.Steps.{Opens};

use evr0_fields::schema::is_schema;
use local_format::field::{Field, field_at};
use local_format::refusal::{Refusal, check, refuse};
use local_format::tag::tag_at;

const MAX_EVR0_PAYLOAD: usize = 4194304;

// Where the payload starts, and how long it is.
#[derive(Clone, Copy, Debug, PartialEq, Eq)]
pub struct Frame {
    pub start: usize,
    pub len: usize,
}

#[tactic(auto, unfolding(evr0_section::specs::Section::frame_at))]
pub fn read_frame(bytes: &[u8], cursor: usize) -> Result<Frame, Refusal>
    ensures { answer_out frame_out result ≡ frame_at bytes.now cursor }
{
    check(tag_at(bytes, cursor, b"EVR0"), 1, cursor)?;
    let len_at = cursor + 4;
    let Some(Field { value, next: start }) = field_at::<u32>(bytes, len_at) else {
        return Err(refuse(2, len_at));
    };
    let len = value as usize;
    check((1 <= len) & (len <= MAX_EVR0_PAYLOAD), 3, len_at)?;
    check(len <= bytes.len() - start, 4, start)?;
    Ok(Frame { start, len })
}

// The frame of a section whose payload may start with a schema that is read; the first field of another is refused at once.
pub fn read_opening(bytes: &[u8], cursor: usize) -> Result<Frame, Refusal>
    ensures { Opens bytes.now cursor (answer_out frame_out result) }
{
    let Frame { start, len } = read_frame(bytes, cursor)?;
    let end = start + len;
    let version = field_at::<u16>(&bytes[start..end], 0);
    if let Some(Field { value, next }) = version {
        check(is_schema(value), 10, start + next)?;
    }
    Ok(Frame { start, len })
}
