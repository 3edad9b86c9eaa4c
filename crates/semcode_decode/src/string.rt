// A string of a block, by its place: without its number of characters, which no table tells.
ghost use Rattle.std.specs.Prelude.{◌≡◌, Some};
ghost use Rattle.local_format.specs.Out.{ok};
ghost use Rattle.local_format.specs.Maps.{answer_out};
ghost use Rattle.local_format.specs.Text.{string_at};
ghost use Rattle.semcode_decode.specs.Layout.{placed};
ghost use Rattle.semcode_decode.specs.Maps.{place_is};

use local_format::field::{Field, field_at};
use local_format::refusal::Refusal;
use local_format::text::{Span, string_at};
use utf8_automaton::is_utf8;

// Where the bytes of a string start, how many they are, and the place after them.
#[derive(Clone, Copy, Debug, PartialEq, Eq)]
pub struct Place {
    pub start: usize,
    pub len: usize,
    pub next: usize,
}

// The most bytes that the automaton passes sooner than the scan.
const SHORT: usize = 24;

// A short string that is there.
fn short_string(code: &[u8], at: usize) -> Option<Place>
    ensures { (p : Place) → result ≡ Some p → placed (string_at code.now at) ≡ ok (place_is p) }
{
    let Field { value, next: start } = field_at::<u16>(code, at)?;
    let len = value as usize;
    if SHORT < len || code.len().saturating_sub(start) < len {
        return None;
    }
    let next = start + len;
    if !is_utf8(&code[start..next]) {
        return None;
    }
    Some(Place { start, len, next })
}

pub fn read_string(code: &[u8], at: usize) -> Result<Place, Refusal>
    ensures { answer_out place_is result ≡ placed (string_at code.now at) }
{
    if let Some(place) = short_string(code, at) {
        return Ok(place);
    }
    let Span {
        start,
        len,
        next,
        ..
    } = string_at(code, at)?;
    Ok(Place { start, len, next })
}
