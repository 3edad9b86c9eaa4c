// Texts: a 2-byte length and that many bytes of UTF-8.
ghost use Rattle.std.specs.Prelude.{◌≡◌};
ghost use Rattle.local_format.specs.Out.{refuse};
ghost use Rattle.local_format.specs.Text.{text_at, string_at};
ghost use Rattle.local_format.specs.Maps.{span_out, answer_out};

use crate::field::{Field, field_at};
use crate::refusal::{Refusal, check, refuse};
use utf8::{Utf8, Utf8Error};

// Where a text's bytes start, how many they are, its number of characters, and the place after it.
#[derive(Clone, Copy, Debug, PartialEq, Eq)]
pub struct Span {
    pub start: usize,
    pub len: usize,
    pub chars: usize,
    pub next: usize,
}

// The bytes of a text from a place on, which were read.
pub fn spanned(start: usize, len: usize, text: Utf8) -> Span
    ensures { span_out result ≡ record { start = start; len = len; chars = text.chars; next = text.next } }
{
    Span {
        start,
        len,
        chars: text.chars,
        next: text.next,
    }
}

// A text of a section: 1 to 4,096 bytes, without control characters.
// Kept (2d): `string_at` and `read_name` differ in refusals, limits and offsets: one function of the three would take seven numbers, of those two four.
#[tactic(auto, unfolding(crate::specs::Text::text_at))]
pub fn text_at(bytes: &[u8], at: usize) -> Result<Span, Refusal>
    ensures { answer_out span_out result ≡ text_at bytes.now at }
{
    let Some(Field { value, next: start }) = field_at::<u16>(bytes, at) else {
        return Err(refuse(5, at));
    };
    let len = value as usize;
    check((1 <= len) & (len <= 4096), 6, start)?;
    let read = utf8::read_utf8(bytes, start, len);
    match read {
        Ok(text) => {
            check(!text.control, 8, text.next)?;
            Ok(spanned(start, len, text))
        }
        Err(Utf8Error::NotUtf8 { next }) => Err(refuse(7, next)),
        Err(Utf8Error::Cut) => Err(refuse(5, start)),
    }
}

// A string of a function: up to 1,024 bytes, also none; control characters pass.
#[tactic(auto, unfolding(crate::specs::Text::string_at))]
pub fn string_at(bytes: &[u8], at: usize) -> Result<Span, Refusal>
    ensures { answer_out span_out result ≡ string_at bytes.now at }
{
    let Some(Field { value, next: start }) = field_at::<u16>(bytes, at) else {
        return Err(refuse(32, at));
    };
    let len = value as usize;
    check(len <= 1024, 33, start)?;
    let read = utf8::read_utf8(bytes, start, len);
    match read {
        Ok(text) => Ok(spanned(start, len, text)),
        Err(_) => Err(refuse(34, start)),
    }
}
