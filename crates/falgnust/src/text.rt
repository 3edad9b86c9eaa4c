// Texts at a place.
ghost use Rattle.std.specs.Prelude.{◌≡◌};
ghost use Rattle.local_format.specs.Text.{text_at, string_at};
ghost use Rattle.local_format.specs.Maps.{answer_out, span_out};
ghost use Rattle.falgnust.specs.Maps.{flat_text};

use crate::refusal::{Answer, Refusal};
use local_format::text::{Span, string_at, text_at};

// Where the bytes start, how many they are, the number of characters and the place after them; or a refusal, with zeros beside it.
// Kept (1a): callers in C read a flag and the values beside it.
#[repr(C)]
#[derive(Clone, Copy, Debug, Default, PartialEq, Eq)]
pub struct Text {
    pub accepted: bool,
    pub refusal: Refusal,
    pub start: usize,
    pub len: usize,
    pub chars: usize,
    pub next: usize,
}

impl From<Answer<Span>> for Text {
    ghost from_gives = { λ read t. t ≡ flat_text (answer_out span_out read) };

    fn from(read: Answer<Span>) -> Text {
        match read {
            Ok(span) => Text {
                accepted: true,
                start: span.start,
                len: span.len,
                chars: span.chars,
                next: span.next,
                ..Text::default()
            },
            Err(refused) => Text {
                refusal: refused.into(),
                ..Text::default()
            },
        }
    }
}

#[unsafe(no_mangle)]
pub extern "C" fn falgnust_read_text(bytes: &[u8], at: usize) -> Text
    ensures { result ≡ flat_text (text_at bytes.now at) }
{
    text_at(bytes, at).into()
}

#[unsafe(no_mangle)]
pub extern "C" fn falgnust_read_string(bytes: &[u8], at: usize) -> Text
    ensures { result ≡ flat_text (string_at bytes.now at) }
{
    string_at(bytes, at).into()
}
