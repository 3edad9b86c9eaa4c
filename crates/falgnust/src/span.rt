// A text of a record.
ghost use Rattle.std.specs.Prelude.{◌≡◌};
ghost use Rattle.local_format.specs.Maps.{span_out};
ghost use Rattle.falgnust.specs.EntryMaps.{flat_span};

// Where the bytes start in the payload, how many they are, the number of characters and the place after them.
#[repr(C)]
#[derive(Clone, Copy, Debug, Default, PartialEq, Eq)]
pub struct Span {
    pub start: usize,
    pub len: usize,
    pub chars: usize,
    pub next: usize,
}

impl From<local_format::text::Span> for Span {
    ghost from_gives = { λ span s. s ≡ flat_span (span_out span) };

    fn from(span: local_format::text::Span) -> Span {
        Span {
            start: span.start,
            len: span.len,
            chars: span.chars,
            next: span.next,
        }
    }
}
