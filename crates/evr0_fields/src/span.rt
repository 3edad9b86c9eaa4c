// Texts of a record.
ghost use Rattle.std.specs.Prelude.{◌≡◌};
ghost use Rattle.local_format.specs.Text.{bytes_at};

use local_format::part::tail;
use local_format::text::Span;

// The bytes of a text of a part: those that are there where the part is shorter.
pub fn bytes_of(part: &[u8], span: Span) -> &[u8]
    ensures { result.now ≡ bytes_at part.now span.start span.len }
{
    let rest = tail(part, span.start);
    rest.get(..span.len).unwrap_or(rest)
}
