// Parts of a decoded section: its payload, and the front of a lent table.
ghost use Rattle.std.specs.Prelude.{◌≡◌, take, get_or};
ghost use Rattle.evr0_read.specs.Listing.{payload_to};

use local_format::part::tail;

// The payload of the section at a cursor that ends at `end`.
// Kept (1d): callers have a section that was decoded, so an `Option` would be taken apart at each call with nothing else to answer.
pub fn payload_of(bytes: &[u8], cursor: usize, end: usize) -> &[u8]
    ensures { result.now ≡ payload_to bytes.now cursor end }
{
    let start = cursor.saturating_add(8);
    front(tail(bytes, start), end.saturating_sub(start))
}

// Kept (6a): C lends whole tables, and an answer's count says how much of one is filled.
pub fn front<T>(table: &[T], count: usize) -> &[T]
    ensures { result.now ≡ take count table.now }
{
    &table[..count.min(table.len())]
}

// An entry of a table; `none` past its end.
pub fn entry_or<T: Copy>(table: &[T], i: usize, none: T) -> T
    ensures { result ≡ get_or table.now i none }
{
    table.get(i).copied().unwrap_or(none)
}
