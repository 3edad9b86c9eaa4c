// The first pass over a column file: the place after a field and after a column, or 75 or 76.
ghost use Rattle.std.specs.Prelude.{◌≡◌};
ghost use Rattle.evr0_columns.specs.Layout.{raw};
ghost use Rattle.column_fields.specs.Past.{field_past, column_past};
ghost use Rattle.column_fields.specs.Maps.{place_in, item_of};

use crate::item::Item;
use groups::read::{Width, number_at};
use local_format::part::tail;
use local_format::refusal::{Refusal, refuse};

// The place after `size` bytes from `at` on.
fn raw_at(bytes: &[u8], at: usize, size: usize) -> Result<usize, Refusal>
    ensures { place_in bytes.now result ≡ field_past (raw size) bytes.now at }
{
    if tail(bytes, at).len() < size {
        return Err(refuse(76, bytes.len()));
    }
    Ok(at + size)
}

// The place after the field at `at`.
// Kept (2d, 7d): an Item is an enum with data, matched once here, and once by `move_field`, which writes what it reads and refuses nothing.
pub fn field_at(bytes: &[u8], at: usize, item: Item) -> Result<usize, Refusal>
    ensures { place_in bytes.now result ≡ field_past (item_of item) bytes.now at }
{
    match item {
        Item::Raw(size) => raw_at(bytes, at, size),
        Item::Whole(width) => {
            let number = number_at(bytes, at, width)?;
            Ok(number.next)
        }
        Item::Text => {
            let size = number_at(bytes, at, Width::Two)?;
            raw_at(bytes, size.next, size.value as usize)
        }
    }
}

// The place after a column of `count` fields from `at` on.
pub fn column_at(bytes: &[u8], at: usize, count: usize, item: Item) -> Result<usize, Refusal>
    ensures { place_in bytes.now result ≡ column_past (item_of item) count bytes.now at }
{
    let mut next = at;
    for _field in 0..count {
        next = field_at(bytes, next, item)?;
    }
    Ok(next)
}
