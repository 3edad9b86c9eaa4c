// Fields written in the other form.
ghost use Rattle.evr0_columns.specs.Layout.{raw, whole, text};
ghost use Rattle.groups.specs.Maps.{width_of};
ghost use Rattle.column_fields.specs.Maps.{item_of};
ghost use Rattle.column_fields.specs.Took.{FieldMoved};

use crate::form::NumberForm;
use crate::item::Item;
use byte_output::Output;
use groups::read::Width;
use local_format::part::tail;

fn move_raw<A: NumberForm, B: NumberForm>(
    bytes: &[u8],
    at: usize,
    size: usize,
    out: &mut Output,
) -> usize
    ensures { FieldMoved A.numbers B.numbers (raw size) bytes.now at out.old out.new result }
{
    let rest = tail(bytes, at);
    if rest.len() < size {
        return at;
    }
    out.put_bytes(&rest[..size]);
    at + size
}

fn move_number<A: NumberForm, B: NumberForm>(
    bytes: &[u8],
    at: usize,
    width: Width,
    out: &mut Output,
) -> usize
    ensures { FieldMoved A.numbers B.numbers (whole (width_of width)) bytes.now at out.old out.new result }
{
    let Ok(number) = A::read(bytes, at, width) else {
        return at;
    };
    B::write(out, number.value, width);
    number.next
}

fn move_text<A: NumberForm, B: NumberForm>(bytes: &[u8], at: usize, out: &mut Output) -> usize
    ensures { FieldMoved A.numbers B.numbers text bytes.now at out.old out.new result }
{
    let Ok(size) = A::read(bytes, at, Width::Two) else {
        return at;
    };
    let rest = tail(bytes, size.next);
    let len = size.value as usize;
    if rest.len() < len {
        return at;
    }
    B::write(out, size.value, Width::Two);
    out.put_bytes(&rest[..len]);
    size.next + len
}

// The field at `at`, read in the form `A` and written in the form `B`, and the place after it: nothing, and no step, where it is refused. It is
// compiled into its callers, so that a loop over a column looks once at what its field is.
// Kept (1d): two of the three callers, put_head and take_row, go on from `at` where the field is refused.
// Kept (7d): an Item is an enum with data, matched once.
#[inline(always)]
pub fn move_field<A: NumberForm, B: NumberForm>(
    bytes: &[u8],
    at: usize,
    item: Item,
    out: &mut Output,
) -> usize
    ensures { FieldMoved A.numbers B.numbers (item_of item) bytes.now at out.old out.new result }
{
    match item {
        Item::Raw(size) => move_raw::<A, B>(bytes, at, size, out),
        Item::Whole(width) => move_number::<A, B>(bytes, at, width, out),
        Item::Text => move_text::<A, B>(bytes, at, out),
    }
}
