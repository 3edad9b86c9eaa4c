// The columns of a table.
ghost use Rattle.byte_output.specs.Maps.{Writes};
ghost use Rattle.column_fields.specs.Maps.{item_of, items_of};
ghost use Rattle.columns_put.specs.Places.{Inside, table_moved};
ghost use Rattle.columns_put.specs.Maps.{OneText, starts_in, Fits, Reach, column_moved};

use crate::path::{Path, path_of};
use crate::records::Records;
use byte_output::Output;
use column_fields::form::{InBytes, InGroups};
use column_fields::item::Item;
use column_fields::moved::move_field;
use column_fields::table::Table;

// A field of each of the records.
fn put_column(bytes: &[u8], records: Records, path: Path, item: Item, out: &mut Output)
    requires { Fits records × Reach bytes.now path (starts_in records) }
    ensures { Writes out.old (column_moved (item_of item) path bytes.now (starts_in records.entry)) out.new }
{
    for i in 0..records.count() {
        let place = path.place(bytes, records.start(i));
        move_field::<InBytes, InGroups>(bytes, place, item, out);
    }
}

// Column by column; not of the head, which has two texts.
// Kept (2d): put_table, table_at and take_row walk the columns with a step each: over a closure each call states what its step does, for one `for` line.
pub fn put_table(bytes: &[u8], table: Table, records: Records, out: &mut Output)
    requires { OneText table × Fits records × Inside bytes.now (items_of table) (starts_in records) }
    ensures { Writes out.old (table_moved (items_of table) bytes.now (starts_in records.entry)) out.new }
{
    for column in 0..table.columns() {
        put_column(
            bytes,
            records,
            path_of(table, column),
            table.item(column),
            out,
        );
    }
}
