// The second pass over the columns of a table: row by row, one value from each column's cursor.
ghost use Rattle.std.specs.Prelude.{◌≡◌, List, ◌∷◌, length};
ghost use Rattle.byte_output.specs.Written.{Written};
ghost use Rattle.byte_output.specs.Maps.{Same};
ghost use Rattle.evr0_columns.specs.Form.{each};
ghost use Rattle.evr0_columns.specs.Layout.{Record, in_bytes, fields};
ghost use Rattle.column_fields.specs.Maps.{items_of};
ghost use Rattle.columns_rebuild.specs.Stand.{Stand, RowTook};

use byte_output::Output;
use column_fields::form::{InBytes, InGroups};
use column_fields::moved::move_field;
use column_fields::table::Table;

// A row: a field from each column, whose cursor then stands at its next field.
fn take_row(bytes: &[u8], table: Table, cursors: &mut [usize; 13], out: &mut Output)
    ensures long { length cursors.new ≡ 13 }
    ensures same { Same out.old out.new }
    ensures took { (row : Record (items_of table)) (rows : List (Record (items_of table)))
        → Stand bytes.now (items_of table) (row ∷ rows) cursors.old
        → RowTook bytes.now (items_of table) row rows cursors.new out.old.bytes.now out.old.next out.new.bytes.now out.new.next }
{
    for column in 0..table.columns() {
        let item = table.item(column);
        cursors[column] = move_field::<InGroups, InBytes>(bytes, cursors[column], item, out);
    }
}

// The rows of a table whose columns stand at their first fields.
pub fn take_rows(
    bytes: &[u8],
    table: Table,
    count: usize,
    cursors: &mut [usize; 13],
    out: &mut Output,
)
    ensures same { Same out.old out.new }
    ensures took { (rows : List (Record (items_of table))) → length rows ≡ count
        → Stand bytes.now (items_of table) rows cursors.old
        → Written out.old.bytes.now out.old.next (each (fields in_bytes (items_of table)).put rows) out.new.bytes.now out.new.next }
{
    for _row in 0..count {
        take_row(bytes, table, cursors, out);
    }
}
