// A table taken back: its columns first, which are refused as they are met, then its rows.
ghost use Rattle.byte_output.specs.Maps.{Same};
ghost use Rattle.evr0_columns.specs.Layout.{in_bytes, in_groups, by_row, by_column};
ghost use Rattle.column_fields.specs.Maps.{items_of};
ghost use Rattle.columns_rebuild.specs.Maps.{TakesAs};

use crate::first::table_at;
use crate::row::take_rows;
use byte_output::Output;
use column_fields::table::Table;
use local_format::refusal::Refusal;

// The place after its columns; or 75 or 76.
pub fn take_table(
    bytes: &[u8],
    at: usize,
    table: Table,
    count: usize,
    out: &mut Output,
) -> Result<usize, Refusal>
    ensures same { Same out.old out.new }
    ensures takes { TakesAs (by_column in_groups count (items_of table)) (by_row in_bytes count (items_of table))
        bytes.now at out.old out.new result }
{
    let mut cursors = [0usize; 13];
    let next = table_at(bytes, at, count, table, &mut cursors)?;
    take_rows(bytes, table, count, &mut cursors, out);
    Ok(next)
}
