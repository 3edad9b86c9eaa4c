// The first pass over the columns of a table: where each of them starts, and the place after all, or 75 or 76.
ghost use Rattle.std.specs.Prelude.{◌≡◌, length};
ghost use Rattle.column_fields.specs.Past.{table_past};
ghost use Rattle.column_fields.specs.Maps.{place_in, items_of};
ghost use Rattle.columns_rebuild.specs.Noted.{Noted};

use column_fields::column::column_at;
use column_fields::table::Table;
use local_format::refusal::Refusal;

// The place after the columns of `count` records from `at` on. `starts` is told where each of them starts.
pub fn table_at(
    bytes: &[u8],
    at: usize,
    count: usize,
    table: Table,
    starts: &mut [usize; 13],
) -> Result<usize, Refusal>
    ensures long { length starts.new ≡ 13 }
    ensures result_value { place_in bytes.now result ≡ table_past (items_of table) count bytes.now at }
    ensures noted { Noted (items_of table) count bytes.now at starts.new result }
{
    let mut next = at;
    for column in 0..table.columns() {
        starts[column] = next;
        next = column_at(bytes, next, count, table.item(column))?;
    }
    Ok(next)
}
