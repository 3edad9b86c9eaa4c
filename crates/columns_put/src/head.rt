// The head of a section, written as it stands in columns.
ghost use Rattle.std.specs.Prelude.{◌≤◌, length};
ghost use Rattle.byte_output.specs.Maps.{Writes};
ghost use Rattle.evr0_columns.specs.Columns.{head_items};
ghost use Rattle.columns_put.specs.Places.{after_fields, fields_moved};

use byte_output::Output;
use column_fields::form::{InBytes, InGroups};
use column_fields::moved::move_field;
use column_fields::table::Table;

// Field by field.
pub fn put_head(section: &[u8], out: &mut Output)
    requires { after_fields head_items section.now 0 ≤ length section.now }
    ensures { Writes out.old (fields_moved head_items section.now 0) out.new }
{
    let mut at: usize = 0;
    for column in 0..Table::Head.columns() {
        at = move_field::<InBytes, InGroups>(section, at, Table::Head.item(column), out);
    }
}
