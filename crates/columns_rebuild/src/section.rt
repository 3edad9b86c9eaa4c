// The section of a column file, rebuilt: the head, then table by table.
ghost use Rattle.std.specs.Prelude.{◌≡◌};
ghost use Rattle.byte_output.specs.Maps.{Same};
ghost use Rattle.evr0_columns.specs.Layout.{in_bytes, in_groups, by_row, by_column, tables};
ghost use Rattle.columns_rebuild.specs.Maps.{TakesAs, announced_tables, Builds, Rebuilds};

use crate::head::{Announced, take_head};
use crate::table::take_table;
use byte_output::Output;
use column_fields::table::Table;
use lent_table::clear;
use local_format::refusal::{Refusal, refuse};

// The four tables that a head announces, and the place after them.
// Kept (7d): a loop over four pairs of a table and its count has an invariant over the tables before; four calls with `?` show the order.
fn take_tables(
    bytes: &[u8],
    at: usize,
    announced: Announced,
    out: &mut Output,
) -> Result<usize, Refusal>
    ensures same { Same out.old out.new }
    ensures takes { TakesAs (tables (by_column in_groups) (announced_tables announced)) (tables (by_row in_bytes) (announced_tables announced))
        bytes.now at out.old out.new result }
{
    let proofs_at = take_table(bytes, at, Table::Propositions, announced.propositions, out)?;
    let witnesses_at = take_table(bytes, proofs_at, Table::Proofs, announced.proofs, out)?;
    let parents_at = take_table(
        bytes,
        witnesses_at,
        Table::Witnesses(announced.span),
        announced.witnesses,
        out,
    )?;
    take_table(bytes, parents_at, Table::Parents, announced.parents, out)
}

// The section of some columns at the front of the output. Its bytes past the end are dropped and counted. A refusal leaves anything.
fn build(columns: &[u8], out: &mut Output) -> Result<(), Refusal>
    requires { out.old.next ≡ 0 }
    ensures same { Same out.old out.new }
    ensures builds { Builds columns.now out.old out.new result }
{
    let head = take_head(columns, out)?;
    let end = take_tables(columns, head.next, head.announced, out)?;
    if end < columns.len() {
        return Err(refuse(76, end));
    }
    Ok(())
}

// The same, and how long the section is; or 75 or 76, which leaves zeros.
pub fn rebuild(columns: &[u8], out: &mut [u8]) -> Result<usize, Refusal>
    ensures { Rebuilds columns.now out.old out.new result }
{
    let mut output = Output {
        bytes: out,
        next: 0,
    };
    match build(columns, &mut output) {
        Ok(()) => Ok(output.next),
        Err(refusal) => {
            clear(out);
            Err(refusal)
        }
    }
}
