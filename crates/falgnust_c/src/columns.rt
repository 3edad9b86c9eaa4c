// Sections by column: written, and taken back.
ghost use Rattle.rule_table.specs.ByTable.{four, table};
ghost use Rattle.evr0.specs.Answer.{lent_of};
ghost use Rattle.columns_answer.specs.Copies.{with_output, WritesAs, TakesBackAs};
ghost use Rattle.falgnust.specs.ColumnMaps.{flat_columns};

use falgnust::columns::Columns;

#[unsafe(no_mangle)]
pub extern "C" fn falgnust_write_columns(
    bytes: &[u8],
    cursor: usize,
    propositions: &mut [u64],
    proofs: &mut [u64],
    depths: &mut [u64],
    output: &mut [u8],
) -> Columns
    ensures { WritesAs flat_columns four bytes.now cursor
        (with_output (lent_of propositions.old proofs.old depths.old) output.old)
        (with_output (lent_of propositions.new proofs.new depths.new) output.new) result }
{
    falgnust::columns::falgnust_write_columns(bytes, cursor, propositions, proofs, depths, output)
}

// By a table of rules, which is loaded before the section is looked at.
#[unsafe(no_mangle)]
pub extern "C" fn falgnust_write_columns_by_rules(
    rules: &[u8],
    bytes: &[u8],
    cursor: usize,
    propositions: &mut [u64],
    proofs: &mut [u64],
    depths: &mut [u64],
    output: &mut [u8],
) -> Columns
    ensures { WritesAs flat_columns (table rules.now) bytes.now cursor
        (with_output (lent_of propositions.old proofs.old depths.old) output.old)
        (with_output (lent_of propositions.new proofs.new depths.new) output.new) result }
{
    falgnust::columns::falgnust_write_columns_by_rules(
        rules,
        bytes,
        cursor,
        propositions,
        proofs,
        depths,
        output,
    )
}

#[unsafe(no_mangle)]
pub extern "C" fn falgnust_take_columns(
    columns: &[u8],
    propositions: &mut [u64],
    proofs: &mut [u64],
    depths: &mut [u64],
    output: &mut [u8],
) -> Columns
    ensures { TakesBackAs flat_columns four columns.now
        (with_output (lent_of propositions.old proofs.old depths.old) output.old)
        (with_output (lent_of propositions.new proofs.new depths.new) output.new) result }
{
    falgnust::columns::falgnust_take_columns(columns, propositions, proofs, depths, output)
}

// By a table of rules, which is loaded before the columns are looked at.
#[unsafe(no_mangle)]
pub extern "C" fn falgnust_take_columns_by_rules(
    rules: &[u8],
    columns: &[u8],
    propositions: &mut [u64],
    proofs: &mut [u64],
    depths: &mut [u64],
    output: &mut [u8],
) -> Columns
    ensures { TakesBackAs flat_columns (table rules.now) columns.now
        (with_output (lent_of propositions.old proofs.old depths.old) output.old)
        (with_output (lent_of propositions.new proofs.new depths.new) output.new) result }
{
    falgnust::columns::falgnust_take_columns_by_rules(
        rules,
        columns,
        propositions,
        proofs,
        depths,
        output,
    )
}
