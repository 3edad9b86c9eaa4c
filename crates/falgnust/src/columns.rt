// Sections by column: written, and taken back.
ghost use Rattle.std.specs.Prelude.{◌≡◌};
ghost use Rattle.rule_table.specs.ByTable.{four, table};
ghost use Rattle.evr0.specs.Answer.{lent_of};
ghost use Rattle.columns_answer.specs.Copies.{with_output, WritesAs, TakesBackAs};
ghost use Rattle.columns_answer.specs.Maps.{columns_out};
ghost use Rattle.falgnust.specs.ColumnMaps.{flat_columns};

use crate::refusal::{Answer, Refusal};
use columns_take::take::take_columns;
use columns_write::write::write_columns;
use evr0_rules::settle::Rules;

// The length written; or a refusal, with a zero beside it.
// Kept (1a): callers in C read a flag and the values beside it.
#[repr(C)]
#[derive(Clone, Copy, Debug, Default, PartialEq, Eq)]
pub struct Columns {
    pub accepted: bool,
    pub refusal: Refusal,
    pub length: usize,
}

impl From<Answer<usize>> for Columns {
    ghost from_gives = { λ answer c. c ≡ flat_columns (columns_out answer) };

    fn from(answer: Answer<usize>) -> Columns {
        match answer {
            Ok(length) => Columns {
                accepted: true,
                length,
                ..Columns::default()
            },
            Err(refused) => Columns {
                refusal: refused.into(),
                ..Columns::default()
            },
        }
    }
}

#[unsafe(no_mangle)]
pub extern "C" fn falgnust_write_columns(
    bytes: &[u8],
    cursor: usize,
    propositions: &mut [u64],
    proofs: &mut [u64],
    depths: &mut [u64],
    output: &mut [u8],
) -> Columns
    ensures { WritesAs flat_columns four bytes.now cursor
        (with_output (lent_of propositions.old proofs.old depths.old) output.old)
        (with_output (lent_of propositions.new proofs.new depths.new) output.new) result }
{
    write_columns(
        Rules::Four,
        bytes,
        cursor,
        propositions,
        proofs,
        depths,
        output,
    )
    .into()
}

// By a table of rules, which is loaded before the section is looked at.
#[unsafe(no_mangle)]
pub extern "C" fn falgnust_write_columns_by_rules(
    rules: &[u8],
    bytes: &[u8],
    cursor: usize,
    propositions: &mut [u64],
    proofs: &mut [u64],
    depths: &mut [u64],
    output: &mut [u8],
) -> Columns
    ensures { WritesAs flat_columns (table rules.now) bytes.now cursor
        (with_output (lent_of propositions.old proofs.old depths.old) output.old)
        (with_output (lent_of propositions.new proofs.new depths.new) output.new) result }
{
    write_columns(
        Rules::Table(rules),
        bytes,
        cursor,
        propositions,
        proofs,
        depths,
        output,
    )
    .into()
}

#[unsafe(no_mangle)]
pub extern "C" fn falgnust_take_columns(
    columns: &[u8],
    propositions: &mut [u64],
    proofs: &mut [u64],
    depths: &mut [u64],
    output: &mut [u8],
) -> Columns
    ensures { TakesBackAs flat_columns four columns.now
        (with_output (lent_of propositions.old proofs.old depths.old) output.old)
        (with_output (lent_of propositions.new proofs.new depths.new) output.new) result }
{
    take_columns(Rules::Four, columns, propositions, proofs, depths, output).into()
}

// By a table of rules, which is loaded before the columns are looked at.
#[unsafe(no_mangle)]
pub extern "C" fn falgnust_take_columns_by_rules(
    rules: &[u8],
    columns: &[u8],
    propositions: &mut [u64],
    proofs: &mut [u64],
    depths: &mut [u64],
    output: &mut [u8],
) -> Columns
    ensures { TakesBackAs flat_columns (table rules.now) columns.now
        (with_output (lent_of propositions.old proofs.old depths.old) output.old)
        (with_output (lent_of propositions.new proofs.new depths.new) output.new) result }
{
    take_columns(
        Rules::Table(rules),
        columns,
        propositions,
        proofs,
        depths,
        output,
    )
    .into()
}
