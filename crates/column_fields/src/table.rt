// The columns of each table.
ghost use Rattle.std.specs.Prelude.{◌≡◌, length, get_or};
ghost use Rattle.evr0_section.specs.Head.{span_width};
ghost use Rattle.evr0_columns.specs.Layout.{raw};
ghost use Rattle.evr0_columns.specs.Columns.{head_items, proposition_items, proof_items, witness_items, parent_items};
ghost use Rattle.groups.specs.Maps.{width_of};
ghost use Rattle.column_fields.specs.Maps.{item_of, items_of};

use crate::item::Item;
use groups::read::Width;

// The tables of a section; a span of a witness has so many bytes. The head is one of a single record.
#[derive(Clone, Copy, Debug, PartialEq, Eq)]
pub enum Table {
    Head,
    Propositions,
    Proofs,
    Witnesses(Width),
    Parents,
}

// Spans have 8 bytes under schema 2, else 4.
// Kept (1a): the definition's `span_width` takes any number, and a head that is taken back may announce any: only the decoder refuses it then.
// Kept (4d): as a `From`, `Width::from(2)` would read as a field of two bytes.
pub fn span_of(schema: u16) -> Width
    ensures { width_of result ≡ span_width schema }
{
    if schema == 2 {
        Width::Eight
    } else {
        Width::Four
    }
}

// Kept (2b): by five lists and `get`, which was proved, columns are taken back in 1.06 of the instructions and up to 1.12 of the time; the bar is 1.02.
fn head_item(column: usize) -> Item
    ensures { item_of result ≡ get_or head_items column (raw 0) }
{
    match column {
        0 | 1 => Item::Raw(4),
        2 | 3 | 6 => Item::Raw(2),
        4 | 5 => Item::Raw(32),
        7 | 8 => Item::Text,
        9 | 10 | 11 | 12 => Item::Whole(Width::Four),
        _ => Item::Raw(0),
    }
}

fn proposition_item(column: usize) -> Item
    ensures { item_of result ≡ get_or proposition_items column (raw 0) }
{
    match column {
        0 => Item::Text,
        1 | 2 | 3 => Item::Whole(Width::Four),
        _ => Item::Raw(0),
    }
}

fn proof_item(column: usize) -> Item
    ensures { item_of result ≡ get_or proof_items column (raw 0) }
{
    match column {
        2 => Item::Text,
        0 | 1 | 3 | 4 | 5 | 6 | 7 => Item::Whole(Width::Four),
        8 => Item::Raw(1),
        9 => Item::Raw(3),
        _ => Item::Raw(0),
    }
}

fn witness_item(column: usize, span: Width) -> Item
    ensures { item_of result ≡ get_or (witness_items (width_of span)) column (raw 0) }
{
    match column {
        0 | 1 => Item::Whole(Width::Four),
        2 => Item::Raw(1),
        3 => Item::Raw(3),
        4 | 7 => Item::Raw(32),
        5 | 6 => Item::Whole(span),
        _ => Item::Raw(0),
    }
}

fn parent_item(column: usize) -> Item
    ensures { item_of result ≡ get_or parent_items column (raw 0) }
{
    match column {
        0 => Item::Whole(Width::Four),
        _ => Item::Raw(0),
    }
}

impl Table {
    // The field of a column; past the last no bytes.
    pub fn item(self, column: usize) -> Item
        ensures { item_of result ≡ get_or (items_of self) column (raw 0) }
    {
        match self {
            Table::Head => head_item(column),
            Table::Propositions => proposition_item(column),
            Table::Proofs => proof_item(column),
            Table::Witnesses(span) => witness_item(column, span),
            Table::Parents => parent_item(column),
        }
    }

    pub fn columns(self) -> usize
        ensures { result ≡ length (items_of self) }
    {
        match self {
            Table::Head => 13,
            Table::Propositions => 4,
            Table::Proofs => 10,
            Table::Witnesses(_) => 8,
            Table::Parents => 1,
        }
    }
}
