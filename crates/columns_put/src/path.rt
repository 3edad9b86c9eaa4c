// Where the fields of a record stand in a section.
ghost use Rattle.std.specs.Prelude.{◌≡◌, List, ℕ, ◌≤◌, ◌<◌, length, take};
ghost use Rattle.groups.specs.Maps.{width_of};
ghost use Rattle.evr0_columns.specs.Columns.{proposition_items, proof_items, witness_items};
ghost use Rattle.column_fields.specs.Maps.{items_of};
ghost use Rattle.columns_put.specs.Places.{after_fields};
ghost use Rattle.columns_put.specs.Maps.{OneText, place_of};

use column_fields::table::Table;
use groups::read::Width;
use local_format::field::LittleEndian;

// So far from the record's start, or so far behind a text of it.
#[derive(Clone, Copy, Debug, PartialEq, Eq)]
pub enum Path {
    From(usize),
    Behind { text: usize, offset: usize },
}

impl Path {
    // The place of a field of the record that starts at `start`.
    pub fn place(self, bytes: &[u8], start: usize) -> usize
        requires { place_of bytes.now self start ≤ length bytes.now }
        ensures { result ≡ place_of bytes.now self start }
    {
        match self {
            Path::From(offset) => start + offset,
            Path::Behind { text, offset } => {
                let at = start + text;
                at + 2 + (u16::le_at(bytes, at) as usize) + offset
            }
        }
    }
}

// Kept (2d): const tables of paths write ten places out where `4 * (column - 3)` says six, and three times those of witnesses, one for each width.
fn proposition_path(column: usize) -> Path
    requires { column < 4 }
    ensures { (c : List ℕ) (s : ℕ) → place_of c result s ≡ after_fields (take column proposition_items) c s }
{
    match column {
        0 => Path::From(0),
        _ => Path::Behind {
            text: 0,
            offset: 4 * (column - 1),
        },
    }
}

fn proof_path(column: usize) -> Path
    requires { column < 10 }
    ensures { (c : List ℕ) (s : ℕ) → place_of c result s ≡ after_fields (take column proof_items) c s }
{
    match column {
        0 => Path::From(0),
        1 => Path::From(4),
        2 => Path::From(8),
        9 => Path::Behind {
            text: 8,
            offset: 21,
        },
        _ => Path::Behind {
            text: 8,
            offset: 4 * (column - 3),
        },
    }
}

fn witness_path(column: usize, span: Width) -> Path
    requires { column < 8 }
    ensures { (c : List ℕ) (s : ℕ) → place_of c result s ≡ after_fields (take column (witness_items (width_of span))) c s }
{
    match column {
        0 => Path::From(0),
        1 => Path::From(4),
        2 => Path::From(8),
        3 => Path::From(9),
        4 => Path::From(12),
        5 => Path::From(44),
        6 => Path::From(44 + span.size()),
        _ => Path::From(44 + 2 * span.size()),
    }
}

// Where the field of a column stands: behind those of the columns before it, of which one is a text at most.
// Kept (7d): one match over the tables, an enum; a closure for each table would be chosen by the same match.
pub fn path_of(table: Table, column: usize) -> Path
    requires { OneText table × (column < length (items_of table)) }
    ensures { (c : List ℕ) (s : ℕ) → place_of c result s ≡ after_fields (take column (items_of table)) c s }
{
    match table {
        Table::Head => Path::From(0),
        Table::Propositions => proposition_path(column),
        Table::Proofs => proof_path(column),
        Table::Witnesses(span) => witness_path(column, span),
        Table::Parents => Path::From(0),
    }
}
