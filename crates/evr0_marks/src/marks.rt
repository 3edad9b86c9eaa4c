// The marks of the proofs of a payload whose tables have been read: one pass over their starts, each mark made from those of the parents,
// which stand before it.
ghost use Rattle.std.specs.Prelude.{◌≡◌, List, ◌-◌, ◌≤◌, ◌<◌, length};
ghost use Rattle.lent_table.specs.Lent.{lent};
ghost use Rattle.derivation.specs.Rule.{Rule};
ghost use Rattle.derivation.specs.Section.{witness_at};
ghost use Rattle.derivation.specs.InOrder.{gathered};
ghost use Rattle.derivation.specs.Mark as of;
ghost use Rattle.evr0_pass.specs.Tables.{tables_by};

use evr0_fields::number::WitnessNumber;
use evr0_pass::pass::{Tables, after_name};
use evr0_read::table::entry_or;
use lent_table::clear_from;
use local_format::field::LittleEndian;

// Two marks together; 0 is none.
// Kept (1a): marks are bytes of a table that C lends and reads; an enum would only be turned into that byte again, and back for each parent.
#[tactic(auto, unfolding(derivation::specs::Mark::joined))]
fn joined(a: u8, b: u8) -> u8
    ensures { result ≡ of.joined a b }
{
    if a == 0 {
        b
    } else if b == 0 || a == b {
        a
    } else {
        3
    }
}

// The mark of a proof without parents, by its witness's polarity.
// Kept (1a): the polarity is a witness's byte of the payload, and the mark a byte of the lent table.
fn end_mark(polarity: u8) -> u8
    ensures { result ≡ of.end_mark polarity }
{
    if polarity == 1 { 1 } else { 2 }
}

// The polarity of a witness; 0 where there is none with the number.
// Kept (1a): a witness's byte of the payload; past the count the definition's witness has polarity 0, and the contract equates with it.
fn polarity(tables: Tables, witness: WitnessNumber) -> u8
    ensures { (rules : List Rule) → result ≡ (witness_at (tables_by rules tables.entry) witness.0).polarity }
{
    let i = witness.place();
    if i < tables.layout.counts.witnesses {
        tables.payload[tables.witness_start(i) + 8]
    } else {
        0
    }
}

// The marks of the parents from the cell `first` to before the cell `end`, together; `known` are those of the proofs before.
// Kept (1a, 2d): marks are lent bytes; this joins all parents' marks, where `were_marked` of evr0_rounds ends at the first that is not marked; the cells
// and the number in each are `Tables`' own.
fn by_parents(tables: Tables, known: &[u8], first: usize, end: usize) -> u8
    requires { (first ≤ end) × (end ≤ tables.layout.counts.parents) }
    ensures { (rules : List Rule) → result ≡ gathered of.joined (tables_by rules tables.entry) known.now (end - first) first 0 }
{
    let mut mark = 0;
    for cell in first..end {
        mark = joined(mark, entry_or(known, tables.parent(cell), 0));
    }
    mark
}

// The mark of the proof after those whose marks are known.
// Kept (1a, 6a): its answer goes into the table of bytes that C lends, one for each start; parents are numbers of the payload.
fn mark_after(tables: Tables, known: &[u8]) -> u8
    requires { length known.now < length tables.starts.now }
    ensures { (rules : List Rule) → result ≡ of.mark_of (tables_by rules tables.entry) (length known.now) known.now }
{
    let (first, end) = tables.cells(known.len());
    if first == end {
        let rest = after_name(tables.payload, tables.starts[known.len()] as usize);
        let witness = WitnessNumber(u32::le_at(tables.payload, rest + 4));
        return end_mark(polarity(tables, witness));
    }
    by_parents(tables, known, first, end)
}

// The mark of each proof at the front of the lent table, and zeros past them.
// Kept (6a): C lends the starts and the marks as two tables, which callers in C read.
pub fn mark_proofs(tables: Tables, marks: &mut [u8])
    requires { length tables.starts.now ≤ length marks.old }
    ensures { (rules : List Rule) → marks.new ≡ lent (length marks.old) (of.marks (tables_by rules tables.entry)) }
{
    for i in 0..tables.starts.len() {
        let mark = mark_after(tables, &marks[..i]);
        marks[i] = mark;
    }
    clear_from(marks, tables.starts.len());
}
