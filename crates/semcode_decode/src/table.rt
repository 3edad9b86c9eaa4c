// The tables of a block, each with its count in front.
ghost use Rattle.std.specs.Prelude.{◌≡◌, ℕ, length};
ghost use Rattle.local_format.specs.Out.{Out, ok};
ghost use Rattle.local_format.specs.Maps.{answer_out};
ghost use Rattle.local_format.specs.Tag.{dbg0, own0};
ghost use Rattle.semcode_records.specs.Records.{Taken, records, next_of};
ghost use Rattle.semcode_records.specs.Records as of;
ghost use Rattle.semcode_records.specs.Symbol.{symbol_at};
ghost use Rattle.semcode_records.specs.Path.{path_at};
ghost use Rattle.semcode_records.specs.Maps.{Tells};
ghost use Rattle.semcode_decode.specs.Block.{string_record, string_table, symbol_table, path_table, section_at};
ghost use Rattle.semcode_decode.specs.Layout.{extent, starts_of, tagged, table_in};
ghost use Rattle.semcode_decode.specs.Begun.{Lies};
ghost use Rattle.semcode_decode.specs.Maps.{table_is, section_is};

use crate::string::read_string;
use local_format::field::{Field, field_at};
use local_format::refusal::{Refusal, check, refuse};
use local_format::tag::tag_at;
use semcode_records::path::path_end;
use semcode_records::symbol::read_debug_symbol;

pub const MAX_STRINGS_PER_FUNCTION: u16 = 256;

pub const MAX_DEBUG_SYMBOLS_PER_FUNCTION: u16 = 8192;

// Where the records of a table start, how many they are, and the place after them.
#[derive(Clone, Copy, Debug, PartialEq, Eq)]
pub struct Table {
    pub start: usize,
    pub count: usize,
    pub end: usize,
}

// The table of a section, whose tag may be absent.
pub fn table_of(section: Option<Table>, at: usize) -> Table
    ensures { table_is result ≡ (section_is at section).extent }
{
    section.unwrap_or(Table {
        start: at,
        count: 0,
        end: at,
    })
}

// Records from a place on, as many as their starts have room, of which `end` tells where each ends.
fn fill_starts<F: Fn(usize) -> Result<usize, Refusal>>(
    at: usize,
    starts: &mut [u64],
    end: F,
) -> Result<Table, Refusal>
    requires tells { F.IsAlwaysCallable end }
    ensures result_value { (read : ℕ → Out (Taken (Unit {0}))) → Tells read (F.post end)
        → answer_out table_is result ≡ extent (records read (length starts.old) at) }
    ensures filled { (read : ℕ → Out (Taken (Unit {0}))) → Tells read (F.post end)
        → (t : of.Table (Unit {0})) → records read (length starts.old) at ≡ ok t → starts.new ≡ starts_of t }
{
    let count = starts.len();
    let mut cursor = at;
    for start in starts {
        let next = end(cursor)?;
        *start = cursor as u64;
        cursor = next;
    }
    Ok(Table {
        start: at,
        count,
        end: cursor,
    })
}

// ---- The strings

// The count and the strings.
// Kept (2d): the four tables differ in refusals, limit, room and walk: one function would take all these, the walk as a closure, for two `check`s and a `let`.
#[tactic(auto, unfolding(crate::specs::Block::string_table))]
pub(crate) fn string_table(bytes: &[u8], at: usize, strings: &mut [u64]) -> Result<Table, Refusal>
    ensures result_value { answer_out table_is result ≡ extent (string_table bytes.now (length strings.old) at) }
    ensures lies { Lies (string_table bytes.now (length strings.old) at) strings.old strings.new }
{
    let Some(Field { value: count, next }) = field_at::<u16>(bytes, at) else {
        return Err(refuse(30, at));
    };
    check(count <= MAX_STRINGS_PER_FUNCTION, 31, next)?;
    check(count as usize <= strings.len(), 61, next)?;
    fill_starts(
        next,
        &mut strings[..count as usize],
        |place: usize| -> Result<usize, Refusal>
            ensures { answer_out (λ end. end) result ≡ next_of (string_record bytes.entry.now place) }
        { Ok(read_string(bytes, place)?.next) },
    )
}

// ---- DBG0

// So many symbols from a place on: since each has 10 bytes, only the first that is cut is read.
fn skip_symbols(bytes: &[u8], at: usize, count: u16) -> Result<Table, Refusal>
    ensures { answer_out table_is result ≡ extent (records (symbol_at bytes.now) count at) }
{
    let wanted = count as usize;
    let whole = bytes.len().saturating_sub(at) / 10;
    if whole < wanted {
        read_debug_symbol(bytes, at + 10 * whole)?;
    }
    Ok(Table {
        start: at,
        count: wanted,
        end: at + 10 * wanted,
    })
}

// The count and the symbols of a lent list with so many records.
#[tactic(auto, unfolding(crate::specs::Block::symbol_table))]
fn debug_table(bytes: &[u8], at: usize, symbols: usize) -> Result<Table, Refusal>
    ensures { answer_out table_is result ≡ extent (symbol_table bytes.now symbols at) }
{
    let Some(Field { value: count, next }) = field_at::<u16>(bytes, at) else {
        return Err(refuse(35, at));
    };
    check(count <= MAX_DEBUG_SYMBOLS_PER_FUNCTION, 36, next)?;
    check(count as usize <= symbols, 61, next)?;
    skip_symbols(bytes, next, count)
}

// Kept (2d): `section(bytes, at, b"DBG0", |at| debug_table(bytes, at, symbols))` would need the closure's contract beside this one, for one `if`.
#[tactic(auto, unfolding(crate::specs::Block::section_at))]
pub fn debug_section(bytes: &[u8], at: usize, symbols: usize) -> Result<Option<Table>, Refusal>
    ensures { answer_out (section_is at) result ≡
        tagged (section_at dbg0 (symbol_table bytes.now symbols) bytes.now at) }
{
    if tag_at(bytes, at, b"DBG0") {
        Ok(Some(debug_table(bytes, at + 4, symbols)?))
    } else {
        Ok(None)
    }
}

// ---- OWN0

// The count and the paths.
#[tactic(auto, unfolding(crate::specs::Block::path_table))]
fn ownership_table(
    bytes: &[u8],
    at: usize,
    header_rev: u16,
    paths: &mut [u64],
) -> Result<Table, Refusal>
    ensures result_value { answer_out table_is result ≡
        extent (path_table header_rev bytes.now (length paths.old) at) }
    ensures lies { Lies (path_table header_rev bytes.now (length paths.old) at) paths.old paths.new }
{
    let Some(Field { value: count, next }) = field_at::<u16>(bytes, at) else {
        return Err(refuse(40, at));
    };
    check(count as usize <= paths.len(), 61, next)?;
    fill_starts(
        next,
        &mut paths[..count as usize],
        |place: usize| -> Result<usize, Refusal>
            ensures { answer_out (λ end. end) result ≡ next_of (path_at header_rev bytes.entry.now place) }
        { path_end(bytes, place, header_rev) },
    )
}

#[tactic(auto, unfolding(crate::specs::Block::section_at))]
pub(crate) fn ownership_section(
    bytes: &[u8],
    at: usize,
    header_rev: u16,
    paths: &mut [u64],
) -> Result<Option<Table>, Refusal>
    ensures result_value { answer_out (section_is at) result ≡
        tagged (section_at own0 (path_table header_rev bytes.now (length paths.old)) bytes.now at) }
    ensures lies { Lies (table_in (section_at own0 (path_table header_rev bytes.now (length paths.old)) bytes.now at))
        paths.old paths.new }
{
    if tag_at(bytes, at, b"OWN0") {
        Ok(Some(ownership_table(bytes, at + 4, header_rev, paths)?))
    } else {
        Ok(None)
    }
}
