// Debug symbols in a lent list of records. Four functions take the list: one stores a record, one fills the list, and the two tops decode
// a block, or all functions of a file, and fill it.
#![tactic(auto)]

ghost use Rattle.std.specs.Prelude.{◌≡◌, map, set, ◌+◌, ◌-◌, ◌*◌, ◌<◌, ◌≤◌, length};
ghost use Rattle.local_format.specs.Field.{le};
ghost use Rattle.local_format.specs.Maps.{answer_out};
ghost use Rattle.semcode_records.specs.Records.{records};
ghost use Rattle.semcode_records.specs.Symbol.{symbol_at};
ghost use Rattle.semcode_records.specs.Maps.{symbol_is};
ghost use Rattle.semcode_decode.specs.Layout.{layout, tables};
ghost use Rattle.semcode_decode.specs.Maps.{layout_is};
ghost use Rattle.semcode_symbols.specs.Symbols.{
  symbols_in,
  lent_symbols,
  Placed,
  lists,
  Fills,
};

use local_format::field::LittleEndian;
use local_format::refusal::Refusal;
use semcode_decode::decode::{StringTableDebugOwnershipParse, parse_block};
use semcode_records::symbol::DecodedDebugSymbol;

pub mod functions;

// ---- What the core says of the symbols

// The answer, and where how many symbols start; a refusal has none.
// Kept (1d): the list is filled after a refusal too, with zeros: no symbols from place 0 on need no second branch, which an Option would.
#[derive(Clone, Copy)]
struct Located<T> {
    answer: Result<T, Refusal>,
    at: usize,
    count: usize,
}

// Kept (2d): `functions_placed` reads a file and places the symbols of its last block, moved to that block; what is alike is `Located`.
fn parse_placed(
    base_offset: usize,
    code: &[u8],
    header_rev: u16,
    symbols: usize,
    strings: &mut [u64],
    paths: &mut [u64],
    families: &mut [u8],
) -> Located<StringTableDebugOwnershipParse>
    ensures { Placed base_offset header_rev symbols code.now
        (tables strings.old paths.old families.old)
        (tables strings.new paths.new families.new) (answer_out layout_is result.answer) result.at result.count }
{
    let answer = parse_block(
        base_offset,
        code,
        header_rev,
        symbols,
        strings,
        paths,
        families,
    );
    let (at, count) = match answer {
        Ok(parsed) => (parsed.debug_symbols_start, parsed.debug_symbol_count),
        Err(_) => (0, 0),
    };
    Located { answer, at, count }
}

// The symbol at a place. Its 10 bytes are there, so it is read without the tests of a reader.
// Kept (2d, 4d, 6d): the bytes are known to be there; `read_debug_symbol`, or a `TryFrom`, answers a refusal instead.
fn symbol_at(code: &[u8], at: usize) -> DecodedDebugSymbol
    requires { at + 10 ≤ length code.now }
    ensures { symbol_is result ≡ record { pc = le 4 code.now at; line = le 4 code.now (at + 4); column = le 2 code.now (at + 8) } }
{
    let pc = u32::le_at(code, at);
    let line = u32::le_at(code, at + 4);
    let col = u16::le_at(code, at + 8);
    DecodedDebugSymbol {
        pc: pc as usize,
        line,
        col,
    }
}

// ---- The list

// A symbol's pc, line and column become one record of the list; the others stay.
// Kept (4a): document 01 names this form, a thin function that stores the three into one record of the lent slice.
fn store_symbol(symbols: &mut [DecodedDebugSymbol], i: usize, pc: usize, line: u32, col: u16)
    requires { i < length symbols.old }
    ensures { symbols.new ≡ set symbols.old i (record { pc = pc; line = line; col = col }) }
{
    symbols[i] = DecodedDebugSymbol { pc, line, col };
}

// So many symbols from a place on, then zeros, by a loop each: no entry is asked whether it is past the count.
// Kept (4d, 6a): C lends the list; zipped with `code[at..].chunks_exact(10)`, each symbol is a slice, of which it must be shown that it has 10 bytes.
fn fill_symbols(symbols: &mut [DecodedDebugSymbol], code: &[u8], at: usize, count: usize)
    requires { (10 * count ≤ length code.now - at) × (count ≤ length symbols.old) }
    ensures { map symbol_is symbols.new ≡
        lent_symbols (length symbols.old) (symbols_in (records (symbol_at code.now) count at)) }
{
    for i in 0..count {
        let v = symbol_at(code, at + 10 * i);
        store_symbol(symbols, i, v.pc, v.line, v.col);
    }
    for i in count..symbols.len() {
        store_symbol(symbols, i, 0, 0, 0);
    }
}

// A block at a base: string starts and path starts go to two lent tables, the families to a table of bytes, the symbols to a lent list.
// Kept (2a): two functions of C; each is a call that places the symbols and one that fills the list.
pub fn parse_string_table_debug_and_ownership(
    base_offset: usize,
    code: &[u8],
    header_rev: u16,
    symbols: &mut [DecodedDebugSymbol],
    strings: &mut [u64],
    paths: &mut [u64],
    families: &mut [u8],
) -> Result<StringTableDebugOwnershipParse, Refusal>
    ensures { Fills symbol_is layout base_offset header_rev code.now
        (lists symbols.old strings.old paths.old families.old)
        (lists symbols.new strings.new paths.new families.new) (answer_out layout_is result) }
{
    let placed = parse_placed(
        base_offset,
        code,
        header_rev,
        symbols.len(),
        strings,
        paths,
        families,
    );
    fill_symbols(symbols, code, placed.at, placed.count);
    placed.answer
}
