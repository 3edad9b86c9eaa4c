// All functions of a file, with the last one's debug symbols in a lent list of records.
ghost use Rattle.std.specs.Prelude.{◌≡◌};
ghost use Rattle.local_format.specs.Maps.{answer_out};
ghost use Rattle.semcode_records.specs.Maps.{symbol_is};
ghost use Rattle.semcode_functions.specs.File.{file, file_tables};
ghost use Rattle.semcode_functions.specs.Maps.{last_is, file_is};
ghost use Rattle.semcode_symbols.specs.FileSymbols.{
  last_in,
  file_lists,
  PlacedFile,
  FillsFile,
};

use crate::{Located, fill_symbols};
use local_format::refusal::Refusal;
use semcode_functions::functions::{File, FunctionBlock, read_functions};
use semcode_records::symbol::DecodedDebugSymbol;

// ---- What the core says of the last function's symbols

fn last_of(answer: Result<File, Refusal>) -> Option<FunctionBlock>
    ensures { last_is result ≡ last_in (answer_out file_is answer) }
{
    answer.ok()?.last
}

// The answer, and where in the file how many symbols of the last function start; 0 where there are none.
fn functions_placed(
    bytes: &[u8],
    cursor: usize,
    header_rev: u16,
    symbols: usize,
    functions: &mut [u64],
    strings: &mut [u64],
    paths: &mut [u64],
    families: &mut [u8],
) -> Located<File>
    ensures { PlacedFile cursor header_rev symbols bytes.now
        (file_tables functions.old strings.old paths.old families.old)
        (file_tables functions.new strings.new paths.new families.new)
        (answer_out file_is result.answer) result.at result.count }
{
    let answer = read_functions(
        bytes, cursor, header_rev, symbols, functions, strings, paths, families,
    );
    let Some(FunctionBlock { code, parsed }) = last_of(answer) else {
        return Located {
            answer,
            at: 0,
            count: 0,
        };
    };
    let count = parsed.debug_symbol_count;
    let at = if count == 0 {
        0
    } else {
        code + parsed.debug_symbols_start
    };
    Located { answer, at, count }
}

// ---- The list

// The functions from a cursor to the end: their starts go to a lent table, the last one's string starts and path starts to two, its families
// to a table of bytes, and its symbols to a lent list.
pub fn decode_functions(
    bytes: &[u8],
    cursor: usize,
    header_rev: u16,
    symbols: &mut [DecodedDebugSymbol],
    functions: &mut [u64],
    strings: &mut [u64],
    paths: &mut [u64],
    families: &mut [u8],
) -> Result<File, Refusal>
    ensures { FillsFile symbol_is (file cursor) cursor header_rev bytes.now
        (file_lists symbols.old functions.old strings.old paths.old families.old)
        (file_lists symbols.new functions.new strings.new paths.new families.new) (answer_out file_is result) }
{
    let placed = functions_placed(
        bytes,
        cursor,
        header_rev,
        symbols.len(),
        functions,
        strings,
        paths,
        families,
    );
    fill_symbols(symbols, bytes, placed.at, placed.count);
    placed.answer
}
