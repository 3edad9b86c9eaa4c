// All functions of a file: their starts in a lent table, and the last one's block as if it were decoded alone.
ghost use Rattle.std.specs.Prelude.{◌≡◌};
ghost use Rattle.local_format.specs.Maps.{answer_out};
ghost use Rattle.semcode_records.specs.Maps.{symbol_is};
ghost use Rattle.semcode_functions.specs.File.{file};
ghost use Rattle.semcode_functions.specs.Maps.{last_is, file_is};
ghost use Rattle.semcode_symbols.specs.FileSymbols.{file_lists, FillsFile};
ghost use Rattle.falgnust.specs.FunctionMaps.{last_code, flat_last, flat_functions};

use crate::block::Block;
use crate::refusal::{Answer, Refusal};
use semcode_functions::functions::{File, FunctionBlock};
use semcode_records::symbol::DecodedDebugSymbol;
use semcode_symbols::functions::decode_functions;

// How many functions there are, the cursor after them, and where the last one's block starts and what it holds. After a refusal the
// cursor is the one that was brought; where there is no last block, it is not accepted and has zeros.
// Kept (1a): callers in C read a flag and the values beside it.
#[repr(C)]
#[derive(Clone, Copy, Debug, Default, PartialEq, Eq)]
pub struct Functions {
    pub accepted: bool,
    pub refusal: Refusal,
    pub functions: usize,
    pub cursor: usize,
    pub last_code: usize,
    pub last: Block,
}

fn last_code(last: Option<FunctionBlock>) -> usize
    ensures { result ≡ last_code (last_is last) }
{
    last.map_or(0, |block| block.code)
}

impl From<Option<FunctionBlock>> for Block {
    ghost from_gives = { λ last b. b ≡ flat_last (last_is last) };

    fn from(last: Option<FunctionBlock>) -> Block {
        match last {
            Some(block) => Ok(block.parsed).into(),
            None => Block::default(),
        }
    }
}

fn flat_functions(answer: Answer<File>, cursor: usize) -> Functions
    ensures { result ≡ flat_functions cursor (answer_out file_is answer) }
{
    match answer {
        Ok(found) => Functions {
            accepted: true,
            functions: found.functions,
            cursor: found.cursor,
            last_code: last_code(found.last),
            last: found.last.into(),
            ..Functions::default()
        },
        Err(refused) => Functions {
            refusal: refused.into(),
            cursor,
            ..Functions::default()
        },
    }
}

// Kept (6a): C lends a table and its length; no heap.
#[unsafe(no_mangle)]
pub extern "C" fn falgnust_decode_functions(
    bytes: &[u8],
    cursor: usize,
    header_rev: u16,
    symbols: &mut [DecodedDebugSymbol],
    functions: &mut [u64],
    strings: &mut [u64],
    paths: &mut [u64],
    families: &mut [u8],
) -> Functions
    ensures { FillsFile symbol_is (λ x. flat_functions cursor (file cursor x)) cursor header_rev bytes.now
        (file_lists symbols.old functions.old strings.old paths.old families.old)
        (file_lists symbols.new functions.new strings.new paths.new families.new) result }
{
    let answer = decode_functions(
        bytes, cursor, header_rev, symbols, functions, strings, paths, families,
    );
    flat_functions(answer, cursor)
}
