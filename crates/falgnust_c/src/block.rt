// A function's block: its result, with string starts and path starts in two lent tables, the parameters' families in a table of bytes and
// the debug symbols in a lent list; or with the words of its strings, symbols and paths in one table.
ghost use Rattle.semcode_records.specs.Maps.{symbol_is};
ghost use Rattle.semcode_decode.specs.Layout.{layout};
ghost use Rattle.semcode_symbols.specs.Symbols.{lists, Fills};
ghost use Rattle.path_words.specs.Blocks.{Puts};
ghost use Rattle.falgnust.specs.BlockMaps.{flat_block, flat_block_words};

use falgnust::block::{Block, BlockWords};
use semcode_records::symbol::DecodedDebugSymbol;

#[unsafe(no_mangle)]
pub extern "C" fn falgnust_parse_string_table_debug_and_ownership(
    base_offset: usize,
    code: &[u8],
    header_rev: u16,
    symbols: &mut [DecodedDebugSymbol],
    strings: &mut [u64],
    paths: &mut [u64],
    families: &mut [u8],
) -> Block
    ensures { Fills symbol_is (λ x. flat_block (layout x)) base_offset header_rev code.now
        (lists symbols.old strings.old paths.old families.old)
        (lists symbols.new strings.new paths.new families.new) result }
{
    falgnust::block::falgnust_parse_string_table_debug_and_ownership(
        base_offset,
        code,
        header_rev,
        symbols,
        strings,
        paths,
        families,
    )
}

// The words of its records go to the front of one table: of a string the place and the length of its bytes, of a symbol pc, line and column, of a path
// those of `falgnust_path_words`. Past them is what stood there.
#[unsafe(no_mangle)]
pub extern "C" fn falgnust_block_words(
    base_offset: usize,
    code: &[u8],
    header_rev: u16,
    words: &mut [u64],
) -> BlockWords
    ensures { Puts flat_block_words base_offset header_rev code.now words.old words.new result }
{
    falgnust::block::falgnust_block_words(base_offset, code, header_rev, words)
}
