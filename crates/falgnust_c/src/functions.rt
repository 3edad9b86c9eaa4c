// All functions of a file: their starts in a lent table, and the last one's block as if it were decoded alone.
ghost use Rattle.semcode_records.specs.Maps.{symbol_is};
ghost use Rattle.semcode_functions.specs.File.{file};
ghost use Rattle.semcode_symbols.specs.FileSymbols.{file_lists, FillsFile};
ghost use Rattle.falgnust.specs.FunctionMaps.{flat_functions};

use falgnust::functions::Functions;
use semcode_records::symbol::DecodedDebugSymbol;

#[unsafe(no_mangle)]
pub extern "C" fn falgnust_decode_functions(
    bytes: &[u8],
    cursor: usize,
    header_rev: u16,
    symbols: &mut [DecodedDebugSymbol],
    functions: &mut [u64],
    strings: &mut [u64],
    paths: &mut [u64],
    families: &mut [u8],
) -> Functions
    ensures { FillsFile symbol_is (λ x. flat_functions cursor (file cursor x)) cursor header_rev bytes.now
        (file_lists symbols.old functions.old strings.old paths.old families.old)
        (file_lists symbols.new functions.new strings.new paths.new families.new) result }
{
    falgnust::functions::falgnust_decode_functions(
        bytes, cursor, header_rev, symbols, functions, strings, paths, families,
    )
}
