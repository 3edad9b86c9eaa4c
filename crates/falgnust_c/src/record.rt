// The records of a block, each at a place.
ghost use Rattle.std.specs.Prelude.{◌≡◌};
ghost use Rattle.semcode_records.specs.Symbol.{symbol_at};
ghost use Rattle.semcode_records.specs.Path.{head_at};
ghost use Rattle.semcode_records.specs.Component.{component_at};
ghost use Rattle.falgnust.specs.BlockMaps.{flat_symbol, flat_path, flat_component};

use falgnust::record::{Component, Path, Symbol};

#[unsafe(no_mangle)]
pub extern "C" fn falgnust_read_debug_symbol(code: &[u8], at: usize) -> Symbol
    ensures { result ≡ flat_symbol (symbol_at code.now at) }
{
    falgnust::record::falgnust_read_debug_symbol(code, at)
}

#[unsafe(no_mangle)]
pub extern "C" fn falgnust_read_path(code: &[u8], at: usize, header_rev: u16) -> Path
    ensures { result ≡ flat_path (head_at header_rev code.now at) }
{
    falgnust::record::falgnust_read_path(code, at, header_rev)
}

// Kept (1a): C gives the kind as the byte of the format.
#[unsafe(no_mangle)]
pub extern "C" fn falgnust_read_component(
    code: &[u8],
    at: usize,
    header_rev: u16,
    kind: u8,
) -> Component
    ensures { result ≡ flat_component (component_at header_rev kind code.now at) }
{
    falgnust::record::falgnust_read_component(code, at, header_rev, kind)
}
