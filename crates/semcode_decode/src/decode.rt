// The whole block.
ghost use Rattle.std.specs.Prelude.{length};
ghost use Rattle.local_format.specs.Maps.{answer_out};
ghost use Rattle.semcode_decode.specs.Block.{block_of};
ghost use Rattle.semcode_decode.specs.Layout.{layout, tables, rooms, Decodes};
ghost use Rattle.semcode_decode.specs.Begun.{Lays, Begins};
ghost use Rattle.semcode_decode.specs.Maps.{layout_is};

use crate::signature::signature_section;
use crate::table::{
    MAX_DEBUG_SYMBOLS_PER_FUNCTION, debug_section, ownership_section, string_table, table_of,
};
use lent_table::{clear, clear_from, copy_bytes};
use local_format::refusal::{Refusal, based};

// As many symbols as any block has, for who lends no list of them.
pub const ANY_SYMBOLS: usize = MAX_DEBUG_SYMBOLS_PER_FUNCTION as usize;

// Counts, tags found and places in the block.
#[derive(Clone, Copy, Debug, PartialEq, Eq)]
pub struct StringTableDebugOwnershipParse {
    pub string_count: usize,
    pub string_table_end_offset: usize,
    // Kept (1a): a field of the Rust's own struct, which C reads as a flag.
    pub has_debug_section: bool,
    pub debug_symbol_count: usize,
    pub debug_symbols_start: usize,
    // Kept (1a): a field of the Rust's own struct, which C reads as a flag.
    pub has_ownership_section: bool,
    pub path_count: usize,
    // Kept (1a): a field of the Rust's own struct, which C reads as a flag.
    pub has_signature: bool,
    pub parameter_count: usize,
    pub families_start: usize,
    pub instr_start_offset: usize,
}

// Families are only counted. The starts stand at the front of the lent tables, and past them what stood there; a refusal leaves anything, and its
// offset is a place in the block.
fn read_block(
    code: &[u8],
    header_rev: u16,
    symbols: usize,
    strings: &mut [u64],
    paths: &mut [u64],
    families: usize,
) -> Result<StringTableDebugOwnershipParse, Refusal>
    ensures { Lays (block_of header_rev (rooms (length strings.old) symbols (length paths.old) families) code.now)
        strings.old paths.old strings.new paths.new (answer_out layout_is result) }
{
    let strings_read = string_table(code, 0, strings)?;
    let debug = debug_section(code, strings_read.end, symbols)?;
    let symbols_read = table_of(debug, strings_read.end);
    let ownership = ownership_section(code, symbols_read.end, header_rev, paths)?;
    let paths_read = table_of(ownership, symbols_read.end);
    let signature = signature_section(
        code,
        paths_read.end,
        header_rev,
        ownership.is_some(),
        families,
    )?;
    let families_read = table_of(signature, paths_read.end);
    Ok(StringTableDebugOwnershipParse {
        string_count: strings_read.count,
        string_table_end_offset: strings_read.end,
        has_debug_section: debug.is_some(),
        debug_symbol_count: symbols_read.count,
        debug_symbols_start: symbols_read.start,
        has_ownership_section: ownership.is_some(),
        path_count: paths_read.count,
        has_signature: signature.is_some(),
        parameter_count: families_read.count,
        families_start: families_read.start,
        instr_start_offset: families_read.end,
    })
}

// The same, where a refusal leaves zeros in the lent tables.
// Kept (2b): `parse_block` over this function took up to 1.03 of the instructions (D52), where 1.02 is the bar; both call `read_block`.
pub fn parse_tables(
    code: &[u8],
    header_rev: u16,
    symbols: usize,
    strings: &mut [u64],
    paths: &mut [u64],
    families: usize,
) -> Result<StringTableDebugOwnershipParse, Refusal>
    ensures { Begins (block_of header_rev (rooms (length strings.old) symbols (length paths.old) families) code.now)
        strings.old paths.old strings.new paths.new (answer_out layout_is result) }
{
    let answer = read_block(code, header_rev, symbols, strings, paths, families);
    if answer.is_err() {
        clear(strings);
        clear(paths);
    }
    answer
}

// A block at a base, with a lent list of so many symbols: string starts and path starts go to two lent tables, the families to a table of bytes.
// The tables stand apart, as C lends them.
pub fn parse_block(
    base_offset: usize,
    code: &[u8],
    header_rev: u16,
    symbols: usize,
    strings: &mut [u64],
    paths: &mut [u64],
    families: &mut [u8],
) -> Result<StringTableDebugOwnershipParse, Refusal>
    ensures { Decodes layout base_offset header_rev symbols code.now
        (tables strings.old paths.old families.old)
        (tables strings.new paths.new families.new) (answer_out layout_is result) }
{
    match read_block(code, header_rev, symbols, strings, paths, families.len()) {
        Ok(parsed) => {
            clear_from(strings, parsed.string_count);
            clear_from(paths, parsed.path_count);
            copy_bytes(
                families,
                code,
                parsed.families_start,
                parsed.parameter_count,
            );
            Ok(parsed)
        }
        Err(refused) => {
            clear(strings);
            clear(paths);
            clear(families);
            Err(based(refused, base_offset))
        }
    }
}
