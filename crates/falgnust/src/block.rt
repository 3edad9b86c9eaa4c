// A function's block: its result, with string starts and path starts in two lent tables, the parameters' families in a table of bytes and
// the debug symbols in a lent list; or with the words of its strings, symbols and paths in one table.
ghost use Rattle.std.specs.Prelude.{◌≡◌};
ghost use Rattle.local_format.specs.Maps.{answer_out};
ghost use Rattle.semcode_records.specs.Maps.{symbol_is};
ghost use Rattle.semcode_decode.specs.Layout.{layout};
ghost use Rattle.semcode_decode.specs.Maps.{layout_is};
ghost use Rattle.semcode_symbols.specs.Symbols.{lists, Fills};
ghost use Rattle.path_words.specs.Blocks.{Puts};
ghost use Rattle.path_words.specs.BlockMaps.{worded_is};
ghost use Rattle.falgnust.specs.BlockMaps.{flat_block, flat_block_words};

use crate::refusal::{Answer, Refusal};
use path_words::block::{WordedBlock, read_block_words};
use semcode_decode::decode::StringTableDebugOwnershipParse;
use semcode_records::symbol::DecodedDebugSymbol;
use semcode_symbols::parse_string_table_debug_and_ownership;

// Counts, whether each tag was found, and places in the block; or a refusal, with zeros beside it.
// Kept (1a): callers in C read four flags and the values beside them.
#[repr(C)]
#[derive(Clone, Copy, Debug, Default, PartialEq, Eq)]
pub struct Block {
    pub accepted: bool,
    pub refusal: Refusal,
    pub has_debug_section: bool,
    pub has_ownership_section: bool,
    pub has_signature: bool,
    pub string_count: usize,
    pub string_table_end_offset: usize,
    pub debug_symbol_count: usize,
    pub debug_symbols_start: usize,
    pub path_count: usize,
    pub parameter_count: usize,
    pub families_start: usize,
    pub instr_start_offset: usize,
}

impl From<Answer<StringTableDebugOwnershipParse>> for Block {
    ghost from_gives = { λ parse b. b ≡ flat_block (answer_out layout_is parse) };

    fn from(parse: Answer<StringTableDebugOwnershipParse>) -> Block {
        match parse {
            Ok(parsed) => Block {
                accepted: true,
                has_debug_section: parsed.has_debug_section,
                has_ownership_section: parsed.has_ownership_section,
                has_signature: parsed.has_signature,
                string_count: parsed.string_count,
                string_table_end_offset: parsed.string_table_end_offset,
                debug_symbol_count: parsed.debug_symbol_count,
                debug_symbols_start: parsed.debug_symbols_start,
                path_count: parsed.path_count,
                parameter_count: parsed.parameter_count,
                families_start: parsed.families_start,
                instr_start_offset: parsed.instr_start_offset,
                ..Block::default()
            },
            Err(refused) => Block {
                refusal: refused.into(),
                ..Block::default()
            },
        }
    }
}

#[unsafe(no_mangle)]
pub extern "C" fn falgnust_parse_string_table_debug_and_ownership(
    base_offset: usize,
    code: &[u8],
    header_rev: u16,
    symbols: &mut [DecodedDebugSymbol],
    strings: &mut [u64],
    paths: &mut [u64],
    families: &mut [u8],
) -> Block
    ensures { Fills symbol_is (λ x. flat_block (layout x)) base_offset header_rev code.now
        (lists symbols.old strings.old paths.old families.old)
        (lists symbols.new strings.new paths.new families.new) result }
{
    parse_string_table_debug_and_ownership(
        base_offset,
        code,
        header_rev,
        symbols,
        strings,
        paths,
        families,
    )
    .into()
}

// A block, and how many words it has; none beside a refusal.
#[repr(C)]
#[derive(Clone, Copy, Debug, Default, PartialEq, Eq)]
pub struct BlockWords {
    pub block: Block,
    pub words: usize,
}

impl From<Answer<WordedBlock>> for BlockWords {
    ghost from_gives = { λ answer b. b ≡ flat_block_words (answer_out worded_is answer) };

    fn from(answer: Answer<WordedBlock>) -> BlockWords {
        // In place: a `Block` made apart is copied with what lies between its fields, some 30 instructions a call.
        let mut flat = BlockWords::default();
        match answer {
            Ok(WordedBlock { parsed, words }) => {
                flat.block.accepted = true;
                flat.block.has_debug_section = parsed.has_debug_section;
                flat.block.has_ownership_section = parsed.has_ownership_section;
                flat.block.has_signature = parsed.has_signature;
                flat.block.string_count = parsed.string_count;
                flat.block.string_table_end_offset = parsed.string_table_end_offset;
                flat.block.debug_symbol_count = parsed.debug_symbol_count;
                flat.block.debug_symbols_start = parsed.debug_symbols_start;
                flat.block.path_count = parsed.path_count;
                flat.block.parameter_count = parsed.parameter_count;
                flat.block.families_start = parsed.families_start;
                flat.block.instr_start_offset = parsed.instr_start_offset;
                flat.words = words;
            }
            Err(refused) => flat.block.refusal = refused.into(),
        }
        flat
    }
}

// The words of its records go to the front of one table: of a string the place and the length of its bytes, of a symbol pc, line and column, of a path
// those of `falgnust_path_words`. Past them is what stood there.
// Kept (6a): C lends one table for all words.
#[tactic(auto, using(crate::proofs::BlockLaws::mapped))]
#[unsafe(no_mangle)]
pub extern "C" fn falgnust_block_words(
    base_offset: usize,
    code: &[u8],
    header_rev: u16,
    words: &mut [u64],
) -> BlockWords
    ensures { Puts flat_block_words base_offset header_rev code.now words.old words.new result }
{
    read_block_words(base_offset, code, header_rev, words).into()
}
