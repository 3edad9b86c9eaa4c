// A block of the list: decoded, and every part of the answer compared.
use crate::asked::Asked;
use crate::held::{numbers, refusal, table};
use semcode_decode::decode::StringTableDebugOwnershipParse;
use semcode_records::symbol::DecodedDebugSymbol;
use semcode_symbols::parse_string_table_debug_and_ownership;

pub const SYMBOLS: usize = 8200;

pub const STRINGS: usize = 300;

pub const PATHS: usize = 65536;

pub const FAMILIES: usize = 4100;

// What a lent table holds before the call.
pub const OLD: u64 = 11936128518282651045;

pub const OLD_BYTE: u8 = 165;

pub const OLD_SYMBOL: DecodedDebugSymbol = DecodedDebugSymbol {
    pc: 11936128518282651045,
    line: 2779096485,
    col: 42405,
};

// The list of symbols and the tables of a block after the call.
#[derive(Clone, Copy)]
pub struct Tables<'a> {
    pub symbols: &'a [DecodedDebugSymbol],
    pub strings: &'a [u64],
    pub paths: &'a [u64],
    pub families: &'a [u8],
}

impl Tables<'_> {
    // With zeros alone.
    pub fn none<'b>(self, list: &'b [u8]) -> Option<&'b [u8]> {
        self.counted(list, 0, 0, 0, 0)
    }

    fn counted<'b>(
        self,
        list: &'b [u8],
        symbols: usize,
        strings: usize,
        paths: usize,
        families: usize,
    ) -> Option<&'b [u8]> {
        let rest = table(list, self.strings, strings)?;
        let rest = table(rest, self.paths, paths)?;
        let rest = table(rest, self.families, families)?;
        table(rest, self.symbols, symbols)
    }

    // The layout of an accepted block, its tables and its symbols.
    pub fn whole<'b>(
        self,
        list: &'b [u8],
        block: StringTableDebugOwnershipParse,
    ) -> Option<&'b [u8]> {
        self.counted(
            layout(list, block)?,
            block.debug_symbol_count,
            block.string_count,
            block.path_count,
            block.parameter_count,
        )
    }
}

// Number 0, the tags, the counts and the places.
fn layout(list: &[u8], block: StringTableDebugOwnershipParse) -> Option<&[u8]> {
    numbers(
        list,
        &[
            0,
            block.has_debug_section as usize,
            block.has_ownership_section as usize,
            block.has_signature as usize,
            block.string_count,
            block.string_table_end_offset,
            block.debug_symbol_count,
            block.debug_symbols_start,
            block.path_count,
            block.parameter_count,
            block.families_start,
            block.instr_start_offset,
        ],
    )
}

// An entry that asks for longer tables than there are is not the same.
// Kept (2d): the three lend tables of their own and take other answers apart; one for all would make every table and choose twice by the decoder.
pub fn block(asked: Asked) -> Option<&[u8]> {
    let [a, b, c, d] = asked.lengths;
    if STRINGS < a || SYMBOLS < b || PATHS < c || FAMILIES < d {
        return None;
    }
    let mut symbols = [OLD_SYMBOL; SYMBOLS];
    let mut strings = [OLD; STRINGS];
    let mut paths = [OLD; PATHS];
    let mut families = [OLD_BYTE; FAMILIES];
    let parsed = parse_string_table_debug_and_ownership(
        asked.origin,
        asked.input,
        asked.revision,
        &mut symbols[..b],
        &mut strings[..a],
        &mut paths[..c],
        &mut families[..d],
    );
    let tables = Tables {
        symbols: &symbols[..b],
        strings: &strings[..a],
        paths: &paths[..c],
        families: &families[..d],
    };
    match parsed {
        Ok(block) => tables.whole(asked.rest, block),
        Err(refused) => tables.none(refusal(asked.rest, refused)?),
    }
}
