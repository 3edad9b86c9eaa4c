// A block, with the words of its strings, symbols and paths in one lent table, for whoever copies them: each record is read once.
ghost use Rattle.std.specs.Prelude.{◌≡◌, ◌+◌, ◌*◌, ◌^◌, ◌≤◌};
ghost use Rattle.local_format.specs.Out.{ok};
ghost use Rattle.local_format.specs.Maps.{answer_out};
ghost use Rattle.local_format.specs.Tag.{dbg0, own0};
ghost use Rattle.local_format.specs.Text.{Span};
ghost use Rattle.semcode_records.specs.Records as of;
ghost use Rattle.semcode_records.specs.Symbol.{Symbol};
ghost use Rattle.semcode_records.specs.Path.{Path};
ghost use Rattle.semcode_decode.specs.Block.{string_table, symbol_table, path_table, Section, section_at};
ghost use Rattle.semcode_decode.specs.Layout.{extent, tagged, starts_of};
ghost use Rattle.semcode_decode.specs.Maps.{table_is, section_is};
ghost use Rattle.record_words.specs.Words.{all_words};
ghost use Rattle.path_words.specs.Words.{path_words};
ghost use Rattle.path_words.specs.Blocks.{string_words, symbol_words, Adds, Puts, PutsHere};
ghost use Rattle.path_words.specs.BlockMaps.{worded_is, Where};

use crate::records::{Paths, Strings, Symbols, put_all};
use lent_table::clear;
use local_format::field::{Field, field_at};
use local_format::refusal::{Refusal, based, check, refuse};
use local_format::tag::tag_at;
use semcode_decode::decode::{ANY_SYMBOLS, StringTableDebugOwnershipParse};
use semcode_decode::signature::{MAX_SIGNATURE_PARAMETERS_PER_FUNCTION, signature_section};
use semcode_decode::table::{MAX_STRINGS_PER_FUNCTION, Table, debug_section, table_of};

// A block, and how many words it has.
#[derive(Clone, Copy, Debug, PartialEq, Eq)]
pub struct WordedBlock {
    pub parsed: StringTableDebugOwnershipParse,
    pub words: usize,
}

// Where the records of a table stand, and how many words there are with theirs.
#[derive(Clone, Copy)]
struct Worded<T> {
    table: T,
    words: usize,
}

#[tactic(auto, unfolding(semcode_decode::specs::Block::string_table))]
fn put_strings(code: &[u8], words: &mut [u64]) -> Result<Worded<Table>, Refusal>
    ensures table { answer_out (λ w. table_is w.table) result ≡ extent (string_table code.now 256 0) }
    ensures adds { Where (λ w. (t : of.Table Span) → string_table code.now 256 0 ≡ ok t
        → Adds (all_words (string_words code.now) (starts_of t)) 0 words.old w.words words.new) result }
    ensures few { Where (λ w. w.words ≤ 65539 * 256) result }
{
    let Some(Field { value: count, next }) = field_at::<u16>(code, 0) else {
        return Err(refuse(30, 0));
    };
    check(count <= MAX_STRINGS_PER_FUNCTION, 31, next)?;
    let put = put_all(&Strings { code }, next, count as usize, words, 0)?;
    Ok(Worded {
        table: Table {
            start: next,
            count: count as usize,
            end: put.next,
        },
        words: put.words,
    })
}

fn put_symbols(
    code: &[u8],
    at: usize,
    words: &mut [u64],
    from: usize,
) -> Result<Worded<Option<Table>>, Refusal>
    requires { from ≤ 2 ^ 40 }
    ensures table { answer_out (λ w. section_is at w.table) result ≡
        tagged (section_at dbg0 (symbol_table code.now 8192) code.now at) }
    ensures adds { Where (λ w. (d : Section Symbol) → section_at dbg0 (symbol_table code.now 8192) code.now at ≡ ok d
        → Adds (all_words (symbol_words code.now) (starts_of d.table)) from words.old w.words words.new) result }
    ensures few { Where (λ w. w.words ≤ from + 65539 * 65535) result }
{
    let section = debug_section(code, at, ANY_SYMBOLS)?;
    let Table { start, count, .. } = table_of(section, at);
    let put = put_all(&Symbols { code }, start, count, words, from)?;
    Ok(Worded {
        table: section,
        words: put.words,
    })
}

// Compiled apart: in one function with it the walk over the strings has too few registers.
#[tactic(auto, unfolding(semcode_decode::specs::Block::section_at, semcode_decode::specs::Block::path_table))]
#[inline(never)]
fn put_paths(
    code: &[u8],
    at: usize,
    header_rev: u16,
    words: &mut [u64],
    from: usize,
) -> Result<Worded<Option<Table>>, Refusal>
    requires { from ≤ 2 ^ 40 }
    ensures table { answer_out (λ w. section_is at w.table) result ≡
        tagged (section_at own0 (path_table header_rev code.now 65535) code.now at) }
    ensures adds { Where (λ w. (d : Section Path) → section_at own0 (path_table header_rev code.now 65535) code.now at ≡ ok d
        → Adds (all_words (path_words header_rev code.now) (starts_of d.table)) from words.old w.words words.new) result }
    ensures few { Where (λ w. w.words ≤ from + 65539 * 65535) result }
{
    if !tag_at(code, at, b"OWN0") {
        return Ok(Worded {
            table: None,
            words: from,
        });
    }
    let count_at = at + 4;
    let Some(Field { value: count, next }) = field_at::<u16>(code, count_at) else {
        return Err(refuse(40, count_at));
    };
    let put = put_all(
        &Paths { code, header_rev },
        next,
        count as usize,
        words,
        from,
    )?;
    Ok(Worded {
        table: Some(Table {
            start: next,
            count: count as usize,
            end: put.next,
        }),
        words: put.words,
    })
}

// The words stand at the front of the lent table, and past them what stood there; a refusal leaves anything, and its offset is a place in the block.
fn put_block(code: &[u8], header_rev: u16, words: &mut [u64]) -> Result<WordedBlock, Refusal>
    ensures { PutsHere header_rev code.now words.old words.new (answer_out worded_is result) }
{
    let strings = put_strings(code, words)?;
    let symbols = put_symbols(code, strings.table.end, words, strings.words)?;
    let symbols_read = table_of(symbols.table, strings.table.end);
    let paths = put_paths(code, symbols_read.end, header_rev, words, symbols.words)?;
    let paths_read = table_of(paths.table, symbols_read.end);
    let signature = signature_section(
        code,
        paths_read.end,
        header_rev,
        paths.table.is_some(),
        MAX_SIGNATURE_PARAMETERS_PER_FUNCTION as usize,
    )?;
    let families_read = table_of(signature, paths_read.end);
    check(paths.words <= words.len(), 61, families_read.end)?;
    Ok(WordedBlock {
        parsed: StringTableDebugOwnershipParse {
            string_count: strings.table.count,
            string_table_end_offset: strings.table.end,
            has_debug_section: symbols.table.is_some(),
            debug_symbol_count: symbols_read.count,
            debug_symbols_start: symbols_read.start,
            has_ownership_section: paths.table.is_some(),
            path_count: paths_read.count,
            has_signature: signature.is_some(),
            parameter_count: families_read.count,
            families_start: families_read.start,
            instr_start_offset: families_read.end,
        },
        words: paths.words,
    })
}

// A block at a base: the words of its strings, symbols and paths go to the front of a lent table.
pub fn read_block_words(
    base_offset: usize,
    code: &[u8],
    header_rev: u16,
    words: &mut [u64],
) -> Result<WordedBlock, Refusal>
    ensures { Puts (λ x. x) base_offset header_rev code.now words.old words.new (answer_out worded_is result) }
{
    match put_block(code, header_rev, words) {
        Ok(worded) => Ok(worded),
        Err(refused) => {
            clear(words);
            Err(based(refused, base_offset))
        }
    }
}
