// The records of a block's tables, whose words go to a lent table one after the other.
ghost use Rattle.std.specs.Prelude.{◌≡◌, ℕ, List, ◌+◌, ◌*◌, ◌^◌, ◌≤◌, length};
ghost use Rattle.local_format.specs.Out.{Out, ok};
ghost use Rattle.local_format.specs.Maps.{answer_out};
ghost use Rattle.semcode_records.specs.Maps.{taken_out, symbol_is};
ghost use Rattle.semcode_records.specs.Records.{Taken, Table, records, next_of, ends};
ghost use Rattle.semcode_records.specs.Symbol.{symbol_at};
ghost use Rattle.semcode_records.specs.Path.{path_at};
ghost use Rattle.semcode_decode.specs.Block.{string_record};
ghost use Rattle.semcode_decode.specs.Layout.{starts_of};
ghost use Rattle.semcode_records.proofs.RecordsLaws.{places};
ghost use Rattle.record_words.specs.Words.{all_words};
ghost use Rattle.path_words.specs.Words.{path_words};
ghost use Rattle.path_words.specs.Blocks.{string_words, symbol_words, Fronts, Adds};
ghost use Rattle.path_words.specs.BlockMaps.{next_is, Where};

use crate::{Put, put_path};
use local_format::field::{Field, LittleEndian};
use local_format::refusal::Refusal;
use semcode_decode::string::{Place, read_string};
use semcode_records::path::read_path;
use semcode_records::symbol::{DecodedDebugSymbol, read_debug_symbol};

// The records of a table.
pub(crate) trait Records {
    // Where the record at a place ends, and its words.
    ghost read: { Self → ℕ → Out (Taken (Unit {0})) };

    ghost words_of: { Self → ℕ → List ℕ };

    // The words of the record at a place go to the front of a table, where they fit.
    fn put(&self, at: usize, words: &mut [u64]) -> Result<Put, Refusal>
        ensures next { answer_out next_is result ≡ next_of (read self.now at) }
        ensures puts { Where (λ p. Fronts (words_of self.now at) words.old words.new p.words) result };
}

// So many records from a place on, behind words that were put before: how many words there are then, and the place after the records.
pub(crate) fn put_all<R: Records>(
    kind: &R,
    at: usize,
    count: usize,
    words: &mut [u64],
    from: usize,
) -> Result<Put, Refusal>
    requires { (count ≤ 65535) × (from ≤ 2 ^ 48) }
    ensures next { answer_out next_is result ≡ ends (records (R.read kind.now) count at) }
    ensures adds { Where (λ p. (t : Table (Unit {0})) → records (R.read kind.now) count at ≡ ok t
        → Adds (all_words (R.words_of kind.now) (starts_of t)) from words.old p.words words.new) result }
    ensures few { Where (λ p. p.words ≤ from + 65539 * count) result }
{
    let mut to = from;
    let mut cursor = at;
    for _ in 0..count {
        let front = to.min(words.len());
        let put = kind.put(cursor, &mut words[front..])?;
        to += put.words;
        cursor = put.next;
    }
    Ok(Put {
        words: to,
        next: cursor,
    })
}

#[derive(Clone, Copy)]
pub(crate) struct Strings<'a> {
    pub code: &'a [u8],
}

impl<'a> Records for Strings<'a> {
    ghost read = { λ r. places (string_record r.code.now) };

    ghost words_of = { λ r. string_words r.code.now };

    fn put(&self, at: usize, words: &mut [u64]) -> Result<Put, Refusal> {
        let Place { start, len, next } = read_string(self.code, at)?;
        if 2 <= words.len() {
            words[0] = start as u64;
            words[1] = len as u64;
        }
        Ok(Put { words: 2, next })
    }
}

// By one test where it is whole, as each of a section that was read is.
fn whole_symbol(code: &[u8], at: usize) -> Result<Field<DecodedDebugSymbol>, Refusal>
    ensures { answer_out (taken_out symbol_is) result ≡ symbol_at code.now at }
{
    if code.len().saturating_sub(9) <= at {
        return read_debug_symbol(code, at);
    }
    Ok(Field {
        value: DecodedDebugSymbol {
            pc: u32::le_at(code, at) as usize,
            line: u32::le_at(code, at + 4),
            col: u16::le_at(code, at + 8),
        },
        next: at + 10,
    })
}

#[derive(Clone, Copy)]
pub(crate) struct Symbols<'a> {
    pub code: &'a [u8],
}

impl<'a> Records for Symbols<'a> {
    ghost read = { λ r. places (symbol_at r.code.now) };

    ghost words_of = { λ r. symbol_words r.code.now };

    fn put(&self, at: usize, words: &mut [u64]) -> Result<Put, Refusal> {
        let Field {
            value: DecodedDebugSymbol { pc, line, col },
            next,
        } = whole_symbol(self.code, at)?;
        if 3 <= words.len() {
            words[0] = pc as u64;
            words[1] = line as u64;
            words[2] = col as u64;
        }
        Ok(Put { words: 3, next })
    }
}

#[derive(Clone, Copy)]
pub(crate) struct Paths<'a> {
    pub code: &'a [u8],
    pub header_rev: u16,
}

impl<'a> Records for Paths<'a> {
    ghost read = { λ r. places (path_at r.header_rev r.code.now) };

    ghost words_of = { λ r. path_words r.header_rev r.code.now };

    fn put(&self, at: usize, words: &mut [u64]) -> Result<Put, Refusal> {
        if let Some(put) = put_path(self.code, at, self.header_rev, words) {
            return Ok(put);
        }
        let Field { value: path, next } = read_path(self.code, at, self.header_rev)?;
        Ok(Put {
            words: 4 + path.component_count as usize,
            next,
        })
    }
}
