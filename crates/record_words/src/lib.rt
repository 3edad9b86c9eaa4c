// The fields of records as words of a lent table, for whoever copies all records of what was decoded. Each record is read at its start, and
// nothing is checked but that it is there.
#![tactic(auto)]

ghost use Rattle.std.specs.Prelude.{◌≡◌, ℕ, Bool, true, List, cond, ◌+◌, ◌-◌, ◌*◌, ◌≤◌, ◌<◌, length};
ghost use Rattle.record_words.specs.Words.{
  fields,
  after_text,
  text_whole,
  text_words,
  witness_whole,
  witness_words,
  span_words,
  Fills,
  Runs,
};
ghost use Rattle.record_words.specs.Sizes.{text_size, witness_words_size};
ghost use Rattle.evr0_section.specs.Head.{span_width, witness_size};

use evr0_fields::schema::witness_size;
use lent_table::{clear, clear_from};
use local_format::field::LittleEndian;

// The records of a table.
trait Record {
    // Whether the record at a place is whole, its words, and how many they are.
    ghost is_whole: { Self → List ℕ → ℕ → Bool };

    ghost words_of: { Self → List ℕ → ℕ → List ℕ };

    ghost size: { Self → ℕ };

    fn count(&self) -> usize
        ensures { result ≡ size self.now };

    // Puts the words of the record at `at`, where it is whole, into a place of their size.
    fn put(&self, bytes: &[u8], at: usize, words: &mut [u64]) -> bool
        requires { length words.old ≡ size self.now }
        ensures whole { result ≡ is_whole self.now bytes.now at }
        ensures puts { result ≡ true → words.new ≡ words_of self.now bytes.now at };

    ghost sized: { (r : Self) (s : List ℕ) (at : ℕ) → length (words_of r s at) ≡ size r };
}

// The records that start at these places.
// Kept (6d): by `words.chunks_exact_mut(size)` what was put into one chunk is still to be said of the whole table, where the invariant says it of `to`.
fn read_all<R: Record>(kind: &R, bytes: &[u8], starts: &[u64], words: &mut [u64]) -> bool
    ensures { Fills (R.is_whole kind.now bytes.now) (R.words_of kind.now bytes.now) starts.now
        words.old words.new result }
{
    let size = kind.count();
    let mut to: usize = 0;
    for start in starts {
        if words.len() - to < size {
            clear(words);
            return false;
        }
        if !kind.put(bytes, *start as usize, &mut words[to..to + size]) {
            clear(words);
            return false;
        }
        to += size;
    }
    clear_from(words, to);
    true
}

// Fields of 4 bytes, as many as there are words.
fn put_fields(bytes: &[u8], at: usize, words: &mut [u64])
    requires { 4 * length words.old ≤ length bytes.now - at }
    ensures { words.new ≡ fields (length words.old) bytes.now at }
{
    for (i, word) in words.iter_mut().enumerate() {
        *word = u32::le_at(bytes, at + 4 * i) as u64;
    }
}

// ---- Records with a text

// Records of so many fields, a text, and so many fields. The numbers are const parameters, by which the fields are read without a loop: a proof
// takes 31 instructions, and 121 where they are fields of the struct.
#[derive(Clone, Copy)]
struct Texts<const FRONT: usize, const BACK: usize> {
    ghost few: { (FRONT ≤ 8) × (BACK ≤ 8) },
}

impl<const FRONT: usize, const BACK: usize> Texts<FRONT, BACK> {
    // The place after the text of the record at `at`, where it is whole.
    fn after_text(&self, bytes: &[u8], at: usize) -> Option<usize>
        ensures { result ≡ cond (text_whole FRONT BACK bytes.now at)
            (Some (after_text FRONT bytes.now at)) None }
    {
        let head = 4 * FRONT + 2;
        if bytes.len() < head {
            return None;
        }
        if bytes.len() - head < at {
            return None;
        }
        let rest = at + head + (u16::le_at(bytes, at + 4 * FRONT) as usize);
        if bytes.len() < rest + 4 * BACK {
            return None;
        }
        Some(rest)
    }
}

impl<const FRONT: usize, const BACK: usize> Record for Texts<FRONT, BACK> {
    ghost is_whole = { λ r s. text_whole FRONT BACK s };

    ghost words_of = { λ r s. text_words FRONT BACK s };

    ghost size = { λ r. FRONT + 2 + BACK };

    fn count(&self) -> usize {
        FRONT + 2 + BACK
    }

    fn put(&self, bytes: &[u8], at: usize, words: &mut [u64]) -> bool {
        let Some(rest) = self.after_text(bytes, at) else {
            return false;
        };
        let text = at + 4 * FRONT + 2;
        put_fields(bytes, at, &mut words[..FRONT]);
        words[FRONT] = text as u64;
        words[FRONT + 1] = (rest - text) as u64;
        put_fields(bytes, rest, &mut words[FRONT + 2..]);
        true
    }

    ghost sized = { λ r s at. text_size FRONT BACK s at };
}

// Propositions: the place and the length of the kind, owner, scope, type.
// Kept (1a, 2a): C has a function for each of the three, an instance of `read_all`, with a flag: no refusal has a number for words that do not fit.
pub fn read_propositions(payload: &[u8], starts: &[u64], words: &mut [u64]) -> bool
    ensures { Fills (text_whole 0 3 payload.now) (text_words 0 3 payload.now) starts.now
        words.old words.new result }
{
    read_all(&Texts::<0, 3> {}, payload, starts, words)
}

// Proofs: number, proposition, the place and the length of the rule's name, authority, first witness, witnesses, first parent, parents,
// operation.
// Kept (1a): the flag of C's function, as for read_propositions.
pub fn read_proofs(payload: &[u8], starts: &[u64], words: &mut [u64]) -> bool
    ensures { Fills (text_whole 2 6 payload.now) (text_words 2 6 payload.now) starts.now
        words.old words.new result }
{
    read_all(&Texts::<2, 6> {}, payload, starts, words)
}

// Texts of a section and strings of a block: the place and the length of each.
// Kept (1a): the flag of C's function, as for read_propositions.
pub fn read_strings(bytes: &[u8], starts: &[u64], words: &mut [u64]) -> bool
    ensures { Fills (text_whole 0 0 bytes.now) (text_words 0 0 bytes.now) starts.now
        words.old words.new result }
{
    read_all(&Texts::<0, 0> {}, bytes, starts, words)
}

// ---- Witnesses and parents

// The start and the end of a span.
// Kept (1a): a payload's schema may be any number, and all but 2 have the narrow span.
// Kept (7d): an `if` on the schema picks the width; a closure for the width would be chosen by the same `if`.
#[tactic(auto, using(evr0_section::proofs::Schemas::wide, evr0_section::proofs::Schemas::narrow))]
fn put_span(bytes: &[u8], at: usize, schema: u16, words: &mut [u64])
    requires { (at + 2 * span_width schema ≤ length bytes.now) × (length words.old ≡ 2) }
    ensures { words.new ≡ span_words (span_width schema) bytes.now at }
{
    if schema == 2 {
        words[0] = u64::le_at(bytes, at);
        words[1] = u64::le_at(bytes, at + 8);
    } else {
        put_fields(bytes, at, words);
    }
}

// Witnesses of a payload of this schema.
#[derive(Clone, Copy)]
struct Witnesses {
    schema: u16,
}

impl Record for Witnesses {
    ghost is_whole = { λ r s. witness_whole (span_width r.schema) s };

    ghost words_of = { λ r s. witness_words (span_width r.schema) s };

    ghost size = { λ r. 7 };

    fn count(&self) -> usize {
        7
    }

    fn put(&self, bytes: &[u8], at: usize, words: &mut [u64]) -> bool {
        let size = witness_size(self.schema);
        if bytes.len().saturating_sub(at) < size {
            return false;
        }
        put_fields(bytes, at, &mut words[..3]);
        words[3] = (at + 12) as u64;
        put_span(bytes, at + 44, self.schema, &mut words[4..6]);
        words[6] = (at + (size - 32)) as u64; // the second digest
        true
    }

    ghost sized = { λ r s at. witness_words_size (span_width r.schema) s at };
}

// Witnesses: number, proposition, polarity, the place of the first digest, start, end, the place of the second digest.
// Kept (1a, 6a): the flag of C's function, as for read_propositions; C lends the table of words.
pub fn read_witnesses(payload: &[u8], schema: u16, starts: &[u64], words: &mut [u64]) -> bool
    ensures { Fills (witness_whole (span_width schema) payload.now) (witness_words (span_width schema) payload.now)
        starts.now words.old words.new result }
{
    read_all(&Witnesses { schema }, payload, starts, words)
}

// Parent cells: the fields of 4 bytes from `at` on, as many as there are words.
// Kept (1a): the flag of C's function, as for read_propositions.
pub fn read_parents(payload: &[u8], at: usize, words: &mut [u64]) -> bool
    ensures { Runs payload.now at words.old words.new result }
{
    if payload.len().saturating_sub(at) / 4 < words.len() {
        clear(words);
        return false;
    }
    put_fields(payload, at, words);
    true
}
