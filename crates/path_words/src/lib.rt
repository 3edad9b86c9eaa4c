// The fields of paths and of their components as words of a lent table, for whoever copies all paths of a block that was decoded.
#![tactic(auto)]

pub mod block;
mod records;

ghost use Rattle.std.specs.Prelude.{◌≡◌, ℕ, Some, None, cond, ◌+◌, ◌-◌, ◌*◌, ◌/◌, ◌%◌, ◌^◌, ◌≤◌, length};
ghost use Rattle.local_format.specs.Out.{ok};
ghost use Rattle.lent_table.specs.Lent.{laid};
ghost use Rattle.semcode_records.specs.Component.{component_at};
ghost use Rattle.semcode_records.specs.Maps.{component_is};
ghost use Rattle.semcode_records.specs.Path.{path_at};
ghost use Rattle.semcode_records.specs.Records.{next_of, records, ends};
ghost use Rattle.path_words.specs.Words.{component_word, step_of, component_words, path_words, fitting, Fits};
ghost use Rattle.path_words.specs.Front.{found, site_of, opening_words};
ghost use Rattle.path_words.specs.Maps.{step_is, opening_is, words_in};

use lent_table::clear_from;
use local_format::field::{Field, LittleEndian};
use semcode_records::component::{
    DecodedAccessPathComponent, component_size, component_sizes, read_component,
};
use semcode_records::path::{
    SEMCODE_OWNERSHIP_ANCHOR_MIN_REVISION, event_kind, read_path, site_size,
};

// ---- A component

// Kept (4d): a `From` for a struct of one word here would be opened at its one use; lock_words has a function of its own, with another promise.
fn component_word(component: DecodedAccessPathComponent) -> u64
    ensures { result ≡ component_word (component_is component) }
{
    let (kind, first, second) = component.parts();
    (kind as u64) + 4 * (first as u64) + 17179869184 * (second as u64)
}

// The bits of the numbers of a component of so many bytes, above those of its kind.
const NUMBERS: [u64; 8] = [
    0,
    0,
    0xff,
    0xffff,
    0xff_ffff,
    0xffff_ffff,
    0xff_ffff_ffff,
    0xffff_ffff_ffff,
];

// The word of a component of so many bytes, whose kind this is and which begin these 8.
// Kept (1d): the kind's byte is the lowest bits of the word, so an enum of it would be made and turned back.
fn sized_word(component_kind: u8, bytes: u64, size: usize) -> u64
    requires { (1 ≤ size) × (size ≤ 7) }
    ensures { result ≡ component_kind + 4 * (bytes / 256 % 2 ^ (8 * (size - 1))) }
{
    component_kind as u64 + 4 * (bytes / 256 & NUMBERS[size])
}

// How the components of a path are read.
// Kept (1d): the openings give a byte, and `read_component` and `component_sizes` take one: an enum would be made and turned back at each component.
#[derive(Clone, Copy)]
struct Steps<'a> {
    code: &'a [u8],
    header_rev: u16,
    kind: u8,
}

impl<'a> Steps<'a> {
    // A component's word and the place after it, where it is there.
    fn slow_step(&self, at: usize) -> Option<Field<u64>>
        ensures { step_is result ≡ step_of (component_at self.now.header_rev self.now.kind self.now.code.now at) }
    {
        let read = read_component(self.code, at, self.header_rev, self.kind).ok()?;
        Some(Field {
            value: component_word(read.value),
            next: read.next,
        })
    }

    // With no branch for the component's kind, where 8 bytes are there.
    #[inline(always)]
    fn step(&self, at: usize) -> Option<Field<u64>>
        ensures { step_is result ≡ step_of (component_at self.now.header_rev self.now.kind self.now.code.now at) }
    {
        let code = self.code;
        if code.len().saturating_sub(7) <= at {
            return self.slow_step(at);
        }
        let component_kind = code[at];
        let size = component_size(component_sizes(self.header_rev, self.kind), component_kind);
        if size == 0 {
            return self.slow_step(at);
        }
        Some(Field {
            value: sized_word(component_kind, u64::le_at(code, at), size),
            next: at + size,
        })
    }

    // Components from a place on, as many as there are words: the place after them; none where not all are there.
    #[inline(always)]
    fn put(&self, at: usize, words: &mut [u64]) -> Option<usize>
        ensures all { result ≡
            found (ends (records (component_at self.now.header_rev self.now.kind self.now.code.now) (length words.old) at)) }
        ensures puts { (next : ℕ) → result ≡ Some next → words.new ≡
            component_words (component_at self.now.header_rev self.now.kind self.now.code.now) (length words.old) at }
    {
        let mut cursor = at;
        for word in words {
            let Field { value, next } = self.step(cursor)?;
            *word = value;
            cursor = next;
        }
        Some(cursor)
    }
}

// ---- A path

// What stands in front of a path's components, the event as its number and site.
// Kept (1a): the kind is the path's byte, and the event's number a word of the table that C lends.
#[derive(Clone, Copy)]
struct Opening {
    kind: u8,
    event: u8,
    site: u32,
    root: u32,
    count: u16,
    start: usize,
}

// None where the path is refused.
// Kept (2d): `semcode_records::path::read_front` reads the front alone, this asks the whole path by `read_path`: the answers are alike, no step is.
fn slow_opening(code: &[u8], at: usize, header_rev: u16) -> Option<Opening>
    ensures words { path_words header_rev code.now at ≡ opening_words (λ kind. component_at header_rev kind code.now) (opening_is result) }
    ensures ends { (o : Opening) → result ≡ Some o
        → next_of (path_at header_rev code.now at) ≡ ends (records (component_at header_rev o.kind code.now) o.count o.start) }
{
    let path = read_path(code, at, header_rev).ok()?.value;
    let event = path.event;
    let (number, site) = event.numbered();
    Some(Opening {
        kind: event_kind(event),
        event: number,
        site,
        root: path.root_symbol_id,
        count: path.component_count,
        start: path.components_start,
    })
}

fn site_of(size: usize, anchor: u32) -> u32
    ensures { result ≡ site_of size anchor }
{
    if size == 0 { 0 } else { anchor }
}

// With no branch for the event, where modes stand and the longest would be there whole.
#[inline(always)]
fn read_opening(code: &[u8], at: usize, header_rev: u16) -> Option<Opening>
    ensures words { path_words header_rev code.now at ≡ opening_words (λ kind. component_at header_rev kind code.now) (opening_is result) }
    ensures ends { (o : Opening) → result ≡ Some o
        → next_of (path_at header_rev code.now at) ≡ ends (records (component_at header_rev o.kind code.now) o.count o.start) }
{
    if header_rev < SEMCODE_OWNERSHIP_ANCHOR_MIN_REVISION || code.len().saturating_sub(11) <= at {
        return slow_opening(code, at, header_rev);
    }
    let kind = code[at];
    let mode = code[at + 1];
    if 1 < kind || 1 < mode {
        return slow_opening(code, at, header_rev);
    }
    let size = site_size(kind, mode);
    Some(Opening {
        kind,
        event: 1 + mode + 3 * kind,
        site: site_of(size, u32::le_at(code, at + 2)),
        root: u32::le_at(code, at + 2 + size),
        count: u16::le_at(code, at + 6 + size),
        start: at + 8 + size,
    })
}

// How many words a record has, and the place after it.
#[derive(Clone, Copy, Debug, PartialEq, Eq)]
pub(crate) struct Put {
    pub words: usize,
    pub next: usize,
}

// The path at a place, to the first words; none where it is refused or does not fit. Compiled apart, it hands its answer over in memory.
#[inline(always)]
pub(crate) fn put_path(code: &[u8], at: usize, header_rev: u16, words: &mut [u64]) -> Option<Put>
    ensures many { words_in result ≡ cond (fitting (length (path_words header_rev code.now at)) (length words.old))
        (Some (length (path_words header_rev code.now at))) None }
    ensures next { (p : Put) → result ≡ Some p → next_of (path_at header_rev code.now at) ≡ ok p.next }
    ensures puts { (p : Put) → result ≡ Some p → words.new ≡ laid (path_words header_rev code.now at) words.old }
    ensures few { (p : Put) → result ≡ Some p → p.words ≤ 65539 }
{
    let opening = read_opening(code, at, header_rev)?;
    let size = 4 + opening.count as usize;
    if words.len() < size {
        return None;
    }
    // Kept (4b): `copy_from_slice` of the four takes 13 instructions more a path, which put them by and ask whether they lie apart from the words.
    words[0] = opening.event as u64;
    words[1] = opening.site as u64;
    words[2] = opening.root as u64;
    words[3] = opening.count as u64;
    let steps = Steps {
        code,
        header_rev,
        kind: opening.kind,
    };
    let next = steps.put(opening.start, &mut words[4..size])?;
    Some(Put { words: size, next })
}

// The paths that start at these places, as many as are there and fit, from the first on: how many. A path takes 4 words, event, site, root and
// how many components, and a word for each component.
// Kept (6a): C lends one table for all paths.
pub fn read_paths(code: &[u8], header_rev: u16, starts: &[u64], words: &mut [u64]) -> usize
    ensures { Fits (path_words header_rev code.now) starts.now words.old words.new result }
{
    let mut to: usize = 0;
    for (i, start) in starts.iter().enumerate() {
        let Some(Put { words: size, .. }) = put_path(
            code,
            *start as usize,
            header_rev,
            &mut words[to..],
        ) else {
            clear_from(words, to);
            return i;
        };
        to += size;
    }
    clear_from(words, to);
    starts.len()
}
