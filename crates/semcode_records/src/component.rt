// One component of a path.
ghost use Rattle.std.specs.Prelude.{◌≡◌, ◌<◌};
ghost use Rattle.local_format.specs.Maps.{answer_out};
ghost use Rattle.semcode_records.specs.Maps.{taken_out, component_is};
ghost use Rattle.semcode_records.specs.Records.{records, ends};
ghost use Rattle.semcode_records.specs.Component.{tuple_index_at, field_symbol_at, variant_at, sequence_index_at, component_of, component_at};
ghost use Rattle.semcode_records.specs.Sizes.{sizes, size_in};
ghost use Rattle.semcode_records.specs.Numbers.{parts};

use local_format::field::{Field, field_at};
use local_format::refusal::{Refusal, check, refuse};

pub const OWNERSHIP_EVENT_KIND_BORROW: u8 = 0;

pub const OWNERSHIP_EVENT_KIND_WRITE: u8 = 1;

pub const OWNERSHIP_PATH_COMPONENT_TUPLE_INDEX: u8 = 0;

pub const OWNERSHIP_PATH_COMPONENT_FIELD_SYMBOL: u8 = 1;

pub const OWNERSHIP_PATH_COMPONENT_ADT_PAYLOAD: u8 = 2;

pub const OWNERSHIP_PATH_COMPONENT_SEQUENCE_INDEX: u8 = 3;

pub const SEMCODE_SEQUENCE_OWNERSHIP_MIN_REVISION: u16 = 22;

pub const SEMCODE_ADT_BORROW_OWNERSHIP_MIN_REVISION: u16 = 22;

#[derive(Clone, Copy, Debug, PartialEq, Eq)]
pub enum DecodedAccessPathComponent {
    TupleIndex(u16),
    FieldSymbol(u32),
    AdtPayload { variant: u32, index: u16 },
    SequenceIndexStatic(u32),
}

impl DecodedAccessPathComponent {
    // Its kind's byte, and its one or two numbers.
    pub fn parts(self) -> (u8, u32, u16)
        ensures kind { result.0 ≡ (parts (component_is self)).kind }
        ensures first { result.1 ≡ (parts (component_is self)).first }
        ensures second { result.2 ≡ (parts (component_is self)).second }
    {
        match self {
            DecodedAccessPathComponent::TupleIndex(index) => (0, index as u32, 0),
            DecodedAccessPathComponent::FieldSymbol(symbol) => (1, symbol, 0),
            DecodedAccessPathComponent::AdtPayload { variant, index } => (2, variant, index),
            DecodedAccessPathComponent::SequenceIndexStatic(index) => (3, index, 0),
        }
    }
}

// Kept (2d): each has a width, a refusal and a variant of its own: `index_at::<u16>(bytes, at, 51, TupleIndex)` hands on all of its body but one `let`.
#[tactic(auto, unfolding(crate::specs::Component::tuple_index_at))]
fn read_tuple_index(bytes: &[u8], at: usize) -> Result<Field<DecodedAccessPathComponent>, Refusal>
    ensures { answer_out (taken_out component_is) result ≡ tuple_index_at bytes.now at }
{
    let Some(Field { value: index, next }) = field_at::<u16>(bytes, at) else {
        return Err(refuse(51, at));
    };
    Ok(Field {
        value: DecodedAccessPathComponent::TupleIndex(index),
        next,
    })
}

#[tactic(auto, unfolding(crate::specs::Component::field_symbol_at))]
fn read_field_symbol(bytes: &[u8], at: usize) -> Result<Field<DecodedAccessPathComponent>, Refusal>
    ensures { answer_out (taken_out component_is) result ≡ field_symbol_at bytes.now at }
{
    let Some(
        Field {
            value: symbol,
            next,
        },
    ) = field_at::<u32>(bytes, at)
    else {
        return Err(refuse(52, at));
    };
    Ok(Field {
        value: DecodedAccessPathComponent::FieldSymbol(symbol),
        next,
    })
}

// Kept (1a): `kind` is the byte of the path's event, which may be of no known kind: a type of the two known ones would ask more of callers.
#[tactic(auto, unfolding(crate::specs::Component::variant_at))]
fn read_adt_payload(
    bytes: &[u8],
    at: usize,
    header_rev: u16,
    kind: u8,
) -> Result<Field<DecodedAccessPathComponent>, Refusal>
    ensures { answer_out (taken_out component_is) result ≡ variant_at header_rev kind bytes.now at }
{
    check(kind != OWNERSHIP_EVENT_KIND_WRITE, 53, at)?;
    check(
        SEMCODE_ADT_BORROW_OWNERSHIP_MIN_REVISION <= header_rev,
        54,
        at,
    )?;
    let Some(
        Field {
            value: variant,
            next: index_at,
        },
    ) = field_at::<u32>(bytes, at)
    else {
        return Err(refuse(55, at));
    };
    let Some(Field { value: index, next }) = field_at::<u16>(bytes, index_at) else {
        return Err(refuse(56, index_at));
    };
    Ok(Field {
        value: DecodedAccessPathComponent::AdtPayload { variant, index },
        next,
    })
}

#[tactic(auto, unfolding(crate::specs::Component::sequence_index_at))]
fn read_sequence_index(
    bytes: &[u8],
    at: usize,
    header_rev: u16,
) -> Result<Field<DecodedAccessPathComponent>, Refusal>
    ensures { answer_out (taken_out component_is) result ≡ sequence_index_at header_rev bytes.now at }
{
    check(
        SEMCODE_SEQUENCE_OWNERSHIP_MIN_REVISION <= header_rev,
        57,
        at,
    )?;
    let Some(Field { value: index, next }) = field_at::<u32>(bytes, at) else {
        return Err(refuse(58, at));
    };
    Ok(Field {
        value: DecodedAccessPathComponent::SequenceIndexStatic(index),
        next,
    })
}

// What follows the component kind.
// Kept (1a, 7d): the byte may be of no known kind, which is refused here; a `match` from a byte to its reader is today's form.
#[tactic(auto, unfolding(crate::specs::Component::component_of))]
fn after_component_kind(
    component_kind: u8,
    bytes: &[u8],
    at: usize,
    header_rev: u16,
    kind: u8,
) -> Result<Field<DecodedAccessPathComponent>, Refusal>
    ensures { answer_out (taken_out component_is) result ≡ component_of component_kind header_rev kind bytes.now at }
{
    match component_kind {
        OWNERSHIP_PATH_COMPONENT_TUPLE_INDEX => read_tuple_index(bytes, at),
        OWNERSHIP_PATH_COMPONENT_FIELD_SYMBOL => read_field_symbol(bytes, at),
        OWNERSHIP_PATH_COMPONENT_ADT_PAYLOAD => read_adt_payload(bytes, at, header_rev, kind),
        OWNERSHIP_PATH_COMPONENT_SEQUENCE_INDEX => read_sequence_index(bytes, at, header_rev),
        _ => Err(refuse(59, at)),
    }
}

// A component of a path with this event kind.
#[tactic(auto, unfolding(crate::specs::Component::component_at))]
pub fn read_component(
    bytes: &[u8],
    at: usize,
    header_rev: u16,
    kind: u8,
) -> Result<Field<DecodedAccessPathComponent>, Refusal>
    ensures { answer_out (taken_out component_is) result ≡ component_at header_rev kind bytes.now at }
{
    let Some(
        Field {
            value: component_kind,
            next,
        },
    ) = field_at::<u8>(bytes, at)
    else {
        return Err(refuse(50, at));
    };
    after_component_kind(component_kind, bytes, next, header_rev, kind)
}

// The place after so many components, by reading each.
// Kept (2d): this keeps the place alone; the walks of path_words and locks put words, so one for all would take a closure that here does nothing.
pub fn skip_components(
    bytes: &[u8],
    at: usize,
    component_count: u16,
    header_rev: u16,
    kind: u8,
) -> Result<usize, Refusal>
    ensures { answer_out (λ end. end) result ≡
        ends (records (component_at header_rev kind bytes.now) component_count at) }
{
    let mut cursor = at;
    for _ in 0..component_count {
        cursor = read_component(bytes, cursor, header_rev, kind)?.next;
    }
    Ok(cursor)
}

// ---- Components passed by their sizes

// The bytes of a component of each kind that a path with this event kind can have, 8 bits for a kind; 0 where it can't.
// Kept (1d): a table of four `Option<u8>` needs a branch for a kind that can't stand and one for none; 0 among the sizes needs one test.
#[tactic(auto, unfolding(crate::specs::Sizes::sizes))]
pub fn component_sizes(header_rev: u16, kind: u8) -> u64
    ensures { result ≡ sizes header_rev kind }
{
    if header_rev < SEMCODE_ADT_BORROW_OWNERSHIP_MIN_REVISION {
        return 0x0503;
    }
    if kind != OWNERSHIP_EVENT_KIND_WRITE {
        return 0x05070503;
    }
    0x05000503
}

// Kept (1d): 0 is the table's own mark, and each caller tests it once: an Option would be made by a test here, and taken apart by one at each call.
#[tactic(auto, unfolding(crate::specs::Sizes::size_in))]
pub fn component_size(table: u64, component_kind: u8) -> usize
    ensures { (result ≡ size_in table component_kind) × (result < 256) }
{
    if OWNERSHIP_PATH_COMPONENT_SEQUENCE_INDEX < component_kind {
        return 0;
    }
    ((table >> (8 * component_kind)) % 256) as usize
}

// The components that are left, and where they start.
// Kept (1d): both count also where none is left: `Passed { left: 0, next }` is the end of all, and no mark of nothing.
#[derive(Clone, Copy, Debug, PartialEq, Eq)]
pub struct Passed {
    pub left: u16,
    pub next: usize,
}

// Passes components while one of any kind would be there whole. A size is looked up for the first and where the kind changes, with no branch for each
// kind; where it does not, the next component is not waited for.
pub fn pass_components(
    bytes: &[u8],
    at: usize,
    component_count: u16,
    header_rev: u16,
    kind: u8,
) -> Passed
    ensures { ends (records (component_at header_rev kind bytes.now) component_count at)
        ≡ ends (records (component_at header_rev kind bytes.now) result.left result.next) }
{
    let mut cursor = at;
    if bytes.len() < 7 {
        return Passed {
            left: component_count,
            next: cursor,
        };
    }
    let last = bytes.len() - 7;
    if last < cursor {
        return Passed {
            left: component_count,
            next: cursor,
        };
    }
    let table = component_sizes(header_rev, kind);
    let mut known = bytes[cursor];
    let mut size = component_size(table, known);
    if size == 0 {
        return Passed {
            left: component_count,
            next: cursor,
        };
    }
    for passed in 0..component_count {
        let left = component_count - passed;
        if last < cursor {
            return Passed { left, next: cursor };
        }
        let component_kind = bytes[cursor];
        if component_kind != known {
            known = component_kind;
            size = component_size(table, known);
            if size == 0 {
                return Passed { left, next: cursor };
            }
        }
        cursor += size;
    }
    Passed {
        left: 0,
        next: cursor,
    }
}

// The place after so many components: most are passed by their sizes. It is compiled apart from `read_path`, beside which the loop has too few registers.
#[inline(never)]
pub fn components_end(
    bytes: &[u8],
    at: usize,
    component_count: u16,
    header_rev: u16,
    kind: u8,
) -> Result<usize, Refusal>
    ensures { answer_out (λ end. end) result ≡
        ends (records (component_at header_rev kind bytes.now) component_count at) }
{
    let passed = pass_components(bytes, at, component_count, header_rev, kind);
    skip_components(bytes, passed.next, passed.left, header_rev, kind)
}
