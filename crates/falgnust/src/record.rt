// The records of a block, each at a place.
ghost use Rattle.std.specs.Prelude.{◌≡◌};
ghost use Rattle.local_format.specs.Maps.{answer_out};
ghost use Rattle.semcode_records.specs.Symbol.{symbol_at};
ghost use Rattle.semcode_records.specs.Path.{head_at};
ghost use Rattle.semcode_records.specs.Component.{component_at};
ghost use Rattle.semcode_records.specs.Maps.{taken_out, symbol_is, head_is, event_is, component_is};
ghost use Rattle.falgnust.specs.BlockMaps.{flat_symbol, flat_event, flat_path, flat_parts, flat_component};

use crate::refusal::{Answer, Refusal};
use local_format::field::Field;
use lock_words::words::Part;
use semcode_records::component::{DecodedAccessPathComponent, read_component};
use semcode_records::path::{DecodedAccessPath, DecodedEvent, read_path};
use semcode_records::symbol::{DecodedDebugSymbol, read_debug_symbol};

// ---- Debug symbols

// Kept (1a): callers in C read a flag and the values beside it.
#[repr(C)]
#[derive(Clone, Copy, Debug, Default, PartialEq, Eq)]
pub struct Symbol {
    pub accepted: bool,
    pub refusal: Refusal,
    pub pc: usize,
    pub line: u32,
    pub col: u16,
    pub next: usize,
}

impl From<Answer<Field<DecodedDebugSymbol>>> for Symbol {
    ghost from_gives = { λ read s. s ≡ flat_symbol (answer_out (taken_out symbol_is) read) };

    fn from(read: Answer<Field<DecodedDebugSymbol>>) -> Symbol {
        match read {
            Ok(
                Field {
                    value: symbol,
                    next,
                },
            ) => Symbol {
                accepted: true,
                pc: symbol.pc,
                line: symbol.line,
                col: symbol.col,
                next,
                ..Symbol::default()
            },
            Err(refused) => Symbol {
                refusal: refused.into(),
                ..Symbol::default()
            },
        }
    }
}

#[unsafe(no_mangle)]
pub extern "C" fn falgnust_read_debug_symbol(code: &[u8], at: usize) -> Symbol
    ensures { result ≡ flat_symbol (symbol_at code.now at) }
{
    read_debug_symbol(code, at).into()
}

// ---- Paths

// 0: a borrow without activation; 1: on frame entry; 2: at a store site; 3: a write without execution; 4: at a store site; 5: at a record
// site. The site is 0 where there is none. C has no enum with a value.
// Kept (1a): callers in C read an event as a number, with its site beside it.
#[repr(C)]
#[derive(Clone, Copy, Debug, Default, PartialEq, Eq)]
pub struct Event {
    pub event: u8,
    pub site: u32,
}

impl From<DecodedEvent> for Event {
    ghost from_gives = { λ event e. e ≡ flat_event (event_is event) };

    fn from(event: DecodedEvent) -> Event {
        let (event, site) = event.numbered();
        Event { event, site }
    }
}

// Kept (1a): callers in C read a flag and the values beside it.
#[repr(C)]
#[derive(Clone, Copy, Debug, Default, PartialEq, Eq)]
pub struct Path {
    pub accepted: bool,
    pub refusal: Refusal,
    pub event: Event,
    pub root_symbol_id: u32,
    pub component_count: u16,
    pub components_start: usize,
    pub next: usize,
}

impl From<Answer<Field<DecodedAccessPath>>> for Path {
    ghost from_gives = { λ read p. p ≡ flat_path (answer_out (taken_out head_is) read) };

    fn from(read: Answer<Field<DecodedAccessPath>>) -> Path {
        match read {
            Ok(Field { value: path, next }) => Path {
                accepted: true,
                event: path.event.into(),
                root_symbol_id: path.root_symbol_id,
                component_count: path.component_count,
                components_start: path.components_start,
                next,
                ..Path::default()
            },
            Err(refused) => Path {
                refusal: refused.into(),
                ..Path::default()
            },
        }
    }
}

#[unsafe(no_mangle)]
pub extern "C" fn falgnust_read_path(code: &[u8], at: usize, header_rev: u16) -> Path
    ensures { result ≡ flat_path (head_at header_rev code.now at) }
{
    read_path(code, at, header_rev).into()
}

// ---- Components

// The kind is the byte of the format; a variant's index is the second number.
// Kept (1a): callers in C read a kind as a number.
// Kept (2d): lock_words' Part has the same three; outside falgnust `repr(C)` stands only on what C lends, as DecodedDebugSymbol, and a Part is answered.
#[repr(C)]
#[derive(Clone, Copy, Debug, Default, PartialEq, Eq)]
pub struct Parts {
    pub kind: u8,
    pub first: u32,
    pub second: u16,
}

impl From<DecodedAccessPathComponent> for Parts {
    ghost from_gives = { λ component p. p ≡ flat_parts (component_is component) };

    fn from(component: DecodedAccessPathComponent) -> Parts {
        let (kind, first, second) = component.parts();
        Parts {
            kind,
            first,
            second,
        }
    }
}

impl From<Part> for Parts {
    ghost from_gives = { λ part p. p ≡ record { kind = part.kind; first = part.first; second = part.second } };

    fn from(part: Part) -> Parts {
        Parts {
            kind: part.kind,
            first: part.first,
            second: part.second,
        }
    }
}

// Kept (1a): callers in C read a flag and the values beside it.
#[repr(C)]
#[derive(Clone, Copy, Debug, Default, PartialEq, Eq)]
pub struct Component {
    pub accepted: bool,
    pub refusal: Refusal,
    pub component: Parts,
    pub next: usize,
}

impl From<Answer<Field<DecodedAccessPathComponent>>> for Component {
    ghost from_gives = { λ read c. c ≡ flat_component (answer_out (taken_out component_is) read) };

    fn from(read: Answer<Field<DecodedAccessPathComponent>>) -> Component {
        match read {
            Ok(
                Field {
                    value: component,
                    next,
                },
            ) => Component {
                accepted: true,
                component: component.into(),
                next,
                ..Component::default()
            },
            Err(refused) => Component {
                refusal: refused.into(),
                ..Component::default()
            },
        }
    }
}

// Kept (1a): C gives the kind as the byte of the format.
#[unsafe(no_mangle)]
pub extern "C" fn falgnust_read_component(
    code: &[u8],
    at: usize,
    header_rev: u16,
    kind: u8,
) -> Component
    ensures { result ≡ flat_component (component_at header_rev kind code.now at) }
{
    read_component(code, at, header_rev, kind).into()
}
