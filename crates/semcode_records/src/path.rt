// One path of an ownership section.
ghost use Rattle.std.specs.Prelude.{◌≡◌, ◌+◌, ◌≤◌, ℕ};
ghost use Rattle.local_format.specs.Out.{ok};
ghost use Rattle.local_format.specs.Maps.{answer_out};
ghost use Rattle.semcode_records.specs.Maps.{taken_out, activation_is, execution_is, event_is, kinded_is, front_is, head_is};
ghost use Rattle.semcode_records.specs.Records.{next_of};
ghost use Rattle.semcode_records.specs.Sizes.{site_size};
ghost use Rattle.semcode_records.specs.Numbers.{numbered};
ghost use Rattle.semcode_records.specs.Path.{kind_of_event, activation_at, execution_at, event_of, front_at, path_at, head_at};

use crate::component::{
    OWNERSHIP_EVENT_KIND_BORROW, OWNERSHIP_EVENT_KIND_WRITE, components_end, pass_components,
};
use local_format::field::{Field, LittleEndian, field_at};
use local_format::refusal::{Refusal, check, refuse};

pub const SEMCODE_OWNERSHIP_ANCHOR_MIN_REVISION: u16 = 21;

pub const ACTIVATION_MODE_FRAME_ENTRY: u8 = 0;

pub const ACTIVATION_MODE_STORE_VAR_SITE: u8 = 1;

pub const WRITE_EXECUTION_MODE_STORE_VAR_SITE: u8 = 0;

pub const WRITE_EXECUTION_MODE_MAKE_RECORD_SITE: u8 = 1;

#[derive(Clone, Copy, Debug, PartialEq, Eq)]
pub enum DecodedBorrowActivation {
    None,
    FrameEntry,
    StoreVarSite(u32),
}

#[derive(Clone, Copy, Debug, PartialEq, Eq)]
pub enum DecodedWriteExecution {
    None,
    StoreVarSite(u32),
    MakeRecordSite(u32),
}

#[derive(Clone, Copy, Debug, PartialEq, Eq)]
pub enum DecodedEvent {
    Borrow(DecodedBorrowActivation),
    Write(DecodedWriteExecution),
}

impl DecodedEvent {
    // Its number, as C and its tables of words have it, and its site: 0 where there is none.
    pub fn numbered(self) -> (u8, u32)
        ensures event { result.0 ≡ (numbered (event_is self)).event }
        ensures site { result.1 ≡ (numbered (event_is self)).site }
    {
        match self {
            DecodedEvent::Borrow(DecodedBorrowActivation::None) => (0, 0),
            DecodedEvent::Borrow(DecodedBorrowActivation::FrameEntry) => (1, 0),
            DecodedEvent::Borrow(DecodedBorrowActivation::StoreVarSite(site)) => (2, site),
            DecodedEvent::Write(DecodedWriteExecution::None) => (3, 0),
            DecodedEvent::Write(DecodedWriteExecution::StoreVarSite(site)) => (4, site),
            DecodedEvent::Write(DecodedWriteExecution::MakeRecordSite(site)) => (5, site),
        }
    }
}

#[derive(Clone, Copy, Debug, PartialEq, Eq)]
pub struct DecodedAccessPath {
    pub event: DecodedEvent,
    pub root_symbol_id: u32,
    pub component_count: u16,
    pub components_start: usize,
}

// ---- The event

// Kept (2d): a borrow on frame entry has no anchor and a write always has one; the rest that is alike is two `let`s with numbers of their own.
#[tactic(auto, unfolding(crate::specs::Path::activation_at))]
fn read_activation(bytes: &[u8], at: usize) -> Result<Field<DecodedBorrowActivation>, Refusal>
    ensures { answer_out (taken_out activation_is) result ≡ activation_at bytes.now at }
{
    let Some(
        Field {
            value: mode,
            next: anchor_at,
        },
    ) = field_at::<u8>(bytes, at)
    else {
        return Err(refuse(42, at));
    };
    check(mode <= ACTIVATION_MODE_STORE_VAR_SITE, 44, anchor_at)?;
    if mode == ACTIVATION_MODE_FRAME_ENTRY {
        return Ok(Field {
            value: DecodedBorrowActivation::FrameEntry,
            next: anchor_at,
        });
    }
    let Some(
        Field {
            value: anchor,
            next,
        },
    ) = field_at::<u32>(bytes, anchor_at)
    else {
        return Err(refuse(43, anchor_at));
    };
    Ok(Field {
        value: DecodedBorrowActivation::StoreVarSite(anchor),
        next,
    })
}

#[tactic(auto, unfolding(crate::specs::Path::execution_at))]
fn read_execution(bytes: &[u8], at: usize) -> Result<Field<DecodedWriteExecution>, Refusal>
    ensures { answer_out (taken_out execution_is) result ≡ execution_at bytes.now at }
{
    let Some(
        Field {
            value: mode,
            next: anchor_at,
        },
    ) = field_at::<u8>(bytes, at)
    else {
        return Err(refuse(45, at));
    };
    check(mode <= WRITE_EXECUTION_MODE_MAKE_RECORD_SITE, 47, anchor_at)?;
    let Some(
        Field {
            value: anchor,
            next,
        },
    ) = field_at::<u32>(bytes, anchor_at)
    else {
        return Err(refuse(46, anchor_at));
    };
    let value = if mode == WRITE_EXECUTION_MODE_STORE_VAR_SITE {
        DecodedWriteExecution::StoreVarSite(anchor)
    } else {
        DecodedWriteExecution::MakeRecordSite(anchor)
    };
    Ok(Field { value, next })
}

// Kept (1a, 4d): the byte goes to readers that take one of any kind, as C lends it; `u8::from(event)` would not say which byte of it that is.
pub fn event_kind(event: DecodedEvent) -> u8
    ensures { result ≡ kind_of_event (event_is event) }
{
    match event {
        DecodedEvent::Borrow(_) => OWNERSHIP_EVENT_KIND_BORROW,
        DecodedEvent::Write(_) => OWNERSHIP_EVENT_KIND_WRITE,
    }
}

// What follows the event kind; an unknown kind has no event, and brings no mode.
// Kept (1a, 7d): an unknown kind is refused only behind the components, so it stays a byte; a `match` of it to two readers is today's form.
#[tactic(auto, unfolding(crate::specs::Path::event_of))]
pub fn after_event_kind(
    kind: u8,
    bytes: &[u8],
    at: usize,
    header_rev: u16,
) -> Result<Field<Option<DecodedEvent>>, Refusal>
    ensures { answer_out (taken_out kinded_is) result ≡ event_of kind header_rev bytes.now at }
{
    let moded = SEMCODE_OWNERSHIP_ANCHOR_MIN_REVISION <= header_rev;
    match kind {
        OWNERSHIP_EVENT_KIND_BORROW => {
            let Field { value, next } = if moded {
                read_activation(bytes, at)?
            } else {
                Field {
                    value: DecodedBorrowActivation::None,
                    next: at,
                }
            };
            Ok(Field {
                value: Some(DecodedEvent::Borrow(value)),
                next,
            })
        }
        OWNERSHIP_EVENT_KIND_WRITE => {
            let Field { value, next } = if moded {
                read_execution(bytes, at)?
            } else {
                Field {
                    value: DecodedWriteExecution::None,
                    next: at,
                }
            };
            Ok(Field {
                value: Some(DecodedEvent::Write(value)),
                next,
            })
        }
        _ => Ok(Field {
            value: None,
            next: at,
        }),
    }
}

// ---- The path

// What stands in front of a path's components: the byte of its event's kind, its event where the kind is known, its root, how many components it has,
// and where they start.
#[derive(Clone, Copy, Debug, PartialEq, Eq)]
pub struct Front {
    pub kind: u8,
    pub event: Option<DecodedEvent>,
    pub root_symbol_id: u32,
    pub component_count: u16,
    pub components_start: usize,
}

#[tactic(auto, unfolding(crate::specs::Path::front_at))]
pub fn read_front(bytes: &[u8], at: usize, header_rev: u16) -> Result<Front, Refusal>
    ensures { answer_out front_is result ≡ front_at header_rev bytes.now at }
{
    let Some(
        Field {
            value: kind,
            next: mode_at,
        },
    ) = field_at::<u8>(bytes, at)
    else {
        return Err(refuse(41, at));
    };
    let Field {
        value: event,
        next: root_at,
    } = after_event_kind(kind, bytes, mode_at, header_rev)?;
    let Some(
        Field {
            value: root_symbol_id,
            next: count_at,
        },
    ) = field_at::<u32>(bytes, root_at)
    else {
        return Err(refuse(48, root_at));
    };
    let Some(
        Field {
            value: component_count,
            next: components_start,
        },
    ) = field_at::<u16>(bytes, count_at)
    else {
        return Err(refuse(49, count_at));
    };
    Ok(Front {
        kind,
        event,
        root_symbol_id,
        component_count,
        components_start,
    })
}

#[tactic(auto, using(crate::proofs::PathLaws::head_steps))]
pub fn read_path(
    bytes: &[u8],
    at: usize,
    header_rev: u16,
) -> Result<Field<DecodedAccessPath>, Refusal>
    ensures { answer_out (taken_out head_is) result ≡ head_at header_rev bytes.now at }
{
    let Front {
        kind,
        event,
        root_symbol_id,
        component_count,
        components_start,
    } = read_front(bytes, at, header_rev)?;
    let next = components_end(bytes, components_start, component_count, header_rev, kind)?;
    let Some(event) = event else {
        return Err(refuse(60, next));
    };
    Ok(Field {
        value: DecodedAccessPath {
            event,
            root_symbol_id,
            component_count,
            components_start,
        },
        next,
    })
}

// ---- The place after a path

// The bytes of a site behind an event's kind and mode: a borrow on frame entry has none.
// Kept (1d): the two bytes as they stand in the block: enums would be made of them by a branch each, and this size is there to spare those.
pub fn site_size(kind: u8, mode: u8) -> usize
    requires { kind + mode ≤ 2 }
    ensures { (result ≡ site_size kind mode) × (result ≤ 4) }
{
    if kind + mode == 0 { 0 } else { 4 }
}

// The place after a path, or none where it is not seen so: where modes stand, and each part of any length would be there whole. No branch is for the
// event or for a component's kind.
// Kept (2d): `path_words::read_opening` asks the same of the first two bytes; one function for these five tests would promise both six facts of them.
fn seen_end(bytes: &[u8], at: usize, header_rev: u16) -> Option<usize>
    ensures { (end : ℕ) → result ≡ Some end → next_of (path_at header_rev bytes.now at) ≡ ok end }
{
    if header_rev < SEMCODE_OWNERSHIP_ANCHOR_MIN_REVISION {
        return None;
    }
    if bytes.len() < 12 {
        return None;
    }
    if bytes.len() - 12 < at {
        return None;
    }
    let kind = bytes[at];
    let mode = bytes[at + 1];
    if 1 < kind {
        return None;
    }
    if 1 < mode {
        return None;
    }
    let size = site_size(kind, mode);
    let count = u16::le_at(bytes, at + 6 + size);
    let passed = pass_components(bytes, at + 8 + size, count, header_rev, kind);
    if passed.left == 0 {
        Some(passed.next)
    } else {
        None
    }
}

// The place after a path.
#[tactic(auto, using(crate::proofs::PathLaws::path_refused, crate::proofs::PathLaws::path_read))]
pub fn path_end(bytes: &[u8], at: usize, header_rev: u16) -> Result<usize, Refusal>
    ensures { answer_out (λ end. end) result ≡ next_of (path_at header_rev bytes.now at) }
{
    if let Some(end) = seen_end(bytes, at, header_rev) {
        return Ok(end);
    }
    Ok(read_path(bytes, at, header_rev)?.next)
}
