// Proposition records and their order.
ghost use Rattle.std.specs.Prelude.{◌≡◌};
ghost use Rattle.local_format.specs.Maps.{answer_out};
ghost use Rattle.evr0_section.specs.Proposition.{proposition_of, compare_keys, is_less, key_of};
ghost use Rattle.evr0_records.specs.Maps.{sized_out, proposition_record, key_out};

use crate::sized::Sized;
use evr0_fields::span::bytes_of;
use local_format::field::{Field, field_at};
use local_format::refusal::{Refusal, refuse};
use local_format::text::{Span, text_at};

#[derive(Clone, Copy, Debug, PartialEq, Eq)]
pub struct Proposition {
    pub kind: Span,
    pub ast_owner_id: u32,
    pub semantic_scope_id: u32,
    pub type_obligation_id: u32,
}

// What orders propositions: kind's bytes, then owner, scope, type.
#[derive(Clone, Copy, PartialEq, Eq, PartialOrd, Ord)]
pub struct Key<'a> {
    pub kind: &'a [u8],
    pub owner: u32,
    pub scope: u32,
    pub type_obligation: u32,
}

impl Proposition {
    // What orders it, where it was read at the front of `part`.
    pub fn key(self, part: &[u8]) -> Key<'_>
        ensures { key_out result ≡ key_of part.now (proposition_record self) }
    {
        Key {
            kind: bytes_of(part, self.kind),
            owner: self.ast_owner_id,
            scope: self.semantic_scope_id,
            type_obligation: self.type_obligation_id,
        }
    }
}

// The proposition at the front of `tail`.
#[tactic(auto, unfolding(evr0_section::specs::Proposition::proposition_of))]
pub fn read_proposition(tail: &[u8]) -> Result<Sized<Proposition>, Refusal>
    ensures { answer_out (sized_out proposition_record) result ≡ proposition_of tail.now }
{
    let kind = text_at(tail, 0)?;
    let owner_at = kind.next;
    let Some(
        Field {
            value: ast_owner_id,
            next: scope_at,
        },
    ) = field_at::<u32>(tail, owner_at)
    else {
        return Err(refuse(5, owner_at));
    };
    let Some(
        Field {
            value: semantic_scope_id,
            next: type_at,
        },
    ) = field_at::<u32>(tail, scope_at)
    else {
        return Err(refuse(5, scope_at));
    };
    let Some(
        Field {
            value: type_obligation_id,
            next: size,
        },
    ) = field_at::<u32>(tail, type_at)
    else {
        return Err(refuse(5, type_at));
    };
    Ok(Sized {
        item: Proposition {
            kind,
            ast_owner_id,
            semantic_scope_id,
            type_obligation_id,
        },
        size,
    })
}

// Whether the proposition `a` at the front of `part` comes before the proposition `b` at the front of `tail`.
pub fn precedes(part: &[u8], a: Proposition, tail: &[u8], b: Proposition) -> bool
    ensures { result ≡ is_less (compare_keys (key_of part.now (proposition_record a)) (key_of tail.now (proposition_record b))) }
{
    a.key(part).cmp(&b.key(tail)).is_lt()
}
