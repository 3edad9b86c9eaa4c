// A record and where it starts; propositions and proofs of a payload, at a place. A text stands at its place in the payload.
ghost use Rattle.std.specs.Prelude.{◌≡◌, ◌+◌, ◌≤◌};
ghost use Rattle.local_format.specs.Maps.{answer_out, span_out};
ghost use Rattle.evr0_section.specs.Proposition.{proposition_of};
ghost use Rattle.evr0_section.specs.Proof.{proof_of};
ghost use Rattle.evr0_records.specs.Maps.{proposition_record, proof_record};
ghost use Rattle.evr0_read.specs.Entry.{placed, placed_proposition, placed_proof, record_at};
ghost use Rattle.evr0_read.specs.Maps.{entry_out};

use evr0_records::proof::{Proof, read_proof};
use evr0_records::proposition::{Proposition, read_proposition};
use local_format::part::tail;
use local_format::refusal::Refusal;
use local_format::text::Span;

#[derive(Clone, Copy, Debug, PartialEq, Eq)]
pub struct Entry<T> {
    pub start: usize,
    pub item: T,
}

// A text of a record that starts at a place of the payload.
fn placed(span: Span, start: usize) -> Span
    requires { (start + span.start ≤ 18446744073709551615) × (start + span.next ≤ 18446744073709551615) }
    ensures { span_out result ≡ placed start (span_out span) }
{
    Span {
        start: start + span.start,
        next: start + span.next,
        ..span
    }
}

// The proposition that starts at a place.
// Kept (2d): each reads another record, and two of the four place a text as well; over two closures each call would be as long as this body.
#[tactic(auto, unfolding(crate::specs::Entry::record_at))]
pub fn proposition_at(payload: &[u8], at: usize) -> Result<Entry<Proposition>, Refusal>
    ensures { answer_out (entry_out proposition_record) result ≡ record_at proposition_of placed_proposition payload.now at }
{
    let read = read_proposition(tail(payload, at))?;
    let proposition = read.item;
    Ok(Entry {
        start: at,
        item: Proposition {
            kind: placed(proposition.kind, at),
            ..proposition
        },
    })
}

// The proof that starts at a place.
#[tactic(auto, unfolding(crate::specs::Entry::record_at))]
pub fn proof_at(payload: &[u8], at: usize) -> Result<Entry<Proof>, Refusal>
    ensures { answer_out (entry_out proof_record) result ≡ record_at proof_of placed_proof payload.now at }
{
    let read = read_proof(tail(payload, at))?;
    let proof = read.item;
    Ok(Entry {
        start: at,
        item: Proof {
            rule_id: placed(proof.rule_id, at),
            ..proof
        },
    })
}
