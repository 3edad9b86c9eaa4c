// The head of a payload, and the checks after its counts.
ghost use Rattle.std.specs.Prelude.{◌≡◌, ◌*◌, ◌^◌, ◌≤◌, ◌<◌, length, IfOk};
ghost use Rattle.local_format.specs.Maps.{answer_out};
ghost use Rattle.evr0_section.specs.Head.{listed, count_limits, within_limits, sizes, has_room, head_of, check_counts, checked_head};
ghost use Rattle.evr0_head.specs.Checks.{Limited};
ghost use Rattle.evr0_head.specs.Maps.{counts_out, room_out, head_out};

use crate::counts::{Counts, read_counts};
use evr0_fields::place::digest_at;
use evr0_fields::schema::{is_schema, witness_memory, witness_size};
use local_format::field::{Field, field_at};
use local_format::refusal::{Refusal, check, refuse};
use local_format::text::{Span, text_at};

// The places of the namespaces' lengths and of the first count, and the place after the counts.
// The digests are borrowed from the payload.
#[derive(Clone, Copy, Debug, PartialEq, Eq)]
pub struct Head<'a> {
    // Kept (1a): callers in C read the number, and the readers of a witness take any u16 as the schema.
    pub schema: u16,
    pub source_set: &'a [u8; 32],
    pub compiler_contract: &'a [u8; 32],
    pub epoch: u16,
    pub policy_at: usize,
    pub policy_namespace: Span,
    pub issuer_at: usize,
    pub issuer_namespace: Span,
    pub counts: Counts,
    pub counts_at: usize,
    pub next: usize,
}

// The lengths of the lent tables.
#[derive(Clone, Copy, Debug, PartialEq, Eq)]
pub struct Room {
    pub propositions: usize,
    pub proofs: usize,
    pub depths: usize,
}

// What one record of each table counts.
#[derive(Clone, Copy)]
struct RecordSizes {
    proposition: usize,
    proof: usize,
    witness: usize,
    parent: usize,
}

// Kept (2d): a reader has a line for each field of its record; with `read_witness` it shares the kinds of fields, which are functions already.
#[tactic(auto, unfolding(evr0_section::specs::Head::head_of))]
pub fn read_head(payload: &[u8]) -> Result<Head<'_>, Refusal>
    ensures { answer_out head_out result ≡ head_of payload.now }
{
    let Some(
        Field {
            value: schema,
            next: flags_at,
        },
    ) = field_at::<u16>(payload, 0)
    else {
        return Err(refuse(5, 0));
    };
    check(is_schema(schema), 10, flags_at)?;
    let Some(
        Field {
            value: flags,
            next: source_at,
        },
    ) = field_at::<u16>(payload, flags_at)
    else {
        return Err(refuse(5, flags_at));
    };
    check(flags == 0, 11, source_at)?;
    let Field {
        value: source_set,
        next: contract_at,
    } = digest_at(payload, source_at)?;
    let Field {
        value: compiler_contract,
        next: epoch_at,
    } = digest_at(payload, contract_at)?;
    let Some(
        Field {
            value: epoch,
            next: policy_at,
        },
    ) = field_at::<u16>(payload, epoch_at)
    else {
        return Err(refuse(5, epoch_at));
    };
    let policy_namespace = text_at(payload, policy_at)?;
    let issuer_namespace = text_at(payload, policy_namespace.next)?;
    let Field {
        value: counts,
        next,
    } = read_counts(payload, issuer_namespace.next)?;
    Ok(Head {
        schema,
        source_set,
        compiler_contract,
        epoch,
        policy_at,
        policy_namespace,
        issuer_at: policy_namespace.next,
        issuer_namespace,
        counts,
        counts_at: issuer_namespace.next,
        next,
    })
}

// Whether the lent tables are long enough.
#[tactic(auto, unfolding(evr0_section::specs::Head::has_room))]
fn has_room(room: Room, counts: Counts) -> bool
    ensures { result ≡ has_room (room_out room) (counts_out counts) }
{
    (counts.propositions <= room.propositions)
        & ((counts.proofs <= room.proofs) & (counts.proofs <= room.depths))
}

// Each count is at most its limit. The counts stand at `at` and after it.
#[tactic(auto, unfolding(evr0_section::specs::Head::within_limits))]
fn within_limits(counts: Counts, at: usize) -> Result<(), Refusal>
    requires { at < 2 ^ 63 }
    ensures answer { answer_out (λ done. done) result ≡ within_limits (listed (counts_out counts)) count_limits at }
    ensures limited { IfOk result (λ done. Limited (counts_out counts)) }
{
    check(counts.propositions <= 65536, 12, at)?;
    check(counts.proofs <= 65536, 12, at + 4)?;
    check(counts.witnesses <= 262144, 12, at + 8)?;
    check(counts.parents <= 262144, 12, at + 12)
}

// Each count times the size of one record, added up.
#[tactic(auto, unfolding(evr0_section::specs::Head::sizes))]
fn table_sizes(counts: Counts, each: RecordSizes) -> usize
    requires limited { Limited (counts_out counts) }
    requires bounded { (each.proposition ≤ 96) × (each.proof ≤ 96) × (each.witness ≤ 96) × (each.parent ≤ 96) }
    ensures { (result ≡ sizes (counts_out counts) each.proposition each.proof each.witness each.parent) × (result ≤ 100663296) }
{
    each.proposition * counts.propositions
        + each.proof * counts.proofs
        + each.witness * counts.witnesses
        + each.parent * counts.parents
}

// The checks after the counts of a payload's head.
#[tactic(auto, unfolding(evr0_section::specs::Head::check_counts))]
fn check_counts(payload: &[u8], head: &Head, room: Room) -> Result<(), Refusal>
    requires { (head.now.counts_at ≤ head.now.next) × (head.now.next ≤ length payload.now) }
    ensures { answer_out (λ done. done) result ≡ check_counts (room_out room) payload.now (head_out head.now) }
{
    let len = payload.len();
    let next = head.next;
    let counts = head.counts;
    within_limits(counts, head.counts_at)?;
    let least = table_sizes(
        counts,
        RecordSizes {
            proposition: 15,
            proof: 35,
            witness: witness_size(head.schema),
            parent: 4,
        },
    );
    check(least <= len - next, 13, next)?;
    let memory = table_sizes(
        counts,
        RecordSizes {
            proposition: 40,
            proof: 64,
            witness: witness_memory(head.schema),
            parent: 4,
        },
    );
    check(len + memory <= 16777216, 14, next)?;
    let records = table_sizes(
        counts,
        RecordSizes {
            proposition: 1,
            proof: 1,
            witness: 1,
            parent: 1,
        },
    );
    check(len + records <= 8388608, 15, next)?;
    check(has_room(room, counts), 61, next)
}

// A head whose counts passed their checks against the payload and the lent tables.
#[tactic(auto, unfolding(evr0_section::specs::Head::checked_head))]
pub fn read_checked_head(payload: &[u8], room: Room) -> Result<Head<'_>, Refusal>
    ensures { answer_out head_out result ≡ checked_head (room_out room) payload.now }
{
    let head = read_head(payload)?;
    check_counts(payload, &head, room)?;
    Ok(head)
}
