// Evidence sections.
ghost use Rattle.std.specs.Prelude.{◌≡◌, ◌≤◌, List, ℕ, length, take};
ghost use Rattle.local_format.specs.Out.{ok, refused};
ghost use Rattle.local_format.specs.Maps.{answer_out, refusal_out};
ghost use Rattle.derivation.specs.Rule.{Rule};
ghost use Rattle.derivation.specs.Pass as of;
ghost use Rattle.evr0_rules.specs.Maps.{book_rules, given_out};
ghost use Rattle.evr0_head.specs.Maps.{head_out};
ghost use Rattle.evr0_tables.specs.LentMaps.{SameTables, tables_out};
ghost use Rattle.evr0_pass.specs.View.{TablesThere, PolaritiesThere};
ghost use Rattle.evr0_pass.specs.Maps.{layout_out, tables_in, Derives};
ghost use Rattle.evr0_section.specs.Head.{span_width, witness_size};
ghost use Rattle.evr0_section.specs.Section.{frame_at};
ghost use Rattle.evr0.specs.Answer.{lent_of, answer_of, Leaves, LeavesBy};
ghost use Rattle.evr0.specs.AnswerMaps.{accepted_out, head_outcome};
ghost use Rattle.evr0.specs.AnswerMaps as maps;
ghost use Rattle.evr0.specs.Maps.{frame_out};
ghost use Rattle.evr0.specs.Steps.{payload_in, section_by, answer_with, Passes, Ends, EndsBy};

use crate::frame::{Frame, read_opening};
use evr0_fields::schema::witness_size;
use evr0_head::counts::Counts;
use evr0_head::head::Head;
use evr0_pass::pass::{Layout, derive};
use evr0_rules::settle::{RuleRoom, Rulebook, Rules};
use evr0_tables::lent::Tables;
use evr0_tables::payload::{Payload, read_payload};
use lent_table::clear;
use local_format::refusal::{Refusal, based};

// What is given of an accepted section: the schema, the epoch, the places in the payload of both namespaces' lengths, how many characters each has,
// and the counts.
#[derive(Clone, Copy, Debug, PartialEq, Eq)]
pub struct Accepted {
    // Kept (1a): callers hand it on to public functions that take any u16 as the schema, and C reads the number.
    pub schema: u16,
    pub epoch: u16,
    pub policy_namespace: usize,
    pub issuer_namespace: usize,
    pub policy_chars: usize,
    pub issuer_chars: usize,
    pub counts: Counts,
}

// The outcome with the cursor, and the digests, which are zeros where the section is refused.
// Kept (1a): document 01 has digests and cursor beside every answer, and the contract's `answer_of` has zeros and the brought cursor beside a refusal.
#[derive(Clone, Copy, Debug, PartialEq, Eq)]
pub struct DecodedEvr0 {
    pub source_set: [u8; 32],
    pub compiler_contract: [u8; 32],
    pub cursor: usize,
    pub outcome: Result<Accepted, Refusal>,
}

fn accept(head: &Head) -> Accepted
    ensures { accepted_out result ≡ head_outcome head.now }
{
    Accepted {
        schema: head.schema,
        epoch: head.epoch,
        policy_namespace: head.policy_at,
        issuer_namespace: head.issuer_at,
        policy_chars: head.policy_namespace.chars,
        issuer_chars: head.issuer_namespace.chars,
        counts: head.counts,
    }
}

// A section with this head, after which the cursor stands at `end`.
fn accepted_section(head: &Head, end: usize) -> DecodedEvr0
    ensures { maps.answer_out result ≡ answer_with end (head_out head.now) }
{
    DecodedEvr0 {
        source_set: *head.source_set,
        compiler_contract: *head.compiler_contract,
        cursor: end,
        outcome: Ok(accept(head)),
    }
}

fn refused_section(refusal: Refusal, cursor: usize) -> DecodedEvr0
    ensures { maps.answer_out result ≡ answer_of cursor (refused (refusal_out refusal)) }
{
    DecodedEvr0 {
        source_set: [0u8; 32],
        compiler_contract: [0u8; 32],
        cursor,
        outcome: Err(refusal),
    }
}

// Where the tables of a payload that was read lie, and how many entries each has.
pub fn layout_of(read: &Payload) -> Layout
    ensures { result
        ≡ record {
          counts = read.now.head.counts;
          witness_size = witness_size (span_width read.now.head.schema);
          witnesses_at = read.now.witnesses_at;
          parents_at = read.now.parents_at;
        } }
{
    Layout {
        counts: read.head.counts,
        witness_size: witness_size(read.head.schema),
        witnesses_at: read.witnesses_at,
        parents_at: read.parents_at,
    }
}

// The last pass over the proofs that start at the front of a table, which stays as it is.
// Kept (2d): `fill_front` of evr0_rounds cuts its starts so too, but for another pass; what is left of either is its clauses, which speak of that pass.
fn derive_front(
    payload: &[u8],
    layout: Layout,
    proofs: &mut [u64],
    depths: &mut [u64],
) -> Result<(), Refusal>
    requires tables_there { TablesThere payload.now (take layout.counts.proofs proofs.old) (layout_out layout) }
    requires room { (layout.counts.proofs ≤ length proofs.old) × (layout.counts.proofs ≤ length depths.old) }
    requires polarities_there { (rules : List Rule) × PolaritiesThere rules payload.now (take layout.counts.proofs proofs.old) depths.old }
    ensures kept { proofs.new ≡ proofs.old }
    ensures derives { (rules : List Rule) → PolaritiesThere rules payload.now (take layout.counts.proofs proofs.old) depths.old
        → Derives (of.depths layout.parents_at (tables_in rules payload.now (take layout.counts.proofs proofs.old) layout))
        depths.old depths.new (answer_out (λ done. done) result) }
{
    derive(payload, &proofs[..layout.counts.proofs], layout, depths)
}

// The section of a payload: its head, with its starts and depths in the lent tables; a refusal leaves zeros in all three.
// Kept (2d): `mark_payload` of evr0_rounds has these steps with another pass; one function would take the pass and what it promises as parameters.
fn section_in<'p>(
    rules: &Rulebook,
    payload: &'p [u8],
    tables: &mut Tables,
) -> Result<Head<'p>, Refusal>
    ensures same { SameTables tables.old tables.new }
    ensures passes { (end : ℕ) → Passes (payload_in (book_rules rules.now) (tables_out tables.old) payload.now end)
        (tables_out tables.old) (tables_out tables.new) (answer_out head_out result) }
{
    let read = read_payload(rules, payload, tables)?;
    let layout = layout_of(&read);
    let derived = derive_front(payload, layout, tables.proofs, tables.depths);
    match derived {
        Ok(()) => Ok(read.head),
        Err(refusal) => {
            clear(tables.propositions);
            clear(tables.proofs); // of a refused derivation
            Err(refusal)
        }
    }
}

// The section at `cursor`, whose frame was read.
// Kept (2d): `mark_section` of evr0_rounds has no digests to answer and no opening that is refused first; a frame and a `match` are the same.
pub fn decode_at(
    rules: &Rulebook,
    bytes: &[u8],
    frame: Frame,
    cursor: usize,
    tables: &mut Tables,
) -> DecodedEvr0
    requires { frame_at bytes.now cursor ≡ ok (frame_out frame) }
    ensures same { SameTables tables.old tables.new }
    ensures ends { Ends (section_by (book_rules rules.now) (tables_out tables.old) bytes.now cursor) cursor
        (tables_out tables.old) (tables_out tables.new) (maps.answer_out result) }
{
    let end = frame.start + frame.len;
    let read = section_in(rules, &bytes[frame.start..end], tables);
    match read {
        Ok(head) => accepted_section(&head, end),
        Err(refusal) => refused_section(based(refusal, frame.start), cursor),
    }
}

// The section at `cursor`, by the rules of a call. A refused opening is answered where the call stands.
#[inline(always)]
fn decode(rules: &Rulebook, bytes: &[u8], cursor: usize, tables: &mut Tables) -> DecodedEvr0
    ensures same { SameTables tables.old tables.new }
    ensures ends { Ends (section_by (book_rules rules.now) (tables_out tables.old) bytes.now cursor) cursor
        (tables_out tables.old) (tables_out tables.new) (maps.answer_out result) }
{
    let opening = read_opening(bytes, cursor);
    match opening {
        Ok(frame) => decode_at(rules, bytes, frame, cursor, tables),
        Err(refusal) => {
            tables.clear(); // of a refused opening
            refused_section(refusal, cursor)
        }
    }
}

// The same by the rules of a table, which is loaded first.
// Kept (2d): the rounds load their rules so too; one function would take all that comes after as a closure, for a `let` and a `match`.
fn decode_loaded(rules: Rules, bytes: &[u8], cursor: usize, tables: &mut Tables) -> DecodedEvr0
    ensures same { SameTables tables.old tables.new }
    ensures ends { EndsBy (given_out rules.entry) bytes.now cursor
        (tables_out tables.old) (tables_out tables.new) (maps.answer_out result) }
{
    let mut room = RuleRoom::EMPTY;
    let loaded = Rulebook::load(rules, &mut room);
    match loaded {
        Ok(book) => decode(&book, bytes, cursor, tables),
        Err(refusal) => {
            tables.clear(); // of refused rules
            refused_section(refusal, cursor)
        }
    }
}

// The same by the rules of a call. Room is made for the rules of a table alone.
fn decode_given(rules: Rules, bytes: &[u8], cursor: usize, tables: &mut Tables) -> DecodedEvr0
    ensures same { SameTables tables.old tables.new }
    ensures ends { EndsBy (given_out rules.entry) bytes.now cursor
        (tables_out tables.old) (tables_out tables.new) (maps.answer_out result) }
{
    match rules {
        Rules::Four => decode(&Rulebook::Four, bytes, cursor, tables),
        Rules::Table(_) => decode_loaded(rules, bytes, cursor, tables),
    }
}

// Decodes the section at `cursor` by the rules of a call, the four or those of a table, without the marks of its proofs. Each lent table is filled to its
// count and has zeros past it; a refusal leaves zeros in all three.
// Kept (7d): `decode_given` has one arm for each kind of rules; a closure in place of an arm would be called where it is made.
pub fn decode_evr0_by(
    rules: Rules,
    bytes: &[u8],
    cursor: usize,
    propositions: &mut [u64],
    proofs: &mut [u64],
    depths: &mut [u64],
) -> DecodedEvr0
    ensures { LeavesBy (given_out rules.entry) bytes.now cursor
        (lent_of propositions.old proofs.old depths.old)
        (lent_of propositions.new proofs.new depths.new) (maps.answer_out result) }
{
    let mut tables = Tables {
        propositions,
        proofs,
        depths,
    };
    decode_given(rules, bytes, cursor, &mut tables)
}

// The same by the four.
// Kept (2a, 2b): who decodes by the four alone, as the Rust does, brings no rules. As a call of `decode_evr0_by`, which was proved, the decoder is
// compiled apart from `evidence`, and clears a table there that nothing reads: twice the instructions for a small section.
pub fn decode_evr0_unmarked(
    bytes: &[u8],
    cursor: usize,
    propositions: &mut [u64],
    proofs: &mut [u64],
    depths: &mut [u64],
) -> DecodedEvr0
    ensures { Leaves bytes.now cursor
        (lent_of propositions.old proofs.old depths.old)
        (lent_of propositions.new proofs.new depths.new) (maps.answer_out result) }
{
    let mut tables = Tables {
        propositions,
        proofs,
        depths,
    };
    decode(&Rulebook::Four, bytes, cursor, &mut tables)
}
