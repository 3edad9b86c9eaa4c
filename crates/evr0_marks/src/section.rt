// Evidence sections with their marks: the decoder without marks, and then one pass over its proofs.
ghost use Rattle.std.specs.Prelude.{◌≡◌, ℕ, List, length};
ghost use Rattle.evr0_section.specs.Section.{section_of};
ghost use Rattle.evr0_pass.specs.Tables.{tables_by};
ghost use Rattle.evr0_head.specs.Maps.{counts_out};
ghost use Rattle.evr0.specs.Answer.{lent_of};
ghost use Rattle.evr0_rules.specs.Maps.{given_out};
ghost use Rattle.evr0.specs.AnswerMaps.{answer_out};
ghost use Rattle.evr0_marks.specs.Answer.{with_marks, Leaves, LeavesBy};
ghost use Rattle.evr0_marks.specs.Steps.{DueOf};

use crate::marks::mark_proofs;
use evr0::section::{DecodedEvr0, decode_evr0_by};
use evr0_fields::schema::witness_size;
use evr0_head::counts::Counts;
use evr0_pass::pass::{Layout, Tables};
use evr0_read::cell::start_before;
use evr0_read::table::{front, payload_of};
use evr0_rules::settle::Rules;
use lent_table::clear_from;

// The tables of the section at a cursor, which was decoded and ends at `end`.
// Kept (1a): the number as the decoder's public answer holds it; an enum would ask callers to make one of it first.
pub fn tables_of<'a>(
    bytes: &'a [u8],
    cursor: usize,
    end: usize,
    schema: u16,
    counts: Counts,
    proofs: &'a [u64],
) -> Tables<'a>
    requires { (held : List ℕ) × DueOf schema bytes.now cursor end (counts_out counts) proofs.now held }
    ensures is { (held : List ℕ) (of : DueOf schema bytes.now cursor end (counts_out counts) proofs.now held)
        → tables_by of.due.rules result ≡ section_of of.due.section.tables }
    ensures total { length result.starts.now ≡ counts.proofs }
{
    let payload = payload_of(bytes, cursor, end);
    let witness_size = witness_size(schema);
    let parents_at = start_before(payload.len(), 4, counts.parents);
    let witnesses_at = start_before(parents_at, witness_size, counts.witnesses);
    Tables {
        payload,
        starts: front(proofs, counts.proofs),
        layout: Layout {
            counts,
            witness_size,
            witnesses_at,
            parents_at,
        },
    }
}

// Decodes the section at `cursor` by the rules of a call: the four, or those of a table, which is loaded first. Each lent table is filled
// to its count and has zeros past it; a refusal leaves zeros in all four. Depths and marks are one for each proof: the decoder is lent as
// many depths as there are marks.
pub fn decode_evr0_section_by(
    rules: Rules,
    bytes: &[u8],
    cursor: usize,
    propositions: &mut [u64],
    proofs: &mut [u64],
    depths: &mut [u64],
    marks: &mut [u8],
) -> DecodedEvr0
    ensures { LeavesBy (given_out rules.entry) bytes.now cursor
        (with_marks (lent_of propositions.old proofs.old depths.old) marks.old)
        (with_marks (lent_of propositions.new proofs.new depths.new) marks.new) (answer_out result) }
{
    let room = depths.len().min(marks.len());
    let decoded = decode_evr0_by(
        rules,
        bytes,
        cursor,
        propositions,
        proofs,
        &mut depths[..room],
    );
    clear_from(depths, room);
    match decoded.outcome {
        Err(_) => clear_from(marks, 0),
        Ok(accepted) => {
            let tables = tables_of(
                bytes,
                cursor,
                decoded.cursor,
                accepted.schema,
                accepted.counts,
                proofs,
            );
            mark_proofs(tables, marks);
        }
    }
    decoded
}

// The same by the four.
// Kept (2a): the Rust's function by its name, which takes no rules; the one above takes the rules of a call as well.
pub fn decode_evr0_section(
    bytes: &[u8],
    cursor: usize,
    propositions: &mut [u64],
    proofs: &mut [u64],
    depths: &mut [u64],
    marks: &mut [u8],
) -> DecodedEvr0
    ensures { Leaves bytes.now cursor
        (with_marks (lent_of propositions.old proofs.old depths.old) marks.old)
        (with_marks (lent_of propositions.new proofs.new depths.new) marks.new) (answer_out result) }
{
    decode_evr0_section_by(
        Rules::Four,
        bytes,
        cursor,
        propositions,
        proofs,
        depths,
        marks,
    )
}
