// Of every proposition, whether some proof of it has operation 1 and mark 1: the decoder with marks, and then one pass over its proofs.
ghost use Rattle.std.specs.Prelude.{◌+◌, ◌≤◌, ◌≡◌, List, map, length};
ghost use Rattle.derivation.specs.Rule.{Rule};
ghost use Rattle.evr0_pass.specs.View.{after_name, proof_view};
ghost use Rattle.evr0.specs.Answer.{lent_of};
ghost use Rattle.evr0_rules.specs.Maps.{given_out};
ghost use Rattle.evr0.specs.AnswerMaps.{answer_out};
ghost use Rattle.evr0_marks.specs.Answer.{with_marks};
ghost use Rattle.authorised_table.specs.Answer.{with_authorised, TellsBy};
ghost use Rattle.authorised_table.specs.Steps.{flagged, flagged_by};

use evr0::section::DecodedEvr0;
use evr0_authorised::authorised::operates;
use evr0_marks::section::{decode_evr0_section_by, tables_of};
use evr0_pass::pass::Tables;
use evr0_rules::settle::Rules;
use lent_table::{clear, clear_from};
use local_format::field::LittleEndian;

// The proof at `start` with a mark: with operation 1 and mark 1 it flags its proposition.
// Kept (1a): the mark is a byte of a table that C lends; an enum would be made of it here and held against one variant.
fn flag(payload: &[u8], start: usize, mark: u8, authorised: &mut [u8])
    requires { after_name payload.now start + 24 ≤ length payload.now }
    ensures { (rules : List Rule)
        → authorised.new ≡ flagged (proof_view rules payload.now start) mark authorised.old }
{
    if operates(payload, start, mark) {
        let proposition = u32::le_at(payload, start + 4) as usize;
        if proposition < authorised.len() {
            authorised[proposition] = 1;
        }
    }
}

// The proofs of these tables, whose marks the table begins with.
// Kept (6a): starts and marks are two tables that C lends.
fn flag_proofs(tables: Tables, marks: &[u8], authorised: &mut [u8])
    requires { length tables.starts.now ≤ length marks.now }
    ensures { (rules : List Rule) → authorised.new
        ≡ flagged_by (map (proof_view rules tables.entry.payload.now) tables.entry.starts.now) marks.now authorised.old }
{
    for (start, mark) in tables.starts.iter().zip(marks) {
        flag(tables.payload, *start as usize, *mark, authorised);
    }
}

// Decodes the section at `cursor` by the rules of a call, with marks, and tells of each proposition whether it is authorised: 1, else 0.
// Each lent table is filled to its count and has zeros past it; a refusal leaves zeros in all five. Starts and flags are one for each
// proposition: the decoder is lent as many starts as there are flags.
// Kept (5d): C lends each table by itself; a struct would be made in each C function, and made anew where the decoder is lent a part of a table.
// Kept (2d): `decode_evr0_section_by` shortens another table and makes another pass; of one function each call would bring a table and a closure.
pub fn authorised_table(
    rules: Rules,
    bytes: &[u8],
    cursor: usize,
    propositions: &mut [u64],
    proofs: &mut [u64],
    depths: &mut [u64],
    marks: &mut [u8],
    authorised: &mut [u8],
) -> DecodedEvr0
    ensures { TellsBy (given_out rules.entry) bytes.now cursor
        (with_authorised (with_marks (lent_of propositions.old proofs.old depths.old) marks.old)
        authorised.old)
        (with_authorised (with_marks (lent_of propositions.new proofs.new depths.new) marks.new)
        authorised.new) (answer_out result) }
{
    let room = propositions.len().min(authorised.len());
    let decoded = decode_evr0_section_by(
        rules,
        bytes,
        cursor,
        &mut propositions[..room],
        proofs,
        depths,
        marks,
    );
    clear_from(propositions, room);
    match decoded.outcome {
        Err(_) => clear(authorised),
        Ok(accepted) => {
            let tables = tables_of(
                bytes,
                cursor,
                decoded.cursor,
                accepted.schema,
                accepted.counts,
                proofs,
            );
            clear(authorised);
            flag_proofs(tables, marks, authorised);
        }
    }
    decoded
}
