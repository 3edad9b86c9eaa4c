// Whether some proof of a proposition has operation 1 and mark 1.
ghost use Rattle.std.specs.Prelude.{◌+◌, ◌≤◌, ◌≡◌, List, map, length};
ghost use Rattle.derivation.specs.Rule.{Rule};
ghost use Rattle.derivation.specs.Friendly as of;
ghost use Rattle.evr0_pass.specs.View.{after_name, proof_view};
ghost use Rattle.evr0.specs.Answer.{lent_of};
ghost use Rattle.local_format.specs.Maps.{answer_out};
ghost use Rattle.evr0_rules.specs.Maps.{given_out};
ghost use Rattle.evr0_marks.specs.Answer.{with_marks};
ghost use Rattle.evr0_authorised.specs.Authorised.{authorised_told, AuthorisesBy};
ghost use Rattle.evr0_authorised.specs.Maps.{operating, own};

use evr0_fields::number::PropositionIndex;
use evr0_marks::section::{decode_evr0_section_by, tables_of};
use evr0_pass::pass::{Tables, after_name};
use evr0_rules::settle::Rules;
use lent_table::clear;
use local_format::field::LittleEndian;
use local_format::refusal::{Refusal, refuse};

// Whether the proof at `start` with a mark has operation 1 and mark 1.
// Kept (5d): of a struct of the payload and a start, with this fact, the two functions that hand both on would take the start out again.
// Kept (1a): a mark is a byte of a table that C lends; an enum would be made of it here and held against one variant.
pub fn operates(payload: &[u8], start: usize, mark: u8) -> bool
    requires { after_name payload.now start + 24 ≤ length payload.now }
    ensures { (rules : List Rule) → result ≡ operating (proof_view rules payload.now start) mark }
{
    let positive = mark == 1;
    positive && payload[after_name(payload, start) + 20] == 1
}

// The same of a proof of the proposition.
// Kept (1a): a mark is a byte of a table that C lends; an enum would be made of it here and held against one variant.
fn authorises(payload: &[u8], start: usize, mark: u8, proposition: PropositionIndex) -> bool
    requires { after_name payload.now start + 24 ≤ length payload.now }
    ensures { (rules : List Rule) → result ≡ own (proof_view rules payload.now start) mark proposition.0 }
{
    u32::le_at(payload, start + 4) == proposition.0 && operates(payload, start, mark)
}

// Of the proofs of these tables, whose marks the table begins with.
// Kept (2d, 6a): starts and marks are two tables that C lends; `flag_proofs` writes for each, and by `any` the closure would state that its record is there.
fn authorised_by(tables: Tables, marks: &[u8], proposition: PropositionIndex) -> bool
    requires { length tables.starts.now ≤ length marks.now }
    ensures { (rules : List Rule) → result
        ≡ of.operates (map (proof_view rules tables.entry.payload.now) tables.entry.starts.now) marks.now proposition.0 }
{
    for (start, mark) in tables.starts.iter().zip(marks) {
        if authorises(tables.payload, *start as usize, *mark, proposition) {
            return true;
        }
    }
    false
}

// Whether a proposition of the section at a cursor, which is decoded anew by the rules of a call, is authorised.
pub fn authorised(
    rules: Rules,
    bytes: &[u8],
    cursor: usize,
    proposition: PropositionIndex,
    propositions: &mut [u64],
    proofs: &mut [u64],
    depths: &mut [u64],
    marks: &mut [u8],
) -> Result<bool, Refusal>
    ensures { AuthorisesBy (given_out rules.entry) proposition.0 (authorised_told proposition.0) bytes.now cursor
        (with_marks (lent_of propositions.old proofs.old depths.old) marks.old)
        (with_marks (lent_of propositions.new proofs.new depths.new) marks.new) (answer_out (λ holds. holds) result) }
{
    let decoded = decode_evr0_section_by(rules, bytes, cursor, propositions, proofs, depths, marks);
    let end = decoded.cursor;
    let accepted = decoded.outcome?;
    let counts = accepted.counts;
    if counts.propositions <= proposition.place() {
        clear(propositions);
        clear(proofs);
        clear(depths);
        clear(marks);
        return Err(refuse(62, 0));
    }
    let tables = tables_of(bytes, cursor, end, accepted.schema, counts, proofs);
    Ok(authorised_by(tables, marks, proposition))
}
