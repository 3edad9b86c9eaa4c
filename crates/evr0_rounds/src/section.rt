// Evidence sections with depth by rounds: the frame, the head and the tables as the decoder reads them, and then the rounds.
ghost use Rattle.std.specs.Prelude.{ℕ};
ghost use Rattle.local_format.specs.Maps.{answer_out};
ghost use Rattle.rounds.specs.ByRounds.{rounds_in, rounds_at};
ghost use Rattle.evr0_rules.specs.Maps.{book_rules, given_out};
ghost use Rattle.evr0_tables.specs.LentMaps.{SameTables, tables_out};
ghost use Rattle.evr0.specs.Answer.{lent_of, room_of};
ghost use Rattle.evr0_rounds.specs.Answer.{LeavesBy};
ghost use Rattle.evr0_rounds.specs.AnswerMaps.{marked_out};
ghost use Rattle.evr0_rounds.specs.Steps.{Passes, Ends, answer_with};

use crate::mark::fill_front;
use evr0::frame::{Frame, read_frame};
use evr0::section::layout_of;
use evr0_rules::settle::{RuleRoom, Rulebook, Rules};
use evr0_tables::lent::Tables;
use evr0_tables::part::moved;
use evr0_tables::payload::read_payload;
use lent_table::clear;
use local_format::refusal::Refusal;

// How many proofs there are, each of them marked, and the cursor after the section.
#[derive(Clone, Copy, Debug, PartialEq, Eq)]
pub struct Marked {
    pub proofs: usize,
    pub cursor: usize,
}

// The rounds of a payload: how many proofs are marked, with their starts and rounds in the lent tables; a refusal leaves zeros in all three.
fn mark_payload(rules: &Rulebook, payload: &[u8], tables: &mut Tables) -> Result<usize, Refusal>
    ensures same { SameTables tables.old tables.new }
    ensures passes { (end : ℕ) → Passes (rounds_in (book_rules rules.now) (room_of (tables_out tables.old)) payload.now end)
        (tables_out tables.old) (tables_out tables.new) (answer_out (λ n. n) result) }
{
    let read = read_payload(rules, payload, tables)?;
    let filled = fill_front(payload, layout_of(&read), tables.proofs, tables.depths);
    match filled {
        Ok(()) => Ok(read.head.counts.proofs),
        Err(refusal) => {
            clear(tables.propositions);
            clear(tables.proofs);
            clear(tables.depths); // of refused rounds
            Err(refusal)
        }
    }
}

// The rounds of the section at `cursor`, by loaded rules.
fn mark_section(
    rules: &Rulebook,
    bytes: &[u8],
    cursor: usize,
    tables: &mut Tables,
) -> Result<Marked, Refusal>
    ensures same { SameTables tables.old tables.new }
    ensures ends { Ends (rounds_at (book_rules rules.now) (room_of (tables_out tables.old)) bytes.now cursor)
        (tables_out tables.old) (tables_out tables.new) (answer_out marked_out result) }
{
    let frame = read_frame(bytes, cursor);
    match frame {
        Err(refusal) => {
            tables.clear(); // of a refused frame
            Err(refusal)
        }
        Ok(Frame { start, len }) => {
            let end = start + len;
            let proofs = moved(mark_payload(rules, &bytes[start..end], tables), start)?;
            Ok(Marked {
                proofs,
                cursor: end,
            })
        }
    }
}

// The same by the rules of a table, which is loaded first.
fn mark_loaded(
    rules: Rules,
    bytes: &[u8],
    cursor: usize,
    tables: &mut Tables,
) -> Result<Marked, Refusal>
    ensures same { SameTables tables.old tables.new }
    ensures leaves { LeavesBy (given_out rules.entry) bytes.now cursor
        (tables_out tables.old) (tables_out tables.new) (answer_with cursor (answer_out marked_out result)) }
{
    let mut room = RuleRoom::EMPTY;
    let loaded = Rulebook::load(rules, &mut room);
    match loaded {
        Ok(book) => mark_section(&book, bytes, cursor, tables),
        Err(refusal) => {
            tables.clear(); // of refused rules
            Err(refusal)
        }
    }
}

// Each proof's depth in the section at `cursor`, by rounds and by the rules of a call: the four, or those of a table, which is loaded first. In each
// round, counted from 1, the proofs are marked all of whose parents were marked in earlier rounds. Each lent table is filled to its count and has zeros
// past it; a refusal leaves zeros in all three. Room is made for the rules of a table alone.
// Kept (5a): the parameters of `falgnust_depth_by_rounds`; within the decoder the three tables go as one struct.
pub fn depth_by_rounds(
    rules: Rules,
    bytes: &[u8],
    cursor: usize,
    propositions: &mut [u64],
    proofs: &mut [u64],
    rounds: &mut [u64],
) -> Result<Marked, Refusal>
    ensures { LeavesBy (given_out rules.entry) bytes.now cursor
        (lent_of propositions.old proofs.old rounds.old)
        (lent_of propositions.new proofs.new rounds.new) (answer_with cursor (answer_out marked_out result)) }
{
    let mut tables = Tables {
        propositions,
        proofs,
        depths: rounds,
    };
    match rules {
        Rules::Four => mark_section(&Rulebook::Four, bytes, cursor, &mut tables),
        Rules::Table(_) => mark_loaded(rules, bytes, cursor, &mut tables),
    }
}
