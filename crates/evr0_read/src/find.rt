// The place of a record by its number, in the payload of a section that is decoded anew first by the rules of a call.
ghost use Rattle.local_format.specs.Maps.{answer_out};
ghost use Rattle.evr0.specs.Answer.{lent_of};
ghost use Rattle.evr0_rules.specs.Maps.{given_out};
ghost use Rattle.evr0_read.specs.Asked.{AnswersBy};
ghost use Rattle.evr0_read.specs.Ask.{place_told};
ghost use Rattle.evr0_read.specs.Numbered.{entry_number};
ghost use Rattle.evr0_read.specs.Maps.{found_out};

use crate::numbered::Numbered;
use crate::table::payload_of;
use evr0::section::decode_evr0_by;
use evr0_head::counts::Counts;
use evr0_rules::settle::Rules;
use lent_table::clear;
use local_format::refusal::{Refusal, refuse};

// The section's schema, the cursor after it, its counts, and where the record starts in the payload.
// Kept (1a): the schema is the two bytes of the head, as the decoder's public answer holds it and hands it to C.
#[derive(Clone, Copy, Debug, PartialEq, Eq)]
pub struct Found {
    pub schema: u16,
    pub end: usize,
    pub counts: Counts,
    pub start: usize,
}

// The place of the record with a number; zeros in the lent tables where there is no such record.
pub fn find<N: Numbered>(
    rules: Rules,
    bytes: &[u8],
    cursor: usize,
    number: N,
    propositions: &mut [u64],
    proofs: &mut [u64],
    depths: &mut [u64],
) -> Result<Found, Refusal>
    ensures { AnswersBy (given_out rules.entry) (entry_number N.table (N.place number)) place_told bytes.now cursor
        (lent_of propositions.old proofs.old depths.old)
        (lent_of propositions.new proofs.new depths.new) (answer_out found_out result) }
{
    let decoded = decode_evr0_by(rules, bytes, cursor, propositions, proofs, depths);
    let end = decoded.cursor;
    let accepted = decoded.outcome?;
    let schema = accepted.schema;
    let counts = accepted.counts;
    if N::count(counts) <= number.place() {
        clear(propositions);
        clear(proofs);
        clear(depths);
        return Err(refuse(62, 0));
    }
    let len = payload_of(bytes, cursor, end).len();
    let start = number.start(len, schema, counts, propositions, proofs);
    Ok(Found {
        schema,
        end,
        counts,
        start,
    })
}
