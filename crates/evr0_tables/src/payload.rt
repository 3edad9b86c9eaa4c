// The head and the tables of a payload.
ghost use Rattle.std.specs.Prelude.{◌≡◌, ◌≤◌, length};
ghost use Rattle.local_format.specs.Maps.{answer_out};
ghost use Rattle.evr0_section.specs.Head as of;
ghost use Rattle.evr0_section.specs.Head.{span_width};
ghost use Rattle.evr0_section.specs.Section.{rest_after, tables_after, tables_of};
ghost use Rattle.evr0_head.specs.Maps.{counts_out};
ghost use Rattle.evr0_rules.specs.Maps.{book_rules};
ghost use Rattle.evr0_tables.specs.LentTables.{room_of};
ghost use Rattle.evr0_tables.specs.LentMaps.{tables_out, SameTables};
ghost use Rattle.evr0_tables.specs.PayloadMaps.{under, parents_in, places_out, payload_out, Begins, Reads};

use crate::lent::Tables;
use crate::tables::{read_parents, read_proofs, read_propositions, read_witnesses};
use evr0_head::counts::Counts;
use evr0_head::head::{Head, Room, read_checked_head};
use evr0_rules::settle::Rulebook;
use lent_table::clear_from;
use local_format::field::Field;
use local_format::refusal::{Refusal, check};

// The head of a payload, and the places of its witnesses and of its parents.
#[derive(Clone, Copy, Debug, PartialEq, Eq)]
pub struct Payload<'a> {
    pub head: Head<'a>,
    pub witnesses_at: usize,
    pub parents_at: usize,
}

// The places of the witnesses and of the parents.
#[derive(Clone, Copy, Debug, PartialEq, Eq)]
pub struct Places {
    pub witnesses_at: usize,
    pub parents_at: usize,
}

// The witnesses and the parents, from `at` to the payload's end: where the parents start.
fn read_rest(payload: &[u8], schema: u16, counts: Counts, at: usize) -> Result<usize, Refusal>
    requires { (counts.parents ≤ 262144) × (at ≤ length payload.now) }
    ensures { answer_out (λ n. n) result ≡ parents_in (rest_after (span_width schema) (counts_out counts) payload.now at) }
{
    let parents_at = read_witnesses(payload, schema, counts, at)?;
    let end = read_parents(payload, counts.parents, parents_at)?;
    check(end == payload.len(), 24, end)?;
    Ok(parents_at)
}

// The four tables from `at` on, with the starts of the propositions and of the proofs, and the polarities that the proofs' rules ask, at the front of the
// lent tables.
fn read_four(
    rules: &Rulebook,
    payload: &[u8],
    schema: u16,
    counts: Counts,
    at: usize,
    tables: &mut Tables,
) -> Result<Places, Refusal>
    requires room { (counts.propositions ≤ length tables.old.propositions.now) × (counts.proofs ≤ length tables.old.proofs.now)
        × (counts.proofs ≤ length tables.old.depths.now) }
    requires bounds { (counts.parents ≤ 262144) × (at ≤ length payload.now) }
    ensures same { SameTables tables.old tables.new }
    ensures begins { (head : of.Head)
        → Begins (under head (tables_after (book_rules rules.now) (span_width schema) (counts_out counts) payload.now at))
        (tables_out tables.old) (tables_out tables.new) (answer_out (places_out head) result) }
{
    let propositions = &mut tables.propositions[..counts.propositions];
    let proofs_at = read_propositions(payload, at, propositions)?;
    let Field {
        value: unowned,
        next: witnesses_at,
    } = read_proofs(
        rules,
        payload,
        counts,
        proofs_at,
        tables.proofs,
        tables.depths,
    )?;
    let owned = (unowned.witness == counts.witnesses) & (unowned.parent == counts.parents);
    check(owned, 22, witnesses_at)?;
    let parents_at = read_rest(payload, schema, counts, witnesses_at)?;
    Ok(Places {
        witnesses_at,
        parents_at,
    })
}

// The same, with zeros past the starts, and past the polarities what stood there; a refusal leaves zeros in all three tables.
// Kept (5a): a caller brings a schema, counts and a place of its own; a `Head` would ask it for eight fields more, which are read by none of these.
// Kept (5d): `at ≤ length payload.now`: a struct of payload and place with this fact would be taken apart by each of seven readers, and made anew, with its
// proof, for each later table.
pub fn read_tables(
    rules: &Rulebook,
    payload: &[u8],
    schema: u16,
    counts: Counts,
    at: usize,
    tables: &mut Tables,
) -> Result<Places, Refusal>
    requires room { (counts.propositions ≤ length tables.old.propositions.now) × (counts.proofs ≤ length tables.old.proofs.now)
        × (counts.proofs ≤ length tables.old.depths.now) }
    requires bounds { (counts.parents ≤ 262144) × (at ≤ length payload.now) }
    ensures same { SameTables tables.old tables.new }
    ensures reads { (head : of.Head)
        → Reads (under head (tables_after (book_rules rules.now) (span_width schema) (counts_out counts) payload.now at))
        (tables_out tables.old) (tables_out tables.new) (answer_out (places_out head) result) }
{
    let read = read_four(rules, payload, schema, counts, at, tables);
    match read {
        Ok(_) => {
            clear_from(tables.propositions, counts.propositions);
            clear_from(tables.proofs, counts.proofs);
        }
        Err(_) => tables.clear(),
    }
    read
}

// The head and the four tables. A refusal leaves zeros in all three lent tables.
pub fn read_payload<'p>(
    rules: &Rulebook,
    payload: &'p [u8],
    tables: &mut Tables,
) -> Result<Payload<'p>, Refusal>
    ensures same { SameTables tables.old tables.new }
    ensures reads { Reads (tables_of (book_rules rules.now) (room_of (tables_out tables.old)) payload.now)
        (tables_out tables.old) (tables_out tables.new) (answer_out payload_out result) }
{
    let room = Room {
        propositions: tables.propositions.len(),
        proofs: tables.proofs.len(),
        depths: tables.depths.len(),
    };
    match read_checked_head(payload, room) {
        Ok(head) => {
            let places = read_tables(rules, payload, head.schema, head.counts, head.next, tables)?;
            Ok(Payload {
                head,
                witnesses_at: places.witnesses_at,
                parents_at: places.parents_at,
            })
        }
        Err(refusal) => {
            tables.clear();
            Err(refusal)
        }
    }
}
