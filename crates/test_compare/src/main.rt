// Compares the pairs of sections of a list from standard input, each with a table of verdicts of some length, by the four or by a table of rules, and
// prints the totals, or whose refusal it is, and the verdicts; then the marks and the authorised propositions of either section, each table whole.
// tools/sections/pairs.py writes the list, and what is to be printed by plain lines of its own.
#![tactic(auto)]

ghost use Rattle.std.specs.Prelude.{Some, ◌≡◌, ◌<◌, length};

use compare_sections::compare::{Fault, compare_sections};
use evr0_rules::settle::Rules;
use local_format::field::LittleEndian;
use local_format::refusal::Refusal;
use section_pair::totals::Totals;

const STDIN: i32 = 0;

const LIST: usize = 131072;

const ENTRIES: usize = 8;

const VERDICTS: usize = 32;

// What a lent table holds before the call.
const OLD: u64 = 11936128518282651045;

const OLD_BYTE: u8 = 165;

// Kept (2d): three lines in three programs; one generic function for them would be a crate of its own, longer than the three.
fn show_bytes(out: &impl Print, bytes: &[u8]) -> std::io::Result<()> {
    for byte in bytes {
        print!(out; " {byte}")?;
    }
    Ok(())
}

fn show_refusal(out: &impl Print, whose: &str, refused: Refusal) -> std::io::Result<()> {
    print!(out; "{whose} refused {} {}", refused.number, refused.offset)
}

fn show_answer(out: &impl Print, answer: Result<Totals, Fault>) -> std::io::Result<()> {
    match answer {
        Ok(totals) => print!(out;
            "compared {} {} {} {}",
            totals.agreed, totals.contradicted, totals.first_only, totals.second_only
        ),
        Err(Fault::Rules(refused)) => show_refusal(out, "rules", refused),
        Err(Fault::First(refused)) => show_refusal(out, "first", refused),
        Err(Fault::Second(refused)) => show_refusal(out, "second", refused),
        Err(Fault::Pair(refused)) => show_refusal(out, "pair", refused),
    }
}

// The lent tables of a section.
#[derive(Clone, Copy)]
struct Tables {
    propositions: [u64; ENTRIES],
    proofs: [u64; ENTRIES],
    depths: [u64; ENTRIES],
    marks: [u8; ENTRIES],
    authorised: [u8; ENTRIES],
}

impl Tables {
    fn old() -> Tables {
        Tables {
            propositions: [OLD; ENTRIES],
            proofs: [OLD; ENTRIES],
            depths: [OLD; ENTRIES],
            marks: [OLD_BYTE; ENTRIES],
            authorised: [OLD_BYTE; ENTRIES],
        }
    }
}

// An entry of the list, and what comes after it.
#[derive(Clone, Copy)]
struct Entry<'a> {
    lent: usize,
    cursor: usize,
    table: &'a [u8],
    first: &'a [u8],
    second: &'a [u8],
    rest: &'a [u8],
}

// The entry at the front of a list, if it is whole and no more is lent than there is: how many verdicts are lent and the second section's cursor (1
// byte each), how many bytes the table of rules and both sections have (2 each), and these.
fn read_entry(list: &[u8]) -> Option<Entry>
    ensures { (e : _) → result ≡ Some e → length e.rest.now < length list.now }
{
    let head = list.first_chunk::<8>()?;
    let first = 8 + u16::le_at(head, 2) as usize;
    let second = first + u16::le_at(head, 4) as usize;
    let end = second + u16::le_at(head, 6) as usize;
    let lent = head[0] as usize;
    if VERDICTS < lent {
        return None;
    }
    Some(Entry {
        lent,
        cursor: head[1] as usize,
        table: list.get(8..first)?,
        first: list.get(first..second)?,
        second: list.get(second..end)?,
        rest: list.get(end..)?,
    })
}

// No table means the four.
fn show(out: &impl Print, entry: Entry) -> std::io::Result<()> {
    let rules = if entry.table.is_empty() {
        Rules::Four
    } else {
        Rules::Table(entry.table)
    };
    let mut first = Tables::old();
    let mut second = Tables::old();
    let mut verdicts = [OLD_BYTE; VERDICTS];
    let lent = &mut verdicts[..entry.lent.min(VERDICTS)];
    let answer = compare_sections(
        rules,
        entry.first,
        0,
        &mut first.propositions,
        &mut first.proofs,
        &mut first.depths,
        &mut first.marks,
        &mut first.authorised,
        entry.second,
        entry.cursor,
        &mut second.propositions,
        &mut second.proofs,
        &mut second.depths,
        &mut second.marks,
        &mut second.authorised,
        lent,
    );
    show_answer(out, answer)?;
    print!(out; ":")?;
    show_bytes(out, lent)?;
    for table in [
        first.marks,
        first.authorised,
        second.marks,
        second.authorised,
    ] {
        print!(out; ";")?;
        show_bytes(out, &table)?;
    }
    println!(out;)
}

fn main(rt: HostRuntime) {
    let mut list = [0u8; LIST];
    let len = io::read_full(STDIN, &mut list);
    let mut rest = &list[..len];
    while let Some(entry) = read_entry(rest) {
        let _ = show(&rt, entry); // the output is compared, and the status is 0 all the same
        rest = entry.rest;
    }
}
