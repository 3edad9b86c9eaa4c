// Decodes the sections of a list from standard input, each with a table of marks of some length, and prints whether it is accepted, or its
// refusal, and the whole table; then, of the section decoded anew, whether its first proposition is authorised. tools/sections/make.py
// writes the list, and what is to be printed by plain lines of its own.
#![tactic(auto)]

ghost use Rattle.std.specs.Prelude.{Some, ◌≡◌, ◌<◌, length};

use evr0_authorised::authorised::authorised;
use evr0_fields::number::PropositionIndex;
use evr0_marks::section::decode_evr0_section;
use evr0_rules::settle::Rules;
use local_format::field::LittleEndian;

const STDIN: i32 = 0;

const LIST: usize = 65536;

const ENTRIES: usize = 256;

// What a lent table holds before the call.
const OLD: u64 = 11936128518282651045;

const OLD_BYTE: u8 = 165;

fn show_marks(out: &impl Print, marks: &[u8]) -> std::io::Result<()> {
    for mark in marks {
        print!(out; " {mark}")?;
    }
    Ok(())
}

fn show_decoded(out: &impl Print, input: &[u8], marks: &mut [u8]) -> std::io::Result<()> {
    let mut propositions = [OLD; ENTRIES];
    let mut proofs = [OLD; ENTRIES];
    let mut depths = [OLD; ENTRIES];
    let decoded = decode_evr0_section(input, 0, &mut propositions, &mut proofs, &mut depths, marks);
    match decoded.outcome {
        Ok(_) => print!(out; "accepted:")?,
        Err(refused) => print!(out; "refused {} {}:", refused.number, refused.offset)?,
    }
    show_marks(out, marks)
}

fn show_authorised(out: &impl Print, input: &[u8], marks: &mut [u8]) -> std::io::Result<()> {
    let mut propositions = [OLD; ENTRIES];
    let mut proofs = [OLD; ENTRIES];
    let mut depths = [OLD; ENTRIES];
    let answer = authorised(
        Rules::Four,
        input,
        0,
        PropositionIndex(0),
        &mut propositions,
        &mut proofs,
        &mut depths,
        marks,
    );
    match answer {
        Ok(true) => print!(out; "; authorised:")?,
        Ok(false) => print!(out; "; not:")?,
        Err(refused) => print!(out; "; refused {}:", refused.number)?,
    }
    show_marks(out, marks)?;
    println!(out;)
}

// An entry of the list, and what comes after it.
#[derive(Clone, Copy)]
struct Entry<'a> {
    lent: usize,
    section: &'a [u8],
    rest: &'a [u8],
}

// The entry at the front of a list, if it is whole: how many marks are lent (1 byte), how many bytes the section has (2), and the section.
fn read_entry(list: &[u8]) -> Option<Entry>
    ensures { (e : _) → result ≡ Some e → length e.rest.now < length list.now }
{
    let head = list.first_chunk::<3>()?;
    let end = 3 + u16::le_at(head, 1) as usize;
    Some(Entry {
        lent: head[0] as usize,
        section: list.get(3..end)?,
        rest: list.get(end..)?,
    })
}

// No more marks are lent than there are.
fn show(out: &impl Print, entry: Entry) -> std::io::Result<()> {
    let lent = entry.lent.min(ENTRIES);
    let mut marks = [OLD_BYTE; ENTRIES];
    show_decoded(out, entry.section, &mut marks[..lent])?;
    let mut again = [OLD_BYTE; ENTRIES];
    show_authorised(out, entry.section, &mut again[..lent])
}

fn main(rt: HostRuntime) {
    let mut list = [0u8; LIST];
    let len = io::read_full(STDIN, &mut list);
    let mut rest = &list[..len];
    while let Some(entry) = read_entry(rest) {
        let _ = show(&rt, entry); // the output is compared, and the status is 0 all the same
        rest = entry.rest;
    }
}
