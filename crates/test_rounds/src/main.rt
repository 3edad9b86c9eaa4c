// Takes the sections of a list from standard input by rounds and by the decoder, each by the four or by a table of rules, and prints of the rounds how
// many proofs are marked, or the refusal, the whole lent table and how many entries of the two tables of starts are filled; then what the decoder
// says, and its table of depths. tools/rounds/make.py writes the list, and what is to be printed by plain lines of its own.
#![tactic(auto)]

ghost use Rattle.std.specs.Prelude.{Some, ◌≡◌, ◌<◌, length};

use evr0::section::decode_evr0_by;
use evr0_rounds::section::depth_by_rounds;
use evr0_rules::settle::Rules;
use local_format::field::LittleEndian;
use local_format::refusal::Refusal;

const STDIN: i32 = 0;

const LIST: usize = 131072;

const ENTRIES: usize = 300;

// What a lent table holds before the call.
const OLD: u64 = 11936128518282651045;

fn show_numbers(out: &impl Print, numbers: &[u64]) -> std::io::Result<()> {
    for number in numbers {
        print!(out; " {number}")?;
    }
    Ok(())
}

// How many entries are no zero.
fn filled(table: &[u64]) -> usize {
    table.iter().filter(|entry| **entry != 0).count()
}

fn show_refusal(out: &impl Print, refused: Refusal) -> std::io::Result<()> {
    print!(out; "refused {} {}:", refused.number, refused.offset)
}

fn by_rounds(
    out: &impl Print,
    rules: Rules,
    input: &[u8],
    rounds: &mut [u64],
) -> std::io::Result<()> {
    let mut propositions = [OLD; ENTRIES];
    let mut proofs = [OLD; ENTRIES];
    let found = depth_by_rounds(rules, input, 0, &mut propositions, &mut proofs, rounds);
    match found {
        Ok(marked) => print!(out; "marked {} {}:", marked.proofs, marked.cursor)?,
        Err(refused) => show_refusal(out, refused)?,
    }
    show_numbers(out, rounds)?;
    println!(out; "; {} {}", filled(&propositions), filled(&proofs))
}

fn by_decoder(
    out: &impl Print,
    rules: Rules,
    input: &[u8],
    depths: &mut [u64],
) -> std::io::Result<()> {
    let mut propositions = [OLD; ENTRIES];
    let mut proofs = [OLD; ENTRIES];
    let decoded = decode_evr0_by(rules, input, 0, &mut propositions, &mut proofs, depths);
    match decoded.outcome {
        Ok(_) => print!(out; "accepted:")?,
        Err(refused) => show_refusal(out, refused)?,
    }
    show_numbers(out, depths)?;
    println!(out;)
}

// An entry of the list, and what comes after it.
#[derive(Clone, Copy)]
struct Entry<'a> {
    lent: usize,
    table: &'a [u8],
    input: &'a [u8],
    rest: &'a [u8],
}

// The entry at the front of a list, if it is whole and no more is lent than there is: how many rounds are lent, how many bytes the table and the
// section have (2 bytes each), the table, and the section.
fn read_entry(list: &[u8]) -> Option<Entry>
    ensures { (e : _) → result ≡ Some e → length e.rest.now < length list.now }
{
    let sizes = list.first_chunk::<6>()?;
    let middle = 6 + u16::le_at(sizes, 2) as usize;
    let end = middle + u16::le_at(sizes, 4) as usize;
    let lent = u16::le_at(sizes, 0) as usize;
    if ENTRIES < lent {
        return None;
    }
    Some(Entry {
        lent,
        table: list.get(6..middle)?,
        input: list.get(middle..end)?,
        rest: list.get(end..)?,
    })
}

// No table means the four.
fn show(out: &impl Print, entry: Entry) -> std::io::Result<()> {
    let rules = if entry.table.is_empty() {
        Rules::Four
    } else {
        Rules::Table(entry.table)
    };
    let lent = entry.lent.min(ENTRIES);
    let mut rounds = [OLD; ENTRIES];
    by_rounds(out, rules, entry.input, &mut rounds[..lent])?;
    let mut depths = [OLD; ENTRIES];
    by_decoder(out, rules, entry.input, &mut depths[..lent])
}

fn main(rt: HostRuntime) {
    let mut list = [0u8; LIST];
    let len = io::read_full(STDIN, &mut list);
    let mut rest = &list[..len];
    while let Some(entry) = read_entry(rest) {
        let _ = show(&rt, entry); // the output is compared, and the status is 0 all the same
        rest = entry.rest;
    }
}
