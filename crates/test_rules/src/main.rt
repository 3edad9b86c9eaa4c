// Decodes the sections of a list from standard input, each by the rules of a table, and prints whether it is accepted, or the refusal of the
// table or of the section, and the whole table of depths. tools/rules/make.py writes the list, and what is to be printed by plain lines of its
// own.
#![tactic(auto)]

ghost use Rattle.std.specs.Prelude.{Some, ◌≡◌, ◌<◌, length};

use evr0::section::decode_evr0_by;
use evr0_rules::settle::Rules;
use local_format::field::LittleEndian;

const STDIN: i32 = 0;

const LIST: usize = 65536;

const ENTRIES: usize = 8;

// What a lent table holds before the call.
const OLD: u64 = 11936128518282651045;

// Kept (2d): each program prints the answer of another function, with other fields and words.
fn show(out: &impl Print, entry: Entry) -> std::io::Result<()> {
    let mut propositions = [OLD; ENTRIES];
    let mut proofs = [OLD; ENTRIES];
    let mut depths = [OLD; ENTRIES];
    let decoded = decode_evr0_by(
        Rules::Table(entry.table),
        entry.input,
        0,
        &mut propositions,
        &mut proofs,
        &mut depths,
    );
    match decoded.outcome {
        Ok(_) => print!(out; "accepted:")?,
        Err(refused) => print!(out; "refused {} {}:", refused.number, refused.offset)?,
    }
    for depth in depths {
        print!(out; " {depth}")?;
    }
    println!(out;)
}

// An entry of the list, and what comes after it.
#[derive(Clone, Copy)]
struct Entry<'a> {
    table: &'a [u8],
    input: &'a [u8],
    rest: &'a [u8],
}

// The entry at the front of a list, if it is whole: how many bytes the table and the section have (2 bytes each), the table, and the section.
fn read_entry(list: &[u8]) -> Option<Entry>
    ensures { (e : _) → result ≡ Some e → length e.rest.now < length list.now }
{
    let sizes = list.first_chunk::<4>()?;
    let middle = 4 + u16::le_at(sizes, 0) as usize;
    let end = middle + u16::le_at(sizes, 2) as usize;
    Some(Entry {
        table: list.get(4..middle)?,
        input: list.get(middle..end)?,
        rest: list.get(end..)?,
    })
}

fn main(rt: HostRuntime) {
    let mut list = [0u8; LIST];
    let len = io::read_full(STDIN, &mut list);
    let mut rest = &list[..len];
    while let Some(entry) = read_entry(rest) {
        let _ = show(&rt, entry); // the output is compared, and the status is 0 all the same
        rest = entry.rest;
    }
}
