// Writes the sections of a list from standard input by column, or takes columns back, each into an output of some length, and prints the length
// written, or the refusal, and the whole output. tools/columns/make.py writes the list, and what is to be printed by plain lines of its own.
#![tactic(auto)]

ghost use Rattle.std.specs.Prelude.{Some, ◌≡◌, ◌<◌, length};

use columns_take::take::take_columns;
use columns_write::write::write_columns;
use evr0_rules::settle::Rules;
use local_format::field::LittleEndian;

const STDIN: i32 = 0;

const LIST: usize = 65536;

const OUTPUT: usize = 1024;

const ENTRIES: usize = 8;

// What a lent table holds before the call.
const OLD: u64 = 11936128518282651045;

const OLD_BYTE: u8 = 165;

// An entry of the list, and what comes after it. Columns are taken back, a section is written as its columns.
#[derive(Clone, Copy)]
struct Entry<'a> {
    is_columns: bool,
    lent: usize,
    bytes: &'a [u8],
    rest: &'a [u8],
}

// The entry at the front of a list, if it is whole and no more is lent than there is: whether it is columns (1 byte), how long the output is and how
// many bytes there are (2 each), and these.
// Kept (2d): each program's list has entries of other fields: what is alike are the library's `first_chunk` and `get`.
fn read_entry(list: &[u8]) -> Option<Entry>
    ensures { (e : _) → result ≡ Some e → length e.rest.now < length list.now }
{
    let head = list.first_chunk::<5>()?;
    let end = 5 + u16::le_at(head, 3) as usize;
    let lent = u16::le_at(head, 1) as usize;
    if OUTPUT < lent {
        return None;
    }
    Some(Entry {
        is_columns: head[0] != 0,
        lent,
        bytes: list.get(5..end)?,
        rest: list.get(end..)?,
    })
}

// Kept (7d): one `if` on `is_columns`; the two functions have other parameters, so a closure for each would be made by the same `if`.
fn show(out: &impl Print, entry: Entry) -> std::io::Result<()> {
    let mut propositions = [OLD; ENTRIES];
    let mut proofs = [OLD; ENTRIES];
    let mut depths = [OLD; ENTRIES];
    let mut output = [OLD_BYTE; OUTPUT];
    let lent = &mut output[..entry.lent.min(OUTPUT)];
    let answer = if entry.is_columns {
        take_columns(
            Rules::Four,
            entry.bytes,
            &mut propositions,
            &mut proofs,
            &mut depths,
            lent,
        )
    } else {
        write_columns(
            Rules::Four,
            entry.bytes,
            0,
            &mut propositions,
            &mut proofs,
            &mut depths,
            lent,
        )
    };
    match answer {
        Ok(length) => print!(out; "written {length}:")?,
        Err(refused) => print!(out; "refused {} {}:", refused.number, refused.offset)?,
    }
    for byte in lent {
        print!(out; " {byte}")?;
    }
    println!(out;)
}

// Kept (2d): a list, its length and its entries are each program's own; a crate for the five lines of the loop would take all of them as parameters.
fn main(rt: HostRuntime) {
    let mut list = [0u8; LIST];
    let len = io::read_full(STDIN, &mut list);
    let mut rest = &list[..len];
    while let Some(entry) = read_entry(rest) {
        let _ = show(&rt, entry); // the output is compared, and the status is 0 all the same
        rest = entry.rest;
    }
}
