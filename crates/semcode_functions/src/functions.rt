// The loop over a file's functions.
ghost use Rattle.std.specs.Prelude.{◌≡◌, length};
ghost use Rattle.local_format.specs.Maps.{answer_out};
ghost use Rattle.semcode_decode.specs.Layout.{rooms};
ghost use Rattle.semcode_functions.specs.Function.{function_at, decode_functions};
ghost use Rattle.semcode_functions.specs.File.{file, file_tables, DecodesFile};
ghost use Rattle.semcode_functions.specs.Maps.{file_is, next_is};
ghost use Rattle.semcode_functions.specs.Turn.{BeginsFunction, BeginsFile, zeros, left_of};

use crate::head::read_function;
use lent_table::{clear, clear_from, copy_bytes};
use local_format::field::Field;
use local_format::part::tail;
use local_format::refusal::{Refusal, based, refuse};
use semcode_decode::decode::{StringTableDebugOwnershipParse, parse_tables};

pub const MAX_FUNCTIONS: usize = 1024;

// A function's block: where it starts in the file, and its counts, tags and places.
#[derive(Clone, Copy, Debug, PartialEq, Eq)]
pub struct FunctionBlock {
    pub code: usize,
    pub parsed: StringTableDebugOwnershipParse,
}

// How many functions there are, the cursor after them, and the last one's block.
#[derive(Clone, Copy, Debug, PartialEq, Eq)]
pub struct File {
    pub functions: usize,
    pub cursor: usize,
    pub last: Option<FunctionBlock>,
}

// ---- One function

// The head and the block. The block's starts stand at the front of the tables, and what stands past them is left; a refusal leaves zeros.
fn next_function(
    bytes: &[u8],
    at: usize,
    header_rev: u16,
    symbols: usize,
    strings: &mut [u64],
    paths: &mut [u64],
    families: usize,
) -> Result<Field<FunctionBlock>, Refusal>
    ensures { BeginsFunction
        (function_at header_rev (rooms (length strings.old) symbols (length paths.old) families) bytes.now at)
        strings.old paths.old strings.new paths.new (answer_out next_is result) }
{
    match read_function(bytes, at) {
        Ok(Field { value: head, next }) => {
            let code = head.code;
            let part = &bytes[code..next];
            match parse_tables(part, header_rev, symbols, strings, paths, families) {
                Ok(parsed) => Ok(Field {
                    value: FunctionBlock { code, parsed },
                    next,
                }),
                Err(refused) => Err(based(refused, code)),
            }
        }
        Err(refused) => {
            clear(strings);
            clear(paths);
            Err(refused)
        }
    }
}

// ---- All functions

// The starts stand at the front of the tables, and what stands past them is left; a refusal leaves zeros in those of a block. The loop goes by where
// each function ends.
// Kept (3d): it goes by where a function ends, and 65 is refused only where bytes are left after 1,024; a `for` would write the answer in it and behind it.
// Kept (5d): as `locks::claim` for three of them; the table of starts is of the file alone, so it would stand beside such a struct.
// Kept (5a): bytes, cursor and revision are the Rust's own parameters in front of them, in the order of C.
// Kept (6a): C lends the table of starts with its length; the answer says how many of its entries count.
fn each_function(
    bytes: &[u8],
    cursor: usize,
    header_rev: u16,
    symbols: usize,
    functions: &mut [u64],
    strings: &mut [u64],
    paths: &mut [u64],
    families: usize,
) -> Result<File, Refusal>
    ensures { BeginsFile cursor
        (decode_functions header_rev (rooms (length strings.old) symbols (length paths.old) families)
        (length functions.old) bytes.now cursor)
        functions.new strings.old paths.old strings.new paths.new (answer_out file_is result) }
{
    let mut at = cursor;
    let mut count: usize = 0;
    let mut last = None;
    while at < bytes.len() {
        if MAX_FUNCTIONS <= count {
            clear(strings);
            clear(paths);
            return Err(refuse(65, at));
        }
        if functions.len() <= count {
            clear(strings);
            clear(paths);
            return Err(refuse(61, at));
        }
        let Field {
            value: placed,
            next,
        } = next_function(bytes, at, header_rev, symbols, strings, paths, families)?;
        functions[count] = at as u64;
        last = Some(placed);
        at = next;
        count += 1;
    }
    Ok(File {
        functions: count,
        cursor: at,
        last,
    })
}

// Zeros in all four tables.
pub fn clear_all(functions: &mut [u64], strings: &mut [u64], paths: &mut [u64], families: &mut [u8])
    ensures { file_tables functions.new strings.new paths.new families.new ≡
        zeros (file_tables functions.old strings.old paths.old families.old) }
{
    clear(functions);
    clear(strings);
    clear(paths);
    clear(families);
}

// Zeros past the starts, and the last function's families.
// Kept (6a): the tables are C's, and `found` says how many entries of each count.
fn leave(
    found: File,
    bytes: &[u8],
    functions: &mut [u64],
    strings: &mut [u64],
    paths: &mut [u64],
    families: &mut [u8],
)
    ensures { file_tables functions.new strings.new paths.new families.new ≡
        left_of (file_is found) bytes.now
        (file_tables functions.old strings.old paths.old families.old) }
{
    clear_from(functions, found.functions);
    match found.last {
        Some(FunctionBlock { code, parsed }) => {
            clear_from(strings, parsed.string_count);
            clear_from(paths, parsed.path_count);
            copy_bytes(
                families,
                tail(bytes, code),
                parsed.families_start,
                parsed.parameter_count,
            );
        }
        None => {
            clear(strings);
            clear(paths);
            clear(families);
        }
    }
}

// The functions from a cursor to the end, with a lent list of so many symbols: their starts go to a lent table, the last one's
// string starts and path starts to two, and its families to a table of bytes. Each table is cleared once.
pub fn read_functions(
    bytes: &[u8],
    cursor: usize,
    header_rev: u16,
    symbols: usize,
    functions: &mut [u64],
    strings: &mut [u64],
    paths: &mut [u64],
    families: &mut [u8],
) -> Result<File, Refusal>
    ensures { DecodesFile (file cursor) cursor header_rev symbols bytes.now
        (file_tables functions.old strings.old paths.old families.old)
        (file_tables functions.new strings.new paths.new families.new) (answer_out file_is result) }
{
    let room = families.len();
    match each_function(
        bytes, cursor, header_rev, symbols, functions, strings, paths, room,
    ) {
        Ok(found) => {
            leave(found, bytes, functions, strings, paths, families);
            Ok(found)
        }
        Err(refused) => {
            clear(functions);
            clear(families);
            Err(refused)
        }
    }
}
