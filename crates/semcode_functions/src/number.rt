// A function by number. The file is decoded anew first.
ghost use Rattle.local_format.specs.Maps.{answer_out};
ghost use Rattle.semcode_records.specs.Maps.{taken_out};
ghost use Rattle.semcode_functions.specs.File.{file_tables};
ghost use Rattle.semcode_functions.specs.Number.{head_in, ReadsFunction};
ghost use Rattle.semcode_functions.specs.Maps.{head_is};

use crate::functions::{clear_all, read_functions};
use crate::head::{Head, read_function};
use local_format::field::Field;
use local_format::refusal::{Refusal, refuse};
use semcode_decode::decode::ANY_SYMBOLS;

// Kept (2d): as semcode_read's four, `string_number` and the others, over a file in place of a block.
pub fn function_number(
    bytes: &[u8],
    cursor: usize,
    header_rev: u16,
    number: usize,
    functions: &mut [u64],
    strings: &mut [u64],
    paths: &mut [u64],
    families: &mut [u8],
) -> Result<Field<Head>, Refusal>
    ensures { ReadsFunction head_in number cursor header_rev bytes.now
        (file_tables functions.old strings.old paths.old families.old)
        (file_tables functions.new strings.new paths.new families.new) (answer_out (taken_out head_is) result) }
{
    let found = read_functions(
        bytes,
        cursor,
        header_rev,
        ANY_SYMBOLS,
        functions,
        strings,
        paths,
        families,
    )?;
    if number < found.functions {
        return read_function(bytes, functions[number] as usize);
    }
    clear_all(functions, strings, paths, families);
    Err(refuse(62, 0))
}
