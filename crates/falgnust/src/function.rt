// A function of a file at its start, and by number, for which the file is decoded anew.
ghost use Rattle.std.specs.Prelude.{◌≡◌};
ghost use Rattle.local_format.specs.Maps.{answer_out};
ghost use Rattle.semcode_records.specs.Maps.{taken_out};
ghost use Rattle.semcode_functions.specs.Function.{head_at};
ghost use Rattle.semcode_functions.specs.File.{file_tables};
ghost use Rattle.semcode_functions.specs.Number.{head_in, ReadsFunction};
ghost use Rattle.semcode_functions.specs.Maps.{head_is};
ghost use Rattle.falgnust.specs.FunctionMaps.{flat_function};

use crate::refusal::{Answer, Refusal};
use crate::span::Span;
use local_format::field::Field;
use semcode_functions::head::{Head, read_function};
use semcode_functions::number::function_number;

// The name, where the block starts and how long it is, and the place after it; or a refusal, with zeros beside it.
// Kept (1a): callers in C read a flag and the values beside it.
#[repr(C)]
#[derive(Clone, Copy, Debug, Default, PartialEq, Eq)]
pub struct Function {
    pub accepted: bool,
    pub refusal: Refusal,
    pub name: Span,
    pub code_offset: usize,
    pub code_len: usize,
    pub next: usize,
}

impl From<Answer<Field<Head>>> for Function {
    ghost from_gives = { λ read f. f ≡ flat_function (answer_out (taken_out head_is) read) };

    fn from(read: Answer<Field<Head>>) -> Function {
        match read {
            Ok(Field { value: head, next }) => Function {
                accepted: true,
                name: head.name.into(),
                code_offset: head.code,
                code_len: head.size,
                next,
                ..Function::default()
            },
            Err(refused) => Function {
                refusal: refused.into(),
                ..Function::default()
            },
        }
    }
}

#[unsafe(no_mangle)]
pub extern "C" fn falgnust_read_function(bytes: &[u8], at: usize) -> Function
    ensures { result ≡ flat_function (head_at bytes.now at) }
{
    read_function(bytes, at).into()
}

#[tactic(auto, using(semcode_functions::proofs::FileLaws::mapped))]
#[unsafe(no_mangle)]
pub extern "C" fn falgnust_function_number(
    bytes: &[u8],
    cursor: usize,
    header_rev: u16,
    number: usize,
    functions: &mut [u64],
    strings: &mut [u64],
    paths: &mut [u64],
    families: &mut [u8],
) -> Function
    ensures { ReadsFunction (λ x. flat_function (head_in x)) number cursor header_rev bytes.now
        (file_tables functions.old strings.old paths.old families.old)
        (file_tables functions.new strings.new paths.new families.new) result }
{
    function_number(
        bytes, cursor, header_rev, number, functions, strings, paths, families,
    )
    .into()
}
