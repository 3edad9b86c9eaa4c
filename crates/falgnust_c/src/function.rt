// A function of a file at its start, and by number, for which the file is decoded anew.
ghost use Rattle.std.specs.Prelude.{◌≡◌};
ghost use Rattle.semcode_functions.specs.Function.{head_at};
ghost use Rattle.semcode_functions.specs.File.{file_tables};
ghost use Rattle.semcode_functions.specs.Number.{head_in, ReadsFunction};
ghost use Rattle.falgnust.specs.FunctionMaps.{flat_function};

use falgnust::function::Function;

#[unsafe(no_mangle)]
pub extern "C" fn falgnust_read_function(bytes: &[u8], at: usize) -> Function
    ensures { result ≡ flat_function (head_at bytes.now at) }
{
    falgnust::function::falgnust_read_function(bytes, at)
}

#[unsafe(no_mangle)]
pub extern "C" fn falgnust_function_number(
    bytes: &[u8],
    cursor: usize,
    header_rev: u16,
    number: usize,
    functions: &mut [u64],
    strings: &mut [u64],
    paths: &mut [u64],
    families: &mut [u8],
) -> Function
    ensures { ReadsFunction (λ x. flat_function (head_in x)) number cursor header_rev bytes.now
        (file_tables functions.old strings.old paths.old families.old)
        (file_tables functions.new strings.new paths.new families.new) result }
{
    falgnust::function::falgnust_function_number(
        bytes, cursor, header_rev, number, functions, strings, paths, families,
    )
}
