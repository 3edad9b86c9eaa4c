// Reads one section from standard input and prints what it holds, or why it is refused. Where a read fails it prints `cannot read`; where
// the output is not taken whole, standard error gets `cannot write`. The exit status is 0 where what a section holds, or why it is refused,
// was written whole, and else 1.
#![tactic(auto)]

ghost use Rattle.std.specs.Prelude.{◌≡◌, ◌≤◌, IfSome, length};
ghost use Rattle.std.specs.Process.{exit_status};
ghost use Rattle.std.specs.Io.KnownBytes.{Appends};
ghost use Rattle.evidence_output.specs.Output.{output_of};

use evidence_output::input::read_full;
use std::io::{Read, Write};
use std::process::ExitCode;

// One byte more than is taken, so that longer input is seen to be too long.
const INPUT: usize = 65537;
// No output is longer.
const OUTPUT: usize = 103020;

// Writes a text whole, or says that it cannot.
fn tell<W: Write, E: Write>(to: &mut W, errors: &mut E, text: &[u8]) -> ExitCode
    ensures { exit_status result ≡ 0 → Appends (W.contents to.old) (W.contents to.new) text.now }
{
    if to.write_all(text).is_err() {
        let _ = errors.write_all(b"cannot write\n");
        return ExitCode::FAILURE;
    }
    ExitCode::SUCCESS
}

// Writes what there is to say of an input.
// Kept (6a): no heap: the output is an array as long as any needs.
fn answer<W: Write, E: Write>(to: &mut W, errors: &mut E, input: &[u8]) -> ExitCode
    ensures { exit_status result ≡ 0 →
        (length input.now ≤ 65536) × Appends (W.contents to.old) (W.contents to.new) (output_of input.now) }
{
    let mut output = [0u8; OUTPUT];
    let written = evidence_output::evidence(input, &mut output);
    let told = tell(to, errors, &output[..written]);
    if input.len() < INPUT {
        told
    } else {
        ExitCode::FAILURE
    }
}

// The program's work, whatever it reads from and writes to.
// Kept (6a): as answer: the input is an array.
fn run<R: Read, W: Write, E: Write>(from: &mut R, to: &mut W, errors: &mut E) -> ExitCode
    ensures { exit_status result ≡ 0 → IfSome (R.remaining from.old)
        (λ s. (length s ≤ 65536) × Appends (W.contents to.old) (W.contents to.new) (output_of s)) }
{
    let mut input = [0u8; INPUT];
    let Ok(len) = read_full(from, &mut input) else {
        tell(to, errors, b"cannot read\n");
        return ExitCode::FAILURE;
    };
    answer(to, errors, &input[..len])
}

fn main(rt: HostRuntime) -> ExitCode {
    run(&mut rt.stdin(), &mut rt.stdout(), &mut rt.stderr())
}
