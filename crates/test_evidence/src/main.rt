// Prints what `evidence` prints for two sections from standard input, the first of 295 bytes and the second of schema 2, for no bytes, and for one
// byte more than it takes.
#![tactic(auto)]

use evidence_output::input::read_full;
use std::io;
use std::io::Write;

const FIRST: usize = 295;

const INPUT: usize = 65537;

const OUTPUT: usize = 103020;

fn print(rt: &HostRuntime, input: &[u8]) -> io::Result<()> {
    let mut output = [0u8; OUTPUT];
    let written = evidence_output::evidence(input, &mut output);
    rt.stdout().write_all(&output[..written])
}

fn main(rt: HostRuntime) -> io::Result<()> {
    let mut first = [0u8; FIRST];
    let taken = read_full(&mut rt.stdin(), &mut first)?;
    print(&rt, &first[..taken])?;
    let mut input = [0u8; INPUT];
    let read = read_full(&mut rt.stdin(), &mut input)?;
    print(&rt, &input[..read])?;
    print(&rt, &input[..0])?;
    print(&rt, &input)
}
