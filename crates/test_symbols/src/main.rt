// Lends a list of four debug symbols, with old entries in it, and prints it after three blocks: one with two symbols, one whose second
// symbol is cut, and one with five symbols.
#![tactic(auto)]

use semcode_records::symbol::DecodedDebugSymbol;
use semcode_symbols::parse_string_table_debug_and_ownership;

// What the lent list holds before a call.
const OLD: DecodedDebugSymbol = DecodedDebugSymbol {
    pc: 9,
    line: 9,
    col: 9,
};

// The list after a block at base 0, at the last revision without signatures.
fn show(out: &impl Print, title: &str, code: &[u8]) -> std::io::Result<()> {
    let mut symbols = [OLD; 4];
    let mut strings = [0u64; 4];
    let mut paths = [0u64; 4];
    let mut families = [0u8; 4];
    let _ = parse_string_table_debug_and_ownership(
        0,
        code,
        19,
        &mut symbols,
        &mut strings,
        &mut paths,
        &mut families,
    );
    println!(out; "{title}")?;
    for symbol in symbols {
        println!(out; "{} {} {}", symbol.pc, symbol.line, symbol.col)?;
    }
    Ok(())
}

fn show_all(out: &impl Print) -> std::io::Result<()> {
    // No strings, DBG0, two symbols: pc, line and column 7, 8, 9 and 258, 3, 4.
    let two = [
        0u8, 0, 68, 66, 71, 48, 2, 0, 7, 0, 0, 0, 8, 0, 0, 0, 9, 0, 2, 1, 0, 0, 3, 0, 0, 0, 4, 0,
    ];
    show(out, "two symbols", &two)?;
    show(out, "the second cut", &two[..27])?;
    let mut five = [1u8; 58];
    five[..8].copy_from_slice(&[0, 0, 68, 66, 71, 48, 5, 0]);
    show(out, "five symbols", &five)
}

fn main(rt: HostRuntime) {
    let _ = show_all(&rt); // the output is compared, and the status is 0 all the same
}
