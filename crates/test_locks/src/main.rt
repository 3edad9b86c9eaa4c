// A register of locks, from zeros: two owners, a borrow beside a borrow, a write that is refused and, after a release, accepted; then two suppliers with
// equal symbols. Each line is a call and its answer; at the end stand the locks that are held.
#![tactic(auto)]

use local_format::refusal::Refusal;
use lock_register::read::{held, lock_number, lock_part};
use lock_register::release::release;
use lock_words::source::source_bytes;
use locks::claim::claim;

fn show_refusal(out: &impl Print, refused: Refusal) -> std::io::Result<()> {
    println!(out; "refused {} at {}", refused.number, refused.offset)
}

// A claim of the paths of a block at base 100, at the last revision without signatures.
fn claims(
    out: &impl Print,
    register: &mut [u64; 6145],
    title: &str,
    owner: u32,
    code: &[u8],
    source: &[u8; 32],
) -> std::io::Result<()> {
    let mut strings = [9u64; 2];
    let mut paths = [9u64; 2];
    let mut families = [9u8; 2];
    let answer = claim(
        register,
        owner,
        100,
        code,
        19,
        source,
        &mut strings,
        &mut paths,
        &mut families,
    );
    print!(out; "owner {owner} {title}: ")?;
    match answer {
        Ok(held) => println!(out; "held {held}"),
        Err(refused) => show_refusal(out, refused),
    }
}

fn releases(out: &impl Print, register: &mut [u64; 6145], owner: u32) -> std::io::Result<()> {
    let held = release(register, owner);
    println!(out; "owner {owner} releases: held {held}")
}

fn show_part(
    out: &impl Print,
    register: &[u64; 6145],
    lock: usize,
    part: usize,
) -> std::io::Result<()> {
    match lock_part(register, lock, part) {
        Ok(p) => print!(out; ", component {} {} {}", p.kind, p.first, p.second),
        Err(refused) => show_refusal(out, refused),
    }
}

fn show_lock(out: &impl Print, register: &[u64; 6145], i: usize) -> std::io::Result<()> {
    match lock_number(register, i) {
        Ok(lock) => {
            let access = if lock.write { "write" } else { "borrow" };
            let set = source_bytes(lock.source);
            print!(out;
                "lock {i}: owner {}, {access}, root {} of {}",
                lock.owner, lock.symbol, set[31]
            )?;
            for part in 0..lock.parts {
                show_part(out, register, i, part)?;
            }
            println!(out;)
        }
        Err(refused) => show_refusal(out, refused),
    }
}

fn show_all(out: &impl Print) -> std::io::Result<()> {
    let mut register = [0u64; 6145];
    let one = [1u8; 32];
    // No strings, OWN0, one path: a borrow of root 7 without components, and with field 3.
    let all = [0u8, 0, 79, 87, 78, 48, 1, 0, 0, 7, 0, 0, 0, 0, 0];
    let field = [
        0u8, 0, 79, 87, 78, 48, 1, 0, 0, 7, 0, 0, 0, 1, 0, 1, 3, 0, 0, 0,
    ];
    claims(out, &mut register, "borrows root 7", 1, &all, &one)?;
    claims(out, &mut register, "borrows its field 3", 2, &field, &one)?;
    let mut write = field;
    write[8] = 1;
    claims(out, &mut register, "writes its field 3", 2, &write, &one)?;
    releases(out, &mut register, 1)?;
    claims(out, &mut register, "writes its field 3", 2, &write, &one)?;
    claims(out, &mut register, "borrows root 7", 1, &all, &one)?;
    let mut other = field;
    other[16] = 4;
    claims(out, &mut register, "borrows its field 4", 1, &other, &one)?;
    claims(
        out,
        &mut register,
        "brings a path that is cut",
        1,
        &field[..19],
        &one,
    )?;
    // The other supplier's set differs in its last byte.
    let mut two = one;
    two[31] = 2;
    claims(
        out,
        &mut register,
        "writes field 3 of the other supplier",
        3,
        &write,
        &two,
    )?;
    claims(
        out,
        &mut register,
        "writes field 3 of the first",
        3,
        &write,
        &one,
    )?;
    for i in 0..held(&register) {
        show_lock(out, &register, i)?;
    }
    show_lock(out, &register, 4)
}

fn main(rt: HostRuntime) {
    let _ = show_all(&rt); // the output is compared, and the status is 0 all the same
}
