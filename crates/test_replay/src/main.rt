// Replays a list of inputs with their answers, from standard input, up to the first that the decoders answer otherwise, and prints how many
// answers agree. Inputs count from 0. tools/replay/make_list.py writes the list.
#![tactic(auto)]

mod asked;
mod block;
mod functions;
mod held;
mod list;
mod section;

const STDIN: i32 = 0;

const PAGE: usize = 262144;

const PAGES: usize = 24;

// The next page of the list.
fn page() -> Result<usize, usize> {
    let mut list = [0u8; PAGE];
    let n = io::read_full(STDIN, &mut list);
    crate::list::replay(&list[..n])
}

// Up to so many pages; those past the end of the list are empty.
fn pages() -> Result<usize, usize> {
    let mut same: usize = 0;
    for _ in 0..PAGES {
        match page() {
            Ok(more) => same = same.saturating_add(more),
            Err(more) => return Err(same.saturating_add(more)),
        }
    }
    Ok(same)
}

fn show(out: &impl Print, agree: Result<usize, usize>) -> std::io::Result<()> {
    match agree {
        Ok(same) => println!(out; "{same} answers agree"),
        Err(same) => println!(out; "{same} answers agree, not that of input {same}"),
    }
}

fn main(rt: HostRuntime) {
    let _ = show(&rt, pages()); // the output is compared, and the status is 0 all the same
}
