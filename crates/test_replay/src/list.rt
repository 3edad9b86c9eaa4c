// The entries of a page of the list, one after the other.
use crate::asked::read_asked;

// A page of the list ends with its last entry or, where bytes follow, with this one.
const END: u8 = 255;

// What is left of the list after its first entry; none where the answer is not the same.
// Kept (7d): a `match` from the byte to its decoder is today's form; a table of functions would have none for bytes above 2, which the last arm takes.
fn entry(list: &[u8]) -> Option<&[u8]> {
    let asked = read_asked(list)?;
    match asked.decoder {
        0 => crate::section::section(asked),
        1 => crate::block::block(asked),
        _ => crate::functions::functions(asked),
    }
}

// How many answers were the same, up to the first that is not: an error has its number. No list has more entries than bytes.
// Kept (6d): the list is read from the front: what is left of it follows from each entry, so no iterator of slices has its entries.
pub fn replay(list: &[u8]) -> Result<usize, usize> {
    let mut rest = list;
    for same in 0..list.len() {
        if rest.first().is_none_or(|first| *first == END) {
            return Ok(same);
        }
        let Some(after) = entry(rest) else {
            return Err(same);
        };
        rest = after;
    }
    Ok(list.len())
}
