// What an entry of the list asks: a decoder, the input, and the lengths of the lent tables.
use local_format::field::LittleEndian;

// 0 is a section, whose tables are those of propositions, proofs and depths; 1 is a block, with strings, symbols, paths and families; 2 is a
// file, with functions, strings, paths and families.
// Kept (1d): the byte of the list, matched once, in list.rt; an enum would be made of it by a match of its own.
#[derive(Clone, Copy)]
pub struct Asked<'a> {
    pub decoder: u8,
    pub revision: u16,
    pub origin: usize,
    pub lengths: [usize; 4],
    pub input: &'a [u8],
    // What is left of the list: the answer comes first.
    pub rest: &'a [u8],
}

// Decoder (1 byte), revision (2), cursor or base (8), four lengths (2 each), the input's length (4), and the input. None where the list is cut.
pub fn read_asked(list: &[u8]) -> Option<Asked> {
    let head = list.first_chunk::<23>()?;
    let end = 23 + u32::le_at(head, 19) as usize;
    Some(Asked {
        decoder: head[0],
        revision: u16::le_at(head, 1),
        origin: u64::le_at(head, 3) as usize,
        lengths: [
            u16::le_at(head, 11) as usize,
            u16::le_at(head, 13) as usize,
            u16::le_at(head, 15) as usize,
            u16::le_at(head, 17) as usize,
        ],
        input: list.get(23..end)?,
        rest: list.get(end..)?,
    })
}
