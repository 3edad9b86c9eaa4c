// A search tree over the names of a table's rules, by words of eight bytes. Nothing is promised of it: a look-up tests the name of the rule that it finds.
ghost use Rattle.std.specs.Prelude.{◌<◌};

use local_format::field::LittleEndian;
use std::cmp::Ordering;

// Where a name's way goes on: nowhere, at a rule by its index, or at a node.
#[derive(Clone, Copy)]
pub enum Child {
    None,
    Rule(u8),
    Node(u8),
}

// A word of names at a place, and the children for names whose word there is lower, is this one, is higher.
#[derive(Clone, Copy)]
pub struct Node {
    pub word: u64,
    pub place: u8,
    pub children: [Child; 3],
}

// The place of the word by which a first child is found, the first children, the nodes, and how many of them are made.
// Kept (4d): 256 children and 32 nodes, lent by `&` and filled by `&mut`; with `Clone, Copy` a use by value would copy them all unseen.
// Kept (6a): decoders have no heap, so nodes name their children by index in place of `Box<Node>`.
#[derive(Drop)]
pub struct Tree {
    pub place: u8,
    pub first: [Child; 256],
    pub nodes: [Node; 32],
    pub made: usize,
}

// A child of the tree: a first one, or one of a node's.
// Kept (1d): both variants are places of a child; `Result<usize, (usize, usize)>` would call one of them an error.
#[derive(Clone, Copy)]
pub enum Slot {
    First(usize),
    Below(usize, usize),
}

// A number of all bytes of a name that has fewer than eight.
fn short_number(name: &[u8]) -> u64 {
    let len = name.len();
    if 4 <= len {
        return (u32::le_at(name, 0) as u64) + 4294967296 * (u32::le_at(name, len - 4) as u64);
    }
    if 1 <= len {
        return u32::from_le_bytes([name[0], name[len / 2], name[len - 1], 0]) as u64;
    }
    0
}

// Where fewer than eight bytes are at the place, the last eight; past the end, the length.
fn last_word(name: &[u8], place: usize) -> u64 {
    let len = name.len();
    if len <= place {
        return len as u64;
    }
    if len < 8 {
        return short_number(name);
    }
    u64::le_at(name, len - 8)
}

// The eight bytes of a name at a place, as a number. Names that differ do so at 0, 8, 16, .. or 64.
pub fn word_at(name: &[u8], place: u8) -> u64 {
    let start = place as usize;
    if start + 8 <= name.len() {
        return u64::le_at(name, start);
    }
    last_word(name, start)
}

// A number below 256 for a word; words of one table's names mostly have different ones.
pub fn below_256(word: u64) -> usize
    ensures { result < 256 }
{
    let low = (word ^ (word >> 31)) % 4294967296;
    (((low * 3039394381) >> 24) % 256) as usize
}

impl Node {
    // Which child a name's way goes on at.
    pub fn side(&self, name: &[u8]) -> usize
        ensures { result < 3 }
    {
        match word_at(name, self.place).cmp(&self.word) {
            Ordering::Less => 0,
            Ordering::Equal => 1,
            Ordering::Greater => 2,
        }
    }
}

impl Tree {
    pub const EMPTY: Tree = Tree {
        place: 0,
        first: [Child::None; 256],
        nodes: [Node {
            word: 0,
            place: 0,
            children: [Child::None; 3],
        }; 32],
        made: 0,
    };

    // The child at which a name's way ends, and where that child is.
    #[inline(always)]
    pub fn end(&self, name: &[u8]) -> (Child, Slot) {
        let number = below_256(word_at(name, self.place));
        let mut slot = Slot::First(number);
        let mut child = self.first[number];
        for _ in 0..32 {
            let Child::Node(at) = child else {
                break;
            };
            let at = (at % 32) as usize;
            let node = &self.nodes[at];
            let side = node.side(name);
            slot = Slot::Below(at, side);
            child = node.children[side];
        }
        (child, slot)
    }
}
