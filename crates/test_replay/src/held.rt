// An answer held against the front of a list: what is left of the list where it is the same, else none.
use local_format::field::{Field, field_at};
use local_format::refusal::Refusal;
use semcode_records::symbol::DecodedDebugSymbol;

// A field of an answer, or an entry of a lent table.
pub trait Entry: Copy {
    // What is left of a list that has the entry at its front.
    fn held<'a>(self, list: &'a [u8]) -> Option<&'a [u8]>;

    // As every entry past the count is.
    fn is_zero(self) -> bool;
}

// A field of an answer.
impl Entry for usize {
    fn held<'a>(self, list: &'a [u8]) -> Option<&'a [u8]> {
        number(list, self)
    }

    fn is_zero(self) -> bool {
        self == 0
    }
}

// A start or a depth.
impl Entry for u64 {
    fn held<'a>(self, list: &'a [u8]) -> Option<&'a [u8]> {
        number(list, self as usize)
    }

    fn is_zero(self) -> bool {
        self == 0
    }
}

// A family, as it is.
impl Entry for u8 {
    fn held<'a>(self, list: &'a [u8]) -> Option<&'a [u8]> {
        bytes(list, &[self])
    }

    fn is_zero(self) -> bool {
        self == 0
    }
}

impl Entry for DecodedDebugSymbol {
    fn held<'a>(self, list: &'a [u8]) -> Option<&'a [u8]> {
        numbers(list, &[self.pc, self.line as usize, self.col as usize])
    }

    fn is_zero(self) -> bool {
        self.pc == 0 && self.line == 0 && self.col == 0
    }
}

// A number, which has 4 bytes in the list.
fn number(list: &[u8], value: usize) -> Option<&[u8]> {
    let Field {
        value: stored,
        next,
    } = field_at::<u32>(list, 0)?;
    if stored as usize == value {
        list.get(next..)
    } else {
        None
    }
}

// What is left of a list that has these entries at its front.
// Kept (6d): the list is read from the front and answered as what is left of it: `?` after each field is the cursor.
pub fn numbers<'a, T: Entry>(list: &'a [u8], values: &[T]) -> Option<&'a [u8]> {
    let mut rest = list;
    for value in values {
        rest = value.held(rest)?;
    }
    Some(rest)
}

// Bytes as they are.
pub fn bytes<'a>(list: &'a [u8], value: &[u8]) -> Option<&'a [u8]> {
    list.strip_prefix(value)
}

// A lent table, whole: the list's entries below the count, zeros from there on.
// Kept (6d): a lent table has zeros past its count, which are compared too: a slice of the counted part would drop them.
pub fn table<'a, T: Entry>(list: &'a [u8], table: &[T], count: usize) -> Option<&'a [u8]> {
    let (front, past) = table.split_at(count.min(table.len()));
    let rest = numbers(list, front)?;
    past.iter().all(|entry| entry.is_zero()).then_some(rest)
}

// A refusal's number, kind and offset.
pub fn refusal(list: &[u8], refused: Refusal) -> Option<&[u8]> {
    numbers(
        list,
        &[
            refused.number as usize,
            refused.kind as usize,
            refused.offset % 4294967296,
            refused.offset / 4294967296,
        ],
    )
}
