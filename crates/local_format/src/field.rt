// Numbers, their lowest byte first, at a place of a slice. The place may be any number.
ghost use Rattle.std.specs.Prelude.{◌≡◌, ◌+◌, ◌≤◌, ◌<◌, ℕ, length};
ghost use Rattle.std.proofs.Common.{rules};
ghost use Rattle.local_format.specs.Field.{le, field_at};
ghost use Rattle.local_format.specs.Maps.{field_out};

// What was read, a number or a record, and the place after it.
#[derive(Clone, Copy, Debug, PartialEq, Eq)]
pub struct Field<T> {
    pub value: T,
    pub next: usize,
}

// Numbers of fixed width, their lowest byte first.
pub trait LittleEndian: Copy {
    ghost number: { Self → ℕ };

    ghost WIDTH: { ℕ };

    const WIDTH: usize;

    // The number at a place where its bytes are there.
    fn le_at(bytes: &[u8], at: usize) -> Self
        requires { at + WIDTH ≤ length bytes.now }
        ensures { number result ≡ le WIDTH bytes.now at };

    // A number has a byte at least.
    ghost has_bytes: { 0 < WIDTH };
}

impl LittleEndian for u8 {
    ghost number = { λ n. n };

    ghost WIDTH = { 1 };

    const WIDTH: usize = 1;

    #[tactic(auto, using(crate::proofs::FieldLaws::le_1))]
    fn le_at(bytes: &[u8], at: usize) -> u8 {
        bytes[at]
    }

    ghost has_bytes = { Prim.search rules };
}

impl LittleEndian for u16 {
    ghost number = { λ n. n };

    ghost WIDTH = { 2 };

    const WIDTH: usize = 2;

    fn le_at(bytes: &[u8], at: usize) -> u16 {
        u16::from_le_bytes([bytes[at], bytes[at + 1]])
    }

    ghost has_bytes = { Prim.search rules };
}

impl LittleEndian for u32 {
    ghost number = { λ n. n };

    ghost WIDTH = { 4 };

    const WIDTH: usize = 4;

    fn le_at(bytes: &[u8], at: usize) -> u32 {
        u32::from_le_bytes([bytes[at], bytes[at + 1], bytes[at + 2], bytes[at + 3]])
    }

    ghost has_bytes = { Prim.search rules };
}

impl LittleEndian for u64 {
    ghost number = { λ n. n };

    ghost WIDTH = { 8 };

    const WIDTH: usize = 8;

    fn le_at(bytes: &[u8], at: usize) -> u64 {
        u64::from_le_bytes([
            bytes[at],
            bytes[at + 1],
            bytes[at + 2],
            bytes[at + 3],
            bytes[at + 4],
            bytes[at + 5],
            bytes[at + 6],
            bytes[at + 7],
        ])
    }

    ghost has_bytes = { Prim.search rules };
}

// The number at `at`: none where it passes the end.
#[tactic(auto, unfolding(crate::specs::Field::field_at))]
pub fn field_at<T: LittleEndian>(bytes: &[u8], at: usize) -> Option<Field<T>>
    ensures { field_out T.number result ≡ field_at T.WIDTH bytes.now at }
{
    if bytes.len().saturating_sub(at) < T::WIDTH {
        return None;
    }
    Some(Field {
        value: T::le_at(bytes, at),
        next: at + T::WIDTH,
    })
}
