// Zeros in a lent table, of 64-bit numbers or of bytes, and bytes copied into one.
#![tactic(auto)]

ghost use Rattle.std.specs.Prelude.{◌≡◌, [], length, take, drop};
ghost use Rattle.lent_table.specs.Lent.{lent, lent_by};

// A type of entries, with its zero.
pub trait Zero: Copy {
    ghost ZERO: { Self };

    const ZERO: Self;
}

impl Zero for u8 {
    ghost ZERO = { 0 };

    const ZERO: u8 = 0;
}

impl Zero for u64 {
    ghost ZERO = { 0 };

    const ZERO: u64 = 0;
}

// Zeros in the whole table, by a loop alone.
// Kept (4d): `fill` asks that an entry's `clone` cannot fail, which the trait would have to promise as a law of its own.
pub fn clear_many<T: Zero>(table: &mut [T])
    ensures { table.new ≡ lent_by T.ZERO (length table.old) [] }
{
    for entry in table {
        *entry = T::ZERO;
    }
}

// Zeros in the whole table. At most four entries are cleared by four steps, which are compiled without a loop.
// Kept (4b, 7b): a loop alone is compiled to a call of memset, a seventh of all instructions where a small section is refused early.
pub fn clear<T: Zero>(table: &mut [T])
    ensures { table.new ≡ lent_by T.ZERO (length table.old) [] }
{
    if table.len() > 4 {
        clear_many(table);
        return;
    }
    for i in 0..4 {
        if i < table.len() {
            table[i] = T::ZERO;
        }
    }
}

// Zeros from an index on, which may be any number.
pub fn clear_from<T: Zero>(table: &mut [T], from: usize)
    ensures { table.new ≡ lent_by T.ZERO (length table.old) (take from table.old) }
{
    if from < table.len() {
        clear(&mut table[from..]);
    }
}

// The table becomes as many bytes as `count` from a place on, and zeros past them. Bytes that are not there, and those for which the table
// has no entry, are left out.
// Kept (4b): `copy_from_slice` is compiled to a call of memmove, a name that the archive for C does not need else.
pub fn copy_bytes(table: &mut [u8], bytes: &[u8], at: usize, count: usize)
    ensures { table.new
        ≡ lent (length table.old) (take (length table.old) (take count (drop at bytes.now))) }
{
    let part = &bytes[at.min(bytes.len())..];
    let total = count.min(part.len()).min(table.len());
    for i in 0..total {
        table[i] = part[i];
    }
    clear_from(table, total);
}
