// What is held: how many locks, a lock by its number, and a part of it.
ghost use Rattle.std.specs.Prelude.{◌≡◌};
ghost use Rattle.local_format.specs.Maps.{answer_out};
ghost use Rattle.lock_words.specs.Words.{locks_in};
ghost use Rattle.lock_words.specs.Maps.{part_is};
ghost use Rattle.lock_register.specs.Read.{lock_number, part_number};
ghost use Rattle.lock_register.specs.Maps.{head_is};

use local_format::refusal::{Refusal, refuse};
pub use lock_words::words::held;
use lock_words::words::{Part, held_locks, parts};

#[derive(Clone, Copy, Debug, PartialEq, Eq)]
pub struct Lock {
    pub owner: u32,
    pub write: bool,
    pub symbol: u32,
    pub source: [u64; 4],
    pub parts: usize,
}

// A held lock by its number.
pub fn lock_number(register: &[u64; 6145], number: usize) -> Result<Lock, Refusal>
    ensures { answer_out head_is result ≡ lock_number number (locks_in register.now) }
{
    let Some(lock) = held_locks(register).get(number) else {
        return Err(refuse(62, 0));
    };
    Ok(Lock {
        owner: (lock[0] % 4294967296) as u32,
        write: lock[1] != 0,
        symbol: (lock[2] % 4294967296) as u32,
        source: [lock[4], lock[5], lock[6], lock[7]],
        parts: parts(lock[3]),
    })
}

// A part of a held lock, both by their numbers.
pub fn lock_part(register: &[u64; 6145], number: usize, part: usize) -> Result<Part, Refusal>
    ensures { answer_out part_is result ≡ part_number number part (locks_in register.now) }
{
    let Some(lock) = held_locks(register).get(number) else {
        return Err(refuse(62, 0));
    };
    if parts(lock[3]) <= part {
        return Err(refuse(62, 0));
    }
    Ok(Part::from(lock[8 + part]))
}
