// A release: what an owner holds is dropped.
ghost use Rattle.lock_register.specs.Release.{Releases};

use lock_words::place::copy_lock;
use lock_words::words::held;

// Drops what an owner holds, and answers how many locks are held afterwards: each lock that stays goes down to its place.
// Kept (6a): the register is an array of words that C keeps, where `retain` is a method of Vec, on the heap: locks go down by `copy_within`.
pub fn release(register: &mut [u64; 6145], owner: u32) -> usize
    ensures { Releases owner register.old register.new result }
{
    let mut kept = 0;
    for i in 0..held(register) {
        if register[1 + 24 * i] % 4294967296 != owner as u64 {
            copy_lock(register, kept, i);
            kept += 1;
        }
    }
    register[0] = kept as u64;
    kept
}
