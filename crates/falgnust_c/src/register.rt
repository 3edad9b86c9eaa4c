// Locks with owners, in a register that the caller lends.
ghost use Rattle.std.specs.Prelude.{◌≡◌, length};
ghost use Rattle.semcode_decode.specs.Layout.{tables};
ghost use Rattle.lock_words.specs.Words.{locks_in};
ghost use Rattle.lock_register.specs.Release.{Releases};
ghost use Rattle.locks.specs.Claim.{Claims};
ghost use Rattle.lock_register.specs.Read.{lock_number, part_number};
ghost use Rattle.falgnust.specs.LockMaps.{flat_claim, flat_lock, flat_lock_part};

use falgnust::register::{Claimed, Lock, LockPart};

#[unsafe(no_mangle)]
pub extern "C" fn falgnust_claim(
    register: &mut [u64; 6145],
    owner: u32,
    base_offset: usize,
    code: &[u8],
    header_rev: u16,
    source: &[u8; 32],
    strings: &mut [u64],
    paths: &mut [u64],
    families: &mut [u8],
) -> Claimed
    ensures { Claims flat_claim source.now owner base_offset header_rev code.now register.old register.new
        (tables strings.old paths.old families.old)
        (tables strings.new paths.new families.new) result }
{
    falgnust::register::falgnust_claim(
        register,
        owner,
        base_offset,
        code,
        header_rev,
        source,
        strings,
        paths,
        families,
    )
}

#[unsafe(no_mangle)]
pub extern "C" fn falgnust_release(register: &mut [u64; 6145], owner: u32) -> usize
    ensures { Releases owner register.old register.new result }
{
    falgnust::register::falgnust_release(register, owner)
}

#[unsafe(no_mangle)]
pub extern "C" fn falgnust_held(register: &[u64; 6145]) -> usize
    ensures { result ≡ length (locks_in register.now) }
{
    falgnust::register::falgnust_held(register)
}

#[unsafe(no_mangle)]
pub extern "C" fn falgnust_lock_number(register: &[u64; 6145], number: usize) -> Lock
    ensures { result ≡ flat_lock (lock_number number (locks_in register.now)) }
{
    falgnust::register::falgnust_lock_number(register, number)
}

#[unsafe(no_mangle)]
pub extern "C" fn falgnust_lock_part(register: &[u64; 6145], number: usize, part: usize) -> LockPart
    ensures { result ≡ flat_lock_part (part_number number part (locks_in register.now)) }
{
    falgnust::register::falgnust_lock_part(register, number, part)
}
