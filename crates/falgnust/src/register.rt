// Locks with owners, in a register that the caller lends.
ghost use Rattle.std.specs.Prelude.{◌≡◌, length};
ghost use Rattle.local_format.specs.Maps.{answer_out};
ghost use Rattle.semcode_decode.specs.Layout.{tables};
ghost use Rattle.lock_words.specs.Words.{locks_in};
ghost use Rattle.lock_words.specs.Maps.{part_is};
ghost use Rattle.lock_register.specs.Release.{Releases};
ghost use Rattle.lock_register.specs.Read.{lock_number, part_number};
ghost use Rattle.lock_register.specs.Maps.{head_is};
ghost use Rattle.locks.specs.Claim.{Claims};
ghost use Rattle.falgnust.specs.LockMaps.{flat_claim, flat_lock, flat_lock_part};

use crate::record::Parts;
use crate::refusal::{Answer, Refusal};
use lock_register::read::{held, lock_number, lock_part};
use lock_register::release::release;
use lock_words::source::source_bytes;
use lock_words::words::Part;
use locks::claim::claim;

// ---- Claims and releases

// How many locks are held afterwards; or a refusal, with a zero beside it.
// Kept (1a): callers in C read a flag and the values beside it.
#[repr(C)]
#[derive(Clone, Copy, Debug, Default, PartialEq, Eq)]
pub struct Claimed {
    pub accepted: bool,
    pub refusal: Refusal,
    pub held: usize,
}

impl From<Answer<usize>> for Claimed {
    ghost from_gives = { λ answer c. c ≡ flat_claim (answer_out (λ n. n) answer) };

    fn from(answer: Answer<usize>) -> Claimed {
        match answer {
            Ok(held) => Claimed {
                accepted: true,
                held,
                ..Claimed::default()
            },
            Err(refused) => Claimed {
                refusal: refused.into(),
                ..Claimed::default()
            },
        }
    }
}

// Kept (6a): C lends the register as an array of 64-bit numbers, and keeps it, or copies of it, between calls; no heap.
#[tactic(auto, using(locks::proofs::CallLaws::claims_mapped))]
#[unsafe(no_mangle)]
pub extern "C" fn falgnust_claim(
    register: &mut [u64; 6145],
    owner: u32,
    base_offset: usize,
    code: &[u8],
    header_rev: u16,
    source: &[u8; 32],
    strings: &mut [u64],
    paths: &mut [u64],
    families: &mut [u8],
) -> Claimed
    ensures { Claims flat_claim source.now owner base_offset header_rev code.now register.old register.new
        (tables strings.old paths.old families.old)
        (tables strings.new paths.new families.new) result }
{
    claim(
        register,
        owner,
        base_offset,
        code,
        header_rev,
        source,
        strings,
        paths,
        families,
    )
    .into()
}

#[unsafe(no_mangle)]
pub extern "C" fn falgnust_release(register: &mut [u64; 6145], owner: u32) -> usize
    ensures { Releases owner register.old register.new result }
{
    release(register, owner)
}

// ---- What is held

#[unsafe(no_mangle)]
pub extern "C" fn falgnust_held(register: &[u64; 6145]) -> usize
    ensures { result ≡ length (locks_in register.now) }
{
    held(register)
}

// Kept (1a): callers in C read a flag and the values beside it.
#[repr(C)]
#[derive(Clone, Copy, Debug, Default, PartialEq, Eq)]
pub struct Lock {
    pub accepted: bool,
    pub refusal: Refusal,
    pub owner: u32,
    pub write: bool,
    pub root_symbol_id: u32,
    pub component_count: usize,
    pub source: [u8; 32],
}

impl From<Answer<lock_register::read::Lock>> for Lock {
    ghost from_gives = { λ read l. l ≡ flat_lock (answer_out head_is read) };

    fn from(read: Answer<lock_register::read::Lock>) -> Lock {
        match read {
            Ok(lock) => Lock {
                accepted: true,
                owner: lock.owner,
                write: lock.write,
                root_symbol_id: lock.symbol,
                component_count: lock.parts,
                source: source_bytes(lock.source),
                ..Lock::default()
            },
            Err(refused) => Lock {
                refusal: refused.into(),
                source: [0; 32],
                ..Lock::default()
            },
        }
    }
}

#[unsafe(no_mangle)]
pub extern "C" fn falgnust_lock_number(register: &[u64; 6145], number: usize) -> Lock
    ensures { result ≡ flat_lock (lock_number number (locks_in register.now)) }
{
    lock_number(register, number).into()
}

// The component as in a path's.
// Kept (1a): callers in C read a flag and the values beside it.
#[repr(C)]
#[derive(Clone, Copy, Debug, Default, PartialEq, Eq)]
pub struct LockPart {
    pub accepted: bool,
    pub refusal: Refusal,
    pub component: Parts,
}

impl From<Answer<Part>> for LockPart {
    ghost from_gives = { λ read p. p ≡ flat_lock_part (answer_out part_is read) };

    fn from(read: Answer<Part>) -> LockPart {
        match read {
            Ok(part) => LockPart {
                accepted: true,
                component: part.into(),
                ..LockPart::default()
            },
            Err(refused) => LockPart {
                refusal: refused.into(),
                ..LockPart::default()
            },
        }
    }
}

#[unsafe(no_mangle)]
pub extern "C" fn falgnust_lock_part(register: &[u64; 6145], number: usize, part: usize) -> LockPart
    ensures { result ≡ flat_lock_part (part_number number part (locks_in register.now)) }
{
    lock_part(register, number, part).into()
}
