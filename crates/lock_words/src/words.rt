// The words of a register and of a part.
ghost use Rattle.std.specs.Prelude.{◌≡◌, ◌<◌, ◌≤◌, min, map, length};
ghost use Rattle.semcode_records.specs.Maps.{component_is};
ghost use Rattle.lock_rules.specs.Lock.{part_of};
ghost use Rattle.lock_words.specs.Words.{part_in, lock_in, locks_in};
ghost use Rattle.lock_words.specs.Maps.{part, part_is};

use semcode_records::component::DecodedAccessPathComponent;

// ---- A part

// Kept (1a, 2d): a register that C keeps may hold any words, so numbers that no DecodedAccessPathComponent has; C's layout is falgnust's Parts.
#[derive(Clone, Copy, Debug, PartialEq, Eq)]
pub struct Part {
    pub kind: u8,
    pub first: u32,
    pub second: u16,
}

// The word of a part of one of the four kinds.
#[tactic(auto, using(crate::proofs::WordLaws::packed_part))]
fn packed(kind: u8, first: u32, second: u16) -> u64
    requires { kind < 4 }
    ensures { part_in result ≡ part kind first second }
{
    (kind as u64) + 4 * (first as u64) + 17179869184 * (second as u64)
}

// The word of a path's component.
// Kept (2d): path_words' component_word is equated with a number, this one with the part that is read of it; both are one line over `parts`.
// Kept (4d): a `From` of a component for `u64` could stand in semcode_records alone, which knows no words.
pub fn component_word(component: DecodedAccessPathComponent) -> u64
    ensures { part_in result ≡ part_of (component_is component) }
{
    let (kind, first, second) = component.parts();
    packed(kind, first, second)
}

// The part of a word.
impl From<u64> for Part {
    ghost from_gives = { λ word p. part_is p ≡ part_in word };

    // Kept (6a): a part has one word of the register, whose layout C sees.
    #[tactic(auto, unfolding(crate::specs::Words::part_in))]
    fn from(word: u64) -> Part {
        Part {
            kind: (word % 4) as u8,
            first: (word / 4 % 4294967296) as u32,
            second: (word / 17179869184 % 65536) as u16,
        }
    }
}

// ---- A register

// How many locks are held.
pub fn held(register: &[u64; 6145]) -> usize
    ensures all { result ≡ length (locks_in register.now) }
    ensures few { result ≤ 256 }
{
    register[0].min(256) as usize
}

// The locks that are held, each by its 24 words.
pub fn held_locks(register: &[u64; 6145]) -> &[[u64; 24]]
    ensures { map lock_in result.now ≡ locks_in register.now }
{
    let (locks, _) = register[1..].as_chunks::<24>();
    &locks[..held(register)]
}

// How many parts a lock has, by its word.
pub fn parts(word: u64) -> usize
    ensures { result ≡ min word 16 }
{
    word.min(16) as usize
}
