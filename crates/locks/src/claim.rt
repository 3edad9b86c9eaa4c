// A claim: all paths of a block, or none.
ghost use Rattle.std.specs.Prelude.{◌+◌, ◌≤◌, length};
ghost use Rattle.local_format.specs.Maps.{answer_out};
ghost use Rattle.semcode_decode.specs.Layout.{tables};
ghost use Rattle.lock_words.specs.Words.{held_in};
ghost use Rattle.lock_words.specs.Maps.{source_is};
ghost use Rattle.locks.specs.Claim.{Claims};
ghost use Rattle.locks.specs.Phase.{LongAnswer, MetAnswer, Stored, TriedPaths};

use crate::key::path_key;
use lent_table::clear;
use local_format::refusal::{Refusal, refuse};
use lock_register::meet::{hindered, symbol_held};
use lock_words::place::put_lock;
use lock_words::source::source_words;
use lock_words::words::held;
use semcode_decode::decode::{ANY_SYMBOLS, parse_block};
use semcode_records::path::read_front;

// The paths that stand at these starts in a block, claimed by an owner under a source set.
#[derive(Clone, Copy)]
struct PathClaim<'a> {
    source: [u64; 4],
    owner: u32,
    code: &'a [u8],
    header_rev: u16,
    starts: &'a [u64],
}

impl<'a> PathClaim<'a> {
    // Some path has more than 16 components.
    fn any_long(&self) -> bool
        ensures { LongAnswer self.now.header_rev self.now.code.now self.now.starts.now (length self.now.starts.now) result }
    {
        for start in self.starts {
            if let Ok(path) = read_front(self.code, *start as usize, self.header_rev) {
                if 16 < path.component_count {
                    return true;
                }
            }
        }
        false
    }

    // Some path meets a lock of another owner.
    fn any_met(&self, register: &[u64; 6145]) -> bool
        ensures { MetAnswer self.now.header_rev self.now.code.now self.now.starts.now (length self.now.starts.now)
            (source_is self.now.source) self.now.owner register.now result }
    {
        for start in self.starts {
            if let Ok(path) = read_front(self.code, *start as usize, self.header_rev) {
                if symbol_held(register, path.root_symbol_id) {
                    let key = path_key(self.code, path, self.header_rev, self.source, self.owner);
                    if hindered(register, &key) {
                        return true;
                    }
                }
            }
        }
        false
    }

    // A lock for each path, behind those that are held, and then the number of all.
    // Kept (6a): the register is a table of words that C keeps, and its first word is how many locks are held.
    fn store(&self, register: &mut [u64; 6145])
        requires { held_in register.old + length self.now.starts.now ≤ 256 }
        ensures { Stored self.now.header_rev self.now.code.now self.now.starts.now (length self.now.starts.now)
            (source_is self.now.source) self.now.owner register.old register.new }
    {
        let before = held(register);
        for (i, start) in self.starts.iter().enumerate() {
            if let Ok(path) = read_front(self.code, *start as usize, self.header_rev) {
                let key = path_key(self.code, path, self.header_rev, self.source, self.owner);
                put_lock(register, before + i, &key);
            }
        }
        register[0] = (before + self.starts.len()) as u64;
    }

    // Paths that have been read: 66, 67, 68 in this order, and then a lock for each. It answers how many locks are held afterwards.
    fn take(&self, register: &mut [u64; 6145]) -> Result<usize, Refusal>
        ensures { TriedPaths self.now.header_rev self.now.code.now self.now.starts.now (length self.now.starts.now)
            (source_is self.now.source) self.now.owner (answer_out (λ n. n) result) register.old register.new }
    {
        if self.any_long() {
            return Err(refuse(66, 0));
        }
        if self.any_met(register) {
            return Err(refuse(67, 0));
        }
        let before = held(register);
        if 256 - before < self.starts.len() {
            return Err(refuse(68, 0));
        }
        self.store(register);
        Ok(before + self.starts.len())
    }
}

// An owner claims all paths of a block, or none, under a source set, and is told how many locks are held afterwards. Starts and families go to the
// lent tables; after any refusal these are zeros.
// Kept (5d): eight functions that falgnust calls get the three apart from C: each caller would make the struct, and a reader takes it apart for one table.
// Kept (5a): base, code and revision are the Rust's own parameters in front of them, in the order of C.
pub fn claim(
    register: &mut [u64; 6145],
    owner: u32,
    base_offset: usize,
    code: &[u8],
    header_rev: u16,
    source: &[u8; 32],
    strings: &mut [u64],
    paths: &mut [u64],
    families: &mut [u8],
) -> Result<usize, Refusal>
    ensures { Claims (λ x. x) source.now owner base_offset header_rev code.now register.old register.new
        (tables strings.old paths.old families.old)
        (tables strings.new paths.new families.new) (answer_out (λ n. n) result) }
{
    let parsed = parse_block(
        base_offset,
        code,
        header_rev,
        ANY_SYMBOLS,
        strings,
        paths,
        families,
    )?;
    let claim = PathClaim {
        source: source_words(source),
        owner,
        code,
        header_rev,
        starts: &paths[..parsed.path_count],
    };
    let answer = claim.take(register);
    if answer.is_err() {
        clear(strings);
        clear(paths);
        clear(families);
    }
    answer
}
