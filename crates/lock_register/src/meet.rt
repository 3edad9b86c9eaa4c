// Whether a lock that is held stands against one that is asked for: a key. A lock and a key have 24 words each.
ghost use Rattle.std.specs.Prelude.{◌≡◌, eqb};
ghost use Rattle.std.specs.List.{list_any};
ghost use Rattle.local_format.specs.Tag.{equal};
ghost use Rattle.lock_rules.specs.Lock.{hinders};
ghost use Rattle.lock_rules.specs.Register.{any};
ghost use Rattle.lock_rules.specs.Source.{same_root};
ghost use Rattle.lock_words.specs.Words.{symbol_in, source_in, lock_in, locks_in};
ghost use Rattle.lock_register.specs.Meet.{either_begins, met_by};

use lock_words::words::{held_locks, parts};

fn same_source(lock: &[u64; 24], key: &[u64; 24]) -> bool
    ensures { result ≡ equal (source_in lock.now) (source_in key.now) }
{
    lock[4..8] == key[4..8]
}

// Both have the same parts up to the shorter. Paths of one record differ in their last part more often than in their first.
// Kept (6a): a lock is 24 words of the register that C keeps, so its parts stand in the last 16 of them.
fn parts_touch(lock: &[u64; 24], key: &[u64; 24]) -> bool
    ensures { result ≡ either_begins lock.now key.now }
{
    for k in (0..parts(lock[3]).min(parts(key[3]))).rev() {
        if lock[8 + k] % 1125899906842624 != key[8 + k] % 1125899906842624 {
            return false;
        }
    }
    true
}

// Symbol and parts first: they tell most locks apart, and stand in few lines of memory.
// Kept (6a): the same 24 words.
fn meets(lock: &[u64; 24], key: &[u64; 24]) -> bool
    ensures { result ≡ hinders same_root (lock_in lock.now) (lock_in key.now) }
{
    if lock[2] % 4294967296 != key[2] % 4294967296 {
        return false;
    }
    if !parts_touch(lock, key) {
        return false;
    }
    if lock[0] % 4294967296 == key[0] % 4294967296 {
        return false;
    }
    if lock[1] == 0 && key[1] == 0 {
        return false;
    }
    same_source(lock, key)
}

// Some lock that is held stands against the key.
pub fn hindered(register: &[u64; 6145], key: &[u64; 24]) -> bool
    ensures { result ≡ met_by (lock_in key.now) (locks_in register.now) }
{
    held_locks(register).iter().any(|lock| meets(lock, key))
}

// Some of these locks has the symbol.
fn symbol_among(locks: &[[u64; 24]], symbol: u32) -> bool
    ensures { result ≡ list_any (λ ws. eqb (symbol_in ws) symbol) locks.now }
{
    locks
        .iter()
        .any(|lock| lock[2] % 4294967296 == symbol as u64)
}

// Some lock that is held has this symbol. They are looked at by eights, whose tests are compiled one behind the other, without a loop of their own.
pub fn symbol_held(register: &[u64; 6145], symbol: u32) -> bool
    ensures { result ≡ any (λ l. eqb l.root.symbol symbol) (locks_in register.now) }
{
    let mut eights = held_locks(register).chunks_exact(8);
    eights.any(|eight| symbol_among(eight, symbol)) || symbol_among(eights.remainder(), symbol)
}
