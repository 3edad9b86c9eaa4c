// Words put in a lock's place.
ghost use Rattle.std.specs.Prelude.{◌<◌, ◌≤◌};
ghost use Rattle.lock_words.specs.Words.{slot};
ghost use Rattle.lock_words.specs.Place.{Placed};

// The 24 words of a lock, in the place of lock `to`. The locks below are left.
pub fn put_lock(words: &mut [u64; 6145], to: usize, key: &[u64; 24])
    requires { to < 256 }
    ensures { Placed words.old words.new to key.now }
{
    let at = 1 + 24 * to;
    words[at..at + 24].copy_from_slice(key);
}

// Lock `from` in the place of a lock that is not behind it. Where both are one nothing is done: a release mostly finds them so.
pub fn copy_lock(words: &mut [u64; 6145], to: usize, from: usize)
    requires from_bound { from < 256 }
    requires to_le_from { to ≤ from }
    ensures { Placed words.old words.new to (slot words.old from) }
{
    if to == from {
        return;
    }
    let at = 1 + 24 * from;
    words.copy_within(at..at + 24, 1 + 24 * to);
}
