// The key of a path: the 24 words of the lock that an owner takes on it.
ghost use Rattle.std.specs.Prelude.{◌≡◌, ℕ, length};
ghost use Rattle.local_format.specs.Out.{ok};
ghost use Rattle.semcode_records.specs.Component.{component_at};
ghost use Rattle.semcode_records.specs.Path.{front_at, path_at};
ghost use Rattle.semcode_records.specs.Maps.{front_is};
ghost use Rattle.locks.specs.Phase.{Filled, KeyOf};
ghost use Rattle.lock_words.specs.Maps.{source_is};

use local_format::field::Field;
use lock_words::words::{component_word, parts};
use semcode_records::component::read_component;
use semcode_records::path::Front;

// The words of components from a place on, as many as there are words.
// Kept (1a): the kind is the path's byte, handed on to the reader of a component.
// Kept (5d): `read_component` takes the four apart; a struct of them would be made for this one call.
fn fill_parts(code: &[u8], at: usize, header_rev: u16, kind: u8, words: &mut [u64])
    ensures { Filled (component_at header_rev kind code.now) (length words.old) at words.new }
{
    let mut cursor = at;
    for word in words {
        let Ok(Field { value, next }) = read_component(code, cursor, header_rev, kind) else {
            return;
        };
        *word = component_word(value);
        cursor = next;
    }
}

// The key of a path whose front was read.
// Kept (6a): a lock is 24 words of the register that C keeps.
pub(crate) fn path_key(
    code: &[u8],
    path: Front,
    header_rev: u16,
    source: [u64; 4],
    owner: u32,
) -> [u64; 24]
    ensures { (at : ℕ) → ok (front_is path) ≡ front_at header_rev code.now at
        → KeyOf (path_at header_rev code.now at) (source_is source) owner result }
{
    let count = path.component_count as u64;
    let mut key = [0; 24];
    key[..4].copy_from_slice(&[
        owner as u64,
        path.kind as u64,
        path.root_symbol_id as u64,
        count,
    ]);
    key[4..8].copy_from_slice(&source);
    fill_parts(
        code,
        path.components_start,
        header_rev,
        path.kind,
        &mut key[8..8 + parts(count)],
    );
    key
}
