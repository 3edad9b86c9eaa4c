// The four words of a source set.
ghost use Rattle.std.specs.Prelude.{◌≡◌};
ghost use Rattle.lock_words.specs.Maps.{source_is};

use local_format::field::LittleEndian;

// The four words of 32 bytes: eight bytes to a word, lowest first.
// Kept (4d): in `[0, 8, 16, 24].map(|at| u64::le_at(source, at))` the closure would state that eight bytes are there at each of the four.
pub fn source_words(source: &[u8; 32]) -> [u64; 4]
    ensures { source_is result ≡ source.now }
{
    [
        u64::le_at(source, 0),
        u64::le_at(source, 8),
        u64::le_at(source, 16),
        u64::le_at(source, 24),
    ]
}

// The 32 bytes of four words.
// Kept (4d): `source.map(u64::to_le_bytes).as_flattened()` lends a slice, of which 32 bytes by value would still be a copy.
pub fn source_bytes(source: [u64; 4]) -> [u8; 32]
    ensures { result ≡ source_is source }
{
    let mut bytes = [0; 32];
    for i in 0..4 {
        bytes[8 * i..8 * i + 8].copy_from_slice(&source[i].to_le_bytes());
    }
    bytes
}
