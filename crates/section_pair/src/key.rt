// The key of a proposition, by the place where it starts.
ghost use Rattle.std.specs.Prelude.{◌+◌, ◌≤◌, ◌≡◌, length};
ghost use Rattle.evr0_compare.specs.Merge.{kind_end, key_at};
ghost use Rattle.evr0_records.specs.Maps.{key_out};

use evr0_records::proposition::Key;
use local_format::field::LittleEndian;

// The key of the proposition that starts at a place.
pub fn key_at(payload: &[u8], start: usize) -> Key<'_>
    requires { kind_end payload.now start + 12 ≤ length payload.now }
    ensures { key_out result ≡ key_at payload.now start }
{
    let kind_at = start + 2;
    let kind_end = kind_at + u16::le_at(payload, start) as usize;
    Key {
        kind: &payload[kind_at..kind_end],
        owner: u32::le_at(payload, kind_end),
        scope: u32::le_at(payload, kind_end + 4),
        type_obligation: u32::le_at(payload, kind_end + 8),
    }
}
