// Fixed byte strings, compared at a place.
ghost use Rattle.std.specs.Prelude.{◌≡◌, ◌<◌, length};
ghost use Rattle.local_format.specs.Tag.{equal, tag_at};

use crate::field::LittleEndian;

// Whether slices of one length below eight hold the same bytes: from four bytes on by the first four and the last four, else byte by byte.
fn same_short(a: &[u8], b: &[u8]) -> bool
    requires { (length a.now ≡ length b.now) × (length a.now < 8) }
    ensures { result ≡ equal a.now b.now }
{
    let len = a.len();
    if 4 <= len {
        let end = len - 4;
        return (u32::le_at(a, 0) == u32::le_at(b, 0)) & (u32::le_at(a, end) == u32::le_at(b, end));
    }
    for i in 0..len {
        if a[i] != b[i] {
            return false;
        }
    }
    true
}

// Whether two slices hold the same bytes: by their lengths, then by their last eight bytes, then eight at a time from the first on.
// Kept (4b): by `a == b` a rule's name is found among the four in 71 instructions and by `starts_with` in 66, since they are calls; by words in 29.
pub fn same(a: &[u8], b: &[u8]) -> bool
    ensures { result ≡ equal a.now b.now }
{
    let len = a.len();
    if len != b.len() {
        return false;
    }
    if len < 8 {
        return same_short(a, b);
    }
    let end = len - 8;
    if u64::le_at(a, end) != u64::le_at(b, end) {
        return false;
    }
    for step in 0..end.div_ceil(8) {
        let at = 8 * step;
        if u64::le_at(a, at) != u64::le_at(b, at) {
            return false;
        }
    }
    true
}

// Whether the bytes of `tag` stand at `at`.
pub fn tag_at(bytes: &[u8], at: usize, tag: &[u8]) -> bool
    ensures { result ≡ tag_at tag.now bytes.now at }
{
    let Some(rest) = bytes.get(at..) else {
        return false; // past the end
    };
    rest.starts_with(tag)
}
