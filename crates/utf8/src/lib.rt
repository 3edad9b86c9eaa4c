// UTF-8: whether bytes are well-formed, their number of characters, and whether one is a control character.
#![tactic(auto)]

ghost use Rattle.std.specs.Prelude.{◌≡◌, ℕ, ◌+◌, ◌<◌, length, leb};
ghost use Rattle.std.specs.Bool.{then_some};
ghost use Rattle.utf8.specs.Utf8.{fresh, decode, is_control};
ghost use Rattle.utf8.specs.Scan.{scan_of, printable, all_printable, later_at, utf8_at};
ghost use Rattle.utf8.specs.Maps.{part, Reads, scanned_out, utf8_out};

// A character: whether it is a control character, and the place after it.
#[derive(Clone, Copy)]
pub struct Char {
    pub control: bool,
    pub next: usize,
}

// Whether U+00XX is a control character.
#[tactic(auto, unfolding(crate::specs::Utf8::is_control))]
fn is_control(point: u8) -> bool
    ensures { result ≡ is_control point }
{
    matches!(point, 0x00..=0x1f | 0x7f..=0x9f)
}

// The place after a byte between `low` and `high`, if one stands at `at`.
#[tactic(auto, unfolding(crate::specs::Scan::later_at))]
fn later(bytes: &[u8], at: usize, low: u8, high: u8) -> Option<usize>
    ensures { result ≡ then_some (later_at low high bytes.now at) (at + 1) }
{
    let b = *bytes.get(at)?;
    (low <= b && b <= high).then_some(at + 1)
}

// The last byte of a character above U+009F.
#[tactic(auto, using(crate::proofs::CharLaws::later_ill))]
fn last(bytes: &[u8], at: usize) -> Option<Char>
    ensures { (p : ℕ) → 2 < p → Reads bytes.now at (part 1 0x80 0xBF p) result }
{
    let next = later(bytes, at, 0x80, 0xbf)?;
    Some(Char {
        control: false,
        next,
    })
}

// The last two bytes of a character above U+009F.
#[tactic(auto, using(crate::proofs::CharLaws::later_ill))]
fn last_two(bytes: &[u8], at: usize) -> Option<Char>
    ensures { (p : ℕ) → 0 < p → Reads bytes.now at (part 2 0x80 0xBF p) result }
{
    last(bytes, later(bytes, at, 0x80, 0xbf)?)
}

// The character at `at`, by the rows of Table 3-7. U+0080 to U+00BF are C2 and a second byte of the same number.
// The rows of most texts stand first, in ifs: a match of all nine scans texts slower.
#[tactic(auto, using(crate::proofs::CharLaws::leads))]
fn char_at(bytes: &[u8], at: usize) -> Option<Char>
    requires { at < length bytes.now }
    ensures { Reads bytes.now at fresh result }
{
    let lead = bytes[at];
    if 0xe0 < lead && lead < 0xf0 {
        if lead == 0xed {
            return last(bytes, later(bytes, at + 1, 0x80, 0x9f)?);
        }
        return last_two(bytes, at + 1);
    }
    if 0xc2 < lead && lead < 0xe0 {
        return last(bytes, at + 1);
    }
    match lead {
        0x00..=0x7f => Some(Char {
            control: is_control(lead),
            next: at + 1,
        }),
        0xc2 => {
            let next = later(bytes, at + 1, 0x80, 0xbf)?;
            Some(Char {
                control: is_control(bytes[at + 1]),
                next,
            })
        }
        0xe0 => last(bytes, later(bytes, at + 1, 0xa0, 0xbf)?),
        0xf0 => last_two(bytes, later(bytes, at + 1, 0x90, 0xbf)?),
        0xf1..=0xf3 => last_two(bytes, later(bytes, at + 1, 0x80, 0xbf)?),
        0xf4 => last_two(bytes, later(bytes, at + 1, 0x80, 0x8f)?),
        _ => None,
    }
}

// Whether a byte is a printable character of ASCII.
#[tactic(auto, unfolding(crate::specs::Scan::printable))]
fn is_printable(b: u8) -> bool
    ensures { result ≡ printable b }
{
    matches!(b, 0x20..=0x7e)
}

// How many characters a text has, and whether one of them is a control character.
#[derive(Clone, Copy, Debug, PartialEq, Eq)]
pub struct Scanned {
    pub chars: usize,
    pub control: bool,
}

// How far a byte is above the space, modulo 256: at most 0x5e for the printable characters of ASCII alone.
#[tactic(auto, using(crate::proofs::ScanLaws::above_space_lem))]
fn above_space(b: u8) -> u8
    ensures { leb result 0x5E ≡ printable b }
{
    b.wrapping_sub(0x20)
}

// Whether all bytes are printable characters of ASCII. No test in the loop, so that it runs over many bytes at a time.
#[tactic(auto, using(crate::proofs::ScanLaws::printable_turn, crate::proofs::ScanLaws::printable_end))]
fn all_printable(bytes: &[u8]) -> bool
    ensures { result ≡ all_printable bytes.now }
{
    let mut high: u8 = 0;
    for b in bytes {
        high = high.max(above_space(*b));
    }
    high <= 0x5e
}

// Whether the first and the last byte, if there are any, are ASCII: text of another script most often begins or ends in a character of its
// own. It only chooses the way, so that nothing has to be known of the answer.
fn ascii_at_both_ends(bytes: &[u8]) -> bool {
    bytes.first().is_none_or(u8::is_ascii) && bytes.last().is_none_or(u8::is_ascii)
}

// The bytes as text: none where they are not UTF-8. Printable ASCII, as most are, is its own code points; else one character after the other.
#[tactic(auto, using(crate::proofs::ScanLaws::all_printable_lem, crate::proofs::ScanLaws::turns))]
pub fn scan(bytes: &[u8]) -> Option<Scanned>
    ensures { scanned_out result ≡ scan_of (decode bytes.now) }
{
    if ascii_at_both_ends(bytes) && all_printable(bytes) {
        return Some(Scanned {
            chars: bytes.len(),
            control: false,
        });
    }
    let mut chars: usize = 0;
    let mut control = false;
    let mut i: usize = 0;
    // Kept (3d): a character has one to four bytes and `char_at` says where the next starts; a `for` would go byte by byte.
    while i < bytes.len() {
        if is_printable(bytes[i]) {
            i += 1;
        } else {
            let c = char_at(bytes, i)?;
            i = c.next;
            control |= c.control;
        }
        chars += 1;
    }
    Some(Scanned { chars, control })
}

// A text at a place, and the place after it.
#[derive(Clone, Copy, Debug, PartialEq, Eq)]
pub struct Utf8 {
    pub chars: usize,
    pub control: bool,
    pub next: usize,
}

// Why bytes at a place are no text: they are not UTF-8, or pass the end.
#[derive(Clone, Copy, Debug, PartialEq, Eq)]
pub enum Utf8Error {
    NotUtf8 { next: usize },
    Cut,
}

// The `len` bytes from `at` on as text. Both may be any number.
#[tactic(auto, using(crate::proofs::ScanLaws::utf8_cut, crate::proofs::ScanLaws::utf8_whole))]
pub fn read_utf8(bytes: &[u8], at: usize, len: usize) -> Result<Utf8, Utf8Error>
    ensures { utf8_out result ≡ utf8_at bytes.now at len }
{
    if bytes.len() < at || bytes.len() - at < len {
        return Err(Utf8Error::Cut);
    }
    let next = at + len;
    let Scanned { chars, control } = scan(&bytes[at..next]).ok_or(Utf8Error::NotUtf8 { next })?;
    Ok(Utf8 {
        chars,
        control,
        next,
    })
}
