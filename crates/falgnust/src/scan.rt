// UTF-8: a scan of bytes, and of bytes at a place.
ghost use Rattle.std.specs.Prelude.{◌≡◌};
ghost use Rattle.utf8.specs.Utf8.{decode};
ghost use Rattle.utf8.specs.Scan.{scan_of, utf8_at};
ghost use Rattle.utf8.specs.Maps.{scanned_out, utf8_out};
ghost use Rattle.falgnust.specs.Maps.{flat_scan, flat_utf8};

use utf8::{Utf8Error, read_utf8, scan};

// C has no Option: 0: not UTF-8; 1: UTF-8 without control characters; 2: UTF-8 with one. And the number of characters.
// Kept (1a): callers in C read an answer as a number, with the characters beside it.
#[repr(C)]
#[derive(Clone, Copy, Debug, Default, PartialEq, Eq)]
pub struct Scanned {
    pub answer: u8,
    pub chars: usize,
}

impl From<Option<utf8::Scanned>> for Scanned {
    ghost from_gives = { λ scanned s. s ≡ flat_scan (scanned_out scanned) };

    fn from(scanned: Option<utf8::Scanned>) -> Scanned {
        match scanned {
            Some(utf8::Scanned { chars, control }) => Scanned {
                answer: if control { 2 } else { 1 },
                chars,
            },
            None => Scanned::default(),
        }
    }
}

#[unsafe(no_mangle)]
pub extern "C" fn falgnust_scan(bytes: &[u8]) -> Scanned
    ensures { result ≡ flat_scan (scan_of (decode bytes.now)) }
{
    scan(bytes).into()
}

// What the bytes are and the place after them; all is zero where they pass the end.
// Kept (1a): callers in C read two flags and the values beside them.
#[repr(C)]
#[derive(Clone, Copy, Debug, Default, PartialEq, Eq)]
pub struct Utf8 {
    pub whole: bool,
    pub text: bool,
    pub control: bool,
    pub chars: usize,
    pub next: usize,
}

impl From<Result<utf8::Utf8, Utf8Error>> for Utf8 {
    ghost from_gives = { λ read u. u ≡ flat_utf8 (utf8_out read) };

    fn from(read: Result<utf8::Utf8, Utf8Error>) -> Utf8 {
        match read {
            Ok(text) => Utf8 {
                whole: true,
                text: true,
                control: text.control,
                chars: text.chars,
                next: text.next,
            },
            Err(Utf8Error::NotUtf8 { next }) => Utf8 {
                whole: true,
                next,
                ..Utf8::default()
            },
            Err(Utf8Error::Cut) => Utf8::default(),
        }
    }
}

#[unsafe(no_mangle)]
pub extern "C" fn falgnust_read_utf8(bytes: &[u8], at: usize, len: usize) -> Utf8
    ensures { result ≡ flat_utf8 (utf8_at bytes.now at len) }
{
    read_utf8(bytes, at, len).into()
}
