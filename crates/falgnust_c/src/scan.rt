// UTF-8: a scan of bytes, and of bytes at a place.
ghost use Rattle.std.specs.Prelude.{◌≡◌};
ghost use Rattle.utf8.specs.Utf8.{decode};
ghost use Rattle.utf8.specs.Scan.{scan_of, utf8_at};
ghost use Rattle.falgnust.specs.Maps.{flat_scan, flat_utf8};

use falgnust::scan::{Scanned, Utf8};

#[unsafe(no_mangle)]
pub extern "C" fn falgnust_scan(bytes: &[u8]) -> Scanned
    ensures { result ≡ flat_scan (scan_of (decode bytes.now)) }
{
    falgnust::scan::falgnust_scan(bytes)
}

#[unsafe(no_mangle)]
pub extern "C" fn falgnust_read_utf8(bytes: &[u8], at: usize, len: usize) -> Utf8
    ensures { result ≡ flat_utf8 (utf8_at bytes.now at len) }
{
    falgnust::scan::falgnust_read_utf8(bytes, at, len)
}
