// Parts of a slice.
ghost use Rattle.std.specs.Prelude.{◌≡◌, drop};

// The bytes from `at` on: none where `at` is past the end.
pub fn tail(bytes: &[u8], at: usize) -> &[u8]
    ensures { result.now ≡ drop at bytes.now }
{
    bytes.get(at..).unwrap_or_default()
}
