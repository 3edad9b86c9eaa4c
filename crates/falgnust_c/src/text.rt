// Texts at a place.
ghost use Rattle.std.specs.Prelude.{◌≡◌};
ghost use Rattle.local_format.specs.Text.{text_at, string_at};
ghost use Rattle.falgnust.specs.Maps.{flat_text};

use falgnust::text::Text;

#[unsafe(no_mangle)]
pub extern "C" fn falgnust_read_text(bytes: &[u8], at: usize) -> Text
    ensures { result ≡ flat_text (text_at bytes.now at) }
{
    falgnust::text::falgnust_read_text(bytes, at)
}

#[unsafe(no_mangle)]
pub extern "C" fn falgnust_read_string(bytes: &[u8], at: usize) -> Text
    ensures { result ≡ flat_text (string_at bytes.now at) }
{
    falgnust::text::falgnust_read_string(bytes, at)
}
