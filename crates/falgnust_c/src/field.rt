// Fields at a place.
ghost use Rattle.std.specs.Prelude.{◌≡◌};
ghost use Rattle.local_format.specs.Field.{field_at};
ghost use Rattle.falgnust.specs.Maps.{flat_field};

use falgnust::field::Field;

#[unsafe(no_mangle)]
pub extern "C" fn falgnust_read_u8(bytes: &[u8], at: usize) -> Field
    ensures { result ≡ flat_field (field_at 1 bytes.now at) }
{
    falgnust::field::falgnust_read_u8(bytes, at)
}

#[unsafe(no_mangle)]
pub extern "C" fn falgnust_read_u16_le(bytes: &[u8], at: usize) -> Field
    ensures { result ≡ flat_field (field_at 2 bytes.now at) }
{
    falgnust::field::falgnust_read_u16_le(bytes, at)
}

#[unsafe(no_mangle)]
pub extern "C" fn falgnust_read_u32_le(bytes: &[u8], at: usize) -> Field
    ensures { result ≡ flat_field (field_at 4 bytes.now at) }
{
    falgnust::field::falgnust_read_u32_le(bytes, at)
}
