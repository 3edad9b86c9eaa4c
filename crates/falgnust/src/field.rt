// Fields at a place.
ghost use Rattle.std.specs.Prelude.{◌≡◌};
ghost use Rattle.local_format.specs.Field.{field_at};
ghost use Rattle.falgnust.specs.Maps.{flat_field};

use local_format::field::{LittleEndian, field_at};

// The value and the place after it, or, where the field is cut, zeros: C has no Option.
// Kept (1a): callers in C read a flag and the values beside it.
#[repr(C)]
#[derive(Clone, Copy, Debug, Default, PartialEq, Eq)]
pub struct Field {
    pub whole: bool,
    pub value: u32,
    pub next: usize,
}

// Numbers that fit in 32 bits.
// Kept (4d): `T: Into<u32>` alone does not promise that the number stays what it was; this trait promises it, for three widths.
trait Word: LittleEndian {
    fn word(self) -> u32
        ensures { result ≡ Self.number self };
}

impl Word for u8 {
    fn word(self) -> u32 {
        self.into()
    }
}

impl Word for u16 {
    fn word(self) -> u32 {
        self.into()
    }
}

impl Word for u32 {
    fn word(self) -> u32 {
        self
    }
}

fn read<T: Word>(bytes: &[u8], at: usize) -> Field
    ensures { result ≡ flat_field (field_at T.WIDTH bytes.now at) }
{
    match field_at::<T>(bytes, at) {
        Some(field) => Field {
            whole: true,
            value: field.value.word(),
            next: field.next,
        },
        None => Field::default(),
    }
}

// Kept (2a): C has no generic functions: three names over one generic function.
#[unsafe(no_mangle)]
pub extern "C" fn falgnust_read_u8(bytes: &[u8], at: usize) -> Field
    ensures { result ≡ flat_field (field_at 1 bytes.now at) }
{
    read::<u8>(bytes, at)
}

#[unsafe(no_mangle)]
pub extern "C" fn falgnust_read_u16_le(bytes: &[u8], at: usize) -> Field
    ensures { result ≡ flat_field (field_at 2 bytes.now at) }
{
    read::<u16>(bytes, at)
}

#[unsafe(no_mangle)]
pub extern "C" fn falgnust_read_u32_le(bytes: &[u8], at: usize) -> Field
    ensures { result ≡ flat_field (field_at 4 bytes.now at) }
{
    read::<u32>(bytes, at)
}
