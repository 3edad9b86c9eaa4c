// Fixed byte strings at a place.
ghost use Rattle.std.specs.Prelude.{◌≡◌};
ghost use Rattle.local_format.specs.Tag.{tag_at};

#[unsafe(no_mangle)]
pub extern "C" fn falgnust_tag_at(bytes: &[u8], at: usize, tag: &[u8]) -> bool
    ensures { result ≡ tag_at tag.now bytes.now at }
{
    falgnust::tag::falgnust_tag_at(bytes, at, tag)
}
