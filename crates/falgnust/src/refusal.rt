// Refusals in C's layout.
ghost use Rattle.std.specs.Prelude.{◌≡◌};
ghost use Rattle.local_format.specs.Maps.{refusal_out};
ghost use Rattle.falgnust.specs.Maps.{flat_refusal};

// What the decoders answer. C has no Result: its structs tell by `accepted` which it is, with zeros beside a refusal.
pub type Answer<T> = Result<T, local_format::refusal::Refusal>;

// The kinds are numbered in document 01's order: 0 Invalid, 1 Limit, 2 Strings, 3 Debug, 4 Ownership, 5 Added; then those of
// document 02: 6 Truncated, 7 Name, 8 Signature. All is zero in an accepted answer, and no refusal has number 0.
// Kept (1a): callers in C read a kind and a number of document 01, and no enum.
#[repr(C)]
#[derive(Clone, Copy, Debug, Default, PartialEq, Eq)]
pub struct Refusal {
    pub kind: u8,
    pub number: u8,
    pub offset: usize,
}

impl From<local_format::refusal::Refusal> for Refusal {
    ghost from_gives = { λ refused r. r ≡ flat_refusal (refusal_out refused) };

    fn from(refused: local_format::refusal::Refusal) -> Refusal {
        Refusal {
            kind: refused.kind as u8,
            number: refused.number,
            offset: refused.offset,
        }
    }
}
