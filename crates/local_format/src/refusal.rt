// A refusal: its kind, number and offset.
ghost use Rattle.std.specs.Prelude.{◌≡◌};
ghost use Rattle.local_format.specs.Refusal.{kind_of, refusal};
ghost use Rattle.local_format.specs.Out.{check, held, at_offset};
ghost use Rattle.local_format.specs.Maps.{kind_out, refusal_out, answer_out};

#[derive(Clone, Copy, Debug, PartialEq, Eq)]
pub enum Kind {
    Invalid,
    Limit,
    Strings,
    Debug,
    Ownership,
    Added,
    Truncated,
    Name,
    Signature,
}

// Kept (1a): refusals go by document 01's numbers, which callers in C read; a variant for each would say a number's name twice.
#[derive(Clone, Copy, Debug, PartialEq, Eq)]
pub struct Refusal {
    pub kind: Kind,
    pub number: u8,
    pub offset: usize,
}

// The kind of each number.
// Kept (4d): a table of document 01, not a value in another type: `Kind::from(61)` would read as if 61 were a kind.
#[tactic(auto, unfolding(crate::specs::Refusal::kind_of, crate::specs::Refusal::among))]
pub fn kind_of(number: u8) -> Kind
    ensures { kind_out result ≡ kind_of number }
{
    match number {
        3 | 12 | 14 | 15 | 27 | 31 | 36 | 65 | 73 => Kind::Limit,
        0..=29 => Kind::Invalid,
        30..=34 => Kind::Strings,
        35..=39 => Kind::Debug,
        40..=60 => Kind::Ownership,
        61 | 62 => Kind::Added,
        63 => Kind::Truncated,
        64 => Kind::Name,
        65..=70 => Kind::Added,
        71 | 72 => Kind::Signature,
        _ => Kind::Added,
    }
}

pub fn refuse(number: u8, offset: usize) -> Refusal
    ensures { refusal_out result ≡ refusal number offset }
{
    Refusal {
        kind: kind_of(number),
        number,
        offset,
    }
}

// On where the test holds; else the refusal with this number at this offset.
pub fn check(holds: bool, number: u8, offset: usize) -> Result<(), Refusal>
    ensures { answer_out (λ done. done) result ≡ check holds number offset }
{
    if holds {
        Ok(())
    } else {
        Err(refuse(number, offset))
    }
}

// A refusal whose kind does not follow from its number.
pub fn refuse_as(kind: Kind, number: u8, offset: usize) -> Refusal
    ensures { refusal_out result ≡ record { kind = kind_out kind; number = number; offset = offset } }
{
    Refusal {
        kind,
        number,
        offset,
    }
}

// The sum of base and place, held at the largest 64-bit number.
#[tactic(auto, unfolding(crate::specs::Out::held))]
pub fn diag_offset(base_offset: usize, cursor: usize) -> usize
    ensures { result ≡ held base_offset cursor }
{
    base_offset.saturating_add(cursor)
}

// A refusal of a block that lies at a base.
// Kept (2d): `evr0_tables::part::moved` is `map_err` by this function, for the four callers that hand an answer on by `?`.
pub fn based(refused: Refusal, base: usize) -> Refusal
    ensures { refusal_out result ≡ at_offset (refusal_out refused) (held base refused.offset) }
{
    Refusal {
        offset: diag_offset(base, refused.offset),
        ..refused
    }
}
