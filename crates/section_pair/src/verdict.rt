// The verdict on a proposition of either section.
ghost use Rattle.std.specs.Prelude.{◌≡◌, eqb};
ghost use Rattle.evr0_compare.specs.Compare.{code, of_both};
ghost use Rattle.section_pair.specs.Maps.{verdict_out};

#[derive(Clone, Copy, Debug, PartialEq, Eq)]
pub enum Verdict {
    Agreed = 1,
    Contradicted = 2,
    FirstOnly = 3,
    SecondOnly = 4,
}

// Of a proposition in both, by its two flags.
pub fn of_both(a: u8, b: u8) -> Verdict
    ensures { verdict_out result ≡ of_both (eqb a 1) (eqb b 1) }
{
    if (a == 1) == (b == 1) {
        Verdict::Agreed
    } else {
        Verdict::Contradicted
    }
}

// Its byte in the lent table.
impl From<Verdict> for u8 {
    ghost from_gives = { λ verdict byte. byte ≡ code (verdict_out verdict) };

    fn from(verdict: Verdict) -> u8 {
        verdict as u8
    }
}
