// Numbers of records, each a struct of its own: a proof number never serves as a proposition index or a witness number.
ghost use Rattle.std.specs.Prelude.{◌≡◌};

// Kept (2d): one `Number<Proof>` needs three marker types and a phantom field, so that `ProofNumber(value)` is `Number::<Proof>::of(value)`.
#[derive(Clone, Copy, Debug, PartialEq, Eq)]
pub struct ProofNumber(pub u32);

#[derive(Clone, Copy, Debug, PartialEq, Eq)]
pub struct PropositionIndex(pub u32);

#[derive(Clone, Copy, Debug, PartialEq, Eq)]
pub struct WitnessNumber(pub u32);

impl ProofNumber {
    // Kept (2d): a trait would be brought in by `use` wherever a number is a place; `Numbered` of evr0_read has its own `place`, of which its laws speak.
    // Kept (4d): the name says what the number is good for, an index of a table; `usize::from(number)` would not.
    pub fn place(self) -> usize
        ensures { result ≡ self.0 }
    {
        self.0 as usize
    }
}

impl PropositionIndex {
    // Kept (4d): as of a proof's number: `place` says that it is an index of a table, which `usize::from(number)` would not.
    pub fn place(self) -> usize
        ensures { result ≡ self.0 }
    {
        self.0 as usize
    }
}

impl WitnessNumber {
    // Kept (4d): as of a proof's number: `place` says that it is an index of a table, which `usize::from(number)` would not.
    pub fn place(self) -> usize
        ensures { result ≡ self.0 }
    {
        self.0 as usize
    }
}
