// The records of a table, by their starts.
ghost use Rattle.std.specs.Prelude.{◌≡◌, ◌<◌, length, get_or};
ghost use Rattle.columns_put.specs.Maps.{starts_in, Fits};

// Those that start at the places of a list, or `count` of one size, one after the other.
#[derive(Clone, Copy)]
pub enum Records<'a> {
    Listed(&'a [u64]),
    Even {
        first: usize,
        size: usize,
        count: usize,
    },
}

impl<'a> Records<'a> {
    pub fn count(self) -> usize
        ensures { result ≡ length (starts_in self.entry) }
    {
        match self {
            Records::Listed(starts) => starts.len(),
            Records::Even {
                first: _,
                size: _,
                count,
            } => count,
        }
    }

    pub fn start(self, i: usize) -> usize
        requires { (i < length (starts_in self)) × Fits self }
        ensures { result ≡ get_or (starts_in self.entry) i 0 }
    {
        match self {
            Records::Listed(starts) => starts[i] as usize,
            Records::Even {
                first,
                size,
                count: _,
            } => first + size * i,
        }
    }
}
