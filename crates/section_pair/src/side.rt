// One of two sections in a merge.
ghost use Rattle.evr0_compare.specs.Merge.{SideThere};

use crate::key::key_at;
use crate::verdict::{Verdict, of_both};
use std::cmp::Ordering;

// A payload, where its propositions start, and their flags.
#[derive(Clone, Copy)]
pub struct Side<'a> {
    pub payload: &'a [u8],
    pub starts: &'a [u64],
    pub flags: &'a [u8],
    pub ghost there: { SideThere payload.now starts.now flags.now },
}

impl<'a> Side<'a> {
    ghost use Rattle.std.specs.Prelude.{◌≡◌, List, drop};
    ghost use Rattle.evr0_compare.specs.Compare.{Standing};
    ghost use Rattle.evr0_compare.specs.Merge.{Views, next_verdict};
    ghost use Rattle.section_pair.specs.Maps.{verdict_out};

    // The verdict on the next proposition, after i of this section, the first, and j of the second.
    // Kept (6a): starts and flags are two tables that C lends.
    pub fn next_verdict(self, i: usize, second: Side, j: usize) -> Verdict
        ensures { (xs ys : List Standing) → Views self.entry.payload.now self.entry.starts.now self.entry.flags.now xs
            → Views second.entry.payload.now second.entry.starts.now second.entry.flags.now ys
            → verdict_out result ≡ next_verdict (drop i xs) (drop j ys) }
    {
        if self.starts.len() <= i {
            return Verdict::SecondOnly;
        }
        if second.starts.len() <= j {
            return Verdict::FirstOnly;
        }
        let key = key_at(self.payload, self.starts[i] as usize);
        let order = key.cmp(&key_at(second.payload, second.starts[j] as usize));
        match order {
            Ordering::Less => Verdict::FirstOnly,
            Ordering::Greater => Verdict::SecondOnly,
            Ordering::Equal => of_both(self.flags[i], second.flags[j]),
        }
    }
}
