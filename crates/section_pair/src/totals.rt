// The totals of a list.
ghost use Rattle.std.specs.Prelude.{◌+◌, ◌-◌, ◌≤◌, ◌<◌, ◌≡◌};
ghost use Rattle.section_pair.specs.Maps.{totals_out};

use crate::list::Listing;

// How many propositions are agreed, contradicted, of the first section alone, of the second alone.
#[derive(Clone, Copy, Debug, PartialEq, Eq)]
pub struct Totals {
    pub agreed: usize,
    pub contradicted: usize,
    pub first_only: usize,
    pub second_only: usize,
}

// The four totals, by the counts of both sections, of the list and of what is agreed.
pub(crate) fn tally(first: usize, second: usize, listing: Listing) -> Totals
    requires { (first + second < 4294967296) × (first ≤ listing.entries) × (second ≤ listing.entries) × (listing.entries + listing.agreed ≤ first + second) }
    ensures { totals_out result
        ≡ record {
          agreed = listing.agreed;
          contradicted = first + second - listing.entries - listing.agreed;
          first_only = listing.entries - second;
          second_only = listing.entries - first;
        } }
{
    let Listing { entries, agreed } = listing;
    Totals {
        agreed,
        contradicted: first + second - entries - agreed,
        first_only: entries - second,
        second_only: entries - first,
    }
}
