// One merge over the propositions of two payloads, by the tables of their starts.
ghost use Rattle.std.specs.Prelude.{◌≡◌, List, set};
ghost use Rattle.evr0_compare.specs.Compare.{Standing, code, compared};
ghost use Rattle.evr0_compare.specs.Merge.{Views, Lists};
ghost use Rattle.section_pair.specs.Maps.{verdict_out};

use crate::side::Side;
use crate::verdict::Verdict;

// How many entries the list has, and how many of them are agreed.
#[derive(Clone, Copy, Debug, PartialEq, Eq)]
pub struct Listing {
    pub entries: usize,
    pub agreed: usize,
}

// The byte of an entry, where the table has room for it.
fn put(verdicts: &mut [u8], at: usize, verdict: Verdict)
    ensures { verdicts.new ≡ set verdicts.old at (code (verdict_out verdict)) }
{
    if at < verdicts.len() {
        verdicts[at] = verdict.into();
    }
}

// The list of the propositions of two sections: its bytes where the table has room, and its counts.
// Kept (6a): C lends the table and reads the counts.
pub fn list(first: Side, second: Side, verdicts: &mut [u8]) -> Listing
    ensures { (xs ys : List Standing) → Views first.entry.payload.now first.entry.starts.now first.entry.flags.now xs
        → Views second.entry.payload.now second.entry.starts.now second.entry.flags.now ys
        → Lists (compared xs ys) verdicts.old verdicts.new result.entries result.agreed }
{
    let total = first.starts.len() + second.starts.len();
    let mut i = 0;
    let mut j = 0;
    let mut entries = 0;
    let mut agreed = 0;
    // Kept (3d): a merge goes on in either list or in both, by the verdict; a `for` would have a range that it mostly leaves early.
    while i + j < total {
        let verdict = first.next_verdict(i, second, j);
        put(verdicts, entries, verdict);
        entries += 1;
        match verdict {
            Verdict::Agreed => {
                i += 1;
                j += 1;
                agreed += 1;
            }
            Verdict::Contradicted => {
                i += 1;
                j += 1;
            }
            Verdict::FirstOnly => i += 1,
            Verdict::SecondOnly => j += 1,
        }
    }
    Listing { entries, agreed }
}
