// Two sections that were decoded: 74, the list, 61.
ghost use Rattle.section_pair.specs.Steps.{Told};

use crate::list::list;
use crate::side::Side;
use crate::totals::{Totals, tally};
use evr0_read::table::{front, payload_of};
use lent_table::clear_from;
use local_format::refusal::{Refusal, check};
use local_format::tag::same;

// A section that was decoded: its bytes, its cursor, where it ends, how many propositions it has, and the tables that begin with their starts and flags.
#[derive(Clone, Copy)]
pub struct Section<'a> {
    pub bytes: &'a [u8],
    pub cursor: usize,
    pub end: usize,
    pub count: usize,
    pub starts: &'a [u64],
    pub flags: &'a [u8],
    pub ghost told: { ∥ Told bytes.now cursor end count starts.now flags.now ∥₁ },
}

impl<'a> Section<'a> {
    ghost use Rattle.std.specs.Prelude.{◌≡◌, ◌+◌, take};
    ghost use Rattle.local_format.specs.Text.{bytes_at};
    ghost use Rattle.local_format.specs.Maps.{answer_out};
    ghost use Rattle.evr0_read.specs.Listing.{payload_to};
    ghost use Rattle.section_pair.specs.Steps.{Holds};
    ghost use Rattle.section_pair.specs.Maps.{totals_out};

    // Its source set, 12 bytes after the cursor.
    #[tactic(auto, using(crate::proofs::PairLaws::inside_told))]
    fn source_set(self) -> &'a [u8]
        ensures { result.now ≡ bytes_at self.entry.bytes.now (self.entry.cursor + 12) 32 }
    {
        let at = self.cursor + 12;
        &self.bytes[at..at + 32]
    }

    fn side(self) -> Side<'a>
        ensures payload { result.payload.now ≡ payload_to self.entry.bytes.now self.entry.cursor self.entry.end }
        ensures starts { result.starts.now ≡ take self.entry.count self.entry.starts.now }
        ensures flags { result.flags.now ≡ self.entry.flags.now }
    {
        Side {
            payload: payload_of(self.bytes, self.cursor, self.end),
            starts: front(self.starts, self.count),
            flags: self.flags,
        }
    }

    // This section, the first, and the second. After 61 the table is full of the list's first bytes, and 74 leaves it as it was brought.
    // Kept (6a): C lends the table of verdicts, and the list's count says how much of it is filled.
    #[tactic(auto, using(crate::proofs::PairLaws::inside_told))]
    pub fn hold(self, second: Section, verdicts: &mut [u8]) -> Result<Totals, Refusal>
        ensures { (a : Told self.entry.bytes.now self.entry.cursor self.entry.end self.entry.count self.entry.starts.now self.entry.flags.now)
            (b : Told second.entry.bytes.now second.entry.cursor second.entry.end second.entry.count second.entry.starts.now second.entry.flags.now)
            → Holds a b verdicts.old verdicts.new (answer_out totals_out result) }
    {
        let matches = same(self.source_set(), second.source_set());
        check(matches, 74, second.cursor + 12)?;
        let listing = list(self.side(), second.side(), verdicts);
        check(listing.entries <= verdicts.len(), 61, 0)?;
        clear_from(verdicts, listing.entries);
        Ok(tally(self.count, second.count, listing))
    }
}
