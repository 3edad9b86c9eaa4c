// The lent tables of one section.
use authorised_table::table::authorised_table;
use evr0_rules::settle::Rules;
use lent_table::clear;
use local_format::refusal::Refusal;
use section_pair::pair::Section;

// Bytes, and where a section starts in them.
#[derive(Clone, Copy)]
pub struct Place<'a> {
    pub bytes: &'a [u8],
    pub cursor: usize,
}

// Where a section that was decoded ends, and how many propositions it has.
#[derive(Clone, Copy, Debug, PartialEq, Eq)]
pub struct Found {
    pub end: usize,
    pub count: usize,
}

// Where its propositions and proofs start, the depths and marks of the proofs, and which propositions are authorised.
#[derive(Drop)]
pub struct Tables<'a> {
    pub propositions: &'a mut [u64],
    pub proofs: &'a mut [u64],
    pub depths: &'a mut [u64],
    pub marks: &'a mut [u8],
    pub authorised: &'a mut [u8],
}

impl<'a> Tables<'a> {
    ghost use Rattle.std.specs.Prelude.{◌≡◌};
    ghost use Rattle.local_format.specs.Refusal as of;
    ghost use Rattle.local_format.specs.Out.{refused};
    ghost use Rattle.local_format.specs.Maps.{answer_out};
    ghost use Rattle.evr0_rules.specs.Maps.{given_out};
    ghost use Rattle.authorised_table.specs.Answer.{Filled};
    ghost use Rattle.section_pair.specs.Steps.{Told};
    ghost use Rattle.compare_sections.specs.Parts.{Decodes};
    ghost use Rattle.compare_sections.specs.Maps.{found_out, lent_out, SameTables};

    // Zeros in all five.
    pub fn clear(&mut self)
        ensures same { SameTables self.old self.new }
        ensures cleared { (q : of.Refusal) → Filled (refused q) (lent_out self.old) (lent_out self.new) }
    {
        clear(self.propositions);
        clear(self.proofs);
        clear(self.depths);
        clear(self.marks);
        clear(self.authorised);
    }

    // The section at a place.
    pub fn decode(&mut self, rules: Rules, at: Place) -> Result<Found, Refusal>
        ensures same { SameTables self.old self.new }
        ensures decodes { Decodes (given_out rules.entry) at.entry.bytes.now at.entry.cursor (lent_out self.old) (lent_out self.new)
            (answer_out found_out result) }
    {
        let decoded = authorised_table(
            rules,
            at.bytes,
            at.cursor,
            self.propositions,
            self.proofs,
            self.depths,
            self.marks,
            self.authorised,
        );
        let accepted = decoded.outcome?;
        Ok(Found {
            end: decoded.cursor,
            count: accepted.counts.propositions,
        })
    }

    // The same section, for a comparison.
    pub fn section<'b>(&'b self, at: Place<'b>, found: Found) -> Section<'b>
        requires { ∥ Told at.bytes.now at.cursor found.end found.count self.now.propositions.now self.now.authorised.now ∥₁ }
        ensures place { (result.bytes.now ≡ at.entry.bytes.now) × (result.cursor ≡ at.entry.cursor) × (result.end ≡ found.end) }
        ensures tables { (result.count ≡ found.count) × (result.starts.now ≡ self.now.propositions.now) × (result.flags.now ≡ self.now.authorised.now) }
    {
        Section {
            bytes: at.bytes,
            cursor: at.cursor,
            end: found.end,
            count: found.count,
            starts: self.propositions,
            flags: self.authorised,
        }
    }
}
