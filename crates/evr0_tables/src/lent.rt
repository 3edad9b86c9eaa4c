// Tables that a caller lends.
ghost use Rattle.evr0_tables.specs.LentMaps.{SameTables, tables_out, Cleared};

// Where a section's propositions and proofs start, and a number for each proof: the polarity that its rule asks, and then its depth.
#[derive(Drop)]
pub struct Tables<'a> {
    pub propositions: &'a mut [u64],
    pub proofs: &'a mut [u64],
    pub depths: &'a mut [u64],
}

impl<'a> Tables<'a> {
    // Zeros in all three.
    // Kept (2d): `Tables` of compare_sections has five tables, each cleared by its own call; a loop over them needs one type of entries.
    pub fn clear(&mut self)
        ensures same { SameTables self.old self.new }
        ensures cleared { Cleared (tables_out self.old) (tables_out self.new) }
    {
        lent_table::clear(self.propositions);
        lent_table::clear(self.proofs);
        lent_table::clear(self.depths);
    }
}
