// The parents of the proofs of a payload whose tables have been read: each cell 25 and 26, proof by proof.
ghost use Rattle.std.specs.Prelude.{◌≡◌, List, ◌<◌, length};
ghost use Rattle.local_format.specs.Maps.{answer_out};
ghost use Rattle.derivation.specs.Rule.{Rule};
ghost use Rattle.derivation.specs.Section.{proof_at};
ghost use Rattle.rounds.specs.Rounds as of;
ghost use Rattle.evr0_pass.specs.Tables.{tables_by};

use evr0_fields::number::PropositionIndex;
use evr0_pass::pass::{Tables, after_name};
use local_format::field::LittleEndian;
use local_format::refusal::{Refusal, check};

// The parents of the proof i: each number is below i and above the one before, and each proof has this one's proposition and authority.
// Kept (5d): six functions, three of evr0_pass, ask for an index below the number of proofs; a struct of it would be made for each proof and each parent.
fn check_parents(tables: Tables, i: usize) -> Result<(), Refusal>
    requires { i < length tables.starts.now }
    ensures { (rules : List Rule) → answer_out (λ done. done) result
        ≡ of.kin_of tables.entry.layout.parents_at (tables_by rules tables.entry) (proof_at (tables_by rules tables.entry) i) }
{
    let start = tables.starts[i] as usize;
    let proposition = PropositionIndex(u32::le_at(tables.payload, start + 4));
    let authority = u32::le_at(tables.payload, after_name(tables.payload, start));
    let (first, end) = tables.cells(i);
    let mut least = 0;
    for cell in first..end {
        let at = tables.layout.parents_at + 4 * cell;
        let found = tables.parent(cell);
        check((found < i) & (least <= found), 25, at)?;
        check(tables.agrees(found, proposition, authority), 26, at)?;
        least = found + 1;
    }
    Ok(())
}

// The parents of each proof.
pub fn check_kin(tables: Tables) -> Result<(), Refusal>
    ensures { (rules : List Rule) → answer_out (λ done. done) result ≡ of.kin tables.entry.layout.parents_at (tables_by rules tables.entry) }
{
    for i in 0..tables.starts.len() {
        check_parents(tables, i)?;
    }
    Ok(())
}
