// The last pass, over a payload whose tables have been read: each parent 25 and 26, the depth 27, the witnesses 28 and 29.
ghost use Rattle.std.specs.Prelude.{◌≡◌, ◌&&◌, ◌+◌, ◌*◌, ◌≤◌, ◌<◌, List, eqb, length, get_or, take};
ghost use Rattle.local_format.specs.Field.{le};
ghost use Rattle.local_format.specs.Maps.{answer_out};
ghost use Rattle.derivation.specs.Rule as derivation;
ghost use Rattle.derivation.specs.Section.{proof_at, parent_at};
ghost use Rattle.derivation.specs.Pass as of;
ghost use Rattle.evr0_rules.specs.Maps.{asking};
ghost use Rattle.evr0_pass.specs.View.{nameless, proof_by, after_name, WitnessesThere, TablesThere, PolaritiesThere};
ghost use Rattle.evr0_pass.specs.Maps.{layout_out, tables_in, proof_out, suited, filled, Derives};

use evr0_fields::number::{ProofNumber, PropositionIndex, WitnessNumber};
use evr0_head::counts::Counts;
use evr0_rules::rule::polarity_fits;
use local_format::field::LittleEndian;
use local_format::refusal::{Refusal, check};

// The counts of the tables, the size of a witness, and where the tables of the witnesses and of the parents start.
#[derive(Clone, Copy, Debug, PartialEq, Eq)]
pub struct Layout {
    pub counts: Counts,
    pub witness_size: usize,
    pub witnesses_at: usize,
    pub parents_at: usize,
}

// A proof, with what its rule asks.
#[derive(Clone, Copy, Debug, PartialEq, Eq)]
pub struct SettledProof {
    pub proof_id: ProofNumber,
    pub proposition_index: PropositionIndex,
    // Kept (1a): it waits in the lent table of depths, since decoders have no heap, and entries there are words; 2 where the rule asks none.
    pub polarity: u64,
    pub authority_context: u32,
    pub witness_first: WitnessNumber,
    pub witness_count: u32,
    pub parent_first: u32,
    pub parent_count: u32,
    // Kept (1a): the Rust's field: the byte that was read.
    pub authorized_operation: u8,
}

// A payload whose tables have been read: the places where its proofs start, and its layout.
#[derive(Clone, Copy)]
pub struct Tables<'a> {
    pub payload: &'a [u8],
    pub starts: &'a [u64],
    pub layout: Layout,
    pub ghost there: { TablesThere payload.now starts.now (layout_out layout) },
}

// The place after the rule's name of the proof at `start`.
pub fn after_name(payload: &[u8], start: usize) -> usize
    requires { after_name payload.now start ≤ length payload.now }
    ensures { result ≡ after_name payload.now start }
{
    start + 10 + (u16::le_at(payload, start + 8) as usize)
}

// One witness of a proof: its proposition is the proof's, else 28; its polarity is the one that the proof's rule asks, else 29.
// Kept (1a): the word that waits in the lent table of depths, and the witness's byte in the payload.
fn suits(
    asked: u64,
    own: PropositionIndex,
    found: PropositionIndex,
    polarity: u8,
) -> Result<(), Refusal>
    ensures { (rule : derivation.Rule) → answer_out (λ done. done) result ≡ suited (asking asked rule) own.0 found.0 polarity }
{
    check(found.0 == own.0, 28, 0)?;
    check(polarity_fits(asked, polarity), 29, 0)
}

// Where a witness starts in a payload of this length.
pub fn witness_start(len: usize, tables: Layout, witness: usize) -> usize
    requires { WitnessesThere len (layout_out tables) × (witness < tables.counts.witnesses) }
    ensures { (result ≡ tables.witnesses_at + tables.witness_size * witness) × (result + 76 ≤ len) }
{
    tables.witnesses_at + tables.witness_size * witness
}

impl<'a> Tables<'a> {
    ghost use Rattle.evr0_pass.specs.Tables.{tables_by, ProofOf};

    // The proof with this place, whose rule asks this polarity.
    // Kept (5d): three methods, and three functions of evr0_rounds, ask for an index below the number of proofs; a struct of it would be made for each parent.
    // Kept (1a): the word that waits in the lent table of depths until the proof's depth takes its place.
    fn proof_at(&self, i: usize, polarity: u64) -> SettledProof
        requires { i < length self.now.starts.now }
        ensures { (rule : derivation.Rule)
            → proof_out rule result ≡ proof_by (asking polarity rule) self.now.payload.now (get_or self.now.starts.now i 0) }
    {
        let payload = self.payload;
        let start = self.starts[i] as usize;
        let rest = after_name(payload, start);
        SettledProof {
            proof_id: ProofNumber(u32::le_at(payload, start)),
            proposition_index: PropositionIndex(u32::le_at(payload, start + 4)),
            polarity,
            authority_context: u32::le_at(payload, rest),
            witness_first: WitnessNumber(u32::le_at(payload, rest + 4)),
            witness_count: u32::le_at(payload, rest + 8),
            parent_first: u32::le_at(payload, rest + 12),
            parent_count: u32::le_at(payload, rest + 16),
            authorized_operation: payload[rest + 20],
        }
    }

    // The cells of the parents of the proof with this place: the first, and the one after the last.
    pub fn cells(&self, i: usize) -> (usize, usize)
        requires { i < length self.now.starts.now }
        ensures there { result.1 ≤ self.now.layout.counts.parents }
        ensures numbers { (rules : List derivation.Rule) → (result.0 ≡ (proof_at (tables_by rules self.now) i).first_parent)
            × (result.1 ≡ result.0 + (proof_at (tables_by rules self.now) i).parent_count) }
    {
        let rest = after_name(self.payload, self.starts[i] as usize);
        let first = u32::le_at(self.payload, rest + 12) as usize;
        (first, first + u32::le_at(self.payload, rest + 16) as usize)
    }

    // The parent in a cell.
    pub fn parent(&self, cell: usize) -> usize
        requires { cell < self.now.layout.counts.parents }
        ensures { (rules : List derivation.Rule) → result ≡ parent_at (tables_by rules self.now) cell }
    {
        u32::le_at(self.payload, self.layout.parents_at + 4 * cell) as usize
    }

    // Where a witness starts.
    pub fn witness_start(&self, witness: usize) -> usize
        requires { witness < self.now.layout.counts.witnesses }
        ensures { (result ≡ self.now.layout.witnesses_at + self.now.layout.witness_size * witness)
            × (result + 76 ≤ length self.now.payload.now) }
    {
        witness_start(self.payload.len(), self.layout, witness)
    }

    // Whether the proof with this place has this proposition and this authority.
    pub fn agrees(&self, i: usize, proposition: PropositionIndex, authority: u32) -> bool
        requires { i < length self.now.starts.now }
        ensures { let start = get_or self.now.starts.now i 0 in result ≡ (eqb (le 4 self.now.payload.now (start + 4)) proposition.0 && eqb
            (le 4 self.now.payload.now (after_name self.now.payload.now start)) authority) }
    {
        let payload = self.payload;
        let start = self.starts[i] as usize;
        let found = u32::le_at(payload, start + 4);
        let granted = u32::le_at(payload, after_name(payload, start));
        (found == proposition.0) & (granted == authority)
    }

    // The parents of `proof`: the greatest of their depths, 0 without parents.
    // Kept (2d): `check_parents` of evr0_rounds walks the same cells without depths, which are not known there; the steps of both are two `check`s.
    // Kept (6a): callers in C lend a table of starts and one of depths; a parent is a cell of the payload, which holds a proof's number.
    fn parents_from(&self, depths: &[u64], proof: SettledProof) -> Result<u64, Refusal>
        requires { ProofOf self.now depths.now (proof_out nameless proof) }
        ensures { (rules : List derivation.Rule) (rule : derivation.Rule)
            → answer_out (λ depth. depth) result ≡ of.parents_from self.now.layout.parents_at (tables_by rules self.now)
            (proof_out rule proof) (take proof.proof_id.0 depths.now) proof.parent_count proof.parent_first 0 0 }
    {
        let number = proof.proof_id.place();
        let first = proof.parent_first as usize;
        let end = first + proof.parent_count as usize;
        let mut least: usize = 0;
        let mut deepest: u64 = 0;
        for cell in first..end {
            let at = self.layout.parents_at + 4 * cell;
            let parent = self.parent(cell);
            check((parent < number) & (least <= parent), 25, at)?;
            let agree = self.agrees(parent, proof.proposition_index, proof.authority_context);
            check(agree, 26, at)?;
            deepest = deepest.max(depths[parent]);
            least = parent + 1;
        }
        Ok(deepest)
    }

    // The witnesses of `proof`.
    fn witnesses_from(&self, proof: SettledProof) -> Result<(), Refusal>
        requires { proof.witness_first.0 + proof.witness_count ≤ self.now.layout.counts.witnesses }
        ensures { (rules : List derivation.Rule) (rule : derivation.Rule) → answer_out (λ done. done) result
            ≡ of.witnesses_from self.now.layout.parents_at (tables_by rules self.now) (proof_out rule proof) proof.witness_count
            proof.witness_first.0 }
    {
        let payload = self.payload;
        let first = proof.witness_first.place();
        let end = first + proof.witness_count as usize;
        for witness in first..end {
            let at = self.witness_start(witness);
            let found = PropositionIndex(u32::le_at(payload, at + 4));
            suits(
                proof.polarity,
                proof.proposition_index,
                found,
                payload[at + 8],
            )?;
        }
        Ok(())
    }

    // One proof, after those whose depths are known.
    fn depth_of(&self, depths: &[u64], proof: SettledProof) -> Result<u64, Refusal>
        requires { ProofOf self.now depths.now (proof_out nameless proof) }
        ensures { (rules : List derivation.Rule) (rule : derivation.Rule)
            → answer_out (λ depth. depth) result ≡ of.depth_of self.now.layout.parents_at (tables_by rules self.now) (proof_out rule proof)
            (take proof.proof_id.0 depths.now) }
    {
        let deepest = self.parents_from(depths, proof)?;
        check(deepest < 256, 27, 0)?;
        self.witnesses_from(proof)?;
        Ok(deepest + 1)
    }

    // The depth of each proof at the front of the lent table, which brings the polarities that the proofs' rules ask.
    // Kept (6a): callers in C lend a table of starts and one of depths.
    fn derive_all(&self, depths: &mut [u64]) -> Result<(), Refusal>
        requires { length self.now.starts.now ≤ length depths.old }
        ensures { (rules : List derivation.Rule) → PolaritiesThere rules self.now.payload.now self.now.starts.now depths.old
            → filled result (take (length self.now.starts.now) depths.new) ≡ of.depths self.now.layout.parents_at (tables_by rules self.now) }
    {
        for i in 0..self.starts.len() {
            let proof = self.proof_at(i, depths[i]);
            depths[i] = self.depth_of(depths, proof)?;
        }
        Ok(())
    }
}

// The depth of each proof, whose starts are given, at the front of the lent table, and zeros past them; a refusal leaves zeros. The table brings the
// polarities that the proofs' rules ask.
pub fn derive(
    payload: &[u8],
    starts: &[u64],
    layout: Layout,
    depths: &mut [u64],
) -> Result<(), Refusal>
    requires tables_there { TablesThere payload.now starts.now (layout_out layout) × (length starts.now ≤ length depths.old) }
    requires polarities_there { (rules : List derivation.Rule) × PolaritiesThere rules payload.now starts.now depths.old }
    ensures { (rules : List derivation.Rule) → PolaritiesThere rules payload.now starts.now depths.old
        → Derives (of.depths layout.parents_at (tables_in rules payload.now starts.now layout))
        depths.old depths.new (answer_out (λ done. done) result) }
{
    let tables = Tables {
        payload,
        starts,
        layout,
    };
    let derived = tables.derive_all(depths);
    let filled = if derived.is_ok() { starts.len() } else { 0 };
    lent_table::clear_from(depths, filled);
    derived
}
