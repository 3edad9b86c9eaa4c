// The numbers of records, one kind for each of the four tables: how many records the table has, where the one with a number starts, and what is
// read there.
ghost use Rattle.std.specs.Prelude.{◌≡◌, ℕ, List};
ghost use Rattle.local_format.specs.Maps.{answer_out};
ghost use Rattle.evr0_section.specs.Rows.{Entry};
ghost use Rattle.evr0_section.specs.Section.{Section};
ghost use Rattle.evr0_section.specs.Proposition as propositions;
ghost use Rattle.evr0_section.specs.Proof as proofs;
ghost use Rattle.evr0_section.specs.Witness as witnesses;
ghost use Rattle.evr0_head.specs.Maps.{counts_out};
ghost use Rattle.evr0_records.specs.Maps.{proposition_record, proof_record, witness_record};
ghost use Rattle.evr0_read.specs.Entry.{shown_proposition, shown_settled};
ghost use Rattle.evr0_read.specs.Maps.{entry_out, parent_number};
ghost use Rattle.evr0_read.specs.Numbered.{Counted, Starts, Reads};

use crate::cell::{ParentNumber, parent_at, parent_place, witness_at, witness_place};
use crate::entry::{Entry, proof_at, proposition_at};
use crate::table::entry_or;
use evr0_fields::number::{ProofNumber, PropositionIndex, WitnessNumber};
use evr0_head::counts::Counts;
use evr0_records::proof::Proof;
use evr0_records::proposition::Proposition;
use evr0_records::witness::Witness;
use local_format::refusal::Refusal;

// Kept (1a): C and public functions hand on any schema as a number, so these methods take it so.
pub trait Numbered: Copy {
    type Record;

    // An entry of the table, what is shown of it, and what the code has for that.
    ghost Item: { Type 0 };

    ghost Shown: { Type 0 };

    ghost show: { ℕ → Item → Shown };

    ghost record_out: { Self.Record → Shown };

    ghost table: { Section → List (Entry Item) };

    ghost place: { Self → ℕ };

    // Kept (2d): the laws of this trait speak of its own place; a trait for places alone would be brought in by `use` wherever a number is one.
    fn place(self) -> usize
        ensures { result ≡ place self };

    fn count(counts: Counts) -> usize
        ensures { Counted table (counts_out counts) result };

    // Where the record starts, in a payload of `len` bytes, by the starts of propositions and proofs.
    fn start(
        self,
        len: usize,
        schema: u16,
        counts: Counts,
        propositions: &[u64],
        proofs: &[u64],
    ) -> usize
        ensures { Starts table (place self) len schema (counts_out counts) propositions.now proofs.now result };

    fn read_at(payload: &[u8], schema: u16, start: usize) -> Result<Entry<Self::Record>, Refusal>
        ensures { Reads table show payload.now schema start (answer_out (entry_out record_out) result) };
}

impl Numbered for PropositionIndex {
    type Record = Proposition;

    ghost Item = { propositions.Proposition };

    ghost Shown = { propositions.Proposition };

    ghost show = { shown_proposition };

    ghost record_out = { proposition_record };

    ghost table = { λ s. s.tables.propositions.entries };

    ghost place = { λ n. n.0 };

    fn place(self) -> usize {
        self.0 as usize
    }

    fn count(counts: Counts) -> usize {
        counts.propositions
    }

    fn start(
        self,
        _len: usize,
        _schema: u16,
        _counts: Counts,
        propositions: &[u64],
        _proofs: &[u64],
    ) -> usize {
        entry_or(propositions, self.0 as usize, 0) as usize
    }

    fn read_at(payload: &[u8], _schema: u16, start: usize) -> Result<Entry<Proposition>, Refusal> {
        proposition_at(payload, start)
    }
}

impl Numbered for ProofNumber {
    type Record = Proof;

    ghost Item = { proofs.Settled };

    ghost Shown = { proofs.ProofRecord };

    ghost show = { shown_settled };

    ghost record_out = { proof_record };

    ghost table = { λ s. s.tables.proofs.entries };

    ghost place = { λ n. n.0 };

    fn place(self) -> usize {
        self.0 as usize
    }

    fn count(counts: Counts) -> usize {
        counts.proofs
    }

    fn start(
        self,
        _len: usize,
        _schema: u16,
        _counts: Counts,
        _propositions: &[u64],
        proofs: &[u64],
    ) -> usize {
        entry_or(proofs, self.0 as usize, 0) as usize
    }

    fn read_at(payload: &[u8], _schema: u16, start: usize) -> Result<Entry<Proof>, Refusal> {
        proof_at(payload, start)
    }
}

impl Numbered for WitnessNumber {
    type Record = Witness;

    ghost Item = { witnesses.WitnessRecord };

    ghost Shown = { witnesses.WitnessRecord };

    ghost show = { λ start w. w };

    ghost record_out = { witness_record };

    ghost table = { λ s. s.tables.witnesses.entries };

    ghost place = { λ n. n.0 };

    fn place(self) -> usize {
        self.0 as usize
    }

    fn count(counts: Counts) -> usize {
        counts.witnesses
    }

    fn start(
        self,
        len: usize,
        schema: u16,
        counts: Counts,
        _propositions: &[u64],
        _proofs: &[u64],
    ) -> usize {
        witness_place(len, schema, counts, self)
    }

    fn read_at(payload: &[u8], schema: u16, start: usize) -> Result<Entry<Witness>, Refusal> {
        witness_at(payload, schema, start)
    }
}

impl Numbered for ParentNumber {
    type Record = ProofNumber;

    ghost Item = { ℕ };

    ghost Shown = { ℕ };

    ghost show = { λ start n. n };

    ghost record_out = { parent_number };

    ghost table = { λ s. s.tables.parents.entries };

    ghost place = { λ n. n.0 };

    fn place(self) -> usize {
        self.0 as usize
    }

    fn count(counts: Counts) -> usize {
        counts.parents
    }

    fn start(
        self,
        len: usize,
        _schema: u16,
        counts: Counts,
        _propositions: &[u64],
        _proofs: &[u64],
    ) -> usize {
        parent_place(len, counts, self)
    }

    fn read_at(payload: &[u8], _schema: u16, start: usize) -> Result<Entry<ProofNumber>, Refusal> {
        parent_at(payload, start)
    }
}
