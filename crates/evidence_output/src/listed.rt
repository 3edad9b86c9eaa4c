// A line for each proof, from the starts of the proof records and the depths.
ghost use Rattle.std.specs.Prelude.{drop};
ghost use Rattle.byte_output.specs.Maps.{Writes};
ghost use Rattle.evr0_section.specs.Proof.{proof_of};
ghost use Rattle.evidence_output.specs.Listed.{record_line, lines_at};

use byte_output::Output;
use evr0_records::proof::read_proof;
use local_format::part::tail;

fn put_record(out: &mut Output, payload: &[u8], start: usize, depth: usize)
    ensures { Writes out.old (record_line (proof_of (drop start payload.now)) depth) out.new }
{
    let Ok(read) = read_proof(tail(payload, start)) else {
        return;
    };
    let proof = read.item;
    crate::line::put_numbers(
        out,
        proof.proof_id.place(),
        &[
            proof.proposition_index.place(),
            proof.authority_context as usize,
            depth,
            proof.witness_count as usize,
        ],
    );
}

pub fn put_proofs(out: &mut Output, payload: &[u8], starts: &[u64], depths: &[u64])
    ensures { Writes out.old (lines_at payload.now starts.now depths.now) out.new }
{
    for (start, depth) in starts.iter().zip(depths) {
        put_record(out, payload, *start as usize, *depth as usize);
    }
}
