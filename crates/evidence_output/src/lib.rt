// The program's work: from the bytes of its input to those of its output.
#![tactic(auto)]

pub mod input;
mod line;
mod listed;

ghost use Rattle.std.specs.Prelude.{◌++◌, ◌-◌, ◌≤◌, length, take, drop};
ghost use Rattle.byte_output.specs.Maps.{Writes};
ghost use Rattle.evr0_head.specs.Maps.{counts_out};
ghost use Rattle.evidence_output.specs.Listed.{lines_at};
ghost use Rattle.evidence_output.specs.Output.{head_line, output_of};
ghost use Rattle.evidence_output.specs.Written.{Written};

use byte_output::Output;
use evr0_head::counts::Counts;

// The lines of an accepted section that ends at `end`, with the starts and the depths of its proofs.
fn put_accepted(
    out: &mut Output,
    input: &[u8],
    counts: Counts,
    end: usize,
    proofs: &[u64],
    depths: &[u64],
)
    requires { (8 ≤ end) × (end ≤ length input.now) }
    ensures { Writes out.old
        (head_line (counts_out counts) end ++ lines_at (take (end - 8) (drop 8 input.now)) proofs.now depths.now) out.new }
{
    crate::line::put_head(out, counts, end);
    crate::listed::put_proofs(out, &input[8..end], proofs, depths);
}

// Kept (6a): no heap, so the tables are as long as any input needs.
fn put_evidence(out: &mut Output, input: &[u8])
    ensures { Writes out.old (output_of input.now) out.new }
{
    if 65536 < input.len() {
        out.put_bytes(b"too long\n");
        return;
    }
    let mut propositions = [0u64; 4369];
    let mut proofs = [0u64; 1872];
    let mut depths = [0u64; 1872];
    let decoded = evr0::section::decode_evr0_unmarked(
        input,
        0,
        &mut propositions,
        &mut proofs,
        &mut depths,
    );
    match decoded.outcome {
        Err(refusal) => {
            crate::line::put_line(out, b"refused", &[refusal.number as usize, refusal.offset]);
        }
        Ok(accepted) => {
            let counts = accepted.counts;
            put_accepted(
                out,
                input,
                counts,
                decoded.cursor,
                &proofs[..counts.proofs],
                &depths[..counts.proofs],
            );
        }
    }
}

// Kept (6a): no heap, so the output is lent, and its length is answered.
pub fn evidence(input: &[u8], output: &mut [u8]) -> usize
    ensures { Written output.old 0 (output_of input.now) output.new result }
{
    let len = output.len();
    let mut out = Output {
        bytes: output,
        next: 0,
    };
    put_evidence(&mut out, input);
    out.next.min(len)
}
