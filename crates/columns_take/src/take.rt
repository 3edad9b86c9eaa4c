// The section of a column file, in a lent output, with what the decoder leaves in its tables.
ghost use Rattle.std.specs.Prelude.{◌≤◌, length, take};
ghost use Rattle.evr0.specs.Answer.{lent_of, room_of};
ghost use Rattle.evr0_rules.specs.Maps.{given_out};
ghost use Rattle.columns_answer.specs.Copies.{with_output, Copies, TakesBack};
ghost use Rattle.columns_answer.specs.Maps.{columns_out};
ghost use Rattle.columns_take.specs.Steps.{copy_of};

use columns_answer::refuse_all;
use columns_rebuild::section::rebuild;
use evr0::section::decode_evr0_by;
use evr0_rules::settle::Rules;
use lent_table::{clear, clear_from};
use local_format::refusal::{Refusal, refuse};

// The section that the first `len` bytes of the output are, and zeros past it; or the decoder's refusal.
// Kept (6a): no heap, so the section stands at the front of a lent output.
fn decode_rebuilt(
    rules: Rules,
    len: usize,
    propositions: &mut [u64],
    proofs: &mut [u64],
    depths: &mut [u64],
    output: &mut [u8],
) -> Result<usize, Refusal>
    requires { len ≤ length output.old }
    ensures { Copies (copy_of (given_out rules.entry)
        (room_of (lent_of propositions.old proofs.old depths.old)) (take len output.old))
        (with_output (lent_of propositions.old proofs.old depths.old) output.old)
        (with_output (lent_of propositions.new proofs.new depths.new) output.new) (columns_out result) }
{
    let decoded = decode_evr0_by(rules, &output[..len], 0, propositions, proofs, depths);
    match decoded.outcome {
        Err(refusal) => {
            clear_from(output, 0);
            Err(refusal)
        }
        Ok(_) => {
            clear_from(output, len);
            Ok(len)
        }
    }
}

// Takes columns back by the rules of a call: the four, or those of a table, which is loaded first. The output holds the section and zeros
// past it, the tables what the decoder leaves of it; a refusal leaves zeros in all four.
pub fn take_columns(
    rules: Rules,
    columns: &[u8],
    propositions: &mut [u64],
    proofs: &mut [u64],
    depths: &mut [u64],
    output: &mut [u8],
) -> Result<usize, Refusal>
    ensures { TakesBack (given_out rules.entry) columns.now
        (with_output (lent_of propositions.old proofs.old depths.old) output.old)
        (with_output (lent_of propositions.new proofs.new depths.new) output.new) (columns_out result) }
{
    if let Err(refusal) = rules.count() {
        return refuse_all(refusal, propositions, proofs, depths, output);
    }
    match rebuild(columns, output) {
        Err(refusal) => {
            clear(propositions);
            clear(proofs);
            clear(depths);
            Err(refusal)
        }
        Ok(len) => {
            if output.len() < len {
                return refuse_all(refuse(61, 0), propositions, proofs, depths, output);
            }
            decode_rebuilt(rules, len, propositions, proofs, depths, output)
        }
    }
}
