// What writing the columns of a section and taking them back answer where they refuse.
#![tactic(auto)]

ghost use Rattle.local_format.specs.Out.{refused};
ghost use Rattle.local_format.specs.Maps.{refusal_out};
ghost use Rattle.evr0.specs.Answer.{lent_of};
ghost use Rattle.columns_answer.specs.Copies.{with_output, Copies};
ghost use Rattle.columns_answer.specs.Maps.{columns_out};

use lent_table::clear;
use local_format::refusal::Refusal;

// A refusal, which leaves zeros in every lent table and in the output.
// Kept (2d): evr0_tables' `Tables { .. }.clear()` clears three of the four: made for this one call, it and `clear(output)` are as long as four calls.
// Kept (5d): a struct of four `&mut` slices is taken apart again at once: the decoder takes three of them, the rebuilding the fourth.
pub fn refuse_all(
    refusal: Refusal,
    propositions: &mut [u64],
    proofs: &mut [u64],
    depths: &mut [u64],
    output: &mut [u8],
) -> Result<usize, Refusal>
    ensures { Copies (refused (refusal_out refusal))
        (with_output (lent_of propositions.old proofs.old depths.old) output.old)
        (with_output (lent_of propositions.new proofs.new depths.new) output.new) (columns_out result) }
{
    clear(propositions);
    clear(proofs);
    clear(depths);
    clear(output);
    Err(refusal)
}
