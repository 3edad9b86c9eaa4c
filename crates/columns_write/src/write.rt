// The columns of a section at a cursor.
ghost use Rattle.std.specs.Prelude.{◌≡◌, List, ℕ, length};
ghost use Rattle.local_format.specs.Out.{ok};
ghost use Rattle.evr0_columns.specs.Columns.{section_bytes, columns_of};
ghost use Rattle.columns_put.specs.Due.{Puts};
ghost use Rattle.evr0_head.specs.Maps.{counts_out};
ghost use Rattle.evr0.specs.Answer.{lent_of};
ghost use Rattle.evr0_rules.specs.Maps.{given_out};
ghost use Rattle.columns_answer.specs.Copies.{with_output, Copies, Writes};
ghost use Rattle.columns_answer.specs.Maps.{columns_out};
ghost use Rattle.columns_write.specs.Ready.{Ready, Full, fitted};

use columns_answer::refuse_all;
use columns_put::section::put_section;
use evr0::section::{Accepted, decode_evr0_by};
use evr0_rules::settle::Rules;
use lent_table::{clear, clear_from};
use local_format::refusal::{Refusal, refuse};

// The columns of an accepted section, which ends at `end`, to the front of the output: how long they are.
// Kept (6a): tables that C lends, cut to their counts.
fn put_accepted(
    bytes: &[u8],
    cursor: usize,
    end: usize,
    accepted: Accepted,
    propositions: &[u64],
    proofs: &[u64],
    output: &mut [u8],
) -> usize
    requires { Ready bytes.now cursor end propositions.now proofs.now (counts_out accepted.counts) accepted.schema }
    ensures { Puts (section_bytes bytes.now cursor end) output.old output.new result }
{
    let counts = accepted.counts;
    put_section(
        &bytes[cursor..end],
        &propositions[..counts.propositions],
        &proofs[..counts.proofs],
        counts.witnesses,
        counts.parents,
        accepted.schema,
        output,
    )
}

// Those columns in the output and zeros past them, where it is long enough: else 61, which leaves zeros in the output and in all tables.
// Kept (6a): no heap, so the output is lent, and a length is answered.
fn finish(
    bytes: &[u8],
    cursor: usize,
    end: usize,
    accepted: Accepted,
    propositions: &mut [u64],
    proofs: &mut [u64],
    depths: &mut [u64],
    output: &mut [u8],
) -> Result<usize, Refusal>
    requires { Full bytes.now cursor end (counts_out accepted.counts) accepted.schema
        (lent_of propositions.old proofs.old depths.old) }
    ensures { (full : Full bytes.now cursor end (counts_out accepted.counts) accepted.schema
        (lent_of propositions.old proofs.old depths.old))
        (columns : List ℕ) → columns_of (section_bytes bytes.now cursor end) ≡ ok columns
        → Copies (fitted (length output.old) full.section columns)
        (with_output (lent_of propositions.old proofs.old depths.old) output.old)
        (with_output (lent_of propositions.new proofs.new depths.new) output.new) (columns_out result) }
{
    let length = put_accepted(bytes, cursor, end, accepted, propositions, proofs, output);
    if output.len() < length {
        return refuse_all(refuse(61, 0), propositions, proofs, depths, output);
    }
    clear_from(output, length);
    Ok(length)
}

// Decodes the section at `cursor` by the rules of a call, the four or those of a table, and writes its columns into the output: the length written.
// The lent tables are the decoder's without marks. A longer output ends in zeros; a refusal, 61 for an output too short among them, leaves zeros in the output
// and in all tables.
pub fn write_columns(
    rules: Rules,
    bytes: &[u8],
    cursor: usize,
    propositions: &mut [u64],
    proofs: &mut [u64],
    depths: &mut [u64],
    output: &mut [u8],
) -> Result<usize, Refusal>
    ensures { Writes (given_out rules.entry) bytes.now cursor
        (with_output (lent_of propositions.old proofs.old depths.old) output.old)
        (with_output (lent_of propositions.new proofs.new depths.new) output.new) (columns_out result) }
{
    let decoded = decode_evr0_by(rules, bytes, cursor, propositions, proofs, depths);
    match decoded.outcome {
        Err(refusal) => {
            clear(output);
            Err(refusal)
        }
        Ok(accepted) => finish(
            bytes,
            cursor,
            decoded.cursor,
            accepted,
            propositions,
            proofs,
            depths,
            output,
        ),
    }
}
