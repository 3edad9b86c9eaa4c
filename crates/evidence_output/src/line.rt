// The lines that `evidence` prints.
ghost use Rattle.std.specs.Prelude.{[], ◌∷◌, ◌++◌};
ghost use Rattle.byte_output.specs.Maps.{Writes};
ghost use Rattle.evr0_head.specs.Maps.{counts_out};
ghost use Rattle.evidence_output.specs.Decimal.{decimal};
ghost use Rattle.evidence_output.specs.Output.{spaced, line, head_line};

use byte_output::Output;
use evr0_head::counts::Counts;

// Kept (4d): `write!(out, "{n}")` needs a fmt::Write of Output, with its laws, and a proof that it writes these digits, which `io::decimal` promises.
fn put_decimal(out: &mut Output, n: usize)
    ensures { Writes out.old (decimal n) out.new }
{
    let mut text = [0u8; 20];
    let len = io::decimal(n as u64, &mut text);
    // so few bytes at once would be a call of memcpy
    for digit in &text[..len] {
        out.put(*digit);
    }
}

// A number after a space.
// Kept (4d): as put_decimal.
fn put_number(out: &mut Output, n: usize)
    ensures { Writes out.old (spaced (n ∷ [])) out.new }
{
    out.put(b' ');
    put_decimal(out, n);
}

// A line but for what it starts with: numbers, each after a space.
// Kept (4d): as put_decimal; a slice of numbers has no Display.
fn end_line(out: &mut Output, numbers: &[usize])
    ensures { Writes out.old (spaced numbers.now ++ (0x0A ∷ [])) out.new }
{
    for number in numbers {
        put_number(out, *number);
    }
    out.put(b'\n');
}

// Kept (4d): as end_line.
pub fn put_line(out: &mut Output, start: &[u8], numbers: &[usize])
    ensures { Writes out.old (line start.now numbers.now) out.new }
{
    out.put_bytes(start);
    end_line(out, numbers);
}

// Kept (4d): as end_line.
#[tactic(auto, unfolding(crate::specs::Output::head_line))]
pub fn put_head(out: &mut Output, counts: Counts, cursor: usize)
    ensures { Writes out.old (head_line (counts_out counts) cursor) out.new }
{
    put_line(
        out,
        b"EVR0",
        &[
            counts.propositions,
            counts.proofs,
            counts.witnesses,
            counts.parents,
            cursor,
        ],
    );
}

// A line that starts with a number.
// Kept (4d): as end_line.
pub fn put_numbers(out: &mut Output, first: usize, numbers: &[usize])
    ensures { Writes out.old (line (decimal first) numbers.now) out.new }
{
    put_decimal(out, first);
    end_line(out, numbers);
}
