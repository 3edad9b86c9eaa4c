// The head of a section taken back, and what it announces.
ghost use Rattle.std.specs.Prelude.{◌≡◌, ◌∷◌, [], ℕ, ◌+◌, ◌≤◌, List, length, drop};
ghost use Rattle.local_format.specs.Out.{ok};
ghost use Rattle.local_format.specs.Field.{le};
ghost use Rattle.byte_output.specs.Maps.{Same};
ghost use Rattle.groups.specs.Groups.{number_of};
ghost use Rattle.groups.specs.Maps.{width_of};
ghost use Rattle.evr0_section.specs.Head.{span_width};
ghost use Rattle.evr0_columns.specs.Columns.{head_items, Head};
ghost use Rattle.columns_rebuild.specs.Stand.{Stand};
ghost use Rattle.columns_rebuild.specs.Maps.{Announces, HeadTakes};

use crate::first::table_at;
use crate::row::take_rows;
use byte_output::Output;
use column_fields::table::{Table, span_of};
use groups::read::{Width, number_at};
use local_format::field::field_at;
use local_format::refusal::Refusal;

// How many records each table has, and the bytes of a span's start and of its end.
#[derive(Clone, Copy, Debug, PartialEq, Eq)]
pub struct Announced {
    pub propositions: usize,
    pub proofs: usize,
    pub witnesses: usize,
    pub parents: usize,
    pub span: Width,
}

// What a head announces, and the place after it in the columns.
#[derive(Clone, Copy, Debug, PartialEq, Eq)]
pub struct TakenHead {
    pub announced: Announced,
    pub next: usize,
}

// The width of a span under the schema at a place.
// Kept (1c, 4c): by `map_or(Width::Four, |schema| span_of(schema.value))` no proof was found: map_or promises by cases, field_at by one equation.
fn span_at(bytes: &[u8], at: usize) -> Width
    ensures { at + 2 ≤ length bytes.now → width_of result ≡ span_width (le 2 bytes.now at) }
{
    match field_at::<u16>(bytes, at) {
        Some(schema) => span_of(schema.value),
        None => Width::Four,
    }
}

// A count at a place; 0 where there is none.
fn count_at(bytes: &[u8], at: usize) -> usize
    ensures { (n : ℕ) (rest : List ℕ)
        → number_of 4 (length bytes.now) (drop at bytes.now) ≡ ok (record { value = n; rest = rest }) → result ≡ n }
{
    number_at(bytes, at, Width::Four).map_or(0, |count| count.value as usize)
}

// What the head announces whose fields start at these places: the third is the schema, the last four are the counts.
fn read_announced(bytes: &[u8], starts: &[usize; 13]) -> Announced
    ensures { (h : Head) → Stand bytes.now head_items (h ∷ []) starts.now → Announces h result }
{
    Announced {
        propositions: count_at(bytes, starts[9]),
        proofs: count_at(bytes, starts[10]),
        witnesses: count_at(bytes, starts[11]),
        parents: count_at(bytes, starts[12]),
        span: span_at(bytes, starts[2]),
    }
}

pub fn take_head(bytes: &[u8], out: &mut Output) -> Result<TakenHead, Refusal>
    requires { out.old.next ≡ 0 }
    ensures same { Same out.old out.new }
    ensures takes { HeadTakes bytes.now out.old out.new result }
{
    let mut starts = [0usize; 13];
    let next = table_at(bytes, 0, 1, Table::Head, &mut starts)?;
    let announced = read_announced(bytes, &starts);
    take_rows(bytes, Table::Head, 1, &mut starts, out);
    Ok(TakenHead { announced, next })
}
