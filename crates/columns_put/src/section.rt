// A section, written as its columns.
ghost use Rattle.byte_output.specs.Maps.{Writes};
ghost use Rattle.groups.specs.Maps.{width_of};
ghost use Rattle.evr0_columns.specs.Columns.{proposition_items, proof_items};
ghost use Rattle.columns_put.specs.Places.{Inside};
ghost use Rattle.columns_put.specs.Due.{Due, Puts, LastIn, listed_moved, last_moved};

use crate::head::put_head;
use crate::records::Records;
use crate::table::put_table;
use byte_output::Output;
use column_fields::table::{Table, span_of};
use groups::read::Width;
use local_format::part::tail;

// The columns of the propositions and the proofs, which start at these places.
fn put_listed(payload: &[u8], propositions: &[u64], proofs: &[u64], out: &mut Output)
    requires { Inside payload.now proposition_items propositions.now × Inside payload.now proof_items proofs.now }
    ensures { Writes out.old (listed_moved payload.now propositions.now proofs.now) out.new }
{
    put_table(
        payload,
        Table::Propositions,
        Records::Listed(propositions),
        out,
    );
    put_table(payload, Table::Proofs, Records::Listed(proofs), out);
}

// Those of the witnesses and the parents, which end the payload.
fn put_even(payload: &[u8], span: Width, witnesses: usize, parents: usize, out: &mut Output)
    requires { LastIn (width_of span) payload.now witnesses parents }
    ensures { Writes out.old (last_moved (width_of span) payload.now witnesses parents) out.new }
{
    let size = 76 + 2 * span.size();
    let parents_at = payload.len() - 4 * parents;
    let witnesses_at = parents_at - size * witnesses;
    put_table(
        payload,
        Table::Witnesses(span),
        Records::Even {
            first: witnesses_at,
            size,
            count: witnesses,
        },
        out,
    );
    put_table(
        payload,
        Table::Parents,
        Records::Even {
            first: parents_at,
            size: 4,
            count: parents,
        },
        out,
    );
}

// The columns of a section whose tables were read, with the starts of its propositions and proofs in the payload: how long they are. Bytes past
// the output's end are dropped and counted.
// Kept (1a): the schema is the number that the decoder's public answer holds (`Accepted`), which C reads too.
// Kept (6a): the two tables are lent, already cut to their counts; no heap, so no Vec.
pub fn put_section(
    section: &[u8],
    propositions: &[u64],
    proofs: &[u64],
    witnesses: usize,
    parents: usize,
    schema: u16,
    out: &mut [u8],
) -> usize
    requires { Due section.now propositions.now proofs.now witnesses parents schema }
    ensures { Puts section.now out.old out.new result }
{
    let payload = tail(section, 8);
    let mut output = Output {
        bytes: out,
        next: 0,
    };
    put_head(section, &mut output);
    put_listed(payload, propositions, proofs, &mut output);
    put_even(payload, span_of(schema), witnesses, parents, &mut output);
    output.next
}
