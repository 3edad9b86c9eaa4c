// The proof records of an accepted section, by the starts of its table.
ghost use Rattle.std.specs.Prelude.{◌≡◌};
ghost use Rattle.local_format.specs.Maps.{answer_out};
ghost use Rattle.evr0_records.specs.Maps.{sized_out, proof_record};
ghost use Rattle.evr0_rulings.specs.Held.{proof_in};

use evr0_fields::number::ProofNumber;
use evr0_records::proof::{Proof, read_proof};
use evr0_records::sized::Sized;
use local_format::part::tail;
use local_format::refusal::{Refusal, refuse};

// Kept (6a): the starts are a table that C lends.
#[tactic(auto, unfolding(crate::specs::Held::proof_in))]
pub fn proof_in(
    payload: &[u8],
    starts: &[u64],
    number: ProofNumber,
) -> Result<Sized<Proof>, Refusal>
    ensures { answer_out (sized_out proof_record) result ≡ proof_in payload.now starts.now number.0 }
{
    let start = *starts.get(number.place()).ok_or(refuse(62, 0))?;
    read_proof(tail(payload, start as usize))
}
