// Fields that bring no number: reserved bytes and digests.
ghost use Rattle.std.specs.Prelude.{◌≡◌};
ghost use Rattle.local_format.specs.Maps.{answer_out};
ghost use Rattle.evr0_section.specs.Head.{digest_at};
ghost use Rattle.evr0_section.specs.Proof.{zeros_at};

use local_format::field::Field;
use local_format::part::tail;
use local_format::refusal::{Refusal, check, refuse};

// Three reserved bytes: the place after them.
pub fn zeros_at(bytes: &[u8], at: usize) -> Result<usize, Refusal>
    ensures { answer_out (λ next. next) result ≡ zeros_at bytes.now at }
{
    let Some(zeros) = tail(bytes, at).first_chunk::<3>() else {
        return Err(refuse(5, at));
    };
    let next = at + 3;
    check(*zeros == [0; 3], 9, next)?;
    Ok(next)
}

// A digest where it stands.
pub fn digest_at(bytes: &[u8], at: usize) -> Result<Field<&[u8; 32]>, Refusal>
    ensures { answer_out (λ digest. record { bytes = digest.value.now; next = digest.next }) result ≡ digest_at bytes.now at }
{
    let Some(digest) = tail(bytes, at).first_chunk::<32>() else {
        return Err(refuse(5, at));
    };
    Ok(Field {
        value: digest,
        next: at + 32,
    })
}
