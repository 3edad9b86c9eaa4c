// A function's head: its name, and where its block starts and how long it is.
ghost use Rattle.std.specs.Prelude.{◌≡◌};
ghost use Rattle.local_format.specs.Maps.{answer_out, span_out};
ghost use Rattle.semcode_records.specs.Maps.{taken_out};
ghost use Rattle.semcode_functions.specs.Function.{name_at, head_at};
ghost use Rattle.semcode_functions.specs.Maps.{head_is};

use local_format::field::{Field, field_at};
use local_format::refusal::{Refusal, check, refuse};
use local_format::text::{Span, spanned};

pub const MAX_FUNCTION_NAME_BYTES: usize = 1024;

// Places in the file.
#[derive(Clone, Copy, Debug, PartialEq, Eq)]
pub struct Head {
    pub name: Span,
    pub code: usize,
    pub size: usize,
}

// 1 to 1,024 bytes of UTF-8; control characters pass.
#[tactic(auto, unfolding(crate::specs::Function::name_at))]
fn read_name(bytes: &[u8], at: usize) -> Result<Span, Refusal>
    ensures { answer_out span_out result ≡ name_at bytes.now at }
{
    let Some(Field { value, next: start }) = field_at::<u16>(bytes, at) else {
        return Err(refuse(63, at));
    };
    let len = value as usize;
    check((1 <= len) & (len <= MAX_FUNCTION_NAME_BYTES), 64, start)?;
    match utf8::read_utf8(bytes, start, len) {
        Ok(text) => Ok(spanned(start, len, text)),
        Err(_) => Err(refuse(64, start)),
    }
}

// The head of a function at its start, and the place after its block.
#[tactic(auto, unfolding(crate::specs::Function::head_at))]
pub fn read_function(bytes: &[u8], at: usize) -> Result<Field<Head>, Refusal>
    ensures { answer_out (taken_out head_is) result ≡ head_at bytes.now at }
{
    let name = read_name(bytes, at)?;
    let Some(Field { value, next: code }) = field_at::<u32>(bytes, name.next) else {
        return Err(refuse(63, name.next));
    };
    let size = value as usize;
    check(size <= bytes.len() - code, 63, code)?;
    Ok(Field {
        value: Head { name, code, size },
        next: code + size,
    })
}
