// One debug symbol.
ghost use Rattle.std.specs.Prelude.{◌≡◌};
ghost use Rattle.local_format.specs.Maps.{answer_out};
ghost use Rattle.semcode_records.specs.Maps.{taken_out, symbol_is};
ghost use Rattle.semcode_records.specs.Symbol.{symbol_at};

use local_format::field::{Field, field_at};
use local_format::refusal::{Refusal, refuse};

#[repr(C)]
#[derive(Clone, Copy, Debug, PartialEq, Eq)]
pub struct DecodedDebugSymbol {
    pub pc: usize,
    pub line: u32,
    pub col: u16,
}

#[tactic(auto, unfolding(crate::specs::Symbol::symbol_at))]
pub fn read_debug_symbol(bytes: &[u8], at: usize) -> Result<Field<DecodedDebugSymbol>, Refusal>
    ensures { answer_out (taken_out symbol_is) result ≡ symbol_at bytes.now at }
{
    let Some(
        Field {
            value: pc,
            next: line_at,
        },
    ) = field_at::<u32>(bytes, at)
    else {
        return Err(refuse(37, at));
    };
    let Some(
        Field {
            value: line,
            next: col_at,
        },
    ) = field_at::<u32>(bytes, line_at)
    else {
        return Err(refuse(38, line_at));
    };
    let Some(Field { value: col, next }) = field_at::<u16>(bytes, col_at) else {
        return Err(refuse(39, col_at));
    };
    Ok(Field {
        value: DecodedDebugSymbol {
            pc: pc as usize,
            line,
            col,
        },
        next,
    })
}
