// The answer of a part of some bytes.
ghost use Rattle.std.specs.Prelude.{◌≡◌};
ghost use Rattle.local_format.specs.Out.{based};
ghost use Rattle.local_format.specs.Maps.{answer_out};

use local_format::refusal::{Refusal, based};

// The answer of the whole, where the part starts at `start`.
// Kept (4d): it is `map_err` already; written out at each of its calls, `map_err(|refused| based(refused, place))` has no contract of its own.
pub fn moved<T>(read: Result<T, Refusal>, start: usize) -> Result<T, Refusal>
    ensures { answer_out (λ x. x) result ≡ based start (answer_out (λ x. x) read) }
{
    read.map_err(|refused| based(refused, start))
}
