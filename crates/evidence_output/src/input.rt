// Input, with a read that fails told from its end.
ghost use Rattle.std.specs.Prelude.{ℕ, ◌<◌, IfOk, OnErr, length, take};
ghost use Rattle.std.specs.Io.{ReadsAtMost};
ghost use Rattle.std.specs.Io.KnownBytes.{Consumes, IsAtEnd};

use std::io;
use std::io::Read;

// Reads until the buffer is full, the input ends or a read fails.
// Kept (6a): no heap, so the buffer is lent, and how much of it was read is answered, as by `Read::read`.
pub fn read_full<R: Read>(from: &mut R, buf: &mut [u8]) -> io::Result<usize>
    ensures bound { ReadsAtMost result buf.new }
    ensures bytes { IfOk result (λ n. Consumes (R.remaining from.old) (R.remaining from.new) (take n buf.new)) }
    ensures end { IfOk result (λ n. n < length buf.new → IsAtEnd (R.remaining from.new)) }
    ensures failed { OnErr result ((n : ℕ) × (n < length buf.new) × Consumes (R.remaining from.old) (R.remaining from.new) (take n buf.new)) }
{
    let mut len: usize = 0;
    while len < buf.len() {
        let more = from.read(&mut buf[len..])?;
        if more == 0 {
            return Ok(len);
        }
        len += more;
    }
    Ok(len)
}
