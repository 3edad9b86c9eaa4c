// Bytes into a lent buffer. Those past its end are dropped and counted: the place after the last of them, held at the largest 64-bit
// number, is the length that all of them take, so it is above the buffer's length exactly where some were dropped.
#![tactic(auto)]

ghost use Rattle.std.specs.Prelude.{◌≡◌, ◌≤◌, length};

// Bytes into a part as long as they are.
// Kept (4b): `copy_from_slice` is compiled to a call of memmove, a name that the archive for C does not need else.
fn copy(out: &mut [u8], bytes: &[u8])
    requires { length bytes.now ≡ length out.old }
    ensures { out.new ≡ bytes.now }
{
    for i in 0..bytes.len() {
        out[i] = bytes[i];
    }
}

// A lent buffer, and the place of the next byte.
#[derive(Drop)]
pub struct Output<'a> {
    pub bytes: &'a mut [u8],
    pub next: usize,
    pub ghost stands: { next ≤ 18446744073709551615 },
}

impl<'a> Output<'a> {
    ghost use Rattle.std.specs.Prelude.{[], ◌∷◌};
    ghost use Rattle.byte_output.specs.Maps.{Writes};

    // Kept (2d, 6a): no heap, so the buffer is lent and no Vec; what does not fit is counted, where section_pair's list of verdicts drops it.
    pub fn put(&mut self, byte: u8)
        ensures { Writes self.old (byte ∷ []) self.new }
    {
        if self.next < self.bytes.len() {
            self.bytes[self.next] = byte;
            self.next += 1;
        } else {
            self.next = local_format::refusal::diag_offset(self.next, 1);
        }
    }

    pub fn put_bytes(&mut self, bytes: &[u8])
        ensures { Writes self.old bytes.now self.new }
    {
        let start = self.next.min(self.bytes.len());
        let fit = bytes.len().min(self.bytes.len() - start);
        copy(&mut self.bytes[start..start + fit], &bytes[..fit]);
        self.next = local_format::refusal::diag_offset(self.next, bytes.len());
    }

    // So many bytes, at once where they fit.
    pub fn put_array<const N: usize>(&mut self, bytes: [u8; N])
        ensures { Writes self.old bytes.entry self.new }
    {
        let start = self.next.min(self.bytes.len());
        if self.bytes.len() - start < N {
            self.put_bytes(&bytes);
        } else {
            self.bytes[start..start + N].copy_from_slice(&bytes);
            self.next += N;
        }
    }
}
