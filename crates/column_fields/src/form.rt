// The two forms of a number: its bytes, in a section, and groups, in a column.
ghost use Rattle.std.specs.Prelude.{◌≡◌, ◌≤◌, ℕ, length, drop};
ghost use Rattle.local_format.specs.Field.{le};
ghost use Rattle.local_format.specs.Maps.{answer_out};
ghost use Rattle.byte_output.specs.Maps.{Writes};
ghost use Rattle.groups.specs.Maps.{width_of, read_out};
ghost use Rattle.evr0_columns.specs.Form.{Form};
ghost use Rattle.evr0_columns.specs.Layout.{in_bytes, in_groups, number};

use byte_output::Output;
use groups::read::{Width, number_at};
use groups::write::put_number;
use local_format::field::{Field, LittleEndian};
use local_format::part::tail;
use local_format::refusal::{Refusal, refuse};

pub trait NumberForm {
    ghost numbers: { ℕ → Form ℕ };

    // The number of a field at a place, which may be any number.
    fn read(bytes: &[u8], at: usize, width: Width) -> Result<Field<u64>, Refusal>
        ensures { answer_out (read_out bytes.now) result
            ≡ (numbers (width_of width)).get (length bytes.now) (drop at bytes.now) };

    fn write(out: &mut Output, n: u64, width: Width)
        ensures { Writes out.old ((numbers (width_of width)).put n) out.new };
}

pub struct InBytes;

pub struct InGroups;

// The number of so many bytes at the front.
// Kept (4d): each width is read by its own `le_at`; a `From` of a slice and a width would say less.
fn first_number(bytes: &[u8], width: Width) -> u64
    requires { width_of width ≤ length bytes.now }
    ensures { result ≡ le (width_of width) bytes.now 0 }
{
    match width {
        Width::Two => u16::le_at(bytes, 0) as u64,
        Width::Four => u32::le_at(bytes, 0) as u64,
        Width::Eight => u64::le_at(bytes, 0),
    }
}

// A number as a field of a section: its bytes, the lowest first.
fn put_plain(out: &mut Output, n: u64, width: Width)
    ensures { Writes out.old (number (width_of width) n) out.new }
{
    match width {
        Width::Two => out.put_array(((n % 65536) as u16).to_le_bytes()),
        Width::Four => out.put_array(((n % 4294967296) as u32).to_le_bytes()),
        Width::Eight => out.put_array(n.to_le_bytes()),
    }
}

// The number of a field of a section at a place.
fn plain_at(bytes: &[u8], at: usize, width: Width) -> Result<Field<u64>, Refusal>
    ensures { answer_out (read_out bytes.now) result
        ≡ (in_bytes (width_of width)).get (length bytes.now) (drop at bytes.now) }
{
    let size = width.size();
    let rest = tail(bytes, at);
    if rest.len() < size {
        return Err(refuse(76, bytes.len()));
    }
    Ok(Field {
        value: first_number(rest, width),
        next: at + size,
    })
}

impl NumberForm for InBytes {
    ghost numbers = { in_bytes };

    fn read(bytes: &[u8], at: usize, width: Width) -> Result<Field<u64>, Refusal> {
        plain_at(bytes, at, width)
    }

    fn write(out: &mut Output, n: u64, width: Width) {
        put_plain(out, n, width);
    }
}

impl NumberForm for InGroups {
    ghost numbers = { in_groups };

    fn read(bytes: &[u8], at: usize, width: Width) -> Result<Field<u64>, Refusal> {
        number_at(bytes, at, width)
    }

    fn write(out: &mut Output, n: u64, width: Width) {
        put_number(out, n);
    }
}
