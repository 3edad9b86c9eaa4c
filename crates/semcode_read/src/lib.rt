// A string, a debug symbol, a path and a path's component by number. Each decodes the block anew first.
#![tactic(auto)]

ghost use Rattle.std.specs.Prelude.{◌≡◌};
ghost use Rattle.local_format.specs.Out.{refuse};
ghost use Rattle.local_format.specs.Refusal.{refusal};
ghost use Rattle.local_format.specs.Maps.{answer_out, refusal_out, span_out};
ghost use Rattle.semcode_records.specs.Maps.{taken_out, symbol_is, component_is, head_is};
ghost use Rattle.semcode_decode.specs.Layout.{tables, Leaves};
ghost use Rattle.semcode_decode.specs.Number.{
  Reads,
  string_number,
  symbol_number,
  path_number,
  component_number,
  taken_in,
  text_in,
  head_in,
};
ghost use Rattle.semcode_read.specs.After.{component_after};

use lent_table::clear;
use local_format::field::Field;
use local_format::refusal::{Refusal, refuse};
use local_format::text::{Span, string_at};
use semcode_decode::decode::{ANY_SYMBOLS, parse_block};
use semcode_records::component::{DecodedAccessPathComponent, read_component, skip_components};
use semcode_records::path::{DecodedAccessPath, event_kind, read_path};
use semcode_records::symbol::{DecodedDebugSymbol, read_debug_symbol};

// A number that is not in the table: zeros in the lent tables.
fn not_there(strings: &mut [u64], paths: &mut [u64], families: &mut [u8]) -> Refusal
    ensures { Leaves (refuse 62 0)
        (tables strings.old paths.old families.old)
        (tables strings.new paths.new families.new) (refusal_out result) (refusal 62 0) }
{
    clear(strings);
    clear(paths);
    clear(families);
    refuse(62, 0)
}

// Kept (2d): over a trait, as `Numbered` of evr0_read, there would be three structs of a number, each with an impl of a count, a place and a reader:
// more than three bodies of one call and one `if`; `component_number` goes by `path_number`.
// Kept (7d): `number_in(.., |p| p.string_count, |p| .., |at| string_at(code, at))` states more at each call than this `if`.
pub fn string_number(
    base_offset: usize,
    code: &[u8],
    header_rev: u16,
    number: usize,
    strings: &mut [u64],
    paths: &mut [u64],
    families: &mut [u8],
) -> Result<Span, Refusal>
    ensures { Reads text_in (string_number number) base_offset header_rev code.now
        (tables strings.old paths.old families.old)
        (tables strings.new paths.new families.new) (answer_out span_out result) }
{
    let parsed = parse_block(
        base_offset,
        code,
        header_rev,
        ANY_SYMBOLS,
        strings,
        paths,
        families,
    )?;
    if number < parsed.string_count {
        return string_at(code, strings[number] as usize);
    }
    Err(not_there(strings, paths, families))
}

// Kept (7d): as `string_number`, with a place by arithmetic where that one looks it up in a lent table.
pub fn symbol_number(
    base_offset: usize,
    code: &[u8],
    header_rev: u16,
    number: usize,
    strings: &mut [u64],
    paths: &mut [u64],
    families: &mut [u8],
) -> Result<Field<DecodedDebugSymbol>, Refusal>
    ensures { Reads taken_in (symbol_number number) base_offset header_rev code.now
        (tables strings.old paths.old families.old)
        (tables strings.new paths.new families.new) (answer_out (taken_out symbol_is) result) }
{
    let parsed = parse_block(
        base_offset,
        code,
        header_rev,
        ANY_SYMBOLS,
        strings,
        paths,
        families,
    )?;
    if number < parsed.debug_symbol_count {
        return read_debug_symbol(code, parsed.debug_symbols_start + 10 * number);
    }
    Err(not_there(strings, paths, families))
}

// Kept (7d): as `string_number`, with the revision for its reader.
pub fn path_number(
    base_offset: usize,
    code: &[u8],
    header_rev: u16,
    number: usize,
    strings: &mut [u64],
    paths: &mut [u64],
    families: &mut [u8],
) -> Result<Field<DecodedAccessPath>, Refusal>
    ensures { Reads head_in (path_number number) base_offset header_rev code.now
        (tables strings.old paths.old families.old)
        (tables strings.new paths.new families.new) (answer_out (taken_out head_is) result) }
{
    let parsed = parse_block(
        base_offset,
        code,
        header_rev,
        ANY_SYMBOLS,
        strings,
        paths,
        families,
    )?;
    if number < parsed.path_count {
        return read_path(code, paths[number] as usize, header_rev);
    }
    Err(not_there(strings, paths, families))
}

// The component after so many others.
// Kept (1a): the byte of the path's event, as `read_component` takes it.
// Kept (5d): C, locks, path_words and path_end would each make a struct of bytes, place, revision and kind, and each step take it apart; `Steps` of
// path_words, without the place, serves its own walk.
fn component_after(
    bytes: &[u8],
    at: usize,
    skipped: u16,
    header_rev: u16,
    kind: u8,
) -> Result<Field<DecodedAccessPathComponent>, Refusal>
    ensures { answer_out (taken_out component_is) result ≡
        component_after header_rev kind bytes.now skipped at }
{
    let place = skip_components(bytes, at, skipped, header_rev, kind)?;
    read_component(bytes, place, header_rev, kind)
}

// Component `component` of path `number`.
pub fn component_number(
    base_offset: usize,
    code: &[u8],
    header_rev: u16,
    number: usize,
    component: usize,
    strings: &mut [u64],
    paths: &mut [u64],
    families: &mut [u8],
) -> Result<Field<DecodedAccessPathComponent>, Refusal>
    ensures { Reads taken_in (component_number number component) base_offset header_rev code.now
        (tables strings.old paths.old families.old)
        (tables strings.new paths.new families.new) (answer_out (taken_out component_is) result) }
{
    let found = path_number(
        base_offset,
        code,
        header_rev,
        number,
        strings,
        paths,
        families,
    )?;
    let path = found.value;
    if component < path.component_count as usize {
        let kind = event_kind(path.event);
        let start = path.components_start;
        return component_after(code, start, component as u16, header_rev, kind);
    }
    Err(not_there(strings, paths, families))
}
