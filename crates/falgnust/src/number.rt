// The records of a block by number. Each decodes the block anew first.
ghost use Rattle.semcode_decode.specs.Layout.{tables};
ghost use Rattle.semcode_decode.specs.Number.{
  Reads,
  string_number,
  symbol_number,
  path_number,
  component_number,
  taken_in,
  text_in,
  head_in,
};
ghost use Rattle.falgnust.specs.Maps.{flat_text};
ghost use Rattle.falgnust.specs.BlockMaps.{flat_symbol, flat_path, flat_component};

use crate::record::{Component, Path, Symbol};
use crate::text::Text;
use semcode_read::{component_number, path_number, string_number, symbol_number};

// Kept (2a): C has no generic functions: a name for each kind of entry.
#[tactic(auto, using(semcode_decode::proofs::LentLaws::mapped))]
#[unsafe(no_mangle)]
pub extern "C" fn falgnust_string_number(
    base_offset: usize,
    code: &[u8],
    header_rev: u16,
    number: usize,
    strings: &mut [u64],
    paths: &mut [u64],
    families: &mut [u8],
) -> Text
    ensures { Reads (λ x. flat_text (text_in x)) (string_number number) base_offset header_rev code.now
        (tables strings.old paths.old families.old)
        (tables strings.new paths.new families.new) result }
{
    string_number(
        base_offset,
        code,
        header_rev,
        number,
        strings,
        paths,
        families,
    )
    .into()
}

#[tactic(auto, using(semcode_decode::proofs::LentLaws::mapped))]
#[unsafe(no_mangle)]
pub extern "C" fn falgnust_symbol_number(
    base_offset: usize,
    code: &[u8],
    header_rev: u16,
    number: usize,
    strings: &mut [u64],
    paths: &mut [u64],
    families: &mut [u8],
) -> Symbol
    ensures { Reads (λ x. flat_symbol (taken_in x)) (symbol_number number) base_offset header_rev code.now
        (tables strings.old paths.old families.old)
        (tables strings.new paths.new families.new) result }
{
    symbol_number(
        base_offset,
        code,
        header_rev,
        number,
        strings,
        paths,
        families,
    )
    .into()
}

#[tactic(auto, using(semcode_decode::proofs::LentLaws::mapped))]
#[unsafe(no_mangle)]
pub extern "C" fn falgnust_path_number(
    base_offset: usize,
    code: &[u8],
    header_rev: u16,
    number: usize,
    strings: &mut [u64],
    paths: &mut [u64],
    families: &mut [u8],
) -> Path
    ensures { Reads (λ x. flat_path (head_in x)) (path_number number) base_offset header_rev code.now
        (tables strings.old paths.old families.old)
        (tables strings.new paths.new families.new) result }
{
    path_number(
        base_offset,
        code,
        header_rev,
        number,
        strings,
        paths,
        families,
    )
    .into()
}

#[tactic(auto, using(semcode_decode::proofs::LentLaws::mapped))]
#[unsafe(no_mangle)]
pub extern "C" fn falgnust_component_number(
    base_offset: usize,
    code: &[u8],
    header_rev: u16,
    number: usize,
    component: usize,
    strings: &mut [u64],
    paths: &mut [u64],
    families: &mut [u8],
) -> Component
    ensures { Reads (λ x. flat_component (taken_in x)) (component_number number component) base_offset header_rev code.now
        (tables strings.old paths.old families.old)
        (tables strings.new paths.new families.new) result }
{
    component_number(
        base_offset,
        code,
        header_rev,
        number,
        component,
        strings,
        paths,
        families,
    )
    .into()
}
