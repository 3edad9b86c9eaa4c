// An evidence section: what is given of it, with proposition starts, proof starts, depths and marks in lent tables.
ghost use Rattle.evr0.specs.Answer.{lent_of};
ghost use Rattle.evr0_marks.specs.Answer.{with_marks};
ghost use Rattle.falgnust.specs.SectionMaps.{Decodes, DecodesUnmarked, DecodesBy, DecodesUnmarkedBy};

use falgnust::section::Section;

#[unsafe(no_mangle)]
pub extern "C" fn falgnust_decode_evr0_section(
    bytes: &[u8],
    cursor: usize,
    propositions: &mut [u64],
    proofs: &mut [u64],
    depths: &mut [u64],
    marks: &mut [u8],
) -> Section
    ensures { Decodes bytes.now cursor
        (with_marks (lent_of propositions.old proofs.old depths.old) marks.old)
        (with_marks (lent_of propositions.new proofs.new depths.new) marks.new) result }
{
    falgnust::section::falgnust_decode_evr0_section(
        bytes,
        cursor,
        propositions,
        proofs,
        depths,
        marks,
    )
}

// Without marks.
#[unsafe(no_mangle)]
pub extern "C" fn falgnust_decode_evr0_unmarked(
    bytes: &[u8],
    cursor: usize,
    propositions: &mut [u64],
    proofs: &mut [u64],
    depths: &mut [u64],
) -> Section
    ensures { DecodesUnmarked bytes.now cursor
        (lent_of propositions.old proofs.old depths.old)
        (lent_of propositions.new proofs.new depths.new) result }
{
    falgnust::section::falgnust_decode_evr0_unmarked(bytes, cursor, propositions, proofs, depths)
}

// Both by a table of rules, which is loaded before the section is looked at.
#[unsafe(no_mangle)]
pub extern "C" fn falgnust_decode_evr0_section_by_rules(
    rules: &[u8],
    bytes: &[u8],
    cursor: usize,
    propositions: &mut [u64],
    proofs: &mut [u64],
    depths: &mut [u64],
    marks: &mut [u8],
) -> Section
    ensures { DecodesBy rules.now bytes.now cursor
        (with_marks (lent_of propositions.old proofs.old depths.old) marks.old)
        (with_marks (lent_of propositions.new proofs.new depths.new) marks.new) result }
{
    falgnust::section::falgnust_decode_evr0_section_by_rules(
        rules,
        bytes,
        cursor,
        propositions,
        proofs,
        depths,
        marks,
    )
}

#[unsafe(no_mangle)]
pub extern "C" fn falgnust_decode_evr0_unmarked_by_rules(
    rules: &[u8],
    bytes: &[u8],
    cursor: usize,
    propositions: &mut [u64],
    proofs: &mut [u64],
    depths: &mut [u64],
) -> Section
    ensures { DecodesUnmarkedBy rules.now bytes.now cursor
        (lent_of propositions.old proofs.old depths.old)
        (lent_of propositions.new proofs.new depths.new) result }
{
    falgnust::section::falgnust_decode_evr0_unmarked_by_rules(
        rules,
        bytes,
        cursor,
        propositions,
        proofs,
        depths,
    )
}
