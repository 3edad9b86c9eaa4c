// An evidence section: what is given of it, with proposition starts, proof starts, depths and marks in lent tables.
ghost use Rattle.std.specs.Prelude.{◌≡◌};
ghost use Rattle.local_format.specs.Out.{ok};
ghost use Rattle.evr0_section.specs.Section.{frame_at};
ghost use Rattle.evr0.specs.Answer.{lent_of};
ghost use Rattle.evr0.specs.AnswerMaps.{answer_out};
ghost use Rattle.evr0.specs.Maps.{frame_out};
ghost use Rattle.evr0_marks.specs.Answer.{with_marks};
ghost use Rattle.falgnust.specs.SectionMaps.{flat_section, Decodes, DecodesUnmarked, DecodesBy, DecodesUnmarkedBy};

use crate::refusal::Refusal;
use evr0::frame::{Frame, read_opening};
use evr0::section::{DecodedEvr0, decode_at, decode_evr0_by};
use evr0_marks::section::{decode_evr0_section, decode_evr0_section_by};
use evr0_rules::settle::{Rulebook, Rules};
use evr0_tables::lent::Tables;
use lent_table::clear;

// The digests, the epoch, the schema, the places in the payload of both namespaces' lengths, how many characters each has, and the counts;
// or a refusal, with zeros beside it. The cursor is the one that was brought where the section is refused.
// Kept (1a): callers in C read a flag and the values beside it, the schema as its number.
#[repr(C)]
#[derive(Clone, Copy, Debug, Default, PartialEq, Eq)]
pub struct Section {
    pub accepted: bool,
    pub refusal: Refusal,
    pub source_set: [u8; 32],
    pub compiler_contract: [u8; 32],
    pub epoch: u16,
    pub schema: u16,
    pub policy_at: usize,
    pub issuer_at: usize,
    pub policy_chars: usize,
    pub issuer_chars: usize,
    pub propositions: usize,
    pub proofs: usize,
    pub witnesses: usize,
    pub parents: usize,
    pub cursor: usize,
}

impl From<DecodedEvr0> for Section {
    ghost from_gives = { λ decoded s. s ≡ flat_section (answer_out decoded) };

    fn from(decoded: DecodedEvr0) -> Section {
        let DecodedEvr0 {
            source_set,
            compiler_contract,
            cursor,
            outcome,
        } = decoded;
        let told = match outcome {
            Ok(given) => Section {
                accepted: true,
                epoch: given.epoch,
                schema: given.schema,
                policy_at: given.policy_namespace,
                issuer_at: given.issuer_namespace,
                policy_chars: given.policy_chars,
                issuer_chars: given.issuer_chars,
                propositions: given.counts.propositions,
                proofs: given.counts.proofs,
                witnesses: given.counts.witnesses,
                parents: given.counts.parents,
                ..Section::default()
            },
            Err(refused) => Section {
                refusal: refused.into(),
                ..Section::default()
            },
        };
        Section {
            source_set,
            compiler_contract,
            cursor,
            ..told
        }
    }
}

// Kept (6a): C lends a table and its length; no heap.
#[unsafe(no_mangle)]
pub extern "C" fn falgnust_decode_evr0_section(
    bytes: &[u8],
    cursor: usize,
    propositions: &mut [u64],
    proofs: &mut [u64],
    depths: &mut [u64],
    marks: &mut [u8],
) -> Section
    ensures { Decodes bytes.now cursor
        (with_marks (lent_of propositions.old proofs.old depths.old) marks.old)
        (with_marks (lent_of propositions.new proofs.new depths.new) marks.new) result }
{
    decode_evr0_section(bytes, cursor, propositions, proofs, depths, marks).into()
}

// The section at `cursor` by the four, whose frame was read. Room for the decoder's answer is made here alone, so that a refused opening makes none.
#[inline(always)]
fn opened(
    bytes: &[u8],
    frame: Frame,
    cursor: usize,
    propositions: &mut [u64],
    proofs: &mut [u64],
    depths: &mut [u64],
) -> Section
    requires { frame_at bytes.now cursor ≡ ok (frame_out frame) }
    ensures { DecodesUnmarked bytes.now cursor
        (lent_of propositions.old proofs.old depths.old)
        (lent_of propositions.new proofs.new depths.new) result }
{
    let mut tables = Tables {
        propositions,
        proofs,
        depths,
    };
    decode_at(&Rulebook::Four, bytes, frame, cursor, &mut tables).into()
}

// Without marks. What was opened is returned from its arm: each answer is then written where the caller wants it.
// Kept (2b): these are the steps of evr0's `decode`. By `decode_evr0_unmarked(..).into()`, which was proved, a section that is refused at its first field
// takes 1.2 of the instructions and 1.5 of the time (D124): its answer is copied with an accepted one's.
#[unsafe(no_mangle)]
pub extern "C" fn falgnust_decode_evr0_unmarked(
    bytes: &[u8],
    cursor: usize,
    propositions: &mut [u64],
    proofs: &mut [u64],
    depths: &mut [u64],
) -> Section
    ensures { DecodesUnmarked bytes.now cursor
        (lent_of propositions.old proofs.old depths.old)
        (lent_of propositions.new proofs.new depths.new) result }
{
    let opening = read_opening(bytes, cursor);
    match opening {
        Ok(frame) => return opened(bytes, frame, cursor, propositions, proofs, depths),
        Err(refusal) => {
            clear(propositions);
            clear(proofs);
            clear(depths);
            Section {
                refusal: refusal.into(),
                source_set: [0u8; 32],
                compiler_contract: [0u8; 32],
                cursor,
                ..Section::default()
            }
        }
    }
}

// Both by a table of rules, which is loaded before the section is looked at.
#[unsafe(no_mangle)]
pub extern "C" fn falgnust_decode_evr0_section_by_rules(
    rules: &[u8],
    bytes: &[u8],
    cursor: usize,
    propositions: &mut [u64],
    proofs: &mut [u64],
    depths: &mut [u64],
    marks: &mut [u8],
) -> Section
    ensures { DecodesBy rules.now bytes.now cursor
        (with_marks (lent_of propositions.old proofs.old depths.old) marks.old)
        (with_marks (lent_of propositions.new proofs.new depths.new) marks.new) result }
{
    decode_evr0_section_by(
        Rules::Table(rules),
        bytes,
        cursor,
        propositions,
        proofs,
        depths,
        marks,
    )
    .into()
}

#[unsafe(no_mangle)]
pub extern "C" fn falgnust_decode_evr0_unmarked_by_rules(
    rules: &[u8],
    bytes: &[u8],
    cursor: usize,
    propositions: &mut [u64],
    proofs: &mut [u64],
    depths: &mut [u64],
) -> Section
    ensures { DecodesUnmarkedBy rules.now bytes.now cursor
        (lent_of propositions.old proofs.old depths.old)
        (lent_of propositions.new proofs.new depths.new) result }
{
    decode_evr0_by(
        Rules::Table(rules),
        bytes,
        cursor,
        propositions,
        proofs,
        depths,
    )
    .into()
}
