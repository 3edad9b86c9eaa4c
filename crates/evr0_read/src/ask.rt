// A proposition, a proof, a witness or a parent by its number, of a section that is decoded anew first by the rules of a call.
ghost use Rattle.local_format.specs.Maps.{answer_out};
ghost use Rattle.evr0.specs.Answer.{lent_of};
ghost use Rattle.evr0_rules.specs.Maps.{given_out};
ghost use Rattle.evr0_read.specs.Asked.{AnswersBy};
ghost use Rattle.evr0_read.specs.Numbered.{entry_number, shown_told};
ghost use Rattle.evr0_read.specs.Maps.{entry_out};

use crate::entry::Entry;
use crate::find::find;
use crate::numbered::Numbered;
use crate::table::payload_of;
use evr0_rules::settle::Rules;
use local_format::refusal::Refusal;

pub fn by_number<N: Numbered>(
    rules: Rules,
    bytes: &[u8],
    cursor: usize,
    number: N,
    propositions: &mut [u64],
    proofs: &mut [u64],
    depths: &mut [u64],
) -> Result<Entry<N::Record>, Refusal>
    ensures { AnswersBy (given_out rules.entry) (entry_number N.table (N.place number)) (shown_told N.show) bytes.now cursor
        (lent_of propositions.old proofs.old depths.old)
        (lent_of propositions.new proofs.new depths.new) (answer_out (entry_out N.record_out) result) }
{
    let found = find(rules, bytes, cursor, number, propositions, proofs, depths)?;
    let payload = payload_of(bytes, cursor, found.end);
    N::read_at(payload, found.schema, found.start)
}
