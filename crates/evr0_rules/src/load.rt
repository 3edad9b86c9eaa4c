// Loading a table of rules.
ghost use Rattle.std.specs.Prelude.{◌≡◌};
ghost use Rattle.std.specs.Result.{IfOk};
ghost use Rattle.rule_table.specs.Load.{rule_at, outside, rules_of};
ghost use Rattle.local_format.specs.Maps.{answer_out};
ghost use Rattle.evr0_rules.specs.Maps.{loaded_out, new_rule_at, count_in, rules_out};

use crate::placed::{RuleAt, RulesAt};
use crate::rule::is_bounded;
use local_format::field::{Field, field_at};
use local_format::refusal::{Refusal, check, refuse};
use local_format::text::{Span, text_at};

pub const MAX_RULES: usize = 32;

// The place after the rule at a place.
#[tactic(auto, unfolding(rule_table::specs::Load::rule_at))]
fn rule_at(table: &[u8], at: usize) -> Result<usize, Refusal>
    ensures { answer_out (loaded_out table.now at) result ≡ rule_at table.now at }
{
    let Span { len, next, .. } = text_at(table, at)?;
    let Some(Field { next: end, .. }) = field_at::<u32>(table, next) else {
        return Err(refuse(5, next));
    };
    let rule = RuleAt { table, at };
    check(is_bounded(len, rule.numbers()), 69, 0)?;
    Ok(end)
}

// The same, where what is wrong with a field or a text is told as a rule outside the bounds.
fn bounded_rule_at(table: &[u8], at: usize) -> Result<usize, Refusal>
    ensures { answer_out (loaded_out table.now at) result ≡ outside (rule_at table.now at) }
{
    rule_at(table, at).map_err(|_| refuse(69, 0))
}

// The place after the rule at a place, which has no earlier rule's name.
fn new_rule_at(earlier: RulesAt, at: usize) -> Result<usize, Refusal>
    ensures { answer_out (loaded_out earlier.entry.table.now at) result ≡ new_rule_at (rules_out earlier.entry) earlier.entry.table.now at }
{
    let table = earlier.table;
    let next = bounded_rule_at(table, at)?;
    let name = RuleAt { table, at }.name();
    check(earlier.rule_named(name).is_none(), 70, 0)?;
    Ok(next)
}

// The rules of a table, with the places where they start in these words.
// Kept (6a): decoders have no heap, so a caller lends an array for the places where a `Vec` would grow.
pub(crate) fn rules_at<'a>(
    table: &'a [u8],
    starts: &'a mut [usize; 32],
) -> Result<RulesAt<'a>, Refusal>
    ensures rules { answer_out rules_out result ≡ rules_of table.now }
    ensures table { IfOk result (λ rules. rules.table.now ≡ table.now) }
{
    let Some(Field { value, .. }) = field_at::<u8>(table, 0) else {
        return Err(refuse(69, 0));
    };
    let count = value as usize;
    check((1 <= count) & (count <= MAX_RULES), 69, 0)?;
    let mut at: usize = 1;
    for i in 0..count {
        let earlier = RulesAt {
            table,
            starts: &starts[..i],
        };
        let next = new_rule_at(earlier, at)?;
        starts[i] = at;
        at = next;
    }
    check(at == table.len(), 69, 0)?;
    let starts = &starts[..count];
    Ok(RulesAt { table, starts })
}

// How many rules a table holds, where it loads.
pub fn load_rules(table: &[u8]) -> Result<usize, Refusal>
    ensures { answer_out (λ n. n) result ≡ count_in (rules_of table.now) }
{
    let mut starts = [0; 32];
    let rules = rules_at(table, &mut starts)?;
    Ok(rules.starts.len())
}
