// Rules that lie in a table, by the places where they start.
ghost use Rattle.std.specs.Prelude.{◌+◌, ◌≤◌, length};
ghost use Rattle.local_format.specs.Field.{le};
ghost use Rattle.evr0_rules.specs.There.{StartsThere};

use crate::rule::Rule;
use local_format::field::LittleEndian;
use local_format::tag::same;

#[derive(Clone, Copy)]
pub struct RuleAt<'a> {
    pub table: &'a [u8],
    pub at: usize,
    pub ghost there: { at + 6 + le 2 table.now at ≤ length table.now },
}

impl<'a> RuleAt<'a> {
    ghost use Rattle.std.specs.Prelude.{◌≡◌};
    ghost use Rattle.local_format.specs.Tag.{equal};
    ghost use Rattle.rule_table.specs.Load.{rule_in};
    ghost use Rattle.evr0_rules.specs.Maps.{rule_out};

    pub fn name(self) -> &'a [u8]
        ensures { result.now ≡ (rule_in self.entry.table.now self.entry.at).name }
    {
        let start = self.at + 2;
        let end = start + (u16::le_at(self.table, self.at) as usize);
        &self.table[start..end]
    }

    pub fn has_name(self, name: &[u8]) -> bool
        ensures { result ≡ equal name.now (rule_in self.entry.table.now self.entry.at).name }
    {
        same(name, self.name())
    }

    // The rule without its name.
    pub fn numbers(self) -> Rule
        ensures { rule_out (rule_in self.entry.table.now self.entry.at).name result ≡ rule_in self.entry.table.now self.entry.at }
    {
        let table = self.table;
        let next = self.at + 2 + (u16::le_at(table, self.at) as usize);
        Rule {
            witnesses: table[next],
            parents: table[next + 1],
            operation: table[next + 2],
            polarity: table[next + 3],
        }
    }
}

#[derive(Clone, Copy)]
pub struct RulesAt<'a> {
    pub table: &'a [u8],
    pub starts: &'a [usize],
    pub ghost there: { StartsThere table.now starts.now },
}

impl<'a> RulesAt<'a> {
    ghost use Rattle.std.specs.Prelude.{◌≡◌, ◌<◌, get_or};
    ghost use Rattle.derivation.specs.Rule.{rule_named};
    ghost use Rattle.evr0_rules.specs.Maps.{named_out, rules_out};

    // The rule with an index.
    pub fn rule(self, i: usize) -> RuleAt<'a>
        requires { i < length self.starts.now }
        ensures { (result.table.now ≡ self.entry.table.now) × (result.at ≡ get_or self.entry.starts.now i 0) }
    {
        RuleAt {
            table: self.table,
            at: self.starts[i],
        }
    }

    // The rule with this name.
    // Kept (6d): in a closure over the starts nothing says that a place is one of them, which `RuleAt`'s ghost field asks; it would state it as a clause.
    pub fn rule_named(self, name: &[u8]) -> Option<Rule>
        ensures { named_out name.now result ≡ rule_named (rules_out self.entry) name.now }
    {
        for at in self.starts {
            let rule = RuleAt {
                table: self.table,
                at: *at,
            };
            if rule.has_name(name) {
                return Some(rule.numbers());
            }
        }
        None
    }
}
