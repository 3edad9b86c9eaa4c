// The rules of a call: the four, or those of a table that comes as bytes.
ghost use Rattle.evr0_rules.specs.There.{RulesThere};

use crate::load::{load_rules, rules_at};
use crate::placed::RulesAt;
use crate::rule::Rule;
use crate::tree::{Child, Tree};
use local_format::refusal::Refusal;

// Kept (1d): the four are rules too; of an `Option<&[u8]>` a reader would ask whether `None` is a call without rules.
#[derive(Clone, Copy)]
pub enum Rules<'a> {
    Four,
    Table(&'a [u8]),
}

impl<'a> Rules<'a> {
    ghost use Rattle.std.specs.Prelude.{◌≡◌};
    ghost use Rattle.local_format.specs.Maps.{answer_out};
    ghost use Rattle.rule_table.specs.ByTable.{rules_given};
    ghost use Rattle.evr0_rules.specs.Maps.{count_in, given_out};

    // How many they are, where they load.
    pub fn count(self) -> Result<usize, Refusal>
        ensures { answer_out (λ n. n) result ≡ count_in (rules_given (given_out self.entry)) }
    {
        match self {
            Rules::Four => Ok(4),
            Rules::Table(table) => load_rules(table),
        }
    }
}

// Room for a loaded table: a search tree over its rules' names, and the places where they start.
// Kept (4d): a tree and 32 places, lent by `&mut`; with `Clone, Copy` a use by value would copy them all unseen.
#[derive(Drop)]
pub struct RuleRoom {
    tree: Tree,
    starts: [usize; 32],
}

impl RuleRoom {
    pub const EMPTY: RuleRoom = RuleRoom {
        tree: Tree::EMPTY,
        starts: [0; 32],
    };
}

// Rules that a table holds, and a search tree over their names.
#[derive(Clone, Copy)]
pub struct LoadedTable<'a> {
    pub rules: RulesAt<'a>,
    tree: &'a Tree,
    pub ghost told: { ∥ RulesThere rules.table.now rules.starts.now ∥₁ },
}

impl<'a> LoadedTable<'a> {
    ghost use Rattle.std.specs.Prelude.{◌≡◌};
    ghost use Rattle.derivation.specs.Rule.{rule_named};
    ghost use Rattle.evr0_rules.specs.Maps.{named_out, rules_out};

    // These rules, with the tree that is made of their names in the room.
    pub fn new(rules: RulesAt<'a>, room: &'a mut RuleRoom) -> LoadedTable<'a>
        requires { ∥ RulesThere rules.table.now rules.starts.now ∥₁ }
        ensures { result.rules ≡ rules.entry }
    {
        room.tree.fill(rules);
        let tree = &room.tree;
        LoadedTable { rules, tree }
    }

    // The rule with this name: the one at which it ends in the tree, where that has the name, else by all.
    fn rule_named(self, name: &[u8]) -> Option<Rule>
        ensures { named_out name.now result ≡ rule_named (rules_out self.entry.rules) name.now }
    {
        if let (Child::Rule(number), _) = self.tree.end(name) {
            let number = number as usize;
            if number < self.rules.starts.len() {
                let rule = self.rules.rule(number);
                if rule.has_name(name) {
                    return Some(rule.numbers());
                }
            }
        }
        self.rules.rule_named(name)
    }
}

#[derive(Clone, Copy)]
pub enum Rulebook<'a> {
    Four,
    Table(LoadedTable<'a>),
}

impl<'a> Rulebook<'a> {
    ghost use Rattle.std.specs.Prelude.{◌≡◌};
    ghost use Rattle.local_format.specs.Maps.{answer_out};
    ghost use Rattle.derivation.specs.Rule.{rule_named};
    ghost use Rattle.rule_table.specs.ByTable.{rules_given};
    ghost use Rattle.evr0_rules.specs.Maps.{named_out, given_out, book_rules};

    // The rules that are given, where they load.
    pub fn load(rules: Rules<'a>, room: &'a mut RuleRoom) -> Result<Rulebook<'a>, Refusal>
        ensures { answer_out book_rules result ≡ rules_given (given_out rules.entry) }
    {
        match rules {
            Rules::Four => Ok(Rulebook::Four),
            Rules::Table(table) => {
                let RuleRoom { tree, starts } = room;
                let rules = rules_at(table, starts)?;
                tree.fill(rules);
                Ok(Rulebook::Table(LoadedTable { rules, tree }))
            }
        }
    }

    // The rule with this name.
    pub fn rule_named(self, name: &[u8]) -> Option<Rule>
        ensures { named_out name.now result ≡ rule_named (book_rules self.entry) name.now }
    {
        match self {
            Rulebook::Four => crate::four::rule_named(name),
            Rulebook::Table(loaded) => loaded.rule_named(name),
        }
    }
}
