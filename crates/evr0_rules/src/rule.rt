// A proof rule without its name.
ghost use Rattle.std.specs.Prelude.{List, ◌≡◌, ℕ, length};
ghost use Rattle.derivation.specs.Rule as of;
ghost use Rattle.derivation.specs.Rule.{polarity_fits};
ghost use Rattle.rule_table.specs.Load.{is_shaped, bounded};
ghost use Rattle.evr0_rules.specs.Maps.{rule_out, asking};

// How many witnesses and parents, and which operation, a proof by it has; the polarity that it asks of its witness, 2 where it asks none.
// Kept (1a): bytes of a table of rules, as they were read; the operation is held against a proof's byte, the polarity waits in the lent table of depths.
#[derive(Clone, Copy, Debug, PartialEq, Eq)]
pub struct Rule {
    pub polarity: u8,
    pub witnesses: u8,
    pub parents: u8,
    pub operation: u8,
}

// Whether the numbers are one witness, no parent and polarity 0 or 1, or no witness, 1 or 2 parents and polarity 2.
#[tactic(auto, unfolding(rule_table::specs::Load::is_shaped))]
fn is_shaped(rule: Rule) -> bool
    ensures { (name : List ℕ) → result ≡ is_shaped (rule_out name rule) }
{
    let by_witness = (rule.witnesses == 1) & ((rule.parents == 0) & (rule.polarity <= 1));
    let by_parents = (rule.witnesses == 0)
        & ((1 <= rule.parents) & ((rule.parents <= 2) & (rule.polarity == 2)));
    by_witness | by_parents
}

// Whether a table may hold the rule with these numbers and a name of so many bytes.
#[tactic(auto, unfolding(rule_table::specs::Load::bounded))]
pub fn is_bounded(len: usize, rule: Rule) -> bool
    ensures { (name : List ℕ) → length name ≡ len → result ≡ bounded (rule_out name rule) }
{
    (len <= 64) & ((rule.operation <= 1) & is_shaped(rule))
}

// Whether a witness's polarity is the one that a rule asks, 2 where it asks none.
// Kept (1a): `asked` is a word of the lent table of depths, and `polarity` a witness's byte.
#[tactic(auto, unfolding(derivation::specs::Rule::polarity_fits))]
pub fn polarity_fits(asked: u64, polarity: u8) -> bool
    ensures { (rule : of.Rule) → result ≡ polarity_fits (asking asked rule) polarity }
{
    (asked == 2) | (polarity as u64 == asked)
}
