// The four rules, by their names' fixed bytes.
ghost use Rattle.std.specs.Prelude.{◌≡◌};
ghost use Rattle.derivation.specs.Rule.{rule_named, four_rules};
ghost use Rattle.evr0_rules.specs.Maps.{named_out};

use crate::rule::Rule;
use local_format::tag::same;

// The one of the four whose name has these bytes.
// Kept (6b): a loop over a table of the four finds a name in 53 instructions, this in 29; a `match` on the names has 51 ways to its last arm.
pub fn rule_named(name: &[u8]) -> Option<Rule>
    ensures { named_out name.now result ≡ rule_named four_rules name.now }
{
    if same(name, b"POS-WITNESS-1") {
        return Some(Rule {
            witnesses: 1,
            parents: 0,
            operation: 0,
            polarity: 1,
        });
    }
    if same(name, b"NEG-WITNESS-1") {
        return Some(Rule {
            witnesses: 1,
            parents: 0,
            operation: 0,
            polarity: 0,
        });
    }
    if same(name, b"JOIN-SAME-P-1") {
        return Some(Rule {
            witnesses: 0,
            parents: 2,
            operation: 0,
            polarity: 2,
        });
    }
    if same(name, b"OP-T-ONLY-1") {
        return Some(Rule {
            witnesses: 0,
            parents: 1,
            operation: 1,
            polarity: 2,
        });
    }
    None
}
