// Loading a table of proof rules.
ghost use Rattle.std.specs.Prelude.{◌≡◌};
ghost use Rattle.rule_table.specs.Load.{rules_of};
ghost use Rattle.evr0_rules.specs.Maps.{count_in};
ghost use Rattle.falgnust.specs.SectionMaps.{flat_rules};

use falgnust::rules::Rules;

#[unsafe(no_mangle)]
pub extern "C" fn falgnust_load_rules(rules: &[u8]) -> Rules
    ensures { result ≡ flat_rules (count_in (rules_of rules.now)) }
{
    falgnust::rules::falgnust_load_rules(rules)
}
