// Loading a table of proof rules.
ghost use Rattle.std.specs.Prelude.{◌≡◌};
ghost use Rattle.local_format.specs.Maps.{answer_out};
ghost use Rattle.rule_table.specs.Load.{rules_of};
ghost use Rattle.evr0_rules.specs.Maps.{count_in};
ghost use Rattle.falgnust.specs.SectionMaps.{flat_rules};

use crate::refusal::{Answer, Refusal};
use evr0_rules::load::load_rules;

// How many rules the table holds; or a refusal, with a zero beside it.
// Kept (1a): callers in C read a flag and the values beside it.
#[repr(C)]
#[derive(Clone, Copy, Debug, Default, PartialEq, Eq)]
pub struct Rules {
    pub accepted: bool,
    pub refusal: Refusal,
    pub count: usize,
}

impl From<Answer<usize>> for Rules {
    ghost from_gives = { λ loaded r. r ≡ flat_rules (answer_out (λ n. n) loaded) };

    fn from(loaded: Answer<usize>) -> Rules {
        match loaded {
            Ok(count) => Rules {
                accepted: true,
                count,
                ..Rules::default()
            },
            Err(refused) => Rules {
                refusal: refused.into(),
                ..Rules::default()
            },
        }
    }
}

#[unsafe(no_mangle)]
pub extern "C" fn falgnust_load_rules(rules: &[u8]) -> Rules
    ensures { result ≡ flat_rules (count_in (rules_of rules.now)) }
{
    load_rules(rules).into()
}
