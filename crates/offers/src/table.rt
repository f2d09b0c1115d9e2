// Puts offers into the table of the search.
ghost use Rattle.std.specs.Prelude.{[], ◌∷◌, ◌+◌, ◌*◌, ◌<◌};
ghost use Rattle.deduction.specs.Setting.{switches};
ghost use Rattle.deduction.specs.Run.{by_rule};
ghost use Rattle.offers.specs.Inner.Rule.{rule_number};
ghost use Rattle.offers.specs.Inner.Search.{Offered};

use crate::Search;
use crate::rules::{self, Rule};

impl Search {
    // Puts an offer of this head into the table, x without the head.
    fn lower(&mut self, head: u8, x: u16)
        requires { x < 65535 }
        ensures { Offered self.old self.new ((head * 65536 + x) ∷ []) }
    {
        let h = head as usize;
        if x < self.best[h] {
            self.best[h] = x;
            bitset::put(&mut self.ready, head);
        }
    }

    // Offers this head by a rule from entry first, where the rule is switched on.
    pub(crate) fn offer(&mut self, head: u8, rule: Rule, first: u8)
        ensures { Offered self.old self.new (by_rule (switches self.old.rules) head (rule_number rule) first) }
    {
        if rules::is_on(self.rules, rule) {
            self.lower(head, (rule as u16) * 256 + (first as u16));
        }
    }
}
