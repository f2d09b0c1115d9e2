// The next step by the table: that of the lowest head that waits, which isn't known and has an offer in the table, or is a sum of known terms. A step's number
// is head, then rule, then first source, so the least is the one that document 01's order names.
ghost use Rattle.std.specs.Prelude.{◌≡◌, cond, ℕ, ◌+◌, ◌*◌, ◌<◌, min, get_or, MatchOption};
ghost use Rattle.bitset.specs.Set.{member};
ghost use Rattle.bitset.specs.Words.{value};
ghost use Rattle.deduction.specs.Setting.{switches};
ghost use Rattle.deduction.specs.Run.{no_step};
ghost use Rattle.offers.specs.Inner.Next.{summed, next_in};

use crate::Search;
use crate::rules::{self, Rule};

// The number of a step from its head and the rest, rule and first source.
fn number(head: u8, x: u16) -> u32
    ensures { (result ≡ head * 65536 + x) × (result < no_step) }
{
    (head as u32) * 65536 + (x as u32)
}

impl Search {
    // The heads that are gained as a sum: those whose line is empty, which are sums of known terms, where the rule is switched on.
    fn by_sum(&self, empty: [u64; 4]) -> [u64; 4]
        ensures { (h : ℕ) → member (value result) h ≡ summed (switches self.now.rules) (value empty) h }
    {
        if rules::is_on(self.rules, Rule::Sum) {
            return empty;
        }
        bitset::empty()
    }

    // The least step that gains this head, by its offer or, where it is in the set sums, as a sum.
    fn least_step(&self, sums: [u64; 4], head: u8) -> u32
        ensures { (result ≡ head * 65536 + cond (member (value sums) head) (min (get_or self.now.best head 0) 1536) (get_or self.now.best head 0)) × (result < no_step) }
    {
        let b = self.best[head as usize];
        if bitset::member(sums, head) {
            return number(head, b.min(1536));
        }
        number(head, b)
    }

    // The number of the next step, where one follows.
    pub fn next(&self, empty: [u64; 4]) -> Option<u32>
        ensures { let n = next_in (switches self.now.rules) self.now.best (value self.now.ready) (value empty) (value self.now.known) in MatchOption result (n ≡ no_step) (λ x. (x ≡ n) × (x < no_step)) }
    {
        let sums = self.by_sum(empty);
        let head = bitset::lowest_of(bitset::minus(bitset::union(self.ready, sums), self.known))?;
        Some(self.least_step(sums, head))
    }
}
