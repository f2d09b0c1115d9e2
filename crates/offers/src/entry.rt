// What one entry offers, read off its key: what it gives where it is known, and by what it is built where it isn't.
ghost use Rattle.std.specs.Prelude.{◌≡◌, MatchOption};
ghost use Rattle.bitset.specs.Set.{member};
ghost use Rattle.bitset.specs.Words.{value};
ghost use Rattle.deduction.specs.Setting.{switches};
ghost use Rattle.offers.specs.Inner.Offers.{both_known, built_by, key_gives, key_built};
ghost use Rattle.offers.specs.Inner.Rule.{rule_number};
ghost use Rattle.offers.specs.Inner.Search.{Offered};

use crate::Search;
use crate::rules::Rule;
use dag::Kind;

// The rule by which an entry of this kind is built, where there is one.
#[tactic(auto, unfolding(crate::specs::Inner::Offers::built_by))]
fn building(kind: u8) -> Option<Rule>
    ensures { MatchOption result (built_by kind ≡ 0) (λ rule. built_by kind ≡ rule_number rule) }
{
    match Kind::try_from(kind) {
        Ok(Kind::Pair) => Some(Rule::Join),
        Ok(Kind::Enc) => Some(Rule::Seal),
        Ok(Kind::Aenc) => Some(Rule::Lock),
        _ => None,
    }
}

// Is e known, where e may be past every entry?
fn is_known(known: &[u64; 4], e: u16) -> bool
    ensures { result ≡ member (value known.now) e }
{
    match u8::try_from(e) {
        Ok(entry) => bitset::holds(known, entry),
        Err(_) => false,
    }
}

impl Search {
    // Are both parts of a pair or an encryption of either sort known?
    fn both_known(&self, key: u64) -> bool
        ensures { result ≡ both_known (value self.now.known) key }
    {
        bitset::holds(&self.known, canonical::left(key))
            && bitset::holds(&self.known, canonical::right(key))
    }

    // What the known entry i gives: a pair its parts, an encryption its message where its key is known, a lock its message where the opposite half of its
    // key is.
    pub(crate) fn opened(&mut self, key: u64, i: u8)
        ensures { Offered self.old self.new (key_gives (switches self.old.rules) (value self.old.known) key i) }
    {
        let Ok(kind) = Kind::try_from(canonical::kind(key)) else {
            return;
        };
        match kind {
            Kind::Pair => {
                self.offer(canonical::left(key), Rule::Left, i);
                self.offer(canonical::right(key), Rule::Right, i);
            }
            Kind::Enc => {
                if bitset::holds(&self.known, canonical::right(key)) {
                    self.offer(canonical::left(key), Rule::Open, i);
                }
            }
            Kind::Aenc => {
                if is_known(&self.known, canonical::opener(key)) {
                    self.offer(canonical::left(key), Rule::Unlock, i);
                }
            }
            _ => {}
        }
    }

    // By which rule the unknown entry i is built, where its parts are known.
    pub(crate) fn built(&mut self, key: u64, i: u8)
        ensures { Offered self.old self.new (key_built (switches self.old.rules) (value self.old.known) key i) }
    {
        let Some(rule) = building(canonical::kind(key)) else {
            return;
        };
        if self.both_known(key) {
            self.offer(i, rule, canonical::left(key));
        }
    }
}
