// The rules, and the byte of switches that says which of them the intruder has.
ghost use Rattle.std.specs.Prelude.{◌≡◌};
ghost use Rattle.deduction.specs.Setting.{switches};
ghost use Rattle.offers.specs.Inner.Rule.{rule_number};

// A rule, by its number in a step.
#[derive(Clone, Copy, Debug, PartialEq, Eq)]
pub enum Rule {
    Left = 1,
    Right = 2,
    Open = 3,
    Join = 4,
    Seal = 5,
    Sum = 6,
    Unlock = 7,
    Lock = 8,
}

// Every rule switched on.
pub const EVERY: u8 = 255;

// Is the rule switched on? The lowest bit is for rule 1.
pub fn is_on(rules: u8, rule: Rule) -> bool
    ensures { result ≡ switches rules (rule_number rule) }
{
    (rules >> (rule as u8 - 1)) % 2 == 1
}
