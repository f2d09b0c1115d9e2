// The bytes of the output buffer before its first step: the known set, and what is missing of a goal that is out of reach.
ghost use Rattle.std.specs.Prelude.{◌≡◌, ◌++◌, ◌≤◌, length, drop};
ghost use Rattle.bitset.specs.Words.{value};
ghost use Rattle.deduction.specs.Setting.{switches};
ghost use Rattle.derive.specs.Inner.Ran.{verdict_of};
ghost use Rattle.verdict.specs.Buffer.{front};
ghost use Rattle.verdict.specs.Answer.{missing_as, front_bytes};
ghost use Rattle.verdict.specs.Inner.Decide.{reduced_of, missing_in};

use derive::run::Verdict;
use offers::rules::{self, Rule};

// How many bytes stand before the first step: three sets.
pub const FRONT: usize = 96;

// What is left of a set, and the learnt entries used.
#[derive(Drop)]
pub struct Reduced {
    pub remainder: [u64; 4],
    pub used: [u64; 4],
}

// What is missing of an entry with this set and this line: the line. Without the sum rule it is the set itself.
fn missing_by(rules: u8, line: Reduced, set: [u64; 4]) -> Reduced
    ensures { reduced_of result.remainder result.used ≡ missing_in (switches rules) (reduced_of line.remainder line.used) (value set) }
{
    if rules::is_on(rules, Rule::Sum) {
        return line;
    }
    Reduced {
        remainder: set,
        used: bitset::empty(),
    }
}

// What is missing of the goal, with this line and the set goal, at out of reach. Nothing is missing at the other verdicts.
#[tactic(auto, unfolding(crate::specs::Answer::missing_as))]
pub fn missing(verdict: Verdict, rules: u8, line: Reduced, goal: [u64; 4]) -> Reduced
    ensures { reduced_of result.remainder result.used ≡ missing_as (verdict_of verdict) (missing_in (switches rules) (reduced_of line.remainder line.used) (value goal)) }
{
    match verdict {
        Verdict::Underivable => missing_by(rules, line, goal),
        Verdict::Derivable | Verdict::Exhausted => Reduced {
            remainder: bitset::empty(),
            used: bitset::empty(),
        },
    }
}

// Writes the front of out: the known set, the used set, the remainder.
pub fn write_front(known: [u64; 4], missing: Reduced, out: &mut [u8])
    requires { front ≤ length out.old }
    ensures { out.new ≡ front_bytes (value known) (value missing.used) (value missing.remainder) ++ drop front out.old }
{
    let used = missing.used;
    let remainder = missing.remainder;
    let _known = bitset::write(known, out);
    let _used = bitset::write(used, &mut out[32..]);
    let _remainder = bitset::write(remainder, &mut out[64..]);
}
