// The whole step of a number.
ghost use Rattle.std.specs.Prelude.{◌≡◌};
ghost use Rattle.deduction.specs.Step.{step};
ghost use Rattle.derive.specs.Bytes.{step_of};
ghost use Rattle.derive.specs.Inner.Step.{second_in, step_in};

use crate::{Step, UNUSED};

// A step by a rule other than the sum: its set is empty.
fn without_set(head: u8, rule: u8, first: u8, second: u16) -> Step
    ensures { step_of result ≡ step head rule first second 0 }
{
    Step {
        head,
        rule,
        first: first as u16,
        second,
        set: bitset::empty(),
    }
}

// The second source of a step by a rule other than the sum: none for a split, the key for an encryption, the opposite half for a lock, the second
// part of what is built.
#[tactic(auto, unfolding(crate::specs::Inner::Step::second_in))]
fn second_source(keys: &[u64; 256], head: u8, rule: u8, first: u8) -> u16
    ensures { result ≡ second_in keys.now head rule first }
{
    match rule {
        0..=2 => UNUSED,
        3 => canonical::right(keys[first as usize]) as u16,
        7 => canonical::opener(keys[first as usize]),
        _ => canonical::right(keys[head as usize]) as u16,
    }
}

// The whole step of a number: its second source from the keys, and for a sum the learnt entries that the head's line uses.
#[tactic(auto, unfolding(crate::specs::Inner::Step::step_in, crate::specs::Inner::Step::line_step))]
pub fn step_of(x: u32, keys: &[u64; 256], used: &[[u64; 4]; 256]) -> Step
    ensures { step_of result ≡ step_in keys.now used.now x }
{
    let head = (x / 65536 % 256) as u8;
    let rule = (x / 256 % 256) as u8;
    let first = (x % 256) as u8;
    if rule != 6 {
        return without_set(head, rule, first, second_source(keys, head, rule, first));
    }
    Step {
        head,
        rule: 6,
        first: UNUSED,
        second: UNUSED,
        set: used[head as usize],
    }
}
