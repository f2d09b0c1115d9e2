// The steps of the intruder: the whole step of a number, and the run that makes steps.
#![tactic(auto)]

pub mod run;
mod whole;
mod writer;

// In a step: no source.
const UNUSED: u16 = 65535;

// One step (document 01: rung). Rule and sources are numbers as they stand in the buffer: a source that isn't used is 65,535.
#[derive(Drop)]
pub struct Step {
    pub head: u8,
    pub rule: u8,
    pub first: u16,
    pub second: u16,
    pub set: [u64; 4],
}
