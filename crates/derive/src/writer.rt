// A step's 40 bytes in the output buffer.
ghost use Rattle.std.specs.Prelude.{◌≡◌, ◌++◌, ◌+◌, ◌≤◌, length, take, drop};
ghost use Rattle.derive.specs.Bytes.{two, step_bytes, step_of};

use crate::Step;

// A number as two bytes at a place, high byte first.
fn put(out: &mut [u8], at: usize, x: u16)
    requires { at + 2 ≤ length out.old }
    ensures { out.new ≡ take at out.old ++ (two x ++ drop (at + 2) out.old) }
{
    out[at..at + 2].copy_from_slice(&x.to_be_bytes());
}

// A step at the front of out, which is the part of the buffer that begins where the last step ended.
pub fn write_step(step: Step, out: &mut [u8])
    requires { 40 ≤ length out.old }
    ensures { out.new ≡ step_bytes (step_of step) ++ drop 40 out.old }
{
    put(out, 0, step.head as u16);
    put(out, 2, step.rule as u16);
    put(out, 4, step.first);
    put(out, 6, step.second);
    let _fits = bitset::write(step.set, &mut out[8..]);
}
