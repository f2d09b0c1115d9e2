// The card of a sheet, made in a lent buffer, byte by byte.
#![tactic(auto)]

ghost use Rattle.std.specs.Prelude.{◌≡◌, false, ◌+◌, ◌*◌, ◌≤◌, length};
ghost use Rattle.deduction.specs.Setting.{every};
ghost use Rattle.dag.specs.Sheet.{trace_length};
ghost use Rattle.dag.specs.Refusal.{refusal};
ghost use Rattle.verdict.specs.Answer.{outcome_of};
ghost use Rattle.verdict.specs.Buffer.{front, read_step, steps_in};
ghost use Rattle.card.specs.Card.{steps_text, cut_text, is_reached, cuts_from, card_of};
ghost use Rattle.line.specs.Text.{Adds};
ghost use Rattle.card.specs.Buffer.{HasRoom, step_of, Printed};

use dag::sheet;
use line::{Rung, Text};
use verdict::FRONT;

// The rung at the front of step.
fn read_rung(step: &[u8]) -> Rung
    requires { 40 ≤ length step.now }
    ensures { step_of result ≡ read_step step.now }
{
    Rung {
        head: sheet::number_at(step, 0),
        rule: sheet::number_at(step, 2),
        first: sheet::number_at(step, 4),
        second: sheet::number_at(step, 6),
        set: bitset::read(&step[8..]),
    }
}

// Adds the lines of the first n rungs of a buffer.
fn append_steps(text: &mut Text, buffer: &[u8], n: u16)
    requires { (n ≤ 256) × (front + 40 * n ≤ length buffer.now) × HasRoom text.old (1050 * n) }
    ensures { Adds text.old (steps_text (steps_in buffer.now n)) text.new }
{
    for i in 0..usize::from(n) {
        text.step_line(read_rung(&buffer[FRONT + 40 * i..]));
    }
}

// Adds what is printed of a cut: its line, and where the goal is reached the rungs. The answer is whether it is reached.
fn append_cut(text: &mut Text, sheet: &[u8], cut: u16, buffer: &mut [u8]) -> bool
    requires { (refusal sheet.now ≡ 0) × (cut ≤ trace_length sheet.now) × (length buffer.old ≡ front + 40 * 256) × HasRoom text.old 268864 }
    ensures text { Adds text.old (cut_text sheet.now cut) text.new }
    ensures short { result ≡ false → text.new.len ≤ text.old.len + 64 }
    ensures reached { result ≡ is_reached (outcome_of every sheet.now cut 256).verdict }
    ensures size { length buffer.new ≡ front + 40 * 256 }
{
    let answer = verdict::zuwendryk_verdict(sheet, cut as u32, 256, buffer);
    if answer < 2000 {
        let made = (answer - 1000) as u16;
        text.reached_line(cut, made);
        append_steps(text, buffer, made);
        return true;
    }
    let known = bitset::count(bitset::read(buffer));
    text.out_line(cut, known);
    false
}

// Adds the cuts from 0 to the last, up to the first at which the goal is reached.
fn append_cuts(text: &mut Text, sheet: &[u8], last: u16)
    requires { (refusal sheet.now ≡ 0) × (last ≡ trace_length sheet.now) × HasRoom text.old 290000 }
    ensures { Adds text.old (cuts_from sheet.now 0 (last + 1)) text.new }
{
    let mut buffer = [0u8; FRONT + 40 * 256];
    for cut in 0..=last {
        if append_cut(text, sheet, cut, &mut buffer) {
            return;
        }
    }
}

// The card of a sheet, or its refusal, at the front of out; the answer is its length. A buffer of under 300,000 bytes is left as it was, and the
// answer is 0.
pub fn card(sheet: &[u8], out: &mut [u8]) -> usize
    ensures { Printed 300000 (card_of sheet.now) out.old out.new result }
{
    if out.len() < 300000 {
        return 0;
    }
    let mut text = Text::new(out, 0);
    let refusal = dag::code(dag::validate(sheet));
    if refusal != 0 {
        text.refused_line(refusal);
        return text.len();
    }
    let last = sheet::trace_len(sheet);
    text.goal_line(sheet::goal(sheet), last);
    append_cuts(&mut text, sheet, last);
    text.len()
}
