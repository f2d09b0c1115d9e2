// The verdict: can an intruder who knows the public atoms and heard the messages before the cut derive the goal?
#![tactic(auto)]

ghost use Rattle.std.specs.Prelude.{◌≡◌, ℕ, ◌+◌, ◌*◌, ◌≤◌, length};
ghost use Rattle.deduction.specs.Setting.{every, switches};
ghost use Rattle.bitset.specs.Words.{value};
ghost use Rattle.deduction.specs.Standard.{set_at};
ghost use Rattle.dag.specs.Sheet.{goal_of, trace_length};
ghost use Rattle.dag.specs.Record.{entry_at};
ghost use Rattle.dag.specs.Refusal.{refusal};
ghost use Rattle.dag.specs.Code.{checked_code};
ghost use Rattle.verdict.specs.Buffer.{front};
ghost use Rattle.verdict.specs.Refused.{full_limit, quick_limit, refusal_of};
ghost use Rattle.verdict.specs.Demands.{Demanded};
ghost use Rattle.verdict.specs.Agrees.{Agrees};
ghost use Rattle.verdict.specs.Answer.{answer_of, buffer_of};
ghost use Rattle.verdict.specs.Code.{outcome_number, number_of, made_in};
ghost use Rattle.knowledge.specs.Inner.Lines.{line_at};
ghost use Rattle.derive.specs.Inner.Ran.{Ready};
ghost use Rattle.verdict.specs.Inner.Decide.{reduced_of, AtStart, Decided};

use canonical::Tables;
use dag::{Refusal, Sheet};
use derive::run::{Ended, Verdict};
use front::Reduced;
use knowledge::lines::Lines;
use offers::rules;

mod front;

pub use front::FRONT;

// The largest budget of the full call.
pub const FULL_LIMIT: u32 = 256;

// That of the quick call (document 02, E7).
pub const QUICK_LIMIT: u32 = 64;

// The verdict on a call that isn't refused, with the number of steps made (document 01: reached, out of reach, stopped).
#[derive(Clone, Copy, Debug, PartialEq, Eq)]
pub struct Outcome {
    pub verdict: Verdict,
    pub made: u16,
}

// The number of an outcome: the steps made plus 1,000, 2,000 or 3,000.
impl From<Outcome> for u32 {
    ghost from_gives = { λ o n. n ≡ outcome_number o };

    fn from(o: Outcome) -> u32 {
        let made = o.made as u32;
        match o.verdict {
            Verdict::Derivable => 1000 + made,
            Verdict::Underivable => 2000 + made,
            Verdict::Exhausted => 3000 + made,
        }
    }
}

// The answer: the outcome, or why the call is refused.
pub type Answer = Result<Outcome, Refusal>;

// Line k of the tables.
fn line_of(lines: &Lines, k: u8) -> Reduced
    ensures { reduced_of result.remainder result.used ≡ line_at lines.now.remainders lines.now.used k }
{
    let at = k as usize;
    Reduced {
        remainder: lines.remainders[at],
        used: lines.used[at],
    }
}

// The run by the rules switched on, from a known set and the lines by it; set is the goal's. Its steps, and what stands before them, are written to out.
fn run_from(
    sheet: Sheet,
    tables: &Tables,
    set: [u64; 4],
    known: [u64; 4],
    lines: &mut Lines,
    budget: u16,
    rules: u8,
    out: &mut [u8],
) -> Ended
    requires { Ready sheet.bytes.now tables.now.keys tables.now.reps budget front out.old × (value set ≡ set_at (entry_at sheet.bytes.now) (goal_of sheet.bytes.now)) }
    ensures { (cut : ℕ) → AtStart sheet.entry.bytes.now cut tables.now.reps known lines.old → Decided (switches rules) sheet.entry.bytes.now cut budget out.old out.new result }
{
    let ended = derive::run::run(sheet, tables, known, lines, budget, rules, FRONT, out);
    let goal = sheet.goal() as usize;
    let line = line_of(lines, tables.reps[goal]);
    let missing = front::missing(ended.verdict, rules, line, set);
    front::write_front(ended.known, missing, out);
    ended
}

// The verdict on a good sheet by the rules switched on: its tables, and what is known at the start, from where the run goes on.
fn decide(sheet: Sheet, cut: u16, budget: u16, rules: u8, out: &mut [u8]) -> Ended
    requires { (cut ≤ trace_length sheet.bytes.now) × (budget ≤ 256) × (front + 40 * budget ≤ length out.old) }
    ensures { Decided (switches rules) sheet.entry.bytes.now cut budget out.old out.new result }
{
    let mut tables = Tables {
        keys: [0; 256],
        reps: [0; 256],
    };
    let mut lines = Lines {
        remainders: [[0; 4]; 256],
        used: [[0; 4]; 256],
        columns: [[0; 4]; 256],
        empty: [0; 4],
    };
    tables.fill(sheet, &mut lines.remainders);
    let set = lines.remainders[sheet.goal() as usize];
    let start = start::state(sheet, cut, &tables, &mut lines);
    let known = start.known;
    run_from(sheet, &tables, set, known, &mut lines, budget, rules, out)
}

// The outcome of a call that isn't refused.
fn judged(sheet: Sheet, cut: u16, budget: u16, rules: u8, out: &mut [u8]) -> Outcome
    requires { (cut ≤ trace_length sheet.bytes.now) × (budget ≤ 256) × (front + 40 * budget ≤ length out.old) }
    ensures answer { outcome_number result ≡ answer_of (switches rules) full_limit sheet.entry.bytes.now cut budget (length out.old) }
    ensures few { result.made ≤ budget }
    ensures bytes { out.new ≡ buffer_of (switches rules) full_limit sheet.entry.bytes.now cut budget out.old }
{
    let ended = decide(sheet, cut, budget, rules, out);
    Outcome {
        verdict: ended.verdict,
        made: ended.made,
    }
}

// Which of the rows 8 to 10 of the grounding table refuses a call on a good sheet, if any. The limit is the largest budget that isn't refused.
fn check_call(limit: u32, sheet: Sheet, cut: u32, budget: u32, space: usize) -> Result<(), Refusal>
    ensures { checked_code result ≡ refusal_of limit sheet.entry.bytes.now cut budget space }
{
    if (sheet.trace_len() as u32) < cut {
        return Err(Refusal::PastTheLog);
    }
    if limit < budget {
        return Err(Refusal::OverBudget);
    }
    if space < FRONT + 40 * (budget as usize) {
        return Err(Refusal::NoSpace);
    }
    Ok(())
}

// The verdict call with a limit, by the rules switched on: what every entry point uses. A refusal leaves every byte of out; otherwise out gets the known
// set, what is missing, 40 bytes a step, and keeps its later bytes. Only as many bytes as the budget needs are lent to what follows. (As it calls itself,
// the compiler keeps the large tables of `judged` out of its frame: a refused call needs little stack.) Cut, budget and switches are numbers each, as callers
// in C hand them over.
fn within(limit: u32, sheet: &[u8], cut: u32, budget: u32, rules: u8, out: &mut [u8]) -> Answer
    requires { limit ≤ 256 }
    ensures answer { number_of result ≡ answer_of (switches rules) limit sheet.now cut budget (length out.old) }
    ensures few { made_in result ≤ limit }
    ensures bytes { out.new ≡ buffer_of (switches rules) limit sheet.now cut budget out.old }
    ensures demands { Demanded (switches rules) limit sheet.now cut budget out.old out.new (number_of result) }
    ensures agrees { Agrees (switches rules) sheet.now cut (number_of result) }
{
    let need = FRONT + 40 * (budget as usize);
    if need < out.len() {
        return within(limit, sheet, cut, budget, rules, &mut out[..need]);
    }
    let good = Sheet::new(sheet)?;
    check_call(limit, good, cut, budget, out.len())?;
    Ok(judged(good, cut as u16, budget as u16, rules, out))
}

// The verdict call by the rules switched on.
pub fn limited(sheet: &[u8], cut: u32, budget: u32, rules: u8, out: &mut [u8]) -> Answer
    ensures answer { number_of result ≡ answer_of (switches rules) full_limit sheet.now cut budget (length out.old) }
    ensures few { made_in result ≤ full_limit }
    ensures bytes { out.new ≡ buffer_of (switches rules) full_limit sheet.now cut budget out.old }
    ensures demands { Demanded (switches rules) full_limit sheet.now cut budget out.old out.new (number_of result) }
    ensures agrees { Agrees (switches rules) sheet.now cut (number_of result) }
{
    within(FULL_LIMIT, sheet, cut, budget, rules, out)
}

// The verdict call with every rule on.
pub fn verdict(sheet: &[u8], cut: u32, budget: u32, out: &mut [u8]) -> Answer
    ensures answer { number_of result ≡ answer_of every full_limit sheet.now cut budget (length out.old) }
    ensures few { made_in result ≤ full_limit }
    ensures bytes { out.new ≡ buffer_of every full_limit sheet.now cut budget out.old }
    ensures demands { Demanded every full_limit sheet.now cut budget out.old out.new (number_of result) }
    ensures agrees { Agrees every sheet.now cut (number_of result) }
{
    limited(sheet, cut, budget, rules::EVERY, out)
}

// The same while a planner types: for a budget of at most 64.
pub fn quick(sheet: &[u8], cut: u32, budget: u32, out: &mut [u8]) -> Answer
    ensures answer { number_of result ≡ answer_of every quick_limit sheet.now cut budget (length out.old) }
    ensures few { made_in result ≤ quick_limit }
    ensures bytes { out.new ≡ buffer_of every quick_limit sheet.now cut budget out.old }
    ensures demands { Demanded every quick_limit sheet.now cut budget out.old out.new (number_of result) }
    ensures agrees { Agrees every sheet.now cut (number_of result) }
{
    within(QUICK_LIMIT, sheet, cut, budget, rules::EVERY, out)
}

// The number of an answer: a refusal's, or an outcome's.
fn number(answer: Answer) -> u32
    ensures { result ≡ number_of answer }
{
    match answer {
        Ok(outcome) => outcome.into(),
        Err(refusal) => refusal.into(),
    }
}

// The same on numbers and byte buffers. `verdict_c` exports this function and the three below it for callers in C.
pub fn zuwendryk_verdict(sheet: &[u8], cut: u32, budget: u32, buffer: &mut [u8]) -> u32
    ensures answer { result ≡ answer_of every full_limit sheet.now cut budget (length buffer.old) }
    ensures bytes { buffer.new ≡ buffer_of every full_limit sheet.now cut budget buffer.old }
    ensures demands { Demanded every full_limit sheet.now cut budget buffer.old buffer.new result }
    ensures agrees { Agrees every sheet.now cut result }
{
    number(verdict(sheet, cut, budget, buffer))
}

// The same by the rules that a byte of eight switches says: the lowest bit is for rule 1, and every value is good.
pub fn zuwendryk_limited_verdict(
    sheet: &[u8],
    cut: u32,
    budget: u32,
    rules: u8,
    buffer: &mut [u8],
) -> u32
    ensures answer { result ≡ answer_of (switches rules) full_limit sheet.now cut budget (length buffer.old) }
    ensures bytes { buffer.new ≡ buffer_of (switches rules) full_limit sheet.now cut budget buffer.old }
    ensures demands { Demanded (switches rules) full_limit sheet.now cut budget buffer.old buffer.new result }
    ensures agrees { Agrees (switches rules) sheet.now cut result }
{
    number(limited(sheet, cut, budget, rules, buffer))
}

// The verdict while a planner types. A budget over 64 is refused; with any other, answer and bytes are those of the full call.
pub fn zuwendryk_quick_verdict(sheet: &[u8], cut: u32, budget: u32, buffer: &mut [u8]) -> u32
    ensures answer { result ≡ answer_of every quick_limit sheet.now cut budget (length buffer.old) }
    ensures bytes { buffer.new ≡ buffer_of every quick_limit sheet.now cut budget buffer.old }
    ensures demands { Demanded every quick_limit sheet.now cut budget buffer.old buffer.new result }
    ensures agrees { Agrees every sheet.now cut result }
    ensures full_answer { budget ≤ quick_limit → result ≡ answer_of every full_limit sheet.now cut budget (length buffer.old) }
    ensures full_bytes { budget ≤ quick_limit → buffer.new ≡ buffer_of every full_limit sheet.now cut budget buffer.old }
{
    number(quick(sheet, cut, budget, buffer))
}

// Is this a good sheet? For callers in C: the number of the refusal, 1 to 7 or 12, or 0.
pub fn zuwendryk_validate(sheet: &[u8]) -> u32
    ensures { result ≡ refusal sheet.now }
{
    dag::code(dag::validate(sheet))
}
