// The run: steps made until the goal is known, nothing follows or the budget is used up.
ghost use Rattle.std.specs.Prelude.{◌≡◌, Bool, true, List, [], ◌++◌, ℕ, ◌≤◌, length, get_or, drop};
ghost use Rattle.bitset.specs.Words.{value};
ghost use Rattle.deduction.specs.Setting.{switches};
ghost use Rattle.deduction.specs.Elimination.{Row, Knowledge, reduce, add_row};
ghost use Rattle.knowledge.specs.Inner.Lines.{KeptIn};
ghost use Rattle.derive.specs.Bytes.{step_bytes};
ghost use Rattle.derive.specs.Inner.Step.{step_in};
ghost use Rattle.derive.specs.Inner.Ran.{end_as, Learnt, Ready, LinesOf, Ran};

use crate::{whole, writer};
use canonical::Tables;
use dag::Sheet;
use knowledge::lines::Lines;
use offers::{Search, users};

// How a run ends.
#[derive(Clone, Copy, Debug, PartialEq, Eq)]
pub enum Verdict {
    Derivable,
    Underivable,
    Exhausted,
}

// The verdict, the number of steps made, and the known set at the end.
#[derive(Drop)]
pub struct Ended {
    pub verdict: Verdict,
    pub made: u16,
    pub known: [u64; 4],
}

// The end of a run.
fn end_as(verdict: Verdict, made: u16, known: [u64; 4]) -> Ended
    ensures { result ≡ end_as verdict made known }
{
    Ended {
        verdict,
        made,
        known,
    }
}

// Makes the step of number x, which gains this head: writes it at the front of out and learns the head in the lines.
fn make(x: u32, head: u8, keys: &[u64; 256], lines: &mut Lines, out: &mut [u8])
    requires { 40 ≤ length out.old }
    ensures bytes { out.new ≡ step_bytes (step_in keys.now lines.old.used x) ++ drop 40 out.old }
    ensures lines { (live : ℕ → Bool) (s : ℕ → ℕ) (rows : List Row) → live head ≡ true → KeptIn live s rows lines.old → KeptIn live s (add_row rows head (reduce rows (s head))) lines.new }
{
    let step = whole::step_of(x, keys, &lines.used);
    writer::write_step(step, out);
    lines.sweep(head);
}

// A head becomes known: the table of offers gets its offers and those of its users.
fn learn(state: &mut Search, keys: &[u64; 256], users: &[[u64; 4]; 256], head: u8)
    ensures { Learnt keys.now (value (get_or users.now head [])) head state.old state.new }
{
    bitset::put(&mut state.known, head);
    state.offers(keys, head);
    state.offers_of(keys, users[head as usize]);
}

// The run over a sheet from a state by the rules switched on, with its steps written from byte `front` of out on. The state is the known set and the lines.
pub fn run(
    sheet: Sheet,
    tables: &Tables,
    known: [u64; 4],
    lines: &mut Lines,
    budget: u16,
    rules: u8,
    front: usize,
    out: &mut [u8],
) -> Ended
    requires { Ready sheet.bytes.now tables.now.keys tables.now.reps budget front out.old }
    ensures { (k : Knowledge) → value known ≡ k.known → LinesOf sheet.entry.bytes.now tables.now.reps k.rows lines.old → Ran (switches rules) sheet.entry.bytes.now tables.now.reps k budget front out.old result lines.new out.new }
{
    let n = sheet.count() as usize;
    let goal = sheet.goal() as u8;
    let goal_head = tables.reps[goal as usize];
    let mut users = [[0u64; 4]; 256];
    users::fill_users(&mut users, tables, n);
    let mut search = Search::new(known, rules);
    search.all_offers(tables, n);
    let mut made: u16 = 0;
    // A loop, since the steps made are compared with the budget only where a step follows.
    loop {
        if bitset::holds(&search.known, goal_head) {
            return end_as(Verdict::Derivable, made, search.known);
        }
        let Some(x) = search.next(lines.empty) else {
            return end_as(Verdict::Underivable, made, search.known);
        };
        if made == budget {
            return end_as(Verdict::Exhausted, made, search.known);
        }
        let from = front + 40 * (made as usize);
        let head = (x / 65536 % 256) as u8;
        make(x, head, &tables.keys, lines, &mut out[from..]);
        learn(&mut search, &tables.keys, &users, head);
        made += 1;
    }
}
