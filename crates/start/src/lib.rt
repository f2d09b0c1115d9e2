// What the intruder knows at the start of a call: the public atoms of the sheet, then the messages heard before the cut.
#![tactic(auto)]

ghost use Rattle.std.specs.Prelude.{◌≡◌, ◌&&◌, [], ◌∷◌, map, ◌+◌, ◌*◌, ◌≤◌, ◌<◌, eqb, length, get_or};
ghost use Rattle.deduction.specs.Standard.{set_at, rep_at};
ghost use Rattle.deduction.specs.Run.{knowledge};
ghost use Rattle.dag.specs.Sheet.{count_of, trace_length, trace_of};
ghost use Rattle.dag.specs.Record.{entry_at};
ghost use Rattle.knowledge.specs.Inner.State.{Holds};
ghost use Rattle.knowledge.specs.Inner.Lines.{KeptIn, head_in};
ghost use Rattle.start.specs.Start.{public_heads, start_heads};
ghost use Rattle.start.specs.Inner.State.{public_key, Keyed, Represented, Started};
ghost use Rattle.start.specs.Inner.Heads.{with_head, with_heads, head_or_last, four_from};
ghost use Rattle.start.specs.Inner.Hearing.{Hearable, Hears, Hearing, HeldAll};

use canonical::Tables;
use dag::sheet::Sheet;
use heads::Heads;
use knowledge::Knowledge;
use knowledge::lines::Lines;

mod heads;

// The key of atom 0. An atom's key is this and its number.
const ATOM: u64 = 1 << 32;

// Is this the key of a public atom, one with a number from 0 to 255 (document 02: names on the hull label)?
fn is_public(key: u64) -> bool
    ensures { result ≡ public_key key }
{
    (ATOM..ATOM + 256).contains(&key)
}

// Is entry i a public atom and the representative of its term?
fn is_public_head(tables: &Tables, i: u8) -> bool
    ensures { result ≡ (public_key (get_or tables.now.keys i 0) && eqb (get_or tables.now.reps i 0) i) }
{
    let at = i as usize;
    is_public(tables.keys[at]) && tables.reps[at] == i
}

// Lists the public atoms, in rising order, each as its representative.
fn public_heads(sheet: Sheet, tables: &Tables, heads: &mut Heads)
    requires keys { Keyed sheet.bytes.now tables.now.keys }
    requires reps { Represented sheet.bytes.now tables.now.reps }
    ensures { heads.new ≡ with_heads heads.old (public_heads (entry_at sheet.entry.bytes.now) (count_of sheet.entry.bytes.now)) }
{
    for k in 0..sheet.count() {
        let i = k as u8;
        if is_public_head(tables, i) {
            heads.push(i);
        }
    }
}

// Lists the messages heard before the cut, in order, each as its representative.
fn trace_heads(sheet: Sheet, cut: u16, tables: &Tables, heads: &mut Heads)
    requires cut { cut ≤ trace_length sheet.bytes.now }
    requires reps { Represented sheet.bytes.now tables.now.reps }
    ensures { heads.new ≡ with_heads heads.old (map (rep_at (entry_at sheet.entry.bytes.now)) (trace_of sheet.entry.bytes.now cut)) }
{
    for k in 0..cut {
        heads.push(tables.reps[sheet.trace_at(k) as usize]);
    }
}

// Hears one head: its line is taken off the others, and what was left of it goes into the state. It is made part of `hear_four`, so that the state isn't copied
// at each head. With `inline(always)` one more copy of the state was counted for each four.
#[inline]
fn hear_one(state: Knowledge, e: u8, lines: &mut Lines) -> Knowledge
    requires { Hearable (e ∷ []) state lines.old }
    ensures { Hears (e ∷ []) state lines.old result lines.new }
{
    let remainder = lines.remainders[e as usize];
    lines.sweep(e);
    state.hear(e, remainder)
}

// Hears four heads in order. They stand here one by one, so that the state is handed in and out once for the four.
fn hear_four(state: Knowledge, heads: [u8; 4], lines: &mut Lines) -> Knowledge
    requires { Hearable heads state lines.old }
    ensures { Hears heads state lines.old result lines.new }
{
    let one = hear_one(state, heads[0], lines);
    let two = hear_one(one, heads[1], lines);
    let three = hear_one(two, heads[2], lines);
    hear_one(three, heads[3], lines)
}

// Hears the heads in order, from nothing.
fn hear(heads: &Heads, lines: &mut Lines) -> Knowledge
    requires { Hearing heads.now lines.old }
    ensures { HeldAll heads.now lines.old result lines.new }
{
    let mut state = Knowledge::new();
    for i in 0..heads.fours() {
        state = hear_four(state, heads.four(i), lines);
    }
    state
}

// What is known at the start: the public atoms first, then the messages heard before the cut. Each line is kept up.
pub fn state(sheet: Sheet, cut: u16, tables: &Tables, lines: &mut Lines) -> Knowledge
    requires { Started sheet.bytes.now cut tables.now.keys tables.now.reps lines.old.remainders lines.old.used lines.old.columns lines.old.empty }
    ensures state { Holds (knowledge (entry_at sheet.entry.bytes.now) (start_heads sheet.entry.bytes.now cut)) result.known result.rows result.len }
    ensures lines { KeptIn (head_in tables.now.reps (count_of sheet.entry.bytes.now)) (set_at (entry_at sheet.entry.bytes.now)) (knowledge (entry_at sheet.entry.bytes.now) (start_heads sheet.entry.bytes.now cut)).rows lines.new }
{
    lines.begin(&tables.reps, sheet.count() as usize);
    let mut heads = Heads::new();
    public_heads(sheet, tables, &mut heads);
    trace_heads(sheet, cut, tables, &mut heads);
    hear(&heads, lines)
}
