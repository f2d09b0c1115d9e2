// The lines: for each head what the rows leave of its set, and the learnt entries used, kept up while heads are learnt. So a sum test is a look at a line,
// and learning a head walks no rows.
// Beside them the columns: for each entry q the set of heads whose remainder has q, so that a new row is taken off the lines that change and no other; and the
// set of heads of whose line nothing is left. The lines of other entries stand in no column and are not kept up.
ghost use Rattle.std.specs.Prelude.{◌≡◌, Bool, true, List, [], ℕ, ◌*◌, ◌≤◌, ◌^◌, length, get_or};
ghost use Rattle.bitset.specs.Set.{single};
ghost use Rattle.bitset.specs.Words.{value};
ghost use Rattle.bitset.specs.Inner.{FourWords};
ghost use Rattle.deduction.specs.Elimination.{Row, reduce, add_row};
ghost use Rattle.knowledge.specs.Inner.Lines.{Sizes, SweptIn, Flipped, KeptIn, Entered, Begun};

// Remainder and used set of each line, the columns, and the set of the empty lines. The remainders are a table of their own, since the table of the entries'
// sets becomes that of the remainders where it stands.
#[derive(Drop)]
pub struct Lines {
    pub remainders: [[u64; 4]; 256],
    pub used: [[u64; 4]; 256],
    pub columns: [[u64; 4]; 256],
    pub empty: [u64; 4],
}

// Changes column q by a set of lines: those that it lacks are added, and those that it has are taken off.
fn flip_column(columns: &mut [[u64; 4]; 256], q: u8, lines: [u64; 4])
    ensures { Flipped (value lines) (single q) columns.old columns.new }
{
    let at = q as usize;
    columns[at] = bitset::sum(columns[at], lines);
}

// The same for each column that a word has, from column base on.
fn flip_word(columns: &mut [[u64; 4]; 256], word: u64, base: u8, lines: [u64; 4])
    requires { base ≤ 192 }
    ensures { Flipped (value lines) (word * 2 ^ base) columns.old columns.new }
{
    for q in bitset::members_of(word, base) {
        flip_column(columns, q, lines);
    }
}

// The same for each column in a set, word by word: one loop over the whole set was tried and is slower. It is made part of its two callers, so that the lines
// stay in registers.
#[inline(always)]
fn flip(columns: &mut [[u64; 4]; 256], set: [u64; 4], lines: [u64; 4])
    ensures { Flipped (value lines) (value set) columns.old columns.new }
{
    flip_word(columns, set[0], 0, lines);
    flip_word(columns, set[1], 64, lines);
    flip_word(columns, set[2], 128, lines);
    flip_word(columns, set[3], 192, lines);
}

impl Lines {
    // Adds a row to line k, and puts k among the empty lines if nothing is left of it.
    fn add_row(&mut self, k: u8, vector: [u64; 4], uses: [u64; 4])
        ensures { SweptIn (value vector) (value uses) (single k) self.old self.new }
    {
        let at = k as usize;
        let remainder = bitset::sum(self.remainders[at], vector);
        self.remainders[at] = remainder;
        self.used[at] = bitset::sum(self.used[at], uses);
        if bitset::is_empty(remainder) {
            bitset::put(&mut self.empty, k);
        }
    }

    // The same for each line that a word has, from line base on.
    fn add_to_word(&mut self, word: u64, base: u8, vector: [u64; 4], uses: [u64; 4])
        requires { base ≤ 192 }
        ensures { SweptIn (value vector) (value uses) (word * 2 ^ base) self.old self.new }
    {
        for k in bitset::members_of(word, base) {
            self.add_row(k, vector, uses);
        }
    }

    // The same for each line of a column, word by word as in `flip`.
    fn add_to_column(&mut self, column: [u64; 4], vector: [u64; 4], uses: [u64; 4])
        ensures { SweptIn (value vector) (value uses) (value column) self.old self.new }
    {
        self.add_to_word(column[0], 0, vector, uses);
        self.add_to_word(column[1], 64, vector, uses);
        self.add_to_word(column[2], 128, vector, uses);
        self.add_to_word(column[3], 192, vector, uses);
    }

    // Learns entry e in the lines: where something is left of it, its line is the new row, which is taken off every line that has the row's pivot.
    pub fn sweep(&mut self, e: u8)
        ensures sizes { Sizes self.old.remainders self.old.used self.old.empty → Sizes self.new.remainders self.new.used self.new.empty × (length self.new.columns ≡ 256) }
        ensures lines { (live : ℕ → Bool) (s : ℕ → ℕ) (rows : List Row) → live e ≡ true → KeptIn live s rows self.old → KeptIn live s (add_row rows e (reduce rows (s e))) self.new }
    {
        let at = e as usize;
        let vector = self.remainders[at];
        if !bitset::is_empty(vector) {
            let uses = bitset::sum(self.used[at], bitset::singleton(e));
            let column = self.columns[bitset::leading(vector) as usize];
            flip(&mut self.columns, vector, column);
            self.add_to_column(column, vector, uses);
        }
    }

    // Puts line i into the columns, and among the empty lines if it is empty. That the set of these is four words of 64 bits is asked, since of an array
    // in a lent struct the check knows the length and not the range of its elements.
    fn enter(&mut self, i: u8)
        requires { FourWords self.old.empty }
        ensures entered { Entered i (value (get_or self.old.remainders i [])) self.old.columns self.old.empty self.new.columns self.new.empty }
        ensures remainders { self.new.remainders ≡ self.old.remainders }
        ensures used { self.new.used ≡ self.old.used }
    {
        let set = self.remainders[i as usize];
        flip(&mut self.columns, set, bitset::singleton(i));
        if bitset::is_empty(set) {
            bitset::put(&mut self.empty, i);
        }
    }

    // Fills the columns and the empty lines, of which there are none before, from the remainders of the heads among the first n entries.
    pub fn begin(&mut self, reps: &[u8; 256], n: usize)
        requires { (n ≤ 256) × (value self.old.empty ≡ 0) × ((q : ℕ) → value (get_or self.old.columns q []) ≡ 0) }
        ensures begun { Begun n self.old.remainders reps.now self.new.columns self.new.empty }
        ensures remainders { self.new.remainders ≡ self.old.remainders }
        ensures used { self.new.used ≡ self.old.used }
        ensures sizes { Sizes self.new.remainders self.new.used self.new.empty }
    {
        for i in 0..n {
            let e = i as u8;
            if reps[i] == e {
                self.enter(e);
            }
        }
    }
}
