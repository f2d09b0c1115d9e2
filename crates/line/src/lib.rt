// The text of a card, made in a lent buffer. Each method adds to the end of the text.
#![tactic(auto)]

ghost use Rattle.std.specs.Prelude.{◌≡◌, ◌++◌, ◌+◌, ◌≤◌};
ghost use Rattle.bitset.specs.Words.{value};
ghost use Rattle.line.specs.Words.{newline};
ghost use Rattle.line.specs.Line.{spaced, field, source, sources, rule_text, pair_line, goal_line, out_line, reached_line, step_line, refused_line};
ghost use Rattle.line.specs.Text.{Fits, Adds};

// A step of a run: the entry that it gains, the number of its rule, and its sources.
#[derive(Clone, Copy)]
pub struct Rung {
    pub head: u16,
    pub rule: u16,
    pub first: u16,
    pub second: u16,
    pub set: [u64; 4],
}

// Text at the front of a lent buffer, whose other bytes stay as they were.
// Its lines are methods and not a `Display`: a `fmt` may answer an error, no clause of it says when, and a line is promised wherever there is room.
#[derive(Drop)]
pub struct Text<'a> {
    out: &'a mut [u8],
    len: usize,
}

impl<'a> Text<'a> {
    // The first `len` bytes of a lent buffer as text.
    pub fn new(out: &'a mut [u8], len: usize) -> Text<'a>
        ensures same_reference { result.out.ghost_name ≡ out.entry.ghost_name }
        ensures buffer { result.out.now ≡ out.old }
        ensures len { result.len ≡ len }
    {
        Text { out, len }
    }

    // The text's length.
    pub fn len(&self) -> usize
        ensures { result ≡ self.now.len }
    {
        self.len
    }

    // A word.
    fn push(&mut self, word: &[u8])
        requires { Fits self.old word.now }
        ensures { Adds self.old word.now self.new }
    {
        let end = self.len + word.len();
        self.out[self.len..end].copy_from_slice(word);
        self.len = end;
    }

    // The end of a line.
    fn newline(&mut self)
        requires { Fits self.old newline }
        ensures { Adds self.old newline self.new }
    {
        self.push(b"\n");
    }

    // A space and a number.
    fn number(&mut self, x: u32)
        requires { Fits self.old (spaced x) }
        ensures { Adds self.old (spaced x) self.new }
    {
        let mut digits = itoa::Buffer::new();
        self.push(b" ");
        self.push(digits.format(x).as_bytes());
    }

    // A word, a space and a number.
    fn field(&mut self, word: &[u8], x: u32)
        requires { Fits self.old (field word.now x) }
        ensures { Adds self.old (field word.now x) self.new }
    {
        self.push(word);
        self.number(x);
    }

    // What an entry adds to the sources of a sum.
    fn source(&mut self, set: [u64; 4], e: u8)
        requires { Fits self.old (source (value set) e) }
        ensures { Adds self.old (source (value set) e) self.new }
    {
        if bitset::member(set, e) {
            self.number(u32::from(e));
        }
    }

    // The sources of a sum, in rising order.
    fn sources(&mut self, set: [u64; 4])
        requires { Fits self.old (sources (value set) 256) }
        ensures { Adds self.old (sources (value set) 256) self.new }
    {
        for e in 0..=255u8 {
            self.source(set, e);
        }
    }

    // A word and two sources.
    fn two(&mut self, word: &[u8], first: u32, second: u32)
        requires { Fits self.old (field word.now first ++ spaced second) }
        ensures { Adds self.old (field word.now first ++ spaced second) self.new }
    {
        self.field(word, first);
        self.number(second);
    }

    // A rule's word and its sources; nothing for a number that no rule has. A rung has its rule as a number, since it is read from bytes.
    #[tactic(auto, unfolding(crate::specs::Line::rule_text))]
    fn rule(&mut self, rung: Rung)
        requires { Fits self.old (rule_text rung.rule rung.first rung.second (value rung.set)) }
        ensures { Adds self.old (rule_text rung.rule rung.first rung.second (value rung.set)) self.new }
    {
        let first = u32::from(rung.first);
        let second = u32::from(rung.second);
        match rung.rule {
            1 => self.field(b" left", first),
            2 => self.field(b" right", first),
            3 => self.two(b" open", first, second),
            4 => self.two(b" join", first, second),
            5 => self.two(b" seal", first, second),
            6 => {
                self.push(b" sum");
                self.sources(rung.set);
            }
            7 => self.two(b" unlock", first, second),
            8 => self.two(b" lock", first, second),
            _ => {}
        }
    }

    // A line of two words with a number after each.
    fn pair_line(&mut self, before: &[u8], a: u32, between: &[u8], b: u32)
        requires { Fits self.old (pair_line before.now a between.now b) }
        ensures { Adds self.old (pair_line before.now a between.now b) self.new }
    {
        self.field(before, a);
        self.field(between, b);
        self.newline();
    }

    // goal G heard H
    pub fn goal_line(&mut self, goal: u16, trace: u16)
        requires { Fits self.old (goal_line goal trace) }
        ensures { Adds self.old (goal_line goal trace) self.new }
    {
        self.pair_line(b"goal", u32::from(goal), b" heard", u32::from(trace));
    }

    // cut C out of reach known K
    pub fn out_line(&mut self, cut: u16, known: u32)
        requires { Fits self.old (out_line cut known) }
        ensures { Adds self.old (out_line cut known) self.new }
    {
        self.pair_line(b"cut", u32::from(cut), b" out of reach known", known);
    }

    // cut C reached rungs R
    pub fn reached_line(&mut self, cut: u16, made: u16)
        requires { Fits self.old (reached_line cut made) }
        ensures { Adds self.old (reached_line cut made) self.new }
    {
        self.pair_line(b"cut", u32::from(cut), b" reached rungs", u32::from(made));
    }

    // rung HEAD WORD SOURCES
    pub fn step_line(&mut self, rung: Rung)
        requires { Fits self.old (step_line rung.head rung.rule rung.first rung.second (value rung.set)) }
        ensures text { Adds self.old (step_line rung.head rung.rule rung.first rung.second (value rung.set)) self.new }
        ensures short { self.new.len ≤ self.old.len + 1050 }
    {
        self.field(b"rung", u32::from(rung.head));
        self.rule(rung);
        self.newline();
    }

    // refused N
    pub fn refused_line(&mut self, refusal: u32)
        requires { Fits self.old (refused_line refusal) }
        ensures { Adds self.old (refused_line refusal) self.new }
    {
        self.field(b"refused", refusal);
        self.newline();
    }
}
