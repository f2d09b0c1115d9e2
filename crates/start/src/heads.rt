// The heads that there are to hear, each once, in the order in which they were listed first.
ghost use Rattle.std.specs.Prelude.{◌≡◌, ℕ, ◌+◌, ◌*◌, ◌/◌, ◌≤◌, ◌<◌, List, [], length, take};
ghost use Rattle.start.specs.Inner.Heads.{with_head, four_from, Noted};

use std::marker::Model;

// The first len places of the list have the heads, since there is no heap, and the set has what stands there. As a value it is the list of the heads.
#[derive(Drop)]
pub struct Heads {
    list: [u8; 256],
    len: usize,
    seen: [u64; 4],
}

impl Model for Heads {
    ghost Value = { List ℕ };

    ghost view = { λ h. take h.len h.list };

    ghost invariant = { λ h. Noted h.list h.len h.seen };
}

impl Heads {
    // None yet.
    pub fn new() -> Self
        ensures { result ≡ [] }
    {
        Heads {
            list: [0; 256],
            len: 0,
            seen: bitset::empty(),
        }
    }

    // Puts a head behind the others, unless it stands among them.
    pub fn push(&mut self, head: u8)
        ensures { self.new ≡ with_head self.old head }
    {
        if bitset::holds(&self.seen, head) {
            return;
        }
        bitset::put(&mut self.seen, head);
        self.list[self.len] = head;
        self.len += 1;
    }

    // The number of fours, the last of which may lack some.
    pub fn fours(&self) -> usize
        ensures { result ≡ (length self.now + 3) / 4 }
    {
        (self.len + 3) / 4
    }

    // The i-th four of the heads. Where there are no more, the last stands again: heard again it teaches nothing.
    pub fn four(&self, i: usize) -> [u8; 4]
        requires { 4 * i < length self.now }
        ensures { result ≡ four_from self.now (4 * i) }
    {
        let last = self.len - 1;
        let at = 4 * i;
        [
            self.list[at],
            self.list[last.min(at + 1)],
            self.list[last.min(at + 2)],
            self.list[last.min(at + 3)],
        ]
    }
}
