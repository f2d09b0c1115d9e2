// What the intruder knows: a set of representatives, and a basis of rows over the field of two elements.
// The contracts say what is stored, for whatever remainder is given. Laws/Learn.antt among the proofs shows that with the right one this is the elimination that
// `deduction` defines (its specs/Elimination.antt).
#![tactic(auto)]

ghost use Rattle.std.specs.Prelude.{◌≡◌, true};
ghost use Rattle.bitset.specs.Set.{member};
ghost use Rattle.bitset.specs.Words.{value};
ghost use Rattle.deduction.specs.Elimination.{nothing};
ghost use Rattle.knowledge.specs.Inner.State.{Room, Holds, Stored};

pub mod lines;

// What the intruder knows: the known representatives, and a basis of rows in the order learnt, which are the first len of a table, since there is no heap. There
// are at most as many rows as known entries, so that there is a place for the row of an entry that isn't known yet.
#[derive(Drop)]
pub struct Knowledge {
    pub known: [u64; 4],
    pub rows: [[u64; 4]; 256],
    pub len: usize,
    pub ghost room: { Room known len },
}

impl Knowledge {
    // Nothing is known.
    pub fn new() -> Self
        ensures { Holds nothing result.known result.rows result.len }
    {
        let known = bitset::empty();
        let rows = [[0u64; 4]; 256];
        Knowledge {
            known,
            rows,
            len: 0,
        }
    }

    // The representative e joins the known set, and its remainder, what the rows leave of its set, becomes a row unless it is empty. Of a known one nothing is
    // left.
    #[inline(always)]
    fn add(&mut self, e: u8, remainder: [u64; 4])
        requires { member (value self.old.known) e ≡ true → value remainder ≡ 0 }
        ensures { Stored e (value remainder) self.old.known self.old.rows self.old.len self.new.known self.new.rows self.new.len }
    {
        let known = self.known;
        let more = bitset::insert(known, e);
        self.known = more;
        if bitset::is_empty(remainder) {
            return;
        }
        let at = self.len;
        self.rows[at] = remainder;
        self.len += 1;
    }

    // "Hearing a term takes the listener's state and hands the enlarged one back". It is made part of its callers, so that the state isn't copied at each term.
    #[inline(always)]
    pub fn hear(mut self, e: u8, remainder: [u64; 4]) -> Self
        requires { member (value self.known) e ≡ true → value remainder ≡ 0 }
        ensures { Stored e (value remainder) self.known self.rows self.len result.known result.rows result.len }
    {
        self.add(e, remainder);
        self
    }
}
