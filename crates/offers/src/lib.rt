// Offers: the steps by a rule other than the sum that an entry gives or is gained by, kept in a table, the least for each head.
#![tactic(auto)]

ghost use Rattle.std.specs.Prelude.{◌≡◌, cond, [], ◌≤◌, ◌<◌, eqb, get_or};
ghost use Rattle.bitset.specs.Words.{value};
ghost use Rattle.deduction.specs.Setting.{switches};
ghost use Rattle.offers.specs.Inner.Offers.{key_offers, table_offers, word_offers, set_offers};
ghost use Rattle.offers.specs.Inner.Table.{Table};
ghost use Rattle.offers.specs.Inner.Search.{Offered};

mod entry;
mod next;
pub mod rules;
mod table;
pub mod users;

use canonical::Tables;

// In the table: this head has no offer. It is above every offer without its head; an Option in each place would double the table.
const NONE: u16 = 65535;

// What the search for the next step holds: the known set, the switches of the rules, and the table of offers. "best" has for each head its least offer
// without the head, and NONE where there is none; "ready" has the heads that have one.
#[derive(Drop)]
pub struct Search {
    pub known: [u64; 4],
    pub rules: u8,
    pub best: [u16; 256],
    pub ready: [u64; 4],
}

impl Search {
    // With no offer yet.
    pub fn new(known: [u64; 4], rules: u8) -> Self
        ensures known { result.known ≡ known }
        ensures rules { result.rules ≡ rules }
        ensures table { Table result.best result.ready [] }
    {
        Search {
            known,
            rules,
            best: [NONE; 256],
            ready: [0, 0, 0, 0],
        }
    }

    // What entry i offers: what it gives where it is known, and by what it is built where it isn't.
    pub fn offers(&mut self, keys: &[u64; 256], i: u8)
        ensures { Offered self.old self.new (key_offers (switches self.old.rules) (value self.old.known) (get_or keys.now i 0) i) }
    {
        let key = keys[i as usize];
        if bitset::holds(&self.known, i) {
            self.opened(key, i);
        } else {
            self.built(key, i);
        }
    }

    // What entry i offers, where it is a head.
    fn head_offers(&mut self, tables: &Tables, i: usize)
        requires { i < 256 }
        ensures { Offered self.old self.new (cond (eqb (get_or tables.now.reps i 0) i) (key_offers (switches self.old.rules) (value self.old.known) (get_or tables.now.keys i 0) i) []) }
    {
        let e = i as u8;
        if tables.reps[i] == e {
            self.offers(&tables.keys, e);
        }
    }

    // What the heads among the first n entries offer.
    pub fn all_offers(&mut self, tables: &Tables, n: usize)
        requires { n ≤ 256 }
        ensures { Offered self.old self.new (table_offers (switches self.old.rules) (value self.old.known) tables.now.keys tables.now.reps n) }
    {
        for i in 0..n {
            self.head_offers(tables, i);
        }
    }

    // What the members of one word of a set offer. The word's first entry is base.
    fn offers_of_word(&mut self, keys: &[u64; 256], word: u64, base: u8)
        requires { base ≤ 192 }
        ensures { Offered self.old self.new (word_offers (switches self.old.rules) (value self.old.known) keys.now base word) }
    {
        for i in bitset::members_of(word, base) {
            self.offers(keys, i);
        }
    }

    // What the members of a set offer.
    pub fn offers_of(&mut self, keys: &[u64; 256], users: [u64; 4])
        ensures { Offered self.old self.new (set_offers (switches self.old.rules) (value self.old.known) keys.now (value users) 256) }
    {
        for w in 0..4 {
            self.offers_of_word(keys, users[w], (w * 64) as u8);
        }
    }
}
