// Sets of entries as four 64-bit words by value. Entry e is bit e mod 64 of word e div 64, and every u8 is an entry.
// A set's meaning is one natural number, `value` of its words (specs/Words.antt); the contracts speak of that number.
#![tactic(auto)]

ghost use Rattle.std.specs.Prelude.{◌≡◌, ◌++◌, ℕ, ◌+◌, ◌*◌, ◌/◌, ◌%◌, ◌≤◌, ◌<◌, ◌^◌, eqb, leb, cond, not, ◌&&◌, ◌||◌, length, take, drop, get_or, MatchOption};
ghost use Rattle.std.specs.Iterator.{at_most};
ghost use Rattle.std.specs.Int.Bits.{bit_xor};
ghost use Rattle.std.specs.Int.Count.{ones, count_trailing_zeros};
ghost use Rattle.bitset.specs.Set.{member, insert, single, leading};
ghost use Rattle.bitset.specs.Inner.{FourWords, IsLowest, TakesLowest};
ghost use Rattle.bitset.specs.Words.{value, bytes_of, set_of};

use std::marker::Model;

// The members of a word that a loop still has before it: bit k stands for entry base + k. As a value it is the set of these entries.
#[derive(Drop)]
pub struct Members {
    left: u64,
    base: u8,
}

impl Model for Members {
    ghost Value = { ℕ };

    ghost view = { λ m. m.left * 2 ^ m.base };

    ghost invariant = { λ m. m.base ≤ 192 };
}

// No entry.
pub fn empty() -> [u64; 4]
    ensures { value result ≡ 0 }
{
    [0, 0, 0, 0]
}

// The number of the word that has entry e: the quotient by 64, by a shift.
fn word_of(e: u8) -> u8
    ensures { result ≡ e / 64 }
{
    e >> 6
}

// The number of entry e's bit in that word: the remainder by 64, by a mask.
fn bit_of(e: u8) -> u8
    ensures { result ≡ e % 64 }
{
    e & 63
}

// Word w of s: by tests and not by an index, so that a set in registers stays there. A `match` on w was compiled to a jump table, which is slower.
fn nth(s: [u64; 4], w: u8) -> u64
    requires { w < 4 }
    ensures { result ≡ get_or s w 0 }
{
    if 1 < w {
        if 2 < w { s[3] } else { s[2] }
    } else if 0 < w {
        s[1]
    } else {
        s[0]
    }
}

// Is e in s?
pub fn member(s: [u64; 4], e: u8) -> bool
    ensures { result ≡ member (value s) e }
{
    (nth(s, word_of(e)) >> bit_of(e)) % 2 == 1
}

// Word k of a set of one entry, which has this bit in word w.
fn word_with(bit: u64, w: u8, k: u8) -> u64
    ensures { result ≡ cond (eqb w k) bit 0 }
{
    if w == k { bit } else { 0 }
}

// Exactly e: by tests and not by a store, so that the set stays in registers.
pub fn singleton(e: u8) -> [u64; 4]
    ensures { value result ≡ single e }
{
    let bit: u64 = 1 << bit_of(e);
    let w = word_of(e);
    [
        word_with(bit, w, 0),
        word_with(bit, w, 1),
        word_with(bit, w, 2),
        word_with(bit, w, 3),
    ]
}

// The entries in exactly one of a and b: exclusive or, word by word.
pub fn sum(a: [u64; 4], b: [u64; 4]) -> [u64; 4]
    ensures { value result ≡ bit_xor (value a) (value b) }
{
    [a[0] ^ b[0], a[1] ^ b[1], a[2] ^ b[2], a[3] ^ b[3]]
}

// Do a and b have the same members?
pub fn equal(a: [u64; 4], b: [u64; 4]) -> bool
    ensures { result ≡ eqb (value a) (value b) }
{
    a == b
}

// Has s no member?
pub fn is_empty(s: [u64; 4]) -> bool
    ensures { result ≡ eqb (value s) 0 }
{
    equal(s, empty())
}

// The highest bit of a word that is one, by its leading zeros; 0 for the word 0.
fn top(w: u64) -> u8
    ensures { (result ≡ leading w) × (result < 64) }
{
    if w == 0 {
        0
    } else {
        (63 - w.leading_zeros()) as u8
    }
}

// The leading entry of s, its highest-numbered member; 0 for the empty set.
pub fn leading(s: [u64; 4]) -> u8
    ensures { result ≡ leading (value s) }
{
    if s[3] != 0 {
        top(s[3]) + 192
    } else if s[2] != 0 {
        top(s[2]) + 128
    } else if s[1] != 0 {
        top(s[1]) + 64
    } else {
        top(s[0])
    }
}

// The lowest bit of a word that is one, by its trailing zeros; 64 for the word 0.
pub fn lowest(w: u64) -> u8
    ensures { result ≡ count_trailing_zeros 64 w }
{
    w.trailing_zeros() as u8
}

// A word without its lowest bit that is one.
pub fn rest(w: u64) -> u64
    ensures { result ≡ cond (eqb w 0) 0 (bit_xor w (single (count_trailing_zeros 64 w))) }
{
    if w == 0 {
        return 0;
    }
    w & (w - 1)
}

// Each call takes out the lowest member.
impl Iterator for Members {
    type Item = u8;

    ghost next_gives = { TakesLowest };

    ghost remaining = { λ s. at_most s };

    fn next(&mut self) -> Option<u8> {
        if self.left == 0 {
            return None;
        }
        let e = self.base + lowest(self.left);
        self.left = rest(self.left);
        Some(e)
    }
}

// The members of a word in rising order, from entry base on. Word by word, and not one iterator for a set: that was measured half again as slow.
pub fn members_of(word: u64, base: u8) -> Members
    requires { base ≤ 192 }
    ensures { result ≡ word * 2 ^ base }
{
    Members { left: word, base }
}

// The lowest member of s, if it has one.
pub fn lowest_of(s: [u64; 4]) -> Option<u8>
    ensures { MatchOption result (value s ≡ 0) (IsLowest (value s)) }
{
    match s {
        [0, 0, 0, 0] => None,
        [0, 0, 0, w] => Some(192 + lowest(w)),
        [0, 0, w, _] => Some(128 + lowest(w)),
        [0, w, _, _] => Some(64 + lowest(w)),
        [w, _, _, _] => Some(lowest(w)),
    }
}

// The entries in a or in b.
pub fn union(a: [u64; 4], b: [u64; 4]) -> [u64; 4]
    ensures { (k : ℕ) → member (value result) k ≡ (member (value a) k || member (value b) k) }
{
    [a[0] | b[0], a[1] | b[1], a[2] | b[2], a[3] | b[3]]
}

// The set s with e.
pub fn insert(s: [u64; 4], e: u8) -> [u64; 4]
    ensures { value result ≡ insert (value s) e }
{
    union(s, singleton(e))
}

// The entries in a that aren't in b.
pub fn minus(a: [u64; 4], b: [u64; 4]) -> [u64; 4]
    ensures { (k : ℕ) → member (value result) k ≡ (member (value a) k && not (member (value b) k)) }
{
    sum(a, common(a, b))
}

// The entries in both a and b.
pub fn common(a: [u64; 4], b: [u64; 4]) -> [u64; 4]
    ensures { (k : ℕ) → member (value result) k ≡ (member (value a) k && member (value b) k) }
{
    [a[0] & b[0], a[1] & b[1], a[2] & b[2], a[3] & b[3]]
}

// Is e in a lent set?
pub fn holds(s: &[u64; 4], e: u8) -> bool
    ensures { result ≡ member (value s.now) e }
{
    (s[word_of(e) as usize] >> bit_of(e)) % 2 == 1
}

// Puts e into a lent set.
pub fn put(s: &mut [u64; 4], e: u8)
    ensures words { FourWords s.new }
    ensures set { value s.new ≡ insert (value s.old) e }
{
    let w = word_of(e) as usize;
    s[w] |= 1 << bit_of(e);
}

// How many members s has.
pub fn count(s: [u64; 4]) -> u32
    ensures { result ≡ ones (value s) }
{
    s[0].count_ones() + s[1].count_ones() + s[2].count_ones() + s[3].count_ones()
}

// Writes a word as eight bytes at a place, the lowest first.
fn write_word(w: u64, out: &mut [u8], at: usize)
    requires { at + 8 ≤ length out.old }
    ensures { out.new ≡ take at out.old ++ (bytes_of 8 w ++ drop (at + 8) out.old) }
{
    let bytes = w.to_le_bytes();
    out[at..at + 8].copy_from_slice(&bytes);
}

// Writes s as 32 bytes at the front of out, and answers true; where out is shorter, it writes nothing and answers false.
pub fn write(s: [u64; 4], out: &mut [u8]) -> bool
    ensures fits { result ≡ leb 32 (length out.old) }
    ensures bytes { out.new ≡ cond (leb 32 (length out.old)) (bytes_of 32 (value s) ++ drop 32 out.old) out.old }
{
    if out.len() < 32 {
        return false;
    }
    write_word(s[0], out, 0);
    write_word(s[1], out, 8);
    write_word(s[2], out, 16);
    write_word(s[3], out, 24);
    true
}

// The set that the first 32 bytes of b hold; the empty set where b is shorter.
pub fn read(b: &[u8]) -> [u64; 4]
    ensures { value result ≡ cond (leb 32 (length b.now)) (set_of (take 32 b.now)) 0 }
{
    match b.as_chunks() {
        ([w0, w1, w2, w3, ..], _) => [
            u64::from_le_bytes(*w0),
            u64::from_le_bytes(*w1),
            u64::from_le_bytes(*w2),
            u64::from_le_bytes(*w3),
        ],
        _ => empty(),
    }
}
