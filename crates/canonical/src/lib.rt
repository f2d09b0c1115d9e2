// For each entry of a good sheet: its key, its set of standard entries and its representative, in three tables that the caller lends.
#![tactic(auto)]

ghost use Rattle.std.specs.Prelude.{◌≡◌, ◌||◌, Bool, ℕ, ◌+◌, ◌*◌, ◌≤◌, ◌<◌, ◌^◌, eqb, get_or};
ghost use Rattle.std.specs.Option.{option_map_or};
ghost use mathlib.Core.List.{[], Memᴰ};
ghost use Rattle.bitset.specs.Set.{single, leading};
ghost use Rattle.bitset.specs.Words.{value};
ghost use Rattle.bitset.specs.Inner.{FourWords};
ghost use Rattle.deduction.specs.Entry.{parts};
ghost use Rattle.deduction.specs.Standard.{least, xor_all};
ghost use Rattle.dag.specs.Sheet.{count_of, listed};
ghost use Rattle.dag.specs.Record.{item_count, item_at, decode, entry_at};
ghost use Rattle.canonical.specs.Inner.Key.{key_of, key_at, key_kind, key_left, key_right, key_opener, opposite_key};
ghost use Rattle.canonical.specs.Inner.Tables.{set_in, number_in, RightLine, Right, Filled, sought_in, open_in, Opened, Finished};
ghost use Rattle.canonical.specs.Inner.Buckets.{key_bucket, set_bucket, bucket_of, Bucketed, JoinedAt, Alone, Candidates, FoundIn, Decides};

use dag::{Kind, Sheet, record, sheet};

// Key and representative of each entry: two tables, since the search of a bucket goes over the keys alone. The sheet stays beside them, as it is lent to the
// whole call and they are filled from it.
#[derive(Drop)]
pub struct Tables {
    pub keys: [u64; 256],
    pub reps: [u8; 256],
}

// One line of the tables, and the bucket of its entry. The bucket is an index: as a byte beside rep it was slower.
#[derive(Drop)]
struct Line {
    key: u64,
    set: [u64; 4],
    rep: u8,
    bucket: usize,
}

// A kind more in a key.
const KIND: u64 = 1 << 32;

// An entry more for what opens a lock.
const OPENER: u64 = 1 << 16;

// An entry more for the first part.
const LEFT: u64 = 1 << 8;

// The key of a pair or an encryption of either sort whose parts have these representatives.
fn key(kind: u8, left: u8, right: u8) -> u64
    ensures { result ≡ kind * 2 ^ 32 + left * 256 + right }
{
    kind as u64 * KIND + left as u64 * LEFT + right as u64
}

// The kind that a key says, 0 for zero and sums. Any number has an answer, so the kind is a number.
pub fn kind(key: u64) -> u8
    ensures { result ≡ key_kind key }
{
    (key / KIND % 256) as u8
}

// The representative of the first part that such a key says.
pub fn left(key: u64) -> u8
    ensures { result ≡ key_left key }
{
    (key / LEFT % 256) as u8
}

// The representative of the second part.
pub fn right(key: u64) -> u8
    ensures { result ≡ key_right key }
{
    (key % LEFT) as u8
}

// The entry that opens a lock, as its key says; the number of entries where there is none, as the definition `opener` has it.
pub fn opener(key: u64) -> u16
    ensures { result ≡ key_opener key }
{
    (key / OPENER % 65536) as u16
}

// The key of the opposite half of a half with this key.
fn opposite(key: u64) -> u64
    ensures { result ≡ opposite_key key }
{
    if kind(key) == Kind::PrivateHalf as u8 {
        Kind::PublicHalf as u64 * KIND + key % KIND
    } else {
        Kind::PrivateHalf as u64 * KIND + key % KIND
    }
}

// The set of entry i in the table.
fn set_in(sets: &[[u64; 4]; 256], i: u8) -> [u64; 4]
    ensures { value result ≡ set_in sets.now i }
{
    sets[i as usize]
}

// The representative of entry i in the table.
fn rep_in(reps: &[u8; 256], i: u8) -> u8
    ensures { result ≡ number_in reps.now i }
{
    reps[i as usize]
}

// The bucket of a key.
fn key_bucket(key: u64) -> usize
    ensures { result ≡ key_bucket key }
{
    (key % 251) as usize
}

// The bucket of a set.
fn set_bucket(s: [u64; 4]) -> usize
    ensures { result ≡ set_bucket s }
{
    ((s[0] % 251 + s[1] % 241 + s[2] % 239 + s[3] % 233) % 256) as usize
}

// The lowest entry that passes a test among the members of a word, whose first entry is base. By a loop over the word: over bitset::members_of it was slower
// where a bucket has many entries.
fn first_in_word<F: Fn(u8) -> bool>(passes: F, word: u64, base: u8) -> Option<u8>
    requires base { base ≤ 192 }
    requires callable { F.IsAlwaysCallable passes }
    ensures { (p : ℕ → Bool) → Decides (F.post passes) p → FoundIn p (word * 2 ^ base) result }
{
    let mut left = word;
    while left != 0 {
        let i = base + bitset::lowest(left);
        if passes(i) {
            return Some(i);
        }
        left = bitset::rest(left);
    }
    None
}

// The lowest entry of a bucket that passes a test.
fn first<F: Fn(u8) -> bool>(passes: F, bucket: [u64; 4]) -> Option<u8>
    requires { F.IsAlwaysCallable passes }
    ensures { (p : ℕ → Bool) → Decides (F.post passes) p → FoundIn p (value bucket) result }
{
    first_in_word(&passes, bucket[0], 0)
        .or_else(|| first_in_word(&passes, bucket[1], 64))
        .or_else(|| first_in_word(&passes, bucket[2], 128))
        .or_else(|| first_in_word(&passes, bucket[3], 192))
}

// The lowest entry of a bucket with this key.
fn first_key(keys: &[u64; 256], bucket: [u64; 4], key: u64) -> Option<u8>
    ensures { FoundIn (λ j. eqb (number_in keys.now j) key) (value bucket) result }
{
    first(|i| keys[i as usize] == key, bucket)
}

// The lowest entry of a bucket with this set.
fn first_set(sets: &[[u64; 4]; 256], bucket: [u64; 4], set: [u64; 4]) -> Option<u8>
    ensures { FoundIn (λ j. eqb (set_in sets.now j) (value set)) (value bucket) result }
{
    first(|i| bitset::equal(sets[i as usize], set), bucket)
}

// The representative of entry n, which has no key and this set. A set of one member is that entry's own; any other is looked for in its bucket.
fn rep_of_set(sets: &[[u64; 4]; 256], bucket: [u64; 4], n: u8, set: [u64; 4]) -> u8
    requires { (Alone (value set) → ⊥) → Candidates (λ j. eqb (set_in sets.now j) (value set)) n (value bucket) }
    ensures alone { Alone (value set) → result ≡ leading (value set) }
    ensures found { (Alone (value set) → ⊥) → result ≡ least (λ j. eqb (set_in sets.now j) (value set)) n }
{
    let e = bitset::leading(set);
    if bitset::equal(set, bitset::singleton(e)) {
        return e;
    }
    first_set(sets, bucket, set).unwrap_or(n)
}

// The exclusive or of the sets of a sum's items; the empty set for a record without items, as zero's.
fn sum_of_items(r: &[u8], sets: &[[u64; 4]; 256]) -> [u64; 4]
    requires { (k : ℕ) → k < item_count r.now → item_at r.now k < 256 }
    ensures { value result ≡ xor_all (set_in sets.now) (listed (item_at r.now) (item_count r.now)) }
{
    let mut sum = bitset::empty();
    for k in 0..record::item_count(r) {
        let i = sheet::number_at(r, 1 + 2 * k) as u8;
        let next = bitset::sum(sum, set_in(sets, i));
        sum = next;
    }
    sum
}

// Does a record of this kind have two parts? Any byte has an answer, so the kind is a number.
pub fn has_parts(kind: u8) -> bool
    ensures { result ≡ (eqb kind 2 || (eqb kind 3 || eqb kind 7)) }
{
    matches!(kind, 2 | 3 | 7)
}

// The key of a record, from the representatives of its parts. The kind is tested as a number: a match on the enum became a jump by a table, and was slower.
fn key_of(r: &[u8], reps: &[u8; 256]) -> u64
    requires { (j : ℕ) → Memᴰ j (parts (decode r.now)) → j < 256 }
    ensures { result ≡ key_of (number_in reps.now) (decode r.now) }
{
    match record::kind(r) {
        1 => KIND + record::atom(r) as u64,
        kind if record::is_half(kind) => kind as u64 * KIND + record::first(r) as u64,
        kind if has_parts(kind) => {
            let first = record::first(r) as u8;
            let second = record::second(r) as u8;
            key(kind, rep_in(reps, first), rep_in(reps, second))
        }
        _ => 0,
    }
}

// The set of entry n, which has a key: that of the first entry with its key, or, where none before it has the key, n alone.
fn standard_set(sets: &[[u64; 4]; 256], n: u8, first: Option<u8>) -> [u64; 4]
    ensures { value result ≡ option_map_or (set_in sets.now) first (single n) }
{
    match first {
        Some(j) => set_in(sets, j),
        None => bitset::singleton(n),
    }
}

// Entry i joins a bucket.
fn join(buckets: &mut [[u64; 4]; 256], at: usize, i: u8)
    requires { at < 256 }
    ensures { JoinedAt at i buckets.old buckets.new }
{
    bitset::put(&mut buckets[at], i);
}

impl Tables {
    // The line of entry i, where the tables are right for all entries before it, and these are in their buckets.
    fn line(&self, sheet: Sheet, i: u8, sets: &[[u64; 4]; 256], buckets: &[[u64; 4]; 256]) -> Line
        requires entry { i < count_of sheet.bytes.now }
        requires lines { Right (entry_at sheet.bytes.now) i self.now.keys sets.now self.now.reps }
        requires bucketed { Bucketed (entry_at sheet.bytes.now) i buckets.now }
        ensures line { RightLine (entry_at sheet.entry.bytes.now) i result.key result.set result.rep }
        ensures bucket { result.bucket ≡ bucket_of result.key result.set }
    {
        let r = sheet.record(i as u16);
        let key = key_of(r, &self.reps);
        if key == 0 {
            let set = sum_of_items(r, sets);
            let bucket = set_bucket(set);
            let rep = rep_of_set(sets, buckets[bucket], i, set);
            return Line {
                key,
                set,
                rep,
                bucket,
            };
        }
        let bucket = key_bucket(key);
        let first = first_key(&self.keys, buckets[bucket], key);
        let set = standard_set(sets, i, first);
        let rep = first.unwrap_or(i);
        Line {
            key,
            set,
            rep,
            bucket,
        }
    }

    // Fills the first lines of the tables, one for each entry of a good sheet, and leaves the others as they are. The keys lack what opens a lock. Each
    // entry joins its bucket.
    fn fill_lines(
        &mut self,
        sheet: Sheet,
        sets: &mut [[u64; 4]; 256],
        buckets: &mut [[u64; 4]; 256],
    )
        requires { Bucketed (entry_at sheet.bytes.now) 0 buckets.old }
        ensures lines { Filled (entry_at sheet.entry.bytes.now) (count_of sheet.entry.bytes.now) self.old.keys sets.old self.old.reps self.new.keys sets.new self.new.reps }
        ensures buckets { Bucketed (entry_at sheet.entry.bytes.now) (count_of sheet.entry.bytes.now) buckets.new }
    {
        for k in 0..sheet.count() {
            let i = k as u8;
            let line = self.line(sheet, i, sets, buckets);
            let at = i as usize;
            let set = line.set;
            self.keys[at] = line.key;
            sets[at] = set;
            self.reps[at] = line.rep;
            join(buckets, line.bucket, i);
        }
    }

    // The key of entry i with what opens it, if it is a lock: the first entry with the key of the opposite half, found in the bucket of that key.
    fn open_key(&self, buckets: &[[u64; 4]; 256], n: u16, i: u8) -> u64
        requires bound { n ≤ 256 }
        requires key { number_in self.now.keys i < 2 ^ 40 }
        requires candidates { key_kind (number_in self.now.keys i) ≡ 7 → Candidates (λ j. eqb (number_in self.now.keys j) (sought_in self.now.keys (number_in self.now.keys i))) n (set_in buckets.now (key_bucket (sought_in self.now.keys (number_in self.now.keys i)))) }
        ensures { result ≡ open_in self.now.keys n (number_in self.now.keys i) }
    {
        let key = self.keys[i as usize];
        if kind(key) != Kind::Aenc as u8 {
            return key;
        }
        let half = self.keys[right(key) as usize];
        let other = opposite(half);
        let at = key_bucket(other);
        let opener = first_key(&self.keys, buckets[at], other).map_or(n, |j| j as u16);
        key + opener as u64 * OPENER
    }

    // Puts into the key of each lock of a good sheet what opens it. The opposite half may stand above the lock, so this waits for all keys. Halves keep
    // their keys, so they stay in their buckets.
    fn open_locks(&mut self, sheet: Sheet, buckets: &[[u64; 4]; 256])
        requires keys_made { (i : ℕ) → i < count_of sheet.bytes.now → number_in self.old.keys i ≡ key_at (entry_at sheet.bytes.now) i }
        requires bucketed { Bucketed (entry_at sheet.bytes.now) (count_of sheet.bytes.now) buckets.now }
        ensures keys { Opened (entry_at sheet.entry.bytes.now) (count_of sheet.entry.bytes.now) self.old.keys self.new.keys }
        ensures reps { self.new.reps ≡ self.old.reps }
    {
        let n = sheet.count();
        for k in 0..n {
            let i = k as u8;
            let key = self.open_key(buckets, n, i);
            self.keys[i as usize] = key;
        }
    }

    // The tables of a good sheet: the first lines, one for each entry. The other lines are left as they are.
    pub fn fill(&mut self, sheet: Sheet, sets: &mut [[u64; 4]; 256])
        ensures { Finished (entry_at sheet.entry.bytes.now) (count_of sheet.entry.bytes.now) self.old.keys sets.old self.old.reps self.new.keys sets.new self.new.reps }
    {
        let mut buckets = [[0u64; 4]; 256];
        self.fill_lines(sheet, sets, &mut buckets);
        self.open_locks(sheet, &buckets);
    }
}
