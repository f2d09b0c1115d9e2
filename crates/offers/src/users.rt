// Which entries use a head: those that it is a part of, and the locks that it opens. When a head is learnt, only its own offers and those of its users change.
ghost use Rattle.std.specs.Prelude.{◌≤◌, ◌<◌, eqb};
ghost use Rattle.offers.specs.Inner.Users.{key_uses, key_opened, head_uses, Joined, Filled};

use canonical::Tables;
use dag::Kind;

// Entry i joins the users of x.
fn join(users: &mut [[u64; 4]; 256], x: u8, i: u8)
    ensures { Joined (eqb x) i users.old users.new }
{
    let h = x as usize;
    users[h] = bitset::insert(users[h], i);
}

// A lock joins the users of what opens it.
fn join_opener(users: &mut [[u64; 4]; 256], key: u64, i: u8)
    ensures { Joined (key_opened key) i users.old users.new }
{
    if canonical::kind(key) == Kind::Aenc as u8 {
        if let Ok(opener) = u8::try_from(canonical::opener(key)) {
            join(users, opener, i);
        }
    }
}

// Entry i joins the users of its parts and of what opens it.
fn join_parts(users: &mut [[u64; 4]; 256], key: u64, i: u8)
    ensures { Joined (key_uses key) i users.old users.new }
{
    if canonical::has_parts(canonical::kind(key)) {
        join(users, canonical::left(key), i);
        join(users, canonical::right(key), i);
        join_opener(users, key, i);
    }
}

// The same where it is a head.
fn join_head(users: &mut [[u64; 4]; 256], tables: &Tables, i: usize)
    requires { i < 256 }
    ensures { Joined (head_uses tables.now.keys tables.now.reps i) i users.old users.new }
{
    let e = i as u8;
    if tables.reps[i] == e {
        join_parts(users, tables.keys[i], e);
    }
}

// The heads among the first n entries join the users of what they use.
pub fn fill_users(users: &mut [[u64; 4]; 256], tables: &Tables, n: usize)
    requires { n ≤ 256 }
    ensures { Filled tables.now.keys tables.now.reps n users.old users.new }
{
    for i in 0..n {
        join_head(users, tables, i);
    }
}
