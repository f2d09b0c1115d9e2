// What a record's bytes say.
ghost use Rattle.std.specs.Prelude.{◌≡◌, ◌||◌, eqb};
ghost use Rattle.dag.specs.Sheet.{number_at};
ghost use Rattle.dag.specs.Record.{kind_of, fits, atom_of, item_count};

use crate::{Kind, sheet};

// The kind byte; 0 where there is none. Any slice has an answer, so the kind is a number.
pub fn kind(r: &[u8]) -> u8
    ensures { result ≡ kind_of r.now }
{
    r.first().copied().unwrap_or(0)
}

// Is this the kind of a half, private or public? Any byte has an answer, so the kind is a number.
pub fn is_half(kind: u8) -> bool
    ensures { result ≡ (eqb kind 5 || eqb kind 6) }
{
    kind == Kind::PrivateHalf as u8 || kind == Kind::PublicHalf as u8
}

// Does the kind have records of this length? Any byte has an answer, so the kind is a number.
pub fn has_length(kind: u8, len: usize) -> bool
    ensures { result ≡ fits kind len }
{
    match Kind::try_from(kind) {
        Ok(kind) => kind.has_length(len),
        Err(_) => false,
    }
}

// An atom's number, whole: the four bytes after the kind byte in a long record, else the two.
#[tactic(auto, unfolding(crate::specs::Record::atom_of))]
pub fn atom(r: &[u8]) -> u32
    ensures { result ≡ atom_of r.now }
{
    let high = first(r);
    if r.len() == 5 {
        let low = second(r);
        return (high as u32) * 65536 + (low as u32);
    }
    high as u32
}

// The number after the kind byte: a pair's left, the message of an encryption of either sort, a key pair's number, the upper half of a long atom's
// number or the whole of a short one's.
pub fn first(r: &[u8]) -> u16
    ensures { result ≡ number_at r.now 1 }
{
    sheet::number_at(r, 1)
}

// The number after that: a pair's right, the key of an encryption of either sort, the lower half of a long atom's number.
pub fn second(r: &[u8]) -> u16
    ensures { result ≡ number_at r.now 3 }
{
    sheet::number_at(r, 3)
}

// How many items a sum's record has.
pub fn item_count(r: &[u8]) -> usize
    ensures { result ≡ item_count r.now }
{
    r.len().saturating_sub(1) / 2
}
