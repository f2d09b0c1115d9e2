// The rows of document 01's grounding table, each as its refusal or none. Each answers for any slice.
ghost use Rattle.std.specs.Prelude.{◌≡◌, [], ◌∷◌};
ghost use Rattle.dag.specs.Sheet.{number_at};
ghost use Rattle.dag.specs.Code.{checked_code};
ghost use Rattle.dag.specs.Refusal.{when, any_from, no_sheet, bad_count, short_list, bad_pairs, bad_record, wrong_half, bad_record_at, bad_records, not_listed, forward_items};

use crate::{Kind, Refusal, record, sheet};

// The bytes of the longest good sheet.
pub const LONGEST: usize = 34446;

// Row 1, no sheet: the length and the four letters.
#[tactic(auto, using(crate::proofs::Laws::Refusal::equal_pointwise), unfolding(crate::specs::Refusal::no_sheet, crate::specs::Refusal::when))]
pub fn no_sheet(s: &[u8]) -> Result<(), Refusal>
    ensures { checked_code result ≡ no_sheet s.now }
{
    if s.len() < 10 || LONGEST < s.len() || &s[0..4] != b"SHT1".as_slice() {
        return Err(Refusal::NoSheet);
    }
    Ok(())
}

// Row 2, bad count: n, h and the goal.
#[tactic(auto, unfolding(crate::specs::Refusal::bad_count, crate::specs::Refusal::when))]
pub fn bad_count(s: &[u8]) -> Result<(), Refusal>
    ensures { checked_code result ≡ bad_count s.now }
{
    let n = sheet::count(s);
    if n < 1 || 256 < n || 256 < sheet::trace_len(s) || n <= sheet::goal(s) {
        return Err(Refusal::BadCount);
    }
    Ok(())
}

// Row 3, short list: no room for the pairs and the trace.
#[tactic(auto, unfolding(crate::specs::Refusal::short_list, crate::specs::Refusal::when))]
pub fn short_list(s: &[u8]) -> Result<(), Refusal>
    ensures { checked_code result ≡ short_list s.now }
{
    let n = sheet::count(s) as usize;
    let h = sheet::trace_len(s) as usize;
    if s.len() < 10 + 4 * n + 2 * h {
        return Err(Refusal::ShortList);
    }
    Ok(())
}

// Row 4, bad pair: the records follow each other without gaps, to the sheet's end. An end is a sum of two numbers of 16 bits, in 64 bits.
#[tactic(auto, using(crate::proofs::Laws::Pairs::pairs_end), unfolding(crate::specs::Refusal::when))]
pub fn bad_pairs(s: &[u8]) -> Result<(), Refusal>
    ensures { checked_code result ≡ bad_pairs s.now }
{
    let n = sheet::count(s);
    let h = sheet::trace_len(s);
    let mut at = 10 + 4 * (n as usize) + 2 * (h as usize);
    for i in 0..n {
        let offset = sheet::offset(s, i) as usize;
        let len = sheet::length(s, i) as usize;
        if len == 0 || offset != at || s.len() < offset + len {
            return Err(Refusal::BadPair);
        }
        at = offset + len;
    }
    if at < s.len() {
        return Err(Refusal::BadPair);
    }
    Ok(())
}

// Row 6 for a sum's record: is an item not below i?
fn forward_items(r: &[u8], i: u16) -> Result<(), Refusal>
    ensures { checked_code result ≡ forward_items i r.now }
{
    for j in 0..record::item_count(r) {
        if i <= sheet::number_at(r, 1 + 2 * j) {
            return Err(Refusal::Forward);
        }
    }
    Ok(())
}

// Row 6 for the record of a pair or of an encryption of either sort: is one of its two entry numbers not below i?
#[tactic(auto, unfolding(crate::specs::Refusal::any_from, crate::specs::Refusal::when))]
fn forward_parts(r: &[u8], i: u16) -> Result<(), Refusal>
    ensures { checked_code result ≡ when (any_from i (number_at r.now 1 ∷ number_at r.now 3 ∷ [])) 6 }
{
    if i <= record::first(r) || i <= record::second(r) {
        return Err(Refusal::Forward);
    }
    Ok(())
}

// Rows 5 and 6 for the record r of entry i: a length that its kind has, then numbers below i.
pub fn bad_record(r: &[u8], i: u16) -> Result<(), Refusal>
    ensures { checked_code result ≡ bad_record i r.now }
{
    let kind = Kind::try_from(record::kind(r))?;
    if !kind.has_length(r.len()) {
        return Err(Refusal::BadRecord);
    }
    match kind {
        Kind::Zero | Kind::Atom | Kind::PrivateHalf | Kind::PublicHalf => Ok(()),
        Kind::Pair | Kind::Enc | Kind::Aenc => forward_parts(r, i),
        Kind::Sum => forward_items(r, i),
    }
}

// Row 12 for a record of the sheet: is it a lock whose key entry is no half by its own kind?
#[tactic(auto, unfolding(crate::specs::Refusal::wrong_half, crate::specs::Refusal::when))]
fn wrong_half(s: &[u8], r: &[u8]) -> Result<(), Refusal>
    ensures { checked_code result ≡ wrong_half s.now r.now }
{
    let is_lock = record::kind(r) == Kind::Aenc as u8;
    if is_lock && !record::is_half(record::kind(sheet::record(s, record::second(r)))) {
        return Err(Refusal::WrongHalf);
    }
    Ok(())
}

// Rows 5, 6 and 12 for entry i.
#[tactic(auto, using(crate::proofs::Laws::Code::or_else_code, crate::proofs::Laws::Refusal::or_else_zero), unfolding(crate::specs::Refusal::bad_record_at))]
fn bad_record_at(s: &[u8], i: u16) -> Result<(), Refusal>
    ensures { checked_code result ≡ bad_record_at s.now i }
{
    let r = sheet::record(s, i);
    bad_record(r, i)?;
    wrong_half(s, r)
}

// Rows 5, 6 and 12, entry by entry.
pub fn bad_records(s: &[u8]) -> Result<(), Refusal>
    ensures { checked_code result ≡ bad_records s.now }
{
    for i in 0..sheet::count(s) {
        bad_record_at(s, i)?;
    }
    Ok(())
}

// Row 7, not listed: a heard number of n or more.
pub fn not_listed(s: &[u8]) -> Result<(), Refusal>
    ensures { checked_code result ≡ not_listed s.now }
{
    let n = sheet::count(s);
    for k in 0..sheet::trace_len(s) {
        if n <= sheet::trace_at(s, k) {
            return Err(Refusal::NotListed);
        }
    }
    Ok(())
}
