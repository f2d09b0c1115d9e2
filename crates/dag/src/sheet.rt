// Where things stand in a sheet's bytes. Every function answers for any slice and any number: past the end a byte reads as 0.
ghost use Rattle.std.specs.Prelude.{◌≡◌, ◌<◌, ℕ, get_or, IfOk};
ghost use Rattle.dag.specs.Sheet.{number_at, count_of, trace_length, goal_of, offset_at, length_at, trace_at, record_at};
ghost use Rattle.dag.specs.Refusal.{refusal};
ghost use Rattle.dag.specs.Code.{checked_code};

use crate::Refusal;

// A good sheet: a slice that no row of the grounding table refuses. (`fit` is so for every slice of bytes; a proof can't tell it from a field's type.)
#[derive(Clone, Copy)]
pub struct Sheet<'a> {
    pub bytes: &'a [u8],
    pub ghost good: { refusal bytes.now ≡ 0 },
    pub ghost fit: { (k : ℕ) → get_or bytes.now k 0 < 256 },
}

impl<'a> Sheet<'a> {
    // A slice that is a good sheet, as one.
    pub fn new(bytes: &'a [u8]) -> Result<Sheet<'a>, Refusal>
        ensures code { checked_code result ≡ refusal bytes.now }
        ensures bytes { IfOk result (λ sheet. sheet.bytes.now ≡ bytes.now) }
    {
        crate::validate(bytes)?;
        Ok(Sheet { bytes })
    }

    // n, the number of entries.
    pub fn count(self) -> u16
        ensures { result ≡ count_of self.entry.bytes.now }
    {
        count(self.bytes)
    }

    // h, the length of the trace.
    pub fn trace_len(self) -> u16
        ensures { result ≡ trace_length self.entry.bytes.now }
    {
        trace_len(self.bytes)
    }

    // The goal's entry number.
    pub fn goal(self) -> u16
        ensures { result ≡ goal_of self.entry.bytes.now }
    {
        goal(self.bytes)
    }

    // The entry number of heard message k.
    pub fn trace_at(self, k: u16) -> u16
        ensures { result ≡ trace_at self.entry.bytes.now k }
    {
        trace_at(self.bytes, k)
    }

    // The bytes of record i.
    pub fn record(self, i: u16) -> &'a [u8]
        ensures { result.now ≡ record_at self.entry.bytes.now i }
    {
        record(self.bytes, i)
    }
}

// The two-byte number at byte i, high byte first. It tests lengths: by `s.get(i)` with a default, or by a match on `s.get(i..)`, a check of sums is slower.
#[tactic(auto, using(crate::proofs::Laws::Sheet::number_past), unfolding(crate::specs::Sheet::number_at))]
pub fn number_at(s: &[u8], i: usize) -> u16
    ensures { result ≡ number_at s.now i }
{
    if s.len() <= i {
        return 0;
    }
    if s.len() - i < 2 {
        return u16::from_be_bytes([s[i], 0]);
    }
    u16::from_be_bytes([s[i], s[i + 1]])
}

// n, the number of entries.
pub fn count(s: &[u8]) -> u16
    ensures { result ≡ count_of s.now }
{
    number_at(s, 4)
}

// h, the length of the trace (document 01: heard messages).
pub fn trace_len(s: &[u8]) -> u16
    ensures { result ≡ trace_length s.now }
{
    number_at(s, 6)
}

// The goal's entry number.
pub fn goal(s: &[u8]) -> u16
    ensures { result ≡ goal_of s.now }
{
    number_at(s, 8)
}

// The offset of record i, as its pair says.
pub fn offset(s: &[u8], i: u16) -> u16
    ensures { result ≡ offset_at s.now i }
{
    number_at(s, 10 + 4 * (i as usize))
}

// The length of record i, as its pair says.
pub fn length(s: &[u8], i: u16) -> u16
    ensures { result ≡ length_at s.now i }
{
    number_at(s, 12 + 4 * (i as usize))
}

// The entry number of heard message k.
pub fn trace_at(s: &[u8], k: u16) -> u16
    ensures { result ≡ trace_at s.now k }
{
    number_at(s, 10 + 4 * (count(s) as usize) + 2 * (k as usize))
}

// The bytes of record i: the part of the sheet that its pair names, cut at the sheet's end. Nothing is copied.
pub fn record(s: &[u8], i: u16) -> &[u8]
    ensures { result.now ≡ record_at s.now i }
{
    let from = offset(s, i) as usize;
    let len = length(s, i) as usize;
    let rest = &s[from.min(s.len())..];
    &rest[..len.min(rest.len())]
}
