// A sheet's bytes: the term DAG of document 01. Which byte slices are refused and why, and readers of a good one.
#![tactic(auto)]

ghost use Rattle.std.specs.Prelude.{◌≡◌};
ghost use Rattle.dag.specs.Refusal.{refusal};
ghost use Rattle.dag.specs.Code.{code_of, checked_code};

mod faults;
mod kind;
pub mod record;
pub mod sheet;

pub use faults::LONGEST;
pub use kind::Kind;
pub use sheet::Sheet;

// Document 01's ten refusals, and document 02's wrong half, each with its number.
#[derive(Clone, Copy, Debug, PartialEq, Eq)]
pub enum Refusal {
    NoSheet = 1,
    BadCount = 2,
    ShortList = 3,
    BadPair = 4,
    BadRecord = 5,
    Forward = 6,
    NotListed = 7,
    PastTheLog = 8,
    OverBudget = 9,
    NoSpace = 10,
    WrongHalf = 12,
}

// The number of a refusal.
impl From<Refusal> for u32 {
    ghost from_gives = { λ r n. n ≡ code_of r };

    fn from(r: Refusal) -> u32 {
        r as u32
    }
}

// The number of what a check answers: the refusal's, and 0 for none.
pub fn code(checked: Result<(), Refusal>) -> u32
    ensures { result ≡ checked_code checked }
{
    match checked {
        Ok(()) => 0,
        Err(r) => u32::from(r),
    }
}

// Is this slice a good sheet? Any slice of bytes gets its refusal by the grounding table, rows 1 to 7 and 12, or none.
#[tactic(auto, using(crate::proofs::Laws::Code::or_else_code, crate::proofs::Laws::Refusal::or_else_zero), unfolding(crate::specs::Refusal::refusal))]
pub fn validate(s: &[u8]) -> Result<(), Refusal>
    ensures { checked_code result ≡ refusal s.now }
{
    faults::no_sheet(s)?;
    faults::bad_count(s)?;
    faults::short_list(s)?;
    faults::bad_pairs(s)?;
    faults::bad_records(s)?;
    faults::not_listed(s)
}
