// The library for callers in C, on numbers and byte buffers: each function is the one of its name in `verdict`, with the same contract.
// They stand in both crates, since a crate is a library or an archive for C.
#![tactic(auto)]

ghost use Rattle.std.specs.Prelude.{◌≡◌, ◌≤◌, length};
ghost use Rattle.deduction.specs.Setting.{every, switches};
ghost use Rattle.dag.specs.Refusal.{refusal};
ghost use Rattle.verdict.specs.Refused.{full_limit, quick_limit};
ghost use Rattle.verdict.specs.Demands.{Demanded};
ghost use Rattle.verdict.specs.Agrees.{Agrees};
ghost use Rattle.verdict.specs.Answer.{answer_of, buffer_of};

// The verdict call with every rule on.
#[unsafe(no_mangle)]
pub extern "C" fn zuwendryk_verdict(sheet: &[u8], cut: u32, budget: u32, buffer: &mut [u8]) -> u32
    ensures answer { result ≡ answer_of every full_limit sheet.now cut budget (length buffer.old) }
    ensures bytes { buffer.new ≡ buffer_of every full_limit sheet.now cut budget buffer.old }
    ensures demands { Demanded every full_limit sheet.now cut budget buffer.old buffer.new result }
    ensures agrees { Agrees every sheet.now cut result }
{
    verdict::zuwendryk_verdict(sheet, cut, budget, buffer)
}

// The same by the rules that a byte of eight switches says: the lowest bit is for rule 1, and every value is good.
#[unsafe(no_mangle)]
pub extern "C" fn zuwendryk_limited_verdict(
    sheet: &[u8],
    cut: u32,
    budget: u32,
    rules: u8,
    buffer: &mut [u8],
) -> u32
    ensures answer { result ≡ answer_of (switches rules) full_limit sheet.now cut budget (length buffer.old) }
    ensures bytes { buffer.new ≡ buffer_of (switches rules) full_limit sheet.now cut budget buffer.old }
    ensures demands { Demanded (switches rules) full_limit sheet.now cut budget buffer.old buffer.new result }
    ensures agrees { Agrees (switches rules) sheet.now cut result }
{
    verdict::zuwendryk_limited_verdict(sheet, cut, budget, rules, buffer)
}

// The verdict while a planner types. A budget over 64 is refused; with any other, answer and bytes are those of the full call.
#[unsafe(no_mangle)]
pub extern "C" fn zuwendryk_quick_verdict(
    sheet: &[u8],
    cut: u32,
    budget: u32,
    buffer: &mut [u8],
) -> u32
    ensures answer { result ≡ answer_of every quick_limit sheet.now cut budget (length buffer.old) }
    ensures bytes { buffer.new ≡ buffer_of every quick_limit sheet.now cut budget buffer.old }
    ensures demands { Demanded every quick_limit sheet.now cut budget buffer.old buffer.new result }
    ensures agrees { Agrees every sheet.now cut result }
    ensures full_answer { budget ≤ quick_limit → result ≡ answer_of every full_limit sheet.now cut budget (length buffer.old) }
    ensures full_bytes { budget ≤ quick_limit → buffer.new ≡ buffer_of every full_limit sheet.now cut budget buffer.old }
{
    verdict::zuwendryk_quick_verdict(sheet, cut, budget, buffer)
}

// Is this a good sheet? The number of the refusal, 1 to 7 or 12, or 0.
#[unsafe(no_mangle)]
pub extern "C" fn zuwendryk_validate(sheet: &[u8]) -> u32
    ensures { result ≡ refusal sheet.now }
{
    verdict::zuwendryk_validate(sheet)
}
