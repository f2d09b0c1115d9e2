// Whether an input that is no sheet looks like text.
ghost use Rattle.std.specs.Prelude.{◌≡◌, ◌≤◌, length, take};
ghost use Rattle.dag.specs.Sheet.{letters};
ghost use Rattle.dag.specs.Refusal.{equal};
ghost use Rattle.zuwendryk.specs.Text.{in_text, starts_as_text, is_text};

// Whether a byte can stand in text: a tab, the end of a line, or any other byte of UTF-8 that is no control character.
#[tactic(auto, unfolding(crate::specs::Text::in_text))]
fn in_text(b: u8) -> bool
    ensures { result ≡ in_text b }
{
    matches!(b, b'\t' | b'\n' | b'\r' | 32..=126 | 128..=247)
}

// Whether each of the first n bytes can stand in text.
fn starts_as_text(s: &[u8], n: usize) -> bool
    requires { n ≤ length s.now }
    ensures { result ≡ starts_as_text s.now n }
{
    s[..n].iter().all(|b| in_text(*b))
}

// Whether the first four bytes are a sheet's letters. Row 1 of the grounding table tests lengths too, so it is another test.
fn has_letters(s: &[u8]) -> bool
    ensures { result ≡ equal (take 4 s.now) letters }
{
    s.starts_with(b"SHT1")
}

// Whether an input looks like text: it isn't empty, begins with other letters than a sheet's, and its first 64 bytes can stand in text.
#[tactic(auto, unfolding(crate::specs::Text::is_text))]
pub fn is_text(s: &[u8]) -> bool
    ensures { result ≡ is_text s.now }
{
    !s.is_empty() && !has_letters(s) && starts_as_text(s, s.len().min(64))
}
