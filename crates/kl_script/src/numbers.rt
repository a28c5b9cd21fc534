//! Numbers of a line.

ghost use Rattle.std.specs.Prelude.{ℕ, IfSome, IfNone};
ghost use Rattle.kl_script.specs.Words.{IsNumber};

/// A decimal number below 2^64, without sign or leading zero; zero is `0`.
pub fn read_number(text: &str) -> Option<u64>
    ensures found { IfSome result (λ n. IsNumber text.now n) }
    ensures none { IfNone result ((n : ℕ) → ¬ (IsNumber text.now n)) }
{
    if text.starts_with('+') {
        return None;
    }
    if text.len() > 1 && text.starts_with('0') {
        return None;
    }
    text.parse().ok()
}
