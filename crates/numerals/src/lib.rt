//! Numbers in documents and on command lines: decimal digits without a sign or a leading zero.
#![tactic(auto)]

ghost use Rattle.std.specs.Prelude.{◌≡◌, ◌≢◌, ◌<◌, ◌^◌, ℕ, MatchOption, decimal};

/// The number below 2^64 that the text spells in decimal digits, without a sign and without a
/// leading zero. `None` exactly where it spells none so.
pub fn parse_numeral(text: &str) -> Option<u64>
    ensures { MatchOption result ((n : ℕ) → n < 2 ^ 64 → text.now ≢ decimal n) (λ n. text.now ≡ decimal n) }
{
    let digits = text.as_bytes();
    let first = *digits.first()?;
    if first == b'+' || (first == b'0' && digits.len() > 1) {
        return None;
    }
    text.parse().ok()
}
