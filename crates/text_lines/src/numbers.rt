// Numbers in texts.
ghost use Rattle.std.specs.Prelude.{◌≡◌, ◌<◌, ◌^◌, IfSome};
ghost use Rattle.text_lines.specs.Numbers.{are_digits, is_numeral, number_below};

// Whether a text is decimal digits without a leading zero.
#[tactic(auto, unfolding(crate::specs::Numbers::is_numeral))]
fn is_numeral(text: &str) -> bool
    ensures { result ≡ is_numeral text.now }
{
    match text.as_bytes() {
        [] => false,
        [first, rest @ ..] => are_digits(text.as_bytes()) && (*first != b'0' || rest.is_empty()),
    }
}

fn are_digits(bytes: &[u8]) -> bool
    ensures { result ≡ are_digits bytes.now }
{
    bytes.iter().all(|b| b.is_ascii_digit())
}

/// The number below 2^32 that a text spells in decimal digits without a leading zero.
#[tactic(auto, unfolding(crate::specs::Numbers::number_below))]
pub fn number(text: &str) -> Option<u32>
    ensures { result ≡ number_below (2 ^ 32) text.now }
{
    if !is_numeral(text) {
        return None;
    }
    text.parse().ok()
}

/// The number below a limit that a text spells so.
#[tactic(auto, using(crate::proofs::Numerals::narrow_none, crate::proofs::Numerals::narrow_some))]
pub fn number_below(text: &str, limit: u32) -> Option<u32>
    ensures is { result ≡ number_below limit text.now }
    ensures below { IfSome result (λ n. n < limit) }
{
    let number = number(text)?;
    if number < limit { Some(number) } else { None }
}
