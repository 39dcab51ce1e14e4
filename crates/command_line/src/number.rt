//! Numbers in decimal digits.

ghost use Rattle.std.specs.Prelude.{◌≡◌, ◌≤◌, IfSome};
ghost use Rattle.command_line.specs.Numbers.{digit_on, number_on, number_of};

fn digit(most: u64, n: u64, d: u8) -> Option<u64>
    ensures { result ≡ digit_on most n d }
{
    if !(b'0'..=b'9').contains(&d) {
        return None;
    }
    let n = u128::from(n) * 10 + u128::from(d - b'0');
    if n <= u128::from(most) {
        Some(n as u64)
    } else {
        None
    }
}

fn digits(most: u64, text: &[u8]) -> Option<u64>
    ensures value { result ≡ number_on most (Some 0) text.now }
    ensures limit { IfSome result (λ n. n ≤ most) }
{
    let mut n = 0u64;
    for d in text {
        match digit(most, n, *d) {
            Some(more) => n = more,
            None => return None,
        }
    }
    Some(n)
}

/// A number that the text spells in one or more decimal digits, from a least to a greatest one.
#[tactic(auto, unfolding(crate::specs::Numbers::number_of))]
pub(crate) fn number(text: &str, least: u64, most: u64) -> Option<u64>
    ensures value { result ≡ number_of least most text.now }
    ensures least { IfSome result (λ n. least ≤ n) }
    ensures limit { IfSome result (λ n. n ≤ most) }
{
    let bytes = text.as_bytes();
    if bytes.is_empty() {
        return None;
    }
    match digits(most, bytes) {
        Some(n) if least <= n => Some(n),
        _ => None,
    }
}
