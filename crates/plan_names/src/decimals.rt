//! Decimal numbers without leading zeros.
ghost use Rattle.std.specs.{Prelude.{◌≡◌, ◌≤◌, nat_le, if◌then◌else◌, Some, None, true, IfSome}, List.{list_all}};
ghost use Rattle.plan_names.specs.Decimal.{is_digit_of, value_from, decimal_from};

// Whether all are digits.
fn are_digits(text: &[u8]) -> bool
    ensures { result ≡ list_all is_digit_of text.now }
{
    text.iter().all(|octet| octet.is_ascii_digit())
}

// The value of digits, where it is at most the limit.
fn value_of(text: &[u8], limit: u64) -> Option<u64>
    requires { list_all is_digit_of text.now ≡ true }
    ensures { result ≡ (if nat_le (value_from 0 text.now) limit then Some (value_from 0 text.now) else None) }
{
    let mut value = 0u64;
    for octet in text {
        let next = value as u128 * 10 + (*octet - b'0') as u128;
        if next > limit as u128 {
            return None;
        }
        value = next as u64;
    }
    Some(value)
}

/// The number from `low` to `high` that a text writes.
pub fn decimal(low: u64, high: u64, text: &[u8]) -> Option<u64>
    ensures exact { result ≡ decimal_from low high text.now }
    ensures within { IfSome result (λ n. (low ≤ n) × (n ≤ high)) }
{
    if text.is_empty() || !are_digits(text) {
        return None;
    }
    if text[0] == b'0' && text.len() > 1 {
        return None;
    }
    match value_of(text, high) {
        Some(value) => { if value < low { None } else { Some(value) } }
        None => None,
    }
}
