//! Decimal numbers.
ghost use Rattle.std.specs.Prelude.{◌≡◌, ◌≤◌, IfSome};
ghost use Rattle.hop_script.specs.Number.{number_of, in_range, decimal_from};

// The number from `low` to `high` that the digits spell without leading zeros.
pub fn number(low: u32, high: u32, digits: &[u8]) -> Option<u32>
    requires { high ≤ 16777216 }
    ensures form { result ≡ number_of low high digits.now }
    ensures low { IfSome result (λ n. low ≤ n) }
    ensures high { IfSome result (λ n. n ≤ high) }
{
    match digits {
        [] => None,
        [b'0', _, ..] => None,
        _ => within(low, high, digits),
    }
}

// The number from `low` to `high` that the digits spell.
fn within(low: u32, high: u32, digits: &[u8]) -> Option<u32>
    requires { high ≤ 16777216 }
    ensures form { result ≡ in_range low high (decimal_from 0 digits.now) }
    ensures low { IfSome result (λ n. low ≤ n) }
    ensures high { IfSome result (λ n. n ≤ high) }
{
    let mut value = 0;
    for digit in digits {
        if !digit.is_ascii_digit() {
            return None;
        }
        value = value * 10 + (*digit - b'0') as u32;
        if value > high {
            return None;
        }
    }
    if value < low { None } else { Some(value) }
}
