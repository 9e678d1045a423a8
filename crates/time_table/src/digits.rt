//! Numbers in a fixed count of decimal digits.
ghost use Rattle.std.specs.Prelude.{◌≡◌, ℕ, ◌-◌, ◌<◌, ◌≤◌, length, IfSome, IsNone, SomeIff};
ghost use Rattle.civil_time.specs.Civil as Civil;

/// The digits of a number below 100.
pub(crate) fn two_digits(n: u8) -> [u8; 2]
    requires { n < 100 }
    ensures { result ≡ Civil.two_digits n }
{
    [b'0' + n / 10, b'0' + n % 10]
}

/// The digits of a number below 10,000.
pub(crate) fn four_digits(n: u16) -> [u8; 4]
    requires { n < 10_000 }
    ensures { result ≡ Civil.four_digits n }
{
    let hundreds = (n / 100) as u8;
    let rest = (n % 100) as u8;
    [
        b'0' + hundreds / 10,
        b'0' + hundreds % 10,
        b'0' + rest / 10,
        b'0' + rest % 10,
    ]
}

/// The number of a decimal digit, or `None` exactly for another byte.
pub(crate) fn read_digit(byte: u8) -> Option<u8>
    ensures { SomeIff result ((48 ≤ byte) × (byte < 58)) (byte - 48) }
{
    match byte {
        b'0'..=b'9' => Some(byte - b'0'),
        _ => None,
    }
}

/// The number that two digits tell, or `None` exactly where a byte is no digit.
pub(crate) fn read_two(text: &[u8]) -> Option<u8>
    requires { length text.now ≡ 2 }
    ensures some { IfSome result (λ n. (n < 100) × (text.now ≡ Civil.two_digits n)) }
    ensures none { IsNone result → (n : ℕ) → n < 100 → ¬ (text.now ≡ Civil.two_digits n) }
{
    match (read_digit(text[0]), read_digit(text[1])) {
        (Some(tens), Some(ones)) => Some(tens * 10 + ones),
        _ => None,
    }
}

/// The number that four digits tell, or `None` exactly where a byte is no digit.
pub(crate) fn read_four(text: &[u8]) -> Option<u16>
    requires { length text.now ≡ 4 }
    ensures some { IfSome result (λ n. (n < 10_000) × (text.now ≡ Civil.four_digits n)) }
    ensures none { IsNone result → (n : ℕ) → n < 10_000 → ¬ (text.now ≡ Civil.four_digits n) }
{
    match (read_two(&text[..2]), read_two(&text[2..])) {
        (Some(hundreds), Some(rest)) => Some(hundreds as u16 * 100 + rest as u16),
        _ => None,
    }
}
