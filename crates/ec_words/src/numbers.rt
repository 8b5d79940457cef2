//! Numbers in words.

ghost use Rattle.std.specs.Prelude.{◌≡◌, ◌≤◌, ◌<◌, ◌^◌, IsSome, option_map, nat_lt};
ghost use Rattle.std.specs.Char.{digit_value};
ghost use Rattle.ec_words.specs.Numbers.{number_in, number_of, setting, rounded};

/// The value of a digit in base 36, and 36 for what is none.
fn digit_value(byte: u8) -> u64
    ensures { result ≡ digit_value byte }
{
    if byte < b'0' {
        36
    } else if byte < b'9' + 1 {
        u64::from(byte - b'0')
    } else if byte < b'A' {
        36
    } else if byte < b'Z' + 1 {
        u64::from(byte - b'A') + 10
    } else if byte < b'a' {
        36
    } else if byte < b'z' + 1 {
        u64::from(byte - b'a') + 10
    } else {
        36
    }
}

/// The number below 2^64 that one digit or more of a base write.
fn number_in(base: u64, digits: &[u8]) -> Option<u64>
    requires { 1 ≤ base }
    ensures { result ≡ number_in base digits.now }
{
    if digits.is_empty() {
        return None;
    }
    let mut value: u64 = 0;
    for byte in digits {
        let digit = digit_value(*byte);
        if digit >= base {
            return None;
        }
        value = value.checked_mul(base)?.checked_add(digit)?;
    }
    Some(value)
}

/// The number that a word is: decimal digits, or `0x` and hexadecimal digits in small or capital
/// letters, below 2^64, with any leading zeros; None for every other word.
pub fn number(word: &str) -> Option<u64>
    ensures { result ≡ number_of word.now }
{
    match word.as_bytes() {
        [b'0', b'x', digits @ ..] => number_in(16, digits),
        digits => number_in(10, digits),
    }
}

/// The number of an option's value, in its range; the default, where the option isn't there.
pub fn setting(default: u64, low: u64, high: u64, value: Option<&str>) -> Option<u64>
    ensures { result ≡ setting default low high (option_map (λ s. s.now) value.entry) }
{
    let Some(word) = value else {
        return Some(default);
    };
    let n = number(word)?;
    (low <= n && n <= high).then_some(n)
}

/// The next multiple of 4,096.
pub fn rounded(n: u64) -> u64
    requires { n < 2 ^ 63 }
    ensures { result ≡ rounded n }
{
    (n + 4095) / 4096 * 4096
}
