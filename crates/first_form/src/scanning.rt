//! Tokens at the front of a unit's bytes.

ghost use Rattle.std.specs.Prelude.{◌≡◌, ◌<◌, IfSome, option_map};
ghost use Rattle.std.specs.List.{prefix_len};
ghost use Rattle.first_form.specs.FirstForm.{is_blank, is_digit};
ghost use Rattle.first_form.specs.Scanning.{after_blanks, after_gap, after_text, after_token, digit_at, numeral_at, number_at};

/// Whether a byte is white space between tokens.
fn is_blank(byte: u8) -> bool
    ensures { result ≡ is_blank byte }
{
    byte == b' ' || byte == b'\t' || byte == b'\r' || byte == b'\n'
}

/// How many blanks the bytes begin with.
#[tactic(auto, using(crate::proofs::Counts::counts))]
fn blank_count(bytes: &[u8]) -> usize
    ensures { result ≡ prefix_len is_blank bytes.now }
{
    bytes.iter().take_while(|byte| is_blank(**byte)).count()
}

/// How many digits the bytes begin with.
#[tactic(auto, using(crate::proofs::Counts::counts))]
fn digit_count(bytes: &[u8]) -> usize
    ensures { result ≡ prefix_len is_digit bytes.now }
{
    bytes
        .iter()
        .take_while(|byte| byte.is_ascii_digit())
        .count()
}

/// The bytes from the first on that isn't a blank.
#[tactic(auto, using(crate::proofs::Counts::counts), unfolding(crate::specs::Scanning::after_blanks))]
pub fn after_blanks(bytes: &[u8]) -> &[u8]
    ensures { result.now ≡ after_blanks bytes.now }
{
    &bytes[blank_count(bytes)..]
}

/// The bytes after a blank and the blanks that follow it, where the bytes begin with one.
#[tactic(auto, unfolding(crate::specs::Scanning::after_gap))]
pub fn after_gap(bytes: &[u8]) -> Option<&[u8]>
    ensures { option_map (λ rest. rest.now) result ≡ after_gap bytes.now }
{
    let rest = after_blanks(bytes);
    if rest.len() < bytes.len() {
        Some(rest)
    } else {
        None
    }
}

/// The bytes after a text, where the bytes begin with it.
fn after_text<'a>(bytes: &'a [u8], text: &[u8]) -> Option<&'a [u8]>
    ensures { option_map (λ rest. rest.now) result ≡ after_text text.now bytes.now }
{
    bytes.strip_prefix(text)
}

/// The bytes after a token with this text, and after the blanks before it.
#[tactic(auto, unfolding(crate::specs::Scanning::after_token))]
pub fn after_token<'a>(bytes: &'a [u8], text: &[u8]) -> Option<&'a [u8]>
    ensures { option_map (λ rest. rest.now) result ≡ after_token text.now bytes.now }
{
    after_text(after_blanks(bytes), text)
}

/// The value of a decimal digit.
#[tactic(auto, unfolding(crate::specs::Scanning::digit_at))]
fn digit_at(byte: u8) -> Option<u16>
    ensures value { result ≡ digit_at byte }
    ensures below { IfSome result (λ digit. digit < 10) }
{
    if byte.is_ascii_digit() {
        Some(u16::from(byte - b'0'))
    } else {
        None
    }
}

/// The number that a numeral of one to three digits stands for; a first digit 0 stands alone.
#[tactic(auto, unfolding(crate::specs::Scanning::numeral_at))]
fn numeral_at(text: &[u8]) -> Option<u16>
    ensures { result ≡ numeral_at text.now }
{
    match text {
        [a] => digit_at(*a),
        [b'0', ..] => None,
        [a, b] => Some(10 * digit_at(*a)? + digit_at(*b)?),
        [a, b, c] => Some(100 * digit_at(*a)? + 10 * digit_at(*b)? + digit_at(*c)?),
        _ => None,
    }
}

/// A number after blanks, and the bytes after it.
#[tactic(auto, using(crate::proofs::Counts::counts), unfolding(crate::specs::Scanning::number_at))]
pub fn number_at(bytes: &[u8]) -> Option<(u16, &[u8])>
    ensures { option_map (λ read. (read.0, read.1.now)) result ≡ number_at bytes.now }
{
    let start = after_blanks(bytes);
    let (text, rest) = start.split_at(digit_count(start));
    Some((numeral_at(text)?, rest))
}
