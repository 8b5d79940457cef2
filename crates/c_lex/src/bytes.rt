//! Classes of bytes, and how far they reach.

ghost use Rattle.std.specs.Prelude.{◌≡◌, ◌≤◌, length, take, drop, slice_index};
ghost use Rattle.std.specs.List.{prefix_len};
ghost use Rattle.std.specs.Char.{digit_value};
ghost use Rattle.c_lex.specs.Bytes.{is_blank, is_letter, is_decimal, is_word_byte, is_in_line};
ghost use Rattle.c_lex.specs.Reading.{word_len, ends_line};

#[tactic(auto, unfolding(crate::specs::Bytes::is_blank))]
pub fn is_blank(byte: u8) -> bool
    ensures { result ≡ is_blank byte }
{
    byte == b' ' || byte == b'\t' || byte == b'\r' || byte == b'\n'
}

#[tactic(auto, unfolding(crate::specs::Bytes::is_letter))]
pub fn is_letter(byte: u8) -> bool
    ensures { result ≡ is_letter byte }
{
    (b'A' <= byte && byte <= b'Z') || (b'a' <= byte && byte <= b'z') || byte == b'_'
}

#[tactic(auto, unfolding(crate::specs::Bytes::is_decimal))]
pub fn is_decimal(byte: u8) -> bool
    ensures { result ≡ is_decimal byte }
{
    b'0' <= byte && byte <= b'9'
}

#[tactic(auto, unfolding(crate::specs::Bytes::is_word_byte))]
fn is_word_byte(byte: u8) -> bool
    ensures { result ≡ is_word_byte byte }
{
    is_letter(byte) || is_decimal(byte)
}

#[tactic(auto, unfolding(crate::specs::Bytes::is_in_line))]
fn is_in_line(byte: u8) -> bool
    ensures { result ≡ is_in_line byte }
{
    byte != b'\n'
}

/// The byte at a place, or 0 past the end.
pub fn byte_at(text: &[u8], place: usize) -> u8
    ensures { result ≡ slice_index text.now place }
{
    if place < text.len() { text[place] } else { 0 }
}

/// So many bytes in front.
pub fn front(text: &[u8], count: usize) -> &[u8]
    requires { count ≤ length text.now }
    ensures { result.now ≡ take count text.now }
{
    text.split_at(count).0
}

/// What stands behind so many bytes.
pub fn behind(text: &[u8], count: usize) -> &[u8]
    requires { count ≤ length text.now }
    ensures { result.now ≡ drop count text.now }
{
    text.split_at(count).1
}

/// How many letters, digits and `_` stand in front.
#[tactic(auto, unfolding(crate::specs::Reading::word_len))]
pub fn word_len(text: &[u8]) -> usize
    ensures value { result ≡ word_len text.now }
    ensures within { result ≤ length text.now }
{
    text.iter().take_while(|byte| is_word_byte(**byte)).count()
}

/// How many bytes stand in front of the line's end.
pub fn line_len(text: &[u8]) -> usize
    ensures value { result ≡ prefix_len is_in_line text.now }
    ensures within { result ≤ length text.now }
{
    text.iter().take_while(|byte| is_in_line(**byte)).count()
}

/// Whether a line ends in the text.
#[tactic(auto, unfolding(crate::specs::Reading::ends_line))]
pub fn ends_line(text: &[u8]) -> bool
    ensures { result ≡ ends_line text.now }
{
    text.iter().any(|byte| !is_in_line(*byte))
}

/// The value of a digit or a letter, or 36.
pub fn digit_value(byte: u8) -> u8
    ensures value { result ≡ digit_value byte }
    ensures within { result ≤ 36 }
{
    match byte {
        b'0'..=b'9' => byte - b'0',
        b'A'..=b'Z' => byte - b'A' + 10,
        b'a'..=b'z' => byte - b'a' + 10,
        _ => 36,
    }
}
