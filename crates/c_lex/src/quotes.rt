//! Character constants and string literals.

ghost use Rattle.std.specs.Prelude.{◌≡◌};
ghost use Rattle.c_lex.specs.Quotes.{escape_value, hex_escape, escape_at, is_plain, quoted_at};

use crate::bytes::{byte_at, digit_value};

/// A character of a quoted token: its value, and how many bytes spell it.
#[derive(Clone, Copy, Debug, PartialEq, Eq)]
pub struct Quoted {
    pub value: u8,
    pub length: usize,
}

#[tactic(auto, unfolding(crate::specs::Quotes::escape_value))]
fn escape_value(byte: u8) -> Option<u8>
    ensures { result ≡ escape_value byte }
{
    match byte {
        b'n' => Some(b'\n'),
        b't' => Some(b'\t'),
        b'r' => Some(b'\r'),
        b'0' => Some(0),
        b'\\' | b'\'' | b'"' => Some(byte),
        _ => None,
    }
}

#[tactic(auto, unfolding(crate::specs::Quotes::hex_escape))]
fn hex_escape(text: &[u8]) -> Option<Quoted>
    ensures { result ≡ hex_escape text.now }
{
    let high = digit_value(byte_at(text, 2));
    let low = digit_value(byte_at(text, 3));
    if high < 16 && low < 16 {
        Some(Quoted {
            value: 16 * high + low,
            length: 4,
        })
    } else {
        None
    }
}

#[tactic(auto, unfolding(crate::specs::Quotes::escape_at))]
fn escape_at(text: &[u8]) -> Option<Quoted>
    ensures { result ≡ escape_at text.now }
{
    let letter = byte_at(text, 1);
    if letter == b'x' {
        return hex_escape(text);
    }
    let value = escape_value(letter)?;
    Some(Quoted { value, length: 2 })
}

#[tactic(auto, unfolding(crate::specs::Quotes::is_plain))]
fn is_plain(quote: u8, byte: u8) -> bool
    ensures { result ≡ is_plain quote byte }
{
    0x20 <= byte && byte <= 0x7e && byte != quote
}

/// The character that a text between these quotes begins with.
#[tactic(auto, unfolding(crate::specs::Quotes::quoted_at))]
pub fn quoted_at(quote: u8, text: &[u8]) -> Option<Quoted>
    ensures { result ≡ quoted_at quote text.now }
{
    let value = byte_at(text, 0);
    if value == b'\\' {
        return escape_at(text);
    }
    if is_plain(quote, value) {
        return Some(Quoted { value, length: 1 });
    }
    None
}
