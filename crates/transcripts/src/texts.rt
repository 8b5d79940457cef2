//! Texts between quotes, and bytes in hexadecimal.

use crate::faults::Why;
use std::alloc::{AllocError, Global};
use std::fmt::Write;

/// Where a reader is in a text between quotes.
#[derive(Clone, Copy)]
enum State {
    Plain,
    Escape,
    High,
    Low(u8),
}

/// The value of a hexadecimal digit.
fn digit(byte: u8) -> Result<u8, Why> {
    match byte {
        b'0'..=b'9' => Ok(byte - b'0'),
        b'a'..=b'f' => Ok(byte - b'a' + 10),
        _ => Err(Why::Hex),
    }
}

/// What stands for a byte behind a `\`, which may go on.
fn escaped(byte: u8) -> Result<Option<u8>, Why> {
    match byte {
        b'n' => Ok(Some(b'\n')),
        b'r' => Ok(Some(b'\r')),
        b't' => Ok(Some(b'\t')),
        b'"' | b'\\' => Ok(Some(byte)),
        b'x' => Ok(None),
        _ => Err(Why::Quotes),
    }
}

/// One byte more of a text between quotes.
fn step(state: State, byte: u8, bytes: &mut Vec<u8>) -> Result<State, Why> {
    match state {
        State::Plain if byte == b'\\' => return Ok(State::Escape),
        State::Plain if byte == b'"' => return Err(Why::Quotes),
        State::Plain => bytes.push(byte)?,
        State::Escape => match escaped(byte)? {
            Some(meant) => bytes.push(meant)?,
            None => return Ok(State::High),
        },
        State::High => return Ok(State::Low(digit(byte)?)),
        State::Low(high) => bytes.push(high << 4 | digit(byte)?)?,
    }
    Ok(State::Plain)
}

/// Appends what a text between quotes stands for.
pub fn push_unquoted(quoted: &str, bytes: &mut Vec<u8>) -> Result<(), Why> {
    let inner = quoted.strip_prefix('"').ok_or(Why::Quotes)?;
    let inner = inner.strip_suffix('"').ok_or(Why::Quotes)?;
    let mut state = State::Plain;
    for byte in inner.as_bytes() {
        state = step(state, *byte, bytes)?;
    }
    match state {
        State::Plain => Ok(()),
        _ => Err(Why::Quotes),
    }
}

/// Appends bytes in hexadecimal; blanks stand where they like.
pub fn push_hex(digits: &str, bytes: &mut Vec<u8>) -> Result<(), Why> {
    let mut high = None;
    for byte in digits.as_bytes() {
        match high {
            _ if *byte == b' ' => {}
            None => high = Some(digit(*byte)?),
            Some(before) => {
                bytes.push(before << 4 | digit(*byte)?)?;
                high = None;
            }
        }
    }
    match high {
        None => Ok(()),
        Some(_) => Err(Why::Hex),
    }
}

/// A word as it stands, or as it stands between quotes.
pub fn word(alloc: Global, text: &str) -> Result<String, Why> {
    if !text.starts_with('"') {
        return Ok(String::from_str(alloc, text)?);
    }
    let mut bytes = Vec::new(alloc);
    push_unquoted(text, &mut bytes)?;
    String::from_utf8(bytes).map_err(|_| Why::Quotes)
}

/// A number in decimal digits.
pub fn number(text: &str) -> Result<u64, Why> {
    text.parse::<u64>().map_err(|_| Why::Number)
}

/// Whether a byte stands in a text between quotes.
fn prints(byte: &u8) -> bool {
    matches!(*byte, b' '..=b'~' | b'\n' | b'\r' | b'\t')
}

fn write_escaped(byte: u8, text: &mut String) -> Result<(), AllocError> {
    match byte {
        b'\n' => text.push_str("\\n"),
        b'\r' => text.push_str("\\r"),
        b'\t' => text.push_str("\\t"),
        b'"' => text.push_str("\\\""),
        b'\\' => text.push_str("\\\\"),
        _ => text.push(char::from(byte)),
    }
}

/// Bytes as a case writes them: between quotes where all of them print.
pub fn write_bytes(bytes: &[u8], text: &mut String) -> Result<(), AllocError> {
    if !bytes.iter().all(prints) {
        text.push_str("hex ")?;
        for byte in bytes {
            write!(text, "{byte:02x}")?;
        }
        return Ok(());
    }
    text.push('"')?;
    for byte in bytes {
        write_escaped(*byte, text)?;
    }
    text.push('"')
}
