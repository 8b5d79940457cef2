//! What stands at the front of a text.

ghost use Rattle.std.specs.Prelude.{◌≡◌, ◌≤◌, ◌<◌, ◌+◌, ◌-◌, length, drop, IfSome, IfOk, Option};
ghost use Rattle.hx_words.specs.TwosComplement.{signed_of};
ghost use Rattle.c_lex.specs.Quotes.{Literal, literal_from};
ghost use Rattle.c_lex.specs.Reading.{name_kind, name_at, number_at, char_at, text_at, closes, close_of, mark_of, mark_at, slash_at, next_of};

use crate::bytes::{behind, byte_at, front, is_blank, is_decimal, is_letter, line_len, word_len};
use crate::numbers::number_of;
use crate::quotes::quoted_at;
use crate::tables::{number_of_mark, number_of_word};
use crate::token::TokKind;
use hx_words::Items;
use std::alloc::{AllocError, Global};

/// Why no token stands at a place.
#[derive(Clone, Copy, Debug, PartialEq, Eq)]
pub enum Fault {
    BadByte,
    BadNumber,
    Unclosed,
    Directive,
}

/// What stands at a place: so many bytes of a blank or a comment, a token of so many bytes, or none.
#[derive(Debug, Drop)]
pub enum Next {
    Gap(usize),
    Found(TokKind, usize),
    Refused(Fault),
}

#[tactic(auto, unfolding(crate::specs::Reading::name_kind))]
fn name_kind(alloc: Global, word: &[u8]) -> Result<TokKind, AllocError>
    ensures { IfOk result (λ kind. kind ≡ name_kind word.now) }
{
    match number_of_word(word) {
        Some(number) => Ok(TokKind::Word(number)),
        None => {
            let name = Items::from_slice(alloc, word)?;
            Ok(TokKind::Ident(name))
        }
    }
}

#[tactic(auto, unfolding(crate::specs::Reading::name_at))]
fn name_at(alloc: Global, text: &[u8]) -> Result<Next, AllocError>
    ensures { IfOk result (λ next. next ≡ name_at text.now) }
{
    let length = word_len(text);
    let kind = name_kind(alloc, front(text, length))?;
    Ok(Next::Found(kind, length))
}

#[tactic(auto, unfolding(crate::specs::Reading::number_at, crate::specs::Reading::found_or))]
fn number_at(text: &[u8]) -> Next
    ensures { result ≡ number_at text.now }
{
    let length = word_len(text);
    match number_of(front(text, length)) {
        Some(kind) => Next::Found(kind, length),
        None => Next::Refused(Fault::BadNumber),
    }
}

/// The value of a byte as a signed char.
fn signed_char(value: u8) -> i32
    ensures { result ≡ signed_of 8 value }
{
    if value < 128 {
        i32::from(value)
    } else {
        i32::from(value) - 256
    }
}

#[tactic(auto, using(crate::proofs::QuoteLaws::quoted_within), unfolding(crate::specs::Reading::char_at, crate::specs::Reading::char_closed))]
fn char_at(text: &[u8]) -> Next
    requires { 0 < length text.now }
    ensures { result ≡ char_at text.now }
{
    match quoted_at(b'\'', behind(text, 1)) {
        None => Next::Refused(Fault::Unclosed),
        Some(quoted) => {
            if byte_at(text, quoted.length + 1) == b'\'' {
                Next::Found(TokKind::Char(signed_char(quoted.value)), quoted.length + 2)
            } else {
                Next::Refused(Fault::Unclosed)
            }
        }
    }
}

fn text_at(alloc: Global, text: &[u8]) -> Result<Next, AllocError>
    requires { 0 < length text.now }
    ensures { IfOk result (λ next. next ≡ text_at text.now) }
{
    let mut bytes = Items::new(alloc);
    let mut rest = behind(text, 1);
    while !rest.is_empty() {
        if rest[0] == b'"' {
            let length = text.len() - rest.len() + 1;
            return Ok(Next::Found(TokKind::Text(bytes), length));
        }
        let Some(quoted) = quoted_at(b'"', rest) else {
            return Ok(Next::Refused(Fault::Unclosed));
        };
        bytes.push(quoted.value)?;
        rest = behind(rest, quoted.length);
    }
    Ok(Next::Refused(Fault::Unclosed))
}

/// Whether `*/` stands in front.
#[tactic(auto, unfolding(crate::specs::Reading::closes))]
fn closes(text: &[u8]) -> bool
    ensures { result ≡ closes text.now }
{
    byte_at(text, 0) == b'*' && byte_at(text, 1) == b'/'
}

/// How many bytes end with the first `*/`.
fn close_of(text: &[u8]) -> Option<usize>
    ensures { result ≡ close_of text.now }
{
    for place in 0..text.len() {
        if closes(behind(text, place)) {
            return Some(place + 2);
        }
    }
    None
}

/// The mark that the bytes in front are.
#[tactic(auto, unfolding(crate::specs::Reading::mark_of))]
fn mark_of(length: usize, text: &[u8]) -> Option<Next>
    ensures { result ≡ mark_of length text.now }
{
    if text.len() < length {
        return None;
    }
    let number = number_of_mark(front(text, length))?;
    Some(Next::Found(TokKind::Mark(number), length))
}

#[tactic(auto, unfolding(crate::specs::Reading::mark_at, crate::specs::Reading::stray))]
fn mark_at(first: bool, text: &[u8]) -> Next
    requires { 0 < length text.now }
    ensures { result ≡ mark_at first text.now }
{
    if let Some(mark) = mark_of(3, text) {
        return mark;
    }
    if let Some(mark) = mark_of(2, text) {
        return mark;
    }
    if let Some(mark) = mark_of(1, text) {
        return mark;
    }
    if text[0] == b'#' && first {
        Next::Refused(Fault::Directive)
    } else {
        Next::Refused(Fault::BadByte)
    }
}

#[tactic(auto, using(crate::proofs::CommentLaws::close_within), unfolding(crate::specs::Reading::slash_at, crate::specs::Reading::comment_closed))]
fn slash_at(first: bool, text: &[u8]) -> Next
    requires { 0 < length text.now }
    ensures { result ≡ slash_at first text.now }
{
    let second = byte_at(text, 1);
    if second == b'/' {
        return Next::Gap(line_len(text));
    }
    if second == b'*' {
        return match close_of(behind(text, 2)) {
            Some(length) => Next::Gap(length + 2),
            None => Next::Refused(Fault::Unclosed),
        };
    }
    mark_at(first, text)
}

/// What stands at the front. The flag says that no token stands before it in its line.
#[tactic(auto, unfolding(crate::specs::Reading::next_of))]
pub fn next_of(alloc: Global, first: bool, text: &[u8]) -> Result<Next, AllocError>
    requires { 0 < length text.now }
    ensures { IfOk result (λ next. next ≡ next_of first text.now) }
{
    let byte = text[0];
    if is_blank(byte) {
        return Ok(Next::Gap(1));
    }
    if is_letter(byte) {
        return name_at(alloc, text);
    }
    if is_decimal(byte) {
        return Ok(number_at(text));
    }
    match byte {
        b'\'' => Ok(char_at(text)),
        b'"' => text_at(alloc, text),
        b'/' => Ok(slash_at(first, text)),
        _ => Ok(mark_at(first, text)),
    }
}
