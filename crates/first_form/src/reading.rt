//! Units of the first form from their bytes.

ghost use Rattle.std.specs.Prelude.{◌≡◌, ◌↔◌, ℕ, List, IfOk, option_map};
ghost use Rattle.first_form.specs.FirstForm.{IsFirstForm};
ghost use Rattle.first_form.specs.FirstUnit.{Answers};
ghost use Rattle.first_form.specs.Reading.{after_head, put_at, status_at};

use crate::scanning::{after_blanks, after_gap, after_token, number_at};
use std::alloc::{AllocError, Global};

/// What a unit of the first form does: the numbers that it puts, in order, and the one that it
/// returns, each from 0 to 999.
#[derive(Debug, Drop)]
pub struct FirstUnit {
    pub puts: Vec<u16>,
    pub status: u16,
}

/// The bytes after `int main(void) {`.
#[tactic(auto, unfolding(crate::specs::Reading::after_head))]
fn after_head(bytes: &[u8]) -> Option<&[u8]>
    ensures { option_map (λ rest. rest.now) result ≡ after_head bytes.now }
{
    let rest = after_token(bytes, b"int")?;
    let rest = after_gap(rest)?;
    let rest = after_token(rest, b"main")?;
    let rest = after_token(rest, b"(")?;
    let rest = after_token(rest, b"void")?;
    let rest = after_token(rest, b")")?;
    after_token(rest, b"{")
}

/// The number of `put_byte(n);`, and the bytes after it.
#[tactic(auto, unfolding(crate::specs::Reading::put_at))]
fn put_at(bytes: &[u8]) -> Option<(u16, &[u8])>
    ensures { option_map (λ read. (read.0, read.1.now)) result ≡ put_at bytes.now }
{
    let rest = after_token(bytes, b"put_byte")?;
    let rest = after_token(rest, b"(")?;
    let (put, rest) = number_at(rest)?;
    let rest = after_token(rest, b")")?;
    let rest = after_token(rest, b";")?;
    Some((put, rest))
}

/// The number of `return n; }`, where only blanks follow it.
#[tactic(auto, unfolding(crate::specs::Reading::status_at))]
fn status_at(bytes: &[u8]) -> Option<u16>
    ensures { result ≡ status_at bytes.now }
{
    let rest = after_token(bytes, b"return")?;
    let rest = after_gap(rest)?;
    let (status, rest) = number_at(rest)?;
    let rest = after_token(rest, b";")?;
    let rest = after_token(rest, b"}")?;
    if after_blanks(rest).is_empty() {
        Some(status)
    } else {
        None
    }
}

/// Reads a unit of the first form; `None` where the bytes are none. Each byte is looked at a bounded
/// number of times.
pub fn parse(alloc: Global, bytes: &[u8]) -> Result<Option<FirstUnit>, AllocError>
    // The unit that is answered is what the bytes spell, and nothing is answered only where they
    // spell none.
    ensures exact { IfOk result (λ read. (puts : List ℕ) (status : ℕ) → Answers read puts status ↔ IsFirstForm puts status bytes.now) }
{
    let Some(mut rest) = after_head(bytes) else {
        return Ok(None);
    };
    let mut puts = Vec::new(alloc);
    while let Some((put, after)) = put_at(rest) {
        puts.push(put)?;
        rest = after;
    }
    let Some(status) = status_at(rest) else {
        return Ok(None);
    };
    Ok(Some(FirstUnit { puts, status }))
}
