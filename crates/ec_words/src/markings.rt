//! Markings, which say on which side each function stands.

ghost use Rattle.std.specs.Prelude.{◌≡◌, [], IfOk, option_map, map};
ghost use Rattle.ec_words.specs.Markings.{marks_of, marking_of, base_of, pieces_after, marks_in};

use std::alloc::{AllocError, Global};

/// What the functions and adjustors are, by their numbers in order of definition, from 0.
#[derive(Clone, Copy, Debug, PartialEq, Eq)]
pub enum BaseMarking {
    /// All are x64.
    X64,
    /// All are EC.
    Ec,
    /// x64 and EC in turn, x64 first.
    Alternate,
    /// Number k is EC exactly where bit `k mod 3` of this digit, 0 to 7, is set.
    Pattern(u8),
}

/// A marking: a base, and the names of those that are turned to the other side.
#[derive(Debug, Drop)]
pub struct Marking {
    pub base: BaseMarking,
    pub turned: Vec<Vec<u8>>,
}

/// The pieces of a text between its commas, at least one.
fn pieces(alloc: Global, text: &[u8]) -> Result<Vec<Vec<u8>>, AllocError>
    ensures { IfOk result (λ all. map (λ piece. piece.items) all.items ≡ pieces_after [] text.now) }
{
    let mut done = Vec::new(alloc);
    let mut front = Vec::new(alloc);
    for byte in text {
        if *byte == b',' {
            done.push(front)?;
            front = Vec::new(alloc);
        } else {
            front.push(*byte)?;
        }
    }
    done.push(front)?;
    Ok(done)
}

/// The base of this name.
fn base_of(word: &[u8]) -> Option<BaseMarking>
    ensures { result ≡ base_of word.now }
{
    if word == b"x64".as_slice() {
        return Some(BaseMarking::X64);
    }
    if word == b"ec".as_slice() {
        return Some(BaseMarking::Ec);
    }
    if word == b"alt".as_slice() {
        return Some(BaseMarking::Alternate);
    }
    match word {
        [b'b', digit] if b'0' <= *digit && *digit <= b'7' => Some(BaseMarking::Pattern(
            *digit - b'0',
        )),
        _ => None,
    }
}

/// The marking of the value of `-m`, or the default where it isn't there; None where the base has no
/// such name.
pub fn marking_of(alloc: Global, value: Option<&str>) -> Result<Option<Marking>, AllocError>
    ensures { IfOk result (λ m. option_map marks_of m ≡ marking_of (option_map (λ s. s.now) value.entry)) }
{
    let Some(text) = value else {
        return Ok(Some(Marking {
            base: BaseMarking::X64,
            turned: Vec::new(alloc),
        }));
    };
    let mut turned = pieces(alloc, text.as_bytes())?;
    if turned.is_empty() {
        return Ok(None);
    }
    let word = turned.remove(0);
    match base_of(&word) {
        Some(base) => Ok(Some(Marking { base, turned })),
        None => Ok(None),
    }
}
