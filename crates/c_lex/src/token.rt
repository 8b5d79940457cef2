ghost use Rattle.std.specs.Prelude.{◌≡◌};
ghost use Rattle.c_lex.specs.declared.token.LexRefusal.TheVariants.{NoMemory};

use c_types::{IntTy, Span};
use hx_words::Items;
use std::alloc::{AllocError, AllocFailed};

/// What a token is.
#[derive(Debug, Drop)]
pub enum TokKind {
    /// An identifier that is no reserved word.
    Ident(Items<u8>),
    /// A reserved word, by its number in [`Word`](crate::Word).
    Word(u8),
    /// A number, and the C type that its suffix, its base and its value give it.
    Number(u64, IntTy),
    /// A character constant, which is an int with the value of a signed char.
    Char(i32),
    /// The bytes of a string literal, without a zero at the end.
    Text(Items<u8>),
    /// An operator or a punctuator, by its number in [`Mark`](crate::Mark).
    Mark(u8),
}

/// A token, and the bytes that it stands in.
#[derive(Debug, Drop)]
pub struct Token {
    pub kind: TokKind,
    pub span: Span,
}

/// Why a text is no list of tokens. The number is the first place at which no token stands, as an
/// offset in bytes.
#[derive(Clone, Copy, Debug, PartialEq, Eq)]
pub enum LexRefusal {
    /// A byte that begins no token.
    BadByte(u32),
    /// A digit that begins no number.
    BadNumber(u32),
    /// The start of a comment that has no end, or a quote that begins no character constant and no
    /// string literal.
    Unclosed(u32),
    /// A `#` that is the first token of its line.
    Directive(u32),
    NoMemory,
}

impl From<AllocError> for LexRefusal {
    ghost from_gives = { λ _ e. e ≡ NoMemory };

    fn from(_e: AllocError) -> LexRefusal {
        LexRefusal::NoMemory
    }
}

impl<T: Drop> From<AllocFailed<T>> for LexRefusal {
    ghost from_gives = { λ _ e. e ≡ NoMemory };

    fn from(_e: AllocFailed<T>) -> LexRefusal {
        LexRefusal::NoMemory
    }
}
