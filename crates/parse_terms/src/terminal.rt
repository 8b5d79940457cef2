ghost use Rattle.std.specs.Prelude.{◌≡◌, IfOk};
ghost use Rattle.parse_terms.specs.Terminals.{terminal_of, sort_of};

use c_lex::{Mark, TokKind, Token, Word, known_mark, reserved_word};
use c_tree::Name;
use c_types::{IntTy, Span};
use hx_words::Items;
use std::alloc::{AllocError, Global};

/// What a token is in the grammar.
#[derive(Drop)]
pub enum Sort {
    Name(Items<u8>),
    Number(u64, IntTy),
    Char(i32),
    Text(Items<u8>),
    Word(Word),
    Mark(Mark),
    /// A number that is no reserved word's or no mark's.
    Unknown,
}

/// A token as the grammar sees it.
#[derive(Drop)]
pub struct Terminal {
    pub sort: Sort,
    pub span: Span,
}

fn word_sort(number: u8) -> Sort
    ensures { result ≡ sort_of (TokKind.Word number) }
{
    match reserved_word(number) {
        Some(word) => Sort::Word(word),
        None => Sort::Unknown,
    }
}

fn mark_sort(number: u8) -> Sort
    ensures { result ≡ sort_of (TokKind.Mark number) }
{
    match known_mark(number) {
        Some(mark) => Sort::Mark(mark),
        None => Sort::Unknown,
    }
}

fn copied(alloc: Global, text: &Items<u8>) -> Result<Items<u8>, AllocError>
    ensures { IfOk result (λ r. r ≡ text.now) }
{
    Items::from_slice(alloc, text.as_slice())
}

/// A token as the grammar sees it.
pub fn to_terminal(alloc: Global, token: &Token) -> Result<Terminal, AllocError>
    ensures { IfOk result (λ r. r ≡ terminal_of token.now) }
{
    let sort = match &token.kind {
        TokKind::Ident(text) => Sort::Name(copied(alloc, text)?),
        TokKind::Word(number) => word_sort(*number),
        TokKind::Number(value, ty) => Sort::Number(*value, *ty),
        TokKind::Char(value) => Sort::Char(*value),
        TokKind::Text(text) => Sort::Text(copied(alloc, text)?),
        TokKind::Mark(number) => mark_sort(*number),
    };
    Ok(Terminal {
        sort,
        span: token.span,
    })
}

/// A name of its own from a token's.
pub fn copy_name(alloc: Global, text: &Items<u8>, span: Span) -> Result<Name, AllocError>
    ensures { IfOk result (λ r. r ≡ record { text = text.now; span = span }) }
{
    Ok(Name {
        text: copied(alloc, text)?,
        span,
    })
}
