ghost use Rattle.std.specs.Prelude.{◌≡◌};
ghost use Rattle.parse_terms.specs.Integers.{int_begin, int_step, int_finish};

use c_lex::Word;
use c_types::IntTy;

/// The words of an integer type so far; `true` where `unsigned` is among them.
#[derive(Clone, Copy, Debug, PartialEq, Eq)]
pub enum IntWords {
    /// `signed` or `unsigned`.
    Sign(bool),
    Short(bool),
    /// `long`, where another is to come.
    Long(bool),
    LongLong(bool),
    /// No word may follow.
    Whole(IntTy),
}

/// The type whose first word this is.
pub fn begin_int(word: Word) -> Option<IntWords>
    ensures { result ≡ int_begin word }
{
    let words = match word {
        Word::Signed => IntWords::Sign(false),
        Word::Unsigned => IntWords::Sign(true),
        Word::Char => IntWords::Whole(IntTy::I8),
        Word::Short => IntWords::Short(false),
        Word::Int => IntWords::Whole(IntTy::I32),
        Word::Long => IntWords::Long(false),
        _ => return None,
    };
    Some(words)
}

fn after_sign(unsigned: bool, word: Word) -> Option<IntWords>
    ensures { result ≡ int_step word (IntWords.Sign unsigned) }
{
    let words = match word {
        Word::Char => IntWords::Whole(if unsigned { IntTy::U8 } else { IntTy::I8 }),
        Word::Short => IntWords::Short(unsigned),
        Word::Int => IntWords::Whole(if unsigned { IntTy::U32 } else { IntTy::I32 }),
        Word::Long => IntWords::Long(unsigned),
        _ => return None,
    };
    Some(words)
}

/// The words with one more, if it may follow.
pub fn step_int(word: Word, words: IntWords) -> Option<IntWords>
    ensures { result ≡ int_step word words }
{
    match (words, word) {
        (IntWords::Sign(unsigned), _) => after_sign(unsigned, word),
        (IntWords::Short(unsigned), Word::Int) => {
            Some(IntWords::Whole(if unsigned { IntTy::U16 } else { IntTy::I16 }))
        }
        (IntWords::Long(unsigned), Word::Long) => Some(IntWords::LongLong(unsigned)),
        (IntWords::LongLong(unsigned), Word::Int) => {
            Some(IntWords::Whole(if unsigned { IntTy::U64 } else { IntTy::I64 }))
        }
        _ => None,
    }
}

/// The type that the words are, if they are one.
pub fn finish_int(words: IntWords) -> Option<IntTy>
    ensures { result ≡ int_finish words }
{
    match words {
        IntWords::Sign(unsigned) => Some(if unsigned { IntTy::U32 } else { IntTy::I32 }),
        IntWords::Short(unsigned) => Some(if unsigned { IntTy::U16 } else { IntTy::I16 }),
        IntWords::Long(_) => None,
        IntWords::LongLong(unsigned) => Some(if unsigned { IntTy::U64 } else { IntTy::I64 }),
        IntWords::Whole(ty) => Some(ty),
    }
}
