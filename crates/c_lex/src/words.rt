ghost use Rattle.std.specs.Prelude.{◌≡◌};
ghost use Rattle.c_lex.specs.Numbering.{word_numbered};

/// The reserved words, numbered from 0 by their first place in the grammar's productions; the words
/// that no production takes come after them. `word as u8` is a word's number.
#[derive(Clone, Copy, Debug, PartialEq, Eq)]
pub enum Word {
    /// `typedef`
    Typedef,
    /// `struct`
    Struct,
    /// `extern`
    Extern,
    /// `__adjustor`
    Adjustor,
    /// `void`
    Void,
    /// `signed`
    Signed,
    /// `unsigned`
    Unsigned,
    /// `char`
    Char,
    /// `short`
    Short,
    /// `int`
    Int,
    /// `long`
    Long,
    /// `va_list`
    VaList,
    /// `break`
    Break,
    /// `continue`
    Continue,
    /// `if`
    If,
    /// `else`
    Else,
    /// `while`
    While,
    /// `do`
    Do,
    /// `for`
    For,
    /// `return`
    Return,
    /// `va_start`
    VaStart,
    /// `va_end`
    VaEnd,
    /// `sizeof`
    Sizeof,
    /// `va_arg`
    VaArg,
    /// `auto`
    Auto,
    /// `case`
    Case,
    /// `const`
    Const,
    /// `default`
    Default,
    /// `double`
    Double,
    /// `enum`
    Enum,
    /// `float`
    Float,
    /// `goto`
    Goto,
    /// `inline`
    Inline,
    /// `register`
    Register,
    /// `restrict`
    Restrict,
    /// `static`
    Static,
    /// `switch`
    Switch,
    /// `union`
    Union,
    /// `volatile`
    Volatile,
}

/// The reserved word of a number; none from 39 on.
pub fn reserved_word(number: u8) -> Option<Word>
    ensures { result ≡ word_numbered number }
{
    let word = match number {
        0 => Word::Typedef,
        1 => Word::Struct,
        2 => Word::Extern,
        3 => Word::Adjustor,
        4 => Word::Void,
        5 => Word::Signed,
        6 => Word::Unsigned,
        7 => Word::Char,
        8 => Word::Short,
        9 => Word::Int,
        10 => Word::Long,
        11 => Word::VaList,
        12 => Word::Break,
        13 => Word::Continue,
        14 => Word::If,
        15 => Word::Else,
        16 => Word::While,
        17 => Word::Do,
        18 => Word::For,
        19 => Word::Return,
        20 => Word::VaStart,
        21 => Word::VaEnd,
        22 => Word::Sizeof,
        23 => Word::VaArg,
        24 => Word::Auto,
        25 => Word::Case,
        26 => Word::Const,
        27 => Word::Default,
        28 => Word::Double,
        29 => Word::Enum,
        30 => Word::Float,
        31 => Word::Goto,
        32 => Word::Inline,
        33 => Word::Register,
        34 => Word::Restrict,
        35 => Word::Static,
        36 => Word::Switch,
        37 => Word::Union,
        38 => Word::Volatile,
        39.. => return None,
    };
    Some(word)
}
