ghost use Rattle.std.specs.Prelude.{◌≡◌};
ghost use Rattle.c_lex.specs.Numbering.{mark_numbered};

/// The marks, numbered from 0 by their first place in the grammar's productions. `mark as u8` is a
/// mark's number.
#[derive(Clone, Copy, Debug, PartialEq, Eq)]
pub enum Mark {
    /// `*`
    Star,
    /// `(`
    OpenParen,
    /// `)`
    CloseParen,
    /// `;`
    Semicolon,
    /// `{`
    OpenBrace,
    /// `}`
    CloseBrace,
    /// `=`
    Equal,
    /// `,`
    Comma,
    /// `-`
    Minus,
    /// `[`
    OpenBracket,
    /// `]`
    CloseBracket,
    /// `...`
    Ellipsis,
    /// `&`
    Ampersand,
    /// `.`
    Dot,
    /// `+=`
    PlusEqual,
    /// `-=`
    MinusEqual,
    /// `*=`
    StarEqual,
    /// `/=`
    SlashEqual,
    /// `%=`
    PercentEqual,
    /// `&=`
    AmpersandEqual,
    /// `|=`
    BarEqual,
    /// `^=`
    CaretEqual,
    /// `<<=`
    ShiftLeftEqual,
    /// `>>=`
    ShiftRightEqual,
    /// `?`
    Question,
    /// `:`
    Colon,
    /// `||`
    BarBar,
    /// `&&`
    AmpersandAmpersand,
    /// `|`
    Bar,
    /// `^`
    Caret,
    /// `==`
    EqualEqual,
    /// `!=`
    NotEqual,
    /// `<`
    Less,
    /// `<=`
    LessEqual,
    /// `>`
    Greater,
    /// `>=`
    GreaterEqual,
    /// `<<`
    ShiftLeft,
    /// `>>`
    ShiftRight,
    /// `+`
    Plus,
    /// `/`
    Slash,
    /// `%`
    Percent,
    /// `++`
    PlusPlus,
    /// `--`
    MinusMinus,
    /// `~`
    Tilde,
    /// `!`
    Exclamation,
    /// `->`
    Arrow,
}

/// The mark of a number; none from 46 on.
pub fn known_mark(number: u8) -> Option<Mark>
    ensures { result ≡ mark_numbered number }
{
    let mark = match number {
        0 => Mark::Star,
        1 => Mark::OpenParen,
        2 => Mark::CloseParen,
        3 => Mark::Semicolon,
        4 => Mark::OpenBrace,
        5 => Mark::CloseBrace,
        6 => Mark::Equal,
        7 => Mark::Comma,
        8 => Mark::Minus,
        9 => Mark::OpenBracket,
        10 => Mark::CloseBracket,
        11 => Mark::Ellipsis,
        12 => Mark::Ampersand,
        13 => Mark::Dot,
        14 => Mark::PlusEqual,
        15 => Mark::MinusEqual,
        16 => Mark::StarEqual,
        17 => Mark::SlashEqual,
        18 => Mark::PercentEqual,
        19 => Mark::AmpersandEqual,
        20 => Mark::BarEqual,
        21 => Mark::CaretEqual,
        22 => Mark::ShiftLeftEqual,
        23 => Mark::ShiftRightEqual,
        24 => Mark::Question,
        25 => Mark::Colon,
        26 => Mark::BarBar,
        27 => Mark::AmpersandAmpersand,
        28 => Mark::Bar,
        29 => Mark::Caret,
        30 => Mark::EqualEqual,
        31 => Mark::NotEqual,
        32 => Mark::Less,
        33 => Mark::LessEqual,
        34 => Mark::Greater,
        35 => Mark::GreaterEqual,
        36 => Mark::ShiftLeft,
        37 => Mark::ShiftRight,
        38 => Mark::Plus,
        39 => Mark::Slash,
        40 => Mark::Percent,
        41 => Mark::PlusPlus,
        42 => Mark::MinusMinus,
        43 => Mark::Tilde,
        44 => Mark::Exclamation,
        45 => Mark::Arrow,
        46.. => return None,
    };
    Some(mark)
}
