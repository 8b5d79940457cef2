//! The spellings of the reserved words and the marks.

ghost use Rattle.std.specs.Prelude.{◌≡◌, position, IfSome, ◌<◌, length};
ghost use Rattle.std.specs.Str.{bytes_eq};
ghost use Rattle.c_lex.specs.Spelling.{number_of_word, number_of_mark};

/// The reserved words in the order of their numbers.
static WORDS: [&[u8]; 39] = [
    b"typedef",
    b"struct",
    b"extern",
    b"__adjustor",
    b"void",
    b"signed",
    b"unsigned",
    b"char",
    b"short",
    b"int",
    b"long",
    b"va_list",
    b"break",
    b"continue",
    b"if",
    b"else",
    b"while",
    b"do",
    b"for",
    b"return",
    b"va_start",
    b"va_end",
    b"sizeof",
    b"va_arg",
    b"auto",
    b"case",
    b"const",
    b"default",
    b"double",
    b"enum",
    b"float",
    b"goto",
    b"inline",
    b"register",
    b"restrict",
    b"static",
    b"switch",
    b"union",
    b"volatile",
];

/// The marks in the order of their numbers.
static MARKS: [&[u8]; 46] = [
    b"*", b"(", b")", b";", b"{", b"}", b"=", b",", b"-", b"[", b"]", b"...", b"&", b".", b"+=",
    b"-=", b"*=", b"/=", b"%=", b"&=", b"|=", b"^=", b"<<=", b">>=", b"?", b":", b"||", b"&&",
    b"|", b"^", b"==", b"!=", b"<", b"<=", b">", b">=", b"<<", b">>", b"+", b"/", b"%", b"++",
    b"--", b"~", b"!", b"->",
];

/// The place of a text in a table.
fn place_in(table: &[&[u8]], text: &[u8]) -> Option<usize>
    ensures value { result ≡ position (λ entry. bytes_eq text.now entry.now) table.now }
    ensures within { IfSome result (λ place. place < length table.now) }
{
    table.iter().position(|entry| text == *entry)
}

/// The number of the reserved word that a text is.
#[tactic(auto, unfolding(crate::specs::Spelling::number_of_word))]
pub fn number_of_word(text: &[u8]) -> Option<u8>
    ensures { result ≡ number_of_word text.now }
{
    let place = place_in(&WORDS, text)?;
    Some(place as u8)
}

/// The number of the mark that a text is.
#[tactic(auto, unfolding(crate::specs::Spelling::number_of_mark))]
pub fn number_of_mark(text: &[u8]) -> Option<u8>
    ensures { result ≡ number_of_mark text.now }
{
    let place = place_in(&MARKS, text)?;
    Some(place as u8)
}
