//! Small texts, with their tokens and places worked out by hand from C.

use c_lex::{TokKind, Token, lex};
use std::alloc::{AllocError, Global};
use std::fmt::Write;
use std::process::Abort;
use std::test::Fail;

/// A text, and its tokens with the bytes that they stand in, or its refusal.
type Case = (&'static [u8], &'static str);

/// Names, reserved words and marks.
static NAMES_AND_MARKS: [Case; 17] = [
    (b"", ""),
    (b" \t\r\n x", "id(x)@5-6"),
    (b"int x;", "word(9)@0-3 id(x)@4-5 mark(3)@5-6"),
    (
        b"int main(void){return 0;}",
        "word(9)@0-3 id(main)@4-8 mark(1)@8-9 word(4)@9-13 mark(2)@13-14 mark(4)@14-15 word(19)@15-21 num(0 I32)@22-23 mark(3)@23-24 mark(5)@24-25",
    ),
    (
        b"* ( ) ; { } = , - [ ] ... & . += -= *= /= %= &= |= ^= <<= >>= ? : || && | ^ == != < <= > >= << >> + / % ++ -- ~ ! -> ",
        "mark(0)@0-1 mark(1)@2-3 mark(2)@4-5 mark(3)@6-7 mark(4)@8-9 mark(5)@10-11 mark(6)@12-13 mark(7)@14-15 mark(8)@16-17 mark(9)@18-19 mark(10)@20-21 mark(11)@22-25 mark(12)@26-27 mark(13)@28-29 mark(14)@30-32 mark(15)@33-35 mark(16)@36-38 mark(17)@39-41 mark(18)@42-44 mark(19)@45-47 mark(20)@48-50 mark(21)@51-53 mark(22)@54-57 mark(23)@58-61 mark(24)@62-63 mark(25)@64-65 mark(26)@66-68 mark(27)@69-71 mark(28)@72-73 mark(29)@74-75 mark(30)@76-78 mark(31)@79-81 mark(32)@82-83 mark(33)@84-86 mark(34)@87-88 mark(35)@89-91 mark(36)@92-94 mark(37)@95-97 mark(38)@98-99 mark(39)@100-101 mark(40)@102-103 mark(41)@104-106 mark(42)@107-109 mark(43)@110-111 mark(44)@112-113 mark(45)@114-116",
    ),
    (
        b"typedef struct extern __adjustor void signed unsigned char short int long va_list break continue if else while do for return va_start va_end sizeof va_arg auto case const default double enum float goto inline register restrict static switch union volatile ",
        "word(0)@0-7 word(1)@8-14 word(2)@15-21 word(3)@22-32 word(4)@33-37 word(5)@38-44 word(6)@45-53 word(7)@54-58 word(8)@59-64 word(9)@65-68 word(10)@69-73 word(11)@74-81 word(12)@82-87 word(13)@88-96 word(14)@97-99 word(15)@100-104 word(16)@105-110 word(17)@111-113 word(18)@114-117 word(19)@118-124 word(20)@125-133 word(21)@134-140 word(22)@141-147 word(23)@148-154 word(24)@155-159 word(25)@160-164 word(26)@165-170 word(27)@171-178 word(28)@179-185 word(29)@186-190 word(30)@191-196 word(31)@197-201 word(32)@202-208 word(33)@209-217 word(34)@218-226 word(35)@227-233 word(36)@234-240 word(37)@241-246 word(38)@247-255",
    ),
    (
        b"_x int1 Int ifx a9_B __adjustor_",
        "id(_x)@0-2 id(int1)@3-7 id(Int)@8-11 id(ifx)@12-15 id(a9_B)@16-20 id(__adjustor_)@21-32",
    ),
    (b"a+++b", "id(a)@0-1 mark(41)@1-3 mark(38)@3-4 id(b)@4-5"),
    (
        b"a---->b",
        "id(a)@0-1 mark(42)@1-3 mark(42)@3-5 mark(34)@5-6 id(b)@6-7",
    ),
    (b"a--->b", "id(a)@0-1 mark(42)@1-3 mark(45)@3-5 id(b)@5-6"),
    (
        b"x<<=2>>=1",
        "id(x)@0-1 mark(22)@1-4 num(2 I32)@4-5 mark(23)@5-8 num(1 I32)@8-9",
    ),
    (
        b"x>>>=1",
        "id(x)@0-1 mark(37)@1-3 mark(35)@3-5 num(1 I32)@5-6",
    ),
    (b"....", "mark(11)@0-3 mark(13)@3-4"),
    (b"..", "mark(13)@0-1 mark(13)@1-2"),
    (
        b"p->q.r[0]",
        "id(p)@0-1 mark(45)@1-3 id(q)@3-4 mark(13)@4-5 id(r)@5-6 mark(9)@6-7 num(0 I32)@7-8 mark(10)@8-9",
    ),
    (
        b"a&&&b|||=c",
        "id(a)@0-1 mark(27)@1-3 mark(12)@3-4 id(b)@4-5 mark(26)@5-7 mark(20)@7-9 id(c)@9-10",
    ),
    (
        b"===!=!-=",
        "mark(30)@0-2 mark(6)@2-3 mark(31)@3-5 mark(44)@5-6 mark(15)@6-8",
    ),
];

/// Comments, directives and bytes that begin nothing.
static COMMENTS_AND_STRAYS: [Case; 32] = [
    (b"a/*b*/c", "id(a)@0-1 id(c)@6-7"),
    (b"/**/", ""),
    (b"/***/x", "id(x)@5-6"),
    (b"/*/*/x", "id(x)@5-6"),
    (b"//", ""),
    (b"// a\nb", "id(b)@5-6"),
    (b"//*\n*/", "mark(0)@4-5 mark(39)@5-6"),
    (b"/* \xff\x00 # ' \" @ // \n */x", "id(x)@21-22"),
    (b"a/ /b", "id(a)@0-1 mark(39)@1-2 mark(39)@3-4 id(b)@4-5"),
    (b"a/=b", "id(a)@0-1 mark(17)@1-3 id(b)@3-4"),
    (b"// it's \x80 /*\nx", "id(x)@13-14"),
    (b"/*/", "Unclosed(0)"),
    (b"x/*", "Unclosed(1)"),
    (b"a /* b * / ", "Unclosed(2)"),
    (b"/* */ /**", "Unclosed(6)"),
    (b"#define", "Directive(0)"),
    (b" \t#", "Directive(2)"),
    (b"a\n#", "Directive(2)"),
    (b"a #", "BadByte(2)"),
    (b"/*\n*/#", "Directive(5)"),
    (b"a/*\n*/#", "Directive(6)"),
    (b"a/* */#", "BadByte(6)"),
    (b"// x\n #", "Directive(6)"),
    (b"##", "Directive(0)"),
    (b"@", "BadByte(0)"),
    (b"a $", "BadByte(2)"),
    (b"`", "BadByte(0)"),
    (b"\\", "BadByte(0)"),
    (b"x\x80", "BadByte(1)"),
    (b"\x0c", "BadByte(0)"),
    (b"\x00", "BadByte(0)"),
    (b"a \x7f", "BadByte(2)"),
];

/// Numbers and their types.
static NUMBERS: [Case; 43] = [
    (b"0", "num(0 I32)@0-1"),
    (b"00", "num(0 I32)@0-2"),
    (b"017", "num(15 I32)@0-3"),
    (b"10", "num(10 I32)@0-2"),
    (b"0x1F", "num(31 I32)@0-4"),
    (b"0XaB", "num(171 I32)@0-4"),
    (b"2147483647", "num(2147483647 I32)@0-10"),
    (b"2147483648", "num(2147483648 I64)@0-10"),
    (b"4294967295", "num(4294967295 I64)@0-10"),
    (b"4294967296", "num(4294967296 I64)@0-10"),
    (b"9223372036854775807", "num(9223372036854775807 I64)@0-19"),
    (b"9223372036854775808u", "num(9223372036854775808 U64)@0-20"),
    (
        b"18446744073709551615U",
        "num(18446744073709551615 U64)@0-21",
    ),
    (b"0x7fffffff", "num(2147483647 I32)@0-10"),
    (b"0x80000000", "num(2147483648 U32)@0-10"),
    (b"0xFFFFFFFF", "num(4294967295 U32)@0-10"),
    (b"0x100000000", "num(4294967296 I64)@0-11"),
    (b"0x7fffffffffffffff", "num(9223372036854775807 I64)@0-18"),
    (b"0x8000000000000000", "num(9223372036854775808 U64)@0-18"),
    (b"0xffffffffffffffff", "num(18446744073709551615 U64)@0-18"),
    (b"017777777777", "num(2147483647 I32)@0-12"),
    (b"020000000000", "num(2147483648 U32)@0-12"),
    (b"037777777777", "num(4294967295 U32)@0-12"),
    (b"040000000000", "num(4294967296 I64)@0-12"),
    (
        b"01777777777777777777777",
        "num(18446744073709551615 U64)@0-23",
    ),
    (b"1u", "num(1 U32)@0-2"),
    (b"4294967295U", "num(4294967295 U32)@0-11"),
    (b"4294967296u", "num(4294967296 U64)@0-11"),
    (b"1ll", "num(1 I64)@0-3"),
    (b"1LL", "num(1 I64)@0-3"),
    (b"1ull", "num(1 U64)@0-4"),
    (b"1ULL", "num(1 U64)@0-4"),
    (b"1uLL", "num(1 U64)@0-4"),
    (b"0xffffffffll", "num(4294967295 I64)@0-12"),
    (b"0x8000000000000000ll", "num(9223372036854775808 U64)@0-20"),
    (b"0u", "num(0 U32)@0-2"),
    (b"0ll", "num(0 I64)@0-3"),
    (b"0xffull", "num(255 U64)@0-7"),
    (b"000000000000000000000000000007", "num(7 I32)@0-30"),
    (b"1.5", "num(1 I32)@0-1 mark(13)@1-2 num(5 I32)@2-3"),
    (b"0x1e+5", "num(30 I32)@0-4 mark(38)@4-5 num(5 I32)@5-6"),
    (b"-1", "mark(8)@0-1 num(1 I32)@1-2"),
    (b"1...2", "num(1 I32)@0-1 mark(11)@1-4 num(2 I32)@4-5"),
];

/// Numbers that are none.
static BAD_NUMBERS: [Case; 24] = [
    (b"08", "BadNumber(0)"),
    (b"018", "BadNumber(0)"),
    (b"0x", "BadNumber(0)"),
    (b"0xg", "BadNumber(0)"),
    (b"0xu", "BadNumber(0)"),
    (b"12ab", "BadNumber(0)"),
    (b"1_", "BadNumber(0)"),
    (b"1e5", "BadNumber(0)"),
    (b"0b1", "BadNumber(0)"),
    (b"5l", "BadNumber(0)"),
    (b"5lu", "BadNumber(0)"),
    (b"1llu", "BadNumber(0)"),
    (b"5ulll", "BadNumber(0)"),
    (b"5uu", "BadNumber(0)"),
    (b"5lll", "BadNumber(0)"),
    (b"9223372036854775808", "BadNumber(0)"),
    (b"9223372036854775808ll", "BadNumber(0)"),
    (b"18446744073709551616u", "BadNumber(0)"),
    (b"0x10000000000000000", "BadNumber(0)"),
    (b"02000000000000000000000", "BadNumber(0)"),
    (b"99999999999999999999999999", "BadNumber(0)"),
    (b"0x1x", "BadNumber(0)"),
    (b"x=08;", "BadNumber(2)"),
    (b"1 2a", "BadNumber(2)"),
];

/// Character constants.
static CHARACTERS: [Case; 34] = [
    (b"'a'", "char(97)@0-3"),
    (b"' '", "char(32)@0-3"),
    (b"'~'", "char(126)@0-3"),
    (b"'\"'", "char(34)@0-3"),
    (b"'\\n'", "char(10)@0-4"),
    (b"'\\t'", "char(9)@0-4"),
    (b"'\\r'", "char(13)@0-4"),
    (b"'\\0'", "char(0)@0-4"),
    (b"'\\\\'", "char(92)@0-4"),
    (b"'\\''", "char(39)@0-4"),
    (b"'\\\"'", "char(34)@0-4"),
    (b"'\\x41'", "char(65)@0-6"),
    (b"'\\xff'", "char(-1)@0-6"),
    (b"'\\x80'", "char(-128)@0-6"),
    (b"'\\x7F'", "char(127)@0-6"),
    (b"'\\xAb'", "char(-85)@0-6"),
    (b"'a''b'", "char(97)@0-3 char(98)@3-6"),
    (b"''", "Unclosed(0)"),
    (b"'ab'", "Unclosed(0)"),
    (b"'''", "Unclosed(0)"),
    (b"'a", "Unclosed(0)"),
    (b"'", "Unclosed(0)"),
    (b"'\\q'", "Unclosed(0)"),
    (b"'\\x4'", "Unclosed(0)"),
    (b"'\\xg0'", "Unclosed(0)"),
    (b"'\\x414'", "Unclosed(0)"),
    (b"'\\01'", "Unclosed(0)"),
    (b"'\x1f'", "Unclosed(0)"),
    (b"'\x7f'", "Unclosed(0)"),
    (b"'\x80'", "Unclosed(0)"),
    (b"'\n'", "Unclosed(0)"),
    (b"'\\", "Unclosed(0)"),
    (b"'\\'", "Unclosed(0)"),
    (b"x 'ab'", "Unclosed(2)"),
];

/// String literals.
static STRINGS: [Case; 18] = [
    (b"\"\"", "text()@0-2"),
    (b"\"hi\"", "text(104 105)@0-4"),
    (b"\"a\\n\\x00b\\0\"", "text(97 10 0 98 0)@0-12"),
    (b"\"it's\"", "text(105 116 39 115)@0-6"),
    (b"\"\\\"\"\"\\\\\"", "text(34)@0-4 text(92)@4-8"),
    (b"\"//\"\"/*\"", "text(47 47)@0-4 text(47 42)@4-8"),
    (b"\"\\xfFF\"", "text(255 70)@0-7"),
    (b"\"", "Unclosed(0)"),
    (b"\"a", "Unclosed(0)"),
    (b"\"a\nb\"", "Unclosed(0)"),
    (b"\"\\\"", "Unclosed(0)"),
    (b"\"\\", "Unclosed(0)"),
    (b"\"\\q\"", "Unclosed(0)"),
    (b"\"\\x1\"", "Unclosed(0)"),
    (b"\"\t\"", "Unclosed(0)"),
    (b"\"\x80\"", "Unclosed(0)"),
    (b"x \"a", "Unclosed(2)"),
    (b"\"a\" \"", "Unclosed(4)"),
];

/// The bytes as characters.
fn push_name(line: &mut String, name: &[u8]) -> Result<(), AllocError> {
    for byte in name {
        line.push(char::from(*byte))?;
    }
    Ok(())
}

/// The bytes as numbers with a space between them.
fn push_bytes(line: &mut String, bytes: &[u8]) -> Result<(), AllocError> {
    let mut separator = "";
    for byte in bytes {
        line.push_str(separator)?;
        write!(line, "{byte}")?;
        separator = " ";
    }
    Ok(())
}

fn push_kind(line: &mut String, kind: &TokKind) -> Result<(), AllocError> {
    match kind {
        TokKind::Ident(name) => {
            line.push_str("id(")?;
            push_name(line, name.as_slice())?;
        }
        TokKind::Word(number) => write!(line, "word({number}")?,
        TokKind::Number(value, ty) => write!(line, "num({value} {ty:?}")?,
        TokKind::Char(value) => write!(line, "char({value}")?,
        TokKind::Text(bytes) => {
            line.push_str("text(")?;
            push_bytes(line, bytes.as_slice())?;
        }
        TokKind::Mark(number) => write!(line, "mark({number}")?,
    }
    line.push_str(")")
}

/// The tokens as a line of text.
fn line_of(alloc: Global, tokens: &[Token]) -> Result<String, AllocError> {
    let mut line = String::new(alloc);
    let mut separator = "";
    for token in tokens {
        line.push_str(separator)?;
        push_kind(&mut line, &token.kind)?;
        let start = token.span.start;
        let end = token.span.end;
        write!(line, "@{start}-{end}")?;
        separator = " ";
    }
    Ok(line)
}

fn told(alloc: Global, text: &[u8]) -> Result<String, AllocError> {
    if text.len() > 1_048_576 {
        return String::from_str(alloc, "too long");
    }
    match lex(alloc, text) {
        Ok(tokens) => line_of(alloc, tokens.as_slice()),
        Err(refusal) => format!(in alloc; "{refusal:?}"),
    }
}

fn check(rt: &impl Abort, alloc: Global, cases: &[Case]) -> Result<(), AllocError> {
    for (text, want) in cases {
        let line = told(alloc, text)?;
        assert_eq!(rt; line.as_str(), *want, "at {text:?}");
    }
    Ok(())
}

#[test]
fn small_texts(rt: HostRuntime) -> Result<(), Fail> {
    check(&rt, rt.alloc(), &NAMES_AND_MARKS)?;
    check(&rt, rt.alloc(), &COMMENTS_AND_STRAYS)?;
    check(&rt, rt.alloc(), &NUMBERS)?;
    check(&rt, rt.alloc(), &BAD_NUMBERS)?;
    check(&rt, rt.alloc(), &CHARACTERS)?;
    check(&rt, rt.alloc(), &STRINGS)?;
    Ok(())
}
