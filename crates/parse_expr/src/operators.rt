ghost use Rattle.std.specs.Prelude.{◌≡◌};
ghost use Rattle.parse_expr.specs.Operators.{level, follower_of, opener_of};

use c_lex::Mark;
use c_tree::{AssignOp, BinaryOp, Selector, UnaryOp};

/// What a mark is behind an operand.
#[derive(Clone, Copy)]
pub enum Follower {
    OpenParen,
    OpenBracket,
    Increment,
    Decrement,
    Question,
    CloseParen,
    CloseBracket,
    Colon,
    Comma,
    Semicolon,
    Select(Selector),
    Assign(AssignOp),
    Binary(BinaryOp),
    Nothing,
}

/// What a mark is where an operand begins.
#[derive(Clone, Copy)]
pub enum Opener {
    OpenParen,
    CloseParen,
    Prefix(UnaryOp),
    Nothing,
}

/// How tightly an operator binds: from 1, the loosest, to 10.
pub fn level_of(operator: BinaryOp) -> u32
    ensures { result ≡ level operator }
{
    match operator {
        BinaryOp::Or => 1,
        BinaryOp::And => 2,
        BinaryOp::BitOr => 3,
        BinaryOp::BitXor => 4,
        BinaryOp::BitAnd => 5,
        BinaryOp::Equal | BinaryOp::NotEqual => 6,
        BinaryOp::Less | BinaryOp::LessEqual | BinaryOp::Greater | BinaryOp::GreaterEqual => 7,
        BinaryOp::ShiftLeft | BinaryOp::ShiftRight => 8,
        BinaryOp::Add | BinaryOp::Subtract => 9,
        BinaryOp::Multiply | BinaryOp::Divide | BinaryOp::Remainder => 10,
    }
}

/// What a mark is behind an operand.
pub fn as_follower(mark: Mark) -> Follower
    ensures { result ≡ follower_of mark }
{
    match mark {
        Mark::Star => Follower::Binary(BinaryOp::Multiply),
        Mark::OpenParen => Follower::OpenParen,
        Mark::CloseParen => Follower::CloseParen,
        Mark::Semicolon => Follower::Semicolon,
        Mark::Equal => Follower::Assign(AssignOp::Set),
        Mark::Comma => Follower::Comma,
        Mark::Minus => Follower::Binary(BinaryOp::Subtract),
        Mark::OpenBracket => Follower::OpenBracket,
        Mark::CloseBracket => Follower::CloseBracket,
        Mark::Ampersand => Follower::Binary(BinaryOp::BitAnd),
        Mark::Dot => Follower::Select(Selector::Dot),
        Mark::PlusEqual => Follower::Assign(AssignOp::Add),
        Mark::MinusEqual => Follower::Assign(AssignOp::Subtract),
        Mark::StarEqual => Follower::Assign(AssignOp::Multiply),
        Mark::SlashEqual => Follower::Assign(AssignOp::Divide),
        Mark::PercentEqual => Follower::Assign(AssignOp::Remainder),
        Mark::AmpersandEqual => Follower::Assign(AssignOp::BitAnd),
        Mark::BarEqual => Follower::Assign(AssignOp::BitOr),
        Mark::CaretEqual => Follower::Assign(AssignOp::BitXor),
        Mark::ShiftLeftEqual => Follower::Assign(AssignOp::ShiftLeft),
        Mark::ShiftRightEqual => Follower::Assign(AssignOp::ShiftRight),
        Mark::Question => Follower::Question,
        Mark::Colon => Follower::Colon,
        Mark::BarBar => Follower::Binary(BinaryOp::Or),
        Mark::AmpersandAmpersand => Follower::Binary(BinaryOp::And),
        Mark::Bar => Follower::Binary(BinaryOp::BitOr),
        Mark::Caret => Follower::Binary(BinaryOp::BitXor),
        Mark::EqualEqual => Follower::Binary(BinaryOp::Equal),
        Mark::NotEqual => Follower::Binary(BinaryOp::NotEqual),
        Mark::Less => Follower::Binary(BinaryOp::Less),
        Mark::LessEqual => Follower::Binary(BinaryOp::LessEqual),
        Mark::Greater => Follower::Binary(BinaryOp::Greater),
        Mark::GreaterEqual => Follower::Binary(BinaryOp::GreaterEqual),
        Mark::ShiftLeft => Follower::Binary(BinaryOp::ShiftLeft),
        Mark::ShiftRight => Follower::Binary(BinaryOp::ShiftRight),
        Mark::Plus => Follower::Binary(BinaryOp::Add),
        Mark::Slash => Follower::Binary(BinaryOp::Divide),
        Mark::Percent => Follower::Binary(BinaryOp::Remainder),
        Mark::PlusPlus => Follower::Increment,
        Mark::MinusMinus => Follower::Decrement,
        Mark::Arrow => Follower::Select(Selector::Arrow),
        _ => Follower::Nothing,
    }
}

/// What a mark is where an operand begins.
pub fn as_opener(mark: Mark) -> Opener
    ensures { result ≡ opener_of mark }
{
    match mark {
        Mark::Star => Opener::Prefix(UnaryOp::Indirect),
        Mark::OpenParen => Opener::OpenParen,
        Mark::CloseParen => Opener::CloseParen,
        Mark::Minus => Opener::Prefix(UnaryOp::Negate),
        Mark::Ampersand => Opener::Prefix(UnaryOp::Address),
        Mark::Plus => Opener::Prefix(UnaryOp::Plus),
        Mark::PlusPlus => Opener::Prefix(UnaryOp::Increment),
        Mark::MinusMinus => Opener::Prefix(UnaryOp::Decrement),
        Mark::Tilde => Opener::Prefix(UnaryOp::Complement),
        Mark::Exclamation => Opener::Prefix(UnaryOp::Not),
        _ => Opener::Nothing,
    }
}
