/// `++ -- - + ~ ! & *` before an operand.
#[derive(Clone, Copy, Debug, PartialEq, Eq)]
pub enum UnaryOp {
    Increment,
    Decrement,
    Negate,
    Plus,
    Complement,
    Not,
    Address,
    Indirect,
}

/// The operators between two operands, loosest first: `|| && | ^ & == != < <= > >= << >> + - * / %`.
#[derive(Clone, Copy, Debug, PartialEq, Eq)]
pub enum BinaryOp {
    Or,
    And,
    BitOr,
    BitXor,
    BitAnd,
    Equal,
    NotEqual,
    Less,
    LessEqual,
    Greater,
    GreaterEqual,
    ShiftLeft,
    ShiftRight,
    Add,
    Subtract,
    Multiply,
    Divide,
    Remainder,
}

/// `= += -= *= /= %= &= |= ^= <<= >>=`.
#[derive(Clone, Copy, Debug, PartialEq, Eq)]
pub enum AssignOp {
    Set,
    Add,
    Subtract,
    Multiply,
    Divide,
    Remainder,
    BitAnd,
    BitOr,
    BitXor,
    ShiftLeft,
    ShiftRight,
}

/// `.` or `->`.
#[derive(Clone, Copy, Debug, PartialEq, Eq)]
pub enum Selector {
    Dot,
    Arrow,
}
