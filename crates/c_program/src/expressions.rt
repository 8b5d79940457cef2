use c_types::{IntTy, Ty};
use hx_words::{Boxed, Items};

/// What every unit may call without declaring it.
#[derive(Clone, Copy, Debug, PartialEq, Eq)]
pub enum Service {
    /// `void put_byte(int)`
    PutByte,
    /// `int get_byte(void)`
    GetByte,
    /// `void exit(int)`
    Exit,
}

/// A function or an adjustor, by its place in the program's list of its kind.
#[derive(Clone, Copy, Debug, PartialEq, Eq)]
pub enum Target {
    Function(u32),
    Adjustor(u32),
}

/// `+ - * / % & | ^ << >>` of two integers.
#[derive(Clone, Copy, Debug, PartialEq, Eq)]
pub enum Arithmetic {
    Add,
    Subtract,
    Multiply,
    Divide,
    Remainder,
    BitAnd,
    BitOr,
    BitXor,
    ShiftLeft,
    ShiftRight,
}

/// `== != < <= > >=` of two integers, or the first two of two pointers.
#[derive(Clone, Copy, Debug, PartialEq, Eq)]
pub enum Comparison {
    Equal,
    NotEqual,
    Less,
    LessEqual,
    Greater,
    GreaterEqual,
}

/// What an expression designates without reading it (C11, 6.3.2.1: an lvalue). Each is one node.
#[cycle(typed)]
#[derive(Drop)]
pub enum Place {
    /// A local of the active call, by its number: parameters first, then each declarator in order.
    Local(u32),
    /// A global, by its place in the program's list.
    Global(u32),
    /// `*e`: the object of this type that a pointer points to.
    Target(Ty, Boxed<TypedExpr>),
    /// `e->f`: the field of the struct at this place of `structs` that a pointer points to.
    Arrow(Boxed<TypedExpr>, u32, u32),
    /// `p.f`: a field of a place, by the struct's and the field's number.
    Field(Boxed<Place>, u32, u32),
    /// `p[i]`: an element of this type of a place that is an array of this length.
    Element(Ty, Boxed<Place>, Boxed<TypedExpr>, u64),
}

/// An expression that is evaluated for its value. Each is one node, but that `Load` is none: its place
/// is. The leading type is the value's, or that of both operands where a variant says so.
#[cycle(typed)]
#[derive(Drop)]
pub enum TypedExpr {
    /// A number of this type, which is a literal's or a `sizeof`'s.
    Number(IntTy, u64),
    /// A character, an int.
    Char(i32),
    /// The literal 0 as a pointer or a function pointer of this type.
    Null(Ty),
    /// A function's or an adjustor's name as a function pointer of this type.
    Function(Ty, Target),
    /// What a place holds.
    Load(Ty, Boxed<Place>),
    /// `&p`: a pointer of this type to a place.
    Address(Ty, Boxed<Place>),
    /// `+e`, `&` before a function's name, `*` before a function pointer: the operand's value.
    Same(Boxed<TypedExpr>),
    Negate(IntTy, Boxed<TypedExpr>),
    Complement(IntTy, Boxed<TypedExpr>),
    /// `!e`, an int: 1 where the integer is 0 or the pointer is null.
    Not(Boxed<TypedExpr>),
    /// An inserted conversion or a cast, to this type.
    Convert(IntTy, Boxed<TypedExpr>),
    /// Both operands have this type; the right one of a shift has its own.
    Binary(Arithmetic, IntTy, Boxed<TypedExpr>, Boxed<TypedExpr>),
    /// An int, 0 or 1; both operands have this type.
    Compare(Comparison, Ty, Boxed<TypedExpr>, Boxed<TypedExpr>),
    /// `l && r`, an int.
    And(Boxed<TypedExpr>, Boxed<TypedExpr>),
    /// `l || r`, an int.
    Or(Boxed<TypedExpr>, Boxed<TypedExpr>),
    /// `c ? l : r`
    Conditional(Ty, Boxed<TypedExpr>, Boxed<TypedExpr>, Boxed<TypedExpr>),
    /// `p = e`, whose value is the new one.
    Assign(Ty, Boxed<Place>, Boxed<TypedExpr>),
    /// `p op= e`: the place's type, the type in which the operator works, which is that of the right
    /// side too but for a shift, and the parts. Its conversions are no nodes of their own.
    Update(Arithmetic, IntTy, IntTy, Boxed<Place>, Boxed<TypedExpr>),
    /// `++p` (true) or `--p`, of a place of this type: the new value.
    Before(IntTy, bool, Boxed<Place>),
    /// `p++` (true) or `p--`, of a place of this type: the old value.
    After(IntTy, bool, Boxed<Place>),
    /// A call by name, which is no node of its own.
    Call(Ty, Target, Items<TypedExpr>),
    /// A call of the function that a pointer of the type at this place of `funs` points to.
    CallPointer(Ty, u32, Boxed<TypedExpr>, Items<TypedExpr>),
    /// A call of a service.
    CallService(Service, Items<TypedExpr>),
    /// `va_arg`: the next extra argument as a number of this type.
    VaArg(IntTy),
    /// A field, by the struct's and the field's number, of a struct that is no place.
    FieldOf(Ty, Boxed<TypedExpr>, u32, u32),
    /// An element of an array of this length that is no place.
    ElementOf(Ty, Boxed<TypedExpr>, Boxed<TypedExpr>, u64),
}
