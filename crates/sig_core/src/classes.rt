//! What a signature tells of the values of a call.

ghost use Rattle.std.specs.Prelude.{◌≡◌};
ghost use Rattle.sig_core.specs.Signatures.{class_in, IsPassed};

use c_types::{Ty, Types, size};
use hx_words::Items;

/// What a convention knows of a value.
#[derive(Clone, Copy, Debug, PartialEq, Eq)]
pub enum Class {
    /// No value: the result of a function that gives nothing.
    Void,
    /// An integer or a pointer: at most 8 bytes.
    Word,
    /// A struct of so many bytes.
    Agg(u32),
}

/// A function's type, by classes. Of a variadic function `args` are the fixed arguments.
#[derive(Debug, Drop)]
pub struct Signature {
    pub result: Class,
    pub args: Items<Class>,
    pub variadic: bool,
}

/// The class of a type that a function can take or give back.
pub fn class_of(types: &Types, ty: Ty) -> Class
    requires { IsPassed types.now ty }
    ensures { result ≡ class_in types.now ty }
{
    match ty {
        Ty::Void => Class::Void,
        Ty::Int(_) | Ty::Ptr(_) | Ty::Fun(_) => Class::Word,
        Ty::Struct(_) | Ty::Array(_, _) => Class::Agg(size(types, ty) as u32),
    }
}
