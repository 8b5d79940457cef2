use crate::parts::Parts;
use c_program::{PathStep, Target};
use hx_words::Items;

/// Where a whole object stands.
#[derive(Clone, Copy, Debug, PartialEq, Eq)]
pub enum Root {
    /// A global, by its place in the program's list.
    Global(u32),
    /// A local: how many frames stand below its own, and its number there.
    Local(u64, u32),
}

/// An object, or the part of one to which a path leads: fields and indexes, from the outside in.
#[derive(Drop)]
pub struct Object {
    pub root: Root,
    pub path: Items<PathStep>,
}

/// A value of an object or of an expression.
#[derive(Drop)]
pub enum Value {
    /// A number of an integer type.
    Number(i128),
    /// The null of any pointer type, to objects or to functions.
    Null,
    /// A pointer to an object.
    Pointer(Object),
    /// A pointer to a function or an adjustor.
    Function(Target),
    /// A struct, by the values of its fields in order, or an array, by its elements.
    Aggregate(Parts<Value>),
}
