use crate::expressions::Target;
use crate::statements::TypedItem;
use c_types::{IntTy, Ty, Types};
use hx_words::{Boxed, Items};

/// A step of a path into an object.
#[derive(Clone, Copy, Debug, PartialEq, Eq)]
pub enum PathStep {
    /// A field, by its number.
    Field(u32),
    /// An element, by its index.
    Element(u64),
}

/// An initial value of a global.
#[derive(Drop)]
pub enum Constant {
    /// The zero of the type: 0, null, or all parts zero.
    Zero,
    /// A number of this type; a negative one is in 64 bits of two's complement.
    Number(IntTy, u64),
    /// The address of a part of a global.
    Address(u32, Items<PathStep>),
    Function(Target),
    /// The first fields of a struct or elements of an array; the others are zero.
    List(Items<Constant>),
}

/// Where a global is defined, and its initial value.
#[derive(Drop)]
pub struct GlobalBody {
    pub unit: u32,
    pub init: Boxed<Constant>,
}

/// A global variable. One that is only declared has no body.
#[derive(Drop)]
pub struct GlobalDef {
    pub name: Items<u8>,
    pub ty: Ty,
    pub body: Option<GlobalBody>,
}

/// A function's definition: its unit, its number in the one order of definition of functions and
/// adjustors, the types of its parameters and then of its other locals, and its block.
#[derive(Drop)]
pub struct FunctionBody {
    pub unit: u32,
    pub number: u32,
    pub locals: Items<Ty>,
    pub block: Items<TypedItem>,
}

/// A function, with the place of its type in `funs`. One that is only declared has no body.
#[derive(Drop)]
pub struct FunDef {
    pub name: Items<u8>,
    pub ty: u32,
    pub body: Option<FunctionBody>,
}

/// An adjustor: its type's place in `funs`, its unit, its number in the order of definition, its
/// target, the parameter that it changes (from 0) and the number that it adds.
#[derive(Drop)]
pub struct AdjustDef {
    pub name: Items<u8>,
    pub ty: u32,
    pub unit: u32,
    pub number: u32,
    pub target: Target,
    pub parameter: u32,
    pub amount: i32,
}

/// A program, or units of one.
#[derive(Drop)]
pub struct Program {
    pub types: Types,
    pub globals: Items<GlobalDef>,
    pub functions: Items<FunDef>,
    pub adjustors: Items<AdjustDef>,
    /// The nodes of the units other than those of defined functions and adjustors.
    pub other_nodes: u64,
    /// The most extra arguments that one call passes.
    pub extras: u32,
}
