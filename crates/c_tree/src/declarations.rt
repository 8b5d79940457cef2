use crate::expressions::{Base, Literal, Name, TypeName};
use crate::statements::BlockItem;
use c_types::Span;
use hx_words::{Boxed, Items};

/// A declared name with the stars before it and the array lengths after it.
#[derive(Drop)]
pub struct Decl {
    pub stars: Items<Span>,
    pub name: Name,
    pub lengths: Items<Literal>,
}

/// The fields of one type, in one declaration of a struct.
#[derive(Drop)]
pub struct Field {
    pub base: Base,
    pub decls: Items<Decl>,
}

/// A parameter, which has a name in each definition.
#[derive(Drop)]
pub struct Param {
    pub base: Base,
    pub stars: Items<Span>,
    pub name: Option<Name>,
}

/// Parameters, with the place of `...`. `( void )` has none, as `( )`.
#[derive(Drop)]
pub struct Params {
    pub list: Items<Param>,
    pub ellipsis: Option<Span>,
}

/// A part of a global, with the place of `.` or `[`.
#[derive(Drop)]
pub enum Step {
    Field(Span, Name),
    Index(Span, Literal),
}

/// The initial value of a global.
#[derive(Drop)]
pub enum Init {
    /// A number, with the place of a `-` before it.
    Number(Option<Span>, Literal),
    Char(i32, Span),
    Text(Items<u8>, Span),
    /// A name with the parts behind it, and the place of a `&` before it.
    Name(Option<Span>, Name, Items<Step>),
    /// Values in braces, with the place of `{`.
    List(Span, Items<Init>),
}

/// A global variable and its initial value.
#[derive(Drop)]
pub struct GlobalDecl {
    pub decl: Decl,
    pub init: Option<Boxed<Init>>,
}

/// A function up to the end of its parameters.
#[derive(Drop)]
pub struct FunctionHead {
    pub result: TypeName,
    pub name: Name,
    pub params: Params,
}

/// A declaration or a definition of a unit.
#[derive(Drop)]
pub enum Item {
    /// `typedef result ( * ID ) ( params ) ;`
    Typedef(Span, FunctionHead),
    Struct(Span, Name, Items<Field>),
    Extern(Span, Base, Decl),
    Globals(Base, Items<GlobalDecl>),
    Declare(FunctionHead),
    /// A function with its body, and the place of the body's `{`.
    Define(FunctionHead, Span, Items<BlockItem>),
    /// `__adjustor ID = ID , parameter , amount ;`, with the place of a `-` before the amount.
    Adjustor(Span, Name, Name, Literal, Option<Span>, Literal),
}

/// A source text.
#[derive(Drop)]
pub struct Unit {
    pub items: Items<Item>,
}
