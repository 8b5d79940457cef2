use hx_words::Items;

/// The bytes `start..end` of a source text.
#[derive(Clone, Copy, Debug, PartialEq, Eq)]
pub struct Span {
    pub start: u32,
    pub end: u32,
}

/// The integer types: char, short, int and long long, signed and unsigned.
#[derive(Clone, Copy, Debug, PartialEq, Eq)]
pub enum IntTy {
    I8,
    U8,
    I16,
    U16,
    I32,
    U32,
    I64,
    U64,
}

/// A type. A number names a place in the list of its kind in [`Types`].
#[derive(Clone, Copy, Debug, PartialEq, Eq)]
pub enum Ty {
    Void,
    Int(IntTy),
    /// A pointer to the object type at this place of `tys`.
    Ptr(u32),
    /// A pointer to a function of the type at this place of `funs`.
    Fun(u32),
    /// The struct at this place of `structs`.
    Struct(u32),
    /// The element's place in `tys`, and the number of elements.
    Array(u32, u64),
}

/// A named field.
#[derive(Debug, Drop)]
pub struct FieldDef {
    pub name: Items<u8>,
    pub ty: Ty,
}

/// A struct, whose fields are known once it is complete.
#[derive(Debug, Drop)]
pub struct StructDef {
    pub tag: Items<u8>,
    pub fields: Items<FieldDef>,
    pub complete: bool,
}

/// A function's type.
#[derive(Debug, Drop)]
pub struct FunTy {
    pub result: Ty,
    pub params: Items<Ty>,
    pub variadic: bool,
}

/// The types that a [`Ty`] can name.
#[derive(Debug, Drop)]
pub struct Types {
    pub tys: Items<Ty>,
    pub structs: Items<StructDef>,
    pub funs: Items<FunTy>,
}
