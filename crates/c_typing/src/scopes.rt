use c_types::Ty;
use hx_words::Items;
use named_rows::{Named, NamedRows};

/// The sort of names by which the checker's rows are found.
#[derive(Clone, Copy, Debug, PartialEq, Eq)]
pub struct ByName;

/// What a name that a unit declares means.
#[derive(Clone, Copy, Debug, PartialEq, Eq)]
pub enum Meaning {
    /// A pointer to functions of the type at this place of `funs`.
    Typedef(u32),
    /// A function, by its place in the program's list, and its type's place in `funs`.
    Function(u32, u32),
    /// An adjustor, by its place in the program's list, and its type's place in `funs`.
    Adjustor(u32, u32),
    /// A global, by its place in the program's list, and its type.
    Global(u32, Ty),
}

/// A name of a unit.
#[derive(Drop)]
pub struct UnitName {
    pub name: Items<u8>,
    pub meaning: Meaning,
}

impl Named<ByName> for UnitName {
    ghost name = { λ row. row.name };

    fn name(&self) -> &[u8] {
        self.name.as_slice()
    }
}

/// A tag of a unit, with the struct's place in `structs`. It is complete from the end of the struct's
/// definition in this unit on.
#[derive(Drop)]
pub struct UnitTag {
    pub name: Items<u8>,
    pub place: u32,
    pub complete: bool,
}

impl Named<ByName> for UnitTag {
    ghost name = { λ row. row.name };

    fn name(&self) -> &[u8] {
        self.name.as_slice()
    }
}

/// What a unit has declared so far. Each name and each tag stands once.
#[derive(Drop)]
pub struct UnitScope {
    pub names: NamedRows<UnitName, ByName>,
    pub tags: NamedRows<UnitTag, ByName>,
}

/// What a name that a function's body declares means.
#[derive(Clone, Copy, Debug, PartialEq, Eq)]
pub enum LocalMeaning {
    /// A local, by its number, and its type.
    Variable(u32, Ty),
    VaList,
}

/// A name of a block.
#[derive(Drop)]
pub struct LocalName {
    pub name: Items<u8>,
    pub meaning: LocalMeaning,
}

impl Named<ByName> for LocalName {
    ghost name = { λ row. row.name };

    fn name(&self) -> &[u8] {
        self.name.as_slice()
    }
}

/// What the blocks around a place in a body have declared so far: the innermost block, and those
/// around it, the outermost first. Each name stands once in a block.
#[derive(Drop)]
pub struct LocalScope {
    pub own: NamedRows<LocalName, ByName>,
    pub outer: Items<NamedRows<LocalName, ByName>>,
}
