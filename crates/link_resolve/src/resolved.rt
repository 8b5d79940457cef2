//! The answer of the linker's first step.

use hx_words::Items;

/// A section of one of the objects, both counted from 0.
#[derive(Clone, Copy, PartialEq, Eq, Debug)]
pub struct SectionId {
    /// The number of the object in the list of objects.
    pub object: u32,
    /// The number of the section in its object's list.
    pub section: u32,
}

/// A name that means a place in a section.
#[derive(Debug, Drop)]
pub struct NamePlace {
    pub name: Items<u8>,
    /// The section, which is one of those that are kept.
    pub home: SectionId,
    /// The place in the section, in bytes.
    pub at: u32,
    /// Whether the name means the fast-forward sequence that leads to the place, and not the place.
    pub sequence: bool,
}

/// What a list of objects links to.
#[derive(Debug, Drop)]
pub struct Resolved {
    /// The sections that are kept, in order of objects and sections.
    pub kept: Items<SectionId>,
    /// Each name that means a place in a section, once. They stand in order of the symbols that
    /// define these places; a symbol's own name comes before the other that leads there.
    pub names: Items<NamePlace>,
}
