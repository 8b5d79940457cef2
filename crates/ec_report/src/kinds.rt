//! What the reports of a command hold.

pub use c_typing::TypeKind;

/// Why a step of the machine is none: the first of these that holds, in this order.
#[derive(Clone, Copy, Debug, PartialEq, Eq)]
pub enum StuckWhy {
    /// The program counter is in no code range and at no service.
    NoRange,
    /// An EC program counter that is no multiple of 4, or a stack pointer that is no multiple of 16.
    Misaligned,
    /// The bytes at the program counter begin with no instruction.
    BadInstruction,
    /// An EC instruction names a register that EC code must not use.
    Blocked,
    /// An access leaves the region of its address, or no region has it.
    Unmapped,
    /// The region lacks the right of the access.
    Protected,
    /// A division by zero, or a quotient that doesn't fit.
    Divide,
    /// An instruction that halts.
    Halt,
    /// Control goes to the other side by an instruction that can't take it there.
    BadSwitch,
    /// A function without its thunk is entered from the other side.
    NoThunk,
    /// A switch to an address of the wrong kind.
    BadTarget,
}

/// How the run of a guest, or of a source, ended.
#[derive(Clone, Copy, Debug, PartialEq, Eq)]
pub enum Outcome {
    /// It ended by `exit`, with this status.
    Exit(u8),
    /// It trapped, with this code.
    Trap(u8),
    /// The steps or units were spent before the end.
    Budget,
    /// The stack was spent.
    StackSpent,
    /// The machine has no step, for this reason at this program counter.
    Stuck(StuckWhy, u64),
}

/// Why a unit is refused, with its first place in the unit, in bytes.
#[derive(Clone, Copy, Debug, PartialEq, Eq)]
pub enum UnitRefusal {
    /// A byte that begins no token.
    BadByte(u32),
    /// A number that isn't one.
    BadNumber(u32),
    /// A comment, character or text that doesn't end.
    Unclosed(u32),
    /// A directive of the preprocessor.
    Directive(u32),
    /// A token that the grammar hasn't there.
    Syntax(u32),
    /// The unit's tree is too high.
    TooDeep,
    /// The unit is in the grammar, and breaks this rule of the types.
    Typing(TypeKind, u32),
}

/// What is counted against a limit.
#[derive(Clone, Copy, Debug, PartialEq, Eq)]
pub enum LimitKind {
    /// The units of a command.
    Units,
    /// The objects of a command.
    Objects,
    /// The bytes of a unit.
    UnitBytes,
    /// The bytes of all units.
    AllBytes,
    /// The nodes of the program.
    Nodes,
    /// The functions and adjustors.
    Functions,
    /// The parameters of a function.
    Parameters,
    /// The extra arguments of a variadic call.
    Extras,
    /// The bytes of a struct.
    StructBytes,
    /// The bytes of a frame.
    FrameBytes,
    /// The bytes of all globals.
    GlobalBytes,
    /// The bytes of a name.
    NameBytes,
}

/// Why a file isn't an image: the first of these that holds, in this order.
#[derive(Clone, Copy, Debug, PartialEq, Eq)]
pub enum ImageRefusal {
    /// The file has over 134,217,728 bytes.
    TooLarge,
    /// The file has under 64 bytes.
    Short,
    /// The file doesn't begin with MZ.
    DosMagic,
    /// The place of the signature is no multiple of 8, or the headers pass the end.
    PeOffset,
    /// The signature isn't PE.
    PeMagic,
    /// The machine isn't x64.
    Machine,
    /// The optional header hasn't 240 bytes.
    OptionalSize,
    /// The optional header isn't PE32+.
    OptionalMagic,
    /// The alignments aren't 4,096 and 512.
    Alignment,
    /// The size of the image is 0, no multiple of 4,096, or over 128 MiB.
    ImageSize,
    /// The stack is no multiple of 4,096, or over 268,435,456 bytes.
    StackSize,
    /// There are no sections, or over 94, or their table passes the end.
    SectionTable,
    /// A section isn't at its place, has contents outside the file, or may be written and executed.
    SectionRange,
    /// There aren't 16 data directories, or one is used that isn't known or lies outside a section.
    Directory,
    /// The imports aren't those of one library, ecrt.dll.
    Import,
    /// The base relocations can't be read.
    BaseRelocation,
    /// There is no load configuration of 208 bytes that leads to hybrid metadata.
    LoadConfig,
    /// The hybrid metadata can't be read, or says what can't be of this image.
    Metadata,
    /// The entry point isn't x64 code.
    Entry,
}

/// Why an image isn't loaded. Want of memory is none of these.
#[derive(Debug, PartialEq, Eq, Drop)]
pub enum LoadRefusal {
    /// The base isn't one at which an image may stand.
    BadBase,
    /// An import of this name, which the machine hasn't.
    UnknownImport(Vec<u8>),
    /// A place to be relocated, by its distance from the base, that isn't in one section.
    BadRelocation(u32),
}
