ghost use Rattle.std.specs.Prelude.{◌≡◌};

use std::alloc::AllocError;

/// What is wrong with a part of a program. At one part the first of these counts.
#[derive(Clone, Copy, Debug, PartialEq, Eq)]
pub enum TypeKind {
    /// A name is declared again where it can't be.
    Redeclared,
    /// A name or a tag isn't declared before its use.
    Unknown,
    /// A struct is used before the end of its definition other than behind a pointer.
    Incomplete,
    /// There is no such type.
    BadType,
    /// What has no value is used as a value.
    NotValue,
    /// What is no place is assigned, changed, or has its address taken.
    NotPlace,
    /// The address of a local is taken.
    NoAddress,
    NotPointer,
    NoField,
    NotArray,
    NotInteger,
    NotScalar,
    /// Types differ where no conversion is allowed.
    Mismatch,
    NotFunction,
    ArgumentCount,
    /// The last fixed argument isn't the number of extra arguments.
    VariadicCount,
    /// A variadic function, an extra argument or a `va_list` breaks a rule of its own.
    Variadic,
    /// An initial value is no constant of its type.
    BadInitial,
    /// A `break`, `continue` or `return` can't stand there.
    Flow,
    BadAdjustor,
    /// What is declared is defined nowhere.
    Undefined,
    /// There is no `int main(void)`.
    NoMain,
}

/// The first fault in a part of a unit, and the byte of the unit at which it lies.
#[derive(Clone, Copy, Debug, PartialEq, Eq)]
pub struct Fault {
    pub kind: TypeKind,
    pub at: u32,
}

/// The first fault of a program, with the number of its unit.
#[derive(Clone, Copy, Debug, PartialEq, Eq)]
pub struct UnitFault {
    pub unit: u32,
    pub kind: TypeKind,
    pub at: u32,
}

/// Why a part isn't typed: its first fault, or want of memory.
#[derive(Clone, Copy, Debug, PartialEq, Eq)]
pub enum Refusal {
    Fault(Fault),
    NoMemory,
}

impl From<AllocError> for Refusal {
    ghost use Rattle.c_typing.specs.declared.faults.Refusal.TheVariants.{NoMemory};

    ghost from_gives = { λ _ e. e ≡ NoMemory };

    fn from(_: AllocError) -> Refusal {
        Refusal::NoMemory
    }
}
