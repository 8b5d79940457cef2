use crate::scopes::{ByName, UnitScope};
use c_program::{AdjustDef, FunDef, GlobalDef};
use c_types::Ty;
use hx_words::Items;
use measured_types::MeasuredTypes;
use named_rows::{Named, NamedRows};

/// What the parts of a body enter something into: the program's types, the types of the function's
/// locals so far, whether it has its `va_list`, and the most extra arguments of a call so far.
#[derive(Drop)]
pub struct Tables {
    pub types: MeasuredTypes,
    pub locals: Items<Ty>,
    pub has_list: bool,
    pub extras: u32,
}

/// The function whose body is visited: its result, the number of its parameters, and whether more
/// arguments can follow.
#[derive(Clone, Copy, Debug, PartialEq, Eq)]
pub struct Enclosing {
    pub result: Ty,
    pub parameters: u32,
    pub variadic: bool,
}

impl Named<ByName> for GlobalDef {
    ghost name = { λ row. row.name };

    fn name(&self) -> &[u8] {
        self.name.as_slice()
    }
}

impl Named<ByName> for FunDef {
    ghost name = { λ row. row.name };

    fn name(&self) -> &[u8] {
        self.name.as_slice()
    }
}

impl Named<ByName> for AdjustDef {
    ghost name = { λ row. row.name };

    fn name(&self) -> &[u8] {
        self.name.as_slice()
    }
}

/// The program so far, with the number of definitions of functions and adjustors, and what the unit
/// that is visited has declared.
#[derive(Drop)]
pub struct Progress {
    pub tables: Tables,
    pub globals: NamedRows<GlobalDef, ByName>,
    pub functions: NamedRows<FunDef, ByName>,
    pub adjustors: NamedRows<AdjustDef, ByName>,
    pub defined: u32,
    pub scope: UnitScope,
}
