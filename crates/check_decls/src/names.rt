ghost use Rattle.std.specs.Prelude.{◌≡◌, OnOk};
ghost use Rattle.c_typing.specs.Visits.{Leaves, Tells};
ghost use Rattle.c_typing.specs.Scopes.{is_typedef, meaning_in, with_name};
ghost use Rattle.c_typing.specs.Externals.{global_named, function_named, adjustor_named, is_reserved, no_global, no_function, no_adjustor, no_typedef, declare, standing};
ghost use Rattle.check_decls.specs.Steps.{unless, refused_standing};

use c_program::{AdjustDef, FunDef, GlobalDef};
use c_tree::Name;
use c_typing::{ByName, Meaning, Progress, Refusal, TypeKind, UnitName, UnitScope};
use check_types::{find_meaning, find_service, is_import_slot_name, refusal};
use hx_words::Items;
use named_rows::NamedRows;
use std::alloc::{AllocError, Global};

/// The place of the global of this name. It takes no memory.
pub fn find_global(globals: &NamedRows<GlobalDef, ByName>, name: &[u8]) -> Option<usize>
    ensures { result ≡ global_named globals.now name.now }
{
    globals.find(name)
}

/// The place of the function of this name. It takes no memory.
pub fn find_function(functions: &NamedRows<FunDef, ByName>, name: &[u8]) -> Option<usize>
    ensures { result ≡ function_named functions.now name.now }
{
    functions.find(name)
}

/// The place of the adjustor of this name. It takes no memory.
pub fn find_adjustor(adjustors: &NamedRows<AdjustDef, ByName>, name: &[u8]) -> Option<usize>
    ensures { result ≡ adjustor_named adjustors.now name.now }
{
    adjustors.find(name)
}

fn is_type_name(unit: &UnitScope, name: &[u8]) -> bool
    ensures { result ≡ is_typedef (meaning_in unit.now.names name.now) }
{
    match find_meaning(unit, name) {
        Some(Meaning::Typedef(_)) => true,
        Some(Meaning::Function(_, _) | Meaning::Adjustor(_, _) | Meaning::Global(_, _)) => false,
        None => false,
    }
}

/// A name that no function, adjustor or global can have.
fn is_reserved_name(unit: &UnitScope, name: &[u8]) -> bool
    ensures { result ≡ is_reserved unit.now name.now }
{
    find_service(name).is_some() || is_import_slot_name(name) || is_type_name(unit, name)
}

/// A name that no global can have.
#[tactic(auto, unfolding(c_typing::specs::Externals::no_global))]
pub fn is_no_global(state: &Progress, name: &[u8]) -> bool
    ensures { result ≡ no_global state.now name.now }
{
    is_reserved_name(&state.scope, name)
        || find_function(&state.functions, name).is_some()
        || find_adjustor(&state.adjustors, name).is_some()
}

/// A name that no function can have.
#[tactic(auto, unfolding(c_typing::specs::Externals::no_function))]
pub fn is_no_function(state: &Progress, name: &[u8]) -> bool
    ensures { result ≡ no_function state.now name.now }
{
    is_reserved_name(&state.scope, name)
        || find_global(&state.globals, name).is_some()
        || find_adjustor(&state.adjustors, name).is_some()
}

/// A name that no adjustor can have.
#[tactic(auto, unfolding(c_typing::specs::Externals::no_adjustor))]
pub fn is_no_adjustor(state: &Progress, name: &[u8]) -> bool
    ensures { result ≡ no_adjustor state.now name.now }
{
    is_reserved_name(&state.scope, name)
        || find_global(&state.globals, name).is_some()
        || find_function(&state.functions, name).is_some()
        || find_adjustor(&state.adjustors, name).is_some()
}

/// A name that no typedef can have.
#[tactic(auto, unfolding(c_typing::specs::Externals::no_typedef))]
pub fn is_no_typedef(state: &Progress, name: &[u8]) -> bool
    ensures { result ≡ no_typedef state.now name.now }
{
    find_service(name).is_some() || find_meaning(&state.scope, name).is_some()
}

fn kind_standing(stands: bool, kind: TypeKind) -> TypeKind
    ensures { result ≡ standing stands kind }
{
    match kind {
        TypeKind::BadType if stands => TypeKind::Redeclared,
        _ => kind,
    }
}

/// The refusal of the type of a name that may stand already: a type that there isn't is then another one.
pub fn with_standing(stands: bool, refused: Refusal) -> Refusal
    ensures { result ≡ refused_standing stands refused }
{
    match refused {
        Refusal::Fault(f) => refusal(kind_standing(stands, f.kind), f.at),
        Refusal::NoMemory => Refusal::NoMemory,
    }
}

/// A name that isn't taken.
///
/// # Errors
///
/// [`TypeKind::Redeclared`].
pub fn check_untaken(taken: bool, name: &Name) -> Result<(), Refusal>
    ensures { Tells (unless taken name.now) result }
{
    if taken {
        return Err(refusal(TypeKind::Redeclared, name.span.start));
    }
    Ok(())
}

fn add_name(
    alloc: Global,
    name: &[u8],
    meaning: Meaning,
    unit: &mut UnitScope,
) -> Result<(), AllocError>
    ensures { OnOk result (unit.new ≡ with_name name.now meaning unit.old) }
{
    if find_meaning(unit, name).is_none() {
        let name = Items::from_slice(alloc, name)?;
        unit.names.push(UnitName { name, meaning })?;
    }
    Ok(())
}

/// The name in the unit, from here on (C11, 6.2.1p7).
///
/// # Errors
///
/// Want of memory.
#[tactic(auto, unfolding(c_typing::specs::Externals::declare, c_typing::specs::Visits::changed))]
pub fn declare_name(
    alloc: Global,
    name: &[u8],
    meaning: Meaning,
    state: &mut Progress,
) -> Result<(), Refusal>
    ensures { Leaves (declare name.now meaning state.old) result state.new }
{
    add_name(alloc, name, meaning, &mut state.scope)?;
    Ok(())
}
