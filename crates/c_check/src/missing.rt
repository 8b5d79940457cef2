ghost use Rattle.std.specs.Prelude.{◌≡◌, [], false, slice_get};
ghost use Rattle.std.specs.List.{list_any};
ghost use Rattle.std.specs.Option.{option_copied};
ghost use Rattle.c_typing.specs.TypeForms.{same_types, same_bool};
ghost use Rattle.c_typing.specs.Units.{defines_function, defines_global, undefined_at, item_undefined, items_undefined, first_undefined, is_main_type, is_main, has_main, missing};
ghost use Rattle.c_check.specs.Answers.{TellsMissing, undefined_fault};

use crate::refusals::CheckRefusal;
use c_program::{FunDef, GlobalDef};
use c_tree::{Item, Name, Unit};
use c_types::{FunTy, IntTy, Ty};
use c_typing::{ByName, Progress, TypeKind};
use check_types::is_same_type;
use named_rows::NamedRows;

/// Whether a function of this name has a body, by a walk.
fn has_function_body(functions: &[FunDef], name: &[u8]) -> bool
    ensures { result ≡ list_any (defines_function name.now) functions.now }
{
    functions
        .iter()
        .any(|f| f.name.as_slice() == name && f.body.is_some())
}

/// A function that stands without a body is undefined unless a later one of its name has one.
#[tactic(auto, using(crate::proofs::DefinedLaws::function_unnamed, crate::proofs::DefinedLaws::function_bodied))]
fn is_function_defined(functions: &NamedRows<FunDef, ByName>, name: &[u8]) -> bool
    ensures { result ≡ list_any (defines_function name.now) functions.now }
{
    match functions.find_row(name) {
        None => false,
        Some(f) if f.body.is_some() => true,
        Some(_) => has_function_body(functions.as_slice(), name),
    }
}

/// Whether a global of this name has a body, by a walk.
fn has_global_body(globals: &[GlobalDef], name: &[u8]) -> bool
    ensures { result ≡ list_any (defines_global name.now) globals.now }
{
    globals
        .iter()
        .any(|g| g.name.as_slice() == name && g.body.is_some())
}

/// A global that stands without a body is undefined unless a later one of its name has one.
#[tactic(auto, using(crate::proofs::DefinedLaws::global_unnamed, crate::proofs::DefinedLaws::global_bodied))]
fn is_global_defined(globals: &NamedRows<GlobalDef, ByName>, name: &[u8]) -> bool
    ensures { result ≡ list_any (defines_global name.now) globals.now }
{
    match globals.find_row(name) {
        None => false,
        Some(g) if g.body.is_some() => true,
        Some(_) => has_global_body(globals.as_slice(), name),
    }
}

fn unless_defined(defined: bool, name: &Name) -> Option<u32>
    ensures { result ≡ undefined_at defined name.now }
{
    if defined { None } else { Some(name.span.start) }
}

fn undefined_item(state: &Progress, item: &Item) -> Option<u32>
    ensures { result ≡ item_undefined state.now item.now }
{
    match item {
        Item::Extern(_, _, decl) => {
            let name = decl.name.text.as_slice();
            unless_defined(is_global_defined(&state.globals, name), &decl.name)
        }
        Item::Declare(head) => {
            let name = head.name.text.as_slice();
            unless_defined(is_function_defined(&state.functions, name), &head.name)
        }
        _ => None,
    }
}

/// The first declaration in a unit of what is defined nowhere.
fn undefined_in_unit(state: &Progress, items: &[Item]) -> Option<u32>
    ensures { result ≡ items_undefined state.now items.now }
{
    for item in items {
        let at = undefined_item(state, item);
        if at.is_some() {
            return at;
        }
    }
    None
}

/// The first declaration of what is defined nowhere: its unit, and its place there.
fn undefined(state: &Progress, units: &[Unit]) -> Option<(usize, u32)>
    ensures { undefined_fault result ≡ first_undefined state.now 0 units.now }
{
    for (unit, text) in units.iter().enumerate() {
        if let Some(at) = undefined_in_unit(state, text.items.as_slice()) {
            return Some((unit, at));
        }
    }
    None
}

fn are_none(params: &[Ty]) -> bool
    ensures { result ≡ same_types params.now [] }
{
    match params.first() {
        Some(_) => false,
        None => true,
    }
}

fn is_unmarked(variadic: bool) -> bool
    ensures { result ≡ same_bool variadic false }
{
    match variadic {
        true => false,
        false => true,
    }
}

/// Whether a function gives an `int` and has no parameters (C11, 5.1.2.2.1).
fn is_type_of_main(f: &FunTy) -> bool
    ensures { result ≡ is_main_type (Some f.now) }
{
    is_same_type(f.result, Ty::Int(IntTy::I32))
        && are_none(f.params.as_slice())
        && is_unmarked(f.variadic)
}

fn type_in(funs: &[FunTy], ty: u32) -> Option<&FunTy>
    ensures { option_copied result ≡ slice_get funs.now ty }
{
    funs.get(ty as usize)
}

fn is_main_of(funs: &[FunTy], ty: u32) -> bool
    ensures { result ≡ is_main_type (slice_get funs.now ty) }
{
    match type_in(funs, ty) {
        Some(f) => is_type_of_main(f),
        None => false,
    }
}

fn defines_main(funs: &[FunTy], f: &FunDef) -> bool
    ensures { result ≡ is_main funs.now f.now }
{
    f.name.as_slice() == b"main".as_slice() && f.body.is_some() && is_main_of(funs, f.ty)
}

fn defines_a_main(funs: &[FunTy], functions: &[FunDef]) -> bool
    ensures { result ≡ list_any (is_main funs.now) functions.now }
{
    functions.iter().any(|f| defines_main(funs, f))
}

fn has_a_main(state: &Progress) -> bool
    ensures { result ≡ has_main state.now }
{
    defines_a_main(
        state.tables.types.as_types().funs.as_slice(),
        state.functions.as_slice(),
    )
}

fn undefined_name(unit: usize, at: u32) -> CheckRefusal
    ensures { TellsMissing (undefined_fault (Some (unit, at))) (Err result) }
{
    match u32::try_from(unit) {
        Ok(unit) => CheckRefusal::Bad {
            unit,
            kind: TypeKind::Undefined,
            at,
        },
        Err(_) => CheckRefusal::NoMemory,
    }
}

/// What a whole program must have beyond units without a fault: a definition of each name that it declares
/// (C11, 6.9p5), and `int main(void)` (5.1.2.2.1).
#[tactic(auto, unfolding(c_typing::specs::Units::missing), using(crate::proofs::UnitLaws::undefined_missing))]
pub fn check_missing(units: &[Unit], state: &Progress) -> Result<(), CheckRefusal>
    ensures { TellsMissing (missing units.now state.now) result }
{
    if let Some((unit, at)) = undefined(state, units) {
        return Err(undefined_name(unit, at));
    }
    if !has_a_main(state) {
        return Err(CheckRefusal::Bad {
            unit: 0,
            kind: TypeKind::NoMain,
            at: 0,
        });
    }
    Ok(())
}
