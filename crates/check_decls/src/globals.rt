ghost use Rattle.std.specs.Prelude.{◌≡◌, [], ◌∷◌, ◌++◌, OnOk, length, is_some};
ghost use Rattle.c_typing.specs.Visits.{Leaves, Tells};
ghost use Rattle.c_typing.specs.TypeForms.{declared_type};
ghost use Rattle.c_typing.specs.UnitVisits.{with_scope};
ghost use Rattle.c_typing.specs.Externals.{global_named, found_global, enter_global, typed_where, declare_global, has_global_body, no_new_global, define_global, visit_global, visit_globals, visit_extern};

use crate::initials::optional_constant;
use crate::names::{check_untaken, declare_name, find_global, is_no_global, with_standing};
use c_program::{Constant, GlobalBody, GlobalDef};
use c_tree::{Base, Decl, GlobalDecl, Name};
use c_types::Ty;
use c_typing::{ByName, Meaning, Progress, Refusal, TypeKind};
use check_types::{declared_type_of, is_same_type, refusal, small_place};
use hx_words::{Boxed, Items};
use named_rows::NamedRows;
use std::alloc::Global;

fn new_global(
    alloc: Global,
    name: &Name,
    ty: Ty,
    globals: &mut NamedRows<GlobalDef, ByName>,
) -> Result<u32, Refusal>
    ensures place { Tells (Ok (length globals.old)) result }
    ensures grown { OnOk result (globals.new ≡ globals.old ++ (record { name = name.now.text; ty = ty; body = None }) ∷ []) }
{
    let place = small_place(globals.len())?;
    let name = Items::from_slice(alloc, name.text.as_slice())?;
    let body = None;
    globals.push(GlobalDef { name, ty, body })?;
    Ok(place)
}

/// The place of a global of this type in the program.
#[tactic(auto, unfolding(c_typing::specs::Externals::enter_global), using(crate::proofs::TakenLaws::global_differs))]
fn enter(alloc: Global, name: &Name, ty: Ty, state: &mut Progress) -> Result<u32, Refusal>
    ensures { Leaves (enter_global name.now ty state.old) result state.new }
{
    let Some(place) = find_global(&state.globals, name.text.as_slice()) else {
        return Ok(new_global(alloc, name, ty, &mut state.globals)?);
    };
    match state.globals.get(place) {
        Some(d) => {
            if is_same_type(d.ty, ty) {
                return Ok(small_place(place)?);
            }
            Err(refusal(TypeKind::Redeclared, name.span.start))
        }
        None => Ok(new_global(alloc, name, ty, &mut state.globals)?),
    }
}

#[tactic(auto, unfolding(c_typing::specs::UnitVisits::with_scope))]
fn scoped_type(base: &Base, decl: &Decl, state: &mut Progress) -> Result<Ty, Refusal>
    ensures { Leaves (with_scope (λ unit. declared_type unit base.now decl.now) state.old) result state.new }
{
    let ty = declared_type_of(&state.scope, base, decl, &mut state.tables)?;
    Ok(ty)
}

/// The type of a global, which may stand already.
#[tactic(auto, unfolding(c_typing::specs::Externals::typed_where))]
fn type_of_global(base: &Base, decl: &Decl, state: &mut Progress) -> Result<Ty, Refusal>
    ensures { Leaves (typed_where (λ p. is_some (global_named p.globals decl.now.name.text)) (with_scope (λ unit. declared_type unit base.now decl.now)) state.old) result state.new }
{
    let stands = find_global(&state.globals, decl.name.text.as_slice()).is_some();
    match scoped_type(base, decl, state) {
        Ok(ty) => Ok(ty),
        Err(r) => Err(with_standing(stands, r)),
    }
}

/// A global's declarator (C11, 6.2.2p4): its place and its type.
#[tactic(auto, unfolding(c_typing::specs::Externals::declare_global, c_typing::specs::Externals::unless_taken, c_typing::specs::Visits::followed, c_typing::specs::Visits::give))]
fn declare(
    alloc: Global,
    taken: bool,
    base: &Base,
    decl: &Decl,
    state: &mut Progress,
) -> Result<(u32, Ty), Refusal>
    ensures { Leaves (declare_global (λ p name. taken) base.now decl.now state.old) result state.new }
{
    check_untaken(taken, &decl.name)?;
    let ty = type_of_global(base, decl, state)?;
    let place = enter(alloc, &decl.name, ty, state)?;
    let meaning = Meaning::Global(place, ty);
    declare_name(alloc, decl.name.text.as_slice(), meaning, state)?;
    Ok((place, ty))
}

fn is_defined(state: &Progress, name: &[u8]) -> bool
    ensures { result ≡ has_global_body (found_global state.now (global_named state.now.globals name.now)) }
{
    let Some(place) = find_global(&state.globals, name) else {
        return false;
    };
    match state.globals.get(place) {
        Some(d) => d.body.is_some(),
        None => false,
    }
}

#[tactic(auto, unfolding(c_typing::specs::Externals::no_new_global))]
fn is_no_new_global(state: &Progress, name: &[u8]) -> bool
    ensures { result ≡ no_new_global state.now name.now }
{
    is_no_global(state, name) || is_defined(state, name)
}

/// A global's definition, where it is declared already.
#[tactic(auto, unfolding(c_typing::specs::Externals::define_global, c_typing::specs::Visits::changed))]
fn define(
    alloc: Global,
    unit: u32,
    place: u32,
    init: Boxed<Constant>,
    state: &mut Progress,
) -> Result<(), Refusal>
    ensures { Leaves (define_global unit place init state.old) result state.new }
{
    let Some(d) = state.globals.get(place as usize) else {
        return Ok(());
    };
    let ty = d.ty;
    let name = Items::from_slice(alloc, d.name.as_slice())?;
    let body = Some(GlobalBody { unit, init });
    state
        .globals
        .set(place as usize, GlobalDef { name, ty, body });
    Ok(())
}

fn declare_new(
    alloc: Global,
    base: &Base,
    decl: &Decl,
    state: &mut Progress,
) -> Result<(u32, Ty), Refusal>
    ensures { Leaves (declare_global no_new_global base.now decl.now state.old) result state.new }
{
    let taken = is_no_new_global(state, decl.name.text.as_slice());
    let declared = declare(alloc, taken, base, decl, state)?;
    Ok(declared)
}

#[tactic(auto, unfolding(c_typing::specs::Externals::visit_global, c_typing::specs::Visits::followed, c_typing::specs::Visits::looked))]
fn define_one(
    alloc: Global,
    unit: u32,
    base: &Base,
    decl: &GlobalDecl,
    state: &mut Progress,
) -> Result<(), Refusal>
    ensures { Leaves (visit_global unit base.now decl.now state.old) result state.new }
{
    let (place, ty) = declare_new(alloc, base, &decl.decl, state)?;
    let init = optional_constant(
        alloc,
        &state.scope,
        state.tables.types.as_types(),
        &decl.init,
        ty,
    )?;
    let init = Boxed::new(alloc, init)?;
    define(alloc, unit, place, init, state)?;
    Ok(())
}

/// Definitions of globals of one type (C11, 6.9.2).
///
/// # Errors
///
/// The first fault in them, or want of memory.
#[tactic(auto, unfolding(c_typing::specs::Externals::visit_globals, c_typing::specs::Visits::followed, c_typing::specs::Visits::give))]
pub fn define_globals(
    alloc: Global,
    unit: u32,
    base: &Base,
    decls: &[GlobalDecl],
    state: &mut Progress,
) -> Result<(), Refusal>
    ensures { Leaves (visit_globals unit base.now decls.now state.old) result state.new }
{
    for decl in decls {
        define_one(alloc, unit, base, decl, state)?;
    }
    Ok(())
}

/// A global that is declared `extern` (C11, 6.2.2p4).
///
/// # Errors
///
/// The first fault in it, or want of memory.
#[tactic(auto, unfolding(c_typing::specs::Externals::visit_extern, c_typing::specs::Externals::declare_global, c_typing::specs::Externals::unless_taken, c_typing::specs::Visits::followed, c_typing::specs::Visits::give))]
pub fn declare_extern(
    alloc: Global,
    base: &Base,
    decl: &Decl,
    state: &mut Progress,
) -> Result<(), Refusal>
    ensures { Leaves (visit_extern base.now decl.now state.old) result state.new }
{
    let taken = is_no_global(state, decl.name.text.as_slice());
    declare(alloc, taken, base, decl, state)?;
    Ok(())
}
