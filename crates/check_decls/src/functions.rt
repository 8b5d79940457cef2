ghost use Rattle.std.specs.Prelude.{◌≡◌, [], ◌∷◌, ◌++◌, ◌+◌, IfOk, OnOk, length, slice_get, is_some};
ghost use Rattle.c_typing.specs.Visits.{Leaves, Tells};
ghost use Rattle.c_typing.specs.Heads.{param_types, head_type, check_variadic};
ghost use Rattle.c_typing.specs.UnitVisits.{with_scope};
ghost use Rattle.c_typing.specs.Externals.{function_named, found_function, enter_program_function, typed_where, declare_function, has_body, no_function, no_new_function, no_typedef, visit_typedef, visit_declaration, begin_body, define_function, enclosing_in, body_of, with_body};

use crate::heads::{check_variadic_type, enter_head, types_of_params};
use crate::names::{
    check_untaken, declare_name, find_function, is_no_function, is_no_typedef, with_standing,
};
use c_program::{FunDef, FunctionBody, TypedItem};
use c_tree::{FunctionHead, Name};
use c_types::{FunTy, Ty};
use c_typing::{ByName, Enclosing, Meaning, Progress, Refusal, TypeKind};
use check_types::{refusal, small_place};
use hx_words::Items;
use named_rows::NamedRows;
use std::alloc::{AllocError, Global};

#[tactic(auto, unfolding(c_typing::specs::UnitVisits::with_scope))]
fn scoped_param_types(
    alloc: Global,
    head: &FunctionHead,
    state: &mut Progress,
) -> Result<Items<Ty>, Refusal>
    ensures { Leaves (with_scope (λ unit. param_types unit head.now.params.list) state.old) result state.new }
{
    let params = head.params.list.as_slice();
    let types = types_of_params(alloc, &state.scope, params, &mut state.tables)?;
    Ok(types)
}

#[tactic(auto, unfolding(c_typing::specs::UnitVisits::with_scope))]
fn scoped_head(head: &FunctionHead, params: Items<Ty>, state: &mut Progress) -> Result<u32, Refusal>
    ensures { Leaves (with_scope (λ unit. head_type unit head.now params) state.old) result state.new }
{
    let place = enter_head(&state.scope, head, params, &mut state.tables)?;
    Ok(place)
}

/// The type of a function, which may stand already.
#[tactic(auto, unfolding(c_typing::specs::Externals::typed_where))]
fn type_of_function(
    head: &FunctionHead,
    params: Items<Ty>,
    state: &mut Progress,
) -> Result<u32, Refusal>
    ensures { Leaves (typed_where (λ p. is_some (function_named p.functions head.now.name.text)) (with_scope (λ unit. head_type unit head.now params)) state.old) result state.new }
{
    let stands = find_function(&state.functions, head.name.text.as_slice()).is_some();
    match scoped_head(head, params, state) {
        Ok(place) => Ok(place),
        Err(r) => Err(with_standing(stands, r)),
    }
}

#[tactic(auto, unfolding(c_typing::specs::UnitVisits::with_scope))]
fn check_head(at: u32, place: u32, state: &Progress) -> Result<(), Refusal>
    ensures { Leaves (with_scope (λ unit. check_variadic at place) state.now) result state.now }
{
    check_variadic_type(at, place, &state.tables)?;
    Ok(())
}

/// A typedef of a pointer to functions.
///
/// # Errors
///
/// The first fault in it, or want of memory.
#[tactic(auto, unfolding(c_typing::specs::Externals::visit_typedef, c_typing::specs::Externals::unless_taken, c_typing::specs::Visits::followed))]
pub fn declare_typedef(
    alloc: Global,
    head: &FunctionHead,
    state: &mut Progress,
) -> Result<(), Refusal>
    ensures { Leaves (visit_typedef head.now state.old) result state.new }
{
    let params = scoped_param_types(alloc, head, state)?;
    let taken = is_no_typedef(state, head.name.text.as_slice());
    check_untaken(taken, &head.name)?;
    let place = scoped_head(head, params, state)?;
    check_head(head.name.span.start, place, state)?;
    let name = head.name.text.as_slice();
    declare_name(alloc, name, Meaning::Typedef(place), state)?;
    Ok(())
}

fn new_function(
    alloc: Global,
    name: &Name,
    ty: u32,
    functions: &mut NamedRows<FunDef, ByName>,
) -> Result<u32, Refusal>
    ensures place { Tells (Ok (length functions.old)) result }
    ensures grown { OnOk result (functions.new ≡ functions.old ++ (record { name = name.now.text; ty = ty; body = None }) ∷ []) }
{
    let place = small_place(functions.len())?;
    let name = Items::from_slice(alloc, name.text.as_slice())?;
    let body = None;
    functions.push(FunDef { name, ty, body })?;
    Ok(place)
}

/// The place of a function of this type in the program.
#[tactic(auto, unfolding(c_typing::specs::Externals::enter_program_function), using(crate::proofs::TakenLaws::function_differs))]
fn enter(alloc: Global, name: &Name, ty: u32, state: &mut Progress) -> Result<u32, Refusal>
    ensures { Leaves (enter_program_function name.now ty state.old) result state.new }
{
    let Some(place) = find_function(&state.functions, name.text.as_slice()) else {
        return Ok(new_function(alloc, name, ty, &mut state.functions)?);
    };
    match state.functions.get(place) {
        Some(d) => {
            if d.ty != ty {
                return Err(refusal(TypeKind::Redeclared, name.span.start));
            }
            Ok(small_place(place)?)
        }
        None => Ok(new_function(alloc, name, ty, &mut state.functions)?),
    }
}

/// A function's declarator behind its parameters: its place, and its type's.
#[tactic(auto, unfolding(c_typing::specs::Externals::declare_function, c_typing::specs::Externals::unless_taken, c_typing::specs::Visits::followed, c_typing::specs::Visits::give))]
fn declare(
    alloc: Global,
    taken: bool,
    head: &FunctionHead,
    params: Items<Ty>,
    state: &mut Progress,
) -> Result<(u32, u32), Refusal>
    ensures { Leaves (declare_function (λ p name. taken) head.now params state.old) result state.new }
{
    check_untaken(taken, &head.name)?;
    let ty = type_of_function(head, params, state)?;
    let place = enter(alloc, &head.name, ty, state)?;
    check_head(head.name.span.start, ty, state)?;
    let name = head.name.text.as_slice();
    declare_name(alloc, name, Meaning::Function(place, ty), state)?;
    Ok((place, ty))
}

fn declare_old(
    alloc: Global,
    head: &FunctionHead,
    params: Items<Ty>,
    state: &mut Progress,
) -> Result<(u32, u32), Refusal>
    ensures { Leaves (declare_function no_function head.now params state.old) result state.new }
{
    let taken = is_no_function(state, head.name.text.as_slice());
    let declared = declare(alloc, taken, head, params, state)?;
    Ok(declared)
}

/// A declaration of a function without its body.
///
/// # Errors
///
/// The first fault in it, or want of memory.
#[tactic(auto, unfolding(c_typing::specs::Externals::visit_declaration, c_typing::specs::Visits::followed, c_typing::specs::Visits::give))]
pub fn declare_head(alloc: Global, head: &FunctionHead, state: &mut Progress) -> Result<(), Refusal>
    ensures { Leaves (visit_declaration head.now state.old) result state.new }
{
    let params = scoped_param_types(alloc, head, state)?;
    declare_old(alloc, head, params, state)?;
    Ok(())
}

fn is_defined(state: &Progress, name: &[u8]) -> bool
    ensures { result ≡ has_body (found_function state.now (function_named state.now.functions name.now)) }
{
    let Some(place) = find_function(&state.functions, name) else {
        return false;
    };
    match state.functions.get(place) {
        Some(d) => d.body.is_some(),
        None => false,
    }
}

#[tactic(auto, unfolding(c_typing::specs::Externals::no_new_function))]
fn is_no_new_function(state: &Progress, name: &[u8]) -> bool
    ensures { result ≡ no_new_function state.now name.now }
{
    is_no_function(state, name) || is_defined(state, name)
}

/// The declarator of a function whose body follows: its place, and its type's.
///
/// # Errors
///
/// The first fault in it, or want of memory.
pub fn declare_new_head(
    alloc: Global,
    head: &FunctionHead,
    params: Items<Ty>,
    state: &mut Progress,
) -> Result<(u32, u32), Refusal>
    ensures { Leaves (declare_function no_new_function head.now params state.old) result state.new }
{
    let taken = is_no_new_function(state, head.name.text.as_slice());
    let declared = declare(alloc, taken, head, params, state)?;
    Ok(declared)
}

/// A body begins without locals.
#[tactic(auto, unfolding(c_typing::specs::Externals::begin_body, c_typing::specs::Visits::changed))]
pub fn start_body(alloc: Global, state: &mut Progress)
    ensures { begin_body state.old ≡ Ok (tt, state.new) }
{
    state.tables.locals = Items::new(alloc);
    state.tables.has_list = false;
}

fn of_type(f: &FunTy) -> Result<Enclosing, Refusal>
    ensures { Tells (Ok (enclosing_in (Some f.now))) result }
{
    let parameters = small_place(f.params.len())?;
    Ok(Enclosing {
        result: f.result,
        parameters,
        variadic: f.variadic,
    })
}

/// What a body needs to know of the function of the type at this place.
///
/// # Errors
///
/// Want of memory.
pub fn enclosing(funs: &[FunTy], place: u32) -> Result<Enclosing, Refusal>
    ensures { Tells (Ok (enclosing_in (slice_get funs.now place))) result }
{
    match funs.get(place as usize) {
        Some(f) => Ok(of_type(f)?),
        None => Ok(Enclosing {
            result: Ty::Void,
            parameters: 0,
            variadic: false,
        }),
    }
}

fn body(
    alloc: Global,
    unit: u32,
    block: Items<TypedItem>,
    state: &Progress,
) -> Result<FunctionBody, AllocError>
    ensures { IfOk result (λ b. b ≡ body_of unit block state.now) }
{
    Ok(FunctionBody {
        unit,
        number: state.defined,
        locals: Items::from_slice(alloc, state.tables.locals.as_slice())?,
        block,
    })
}

fn put_body(
    alloc: Global,
    place: u32,
    body: FunctionBody,
    functions: &mut NamedRows<FunDef, ByName>,
) -> Result<(), AllocError>
    ensures { OnOk result (functions.new ≡ with_body (Some body) (slice_get functions.old place) functions.old place) }
{
    let Some(d) = functions.get(place as usize) else {
        return Ok(());
    };
    let ty = d.ty;
    let name = Items::from_slice(alloc, d.name.as_slice())?;
    let body = Some(body);
    functions.set(place as usize, FunDef { name, ty, body });
    Ok(())
}

/// The next number of the order of definition.
///
/// # Errors
///
/// Want of memory, where there are no more numbers.
pub fn next_number(defined: u32) -> Result<u32, Refusal>
    ensures { Tells (Ok (defined + 1)) result }
{
    match defined.checked_add(1) {
        Some(next) => Ok(next),
        None => Err(Refusal::NoMemory),
    }
}

/// A function's body, which gets the next number of the order of definition.
///
/// # Errors
///
/// Want of memory.
#[tactic(auto, unfolding(c_typing::specs::Externals::define_function, c_typing::specs::Visits::changed))]
pub fn define_body(
    alloc: Global,
    unit: u32,
    place: u32,
    block: Items<TypedItem>,
    state: &mut Progress,
) -> Result<(), Refusal>
    ensures { Leaves (define_function unit place block state.old) result state.new }
{
    let next = next_number(state.defined)?;
    let body = body(alloc, unit, block, state)?;
    put_body(alloc, place, body, &mut state.functions)?;
    state.defined = next;
    Ok(())
}
