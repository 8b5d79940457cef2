ghost use Rattle.std.specs.Prelude.{◌≡◌, ◌-◌, OnOk, map, length, slice_get};
ghost use Rattle.c_types.specs.Layout.{size_of};
ghost use Rattle.c_typing.specs.Visits.{Leaves, each_in_order};
ghost use Rattle.c_typing.specs.Scopes.{with_local};
ghost use Rattle.c_typing.specs.Statements.{enter_local, free_name, in_scopes};
ghost use Rattle.c_typing.specs.Heads.{base_at, param_at, param_type, is_service, bare_param_type, param_types, free_param, with_param, visit_parameter, visit_parameters, head_type, is_int, is_register_size, gives_word, may_be_variadic, variadic_fits, check_variadic};
ghost use Rattle.check_decls.specs.Steps.{LeavesOne, LeavesAll};

use c_tree::{Base, FunctionHead, Name, Param};
use c_types::{FunTy, IntTy, Ty};
use c_typing::{LocalMeaning, LocalName, LocalScope, Refusal, Tables, TypeKind, UnitScope};
use check_types::{
    enter_fun_type, find_service, is_name_taken, is_same_type, object_type_of, refusal,
    result_type_of, small_place,
};
use hx_words::Items;
use measured_types::MeasuredTypes;
use std::alloc::{AllocError, Global};

fn base_start(base: &Base) -> u32
    ensures { result ≡ base_at base.now }
{
    match base {
        Base::Void(s) | Base::Int(_, s) | Base::Struct(s, _) => s.start,
        Base::Named(n) => n.span.start,
    }
}

/// The place of a parameter's faults: its name, or else its first byte.
fn param_start(p: &Param) -> u32
    ensures { result ≡ param_at p.now }
{
    match &p.name {
        Some(n) => n.span.start,
        None => base_start(&p.base),
    }
}

fn type_of_param(unit: &UnitScope, p: &Param, tables: &mut Tables) -> Result<Ty, Refusal>
    ensures { Leaves (param_type unit.now p.now tables.old) result tables.new }
{
    let ty = object_type_of(unit, param_start(p), &p.base, p.stars.as_slice(), tables)?;
    Ok(ty)
}

fn is_service_name(name: &Option<Name>) -> bool
    ensures { result ≡ is_service name.now }
{
    match name {
        Some(n) => find_service(n.text.as_slice()).is_some(),
        None => false,
    }
}

#[tactic(auto, unfolding(c_typing::specs::Visits::refuse))]
fn type_of_bare_param(unit: &UnitScope, p: &Param, tables: &mut Tables) -> Result<Ty, Refusal>
    ensures { Leaves (bare_param_type unit.now p.now tables.old) result tables.new }
{
    if is_service_name(&p.name) {
        return Err(refusal(TypeKind::Redeclared, param_start(p)));
    }
    let ty = type_of_param(unit, p, tables)?;
    Ok(ty)
}

/// The types of the parameters of a head without a body, whose names are in no scope.
#[tactic(auto, unfolding(c_typing::specs::Heads::param_types), using(c_typing::proofs::LoopLaws::each_begun, c_typing::proofs::LoopLaws::each_kept, c_typing::proofs::LoopLaws::each_left, c_typing::proofs::LoopLaws::each_whole))]
pub fn types_of_params(
    alloc: Global,
    unit: &UnitScope,
    params: &[Param],
    tables: &mut Tables,
) -> Result<Items<Ty>, Refusal>
    ensures { Leaves (param_types unit.now params.now tables.old) result tables.new }
{
    let mut types = Items::new(alloc);
    for p in params {
        types.push(type_of_bare_param(unit, p, tables)?)?;
    }
    Ok(types)
}

/// The next number for a local of this type; a parameter is a local.
///
/// # Errors
///
/// Want of memory.
#[tactic(auto, unfolding(c_typing::specs::Statements::enter_local))]
pub fn number_local(ty: Ty, tables: &mut Tables) -> Result<u32, Refusal>
    ensures { Leaves (enter_local ty tables.old) result tables.new }
{
    let number = small_place(tables.locals.len())?;
    tables.locals.push(ty)?;
    Ok(number)
}

/// A name that a local may have.
///
/// # Errors
///
/// [`TypeKind::Redeclared`].
#[tactic(auto, unfolding(c_typing::specs::Statements::free_name, c_typing::specs::Visits::give, c_typing::specs::Visits::refuse))]
pub fn check_free(
    unit: &UnitScope,
    locals: &LocalScope,
    name: &Name,
    tables: &Tables,
) -> Result<(), Refusal>
    ensures { Leaves (free_name unit.now locals.now name.now tables.now) result tables.now }
{
    if is_name_taken(unit, locals, name.text.as_slice()) {
        return Err(refusal(TypeKind::Redeclared, name.span.start));
    }
    Ok(())
}

/// A name of the innermost block.
///
/// # Errors
///
/// Want of memory.
pub fn declare_local(
    alloc: Global,
    name: &[u8],
    meaning: LocalMeaning,
    locals: &mut LocalScope,
) -> Result<(), AllocError>
    ensures { OnOk result (locals.new ≡ with_local name.now meaning locals.old) }
{
    let name = Items::from_slice(alloc, name)?;
    locals.own.push(LocalName { name, meaning })?;
    Ok(())
}

#[tactic(auto, unfolding(c_typing::specs::Visits::give))]
fn check_free_param(
    unit: &UnitScope,
    locals: &LocalScope,
    name: &Option<Name>,
    tables: &Tables,
) -> Result<(), Refusal>
    ensures { Leaves (free_param unit.now locals.now name.now tables.now) result tables.now }
{
    match name {
        Some(n) => Ok(check_free(unit, locals, n, tables)?),
        None => Ok(()),
    }
}

fn declare_param(
    alloc: Global,
    name: &Option<Name>,
    number: u32,
    ty: Ty,
    locals: &mut LocalScope,
) -> Result<(), AllocError>
    ensures { OnOk result (locals.new ≡ with_param name.now number ty locals.old) }
{
    match name {
        Some(n) => {
            let meaning = LocalMeaning::Variable(number, ty);
            declare_local(alloc, n.text.as_slice(), meaning, locals)?;
            Ok(())
        }
        None => Ok(()),
    }
}

/// A parameter of a definition, which is a local of the body's block (C11, 6.2.1p4).
#[tactic(auto, unfolding(c_typing::specs::Heads::visit_parameter, c_typing::specs::Visits::followed, c_typing::specs::Visits::give))]
fn enter_parameter(
    alloc: Global,
    unit: &UnitScope,
    p: &Param,
    locals: &mut LocalScope,
    tables: &mut Tables,
) -> Result<Ty, Refusal>
    ensures { LeavesOne (visit_parameter unit.now p.now locals.old tables.old) result locals.new tables.new }
{
    check_free_param(unit, locals, &p.name, tables)?;
    let ty = type_of_param(unit, p, tables)?;
    let number = number_local(ty, tables)?;
    declare_param(alloc, &p.name, number, ty, locals)?;
    Ok(ty)
}

/// The parameters of a definition: their types, and the locals that they are.
///
/// # Errors
///
/// The first fault in them, or want of memory.
#[tactic(auto, using(c_typing::proofs::LoopLaws::scopes_begun, crate::proofs::LoopEnds::scopes_pushed, crate::proofs::LoopEnds::scopes_given_up, c_typing::proofs::LoopLaws::scopes_whole))]
pub fn enter_parameters(
    alloc: Global,
    unit: &UnitScope,
    params: &[Param],
    locals: &mut LocalScope,
    tables: &mut Tables,
) -> Result<Items<Ty>, Refusal>
    ensures { LeavesAll (in_scopes (map (visit_parameter unit.now) params.now) locals.old tables.old) result locals.new tables.new }
{
    let mut types = Items::new(alloc);
    for p in params {
        types.push(enter_parameter(alloc, unit, p, locals, tables)?)?;
    }
    Ok(types)
}

/// The place of the type of a function with these parameters.
///
/// # Errors
///
/// The first fault in the result's type, or want of memory.
#[tactic(auto, unfolding(c_typing::specs::Heads::head_type, c_typing::specs::Visits::followed))]
pub fn enter_head(
    unit: &UnitScope,
    head: &FunctionHead,
    params: Items<Ty>,
    tables: &mut Tables,
) -> Result<u32, Refusal>
    ensures { Leaves (head_type unit.now head.now params tables.old) result tables.new }
{
    let result = result_type_of(unit, head.name.span.start, &head.result, tables)?;
    let variadic = head.params.ellipsis.is_some();
    let f = FunTy {
        result,
        params,
        variadic,
    };
    let place = enter_fun_type(f, tables)?;
    Ok(place)
}

fn is_word_size(size: u64) -> bool
    ensures { result ≡ is_register_size size }
{
    size == 1 || size == 2 || size == 4 || size == 8
}

/// Whether a result comes back in a register and not through memory.
pub fn is_word_result(types: &MeasuredTypes, ty: Ty) -> bool
    ensures { result ≡ gives_word types.now ty }
{
    match ty {
        Ty::Struct(_) => is_word_size(types.size(ty)),
        _ => true,
    }
}

fn has_last_int(params: &[Ty]) -> bool
    ensures { result ≡ is_int (slice_get params.now (length params.now - 1)) }
{
    match params.get(params.len().saturating_sub(1)) {
        Some(ty) => is_same_type(*ty, Ty::Int(IntTy::I32)),
        None => false,
    }
}

fn keeps_variadic(types: &MeasuredTypes, place: u32) -> bool
    ensures { result ≡ variadic_fits types.now (slice_get types.now.funs place) }
{
    match types.as_types().funs.get(place as usize) {
        Some(f) if f.variadic => {
            has_last_int(f.params.as_slice()) && is_word_result(types, f.result)
        }
        _ => true,
    }
}

/// The rule of variadic functions, for the type at a place of the table.
///
/// # Errors
///
/// [`TypeKind::Variadic`].
#[tactic(auto, unfolding(c_typing::specs::Heads::check_variadic))]
pub fn check_variadic_type(at: u32, place: u32, tables: &Tables) -> Result<(), Refusal>
    ensures { Leaves (check_variadic at place tables.now) result tables.now }
{
    if !keeps_variadic(&tables.types, place) {
        return Err(refusal(TypeKind::Variadic, at));
    }
    Ok(())
}
