ghost use Rattle.std.specs.Prelude.{◌≡◌, ◌-◌, ◌==◌, ◌&&◌, IfOk, length, slice_get, if◌then◌else◌};
ghost use Rattle.c_typing.specs.Visits.{Leaves, Tells};
ghost use Rattle.c_typing.specs.Adjustors.{target_in, target_named, is_integer, is_adjustable, amount_of, adjusts, fits, define_adjustor, visit_adjustor};
ghost use Rattle.c_typing.specs.Heads.{gives_word};
ghost use Rattle.check_decls.specs.Steps.{amount_in, told, placed_adjustor};

use crate::functions::next_number;
use crate::heads::is_word_result;
use crate::names::{check_untaken, declare_name, is_no_adjustor};
use c_program::{AdjustDef, Target};
use c_tree::{Literal, Name};
use c_types::{FunTy, Span, Ty};
use c_typing::{Meaning, Progress, Refusal, TypeKind, UnitScope};
use check_types::{as_integer, find_meaning, find_service, refusal, small_place};
use hx_words::Items;
use measured_types::MeasuredTypes;
use std::alloc::Global;

fn target_of(at: u32, meaning: Option<Meaning>) -> Result<(Target, u32), Refusal>
    ensures { Tells (target_in at meaning) result }
{
    match meaning {
        Some(Meaning::Function(f, ty)) => Ok((Target::Function(f), ty)),
        Some(Meaning::Adjustor(a, ty)) => Ok((Target::Adjustor(a), ty)),
        Some(Meaning::Typedef(_) | Meaning::Global(_, _)) => {
            Err(refusal(TypeKind::BadAdjustor, at))
        }
        None => Err(refusal(TypeKind::BadAdjustor, at)),
    }
}

/// A target, a function or an adjustor of the unit, and its type's place.
fn find_target(at: u32, unit: &UnitScope, name: &[u8]) -> Result<(Target, u32), Refusal>
    ensures { Tells (target_named at unit.now name.now) result }
{
    let meaning = find_meaning(unit, name);
    if meaning.is_none() && find_service(name).is_none() {
        return Err(refusal(TypeKind::Unknown, at));
    }
    Ok(target_of(at, meaning)?)
}

fn is_integer_at(params: &[Ty], n: u64) -> bool
    ensures { result ≡ is_integer (slice_get params.now n) }
{
    match params.get(n as usize) {
        Some(ty) => as_integer(*ty).is_some(),
        None => false,
    }
}

/// The parameters of a function whose slots are registers on x64.
fn register_count(types: &MeasuredTypes, f: &FunTy) -> u64
    ensures { result ≡ (if gives_word types.now f.now.result then 4 else 3) }
{
    if is_word_result(types, f.result) {
        4
    } else {
        3
    }
}

fn is_last_of_variadic(f: &FunTy, n: u64) -> bool
    ensures { result ≡ (f.now.variadic && n == length f.now.params - 1) }
{
    f.variadic && n == (f.params.len() as u64).saturating_sub(1)
}

fn can_adjust(types: &MeasuredTypes, f: &FunTy, n: u64) -> bool
    ensures { result ≡ is_adjustable types.now f.now n }
{
    is_integer_at(f.params.as_slice(), n)
        && n < register_count(types, f)
        && !is_last_of_variadic(f, n)
}

fn can_adjust_at(types: &MeasuredTypes, ty: u32, n: u64) -> bool
    ensures { result ≡ adjusts types.now (slice_get types.now.funs ty) n }
{
    match types.as_types().funs.get(ty as usize) {
        Some(f) => can_adjust(types, f, n),
        None => false,
    }
}

/// A literal with a `-` before it or not, from -32,768 to 32,767.
fn amount(minus: Option<Span>, n: u64) -> Option<i32>
    ensures { result ≡ amount_in minus n }
{
    match minus {
        None if n <= 32767 => Some(n as i32),
        Some(_) if n <= 32768 => Some(-(n as i32)),
        _ => None,
    }
}

/// The parameter, from 0, and the number to add.
fn adjustment(
    at: u32,
    types: &MeasuredTypes,
    ty: u32,
    parameter: &Literal,
    minus: Option<Span>,
    n: &Literal,
) -> Result<(u32, i32), Refusal>
    ensures fits { Tells (fits at types.now ty parameter.now minus n.now) (told result) }
    ensures value { IfOk result (λ x. x ≡ (parameter.now.value - 1, amount_of minus n.now.value)) }
{
    let bad = refusal(TypeKind::BadAdjustor, at);
    if parameter.value == 0 || !can_adjust_at(types, ty, parameter.value - 1) {
        return Err(bad);
    }
    match amount(minus, n.value) {
        Some(amount) => Ok((small_place((parameter.value - 1) as usize)?, amount)),
        None => Err(bad),
    }
}

#[tactic(auto, unfolding(c_typing::specs::Adjustors::define_adjustor))]
fn push_adjustor(definition: AdjustDef, state: &mut Progress) -> Result<u32, Refusal>
    ensures { Leaves (define_adjustor (λ p. definition) state.old) result state.new }
{
    let place = small_place(state.adjustors.len())?;
    let next = next_number(state.defined)?;
    state.adjustors.push(definition)?;
    state.defined = next;
    Ok(place)
}

/// An adjustor of this target that adds a number to a parameter.
#[tactic(auto, unfolding(c_typing::specs::Adjustors::define_adjustor, c_typing::specs::Visits::followed))]
fn place_adjustor(
    alloc: Global,
    unit: u32,
    name: &[u8],
    target: (Target, u32),
    adjustment: (u32, i32),
    state: &mut Progress,
) -> Result<(), Refusal>
    ensures { Leaves (placed_adjustor unit name.now target adjustment state.old) result state.new }
{
    let (target, ty) = target;
    let (parameter, amount) = adjustment;
    let definition = AdjustDef {
        name: Items::from_slice(alloc, name)?,
        ty,
        unit,
        number: state.defined,
        target,
        parameter,
        amount,
    };
    let place = push_adjustor(definition, state)?;
    declare_name(alloc, name, Meaning::Adjustor(place, ty), state)?;
    Ok(())
}

/// An adjustor, which is defined where it stands.
///
/// # Errors
///
/// The first fault in it, or want of memory.
#[tactic(auto, unfolding(c_typing::specs::Adjustors::visit_adjustor, c_typing::specs::Externals::unless_taken, c_typing::specs::Visits::followed, c_typing::specs::Visits::looked))]
pub fn define_adjustment(
    alloc: Global,
    unit: u32,
    name: &Name,
    target: &Name,
    parameter: &Literal,
    minus: Option<Span>,
    n: &Literal,
    state: &mut Progress,
) -> Result<(), Refusal>
    ensures { Leaves (visit_adjustor unit name.now target.now parameter.now minus n.now state.old) result state.new }
{
    let at = name.span.start;
    let taken = is_no_adjustor(state, name.text.as_slice());
    check_untaken(taken, name)?;
    let target = find_target(at, &state.scope, target.text.as_slice())?;
    let adjustment = adjustment(at, &state.tables.types, target.1, parameter, minus, n)?;
    place_adjustor(alloc, unit, name.text.as_slice(), target, adjustment, state)?;
    Ok(())
}
