ghost use Rattle.std.specs.Prelude.{◌≡◌, IfOk};
ghost use Rattle.c_typing.specs.Visits.{Tells, Leaves};
ghost use Rattle.c_typing.specs.Expressions.{given_int, name_of, number_of, sized, is_list, next_extra};

use crate::parts::{INT, given_operand};
use c_program::TypedExpr;
use c_tree::{Literal, Name, TypeName};
use c_types::{IntTy, Ty};
use c_typing::{Designated, LocalScope, Operand, Refusal, Tables, TypeKind, UnitScope, Value};
use check_types::{as_integer, designated_name, object_type_of, refusal};
use hx_words::Boxed;
use std::alloc::{AllocError, Global};

pub fn operand_of_name(
    alloc: Global,
    unit: &UnitScope,
    locals: &LocalScope,
    name: &Name,
) -> Result<Operand, Refusal>
    ensures { Tells (name_of unit.now locals.now name.now) result }
{
    let at = name.span.start;
    match designated_name(alloc, unit, locals, name.text.as_slice())? {
        Some(what) => Ok(Operand { at, what }),
        None => Err(refusal(TypeKind::Unknown, at)),
    }
}

pub fn operand_of_number(alloc: Global, n: &Literal) -> Result<Operand, AllocError>
    ensures { IfOk result (λ o. o ≡ number_of n.now) }
{
    let tree = Boxed::new(alloc, TypedExpr::Number(n.ty, n.value))?;
    Ok(Operand {
        at: n.span.start,
        what: Designated::Value(Value {
            ty: Ty::Int(n.ty),
            tree,
            literal: Some(n.value),
        }),
    })
}

pub fn operand_of_char(alloc: Global, at: u32, c: i32) -> Result<Operand, AllocError>
    ensures { IfOk result (λ o. o ≡ given_int at (TypedExpr.Char c)) }
{
    let tree = Boxed::new(alloc, TypedExpr::Char(c))?;
    Ok(given_operand(at, INT, tree))
}

/// `sizeof ( type )`, an unsigned long long (C11, 6.5.3.4).
#[tactic(auto, unfolding(c_typing::specs::Expressions::sized, c_typing::specs::Visits::followed, c_typing::specs::Visits::looked), using(check_types::proofs::VisitLaws::leaves_refused))]
pub fn operand_of_size(
    alloc: Global,
    unit: &UnitScope,
    at: u32,
    ty: &TypeName,
    tables: &mut Tables,
) -> Result<Operand, Refusal>
    ensures { Leaves (sized unit.now at ty.now tables.old) result tables.new }
{
    let object = object_type_of(unit, at, &ty.base, ty.stars.as_slice(), tables)?;
    let bytes = tables.types.size(object);
    let tree = Boxed::new(alloc, TypedExpr::Number(IntTy::U64, bytes))?;
    Ok(given_operand(at, Ty::Int(IntTy::U64), tree))
}

/// Whether a name is that of a `va_list` (C11, 7.16.1).
pub fn is_va_list(what: &Designated) -> bool
    ensures { result ≡ is_list what.now }
{
    match what {
        Designated::VaList => true,
        Designated::Value(_)
        | Designated::Place(_, _, _)
        | Designated::Function(_, _)
        | Designated::Service(_)
        | Designated::Typedef => false,
    }
}

/// `va_arg ( ID , type )` (C11, 7.16.1.1), of integers alone.
#[tactic(auto, unfolding(c_typing::specs::Expressions::next_extra, c_typing::specs::Visits::followed, c_typing::specs::Visits::judged, c_typing::specs::Visits::looked), using(check_types::proofs::VisitLaws::leaves_refused))]
pub fn operand_of_extra(
    alloc: Global,
    unit: &UnitScope,
    locals: &LocalScope,
    at: u32,
    name: &Name,
    ty: &TypeName,
    tables: &mut Tables,
) -> Result<Operand, Refusal>
    ensures { Leaves (next_extra unit.now locals.now at name.now ty.now tables.old) result tables.new }
{
    let Some(what) = designated_name(alloc, unit, locals, name.text.as_slice())? else {
        return Err(refusal(TypeKind::Unknown, at));
    };
    let object = object_type_of(unit, at, &ty.base, ty.stars.as_slice(), tables)?;
    if !is_va_list(&what) {
        return Err(refusal(TypeKind::Mismatch, at));
    }
    let Some(int) = as_integer(object) else {
        return Err(refusal(TypeKind::Variadic, at));
    };
    let tree = Boxed::new(alloc, TypedExpr::VaArg(int))?;
    Ok(given_operand(at, Ty::Int(int), tree))
}
