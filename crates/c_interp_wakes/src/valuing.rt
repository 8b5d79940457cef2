ghost use Rattle.std.specs.Prelude.{◌≡◌, ◌≤◌, IfOk};
ghost use Rattle.c_interp_steps.specs.declared.work.Pending.TheVariants as wait;
ghost use Rattle.c_interp_steps.specs.declared.work.Now.TheVariants as now;
ghost use Rattle.c_interp_steps.specs.declared.work.Turn.TheVariants as turn;
ghost use Rattle.c_interp_steps.specs.declared.work.ValueWork.TheVariants as waits;
ghost use Rattle.c_interp_steps.specs.Rests.{value_rest};
ghost use Rattle.c_interp_steps.specs.Stack.{turn_load};
ghost use Rattle.c_interp_steps.specs.Goes.{GivesValue};

use crate::outcomes::{
    compared_value, complemented_value, converted_value, index, int, negated_value, not_value,
    operated, part_copy, truth_of, truth_value, updated_value,
};
use c_interp_steps::{Called, Now, Pending, Turn, ValueWork, arguments};
use c_meaning::SourceEnd;
use c_program::{Arithmetic, PathStep, TypedExpr};
use c_types::IntTy;
use c_values::{Object, Parts, Value};
use std::alloc::{AllocError, Global};

/// What an operator gives; a division by 0 is a trap.
fn computed<'a>(op: Arithmetic, ty: IntTy, x: Value, y: Value) -> Turn<'a>
    ensures gives { GivesValue (λ m. value_rest m (waits.BinaryWith op ty x) y) result }
    ensures within { turn_load result ≤ 12 }
{
    match operated(op, ty, x, y) {
        Some(z) => Turn::Go(Now::Got(z)),
        None => Turn::Go(Now::Stopped(SourceEnd::Trap(243))),
    }
}

/// A compound assignment to an object that held `x`, whose right side came.
fn update<'a>(op: Arithmetic, types: (IntTy, IntTy), o: Object, x: Value, y: Value) -> Turn<'a>
    ensures gives { GivesValue (λ m. value_rest m (waits.UpdateAt op types.0 types.1 o x) y) result }
    ensures within { turn_load result ≤ 12 }
{
    match updated_value(op, types.0, types.1, x, y) {
        Some(z) => Turn::Go(Now::Store(o, z)),
        None => Turn::Go(Now::Stopped(SourceEnd::Trap(243))),
    }
}

/// A field of a struct that is no place.
fn field<'a>(alloc: Global, v: Value, f: u32) -> Result<Turn<'a>, AllocError>
    ensures gives { IfOk result (GivesValue (λ m. value_rest m (waits.FieldOf f) v)) }
    ensures within { IfOk result (λ turn. turn_load turn ≤ 12) }
{
    let part = part_copy(alloc, &v, PathStep::Field(f))?;
    Ok(Turn::Go(Now::Got(part)))
}

/// An element of an array that is no place.
fn element<'a>(alloc: Global, array: Value, n: u64, v: Value) -> Result<Turn<'a>, AllocError>
    ensures gives { IfOk result (GivesValue (λ m. value_rest m (waits.ElementWith array n) v)) }
    ensures within { IfOk result (λ turn. turn_load turn ≤ 12) }
{
    match index(n, v) {
        Some(k) => Ok(Turn::Go(Now::Got(part_copy(alloc, &array, PathStep::Element(k))?))),
        None => Ok(Turn::Go(Now::Stopped(SourceEnd::Trap(241)))),
    }
}

fn value_then<'a>(work: ValueWork<'a>, e: &'a TypedExpr) -> Turn<'a>
    ensures { result ≡ turn.Await (wait.Value work.entry) (now.Value e.entry) }
{
    Turn::Await(Pending::Value(work), Now::Value(e))
}

/// `&&` after its left operand.
fn and_then<'a>(v: Value, right: &'a TypedExpr) -> Turn<'a>
    ensures gives { GivesValue (λ m. value_rest m (waits.AndThen right.entry) v) result }
    ensures within { turn_load result ≤ 12 }
{
    if truth_of(v) {
        value_then(ValueWork::Truth, right)
    } else {
        Turn::Go(Now::Got(int(false)))
    }
}

/// `||` after its left operand.
fn or_then<'a>(v: Value, right: &'a TypedExpr) -> Turn<'a>
    ensures gives { GivesValue (λ m. value_rest m (waits.OrThen right.entry) v) result }
    ensures within { turn_load result ≤ 12 }
{
    if truth_of(v) {
        Turn::Go(Now::Got(int(true)))
    } else {
        value_then(ValueWork::Truth, right)
    }
}

/// `c ? a : b` after its condition.
fn choose_then<'a>(v: Value, a: &'a TypedExpr, b: &'a TypedExpr) -> Turn<'a>
    ensures gives { GivesValue (λ m. value_rest m (waits.Choose a.entry b.entry) v) result }
    ensures within { turn_load result ≤ 12 }
{
    if truth_of(v) {
        Turn::Go(Now::Value(a))
    } else {
        Turn::Go(Now::Value(b))
    }
}

/// An argument of a call, after those that are there.
fn argument<'a>(
    called: Called,
    mut done: Parts<Value>,
    rest: &'a [TypedExpr],
    v: Value,
) -> Result<Turn<'a>, AllocError>
    ensures gives { IfOk result (GivesValue (λ m. value_rest m (waits.Arguments called done rest.entry) v)) }
    ensures within { IfOk result (λ turn. turn_load turn ≤ 12) }
{
    done.push(v)?;
    Ok(arguments(called, done, rest))
}

/// A value goes to work that gives a value.
pub fn wake_value<'a>(alloc: Global, work: ValueWork<'a>, v: Value) -> Result<Turn<'a>, AllocError>
    ensures gives { IfOk result (GivesValue (λ m. value_rest m work.entry v)) }
    ensures within { IfOk result (λ turn. turn_load turn ≤ 12) }
{
    match work {
        ValueWork::Negate(i) => Ok(Turn::Go(Now::Got(negated_value(i, v)))),
        ValueWork::Complement(i) => Ok(Turn::Go(Now::Got(complemented_value(i, v)))),
        ValueWork::Not => Ok(Turn::Go(Now::Got(not_value(v)))),
        ValueWork::Convert(i) => Ok(Turn::Go(Now::Got(converted_value(i, v)))),
        ValueWork::BinaryThen(o, i, b) => Ok(value_then(ValueWork::BinaryWith(o, i, v), b)),
        ValueWork::BinaryWith(o, i, x) => Ok(computed(o, i, x, v)),
        ValueWork::CompareThen(c, b) => Ok(value_then(ValueWork::CompareWith(c, v), b)),
        ValueWork::CompareWith(c, x) => Ok(Turn::Go(Now::Got(compared_value(c, x, v)))),
        ValueWork::AndThen(b) => Ok(and_then(v, b)),
        ValueWork::OrThen(b) => Ok(or_then(v, b)),
        ValueWork::Truth => Ok(Turn::Go(Now::Got(truth_value(v)))),
        ValueWork::Choose(a, b) => Ok(choose_then(v, a, b)),
        ValueWork::StoreAt(o) => Ok(Turn::Go(Now::Store(o, v))),
        ValueWork::UpdateAt(op, i, j, o, x) => Ok(update(op, (i, j), o, x, v)),
        ValueWork::FieldOf(f) => field(alloc, v, f),
        ValueWork::ElementThen(i, n) => Ok(value_then(ValueWork::ElementWith(v, n), i)),
        ValueWork::ElementWith(x, n) => element(alloc, x, n, v),
        ValueWork::CallThen(args) => Ok(arguments(Called::Pointed(v), Parts::new(alloc), args)),
        ValueWork::Arguments(called, done, rest) => argument(called, done, rest, v),
        ValueWork::LeaveAdjustor => Ok(Turn::Go(Now::Close(v))),
    }
}
