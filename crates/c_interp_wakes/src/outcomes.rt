ghost use Rattle.std.specs.Prelude.{◌≡◌, ℕ, IfOk, not, option_map};
ghost use Rattle.c_values.specs.declared.value.Value.TheVariants as value;
ghost use Rattle.c_values.specs.Numbers.{wrapped, arithmetic as arithmetic_of, negated, complemented};
ghost use Rattle.c_values.specs.Objects.{int_of, compared, part_of, inner, number_in, truth as truth_in};
ghost use Rattle.c_meaning.specs.States.{State};
ghost use Rattle.c_meaning.specs.Rules.{bounded, pointed, function_in, updated};
ghost use Rattle.c_interp_steps.specs.Goes.{index_answer, object_answer, target_answer};

use c_program::{Arithmetic, Comparison, PathStep, Target};
use c_types::IntTy;
use c_values::{
    Object, Value, arithmetic, compare, complement, copy_value, negate, number, part, truth, wrap,
};
use std::alloc::{AllocError, Global};

/// A truth value as an int.
pub(crate) fn int(b: bool) -> Value
    ensures { result ≡ int_of b }
{
    if b {
        Value::Number(1)
    } else {
        Value::Number(0)
    }
}

fn number_of(v: Value) -> i128
    ensures { result ≡ number_in v }
{
    number(&v)
}

/// Whether a condition's value is true.
pub(crate) fn truth_of(v: Value) -> bool
    ensures { result ≡ truth_in v }
{
    truth(&v)
}

/// The truth of a value, as an int.
pub(crate) fn truth_value(v: Value) -> Value
    ensures { result ≡ int_of (truth_in v) }
{
    int(truth_of(v))
}

/// `!v`
pub(crate) fn not_value(v: Value) -> Value
    ensures { result ≡ int_of (not (truth_in v)) }
{
    int(!truth_of(v))
}

/// `-v`
pub(crate) fn negated_value(ty: IntTy, v: Value) -> Value
    ensures { result ≡ value.Number (negated ty (number_in v)) }
{
    Value::Number(negate(ty, number_of(v)))
}

/// `~v`
pub(crate) fn complemented_value(ty: IntTy, v: Value) -> Value
    ensures { result ≡ value.Number (complemented ty (number_in v)) }
{
    Value::Number(complement(ty, number_of(v)))
}

/// The value converted to a type.
pub(crate) fn converted_value(ty: IntTy, v: Value) -> Value
    ensures { result ≡ value.Number (wrapped ty (number_in v)) }
{
    Value::Number(wrap(ty, number_of(v)))
}

/// A comparison's int.
pub(crate) fn compared_value(by: Comparison, x: Value, y: Value) -> Value
    ensures { result ≡ int_of (compared by x y) }
{
    int(compare(by, &x, &y))
}

/// What an operator gives; none for a division by 0.
pub(crate) fn operated(op: Arithmetic, ty: IntTy, x: Value, y: Value) -> Option<Value>
    ensures { result ≡ option_map (λ z. value.Number z) (arithmetic_of op ty (number_in x) (number_in y)) }
{
    match arithmetic(op, ty, number_of(x), number_of(y)) {
        Some(z) => Some(Value::Number(z)),
        None => None,
    }
}

/// What a compound assignment stores, in the place's type; none for a division by 0.
pub(crate) fn updated_value(
    op: Arithmetic,
    place: IntTy,
    ty: IntTy,
    x: Value,
    y: Value,
) -> Option<Value>
    ensures { result ≡ option_map (λ z. value.Number z) (updated op place ty x y) }
{
    match arithmetic(op, ty, number_of(x), number_of(y)) {
        Some(z) => Some(Value::Number(wrap(place, z))),
        None => None,
    }
}

/// An index into an array of `n` elements, where it is one.
pub(crate) fn index(n: u64, v: Value) -> Option<u64>
    ensures { (s : State) (k : ℕ) → bounded n (number_in v) s k ≡ index_answer result s k }
{
    let z = number_of(v);
    if 0 <= z && z < n as i128 {
        Some(z as u64)
    } else {
        None
    }
}

/// The object that a pointer points to.
#[tactic(auto, using(crate::proofs::ValueForms::forms))]
pub(crate) fn object(v: Value) -> Option<Object>
    ensures { (s : State) (k : ℕ) → pointed v s k ≡ object_answer result s k }
{
    match v {
        Value::Pointer(o) => Some(o),
        Value::Number(_) | Value::Null | Value::Function(_) | Value::Aggregate(_) => None,
    }
}

/// The function or adjustor that a pointer points to.
#[tactic(auto, using(crate::proofs::ValueForms::forms))]
pub fn target(v: &Value) -> Option<Target>
    ensures { (s : State) (k : ℕ) → function_in v.now s k ≡ target_answer result s k }
{
    match v {
        Value::Function(t) => Some(*t),
        Value::Number(_) | Value::Null | Value::Pointer(_) | Value::Aggregate(_) => None,
    }
}

/// A part of a value.
pub(crate) fn part_copy(alloc: Global, v: &Value, step: PathStep) -> Result<Value, AllocError>
    ensures { IfOk result (λ copy. copy ≡ part_of v.now step) }
{
    match part(v, step) {
        Some(part) => copy_value(alloc, part),
        None => Ok(Value::Number(0)),
    }
}

/// The object one step further in.
pub fn inside(mut o: Object, step: PathStep) -> Result<Object, AllocError>
    ensures { IfOk result (λ found. found ≡ inner o step) }
{
    o.path.push(step)?;
    Ok(o)
}
