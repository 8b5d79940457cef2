ghost use Rattle.std.specs.Prelude.{◌≡◌, ◌<◌, ◌≤◌, ◌-◌, IfOk, slice_get, MatchOption, ◌+ℤ◌};
ghost use Rattle.c_values.specs.Numbers.{wrapped};
ghost use Rattle.c_meaning.specs.Charge.{charge_of as charge_in};
ghost use Rattle.c_meaning.specs.States.{padded};
ghost use Rattle.c_meaning.specs.Rules.{Body, Adjusts, Elsewhere, shifted as shifted_in, adjusted as adjusted_in};
ghost use Rattle.c_meaning.specs.Start.{setting_of, callee_in};
ghost use Rattle.c_state.specs.Seen.{Unseen, walking};
ghost use Rattle.c_interp_acts.specs.Going.{Less, stands, CallsFrom};

use crate::machine::Machine;
use c_charge::charge_of;
use c_interp_steps::{Now, Pending, ValueWork, after_paying, call_cost, enter_items};
use c_meaning::SourceEnd;
use c_program::{AdjustDef, FunctionBody, Program, Target};
use c_types::{FunTy, IntTy, Ty};
use c_values::{Parts, Value, copy_value, number, wrap};
use std::alloc::{AllocError, Global};

/// The same values.
fn copies(alloc: Global, values: &[Value]) -> Result<Parts<Value>, AllocError>
    ensures { IfOk result (λ copy. copy ≡ values.now) }
{
    let mut copy = Parts::new(alloc);
    for value in values {
        copy.push(copy_value(alloc, value)?)?;
    }
    Ok(copy)
}

/// The values, filled with 0 to a count.
fn filled(mut values: Parts<Value>, count: usize) -> Result<Parts<Value>, AllocError>
    ensures { IfOk result (λ all. all ≡ padded count values) }
{
    let missing = count.saturating_sub(values.as_slice().len());
    for _more in 0..missing {
        values.push(Value::Number(0))?;
    }
    Ok(values)
}

/// What an active call is charged with, where a `u64` holds it for certain.
fn charge(p: &Program, target: Target) -> Result<u64, AllocError>
    ensures { IfOk result (λ charge. charge ≡ charge_in p.now target) }
{
    match charge_of(p, target) {
        u64::MAX => Err(AllocError),
        charge => Ok(charge),
    }
}

/// A call of a function that is defined: it becomes active, and its block pays a unit.
fn call_body<'a>(
    alloc: Global,
    p: &'a Program,
    target: Target,
    callee: (&FunTy, &'a FunctionBody),
    arguments: Parts<Value>,
    machine: &mut Machine<'a>,
) -> Result<Now<'a>, AllocError>
    requires left { machine.old.left < 18446744073709551615 }
    requires callee { callee_in p.now target ≡ Body callee.0.now callee.1.now }
    ensures same { IfOk result (λ n. (h : Unseen) → stands (setting_of p.now) n machine.new (walking target h) ≡ stands (setting_of p.now) (Now.Call target arguments) machine.old h) }
    ensures less { IfOk result (λ n. Less (Now.Call target arguments) machine.old n machine.new) }
    ensures left { machine.new.left ≤ machine.old.left }
{
    let (f, body) = callee;
    let charge = charge(p, target)?;
    let given = arguments.as_slice();
    let (own, rest) = given.split_at(f.params.len().min(given.len()));
    let locals = filled(copies(alloc, own)?, body.locals.len())?;
    let extras = copies(alloc, rest)?;
    machine.store.open(target, charge, locals, extras)?;
    let Some(left) = after_paying(1, machine.left) else {
        return Ok(Now::Stopped(SourceEnd::Running));
    };
    machine.left = left;
    machine.stack.push(Pending::Leave(f.result))?;
    let next = machine.put(enter_items(body.block.as_slice()))?;
    Ok(next)
}

/// The sum of two numbers as far as a type of 64 bits at most keeps it.
fn sum(int: IntTy, a: i128, b: i128) -> i128
    ensures { wrapped int result ≡ wrapped int (a +ℤ b) }
{
    a.wrapping_add(b)
}

/// A value with a number added in its type. Only integers are changed.
fn shifted(ty: Option<Ty>, amount: i32, v: Value) -> Value
    ensures { result ≡ shifted_in ty amount v }
{
    match ty {
        Some(Ty::Int(int)) => Value::Number(wrap(int, sum(int, number(&v), amount as i128))),
        None
        | Some(Ty::Void)
        | Some(Ty::Ptr(_))
        | Some(Ty::Fun(_))
        | Some(Ty::Struct(_))
        | Some(Ty::Array(_, _)) => v,
    }
}

fn parameter_type(f: &FunTy, at: usize) -> Option<Ty>
    ensures { result ≡ slice_get f.now.params at }
{
    f.params.as_slice().get(at).copied()
}

/// The arguments with the number of an adjustor added to the one that it changes.
#[tactic(auto, using(crate::proofs::MachineLaws::set_beyond))]
fn adjusted(f: &FunTy, a: &AdjustDef, mut arguments: Parts<Value>) -> Parts<Value>
    ensures { result ≡ adjusted_in f.now a.now arguments }
{
    let at = a.parameter as usize;
    if at >= arguments.as_slice().len() {
        return arguments;
    }
    let old = arguments.replace(at, Value::Null);
    arguments.set(at, shifted(parameter_type(f, at), a.amount, old));
    arguments
}

/// A call of an adjustor, which pays before it is active: its target is called in its place.
fn call_adjustor<'a>(
    alloc: Global,
    p: &'a Program,
    target: Target,
    callee: (&FunTy, &AdjustDef),
    arguments: Parts<Value>,
    machine: &mut Machine<'a>,
) -> Result<Now<'a>, AllocError>
    requires left { machine.old.left < 18446744073709551615 }
    requires callee { callee_in p.now target ≡ Adjusts callee.0.now callee.1.now }
    ensures same { IfOk result (λ n. CallsFrom (setting_of p.now) target arguments machine.old n machine.new) }
    ensures less { IfOk result (λ n. Less (Now.Call target arguments) machine.old n machine.new) }
    ensures left { machine.new.left ≤ machine.old.left }
{
    let (f, a) = callee;
    let cost = call_cost(arguments.as_slice().len());
    let Some(left) = after_paying(cost, machine.left) else {
        return Ok(Now::Stopped(SourceEnd::Running));
    };
    machine.left = left;
    let charge = charge(p, target)?;
    let locals = Parts::new(alloc);
    let extras = Parts::new(alloc);
    machine.store.open(target, charge, locals, extras)?;
    machine
        .stack
        .push(Pending::Value(ValueWork::LeaveAdjustor))?;
    Ok(Now::Call(a.target, adjusted(f, a, arguments)))
}

/// The type and the definition of a function that the program defines.
#[tactic(auto, unfolding(c_meaning::specs::Start::callee_in))]
fn body_of<'a>(p: &'a Program, k: u32) -> Option<(&'a FunTy, &'a FunctionBody)>
    ensures { MatchOption result (callee_in p.now (Target.Function k) ≡ Elsewhere) (λ callee. callee_in p.now (Target.Function k) ≡ Body callee.0.now callee.1.now) }
{
    let definition = p.functions.get(k as usize)?;
    let f = p.types.funs.get(definition.ty as usize)?;
    let body = definition.body.as_ref()?;
    Some((f, body))
}

/// The type and the definition of an adjustor that the program defines.
#[tactic(auto, unfolding(c_meaning::specs::Start::callee_in))]
fn adjustor_of<'a>(p: &'a Program, k: u32) -> Option<(&'a FunTy, &'a AdjustDef)>
    ensures { MatchOption result (callee_in p.now (Target.Adjustor k) ≡ Elsewhere) (λ callee. callee_in p.now (Target.Adjustor k) ≡ Adjusts callee.0.now callee.1.now) }
{
    let a = p.adjustors.get(k as usize)?;
    let f = p.types.funs.get(a.ty as usize)?;
    Some((f, a))
}

/// A call of a target with its arguments. A call of what isn't in the program stops the run.
pub fn call<'a>(
    alloc: Global,
    p: &'a Program,
    target: Target,
    arguments: Parts<Value>,
    machine: &mut Machine<'a>,
) -> Result<Now<'a>, AllocError>
    requires { machine.old.left < 18446744073709551615 }
    ensures same { IfOk result (λ n. CallsFrom (setting_of p.now) target arguments machine.old n machine.new) }
    ensures less { IfOk result (λ n. Less (Now.Call target arguments) machine.old n machine.new) }
    ensures left { machine.new.left ≤ machine.old.left }
{
    match target {
        Target::Function(k) => match body_of(p, k) {
            Some(callee) => {
                let next = call_body(alloc, p, target, callee, arguments, machine)?;
                Ok(next)
            }
            None => Ok(Now::Stopped(SourceEnd::Trap(0))),
        },
        Target::Adjustor(k) => match adjustor_of(p, k) {
            Some(callee) => {
                let next = call_adjustor(alloc, p, target, callee, arguments, machine)?;
                Ok(next)
            }
            None => Ok(Now::Stopped(SourceEnd::Trap(0))),
        },
    }
}
