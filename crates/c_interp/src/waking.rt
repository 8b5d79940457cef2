//! Steps in which what waits has what it waited for.
ghost use Rattle.std.specs.Prelude.{◌≡◌, ◌+◌, ◌*◌, ◌≤◌, IfOk, length};
ghost use Rattle.c_values.specs.Numbers.{stepped as stepped_in};
ghost use Rattle.c_values.specs.Objects.{number_in};
ghost use Rattle.c_meaning.specs.Rules.{Setting, given as given_in};
ghost use Rattle.c_meaning.specs.Start.{setting_of};
ghost use Rattle.c_interp_steps.specs.Rests.{flow_of, value_rest, find_rest, run_rest, place_rest, use_rest, flow_rest, leave_rest};
ghost use Rattle.c_interp_steps.specs.Stack.{finish, resume};
ghost use Rattle.c_state.specs.Seen.{Unseen, state_of};
ghost use Rattle.c_interp_acts.specs.Going.{Same, Less, stands, measure};
ghost use Rattle.c_interp.specs.Walked.{Walks};

use c_interp_acts::{Machine, low_byte};
use c_interp_steps::{
    Called, Ending, FindWork, FlowWork, Now, Pending, PlaceWork, RunWork, UseWork, ValueWork,
};
use c_interp_wakes::{target, wake_find, wake_flow, wake_place, wake_run, wake_value};
use c_meaning::SourceEnd;
use c_program::Program;
use c_types::{IntTy, Ty, Types};
use c_values::{Object, Parts, Value, number, step, zero};
use std::alloc::{AllocError, Global};

/// A value goes to work that gives a value.
fn got_value<'a>(
    alloc: Global,
    work: ValueWork<'a>,
    v: Value,
    machine: &mut Machine<'a>,
) -> Result<Now<'a>, AllocError>
    ensures same { IfOk result (λ n. (m : Setting) (h : Unseen) → stands m n machine.new h ≡ finish (value_rest m work.entry v (state_of machine.old.store h) machine.old.left) (resume m machine.old.stack.items).value) }
    ensures less { IfOk result (λ n. measure n machine.new ≤ 16 * machine.old.left + 3 * length machine.old.stack.items + 12) }
    ensures left { machine.new.left ≡ machine.old.left }
{
    let turn = wake_value(alloc, work, v)?;
    let next = machine.put(turn)?;
    Ok(next)
}

/// A value goes to work that gives an object.
fn got_find<'a>(work: FindWork, v: Value, machine: &mut Machine<'a>) -> Result<Now<'a>, AllocError>
    ensures same { IfOk result (λ n. (m : Setting) (h : Unseen) → stands m n machine.new h ≡ finish (find_rest work v (state_of machine.old.store h) machine.old.left) (resume m machine.old.stack.items).object) }
    ensures less { IfOk result (λ n. measure n machine.new ≤ 16 * machine.old.left + 3 * length machine.old.stack.items + 12) }
    ensures left { machine.new.left ≡ machine.old.left }
{
    let turn = wake_find(work, v)?;
    let next = machine.put(turn)?;
    Ok(next)
}

/// A value goes to work that gives a statement's end.
fn got_run<'a>(
    work: RunWork<'a>,
    v: Value,
    machine: &mut Machine<'a>,
) -> Result<Now<'a>, AllocError>
    ensures same { IfOk result (λ n. (m : Setting) (h : Unseen) → stands m n machine.new h ≡ finish (run_rest m work.entry v (state_of machine.old.store h) machine.old.left) (resume m machine.old.stack.items).flow) }
    ensures less { IfOk result (λ n. measure n machine.new ≤ 16 * machine.old.left + 3 * length machine.old.stack.items + 12) }
    ensures left { machine.new.left ≡ machine.old.left }
{
    let turn = wake_run(work, v);
    let next = machine.put(turn)?;
    Ok(next)
}

/// What waits for something else stops the run; no work does.
fn stopped<'a>(_stray: Pending<'a>) -> Now<'a>
    ensures { result ≡ Now.Stopped (SourceEnd.Trap 0) }
{
    Now::Stopped(SourceEnd::Trap(0))
}

/// A value goes to what waits; where nothing waits, it is that of `main`.
pub(crate) fn got<'a>(
    alloc: Global,
    v: Value,
    machine: &mut Machine<'a>,
) -> Result<Now<'a>, AllocError>
    ensures same { IfOk result (λ n. (m : Setting) → Walks m (Now.Got v) machine.old n machine.new) }
    ensures less { IfOk result (λ n. Less (Now.Got v) machine.old n machine.new) }
    ensures left { machine.new.left ≤ machine.old.left }
{
    let Some(pending) = machine.stack.pop() else {
        return Ok(Now::Stopped(SourceEnd::Exit(low_byte(&v))));
    };
    match pending {
        Pending::Back => Ok(Now::Got(v)),
        Pending::Value(work) => got_value(alloc, work, v, machine),
        Pending::Find(work) => got_find(work, v, machine),
        Pending::Run(work) => got_run(work, v, machine),
        stray => Ok(stopped(stray)),
    }
}

/// The number one above a value's in a type, or one below.
fn stepped(int: IntTy, up: bool, v: &Value) -> Value
    ensures { result ≡ Value.Number (stepped_in int up (number_in v.now)) }
{
    Value::Number(step(int, up, number(v)))
}

/// An object goes to work that gives a value.
fn use_object<'a>(
    alloc: Global,
    work: UseWork<'a>,
    o: Object,
    machine: &mut Machine<'a>,
) -> Result<Now<'a>, AllocError>
    ensures same { IfOk result (λ n. (m : Setting) (h : Unseen) → stands m n machine.new h ≡ finish (use_rest m work.entry o (state_of machine.old.store h) machine.old.left) (resume m machine.old.stack.items).value) }
    ensures less { IfOk result (λ n. measure n machine.new ≤ 16 * machine.old.left + 3 * length machine.old.stack.items + 12) }
    ensures left { machine.new.left ≡ machine.old.left }
{
    match work {
        UseWork::Load => {
            let v = machine.store.read(alloc, &o)?;
            Ok(Now::Got(v))
        }
        UseWork::Address => Ok(Now::Got(Value::Pointer(o))),
        UseWork::Before(int, up) => {
            let old = machine.store.read(alloc, &o)?;
            Ok(Now::Store(o, stepped(int, up, &old)))
        }
        UseWork::After(int, up) => {
            let old = machine.store.read(alloc, &o)?;
            machine.store.write(&o, stepped(int, up, &old));
            Ok(Now::Got(old))
        }
        UseWork::AssignThen(e) => {
            machine.stack.push(Pending::Value(ValueWork::StoreAt(o)))?;
            Ok(Now::Value(e))
        }
        UseWork::UpdateThen(op, i, j, e) => {
            let old = machine.store.read(alloc, &o)?;
            let work = ValueWork::UpdateAt(op, i, j, o, old);
            machine.stack.push(Pending::Value(work))?;
            Ok(Now::Value(e))
        }
    }
}

/// An object goes to work that gives an object.
fn found_place<'a>(
    work: PlaceWork<'a>,
    o: Object,
    machine: &mut Machine<'a>,
) -> Result<Now<'a>, AllocError>
    ensures same { IfOk result (λ n. (m : Setting) (h : Unseen) → stands m n machine.new h ≡ finish (place_rest m work.entry o (state_of machine.old.store h) machine.old.left) (resume m machine.old.stack.items).object) }
    ensures less { IfOk result (λ n. measure n machine.new ≤ 16 * machine.old.left + 3 * length machine.old.stack.items + 12) }
    ensures left { machine.new.left ≡ machine.old.left }
{
    let turn = wake_place(work, o)?;
    let next = machine.put(turn)?;
    Ok(next)
}

/// An object goes to what waits.
pub(crate) fn found<'a>(
    alloc: Global,
    o: Object,
    machine: &mut Machine<'a>,
) -> Result<Now<'a>, AllocError>
    ensures same { IfOk result (λ n. (m : Setting) → Same m (Now.Found o) machine.old n machine.new) }
    ensures less { IfOk result (λ n. Less (Now.Found o) machine.old n machine.new) }
    ensures left { machine.new.left ≤ machine.old.left }
{
    let Some(pending) = machine.stack.pop() else {
        return Ok(Now::Stopped(SourceEnd::Trap(0)));
    };
    match pending {
        Pending::Place(work) => found_place(work, o, machine),
        Pending::Use(work) => use_object(alloc, work, o, machine),
        stray => Ok(stopped(stray)),
    }
}

/// What a body's end gives: the zero of the result's type where it gave nothing.
fn given(alloc: Global, types: &Types, ty: Ty, ending: Ending) -> Result<Value, AllocError>
    ensures { IfOk result (λ v. v ≡ given_in types.now ty (flow_of ending)) }
{
    match ending {
        Ending::Gave(v) => Ok(v),
        Ending::Normal | Ending::Broke | Ending::Continued => {
            let v = zero(alloc, types, ty)?;
            Ok(v)
        }
    }
}

/// A statement's end goes to work that gives another.
fn ended_flow<'a>(
    work: FlowWork<'a>,
    ending: Ending,
    machine: &mut Machine<'a>,
) -> Result<Now<'a>, AllocError>
    ensures same { IfOk result (λ n. (m : Setting) (h : Unseen) → stands m n machine.new h ≡ finish (flow_rest m work.entry (flow_of ending) (state_of machine.old.store h) machine.old.left) (resume m machine.old.stack.items).flow) }
    ensures less { IfOk result (λ n. measure n machine.new ≤ 16 * machine.old.left + 3 * length machine.old.stack.items + 12) }
    ensures left { machine.new.left ≡ machine.old.left }
{
    let turn = wake_flow(work, ending);
    let next = machine.put(turn)?;
    Ok(next)
}

/// A body's end gives a value to the call's caller.
fn ended_body<'a>(
    alloc: Global,
    p: &Program,
    ty: Ty,
    ending: Ending,
    machine: &mut Machine<'a>,
) -> Result<Now<'a>, AllocError>
    ensures same { IfOk result (λ n. (h : Unseen) → stands (setting_of p.now) n machine.new h ≡ finish (leave_rest (setting_of p.now) ty (flow_of ending) (state_of machine.old.store h) machine.old.left) (resume (setting_of p.now) machine.old.stack.items).value) }
    ensures less { IfOk result (λ n. measure n machine.new ≤ 16 * machine.old.left + 3 * length machine.old.stack.items + 12) }
    ensures left { machine.new.left ≡ machine.old.left }
{
    let v = given(alloc, &p.types, ty, ending)?;
    machine.store.close();
    Ok(Now::Got(v))
}

/// A statement's end goes to what waits.
pub(crate) fn ended<'a>(
    alloc: Global,
    p: &Program,
    ending: Ending,
    machine: &mut Machine<'a>,
) -> Result<Now<'a>, AllocError>
    ensures same { IfOk result (λ n. Same (setting_of p.now) (Now.Ended ending) machine.old n machine.new) }
    ensures less { IfOk result (λ n. Less (Now.Ended ending) machine.old n machine.new) }
    ensures left { machine.new.left ≤ machine.old.left }
{
    let Some(pending) = machine.stack.pop() else {
        return Ok(Now::Stopped(SourceEnd::Trap(0)));
    };
    match pending {
        Pending::Flow(work) => ended_flow(work, ending, machine),
        Pending::Leave(ty) => ended_body(alloc, p, ty, ending, machine),
        stray => Ok(stopped(stray)),
    }
}

/// A call through a pointer whose arguments are there; one through null is a trap.
pub(crate) fn call_pointed<'a>(
    v: &Value,
    arguments: Parts<Value>,
    machine: &mut Machine<'a>,
) -> Result<Now<'a>, AllocError>
    ensures same { IfOk result (λ n. (m : Setting) → Same m (Now.Calling (Called.Pointed v.now) arguments) machine.old n machine.new) }
    ensures less { IfOk result (λ n. Less (Now.Calling (Called.Pointed v.now) arguments) machine.old n machine.new) }
    ensures left { machine.new.left ≤ machine.old.left }
{
    match target(v) {
        Some(t) => {
            machine.stack.push(Pending::Back)?;
            Ok(Now::Call(t, arguments))
        }
        None => Ok(Now::Stopped(SourceEnd::Trap(242))),
    }
}
