//! Steps that read or change the state.
ghost use Rattle.std.specs.Prelude.{◌≡◌, IfOk};
ghost use Rattle.c_meaning.specs.Rules.{Setting};
ghost use Rattle.c_interp_acts.specs.Going.{Same, Less};

use crate::machine::Machine;
use c_interp_steps::{Called, Ending, Now, Pending};
use c_meaning::SourceEnd;
use c_program::Target;
use c_types::IntTy;
use c_values::{Object, Parts, Value, copy_value};
use std::alloc::{AllocError, Global};

/// The next extra argument.
pub fn extra<'a>(int: IntTy, machine: &mut Machine<'a>) -> Now<'a>
    ensures same { (m : Setting) → Same m (Now.Extra int) machine.old result machine.new }
    ensures less { Less (Now.Extra int) machine.old result machine.new }
    ensures left { machine.new.left ≡ machine.old.left }
{
    match machine.store.next_extra(int) {
        Some(z) => Now::Got(Value::Number(z)),
        None => Now::Stopped(SourceEnd::Trap(244)),
    }
}

/// `va_start`, or that it is no longer in force.
#[tactic(auto, unfolding(c_interp_steps::specs::Stack::total, c_interp_steps::specs::Stack::finish))]
pub fn extras<'a>(on: bool, machine: &mut Machine<'a>) -> Now<'a>
    ensures same { (m : Setting) → Same m (Now.Extras on) machine.old result machine.new }
    ensures less { Less (Now.Extras on) machine.old result machine.new }
    ensures left { machine.new.left ≡ machine.old.left }
{
    if on {
        machine.store.begin_extras();
        Now::Ended(Ending::Normal)
    } else {
        machine.store.end_extras();
        Now::Ended(Ending::Normal)
    }
}

/// A value is stored in an object, and given.
#[tactic(auto, unfolding(c_interp_steps::specs::Stack::total, c_interp_steps::specs::Stack::finish))]
pub fn store<'a>(
    alloc: Global,
    o: &Object,
    v: Value,
    machine: &mut Machine<'a>,
) -> Result<Now<'a>, AllocError>
    ensures same { IfOk result (λ n. (m : Setting) → Same m (Now.Store o.now v) machine.old n machine.new) }
    ensures less { IfOk result (λ n. Less (Now.Store o.now v) machine.old n machine.new) }
    ensures left { machine.new.left ≡ machine.old.left }
{
    let copy = copy_value(alloc, &v)?;
    machine.store.write(o, copy);
    Ok(Now::Got(v))
}

/// A value is stored in a local of the innermost call, which ends a declarator.
#[tactic(auto, unfolding(c_interp_steps::specs::Stack::total, c_interp_steps::specs::Stack::finish))]
pub fn set_local<'a>(alloc: Global, l: u32, v: Value, machine: &mut Machine<'a>) -> Now<'a>
    ensures same { (m : Setting) → Same m (Now.SetLocal l v) machine.old result machine.new }
    ensures less { Less (Now.SetLocal l v) machine.old result machine.new }
    ensures left { machine.new.left ≡ machine.old.left }
{
    let local = machine.store.own_local(alloc, l);
    machine.store.write(&local, v);
    Now::Ended(Ending::Normal)
}

/// A local of the innermost call is found.
#[tactic(auto, unfolding(c_interp_steps::specs::Stack::total, c_interp_steps::specs::Stack::finish))]
pub fn local<'a>(alloc: Global, l: u32, machine: &Machine<'a>) -> Now<'a>
    ensures same { (m : Setting) → Same m (Now.Local l) machine.now result machine.now }
    ensures less { Less (Now.Local l) machine.now result machine.now }
{
    Now::Found(machine.store.own_local(alloc, l))
}

/// The innermost call, which an adjustor's is, ends with a value.
#[tactic(auto, unfolding(c_interp_steps::specs::Stack::total, c_interp_steps::specs::Stack::finish))]
pub fn close<'a>(v: Value, machine: &mut Machine<'a>) -> Now<'a>
    ensures same { (m : Setting) → Same m (Now.Close v) machine.old result machine.new }
    ensures less { Less (Now.Close v) machine.old result machine.new }
    ensures left { machine.new.left ≡ machine.old.left }
{
    machine.store.close();
    Now::Got(v)
}

/// A call by name whose arguments are there.
#[tactic(auto, using(c_interp_laws::proofs::StepLaws::named_goes))]
pub fn call_named<'a>(
    t: Target,
    arguments: Parts<Value>,
    machine: &mut Machine<'a>,
) -> Result<Now<'a>, AllocError>
    ensures same { IfOk result (λ n. (m : Setting) → Same m (Now.Calling (Called.Named t) arguments) machine.old n machine.new) }
    ensures less { IfOk result (λ n. Less (Now.Calling (Called.Named t) arguments) machine.old n machine.new) }
    ensures left { machine.new.left ≡ machine.old.left }
{
    machine.stack.push(Pending::Back)?;
    Ok(Now::Call(t, arguments))
}
