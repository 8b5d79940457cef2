//! Steps that pay: a part of the program is begun.
ghost use Rattle.std.specs.Prelude.{◌≤◌, ◌<◌, IfOk};
ghost use Rattle.c_meaning.specs.Rules.{Setting};
ghost use Rattle.c_meaning.specs.Start.{setting_of};
ghost use Rattle.c_interp_acts.specs.Going.{Same, Less};

use crate::machine::Machine;
use c_interp_steps::{
    Ending, Now, Pending, RunWork, after_paying, declarator_cost, enter_place, enter_statement,
    enter_value, expr_cost,
};
use c_meaning::SourceEnd;
use c_program::{Declared, Place, Program, TypedExpr, TypedItem, TypedStmt};
use c_values::zero;
use std::alloc::{AllocError, Global};

/// Begins an expression.
pub fn begin_value<'a>(
    alloc: Global,
    p: &Program,
    e: &'a TypedExpr,
    machine: &mut Machine<'a>,
) -> Result<Now<'a>, AllocError>
    requires { machine.old.left < 18446744073709551615 }
    ensures same { IfOk result (λ n. Same (setting_of p.now) (Now.Value e.entry) machine.old n machine.new) }
    ensures less { IfOk result (λ n. Less (Now.Value e.entry) machine.old n machine.new) }
    ensures left { machine.new.left ≤ machine.old.left }
{
    let Some(left) = after_paying(expr_cost(&p.types, e), machine.left) else {
        return Ok(Now::Stopped(SourceEnd::Running));
    };
    machine.left = left;
    let next = machine.put(enter_value(alloc, e))?;
    Ok(next)
}

/// Begins a place.
pub fn begin_object<'a>(
    alloc: Global,
    place: &'a Place,
    machine: &mut Machine<'a>,
) -> Result<Now<'a>, AllocError>
    requires { machine.old.left < 18446744073709551615 }
    ensures same { IfOk result (λ n. (m : Setting) → Same m (Now.Place place.entry) machine.old n machine.new) }
    ensures less { IfOk result (λ n. Less (Now.Place place.entry) machine.old n machine.new) }
    ensures left { machine.new.left ≤ machine.old.left }
{
    let Some(left) = after_paying(1, machine.left) else {
        return Ok(Now::Stopped(SourceEnd::Running));
    };
    machine.left = left;
    let next = machine.put(enter_place(alloc, place))?;
    Ok(next)
}

/// Begins a statement.
pub fn begin_statement<'a>(
    x: &'a TypedStmt,
    machine: &mut Machine<'a>,
) -> Result<Now<'a>, AllocError>
    requires { machine.old.left < 18446744073709551615 }
    ensures same { IfOk result (λ n. (m : Setting) → Same m (Now.Statement x.entry) machine.old n machine.new) }
    ensures less { IfOk result (λ n. Less (Now.Statement x.entry) machine.old n machine.new) }
    ensures left { machine.new.left ≤ machine.old.left }
{
    let Some(left) = after_paying(1, machine.left) else {
        return Ok(Now::Stopped(SourceEnd::Running));
    };
    machine.left = left;
    let next = machine.put(enter_statement(x))?;
    Ok(next)
}

/// Begins a declarator: its local is made zero, and then its initial value is evaluated and stored.
pub fn begin_declare<'a>(
    alloc: Global,
    p: &Program,
    d: &'a Declared,
    machine: &mut Machine<'a>,
) -> Result<Now<'a>, AllocError>
    requires { machine.old.left < 18446744073709551615 }
    ensures same { IfOk result (λ n. Same (setting_of p.now) (Now.Declare d.entry) machine.old n machine.new) }
    ensures less { IfOk result (λ n. Less (Now.Declare d.entry) machine.old n machine.new) }
    ensures left { machine.new.left ≤ machine.old.left }
{
    let Some(left) = after_paying(declarator_cost(&p.types, d), machine.left) else {
        return Ok(Now::Stopped(SourceEnd::Running));
    };
    machine.left = left;
    let zero = zero(alloc, &p.types, d.ty)?;
    let local = machine.store.own_local(alloc, d.local);
    machine.store.write(&local, zero);
    match &d.init {
        Some(e) => {
            machine
                .stack
                .push(Pending::Run(RunWork::SetLocal(d.local)))?;
            Ok(Now::Value(e.get()))
        }
        None => Ok(Now::Ended(Ending::Normal)),
    }
}

/// Begins an item of a block: a declarator, one of the `va_list`, or a statement.
pub fn begin_item<'a>(
    alloc: Global,
    p: &Program,
    item: &'a TypedItem,
    machine: &mut Machine<'a>,
) -> Result<Now<'a>, AllocError>
    requires { machine.old.left < 18446744073709551615 }
    ensures same { IfOk result (λ n. Same (setting_of p.now) (Now.Item item.entry) machine.old n machine.new) }
    ensures less { IfOk result (λ n. Less (Now.Item item.entry) machine.old n machine.new) }
    ensures left { machine.new.left ≤ machine.old.left }
{
    match item {
        TypedItem::Declare(d) => {
            let next = begin_declare(alloc, p, d, machine)?;
            Ok(next)
        }
        TypedItem::Stmt(x) => {
            let next = begin_statement(x.get(), machine)?;
            Ok(next)
        }
        TypedItem::VaList => {
            let Some(left) = after_paying(1, machine.left) else {
                return Ok(Now::Stopped(SourceEnd::Running));
            };
            machine.left = left;
            machine.store.end_extras();
            Ok(Now::Ended(Ending::Normal))
        }
    }
}
