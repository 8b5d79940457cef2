ghost use Rattle.std.specs.Prelude.{◌≡◌, ◌≤◌, pos};
ghost use Rattle.c_values.specs.declared.value.Value.TheVariants as value;
ghost use Rattle.c_values.specs.Numbers.{wrapped};
ghost use Rattle.c_interp_steps.specs.declared.work.Pending.TheVariants as wait;
ghost use Rattle.c_interp_steps.specs.declared.work.Now.TheVariants as now;
ghost use Rattle.c_interp_steps.specs.declared.work.Turn.TheVariants as turn;
ghost use Rattle.c_interp_steps.specs.Parts.{paid_value};
ghost use Rattle.c_interp_steps.specs.Rests.{arguments_of};
ghost use Rattle.c_interp_steps.specs.Stack.{turn_load};
ghost use Rattle.c_interp_steps.specs.Goes.{GivesValue};

use crate::work::{Called, Now, Pending, Turn, UseWork, ValueWork};
use c_program::{Place, TypedExpr};
use c_types::IntTy;
use c_values::{Parts, Value, wrap};
use std::alloc::Global;

/// The next argument of a call, or the call where all are there.
pub fn arguments<'a>(called: Called, done: Parts<Value>, rest: &'a [TypedExpr]) -> Turn<'a>
    ensures gives { GivesValue (λ m. arguments_of m called done rest.now) result }
    ensures within { turn_load result ≤ 11 }
{
    match rest.split_first() {
        Some((e, rest)) => value_then(ValueWork::Arguments(called, done, rest), e),
        None => Turn::Go(Now::Calling(called, done)),
    }
}

fn value_then<'a>(work: ValueWork<'a>, e: &'a TypedExpr) -> Turn<'a>
    ensures { result ≡ turn.Await (wait.Value work.entry) (now.Value e.entry) }
{
    Turn::Await(Pending::Value(work), Now::Value(e))
}

fn place_then<'a>(work: UseWork<'a>, p: &'a Place) -> Turn<'a>
    ensures { result ≡ turn.Await (wait.Use work.entry) (now.Place p.entry) }
{
    Turn::Await(Pending::Use(work), Now::Place(p))
}

/// A literal's value in its type.
fn constant(ty: IntTy, n: u64) -> Value
    ensures { result ≡ value.Number (wrapped ty (pos n)) }
{
    Value::Number(wrap(ty, n as i128))
}

fn character(z: i32) -> Value
    ensures { result ≡ value.Number z }
{
    Value::Number(z as i128)
}

/// Goes into an expression, whose units are paid.
pub fn enter_value<'a>(alloc: Global, e: &'a TypedExpr) -> Turn<'a>
    ensures gives { GivesValue (λ m. paid_value m e.now) result }
    ensures within { turn_load result ≤ 15 }
{
    match e {
        TypedExpr::Number(i, n) => Turn::Go(Now::Got(constant(*i, *n))),
        TypedExpr::Char(z) => Turn::Go(Now::Got(character(*z))),
        TypedExpr::Null(_) => Turn::Go(Now::Got(Value::Null)),
        TypedExpr::Function(_, t) => Turn::Go(Now::Got(Value::Function(*t))),
        TypedExpr::VaArg(i) => Turn::Go(Now::Extra(*i)),
        TypedExpr::Load(_, p) => Turn::Await(Pending::Use(UseWork::Load), Now::Paid(p.get())),
        TypedExpr::Address(_, p) => place_then(UseWork::Address, p.get()),
        TypedExpr::Same(a) => Turn::Go(Now::Value(a.get())),
        TypedExpr::Negate(i, a) => value_then(ValueWork::Negate(*i), a.get()),
        TypedExpr::Complement(i, a) => value_then(ValueWork::Complement(*i), a.get()),
        TypedExpr::Not(a) => value_then(ValueWork::Not, a.get()),
        TypedExpr::Convert(i, a) => value_then(ValueWork::Convert(*i), a.get()),
        TypedExpr::Binary(o, i, a, b) => {
            value_then(ValueWork::BinaryThen(*o, *i, b.get()), a.get())
        }
        TypedExpr::Compare(c, _, a, b) => {
            value_then(ValueWork::CompareThen(*c, b.get()), a.get())
        }
        TypedExpr::And(a, b) => value_then(ValueWork::AndThen(b.get()), a.get()),
        TypedExpr::Or(a, b) => value_then(ValueWork::OrThen(b.get()), a.get()),
        TypedExpr::Conditional(_, c, a, b) => {
            value_then(ValueWork::Choose(a.get(), b.get()), c.get())
        }
        TypedExpr::Assign(_, p, a) => place_then(UseWork::AssignThen(a.get()), p.get()),
        TypedExpr::Update(o, i, j, p, a) => {
            place_then(UseWork::UpdateThen(*o, *i, *j, a.get()), p.get())
        }
        TypedExpr::Before(i, up, p) => place_then(UseWork::Before(*i, *up), p.get()),
        TypedExpr::After(i, up, p) => place_then(UseWork::After(*i, *up), p.get()),
        TypedExpr::Call(_, t, args) => {
            arguments(Called::Named(*t), Parts::new(alloc), args.as_slice())
        }
        TypedExpr::CallPointer(_, _, f, args) => {
            value_then(ValueWork::CallThen(args.as_slice()), f.get())
        }
        TypedExpr::CallService(s, args) => {
            arguments(Called::Service(*s), Parts::new(alloc), args.as_slice())
        }
        TypedExpr::FieldOf(_, a, _, f) => value_then(ValueWork::FieldOf(*f), a.get()),
        TypedExpr::ElementOf(_, a, i, n) => {
            value_then(ValueWork::ElementThen(i.get(), *n), a.get())
        }
    }
}
