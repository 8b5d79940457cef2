ghost use Rattle.std.specs.Prelude.{◌≡◌, ◌≤◌, option_copied};
ghost use Rattle.c_program.specs.declared.statements.TypedStmt.TheVariants as statement;
ghost use Rattle.c_interp_steps.specs.declared.work.Pending.TheVariants as wait;
ghost use Rattle.c_interp_steps.specs.declared.work.Now.TheVariants as now;
ghost use Rattle.c_interp_steps.specs.declared.work.Turn.TheVariants as turn;
ghost use Rattle.c_interp_steps.specs.Parts.{paid_statement, items_of, declares_of, begin_of};
ghost use Rattle.c_interp_steps.specs.Rests.{loop_in, step_of};
ghost use Rattle.c_interp_steps.specs.Stack.{turn_load};
ghost use Rattle.c_interp_steps.specs.Goes.{GivesFlow};

use crate::work::{Ending, FlowWork, Loop, Now, Pending, RunWork, Turn};
use c_program::{Declared, ForBegin, TypedExpr, TypedItem, TypedStmt};
use c_values::Value;
use hx_words::Boxed;

/// The first of some items, and then the others.
pub fn enter_items<'a>(items: &'a [TypedItem]) -> Turn<'a>
    ensures gives { GivesFlow (λ m. items_of m items.now) result }
    ensures within { turn_load result ≤ 10 }
{
    match items.split_first() {
        Some((first, rest)) => {
            Turn::Await(Pending::Flow(FlowWork::Items(rest)), Now::Item(first))
        }
        None => Turn::Go(Now::Ended(Ending::Normal)),
    }
}

/// The first of some declarators, and then the others.
pub fn enter_declares<'a>(declares: &'a [Declared]) -> Turn<'a>
    ensures gives { GivesFlow (λ m. declares_of m declares.now) result }
    ensures within { turn_load result ≤ 10 }
{
    match declares.split_first() {
        Some((first, rest)) => {
            Turn::Await(Pending::Flow(FlowWork::Declares(rest)), Now::Declare(first))
        }
        None => Turn::Go(Now::Ended(Ending::Normal)),
    }
}

/// What stands before the first `;` of a `for`.
pub fn enter_begin<'a>(begin: &'a ForBegin) -> Turn<'a>
    ensures gives { GivesFlow (λ m. begin_of m begin.now) result }
    ensures within { turn_load result ≤ 10 }
{
    match begin {
        ForBegin::Locals(declares) => enter_declares(declares.as_slice()),
        ForBegin::Effect(e) => Turn::Await(Pending::Run(RunWork::Discard), Now::Value(e.get())),
        ForBegin::Nothing => Turn::Go(Now::Ended(Ending::Normal)),
    }
}

fn part(e: &Option<Boxed<TypedExpr>>) -> Option<&TypedExpr>
    ensures { option_copied result ≡ e.now }
{
    match e {
        Some(e) => Some(e.get()),
        None => None,
    }
}

/// A loop from its condition on.
pub fn enter_loop<'a>(looped: Loop<'a>) -> Turn<'a>
    ensures gives { GivesFlow (λ m. loop_in m looped.entry) result }
    ensures within { turn_load result ≤ 3 }
{
    match looped.test {
        Some(test) => Turn::Await(Pending::Run(RunWork::LoopTest(looped)), Now::Value(test)),
        None => Turn::Await(
            Pending::Flow(FlowWork::Again(looped)),
            Now::Statement(looped.body),
        ),
    }
}

/// A loop's step, and then the loop.
pub fn enter_step<'a>(looped: Loop<'a>) -> Turn<'a>
    ensures gives { GivesFlow (λ m. step_of m looped.entry) result }
    ensures within { turn_load result ≤ 4 }
{
    match looped.step {
        Some(step) => Turn::Await(Pending::Run(RunWork::LoopStep(looped)), Now::Value(step)),
        None => Turn::Go(Now::Loop(looped)),
    }
}

fn value_then<'a>(work: RunWork<'a>, e: &'a TypedExpr) -> Turn<'a>
    ensures { result ≡ turn.Await (wait.Run work.entry) (now.Value e.entry) }
{
    Turn::Await(Pending::Run(work), Now::Value(e))
}

/// What a `return` gives, which is 0 where it has no value.
fn enter_return<'a>(value: &'a Option<Boxed<TypedExpr>>) -> Turn<'a>
    ensures gives { GivesFlow (λ m. paid_statement m (statement.Return value.now)) result }
    ensures within { turn_load result ≤ 10 }
{
    match value {
        Some(e) => value_then(RunWork::Return, e.get()),
        None => Turn::Go(Now::Ended(Ending::Gave(Value::Number(0)))),
    }
}

/// Goes into a statement, whose unit is paid.
pub fn enter_statement<'a>(x: &'a TypedStmt) -> Turn<'a>
    ensures gives { GivesFlow (λ m. paid_statement m x.now) result }
    ensures within { turn_load result ≤ 14 }
{
    match x {
        TypedStmt::Block(items) => enter_items(items.as_slice()),
        TypedStmt::Empty => Turn::Go(Now::Ended(Ending::Normal)),
        TypedStmt::Effect(e) => value_then(RunWork::Discard, e.get()),
        TypedStmt::Break => Turn::Go(Now::Ended(Ending::Broke)),
        TypedStmt::Continue => Turn::Go(Now::Ended(Ending::Continued)),
        TypedStmt::If(c, x) => value_then(RunWork::If(x.get()), c.get()),
        TypedStmt::IfElse(c, x, y) => value_then(RunWork::IfElse(x.get(), y.get()), c.get()),
        TypedStmt::While(c, x) => Turn::Go(Now::Loop(Loop {
            test: Some(c.get()),
            step: None,
            body: x.get(),
        })),
        TypedStmt::Do(x, c) => {
            let body = x.get();
            let work = FlowWork::Do(c.get(), body);
            Turn::Await(Pending::Flow(work), Now::Statement(body))
        }
        TypedStmt::For(begin, c, n, x) => {
            let looped = Loop {
                test: part(c),
                step: part(n),
                body: x.get(),
            };
            Turn::Await(Pending::Flow(FlowWork::Begin(looped)), Now::Begin(begin))
        }
        TypedStmt::Return(value) => enter_return(value),
        TypedStmt::VaStart => Turn::Go(Now::Extras(true)),
        TypedStmt::VaEnd => Turn::Go(Now::Extras(false)),
    }
}
