ghost use Rattle.std.specs.Prelude.{◌≤◌};
ghost use Rattle.c_interp_steps.specs.declared.work.RunWork.TheVariants as waits;
ghost use Rattle.c_interp_steps.specs.Rests.{run_rest};
ghost use Rattle.c_interp_steps.specs.Stack.{turn_load};
ghost use Rattle.c_interp_steps.specs.Goes.{GivesFlow};

use c_interp_steps::{Ending, FlowWork, Loop, Now, Pending, RunWork, Turn};
use c_program::TypedStmt;
use c_values::{Value, truth};

/// `if (c) x` after its condition.
fn run_if<'a>(v: &Value, x: &'a TypedStmt) -> Turn<'a>
    ensures gives { GivesFlow (λ m. run_rest m (waits.If x.entry) v.now) result }
    ensures within { turn_load result ≤ 12 }
{
    if truth(v) {
        Turn::Go(Now::Statement(x))
    } else {
        Turn::Go(Now::Ended(Ending::Normal))
    }
}

/// `if (c) x else y` after its condition.
fn run_either<'a>(v: &Value, x: &'a TypedStmt, y: &'a TypedStmt) -> Turn<'a>
    ensures gives { GivesFlow (λ m. run_rest m (waits.IfElse x.entry y.entry) v.now) result }
    ensures within { turn_load result ≤ 12 }
{
    if truth(v) {
        Turn::Go(Now::Statement(x))
    } else {
        Turn::Go(Now::Statement(y))
    }
}

/// A loop after its condition.
fn run_body<'a>(v: &Value, looped: Loop<'a>) -> Turn<'a>
    ensures gives { GivesFlow (λ m. run_rest m (waits.LoopTest looped.entry) v.now) result }
    ensures within { turn_load result ≤ 12 }
{
    if truth(v) {
        let work = FlowWork::Again(looped);
        Turn::Await(Pending::Flow(work), Now::Statement(looped.body))
    } else {
        Turn::Go(Now::Ended(Ending::Normal))
    }
}

/// A value goes to work that ends a statement.
pub fn wake_run<'a>(work: RunWork<'a>, v: Value) -> Turn<'a>
    ensures gives { GivesFlow (λ m. run_rest m work.entry v) result }
    ensures within { turn_load result ≤ 12 }
{
    match work {
        RunWork::Discard => Turn::Go(Now::Ended(Ending::Normal)),
        RunWork::SetLocal(l) => Turn::Go(Now::SetLocal(l, v)),
        RunWork::If(x) => run_if(&v, x),
        RunWork::IfElse(x, y) => run_either(&v, x, y),
        RunWork::LoopTest(looped) => run_body(&v, looped),
        RunWork::LoopStep(looped) => Turn::Go(Now::Loop(looped)),
        RunWork::Return => Turn::Go(Now::Ended(Ending::Gave(v))),
    }
}
