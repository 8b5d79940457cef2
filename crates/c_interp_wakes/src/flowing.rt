ghost use Rattle.std.specs.Prelude.{◌≤◌, Some, None};
ghost use Rattle.c_meaning.specs.Rules.{then_run, again};
ghost use Rattle.c_interp_steps.specs.Parts.{items_of, loop_of};
ghost use Rattle.c_interp_steps.specs.Rests.{flow_of, flow_rest, step_of};
ghost use Rattle.c_interp_steps.specs.Stack.{turn_load};
ghost use Rattle.c_interp_steps.specs.Goes.{GivesFlow};

use c_interp_steps::{Ending, FlowWork, Loop, Now, Turn, enter_declares, enter_items, enter_step};
use c_program::{TypedExpr, TypedItem, TypedStmt};

/// The rest of a block goes on where the item before it ended normally.
fn after_item<'a>(items: &'a [TypedItem], ending: Ending) -> Turn<'a>
    ensures gives { GivesFlow (λ m. then_run (items_of m items.now) (flow_of ending)) result }
    ensures within { turn_load result ≤ 12 }
{
    match ending {
        Ending::Normal => enter_items(items),
        Ending::Broke => Turn::Go(Now::Ended(Ending::Broke)),
        Ending::Continued => Turn::Go(Now::Ended(Ending::Continued)),
        Ending::Gave(v) => Turn::Go(Now::Ended(Ending::Gave(v))),
    }
}

/// A loop goes on after its body, unless the body left it.
fn after_body<'a>(looped: Loop<'a>, ending: Ending) -> Turn<'a>
    ensures gives { GivesFlow (λ m. again (step_of m looped.entry) (flow_of ending)) result }
    ensures within { turn_load result ≤ 12 }
{
    match ending {
        Ending::Normal | Ending::Continued => enter_step(looped),
        Ending::Broke => Turn::Go(Now::Ended(Ending::Normal)),
        Ending::Gave(v) => Turn::Go(Now::Ended(Ending::Gave(v))),
    }
}

/// `do` goes on to its condition after the first turn of its body, unless the body left it.
fn after_first<'a>(test: &'a TypedExpr, body: &'a TypedStmt, ending: Ending) -> Turn<'a>
    ensures gives { GivesFlow (λ m. again (loop_of m (Some test.now) None body.now) (flow_of ending)) result }
    ensures within { turn_load result ≤ 12 }
{
    match ending {
        Ending::Normal | Ending::Continued => Turn::Go(Now::Loop(Loop {
            test: Some(test),
            step: None,
            body,
        })),
        Ending::Broke => Turn::Go(Now::Ended(Ending::Normal)),
        Ending::Gave(v) => Turn::Go(Now::Ended(Ending::Gave(v))),
    }
}

/// A statement's end goes to work that ends another.
pub fn wake_flow<'a>(work: FlowWork<'a>, ending: Ending) -> Turn<'a>
    ensures gives { GivesFlow (λ m. flow_rest m work.entry (flow_of ending)) result }
    ensures within { turn_load result ≤ 12 }
{
    match work {
        FlowWork::Items(items) => after_item(items, ending),
        FlowWork::Declares(declares) => enter_declares(declares),
        FlowWork::Begin(looped) => Turn::Go(Now::Loop(looped)),
        FlowWork::Again(looped) => after_body(looped, ending),
        FlowWork::Do(test, body) => after_first(test, body, ending),
    }
}
