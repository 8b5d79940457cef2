//! A run, step by step.
ghost use Rattle.std.specs.Prelude.{◌≡◌, ◌<◌, ◌≤◌, [], IsTrue, IfOk, OnErr, IsErrOf, List, ℕ};
ghost use Rattle.hx_words.specs.Counts.{Rose};
ghost use Rattle.c_meaning.specs.Rules.{Setting};
ghost use Rattle.c_meaning.specs.Start.{setting_of};
ghost use Rattle.c_meaning.specs.Source.{Stand, source};
ghost use Rattle.c_state.specs.Seen.{Unseen, state_of, fresh};
ghost use Rattle.c_interp_acts.specs.Going.{Less, Ties, Broke};
ghost use Rattle.c_interp.specs.Means.{Means, PutsRun, TakesRun};
ghost use Rattle.c_interp.specs.Walked.{Walks, IsNoCall};

use crate::waking::{call_pointed, ended, found, got};
use c_interp_acts::{
    Machine, MeanFail, Meant, begin_declare, begin_item, begin_object, begin_statement,
    begin_value, call, call_named, close, extra, extras, globals, local, main_of, serve, set_local,
    store,
};
use c_interp_steps::{Called, Now, enter_begin, enter_loop, enter_place};
use c_meaning::SourceEnd;
use c_program::Program;
use c_state::Store;
use c_values::{Parts, Value};
use hx_io::{Sink, Source};
use std::alloc::{AllocError, Global};

/// One step that isn't a call.
fn turn<'a>(
    alloc: Global,
    p: &'a Program,
    now: Now<'a>,
    machine: &mut Machine<'a>,
) -> Result<Now<'a>, AllocError>
    requires left { machine.old.left < 18446744073709551615 }
    requires own { IsNoCall now }
    ensures same { IfOk result (λ n. Walks (setting_of p.now) now.entry machine.old n machine.new) }
    ensures less { IfOk result (λ n. Less now.entry machine.old n machine.new) }
    ensures left { machine.new.left ≤ machine.old.left }
{
    match now {
        Now::Value(e) => begin_value(alloc, p, e, machine),
        Now::Place(place) => begin_object(alloc, place, machine),
        Now::Statement(x) => begin_statement(x, machine),
        Now::Item(item) => begin_item(alloc, p, item, machine),
        Now::Declare(d) => begin_declare(alloc, p, d, machine),
        Now::Paid(place) => machine.put(enter_place(alloc, place)),
        Now::Begin(begin) => machine.put(enter_begin(begin)),
        Now::Loop(looped) => machine.put(enter_loop(looped)),
        Now::Local(l) => Ok(local(alloc, l, machine)),
        Now::Extra(int) => Ok(extra(int, machine)),
        Now::Extras(on) => Ok(extras(on, machine)),
        Now::Store(o, v) => store(alloc, &o, v, machine),
        Now::SetLocal(l, v) => Ok(set_local(alloc, l, v, machine)),
        Now::Close(v) => Ok(close(v, machine)),
        Now::Calling(_, _) => unreachable!(),
        Now::Call(target, arguments) => call(alloc, p, target, arguments, machine),
        Now::Got(v) => got(alloc, v, machine),
        Now::Found(o) => found(alloc, o, machine),
        Now::Ended(ending) => ended(alloc, p, ending, machine),
        Now::Stopped(outcome) => Ok(Now::Stopped(outcome)),
    }
}

/// A call whose arguments are there.
fn call_out<'a, I: Source, O: Sink>(
    called: Called,
    arguments: Parts<Value>,
    machine: &mut Machine<'a>,
    input: &mut I,
    out: &mut O,
) -> Result<Now<'a>, MeanFail>
    ensures ties { IsTrue (I.tells input.old) → IfOk result (λ n. (m : Setting) (run : Stand) (whole first : List ℕ) → Ties m run whole (I.left input.old) (O.tells out.old) first (O.bytes out.old) (Now.Calling called arguments) machine.old → Ties m run whole (I.left input.new) (O.tells out.new) first (O.bytes out.new) n machine.new) }
    ensures breaks { IsTrue (I.tells input.old) → OnErr result ((m : Setting) (run : Stand) (whole first : List ℕ) → Ties m run whole (I.left input.old) (O.tells out.old) first (O.bytes out.old) (Now.Calling called arguments) machine.old → Broke run whole (I.left input.new) (O.tells out.new) first (O.bytes out.new)) }
    ensures less { IfOk result (λ n. Less (Now.Calling called arguments) machine.old n machine.new) }
    ensures left { machine.new.left ≤ machine.old.left }
    ensures told { I.tells input.new ≡ I.tells input.old }
    ensures sink { O.tells out.new ≡ O.tells out.old }
    ensures input_counted { I.faults input.old ≤ I.faults input.new }
    ensures out_counted { O.faults out.old ≤ O.faults out.new }
    ensures reads { IsErrOf result MeanFail.ReadFault → Rose (I.faults input.old) (I.faults input.new) }
    ensures writes { IsErrOf result MeanFail.WriteFault → Rose (O.faults out.old) (O.faults out.new) }
{
    match called {
        Called::Service(service) => {
            let next = serve(service, &arguments, machine, input, out)?;
            Ok(next)
        }
        Called::Named(t) => {
            let Ok(next) = call_named(t, arguments, machine) else {
                return Err(MeanFail::NoMemory);
            };
            Ok(next)
        }
        Called::Pointed(v) => {
            let Ok(next) = call_pointed(&v, arguments, machine) else {
                return Err(MeanFail::NoMemory);
            };
            Ok(next)
        }
    }
}

/// One step.
fn advance<'a, I: Source, O: Sink>(
    alloc: Global,
    p: &'a Program,
    now: Now<'a>,
    machine: &mut Machine<'a>,
    input: &mut I,
    out: &mut O,
) -> Result<Now<'a>, MeanFail>
    requires { machine.old.left < 18446744073709551615 }
    ensures ties { IsTrue (I.tells input.old) → IfOk result (λ n. (run : Stand) (whole first : List ℕ) → Ties (setting_of p.now) run whole (I.left input.old) (O.tells out.old) first (O.bytes out.old) now.entry machine.old → Ties (setting_of p.now) run whole (I.left input.new) (O.tells out.new) first (O.bytes out.new) n machine.new) }
    ensures breaks { IsTrue (I.tells input.old) → OnErr result ((run : Stand) (whole first : List ℕ) → Ties (setting_of p.now) run whole (I.left input.old) (O.tells out.old) first (O.bytes out.old) now.entry machine.old → Broke run whole (I.left input.new) (O.tells out.new) first (O.bytes out.new)) }
    ensures less { IfOk result (λ n. Less now.entry machine.old n machine.new) }
    ensures left { machine.new.left ≤ machine.old.left }
    ensures told { I.tells input.new ≡ I.tells input.old }
    ensures sink { O.tells out.new ≡ O.tells out.old }
    ensures input_counted { I.faults input.old ≤ I.faults input.new }
    ensures out_counted { O.faults out.old ≤ O.faults out.new }
    ensures reads { IsErrOf result MeanFail.ReadFault → Rose (I.faults input.old) (I.faults input.new) }
    ensures writes { IsErrOf result MeanFail.WriteFault → Rose (O.faults out.old) (O.faults out.new) }
{
    match now {
        Now::Calling(called, arguments) => {
            let next = call_out(called, arguments, machine, input, out)?;
            Ok(next)
        }
        now => {
            let Ok(next) = turn(alloc, p, now, machine) else {
                return Err(MeanFail::NoMemory);
            };
            Ok(next)
        }
    }
}

/// All steps of a run, up to its end.
fn run_all<'a, I: Source, O: Sink>(
    alloc: Global,
    p: &'a Program,
    start: Now<'a>,
    machine: &mut Machine<'a>,
    input: &mut I,
    out: &mut O,
) -> Result<SourceEnd, MeanFail>
    requires { machine.old.left < 18446744073709551615 }
    ensures ties { IsTrue (I.tells input.old) → IfOk result (λ end. (run : Stand) (whole first : List ℕ) → Ties (setting_of p.now) run whole (I.left input.old) (O.tells out.old) first (O.bytes out.old) start.entry machine.old → Ties (setting_of p.now) run whole (I.left input.new) (O.tells out.new) first (O.bytes out.new) (Now.Stopped end) machine.new) }
    ensures breaks { IsTrue (I.tells input.old) → OnErr result ((run : Stand) (whole first : List ℕ) → Ties (setting_of p.now) run whole (I.left input.old) (O.tells out.old) first (O.bytes out.old) start.entry machine.old → Broke run whole (I.left input.new) (O.tells out.new) first (O.bytes out.new)) }
    ensures left { machine.new.left ≤ machine.old.left }
    ensures sink { O.tells out.new ≡ O.tells out.old }
    ensures reads { IsErrOf result MeanFail.ReadFault → Rose (I.faults input.old) (I.faults input.new) }
    ensures writes { IsErrOf result MeanFail.WriteFault → Rose (O.faults out.old) (O.faults out.new) }
{
    let mut now = start;
    loop {
        match advance(alloc, p, now, machine, input, out)? {
            Now::Stopped(outcome) => return Ok(outcome),
            next => now = next,
        }
    }
}

/// A machine before any call.
fn at_start<'a>(alloc: Global, globals: Parts<Value>, units: u64) -> Machine<'a>
    ensures store { (h : Unseen) → state_of result.store h ≡ fresh globals h }
    ensures stack { result.stack.items ≡ [] }
    ensures left { result.left ≡ units }
{
    Machine {
        store: Store::new(alloc, globals),
        stack: Vec::new(alloc),
        left: units,
    }
}

/// The outcome, the units, the peak and the bytes taken of a run of the program within so many units;
/// what it puts goes to `out`. After a failure what was put is a prefix of what the run puts, and no
/// more of the input is taken than the run takes. `ReadFault` and `WriteFault` come only where that
/// object's count of faults rose.
pub fn interpret<I: Source, O: Sink>(
    alloc: Global,
    p: &Program,
    input: &mut I,
    out: &mut O,
    units: u64,
) -> Result<Meant, MeanFail>
    requires { units ≤ 1000000000000 }
    ensures means { IsTrue (I.tells input.old) → Means (source p.now (I.left input.old) units) result }
    ensures puts { IsTrue (I.tells input.old) → IsTrue (O.tells out.old) → PutsRun (source p.now (I.left input.old) units) (O.bytes out.old) result (O.bytes out.new) }
    ensures takes { IsTrue (I.tells input.old) → TakesRun (source p.now (I.left input.old) units) (I.left input.old) result (I.left input.new) }
    ensures reads { IsErrOf result MeanFail.ReadFault → Rose (I.faults input.old) (I.faults input.new) }
    ensures writes { IsErrOf result MeanFail.WriteFault → Rose (O.faults out.old) (O.faults out.new) }
{
    let Ok(globals) = globals(alloc, p) else {
        return Err(MeanFail::NoMemory);
    };
    let Ok(main) = main_of(p) else {
        return Err(MeanFail::NoMemory);
    };
    let mut machine = at_start(alloc, globals, units);
    let start = Now::Call(main, Parts::new(alloc));
    let outcome = match run_all(alloc, p, start, &mut machine, input, out) {
        Ok(outcome) => outcome,
        Err(fail) => return Err(fail),
    };
    let Some(peak) = machine.store.peak().checked_add(4096) else {
        return Err(MeanFail::NoMemory);
    };
    Ok(Meant {
        outcome,
        units: units - machine.left,
        peak,
        taken: machine.store.taken(),
    })
}
