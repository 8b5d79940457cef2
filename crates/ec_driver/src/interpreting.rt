//! The run of a program by its meaning.

ghost use Rattle.std.specs.Prelude.{◌≡◌, ◌≤◌, true, IsTrue, map, string_bytes};
ghost use Rattle.hx_words.specs.Counts.{Rose};
ghost use Rattle.hx_io.specs.Files.{SameFiles};
ghost use Rattle.c_meaning.specs.Source.{source};
ghost use Rattle.ec_units.specs.Verdicts.{verdict};
ghost use Rattle.ec_driver.specs.Courses.{interp_course};
ghost use Rattle.ec_driver.specs.Answers.{Follows, InterpPasses, RunLeaves, outcome_of};
ghost use Rattle.ec_driver.specs.Plans.{IsOfRun};

use crate::planning::refused;
use c_interp::{MeanFail, Meant, interpret};
use c_meaning::SourceEnd;
use c_program::Program;
use ec_report::{Outcome, Report};
use ec_units::check_units;
use hx_io::{Sink, Source, Store};
use std::alloc::Global;

/// The command `interp`: checks the units and runs the program that they are.
pub fn interpret_units<S: Store, I: Source, O: Sink>(
    alloc: Global,
    units: &[String],
    fuel: u64,
    store: &mut S,
    input: &mut I,
    out: &mut O,
) -> Report
    requires { fuel ≤ 1000000000000 }
    ensures follows { IsTrue (S.tells store.old) → Follows (interp_course (verdict (S.file store.old) (map string_bytes units.now) true)) result }
    ensures passes { InterpPasses (map string_bytes units.now) fuel (interp_course (verdict (S.file store.old) (map string_bytes units.now) true))
        (record { told = S.tells store.old; before = S.file store.old; after = S.file store.new; faults_before = S.faults store.old; faults_after = S.faults store.new })
        (record { told = I.tells input.old; before = I.left input.old; after = I.left input.new; faults_before = I.faults input.old; faults_after = I.faults input.new })
        (record { told = O.tells out.old; before = O.bytes out.old; after = O.bytes out.new; faults_before = O.faults out.old; faults_after = O.faults out.new })
        result }
    ensures same { IsTrue (S.tells store.old) → SameFiles (S.file store.old) (S.file store.new) }
    ensures store_failed { result ≡ Report.StoreFault → Rose (S.faults store.old) (S.faults store.new) }
    ensures input_failed { result ≡ Report.ReadFault → Rose (I.faults input.old) (I.faults input.new) }
    ensures output_failed { result ≡ Report.WriteFault → Rose (O.faults out.old) (O.faults out.new) }
{
    match check_units(alloc, store, units, true) {
        Ok(checked) => run_source(alloc, &checked.program, fuel, input, out),
        Err(refusal) => refused(refusal),
    }
}

/// Runs a program with so many units of work.
fn run_source<I: Source, O: Sink>(
    alloc: Global,
    program: &Program,
    fuel: u64,
    input: &mut I,
    out: &mut O,
) -> Report
    requires { fuel ≤ 1000000000000 }
    ensures leaves { IsTrue (I.tells input.old) → RunLeaves (source program.now (I.left input.old) fuel)
        (record { told = I.tells input.old; before = I.left input.old; after = I.left input.new; faults_before = I.faults input.old; faults_after = I.faults input.new })
        (record { told = O.tells out.old; before = O.bytes out.old; after = O.bytes out.new; faults_before = O.faults out.old; faults_after = O.faults out.new })
        result }
    ensures kind { IsOfRun result }
    ensures input_failed { result ≡ Report.ReadFault → Rose (I.faults input.old) (I.faults input.new) }
    ensures output_failed { result ≡ Report.WriteFault → Rose (O.faults out.old) (O.faults out.new) }
{
    match interpret(alloc, program, input, out, fuel) {
        Ok(meant) => told(meant),
        Err(MeanFail::ReadFault) => Report::ReadFault,
        Err(MeanFail::WriteFault) => Report::WriteFault,
        Err(MeanFail::NoMemory) => Report::NoMemory,
    }
}

/// How a run went, as a report.
fn told(meant: Meant) -> Report
    ensures { result ≡ Report.Meant (outcome_of meant.outcome) meant.units meant.peak }
{
    Report::Meant {
        outcome: told_outcome(meant.outcome),
        units: meant.units,
        peak: meant.peak,
    }
}

/// How a run ended, as a report tells it.
fn told_outcome(end: SourceEnd) -> Outcome
    ensures { result ≡ outcome_of end }
{
    match end {
        SourceEnd::Exit(status) => Outcome::Exit(status),
        SourceEnd::Trap(code) => Outcome::Trap(code),
        SourceEnd::Running => Outcome::Budget,
    }
}
