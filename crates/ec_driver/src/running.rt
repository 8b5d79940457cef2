//! The command `run`.

ghost use Rattle.std.specs.Prelude.{◌≡◌, IsTrue};
ghost use Rattle.hx_words.specs.Counts.{Rose};
ghost use Rattle.hx_io.specs.Files.{SameFiles};
ghost use Rattle.image_run.specs.Courses.{image_course};
ghost use Rattle.ec_driver.specs.Courses.{run_course};
ghost use Rattle.ec_driver.specs.Answers.{Follows, RunPasses, told_why};
ghost use Rattle.ec_driver.specs.Plans.{report_of_end, TellsRefusal};

use ec_report::{Outcome, Report, StuckWhy as Why};
use hx_io::{Sink, Source, Store};
use image_run::{RunRefusal, run_file};
use mixed_machine::{RunEnd, StuckWhy};
use std::alloc::Global;

/// The command `run`: loads the image of a file at a base and runs it.
pub fn run_image<S: Store, I: Source, O: Sink>(
    alloc: Global,
    name: &str,
    base: u64,
    fuel: u64,
    store: &mut S,
    input: &mut I,
    out: &mut O,
) -> Report
    ensures follows { IsTrue (S.tells store.old) → Follows (run_course name.now (image_course (S.file store.old) name.now base)) result }
    ensures passes { RunPasses name.now base fuel (run_course name.now (image_course (S.file store.old) name.now base))
        (record { told = S.tells store.old; before = S.file store.old; after = S.file store.new; faults_before = S.faults store.old; faults_after = S.faults store.new })
        (record { told = I.tells input.old; before = I.left input.old; after = I.left input.new; faults_before = I.faults input.old; faults_after = I.faults input.new })
        (record { told = O.tells out.old; before = O.bytes out.old; after = O.bytes out.new; faults_before = O.faults out.old; faults_after = O.faults out.new })
        result }
    ensures same { IsTrue (S.tells store.old) → SameFiles (S.file store.old) (S.file store.new) }
    ensures store_failed { result ≡ Report.StoreFault → Rose (S.faults store.old) (S.faults store.new) }
    ensures input_failed { result ≡ Report.ReadFault → Rose (I.faults input.old) (I.faults input.new) }
    ensures output_failed { result ≡ Report.WriteFault → Rose (O.faults out.old) (O.faults out.new) }
{
    match run_file(alloc, name, base, fuel, store, input, out) {
        Ok(end) => ended(end),
        Err(why) => refused(alloc, name, why),
    }
}

/// How a run ended, as a report.
fn ended(end: RunEnd) -> Report
    ensures { result ≡ report_of_end end }
{
    match end {
        RunEnd::Exit(status) => Report::Guest(Outcome::Exit(status)),
        RunEnd::Trap(code) => Report::Guest(Outcome::Trap(code)),
        RunEnd::Budget => Report::Guest(Outcome::Budget),
        RunEnd::StackSpent => Report::Guest(Outcome::StackSpent),
        RunEnd::Stuck(why, pc) => Report::Guest(Outcome::Stuck(told_reason(why), pc)),
        RunEnd::ReadFault => Report::ReadFault,
        RunEnd::WriteFault => Report::WriteFault,
    }
}

/// Why an image isn't run, as a report.
fn refused(alloc: Global, name: &str, why: RunRefusal) -> Report
    ensures { TellsRefusal name.now why result }
{
    match why {
        RunRefusal::Missing => match Vec::from_slice(alloc, name.as_bytes()) {
            Ok(name) => Report::Missing(name),
            Err(_) => Report::NoMemory,
        },
        RunRefusal::StoreFault => Report::StoreFault,
        RunRefusal::Image(why) => Report::Image(why),
        RunRefusal::Load(why) => Report::Load(why),
        RunRefusal::NoMemory => Report::NoMemory,
    }
}

/// Why the machine is stuck, as a report tells it.
fn told_reason(why: StuckWhy) -> Why
    ensures { result ≡ told_why why }
{
    match why {
        StuckWhy::NoRange => Why::NoRange,
        StuckWhy::Misaligned => Why::Misaligned,
        StuckWhy::BadInstruction => Why::BadInstruction,
        StuckWhy::Blocked => Why::Blocked,
        StuckWhy::Unmapped => Why::Unmapped,
        StuckWhy::Protected => Why::Protected,
        StuckWhy::Divide => Why::Divide,
        StuckWhy::Halt => Why::Halt,
        StuckWhy::BadSwitch => Why::BadSwitch,
        StuckWhy::NoThunk => Why::NoThunk,
        StuckWhy::BadTarget => Why::BadTarget,
    }
}
