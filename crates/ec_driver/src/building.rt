//! The image of a unit: built, saved and run.

ghost use Rattle.std.specs.Prelude.{◌≡◌, ◌<◌, ◌^◌, ℕ, List, IsTrue, length};
ghost use Rattle.hx_words.specs.Counts.{Rose};
ghost use Rattle.first_form.specs.FirstForm.{IsFirstForm};
ghost use Rattle.flat_machine.specs.Runs.{flat_run};
ghost use Rattle.ec_driver.specs.Courses.{Course, Builds};
ghost use Rattle.ec_driver.specs.Answers.{IsBuilt, IsImage, RunStands};
ghost use Rattle.ec_driver.specs.Plans.{BuildStands};

use ec_report::{Outcome, Report, StuckWhy};
use first_form::{FirstUnit, code};
use flat_machine::ends::{RunEnd, StuckWhy as FlatWhy};
use flat_machine::run::run;
use hx_io::{Sink, Store, StoreFail};
use std::alloc::Global;

/// The bytes that an image is below, for which the machine has room.
const IMAGE_ROOM: usize = 0x1000_0000;

/// Builds the image of a unit, saves it under this name and runs it with so many steps.
pub fn build<S: Store, O: Sink>(
    alloc: Global,
    unit: &FirstUnit,
    name: &str,
    fuel: u64,
    store: &mut S,
    out: &mut O,
) -> Report
    // Whatever the source is that the unit was read from.
    ensures { (course : Course) (source : List ℕ) → (IsTrue (S.tells store.old) → course ≡ Builds source) → IsFirstForm unit.now.puts.items unit.now.status source
        → BuildStands course name.now fuel
        (record { told = S.tells store.old; before = S.file store.old; after = S.file store.new; faults_before = S.faults store.old; faults_after = S.faults store.new })
        (record { told = O.tells out.old; before = O.bytes out.old; after = O.bytes out.new; faults_before = O.faults out.old; faults_after = O.faults out.new })
        result }
{
    match code(alloc, unit) {
        Ok(image) if image.len() < IMAGE_ROOM => save(alloc, &image, name, fuel, store, out),
        _ => Report::NoMemory,
    }
}

/// Saves an image and runs it.
fn save<S: Store, O: Sink>(
    alloc: Global,
    image: &[u8],
    name: &str,
    fuel: u64,
    store: &mut S,
    out: &mut O,
) -> Report
    requires { length image.now < 2 ^ 32 }
    ensures { (course : Course) (puts : List ℕ) (status : ℕ) → IsBuilt (S.tells store.old) course image.now puts status
        → BuildStands course name.now fuel
        (record { told = S.tells store.old; before = S.file store.old; after = S.file store.new; faults_before = S.faults store.old; faults_after = S.faults store.new })
        (record { told = O.tells out.old; before = O.bytes out.old; after = O.bytes out.new; faults_before = O.faults out.old; faults_after = O.faults out.new })
        result }
{
    match store.save(alloc, name, image) {
        Ok(()) => run_image(alloc, image, fuel, out),
        Err(StoreFail::Failed) => Report::StoreFault,
        Err(StoreFail::NoMemory) => Report::NoMemory,
    }
}

/// Runs an image with so many steps.
fn run_image<O: Sink>(alloc: Global, image: &[u8], fuel: u64, out: &mut O) -> Report
    requires { length image.now < 2 ^ 32 }
    ensures stands { (puts : List ℕ) (status : ℕ) → IsImage image.now puts status
        → RunStands (flat_run image.now fuel)
        (record { told = O.tells out.old; before = O.bytes out.old; after = O.bytes out.new; faults_before = O.faults out.old; faults_after = O.faults out.new })
        result }
    ensures failed { result ≡ Report.WriteFault → Rose (O.faults out.old) (O.faults out.new) }
{
    match run(alloc, image, out, fuel) {
        Ok(RunEnd::Exit(k)) => Report::Guest(Outcome::Exit(k)),
        Ok(RunEnd::Trap(k)) => Report::Guest(Outcome::Trap(k)),
        Ok(RunEnd::Budget) => Report::Guest(Outcome::Budget),
        Ok(RunEnd::StackSpent) => Report::Guest(Outcome::StackSpent),
        Ok(RunEnd::Stuck(why, pc)) => Report::Guest(Outcome::Stuck(told_why(why), pc)),
        Ok(RunEnd::WriteFault) => Report::WriteFault,
        Err(_) => Report::NoMemory,
    }
}

/// The machine's reason, as a report tells it.
fn told_why(why: FlatWhy) -> StuckWhy {
    match why {
        FlatWhy::NoRange => StuckWhy::NoRange,
        FlatWhy::Misaligned => StuckWhy::Misaligned,
        FlatWhy::BadInstruction => StuckWhy::BadInstruction,
        FlatWhy::Blocked => StuckWhy::Blocked,
        FlatWhy::Unmapped => StuckWhy::Unmapped,
        FlatWhy::Protected => StuckWhy::Protected,
        FlatWhy::Divide => StuckWhy::Divide,
        FlatWhy::Halt => StuckWhy::Halt,
        FlatWhy::BadSwitch => StuckWhy::BadSwitch,
        FlatWhy::NoThunk => StuckWhy::NoThunk,
        FlatWhy::BadTarget => StuckWhy::BadTarget,
    }
}
