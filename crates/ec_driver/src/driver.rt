//! The top call.

ghost use Rattle.std.specs.Prelude.{◌≡◌, ◌%◌, ℕ, ◌⊎◌, List, Some, map, string_bytes};
ghost use Rattle.ec_words.specs.Markings.{marks_of};
ghost use Rattle.ec_words.specs.Commands.{exec, run, command_of, form_of};
ghost use Rattle.ec_report.specs.declared.kinds.Outcome.{Outcome as OutcomeValue};
ghost use Rattle.ec_report.specs.declared.reports.Report.{Report as ReportValue};
ghost use Rattle.ec_report.specs.Reports.{line_of};
ghost use Rattle.ec_driver.specs.Plans.{IsWithinFuel};
ghost use Rattle.ec_driver.specs.Answers.{Answers, SourceCall, Stands, Tells, Exited, IsGood, IsSound, IsGenerating, Generated, TakesInput, Interpreted, IsMeaningful, TellsMeaning, IsExec, IsRunning, Ran, TellsOutcome};

use crate::building::build;
use crate::generating::generate_text;
use crate::interpreting::interpret_units;
use crate::planning::{check, unit_to_build};
use crate::running::run_image;
use ec_report::{Outcome, Report, line};
use ec_words::{Command, Marking, read_command};
use hx_io::{Sink, Source, Store};
use std::alloc::{AllocError, Global};

/// What `exec` is told by its words, the stack left out.
#[derive(Clone, Copy)]
struct ExecWords<'a> {
    units: &'a [String],
    image: &'a str,
    marking: &'a Marking,
    base: u64,
    fuel: u64,
}

/// Does what the words say, on a store of files, the guest's input and output, and a sink of notes, on
/// which one line says the report.
///
/// The words are a command by the rule of `ec_words`; all others are `Usage`. Five commands are built
/// yet. `check` checks its units. `interp` checks them and runs the program that they are by its meaning,
/// with `input` and `out`. `run` loads an image and runs it, with these too. `gen` puts the generated text of its numbers on `out`. `exec` checks its units
/// too, and then compiles one unit of the first form to x64 code, saves the code and runs it; its output
/// goes to `out`. All but `interp` and `run` leave `input` as it is.
pub fn ecc<S: Store, I: Source, O: Sink, E: Sink>(
    alloc: Global,
    words: &[String],
    store: &mut S,
    input: &mut I,
    out: &mut O,
    notes: &mut E,
) -> Report
    // The report, which is the first refusal of the command or what it did, and what stands after it:
    // the words, the files, the output and the line.
    ensures answers { Answers (map string_bytes words.now)
        (record { told = S.tells store.old; before = S.file store.old; after = S.file store.new; faults_before = S.faults store.old; faults_after = S.faults store.new })
        (record { told = I.tells input.old; before = I.left input.old; after = I.left input.new; faults_before = I.faults input.old; faults_after = I.faults input.new })
        (record { told = O.tells out.old; before = O.bytes out.old; after = O.bytes out.new; faults_before = O.faults out.old; faults_after = O.faults out.new })
        (record { told = E.tells notes.old; before = E.bytes notes.old; after = E.bytes notes.new; faults_before = E.faults notes.old; faults_after = E.faults notes.new })
        result }
    // Units that `check` has nothing against, and no count that rises, give `checked`, or want of memory.
    ensures checks { IsSound (map string_bytes words.now)
        (record { told = S.tells store.old; before = S.file store.old; after = S.file store.new; faults_before = S.faults store.old; faults_after = S.faults store.new })
        (record { told = O.tells out.old; before = O.bytes out.old; after = O.bytes out.new; faults_before = O.faults out.old; faults_after = O.faults out.new })
        (record { told = E.tells notes.old; before = E.bytes notes.old; after = E.bytes notes.new; faults_before = E.faults notes.old; faults_after = E.faults notes.new })
        → (result ≡ Report.Checked) ⊎ (result ≡ Report.NoMemory) }
    // Units that nothing refuses, and no count that rises, give a meaning, or want of memory.
    ensures interprets { IsMeaningful (map string_bytes words.now)
        (record { told = S.tells store.old; before = S.file store.old; after = S.file store.new; faults_before = S.faults store.old; faults_after = S.faults store.new })
        (record { told = I.tells input.old; before = I.left input.old; after = I.left input.new; faults_before = I.faults input.old; faults_after = I.faults input.new })
        (record { told = O.tells out.old; before = O.bytes out.old; after = O.bytes out.new; faults_before = O.faults out.old; faults_after = O.faults out.new })
        (record { told = E.tells notes.old; before = E.bytes notes.old; after = E.bytes notes.new; faults_before = E.faults notes.old; faults_after = E.faults notes.new })
        → TellsMeaning result ⊎ (result ≡ Report.NoMemory) }
    // A meaning that is told is the program's, with its output and the bytes that it takes.
    ensures interpreted { (outcome : OutcomeValue) (units : ℕ) (peak : ℕ) → result ≡ Report.Meant outcome units peak → Interpreted (map string_bytes words.now)
        (record { told = S.tells store.old; before = S.file store.old; after = S.file store.new; faults_before = S.faults store.old; faults_after = S.faults store.new })
        (record { told = I.tells input.old; before = I.left input.old; after = I.left input.new; faults_before = I.faults input.old; faults_after = I.faults input.new })
        (record { told = O.tells out.old; before = O.bytes out.old; after = O.bytes out.new; faults_before = O.faults out.old; faults_after = O.faults out.new })
        outcome units peak }
    // `run` of an image that can be loaded at its base, and no count that rises, give an end of the guest, or want of
    // memory.
    ensures runs { IsRunning (map string_bytes words.now)
        (record { told = S.tells store.old; before = S.file store.old; after = S.file store.new; faults_before = S.faults store.old; faults_after = S.faults store.new })
        (record { told = I.tells input.old; before = I.left input.old; after = I.left input.new; faults_before = I.faults input.old; faults_after = I.faults input.new })
        (record { told = O.tells out.old; before = O.bytes out.old; after = O.bytes out.new; faults_before = O.faults out.old; faults_after = O.faults out.new })
        (record { told = E.tells notes.old; before = E.bytes notes.old; after = E.bytes notes.new; faults_before = E.faults notes.old; faults_after = E.faults notes.new })
        → TellsOutcome result ⊎ (result ≡ Report.NoMemory) }
    // An end that `run` tells is that of the machine's run of the image, with its output and the bytes that it takes.
    ensures ran { (name : List ℕ) (base : ℕ) (fuel : ℕ) (outcome : OutcomeValue) → command_of (map string_bytes words.now) ≡ Some (run name base fuel) → result ≡ Report.Guest outcome → Ran name base fuel
        (record { told = S.tells store.old; before = S.file store.old; after = S.file store.new; faults_before = S.faults store.old; faults_after = S.faults store.new })
        (record { told = I.tells input.old; before = I.left input.old; after = I.left input.new; faults_before = I.faults input.old; faults_after = I.faults input.new })
        (record { told = O.tells out.old; before = O.bytes out.old; after = O.bytes out.new; faults_before = O.faults out.old; faults_after = O.faults out.new })
        outcome }
    // `gen`, and no count that rises, give `generated`, or want of memory.
    ensures generates { (number : ℕ) (size : ℕ) → IsGenerating (map string_bytes words.now)
        (record { told = S.tells store.old; before = S.file store.old; after = S.file store.new; faults_before = S.faults store.old; faults_after = S.faults store.new })
        (record { told = O.tells out.old; before = O.bytes out.old; after = O.bytes out.new; faults_before = O.faults out.old; faults_after = O.faults out.new })
        (record { told = E.tells notes.old; before = E.bytes notes.old; after = E.bytes notes.new; faults_before = E.faults notes.old; faults_after = E.faults notes.new })
        number size
        → (result ≡ Report.Generated) ⊎ (result ≡ Report.NoMemory) }
    // After `generated` the text of the words' numbers was put.
    ensures generated { result ≡ Report.Generated → Generated (map string_bytes words.now)
        (record { told = O.tells out.old; before = O.bytes out.old; after = O.bytes out.new; faults_before = O.faults out.old; faults_after = O.faults out.new }) }
    // After `exit k` of `exec` the unit, its output, its status and its saved image are what they should be.
    ensures exit { IsExec (command_of (map string_bytes words.now)) → (k : ℕ) → result ≡ Report.Guest (Outcome.Exit k) → Exited (map string_bytes words.now)
        (record { told = S.tells store.old; before = S.file store.old; after = S.file store.new; faults_before = S.faults store.old; faults_after = S.faults store.new })
        (record { told = O.tells out.old; before = O.bytes out.old; after = O.bytes out.new; faults_before = O.faults out.old; faults_after = O.faults out.new })
        k }
    // A unit of the first form, steps enough and no count that rises give its exit, or want of memory.
    ensures completes { (puts : List ℕ) (status : ℕ) → IsGood (map string_bytes words.now)
        (record { told = S.tells store.old; before = S.file store.old; after = S.file store.new; faults_before = S.faults store.old; faults_after = S.faults store.new })
        (record { told = O.tells out.old; before = O.bytes out.old; after = O.bytes out.new; faults_before = O.faults out.old; faults_after = O.faults out.new })
        (record { told = E.tells notes.old; before = E.bytes notes.old; after = E.bytes notes.new; faults_before = E.faults notes.old; faults_after = E.faults notes.new })
        puts status
        → (result ≡ Report.Guest (Outcome.Exit (status % 256))) ⊎ (result ≡ Report.NoMemory) }
    // Other commands leave the input as it is.
    ensures input { (TakesInput (command_of (map string_bytes words.now)) → ⊥) → input.new ≡ input.old }
{
    let own = answer(alloc, words, store, input, out);
    tell(alloc, own, notes)
}

/// Does what the words say, and gives its report.
fn answer<S: Store, I: Source, O: Sink>(
    alloc: Global,
    words: &[String],
    store: &mut S,
    input: &mut I,
    out: &mut O,
) -> Report
    ensures stands { Stands (command_of (map string_bytes words.now))
        (record { told = S.tells store.old; before = S.file store.old; after = S.file store.new; faults_before = S.faults store.old; faults_after = S.faults store.new })
        (record { told = I.tells input.old; before = I.left input.old; after = I.left input.new; faults_before = I.faults input.old; faults_after = I.faults input.new })
        (record { told = O.tells out.old; before = O.bytes out.old; after = O.bytes out.new; faults_before = O.faults out.old; faults_after = O.faults out.new })
        result }
    ensures input { (TakesInput (command_of (map string_bytes words.now)) → ⊥) → input.new ≡ input.old }
{
    match read_command(alloc, words) {
        Ok(Some(command)) => obey(alloc, &command, store, input, out),
        Ok(None) => Report::Usage,
        Err(AllocError) => Report::NoMemory,
    }
}

/// Does what a command says.
fn obey<S: Store, I: Source, O: Sink>(
    alloc: Global,
    command: &Command,
    store: &mut S,
    input: &mut I,
    out: &mut O,
) -> Report
    requires { IsWithinFuel (Some (form_of command.now)) }
    ensures stands { Stands (Some (form_of command.now))
        (record { told = S.tells store.old; before = S.file store.old; after = S.file store.new; faults_before = S.faults store.old; faults_after = S.faults store.new })
        (record { told = I.tells input.old; before = I.left input.old; after = I.left input.new; faults_before = I.faults input.old; faults_after = I.faults input.new })
        (record { told = O.tells out.old; before = O.bytes out.old; after = O.bytes out.new; faults_before = O.faults out.old; faults_after = O.faults out.new })
        result }
    ensures input { (TakesInput (Some (form_of command.now)) → ⊥) → input.new ≡ input.old }
{
    match command {
        Command::Check { units } => check(alloc, units, store),
        Command::Interp { units, fuel } => {
            interpret_units(alloc, units, *fuel, store, input, out)
        }
        Command::Run { image, base, fuel } => {
            run_image(alloc, image, *base, *fuel, store, input, out)
        }
        Command::Gen { number, size } => generate_text(alloc, *number, *size, out),
        Command::Exec {
            units,
            image,
            marking,
            base,
            fuel,
            ..
        } => {
            let words = ExecWords {
                units,
                image,
                marking,
                base: *base,
                fuel: *fuel,
            };
            exec(alloc, words, store, out)
        }
        _ => Report::NotBuilt,
    }
}

/// The command `exec`: its units are checked, and the one that is to be built is built and run.
fn exec<S: Store, O: Sink>(
    alloc: Global,
    words: ExecWords<'_>,
    store: &mut S,
    out: &mut O,
) -> Report
    // Whatever the stack is: the code of a unit of the first form needs less than the least.
    ensures { (stack : ℕ) (passed : SourceCall) → Stands (Some (exec (map string_bytes words.entry.units.now) words.entry.image.now (marks_of words.entry.marking.now) stack words.entry.base words.entry.fuel))
        (record { told = S.tells store.old; before = S.file store.old; after = S.file store.new; faults_before = S.faults store.old; faults_after = S.faults store.new })
        passed
        (record { told = O.tells out.old; before = O.bytes out.old; after = O.bytes out.new; faults_before = O.faults out.old; faults_after = O.faults out.new })
        result }
{
    match unit_to_build(alloc, words.units, words.marking, words.base, store) {
        Ok(unit) => build(alloc, &unit, words.image, words.fuel, store, out),
        Err(report) => report,
    }
}

/// Tells a report by its line, and gives what is told.
fn tell<E: Sink>(alloc: Global, own: Report, notes: &mut E) -> Report
    ensures { (told : ReportValue) × ((told ≡ own) ⊎ (told ≡ Report.NoMemory)) × Tells told
        (record { told = E.tells notes.old; before = E.bytes notes.old; after = E.bytes notes.new; faults_before = E.faults notes.old; faults_after = E.faults notes.new })
        result }
{
    let given = match line(alloc, &own) {
        Ok(text) => return put_line(own, &text, notes),
        Err(_) => Report::NoMemory,
    };
    put_line(given, b"no memory\n", notes)
}

/// Puts the line of a report.
fn put_line<E: Sink>(report: Report, text: &[u8], notes: &mut E) -> Report
    requires { text.now ≡ line_of report }
    ensures { Tells report
        (record { told = E.tells notes.old; before = E.bytes notes.old; after = E.bytes notes.new; faults_before = E.faults notes.old; faults_after = E.faults notes.new })
        result }
{
    match notes.put(text) {
        Ok(()) => report,
        Err(_) => Report::WriteFault,
    }
}
