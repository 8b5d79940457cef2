//! The generated text.

ghost use Rattle.std.specs.Prelude.{◌≡◌};
ghost use Rattle.hx_words.specs.Counts.{Rose};
ghost use Rattle.case_gen.specs.Units.{unit_of};
ghost use Rattle.ec_driver.specs.Courses.{Generates};
ghost use Rattle.ec_driver.specs.Answers.{Follows, GenPuts};

use case_gen::generate;
use ec_report::Report;
use hx_io::Sink;
use std::alloc::Global;

/// The command `gen`: puts the text of a number and a size on the output.
pub fn generate_text<O: Sink>(alloc: Global, number: u64, size: u32, out: &mut O) -> Report
    ensures follows { Follows (Generates (unit_of number size)) result }
    ensures puts { GenPuts (unit_of number size)
        (record { told = O.tells out.old; before = O.bytes out.old; after = O.bytes out.new; faults_before = O.faults out.old; faults_after = O.faults out.new })
        result }
    ensures failed { result ≡ Report.WriteFault → Rose (O.faults out.old) (O.faults out.new) }
{
    let Ok(text) = generate(alloc, number, size) else {
        return Report::NoMemory;
    };
    match out.put(&text) {
        Ok(()) => Report::Generated,
        Err(_) => Report::WriteFault,
    }
}
