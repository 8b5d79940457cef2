//! The run of an image.

ghost use Rattle.std.specs.Prelude.{◌≡◌, ◌≤◌, ◌<◌, ◌^◌, IsTrue, IfOk, Ok, length};
ghost use Rattle.hx_words.specs.Counts.{Rose};
ghost use Rattle.flat_machine.specs.Runs.{flat_run};
ghost use Rattle.flat_machine.specs.Answers.{EndsAs, RunPuts};

use crate::ends::RunEnd;
use crate::guest::Guest;
use hx_io::Sink;
use std::alloc::{AllocError, Global};

/// Runs an image for at most `budget` steps, with its output on `out`. All memory of the run is taken
/// before its first step. `WriteFault` comes only where `out` failed, which then holds a prefix of the
/// output.
pub fn run<O: Sink>(
    alloc: Global,
    image: &[u8],
    out: &mut O,
    budget: u64,
) -> Result<RunEnd, AllocError>
    requires { length image.now < 2 ^ 32 }
    ensures ends { IfOk result (λ end. EndsAs end (flat_run image.now budget).after) }
    ensures puts { IsTrue (O.tells out.old) → RunPuts result (O.bytes out.old) (flat_run image.now budget).output (O.bytes out.new) }
    ensures told { O.tells out.new ≡ O.tells out.old }
    ensures counted { O.faults out.old ≤ O.faults out.new }
    ensures failed { result ≡ Ok RunEnd.WriteFault → Rose (O.faults out.old) (O.faults out.new) }
{
    let mut guest = Guest::new(alloc, image)?;
    for _turn in 0..budget {
        if let Some(end) = guest.step(out) {
            return Ok(end);
        }
    }
    Ok(RunEnd::Budget)
}
