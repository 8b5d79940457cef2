//! The run of the image in a file.

ghost use Rattle.std.specs.Prelude.{◌≡◌, ◌≤◌, IsTrue, IfOk, IfErr, IsErrOf, Ok};
ghost use Rattle.hx_words.specs.Counts.{Rose};
ghost use Rattle.hx_io.specs.Files.{SameFiles};
ghost use Rattle.image_run.specs.Courses.{Follows, image_course};
ghost use Rattle.image_run.specs.Runs.{HasRun};

use crate::opening::open_file;
use crate::refusal::RunRefusal;
use hx_io::{Sink, Source, Store};
use mixed_machine::RunEnd;
use std::alloc::Global;

/// Loads the image in the file of a name at a base, and runs at most `fuel` steps of it.
///
/// `ReadFault` and `WriteFault` are ends of a run: the source, or the sink, failed.
///
/// # Errors
/// The first that holds of: `Missing`; `Image` with the first reason why the file is no image, which is `TooLarge`
/// where it has over 134,217,728 bytes; `Load` with the first reason why the image isn't loaded at this base.
/// `StoreFault` and `NoMemory` may come in the place of each. Then nothing was put, and nothing taken.
pub fn run_file<S: Store, I: Source, O: Sink>(
    alloc: Global,
    name: &str,
    base: u64,
    fuel: u64,
    store: &mut S,
    input: &mut I,
    out: &mut O,
) -> Result<RunEnd, RunRefusal>
    // The run of an image, or the first refusal.
    ensures follows { IsTrue (S.tells store.old) → Follows (image_course (S.file store.old) name.now base) result }
    // The run is the machine's: its end, its output and the bytes that it took.
    ensures ran { IfOk result (HasRun (S.tells store.old) (image_course (S.file store.old) name.now base) base fuel (I.tells input.old)
        (record { left = I.left input.old; rest = I.left input.new; told = O.tells out.old; old = O.bytes out.old; new = O.bytes out.new })) }
    ensures untouched { IfErr result (λ why. (input.new ≡ input.old) × (out.new ≡ out.old)) }
    ensures same { IsTrue (S.tells store.old) → SameFiles (S.file store.old) (S.file store.new) }
    ensures store_failed { IsErrOf result RunRefusal.StoreFault → Rose (S.faults store.old) (S.faults store.new) }
    ensures input_failed { result ≡ Ok RunEnd.ReadFault → Rose (I.faults input.old) (I.faults input.new) }
    ensures output_failed { result ≡ Ok RunEnd.WriteFault → Rose (O.faults out.old) (O.faults out.new) }
{
    match open_file(alloc, name, base, store) {
        Ok(mut machine) => Ok(machine.run(input, out, fuel)),
        Err(why) => Err(why),
    }
}
