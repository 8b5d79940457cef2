ghost use Rattle.std.specs.Prelude.{◌≡◌, ◌≤◌, IsTrue, Ok, IfOk, IfErr, IsErrOf, length, map, string_bytes};
ghost use Rattle.hx_words.specs.Counts.{Rose};
ghost use Rattle.hx_io.specs.Files.{SameFiles};
ghost use Rattle.ec_units.specs.Verdicts.{verdict, judged, after_texts, passes, named_with, texts_of, Fits, IsOneOf};
ghost use Rattle.ec_units.specs.Steps.{texts_in, IsOfText, told_types};

use crate::loading::{add_units, no_units};
use crate::refusals::UnitsRefusal;
use crate::state::Loaded;
use c_check::{CheckRefusal, check};
use c_program::Program;
use ec_limits::first_limit;
use ec_report::{LimitKind, UnitRefusal};
use hx_io::Store;
use std::alloc::{AllocError, Global};

/// The most units of a command.
const MOST_UNITS: usize = 64;

/// A program within the limits, and the bytes of each of its units in order.
#[derive(Drop)]
pub struct Checked {
    pub program: Program,
    pub sources: Vec<Vec<u8>>,
}

/// A fault of types, by the number of its unit.
fn of_types(refusal: CheckRefusal) -> UnitsRefusal
    ensures { result ≡ told_types refusal }
{
    match refusal {
        CheckRefusal::Bad { unit, kind, at } => {
            UnitsRefusal::Unit(unit, UnitRefusal::Typing(kind, at))
        }
        CheckRefusal::NoMemory => UnitsRefusal::NoMemory,
    }
}

/// The program that the units are, if it is within the limits.
fn judge(alloc: Global, loaded: Loaded, whole: bool) -> Result<Checked, UnitsRefusal>
    ensures exact { Fits (after_texts whole (Ok (texts_in loaded))) result }
    ensures sources { IfOk result (λ c. texts_of c.sources ≡ texts_of loaded.sources) }
    ensures of_text { IfErr result IsOfText }
{
    let Loaded {
        units,
        sources,
        bytes: _,
        longest_name,
    } = loaded;
    let program = match check(alloc, units.as_slice(), whole) {
        Ok(program) => program,
        Err(refusal) => return Err(of_types(refusal)),
    };
    match first_limit(alloc, &program, longest_name) {
        Ok(Some(limit)) => Err(UnitsRefusal::Limit(limit.which, limit.count)),
        Ok(None) => Ok(Checked { program, sources }),
        Err(AllocError) => Err(UnitsRefusal::NoMemory),
    }
}

/// The program that the units of these names are. Of a whole program, what it declares is defined, and
/// `int main(void)` too.
///
/// # Errors
///
/// The first of these that holds. There are more than 64 names ([`UnitsRefusal::Limit`]); then for each
/// unit in order: its file isn't there ([`UnitsRefusal::Missing`]), it has more than 1,048,576 bytes,
/// the units so far have more than 4,194,304 bytes, its bytes aren't tokens, these aren't a unit, its
/// tree is too high ([`UnitsRefusal::Unit`]); then the first fault of types in all units; then a limit
/// that the program passes. No file of a unit behind a refused one is read. [`UnitsRefusal::StoreFault`]
/// comes only where a call of the store failed, and [`UnitsRefusal::NoMemory`] alone is free.
pub fn check_units<S: Store>(
    alloc: Global,
    store: &mut S,
    names: &[String],
    whole: bool,
) -> Result<Checked, UnitsRefusal>
    ensures files { IsTrue (S.tells store.old) → SameFiles (S.file store.old) (S.file store.new) }
    ensures told { S.tells store.new ≡ S.tells store.old }
    ensures counted { S.faults store.old ≤ S.faults store.new }

    // Where the store tells its files, the answer is the verdict on them.
    ensures exact { IsTrue (S.tells store.old) → Fits (verdict (S.file store.old) (map string_bytes names.now) whole) result }
    // Of any store, the program is that of the bytes that were read, one file for each name.
    ensures read { IfOk result (λ c. judged whole (named_with (map string_bytes names.now) (texts_of c.sources)) ≡ passes c.program (texts_of c.sources)) }
    ensures sources { IfOk result (λ c. length c.sources.items ≡ length names.now) }

    // Of any store, what is missing has one of the names, and a fault of the store was counted.
    ensures missing { IfErr result (IsOneOf (map string_bytes names.now)) }
    ensures failed { IsErrOf result UnitsRefusal.StoreFault → Rose (S.faults store.old) (S.faults store.new) }
{
    if names.len() > MOST_UNITS {
        return Err(UnitsRefusal::Limit(LimitKind::Units, names.len() as u64));
    }
    let mut loaded = no_units(alloc);
    match add_units(alloc, store, names, &mut loaded) {
        Ok(()) => judge(alloc, loaded, whole),
        Err(refusal) => Err(refusal),
    }
}
