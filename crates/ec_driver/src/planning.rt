//! What stands before any saving: the units, and what of them is to be built.

ghost use Rattle.std.specs.Prelude.{◌≡◌, ◌≤◌, true, IsTrue, IsErrOf, map, string_bytes};
ghost use Rattle.std.specs.List.{list_all};
ghost use Rattle.hx_words.specs.Counts.{Rose};
ghost use Rattle.hx_io.specs.Files.{SameFiles};
ghost use Rattle.ec_words.specs.Markings.{marks_of};
ghost use Rattle.ec_units.specs.Verdicts.{verdict, texts_of};
ghost use Rattle.ec_driver.specs.Definitions.{defined_names as defined_names_lem};
ghost use Rattle.ec_driver.specs.Courses.{is_x64, built_course, program_course, check_course, exec_course};
ghost use Rattle.ec_driver.specs.Answers.{Follows, IsOfCheck};
ghost use Rattle.ec_driver.specs.Plans.{report_of, Plans, PlansWhere, TellsSides};

use crate::definitions::defined_names;
use c_program::Program;
use ec_report::Report;
use ec_units::{Checked, UnitsRefusal, check_units};
use ec_words::{MarkRefusal, Marking, sides_of};
use first_form::{FirstUnit, parse};
use hx_io::Store;
use hx_names::Side;
use std::alloc::{AllocError, Global};

/// Where an image stands unless the words say otherwise.
const DEFAULT_BASE: u64 = 0x1_4000_0000;

/// The report of refused units.
pub fn refused(refusal: UnitsRefusal) -> Report
    ensures { result ≡ report_of refusal }
{
    match refusal {
        UnitsRefusal::Missing(name) => Report::Missing(name),
        UnitsRefusal::Limit(which, count) => Report::Limit(which, count),
        UnitsRefusal::Unit(unit, why) => Report::Unit(unit, why),
        UnitsRefusal::StoreFault => Report::StoreFault,
        UnitsRefusal::NoMemory => Report::NoMemory,
    }
}

/// The command `check`.
pub fn check<S: Store>(alloc: Global, units: &[String], store: &mut S) -> Report
    ensures follows { IsTrue (S.tells store.old) → Follows (check_course (verdict (S.file store.old) (map string_bytes units.now) true)) result }
    ensures of_check { IsOfCheck (map string_bytes units.now) result }
    ensures same { IsTrue (S.tells store.old) → SameFiles (S.file store.old) (S.file store.new) }
    ensures failed { result ≡ Report.StoreFault → Rose (S.faults store.old) (S.faults store.new) }
{
    match check_units(alloc, store, units, true) {
        Ok(_) => Report::Checked,
        Err(refusal) => refused(refusal),
    }
}

/// Whether all sides are x64.
fn are_x64(sides: &[Side]) -> bool
    ensures { result ≡ list_all is_x64 sides.now }
{
    for side in sides {
        if *side == Side::Ec {
            return false;
        }
    }
    true
}

/// The sides of a program's definitions, or the report that a name of the marking is none of theirs.
fn sides(alloc: Global, program: &Program, marking: &Marking) -> Result<Vec<Side>, Report>
    ensures { TellsSides (marks_of marking.now) (defined_names_lem program.now) result }
{
    let names = match defined_names(alloc, program) {
        Ok(names) => names,
        Err(AllocError) => return Err(Report::NoMemory),
    };
    match sides_of(alloc, marking, &names) {
        Ok(sides) => Ok(sides),
        Err(MarkRefusal::Unknown(name)) => Err(Report::Mark(name)),
        Err(MarkRefusal::NoMemory) => Err(Report::NoMemory),
    }
}

/// The one unit, where it is of the first form.
fn first_unit(alloc: Global, sources: &[Vec<u8>]) -> Result<FirstUnit, Report>
    ensures { Plans (built_course true (map (λ source. source.items) sources.now)) result }
{
    match sources {
        [source] => match parse(alloc, source) {
            Ok(Some(unit)) => Ok(unit),
            Ok(None) => Err(Report::NotBuilt),
            Err(AllocError) => Err(Report::NoMemory),
        },
        _ => Err(Report::NotBuilt),
    }
}

/// The unit of a program that `exec` builds and runs, or the report in its place.
fn planned(
    alloc: Global,
    checked: &Checked,
    marking: &Marking,
    base: u64,
) -> Result<FirstUnit, Report>
    ensures { Plans (program_course (marks_of marking.now) base (defined_names_lem checked.now.program) (texts_of checked.now.sources)) result }
{
    match sides(alloc, &checked.program, marking) {
        Ok(sides) if are_x64(&sides) && base == DEFAULT_BASE => {
            first_unit(alloc, &checked.sources)
        }
        Ok(_) => Err(Report::NotBuilt),
        Err(report) => Err(report),
    }
}

/// The unit that `exec` builds and runs, or the report in its place. No file is changed.
pub fn unit_to_build<S: Store>(
    alloc: Global,
    units: &[String],
    marking: &Marking,
    base: u64,
    store: &mut S,
) -> Result<FirstUnit, Report>
    ensures plans { PlansWhere (map string_bytes units.now) (S.tells store.old) (exec_course (marks_of marking.now) base (verdict (S.file store.old) (map string_bytes units.now) true)) result }
    ensures same { IsTrue (S.tells store.old) → SameFiles (S.file store.old) (S.file store.new) }
    ensures told { S.tells store.new ≡ S.tells store.old }
    ensures counted { S.faults store.old ≤ S.faults store.new }
    ensures failed { IsErrOf result Report.StoreFault → Rose (S.faults store.old) (S.faults store.new) }
{
    match check_units(alloc, store, units, true) {
        Ok(checked) => planned(alloc, &checked, marking, base),
        Err(refusal) => Err(refused(refusal)),
    }
}
