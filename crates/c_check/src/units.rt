ghost use Rattle.std.specs.Prelude.{◌≡◌};
ghost use Rattle.c_typing.specs.Units.{nothing_yet, visit_units, program_of, answered, typed};
ghost use Rattle.c_check.specs.Answers.{Answers, LeavesUnits, refusal_in, settled};

use crate::items::type_unit;
use crate::missing::check_missing;
use crate::nodes::nodes_of_units;
use crate::refusals::CheckRefusal;
use c_program::Program;
use c_tree::Unit;
use c_typing::{Progress, Refusal, Tables, UnitScope};
use hx_words::Items;
use measured_types::MeasuredTypes;
use named_rows::NamedRows;
use std::alloc::Global;

/// A program before its first unit.
fn start(alloc: Global) -> Progress
    ensures { result ≡ nothing_yet }
{
    let tables = Tables {
        types: MeasuredTypes::new(alloc),
        locals: Items::new(alloc),
        has_list: false,
        extras: 0,
    };
    let scope = UnitScope {
        names: NamedRows::new(alloc),
        tags: NamedRows::new(alloc),
    };
    Progress {
        tables,
        globals: NamedRows::new(alloc),
        functions: NamedRows::new(alloc),
        adjustors: NamedRows::new(alloc),
        defined: 0,
        scope,
    }
}

fn in_unit(unit: u32, refusal: Refusal) -> CheckRefusal
    ensures { result ≡ refusal_in unit refusal }
{
    match refusal {
        Refusal::Fault(f) => CheckRefusal::Bad {
            unit,
            kind: f.kind,
            at: f.at,
        },
        Refusal::NoMemory => CheckRefusal::NoMemory,
    }
}

/// Units in order, from number 0 on.
#[tactic(auto, using(crate::proofs::UnitLaws::units_kept, crate::proofs::UnitLaws::units_left, crate::proofs::UnitLaws::units_whole))]
fn type_units(alloc: Global, units: &[Unit], state: &mut Progress) -> Result<(), CheckRefusal>
    ensures { LeavesUnits (visit_units 0 units.now state.old) result state.new }
{
    for (k, text) in units.iter().enumerate() {
        let Ok(unit) = u32::try_from(k) else {
            return Err(CheckRefusal::NoMemory);
        };
        if let Err(refusal) = type_unit(alloc, unit, text, state) {
            return Err(in_unit(unit, refusal));
        }
    }
    Ok(())
}

fn finish(units: &[Unit], state: Progress) -> Program
    ensures { result ≡ program_of units.now state }
{
    let Progress {
        tables,
        globals,
        functions,
        adjustors,
        defined: _,
        scope: _,
    } = state;
    let Tables {
        types,
        locals: _,
        has_list: _,
        extras,
    } = tables;
    Program {
        types: types.into_types(),
        globals: globals.into_items(),
        functions: functions.into_items(),
        adjustors: adjustors.into_items(),
        other_nodes: nodes_of_units(units),
        extras,
    }
}

/// Units in order, and then what a whole program must have beyond them.
fn type_program(
    alloc: Global,
    units: &[Unit],
    whole: bool,
    state: &mut Progress,
) -> Result<(), CheckRefusal>
    ensures { Answers (answered units.now whole (visit_units 0 units.now state.old)) (settled result (program_of units.now state.new)) }
{
    type_units(alloc, units, state)?;
    if whole {
        check_missing(units, state)?;
    }
    Ok(())
}

/// The program that was visited, unless it was refused.
fn settle(
    units: &[Unit],
    outcome: Result<(), CheckRefusal>,
    state: Progress,
) -> Result<Program, CheckRefusal>
    ensures { result ≡ settled outcome (program_of units.now state) }
{
    match outcome {
        Ok(()) => Ok(finish(units, state)),
        Err(refusal) => Err(refusal),
    }
}

/// The program that units are, every conversion written out. Of a whole program, what it declares is
/// defined, `int main(void)` too; units that aren't whole may lack both.
///
/// # Errors
///
/// [`CheckRefusal::Bad`] with the first fault in the order of units, items and parts from left to right;
/// of a whole program without one then the first undefined name, and then that `main` is missing, at byte
/// 0 of unit 0. [`CheckRefusal::NoMemory`] alone is free.
#[tactic(auto, unfolding(c_typing::specs::Units::typed))]
pub fn check(alloc: Global, units: &[Unit], whole: bool) -> Result<Program, CheckRefusal>
    ensures { Answers (typed units.now whole) result }
{
    let mut state = start(alloc);
    let outcome = type_program(alloc, units, whole, &mut state);
    settle(units, outcome, state)
}
