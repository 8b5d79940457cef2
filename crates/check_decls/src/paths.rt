ghost use Rattle.std.specs.Prelude.{◌≡◌};
ghost use Rattle.c_typing.specs.Visits.{Tells};
ghost use Rattle.c_typing.specs.Initials.{field_in, element_in, one_step, part_by_steps, no_part};
ghost use Rattle.check_decls.specs.Steps.{TellsStep, TellsPart};

use c_program::PathStep;
use c_tree::{Name, Step};
use c_types::{Ty, Types};
use c_typing::{Refusal, TypeKind};
use check_types::{find_field, refusal, small_place, type_at};
use hx_words::Items;
use std::alloc::Global;

/// A part of a global: the path to it, its type, and whether each index is inside its array.
#[derive(Drop)]
pub struct FoundPart {
    pub path: Items<PathStep>,
    pub ty: Ty,
    pub inside: bool,
}

/// What one step finds.
#[derive(Clone, Copy)]
pub struct FoundStep {
    pub step: PathStep,
    pub ty: Ty,
    pub inside: bool,
}

/// A field of a type, and its type.
fn field_step(at: u32, types: &Types, name: &Name, ty: Ty) -> Result<FoundStep, Refusal>
    ensures { TellsStep (field_in at types.now name.now.text ty) result }
{
    let Ty::Struct(place) = ty else {
        return Err(refusal(TypeKind::NoField, at));
    };
    match find_field(types, place, name.text.as_slice()) {
        Some((number, ty)) => {
            let step = PathStep::Field(small_place(number)?);
            let inside = true;
            Ok(FoundStep { step, ty, inside })
        }
        None => Err(refusal(TypeKind::NoField, at)),
    }
}

/// An element of a type, and its type.
fn element_step(at: u32, types: &Types, index: u64, ty: Ty) -> Result<FoundStep, Refusal>
    ensures { TellsStep (element_in at types.now index ty) result }
{
    match ty {
        Ty::Array(place, length) => Ok(FoundStep {
            step: PathStep::Element(index),
            ty: type_at(types, place),
            inside: index < length,
        }),
        _ => Err(refusal(TypeKind::NotArray, at)),
    }
}

fn step_into(types: &Types, step: &Step, ty: Ty) -> Result<FoundStep, Refusal>
    ensures { TellsStep (one_step types.now step.now ty) result }
{
    match step {
        Step::Field(at, name) => Ok(field_step(at.start, types, name, ty)?),
        Step::Index(at, n) => Ok(element_step(at.start, types, n.value, ty)?),
    }
}

/// The part of a global that the steps behind its name stand for.
///
/// # Errors
///
/// The first step that finds no part, or want of memory.
#[tactic(auto, using(crate::proofs::PartLaws::path_begun, crate::proofs::PartLaws::path_more, crate::proofs::PartLaws::path_failed, crate::proofs::PartLaws::path_ended))]
pub fn part_by_path(
    alloc: Global,
    types: &Types,
    steps: &[Step],
    ty: Ty,
) -> Result<FoundPart, Refusal>
    ensures { TellsPart (part_by_steps types.now steps.now ty) result }
{
    let mut path = Items::new(alloc);
    let mut ty = ty;
    let mut inside = true;
    for step in steps {
        let found = step_into(types, step, ty)?;
        path.push(found.step)?;
        ty = found.ty;
        inside &= found.inside;
    }
    Ok(FoundPart { path, ty, inside })
}

/// The first step into what has no parts.
///
/// # Errors
///
/// [`TypeKind::NoField`] or [`TypeKind::NotArray`] where there is one.
pub fn check_no_part(steps: &[Step]) -> Result<(), Refusal>
    ensures { Tells (no_part steps.now) result }
{
    match steps.first() {
        None => Ok(()),
        Some(Step::Field(at, _)) => Err(refusal(TypeKind::NoField, at.start)),
        Some(Step::Index(at, _)) => Err(refusal(TypeKind::NotArray, at.start)),
    }
}
