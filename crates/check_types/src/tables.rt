ghost use Rattle.std.specs.Prelude.{◌≡◌, position, IfOk};
ghost use Rattle.c_typing.specs.Visits.{Leaves};
ghost use Rattle.c_typing.specs.TypeForms.{same_type, same_function, ty_at, enter_type, enter_function};

use crate::refusals::small_place;
use c_types::{FunTy, Ty, Types};
use c_typing::{Refusal, Tables};
use measured_types::MeasuredTypes;
use std::alloc::AllocError;

/// The type at a place of a table, and void where none is there. It takes no memory.
pub fn type_at(types: &Types, place: u32) -> Ty
    ensures { result ≡ ty_at types.now place }
{
    match types.tys.get(place as usize) {
        Some(ty) => *ty,
        None => Ty::Void,
    }
}

fn place_of_type(types: &MeasuredTypes, ty: Ty) -> Option<usize>
    ensures { result ≡ position (same_type ty) types.now.tys }
{
    types.find_ty(ty)
}

fn place_of_function(types: &MeasuredTypes, function: &FunTy) -> Result<Option<usize>, AllocError>
    ensures { IfOk result (λ place. place ≡ position (same_function function.now) types.now.funs) }
{
    types.find_fun(function)
}

/// The place of the type of a pointer's target or an array's element, which is entered at the table's
/// end where it isn't there yet.
///
/// # Errors
///
/// Want of memory.
#[tactic(auto, unfolding(c_typing::specs::TypeForms::enter_type))]
pub fn enter_ty(ty: Ty, tables: &mut Tables) -> Result<u32, Refusal>
    ensures { Leaves (enter_type ty tables.old) result tables.new }
{
    match place_of_type(&tables.types, ty) {
        Some(place) => small_place(place),
        None => {
            let place = small_place(tables.types.as_types().tys.len())?;
            tables.types.push_ty(ty)?;
            Ok(place)
        }
    }
}

/// The place of a function's type, which is entered at the table's end where it isn't there yet.
///
/// # Errors
///
/// Want of memory.
#[tactic(auto, unfolding(c_typing::specs::TypeForms::enter_function))]
pub fn enter_fun_type(function: FunTy, tables: &mut Tables) -> Result<u32, Refusal>
    ensures { Leaves (enter_function function tables.old) result tables.new }
{
    match place_of_function(&tables.types, &function)? {
        Some(place) => small_place(place),
        None => {
            let place = small_place(tables.types.as_types().funs.len())?;
            tables.types.push_fun(function)?;
            Ok(place)
        }
    }
}
