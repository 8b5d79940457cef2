ghost use Rattle.std.specs.Prelude.{◌≡◌, ◌*◌, slice_get, Some, None};
ghost use Rattle.c_program.specs.Nodes.{small};
ghost use Rattle.c_program.specs.FrameBytes.{variable_bytes, extra_bytes, adjustor_bytes};
ghost use Rattle.c_meaning.specs.Charge.{charge as charge_by, function_charge, adjustor_charge, charge_of as charge_in};
ghost use Rattle.c_charge.specs.Places.{charge_at};

use c_program::{AdjustDef, Program, Target, frame_bytes, nodes_of_function};
use c_types::{FunTy, Ty, Types, size};

/// The charge for so many nodes and bytes.
pub fn of_parts(nodes: u64, bytes: u64) -> u64
    ensures { result ≡ small (charge_by nodes bytes) }
{
    let nodes = nodes.saturating_mul(64);
    let bytes = bytes.saturating_mul(8);
    nodes.saturating_add(bytes).saturating_add(1024)
}

fn of_variables(types: &Types, tys: &[Ty]) -> u64
    ensures { result ≡ small (variable_bytes types.now tys.now) }
{
    let mut total = 0;
    for ty in tys {
        total = size(types, *ty).saturating_add(total);
    }
    total
}

fn of_extras(f: &FunTy, extras: u32) -> u64
    ensures { result ≡ small (extra_bytes f.now extras) }
{
    if f.variadic { 8 * extras as u64 } else { 0 }
}

/// The bytes that a call of an adjustor keeps.
fn adjustor_bytes_of(p: &Program, a: &AdjustDef) -> u64
    ensures { result ≡ small (adjustor_bytes p.now (Some a.now)) }
{
    match p.types.funs.get(a.ty as usize) {
        Some(f) => {
            let given = size(&p.types, f.result);
            given
                .saturating_add(of_variables(&p.types, f.params.as_slice()))
                .saturating_add(of_extras(f, p.extras))
        }
        None => 0,
    }
}

fn of_function_at(p: &Program, k: u32) -> u64
    ensures { result ≡ small (function_charge p.now (slice_get p.now.functions k)) }
{
    match p.functions.get(k as usize) {
        Some(f) => {
            let nodes = nodes_of_function(p.types.funs.as_slice(), f);
            of_parts(nodes, frame_bytes(p, k))
        }
        None => 0,
    }
}

fn of_adjustor_at(p: &Program, k: u32) -> u64
    ensures { result ≡ small (adjustor_charge p.now (slice_get p.now.adjustors k)) }
{
    match p.adjustors.get(k as usize) {
        Some(a) => of_parts(1, adjustor_bytes_of(p, a)),
        None => 0,
    }
}

/// The stack that an active call of this function or adjustor is charged with; 0 where the program has
/// no such one, and the largest `u64` where it is more. It takes no memory.
#[tactic(auto, unfolding(c_meaning::specs::Charge::charge_of))]
pub fn charge_of(p: &Program, target: Target) -> u64
    ensures { result ≡ small (charge_in p.now target) }
{
    match target {
        Target::Function(k) => of_function_at(p, k),
        Target::Adjustor(k) => of_adjustor_at(p, k),
    }
}

/// The stack that an active call of the function or adjustor at this place of the program's lists,
/// functions first, is charged with; 0 where nothing stands there, and the largest `u64` where it is
/// more. It takes no memory.
pub fn charge(p: &Program, f: u32) -> u64
    ensures { result ≡ small (charge_at p.now f) }
{
    match p.functions.get(f as usize) {
        Some(_) => charge_of(p, Target::Function(f)),
        None => {
            let place = f as usize - p.functions.len();
            charge_of(p, Target::Adjustor(place as u32))
        }
    }
}
