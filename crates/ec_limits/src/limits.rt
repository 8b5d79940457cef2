ghost use Rattle.std.specs.Prelude.{◌≡◌, [], ◌∷◌, length, sum_by, IfOk};
ghost use Rattle.c_types.specs.Layout.{size_of};
ghost use Rattle.c_types.specs.declared.types.FunTy.{FunTy};
ghost use Rattle.c_types.specs.declared.types.Ty.TheVariants.{Struct};
ghost use Rattle.c_program.specs.declared.program.GlobalDef.{GlobalDef};
ghost use Rattle.c_program.specs.Nodes.{small};
ghost use Rattle.type_sizes.specs.Known.{AreSizes};
ghost use Rattle.ec_limits.specs.Limits.{greatest_by, greatest_below, places, function_count, frame_bytes, of_nodes, of_functions, of_parameters, of_extras, amounts, of_structs, of_frames, of_globals, of_names, rest, told, first_passed, passed};

use crate::counts::{Count, Passed};
use c_program::{GlobalDef, Program, nodes};
use c_types::{FunTy, Ty, Types};
use ec_report::LimitKind;
use frame_sizes::frame_bytes;
use std::alloc::{AllocError, Global};
use type_sizes::Sizes;

/// As many places as a program can name.
const PLACES: u64 = 1 << 32;

fn function_count(p: &Program) -> u64
    ensures { result ≡ small (function_count p.now) }
{
    (p.functions.len() as u64).saturating_add(p.adjustors.len() as u64)
}

fn parameter_count(funs: &[FunTy]) -> u64
    ensures { result ≡ greatest_by (λ (f : FunTy). length f.params) funs.now }
{
    let mut most = 0;
    for f in funs {
        most = most.max(f.params.len() as u64);
    }
    most
}

#[tactic(auto, using(crate::proofs::Greatest::below_laws))]
fn struct_bytes(types: &Types, sizes: &Sizes) -> u64
    requires { AreSizes types.now sizes.now }
    ensures { result ≡ greatest_below (places (length types.now.structs)) (λ k. size_of types.now (Struct k)) }
{
    let count = (types.structs.len() as u64).min(PLACES);
    let mut most = 0;
    for place in 0..count {
        most = most.max(sizes.size(types, Ty::Struct(place as u32)));
    }
    most
}

#[tactic(auto, using(crate::proofs::Greatest::below_laws))]
fn greatest_frame(p: &Program, sizes: &Sizes) -> u64
    requires { AreSizes p.now.types sizes.now }
    ensures { result ≡ small (frame_bytes p.now) }
{
    let count = function_count(p).min(PLACES);
    let mut most = 0;
    for place in 0..count {
        most = most.max(frame_bytes(p, sizes, place as u32));
    }
    most
}

fn global_bytes(types: &Types, sizes: &Sizes, globals: &[GlobalDef]) -> u64
    requires { AreSizes types.now sizes.now }
    ensures { result ≡ small (sum_by (λ (g : GlobalDef). size_of types.now g.ty) globals.now) }
{
    let mut total = 0;
    for global in globals {
        total = sizes.size(types, global.ty).saturating_add(total);
    }
    total
}

/// The nodes, against their number.
fn of_nodes(p: &Program) -> Count
    ensures { result ≡ told (of_nodes p.now) }
{
    Count::new(LimitKind::Nodes, 65_536, nodes(p))
}

/// The functions and adjustors, against their number.
fn of_functions(p: &Program) -> Count
    ensures { result ≡ told (of_functions p.now) }
{
    Count::new(LimitKind::Functions, 4_096, function_count(p))
}

/// The most parameters, against their number.
fn of_parameters(p: &Program) -> Count
    ensures { result ≡ told (of_parameters p.now) }
{
    let most = parameter_count(p.types.funs.as_slice());
    Count::new(LimitKind::Parameters, 64, most)
}

/// The most extra arguments, against their number.
fn of_extras(p: &Program) -> Count
    ensures { result ≡ told (of_extras p.now) }
{
    Count::new(LimitKind::Extras, 256, u64::from(p.extras))
}

/// The bytes of the greatest struct, against what it may have.
fn of_structs(p: &Program, sizes: &Sizes) -> Count
    requires { AreSizes p.now.types sizes.now }
    ensures { result ≡ told (of_structs p.now) }
{
    Count::new(
        LimitKind::StructBytes,
        65_536,
        struct_bytes(&p.types, sizes),
    )
}

/// The bytes of the greatest frame, against what it may have.
fn of_frames(p: &Program, sizes: &Sizes) -> Count
    requires { AreSizes p.now.types sizes.now }
    ensures { result ≡ told (of_frames p.now) }
{
    Count::new(LimitKind::FrameBytes, 524_288, greatest_frame(p, sizes))
}

/// The bytes of all globals, against what they may have.
fn of_globals(p: &Program, sizes: &Sizes) -> Count
    requires { AreSizes p.now.types sizes.now }
    ensures { result ≡ told (of_globals p.now) }
{
    let bytes = global_bytes(&p.types, sizes, p.globals.as_slice());
    Count::new(LimitKind::GlobalBytes, 33_554_432, bytes)
}

/// The bytes of the longest name, against what it may have.
fn of_names(longest_name: u64) -> Count
    ensures { result ≡ told (of_names longest_name) }
{
    Count::new(LimitKind::NameBytes, 255, longest_name)
}

/// The last amount, where it passes its number.
#[tactic(auto, using(crate::proofs::Telling::told_extras))]
fn from_extras(p: &Program) -> Option<Passed>
    ensures { result ≡ first_passed (of_extras p.now ∷ []) }
{
    of_extras(p).passed()
}

/// The first amount behind the functions that passes its number.
#[tactic(auto, using(crate::proofs::Telling::parameters_found, crate::proofs::Telling::parameters_none))]
fn from_parameters(p: &Program) -> Option<Passed>
    ensures { result ≡ first_passed (of_parameters p.now ∷ of_extras p.now ∷ []) }
{
    if let Some(passed) = of_parameters(p).passed() {
        return Some(passed);
    }
    from_extras(p)
}

/// The first amount behind the nodes that passes its number.
#[tactic(auto, using(crate::proofs::Telling::functions_found, crate::proofs::Telling::functions_none))]
fn from_functions(p: &Program) -> Option<Passed>
    ensures { result ≡ first_passed (of_functions p.now ∷ of_parameters p.now ∷ of_extras p.now ∷ []) }
{
    if let Some(passed) = of_functions(p).passed() {
        return Some(passed);
    }
    from_parameters(p)
}

/// The first amount that passes its number. No type is measured for it, and each is counted when its turn comes.
#[tactic(auto, using(crate::proofs::Telling::nodes_found, crate::proofs::Telling::nodes_none))]
fn first_amount(p: &Program) -> Option<Passed>
    ensures { result ≡ first_passed (amounts p.now) }
{
    if let Some(passed) = of_nodes(p).passed() {
        return Some(passed);
    }
    from_functions(p)
}

/// The longest name, where it passes its number.
#[tactic(auto, using(crate::proofs::Telling::told_names))]
fn from_names(longest_name: u64) -> Option<Passed>
    ensures { result ≡ first_passed (of_names longest_name ∷ []) }
{
    of_names(longest_name).passed()
}

/// The first count behind the frames that passes its number.
#[tactic(auto, using(crate::proofs::Telling::globals_found, crate::proofs::Telling::globals_none))]
fn from_globals(p: &Program, sizes: &Sizes, longest_name: u64) -> Option<Passed>
    requires { AreSizes p.now.types sizes.now }
    ensures { result ≡ first_passed (of_globals p.now ∷ of_names longest_name ∷ []) }
{
    if let Some(passed) = of_globals(p, sizes).passed() {
        return Some(passed);
    }
    from_names(longest_name)
}

/// The first count behind the structs that passes its number.
#[tactic(auto, using(crate::proofs::Telling::frames_found, crate::proofs::Telling::frames_none))]
fn from_frames(p: &Program, sizes: &Sizes, longest_name: u64) -> Option<Passed>
    requires { AreSizes p.now.types sizes.now }
    ensures { result ≡ first_passed (rest p.now longest_name) }
{
    if let Some(passed) = of_frames(p, sizes).passed() {
        return Some(passed);
    }
    from_globals(p, sizes, longest_name)
}

/// The first count behind the amounts that passes its number.
#[tactic(auto, using(crate::proofs::Telling::structs_found, crate::proofs::Telling::structs_none))]
fn first_of_sizes(p: &Program, sizes: &Sizes, longest_name: u64) -> Option<Passed>
    requires { AreSizes p.now.types sizes.now }
    ensures { result ≡ first_passed (of_structs p.now ∷ rest p.now longest_name) }
{
    if let Some(passed) = of_structs(p, sizes).passed() {
        return Some(passed);
    }
    from_frames(p, sizes, longest_name)
}

/// The first limit that a program passes, whose units' longest identifier has so many bytes: more than
/// 65,536 nodes, 4,096 functions and adjustors, 64 parameters of a function's type, 256 extra arguments
/// of a call, 65,536 bytes of a struct, 524,288 of a frame, 33,554,432 of all globals, or 255 of an
/// identifier, in this order.
///
/// # Errors
///
/// Want of memory, where the sizes of the types are noted.
#[tactic(auto, using(crate::proofs::Telling::amounts_found, crate::proofs::Telling::amounts_none))]
pub fn first_limit(
    alloc: Global,
    p: &Program,
    longest_name: u64,
) -> Result<Option<Passed>, AllocError>
    ensures { IfOk result (λ limit. limit ≡ passed p.now longest_name) }
{
    if let Some(passed) = first_amount(p) {
        return Ok(Some(passed));
    }
    let sizes = Sizes::of(alloc, &p.types)?;
    Ok(first_of_sizes(p, &sizes, longest_name))
}
