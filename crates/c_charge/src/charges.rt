//! The charges of all that a program can call, each counted once.
ghost use Rattle.std.specs.Prelude.{◌≡◌, map, slice_get, Some, IfOk};
ghost use Rattle.c_program.specs.Nodes.{small};
ghost use Rattle.c_program.specs.declared.program.FunDef.{FunDef};
ghost use Rattle.c_program.specs.declared.program.AdjustDef.{AdjustDef};
ghost use Rattle.c_meaning.specs.Charge.{function_charge, adjustor_charge, charge_of as charge_in};
ghost use Rattle.type_sizes.specs.Known.{AreSizes};
ghost use Rattle.c_charge.specs.Noted.{AreCharges, noted};

use crate::charging::of_parts;
use c_program::{AdjustDef, FunDef, Program, Target, nodes_of_function};
use frame_sizes::{adjustor_bytes, function_bytes};
use std::alloc::{AllocError, Global};
use type_sizes::Sizes;

/// What an active call of each function and of each adjustor of a program is charged with.
#[derive(Drop)]
pub struct Charges {
    functions: Vec<u64>,
    adjustors: Vec<u64>,
}

fn of_function(p: &Program, sizes: &Sizes, f: &FunDef) -> u64
    requires { AreSizes p.now.types sizes.now }
    ensures { result ≡ small (function_charge p.now (Some f.now)) }
{
    let nodes = nodes_of_function(p.types.funs.as_slice(), f);
    of_parts(nodes, function_bytes(p, sizes, f))
}

fn of_adjustor(p: &Program, sizes: &Sizes, a: &AdjustDef) -> u64
    requires { AreSizes p.now.types sizes.now }
    ensures { result ≡ small (adjustor_charge p.now (Some a.now)) }
{
    of_parts(1, adjustor_bytes(p, sizes, a))
}

fn of_functions(alloc: Global, p: &Program, sizes: &Sizes) -> Result<Vec<u64>, AllocError>
    requires { AreSizes p.now.types sizes.now }
    ensures { IfOk result (λ charges. charges.items ≡ map (λ (f : FunDef). small (function_charge p.now (Some f))) p.now.functions) }
{
    let mut charges = Vec::new(alloc);
    for f in p.functions.as_slice() {
        charges.push(of_function(p, sizes, f))?;
    }
    Ok(charges)
}

fn of_adjustors(alloc: Global, p: &Program, sizes: &Sizes) -> Result<Vec<u64>, AllocError>
    requires { AreSizes p.now.types sizes.now }
    ensures { IfOk result (λ charges. charges.items ≡ map (λ (a : AdjustDef). small (adjustor_charge p.now (Some a))) p.now.adjustors) }
{
    let mut charges = Vec::new(alloc);
    for a in p.adjustors.as_slice() {
        charges.push(of_adjustor(p, sizes, a))?;
    }
    Ok(charges)
}

/// The charge at a place; 0 where none stands there.
fn noted(charges: &[u64], place: u32) -> u64
    ensures { result ≡ noted (slice_get charges.now place) }
{
    match charges.get(place as usize) {
        Some(charge) => *charge,
        None => 0,
    }
}

impl Charges {
    /// Counts the charges of a program, whose types are measured once.
    ///
    /// # Errors
    ///
    /// Want of memory.
    pub fn of(alloc: Global, p: &Program) -> Result<Charges, AllocError>
        ensures { IfOk result (λ charges. AreCharges p.now charges) }
    {
        let sizes = Sizes::of(alloc, &p.types)?;
        Ok(Charges {
            functions: of_functions(alloc, p, &sizes)?,
            adjustors: of_adjustors(alloc, p, &sizes)?,
        })
    }

    /// As [`charge_of`](crate::charge_of), looked up: the stack that an active call of this function or adjustor of
    /// the program is charged with. It takes no memory.
    #[tactic(auto, unfolding(c_meaning::specs::Charge::charge_of), using(crate::proofs::NotedLaws::function_noted, crate::proofs::NotedLaws::adjustor_noted))]
    pub fn charge_of(&self, p: &Program, target: Target) -> u64
        requires { AreCharges p.now self.now }
        ensures { result ≡ small (charge_in p.now target) }
    {
        match target {
            Target::Function(k) => noted(self.functions.as_slice(), k),
            Target::Adjustor(k) => noted(self.adjustors.as_slice(), k),
        }
    }
}
