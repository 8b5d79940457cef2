//! Calls by slots of 8 bytes: x64 calls, and calls of variadic Arm64EC functions.

ghost use Rattle.std.specs.Prelude.{◌≡◌, ◌≤◌, true, length, IfOk};
ghost use Rattle.sig_core.specs.Places.{placed_by};
ghost use Rattle.sig_core.specs.Signatures.{Allowed, AllowedExtras, all_args, is_by_pointer};
ghost use Rattle.sig_core.specs.Slots.{hidden_slots, slot_register, slot_place, argument_place, x64_result, variadic_result, x64_placement, variadic_placement};

use crate::classes::{Class, Signature};
use crate::places::{Placed, ResultPlace, Slot, add_place};
use hx_words::Items;
use reg_map::registers::{X64Reg, arm_of};
use std::alloc::{AllocError, Global};

/// Whether a value goes through a pointer where there are slots.
fn is_by_pointer(class: Class) -> bool
    ensures { result ≡ is_by_pointer class }
{
    match class {
        Class::Void | Class::Word => false,
        Class::Agg(bytes) => !matches!(bytes, 1 | 2 | 4 | 8),
    }
}

/// The slots before the first argument.
fn hidden_slots(back: Class) -> u64
    ensures value { result ≡ hidden_slots back }
    ensures few { result ≤ 1 }
{
    if is_by_pointer(back) { 1 } else { 0 }
}

/// The register of one of the first four slots.
fn slot_register(slot: u64) -> u8
    ensures { result ≡ slot_register slot }
{
    let register = match slot {
        0 => X64Reg::Rcx,
        1 => X64Reg::Rdx,
        2 => X64Reg::R8,
        _ => X64Reg::R9,
    };
    arm_of(register).0
}

/// The place of a value in a slot, where the stack counts from slot `first` on.
fn slot_place(first: u64, class: Class, slot: u64) -> Slot
    requires first { first ≤ 4 }
    requires few { slot ≤ 400 }
    ensures { result ≡ slot_place first class slot }
{
    match (slot < 4, is_by_pointer(class)) {
        (true, true) => Slot::RegPointer(slot_register(slot)),
        (true, false) => Slot::Reg(slot_register(slot), 1),
        (false, true) => Slot::StackPointer(8 * (slot - first)),
        (false, false) => Slot::Stack(8 * (slot - first), 1),
    }
}

/// The classes of the fixed arguments, and of so many words behind them.
fn all_args(alloc: Global, s: &Signature, extras: u32) -> Result<Vec<Class>, AllocError>
    ensures { IfOk result (λ args. args.items ≡ all_args s.now extras) }
{
    let mut args = Vec::from_slice(alloc, s.args.as_slice())?;
    for _extra in 0..extras {
        args.push(Class::Word)?;
    }
    Ok(args)
}

/// The places of these arguments behind `hidden` slots.
fn placed_in_slots(
    alloc: Global,
    first: u64,
    args: &[Class],
    hidden: u64,
    back: ResultPlace,
) -> Result<Placed, AllocError>
    requires first { first ≤ 4 }
    requires hidden { hidden ≤ 1 }
    requires few { length args.now ≤ 320 }
    ensures { IfOk result (λ p. p ≡ placed_by (argument_place first args.now hidden) back (length args.now)) }
{
    let mut placed = Placed {
        args: Items::new(alloc),
        result: back,
        stack: 0,
    };
    let mut slot = hidden;
    for class in args {
        add_place(&mut placed, slot_place(first, *class, slot))?;
        slot += 1;
    }
    Ok(placed)
}

/// Where an x64 function gives its result back.
fn x64_result(back: Class) -> ResultPlace
    ensures { result ≡ x64_result back }
{
    match back {
        Class::Void => ResultPlace::Nothing,
        Class::Word => ResultPlace::Regs(arm_of(X64Reg::Rax).0, 1),
        Class::Agg(_) if is_by_pointer(back) => ResultPlace::Hidden(slot_register(0)),
        Class::Agg(_) => ResultPlace::Regs(arm_of(X64Reg::Rax).0, 1),
    }
}

/// Where a variadic Arm64EC function gives its result back, which fits a register.
fn variadic_result(back: Class) -> ResultPlace
    ensures { result ≡ variadic_result back }
{
    match back {
        Class::Void => ResultPlace::Nothing,
        Class::Word | Class::Agg(_) => ResultPlace::Regs(0, 1),
    }
}

/// The places of an x64 call, by the Arm64 numbers of the registers. The stack counts from the stack pointer
/// before the call, so the home space of 32 bytes is in it. `extras` arguments follow the fixed ones.
pub fn place_x64(alloc: Global, s: &Signature, extras: u32) -> Result<Placed, AllocError>
    requires allowed { Allowed s.now }
    requires extras { AllowedExtras s.now extras }
    ensures { IfOk result (λ p. p ≡ x64_placement s.now extras) }
{
    let args = all_args(alloc, s, extras)?;
    let hidden = hidden_slots(s.result);
    let back = x64_result(s.result);
    placed_in_slots(alloc, 0, &args, hidden, back)
}

/// The places of a call of a variadic Arm64EC function: the slots of an x64 call, without home space. The
/// stack counts from the stack pointer before the call. `extras` arguments follow the fixed ones.
pub fn place_ec_variadic(alloc: Global, s: &Signature, extras: u32) -> Result<Placed, AllocError>
    requires allowed { Allowed s.now }
    requires variadic { s.now.variadic ≡ true }
    requires extras { AllowedExtras s.now extras }
    ensures { IfOk result (λ p. p ≡ variadic_placement s.now extras) }
{
    let args = all_args(alloc, s, extras)?;
    let before = hidden_slots(s.result);
    let back = variadic_result(s.result);
    placed_in_slots(alloc, 4, &args, before, back)
}
