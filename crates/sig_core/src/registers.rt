//! Calls between Arm64EC functions.

ghost use Rattle.std.specs.Prelude.{◌≡◌, ◌+◌, ◌*◌, ◌≤◌, min, nat_le, false, length, if◌then◌else◌, IfOk};
ghost use Rattle.std.specs.List.{All};
ghost use Rattle.sig_core.specs.Places.{placed_by};
ghost use Rattle.sig_core.specs.Registers.{ec_words, is_large, in_registers, on_stack, ec_place, ec_result, ec_placement};
ghost use Rattle.sig_core.specs.Signatures.{Allowed, IsArgument};

use crate::classes::{Class, Signature};
use crate::places::{Placed, ResultPlace, Slot, add_place};
use hx_words::Items;
use std::alloc::{AllocError, Global};

/// What the arguments before one took: registers from x0 on, or all of them, and bytes of the stack.
#[derive(Clone, Copy, Debug, PartialEq, Eq)]
struct Taken {
    registers: u8,
    bytes: u64,
}

/// Whether a struct is passed by its address.
fn is_large(class: Class) -> bool
    ensures { result ≡ is_large class }
{
    match class {
        Class::Void | Class::Word => false,
        Class::Agg(bytes) => bytes > 16,
    }
}

/// The words that a value takes, or else its address.
fn ec_words(class: Class) -> u8
    ensures value { result ≡ ec_words class }
    ensures few { result ≤ 2 }
{
    match class {
        Class::Void => 0,
        Class::Word => 1,
        Class::Agg(bytes) => {
            if bytes > 16 {
                1
            } else {
                ((bytes + 7) / 8) as u8
            }
        }
    }
}

/// The place of an argument behind others.
fn ec_place(class: Class, taken: Taken) -> Slot
    requires { taken.registers ≤ 8 }
    ensures { result ≡ (if nat_le (taken.registers + ec_words class) 8 then in_registers class taken.registers
        else on_stack class taken.bytes) }
{
    let words = ec_words(class);
    match (taken.registers + words <= 8, is_large(class)) {
        (true, true) => Slot::RegPointer(taken.registers),
        (true, false) => Slot::Reg(taken.registers, words),
        (false, true) => Slot::StackPointer(taken.bytes),
        (false, false) => Slot::Stack(taken.bytes, words),
    }
}

/// What is taken with one more argument. With the first that doesn't fit, all registers are.
fn taken_with(class: Class, taken: Taken) -> Taken
    requires registers { taken.registers ≤ 8 }
    requires bytes { taken.bytes ≤ 2048 }
    ensures registers { result.registers ≡ min 8 (taken.registers + ec_words class) }
    ensures bytes { result.bytes
        ≡ taken.bytes + (if nat_le (taken.registers + ec_words class) 8 then 0 else 8 * ec_words class) }
    ensures few { result.bytes ≤ taken.bytes + 16 }
{
    let words = ec_words(class);
    if taken.registers + words <= 8 {
        Taken {
            registers: taken.registers + words,
            bytes: taken.bytes,
        }
    } else {
        Taken {
            registers: 8,
            bytes: taken.bytes + 8 * u64::from(words),
        }
    }
}

/// Where an Arm64EC function gives its result back.
fn ec_result(back: Class) -> ResultPlace
    ensures { result ≡ ec_result back }
{
    match back {
        Class::Void => ResultPlace::Nothing,
        Class::Agg(bytes) if bytes > 16 => ResultPlace::Hidden(8),
        Class::Word | Class::Agg(_) => ResultPlace::Regs(0, ec_words(back)),
    }
}

/// The places of these arguments.
fn placed_in_registers(
    alloc: Global,
    args: &[Class],
    back: ResultPlace,
) -> Result<Placed, AllocError>
    requires few { length args.now ≤ 64 }
    requires arguments { All IsArgument args.now }
    ensures { IfOk result (λ p. p ≡ placed_by (ec_place args.now) back (length args.now)) }
{
    let mut placed = Placed {
        args: Items::new(alloc),
        result: back,
        stack: 0,
    };
    let mut taken = Taken {
        registers: 0,
        bytes: 0,
    };
    for class in args {
        add_place(&mut placed, ec_place(*class, taken))?;
        taken = taken_with(*class, taken);
    }
    Ok(placed)
}

/// The places of a call between Arm64EC functions. The stack counts from the stack pointer before the call.
pub fn place_ec(alloc: Global, s: &Signature) -> Result<Placed, AllocError>
    requires allowed { Allowed s.now }
    requires fixed { s.now.variadic ≡ false }
    ensures { IfOk result (λ p. p ≡ ec_placement s.now) }
{
    placed_in_registers(alloc, s.args.as_slice(), ec_result(s.result))
}
