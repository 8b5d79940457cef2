//! The places that arguments and results have.

ghost use Rattle.std.specs.Prelude.{◌≡◌, ◌≤◌, OnOk};
ghost use Rattle.sig_core.specs.Places.{end_of, with_place};

use hx_words::Items;
use std::alloc::AllocError;

/// The place of an argument. Registers go by their Arm64 numbers, and the stack by bytes from the address
/// that the convention counts from.
#[derive(Clone, Copy, Debug, PartialEq, Eq)]
pub enum Slot {
    /// The value, in so many registers from this one on.
    Reg(u8, u8),
    /// The address of the value, in this register.
    RegPointer(u8),
    /// The value, in so many words of 8 bytes from this byte on.
    Stack(u64, u8),
    /// The address of the value, at this byte.
    StackPointer(u64),
}

/// The place of a result.
#[derive(Clone, Copy, Debug, PartialEq, Eq)]
pub enum ResultPlace {
    /// There is no result.
    Nothing,
    /// The value, in so many registers from this one on.
    Regs(u8, u8),
    /// At the address that the caller puts into this register.
    Hidden(u8),
}

/// The places of a call.
#[derive(Debug, Drop)]
pub struct Placed {
    /// Those of the arguments, in order; extra ones are among them.
    pub args: Items<Slot>,
    pub result: ResultPlace,
    /// The end of the last place on the stack; 0 where there is none.
    pub stack: u64,
}

/// Where a place on the stack ends; 0 for a register.
fn end_of(slot: Slot) -> u64
    requires { end_of slot ≤ 4096 }
    ensures { result ≡ end_of slot }
{
    match slot {
        Slot::Reg(_, _) | Slot::RegPointer(_) => 0,
        Slot::Stack(at, words) => at + 8 * u64::from(words),
        Slot::StackPointer(at) => at + 8,
    }
}

/// Adds the place of one more argument.
pub fn add_place(placed: &mut Placed, slot: Slot) -> Result<(), AllocError>
    requires { end_of slot ≤ 4096 }
    ensures { OnOk result (placed.new ≡ with_place placed.old slot) }
{
    placed.stack = placed.stack.max(end_of(slot));
    placed.args.push(slot)
}
