//! How code goes on after an instruction.

use hx_mem::fault::MemBad;

/// Why an instruction does not happen. The first of these that holds is told: `Blocked`, then
/// `Misaligned`, then the memory's refusal.
#[derive(Clone, Copy, PartialEq, Eq, Debug)]
pub enum AFault {
    /// An access that the memory refuses.
    Memory(MemBad),
    /// The instruction names x13, x14, x18, x23, x24 or x28.
    Blocked,
    /// sp is the base of an access and no multiple of 16.
    Misaligned,
    /// BRK.
    Halt,
}

/// How code goes on. The program counter is the next instruction's after `Next`, the target after
/// `Goto`, `CallTo` and `RetTo`, and as it was after `Fault`.
#[derive(Clone, Copy, PartialEq, Eq, Debug)]
pub enum AEvent {
    /// With the next instruction.
    Next,
    /// At the target of a branch.
    Goto(u64),
    /// At the target of a call; x30 is the address of the next instruction.
    CallTo(u64),
    /// At the target of a return.
    RetTo(u64),
    /// Not at all; nothing changed.
    Fault(AFault),
}
