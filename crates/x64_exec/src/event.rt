//! Where control goes after an instruction.

use hx_mem::MemBad;

/// Why an instruction did nothing.
#[derive(Clone, Copy, Debug, PartialEq, Eq)]
pub enum XFault {
    /// The memory refused an access.
    Memory(MemBad),
    /// A zero divisor, or a quotient that doesn't fit (Intel SDM, Vol. 3, 6.15, #DE).
    Divide,
    /// An instruction that halts: `int3` or `ud2`.
    Halt,
}

/// What an instruction did to the flow of control.
#[derive(Clone, Copy, Debug, PartialEq, Eq)]
pub enum XEvent {
    /// On to the next instruction.
    Next,
    /// A conditional jump that was taken, to this address.
    Branch(u64),
    /// A jump to this address.
    Goto(u64),
    /// A call of this address; the return address was pushed.
    CallTo(u64),
    /// A return to this address, which was popped.
    RetTo(u64),
    /// Nothing changed.
    Fault(XFault),
}
