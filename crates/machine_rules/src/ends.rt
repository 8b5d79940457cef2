//! How a run ends.

/// Why a step of the machine is none: the first of these that holds, in this order.
#[derive(Clone, Copy, Debug, PartialEq, Eq)]
pub enum StuckWhy {
    /// The program counter is in no code range and at no service.
    NoRange,
    /// An EC program counter that is no multiple of 4, or a stack pointer that is no multiple of 16.
    Misaligned,
    /// The bytes at the program counter begin with no instruction.
    BadInstruction,
    /// An EC instruction names a register that EC code must not use.
    Blocked,
    /// An access leaves the region of its address, or no region has it.
    Unmapped,
    /// The region lacks the right of the access.
    Protected,
    /// A division by zero, or a quotient that doesn't fit.
    Divide,
    /// An instruction that halts.
    Halt,
    /// Control goes to the other side by an instruction that can't take it there.
    BadSwitch,
    /// An EC function is entered from x64 code, and the word before it names no entry thunk.
    NoThunk,
    /// A switch to an address of the wrong kind.
    BadTarget,
}

/// How a guest ended.
#[derive(Clone, Copy, Debug, PartialEq, Eq)]
pub enum GuestEnd {
    /// The guest called `exit`, with these low 8 bits.
    Exit(u8),
    /// The guest called `trap`, with these low 8 bits.
    Trap(u8),
    /// An access met the guard below the stack.
    StackSpent,
    /// No row covers the step; the second is the program counter.
    Stuck(StuckWhy, u64),
}

/// How a run ended: as the guest did, or with the guest as it is.
#[derive(Clone, Copy, Debug, PartialEq, Eq)]
pub enum RunEnd {
    /// The guest called `exit`, with these low 8 bits.
    Exit(u8),
    /// The guest called `trap`, with these low 8 bits.
    Trap(u8),
    /// The machine hasn't ended after that many steps.
    Budget,
    /// An access met the guard below the stack.
    StackSpent,
    /// No row covers the step; the second is the program counter.
    Stuck(StuckWhy, u64),
    /// The source didn't give a byte of the input.
    ReadFault,
    /// The sink didn't take a byte of the output.
    WriteFault,
}
