//! What an address is to control.

/// The side of code, by its instructions.
#[derive(Clone, Copy, Debug, PartialEq, Eq)]
pub enum Side {
    /// x64 code.
    X64,
    /// Arm64EC code.
    Ec,
}

/// A service of the outside. The first four stand on each side, for the code of that side alone; the
/// others are for EC code.
#[derive(Clone, Copy, Debug, PartialEq, Eq)]
pub enum Service {
    /// Puts a byte.
    PutByte(Side),
    /// Gives a byte of the input, or that it is at its end.
    GetByte(Side),
    /// Ends the run.
    ExitGuest(Side),
    /// Traps.
    TrapGuest(Side),
    /// Tells how an indirect call of EC code reaches its target.
    CheckCall,
    /// Goes from an exit thunk to x64 code.
    DispatchCall,
    /// Goes from an entry thunk back to its caller.
    DispatchReturn,
}

/// What stands at an address.
#[derive(Clone, Copy, Debug, PartialEq, Eq)]
pub enum Place {
    /// A service.
    AtService(Service),
    /// A range of code.
    InRange(Side),
    /// Neither.
    Nowhere,
}
