//! Programs in operations.

use crate::operations::IrOp;
use hx_words::Items;
use sig_core::Signature;

/// A slot of a function's frame.
#[derive(Clone, Copy, Debug, PartialEq, Eq)]
pub struct IrSlot {
    pub size: u32,
    pub align: u32,
}

/// A function. Its first slots are its parameters in order.
#[derive(Debug, Drop)]
pub struct IrFn {
    pub name: Items<u8>,
    pub sig: Signature,
    pub slots: Items<IrSlot>,
    /// The number of labels.
    pub labels: u32,
    pub ops: Items<IrOp>,
}

/// A program's parts.
#[derive(Debug, Drop)]
pub struct IrProgram {
    pub functions: Items<IrFn>,
    pub adjustors: Items<IrAdjust>,
    pub globals: Items<IrGlobal>,
}

/// A function that adds a number to one of its arguments and goes on as its target.
#[derive(Debug, Drop)]
pub struct IrAdjust {
    pub name: Items<u8>,
    pub target: Items<u8>,
    pub sig: Signature,
    /// The place of the argument.
    pub param: u32,
    pub add: i32,
}

/// A global. The bytes past those that it has are 0.
#[derive(Debug, Drop)]
pub struct IrGlobal {
    pub name: Items<u8>,
    pub size: u32,
    pub align: u32,
    pub bytes: Items<u8>,
    pub addresses: Items<IrAddress>,
}

/// A name whose address is added to the 8 bytes at a place of a global.
#[derive(Debug, Drop)]
pub struct IrAddress {
    pub at: u32,
    pub name: Items<u8>,
}
