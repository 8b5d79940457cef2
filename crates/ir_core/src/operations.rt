//! The operations.

use c_types::IntTy;
use hx_words::Items;
use sig_core::Signature;

/// The bytes of a slot from `offset` on. Where an array is indexed, `index` is a slot that holds a further
/// offset in bytes. In `LoadAt.from` and `StoreAt.to` the slot holds an address, and the offsets are added to it.
#[derive(Clone, Copy, Debug, PartialEq, Eq)]
pub struct IrPlace {
    pub slot: u32,
    pub offset: u32,
    pub index: Option<u32>,
}

/// What is done to one value.
#[derive(Clone, Copy, Debug, PartialEq, Eq)]
pub enum IrUnary {
    Negate,
    /// Each bit turned over.
    Flip,
    /// An int: 1 where the value is 0 or null, else 0.
    IsZero,
}

/// What is done to two values of one type. The comparisons give an int, 0 or 1.
#[derive(Clone, Copy, Debug, PartialEq, Eq)]
pub enum IrBinary {
    Add,
    Sub,
    Mul,
    Div,
    Rem,
    And,
    Or,
    Xor,
    Shl,
    Shr,
    Eq,
    Ne,
    Lt,
    Le,
    Gt,
    Ge,
}

/// An operation. Slots and labels are given by number; globals, functions and services by name.
#[derive(Debug, Drop)]
pub enum IrOp {
    /// A number, wrapped to its type.
    Const {
        to: u32,
        ty: IntTy,
        value: u64,
    },
    /// So many bytes of a slot.
    Copy {
        to: IrPlace,
        from: IrPlace,
        size: u32,
    },
    /// So many zero bytes.
    Zero {
        to: IrPlace,
        size: u32,
    },
    Unary {
        op: IrUnary,
        ty: IntTy,
        to: u32,
        a: u32,
    },
    Binary {
        op: IrBinary,
        ty: IntTy,
        to: u32,
        a: u32,
        b: u32,
    },
    /// A number of one type, wrapped to another.
    Convert {
        from_ty: IntTy,
        to_ty: IntTy,
        to: u32,
        a: u32,
    },
    GlobalAddress {
        to: u32,
        name: Items<u8>,
    },
    FunctionAddress {
        to: u32,
        name: Items<u8>,
    },
    /// So many bytes from an address.
    LoadAt {
        to: IrPlace,
        from: IrPlace,
        size: u32,
    },
    /// So many bytes to an address.
    StoreAt {
        to: IrPlace,
        from: IrPlace,
        size: u32,
    },
    /// Trap 241 unless the index is at least 0 and below the length.
    BoundsTrap {
        index: u32,
        ty: IntTy,
        length: u64,
    },
    /// Trap 242 on null.
    NullTrap {
        pointer: u32,
    },
    /// Trap 243 on 0.
    ZeroTrap {
        a: u32,
        ty: IntTy,
    },
    Label {
        label: u32,
    },
    Jump {
        label: u32,
    },
    /// To `yes` where the value isn't 0 or null, else to `no`.
    Branch {
        a: u32,
        ty: IntTy,
        yes: u32,
        no: u32,
    },
    CallName {
        name: Items<u8>,
        sig: Signature,
        args: Items<u32>,
        result: Option<u32>,
    },
    CallPointer {
        pointer: u32,
        sig: Signature,
        args: Items<u32>,
        result: Option<u32>,
    },
    /// Through the symbol `__imp_` and the name on x64, and `__imp_#` and the name in EC.
    CallService {
        name: Items<u8>,
        sig: Signature,
        args: Items<u32>,
        result: Option<u32>,
    },
    /// The first extra argument is the next.
    VaStart,
    /// The next extra argument, wrapped to its type; trap 244 where there is none.
    VaArg {
        to: u32,
        ty: IntTy,
    },
    /// No extra argument is the next.
    VaEnd,
    Return {
        value: Option<u32>,
    },
}
