//! Whether the operands of an operation are of their kinds and in range.

ghost use Rattle.std.specs.Prelude.{◌≡◌, ◌&&◌, ◌≤◌, slice_get};
ghost use Rattle.ir_core.specs.Integers.{bytes_in, unary_type, is_comparison, result_type};
ghost use Rattle.ir_core.specs.Operands.{has_bytes, holds, has_class, is_index, lies_in, is_place, is_pointer, has_count, is_passed, are_passed, is_void, is_given, is_call, fits};

use crate::operations::{IrBinary, IrOp, IrPlace, IrUnary};
use crate::program::{IrFn, IrSlot};
use crate::signatures::{is_signature, is_slot_size};
use c_types::IntTy;
use sig_core::{Class, Signature};

fn bytes_in(ty: IntTy) -> u32
    ensures { result ≡ bytes_in ty }
{
    match ty {
        IntTy::I8 | IntTy::U8 => 1,
        IntTy::I16 | IntTy::U16 => 2,
        IntTy::I32 | IntTy::U32 => 4,
        IntTy::I64 | IntTy::U64 => 8,
    }
}

fn unary_type(op: IrUnary, ty: IntTy) -> IntTy
    ensures { result ≡ unary_type op ty }
{
    match op {
        IrUnary::Negate | IrUnary::Flip => ty,
        IrUnary::IsZero => IntTy::I32,
    }
}

fn is_comparison(op: IrBinary) -> bool
    ensures { result ≡ is_comparison op }
{
    match op {
        IrBinary::Add | IrBinary::Sub | IrBinary::Mul | IrBinary::Div | IrBinary::Rem => false,
        IrBinary::And | IrBinary::Or | IrBinary::Xor | IrBinary::Shl | IrBinary::Shr => false,
        IrBinary::Eq | IrBinary::Ne => true,
        IrBinary::Lt | IrBinary::Le | IrBinary::Gt | IrBinary::Ge => true,
    }
}

fn result_type(op: IrBinary, ty: IntTy) -> IntTy
    ensures { result ≡ result_type op ty }
{
    if is_comparison(op) { IntTy::I32 } else { ty }
}

/// Whether the slot is one of these and has so many bytes.
fn has_bytes(slots: &[IrSlot], slot: u32, bytes: u32) -> bool
    ensures { result ≡ has_bytes slots.now slot bytes }
{
    match slots.get(slot as usize) {
        None => false,
        Some(s) => s.size == bytes,
    }
}

/// Whether it has those of the integer's type.
fn holds(slots: &[IrSlot], slot: u32, ty: IntTy) -> bool
    ensures { result ≡ holds slots.now slot ty }
{
    has_bytes(slots, slot, bytes_in(ty))
}

/// Whether it holds a value of the class.
pub fn has_class(slots: &[IrSlot], slot: usize, class: Class) -> bool
    ensures { result ≡ has_class slots.now slot class }
{
    match slots.get(slot) {
        None => false,
        Some(s) => match class {
            Class::Void => false,
            Class::Word => is_slot_size(s.size),
            Class::Agg(bytes) => s.size == bytes,
        },
    }
}

fn is_index(slots: &[IrSlot], index: Option<u32>) -> bool
    ensures { result ≡ is_index slots.now index }
{
    match index {
        None => true,
        Some(slot) => has_bytes(slots, slot, 8),
    }
}

fn lies_in(slots: &[IrSlot], place: IrPlace, size: u32) -> bool
    ensures { result ≡ lies_in (slice_get slots.now place.slot) place size }
{
    match slots.get(place.slot as usize) {
        None => false,
        Some(s) => {
            if place.index.is_some() {
                true
            } else {
                u64::from(place.offset) + u64::from(size) <= u64::from(s.size)
            }
        }
    }
}

/// Whether so many bytes of a slot lie there.
fn is_place(slots: &[IrSlot], place: IrPlace, size: u32) -> bool
    ensures { result ≡ is_place slots.now place size }
{
    1 <= size && (is_index(slots, place.index) && lies_in(slots, place, size))
}

/// Whether so many bytes may lie where the slot's address and the offsets lead.
fn is_pointer(slots: &[IrSlot], place: IrPlace, size: u32) -> bool
    ensures { result ≡ is_pointer slots.now place size }
{
    1 <= size && (is_index(slots, place.index) && has_bytes(slots, place.slot, 8))
}

fn has_count(s: &Signature, args: usize) -> bool
    requires { args ≤ 9223372036854775807 }
    ensures { result ≡ has_count s.now args }
{
    if s.variadic {
        s.args.len() <= args && args <= s.args.len() + 256
    } else {
        args == s.args.len()
    }
}

/// Whether the slot holds the argument of this place: of its class, or an extra one.
fn is_passed(slots: &[IrSlot], classes: &[Class], place: usize, slot: u32) -> bool
    ensures { result ≡ is_passed slots.now (slice_get classes.now place) slot }
{
    match classes.get(place) {
        None => has_bytes(slots, slot, 8),
        Some(class) => has_class(slots, slot as usize, *class),
    }
}

fn are_passed(slots: &[IrSlot], classes: &[Class], args: &[u32]) -> bool
    ensures { result ≡ are_passed slots.now classes.now 0 args.now }
{
    for (i, slot) in args.iter().enumerate() {
        if !is_passed(slots, classes, i, *slot) {
            return false;
        }
    }
    true
}

fn is_void(class: Class) -> bool
    ensures { result ≡ is_void class }
{
    match class {
        Class::Void => true,
        Class::Word | Class::Agg(_) => false,
    }
}

fn is_given(slots: &[IrSlot], class: Class, slot: Option<u32>) -> bool
    ensures { result ≡ is_given slots.now class slot }
{
    match slot {
        None => is_void(class),
        Some(k) => has_class(slots, k as usize, class),
    }
}

fn is_call(slots: &[IrSlot], s: &Signature, args: &[u32], slot: Option<u32>) -> bool
    ensures { result ≡ is_call slots.now s.now args.now slot }
{
    is_signature(s)
        && (has_count(s, args.len())
            && (are_passed(slots, s.args.as_slice(), args) && is_given(slots, s.result, slot)))
}

/// Whether the operands of the function's operation are of their kinds and in range.
pub fn fits(f: &IrFn, op: &IrOp) -> bool
    ensures { result ≡ fits f.now op.now }
{
    let slots = f.slots.as_slice();
    match op {
        IrOp::Const { to, ty, value: _ } => holds(slots, *to, *ty),
        IrOp::Copy { to, from, size } => is_place(slots, *to, *size)
            && is_place(slots, *from, *size),
        IrOp::Zero { to, size } => is_place(slots, *to, *size),
        IrOp::Unary { op, ty, to, a } => {
            holds(slots, *to, unary_type(*op, *ty)) && holds(slots, *a, *ty)
        }
        IrOp::Binary { op, ty, to, a, b } => {
            holds(slots, *to, result_type(*op, *ty))
                && (holds(slots, *a, *ty) && holds(slots, *b, *ty))
        }
        IrOp::Convert {
            from_ty,
            to_ty,
            to,
            a,
        } => { holds(slots, *to, *to_ty) && holds(slots, *a, *from_ty) }
        IrOp::GlobalAddress { to, name: _ } | IrOp::FunctionAddress { to, name: _ } => {
            has_bytes(slots, *to, 8)
        }
        IrOp::LoadAt { to, from, size } => {
            is_place(slots, *to, *size) && is_pointer(slots, *from, *size)
        }
        IrOp::StoreAt { to, from, size } => {
            is_pointer(slots, *to, *size) && is_place(slots, *from, *size)
        }
        IrOp::BoundsTrap {
            index,
            ty,
            length: _,
        } => holds(slots, *index, *ty),
        IrOp::NullTrap { pointer } => has_bytes(slots, *pointer, 8),
        IrOp::ZeroTrap { a, ty } => holds(slots, *a, *ty),
        IrOp::Label { label } | IrOp::Jump { label } => *label < f.labels,
        IrOp::Branch { a, ty, yes, no } => {
            holds(slots, *a, *ty) && (*yes < f.labels && *no < f.labels)
        }
        IrOp::CallName {
            name: _,
            sig,
            args,
            result,
        } => { is_call(slots, sig, args.as_slice(), *result) }
        IrOp::CallPointer {
            pointer,
            sig,
            args,
            result,
        } => { has_bytes(slots, *pointer, 8) && is_call(slots, sig, args.as_slice(), *result) }
        IrOp::CallService {
            name: _,
            sig,
            args,
            result,
        } => { is_call(slots, sig, args.as_slice(), *result) }
        IrOp::VaStart | IrOp::VaEnd => f.sig.variadic,
        IrOp::VaArg { to, ty } => f.sig.variadic && holds(slots, *to, *ty),
        IrOp::Return { value } => is_given(slots, f.sig.result, *value),
    }
}
