//! The functions that generators take.

ghost use Rattle.std.specs.Prelude.{◌≡◌, ◌&&◌, ◌↔◌, IsTrue};
ghost use Rattle.std.specs.List.{list_all};
ghost use Rattle.ir_core.specs.Operands.{fits};
ghost use Rattle.ir_core.specs.Valid.{is_slot, are_parameters, is_ending, last_of, is_shaped, IsValid};

use crate::labels::stand_once;
use crate::operands::{fits, has_class};
use crate::operations::IrOp;
use crate::program::{IrFn, IrSlot};
use crate::signatures::{is_signature, is_slot_size};
use sig_core::Class;

fn are_slots(slots: &[IrSlot]) -> bool
    ensures { result ≡ list_all is_slot slots.now }
{
    for slot in slots {
        if !is_slot_size(slot.align) {
            return false;
        }
    }
    true
}

fn are_parameters(slots: &[IrSlot], classes: &[Class]) -> bool
    ensures { result ≡ are_parameters slots.now 0 classes.now }
{
    for (i, class) in classes.iter().enumerate() {
        if !has_class(slots, i, *class) {
            return false;
        }
    }
    true
}

fn all_fit(f: &IrFn) -> bool
    ensures { result ≡ list_all (fits f.now) f.now.ops }
{
    let ops = f.ops.as_slice();
    for op in ops {
        if !fits(f, op) {
            return false;
        }
    }
    true
}

fn ends(op: &IrOp) -> bool
    ensures { result ≡ is_ending (Some op.now) }
{
    match op {
        IrOp::Return { value: _ } | IrOp::Jump { label: _ } => true,
        IrOp::Branch {
            a: _,
            ty: _,
            yes: _,
            no: _,
        } => true,
        _ => false,
    }
}

/// Whether the last operation goes elsewhere.
fn is_ended(ops: &[IrOp]) -> bool
    ensures { result ≡ is_ending (last_of ops.now) }
{
    if ops.is_empty() {
        return false;
    }
    ends(&ops[ops.len() - 1])
}

/// Whether all but the labels is as [`valid`] says.
fn is_shaped(f: &IrFn) -> bool
    ensures { result ≡ is_shaped f.now }
{
    let slots = f.slots.as_slice();
    is_signature(&f.sig)
        && (are_slots(slots)
            && (are_parameters(slots, f.sig.args.as_slice())
                && (all_fit(f) && is_ended(f.ops.as_slice()))))
}

/// Whether each operand, label and slot of a function is of its kind and in range, each label below `labels` stands
/// in exactly one operation, and the last operation goes elsewhere. Takes no memory, and a time linear in the
/// function where its labels stand in order.
pub fn valid(f: &IrFn) -> bool
    ensures { IsTrue result ↔ IsValid f.now }
{
    is_shaped(f) && stand_once(f.ops.as_slice(), f.labels)
}
