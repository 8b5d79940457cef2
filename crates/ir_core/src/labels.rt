//! Whether each label stands in exactly one operation.

ghost use Rattle.std.specs.Prelude.{◌≡◌, ℕ, nat_lt, if◌then◌else◌, IsTrue, ◌↔◌, IfSome};
ghost use Rattle.std.specs.List.{count_by};
ghost use Rattle.ir_core.specs.Steps.{is_label};
ghost use Rattle.ir_core.specs.Valid.{StandOnce, label_of};

use crate::operations::IrOp;

/// The label that stands in the operation.
fn label_of(op: &IrOp) -> Option<u32>
    ensures { result ≡ label_of op.now }
{
    match op {
        IrOp::Label { label } => Some(*label),
        _ => None,
    }
}

/// Whether this label stands in the operation.
fn is_label(op: &IrOp, label: u32) -> bool
    ensures { result ≡ is_label label op.now }
{
    match op {
        IrOp::Label { label: other } => label == *other,
        _ => false,
    }
}

/// How many labels there are, where they stand in order from 0 on.
fn in_order(ops: &[IrOp]) -> Option<u64>
    ensures { IfSome result (λ n. (l : ℕ) → count_by (is_label l) ops.now ≡ (if nat_lt l n then 1 else 0)) }
{
    let mut next: u64 = 0;
    for op in ops {
        if let Some(label) = label_of(op) {
            if u64::from(label) != next {
                return None;
            }
            next += 1;
        }
    }
    Some(next)
}

/// In how many operations a label stands.
fn count(ops: &[IrOp], label: u32) -> usize
    ensures { result ≡ count_by (is_label label) ops.now }
{
    let mut n = 0;
    for op in ops {
        if is_label(op, label) {
            n += 1;
        }
    }
    n
}

/// Whether each of so many labels stands once: looks through the operations for each, up to the first that doesn't.
fn each_stands_once(ops: &[IrOp], labels: u32) -> bool
    ensures { IsTrue result ↔ StandOnce labels ops.now }
{
    for label in 0..labels {
        if count(ops, label) != 1 {
            return false;
        }
    }
    true
}

/// Whether each of so many labels stands in exactly one operation: in one pass where they stand in order.
pub fn stand_once(ops: &[IrOp], labels: u32) -> bool
    ensures { IsTrue result ↔ StandOnce labels ops.now }
{
    match in_order(ops) {
        Some(n) => u64::from(labels) <= n,
        None => each_stands_once(ops, labels),
    }
}
