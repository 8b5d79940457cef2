//! How much code and stack a function asks for.

ghost use Rattle.std.specs.Prelude.{◌≡◌, ◌+◌, ◌*◌, length};
ghost use Rattle.std.specs.List.{sum_by};
ghost use Rattle.ir_core.specs.Within.{small, call_args, code_work, room_of, aggregate_bytes, call_need, most_need, frame_work};

use crate::operations::IrOp;
use crate::program::{IrFn, IrSlot};
use sig_core::Class;

fn call_args(op: &IrOp) -> u64
    ensures { result ≡ call_args op.now }
{
    match op {
        IrOp::CallName {
            name: _,
            sig: _,
            args,
            result: _,
        }
        | IrOp::CallPointer {
            pointer: _,
            sig: _,
            args,
            result: _,
        }
        | IrOp::CallService {
            name: _,
            sig: _,
            args,
            result: _,
        } => args.len() as u64,
        _ => 0,
    }
}

fn all_call_args(ops: &[IrOp]) -> u64
    ensures { result ≡ small (sum_by call_args ops.now) }
{
    let mut total: u64 = 0;
    for op in ops {
        total = total.saturating_add(call_args(op));
    }
    total
}

fn room_of(slot: &IrSlot) -> u64
    ensures { result ≡ room_of slot.now }
{
    (u64::from(slot.size) + 7) / 8 * 8
}

fn all_rooms(slots: &[IrSlot]) -> u64
    ensures { result ≡ small (sum_by room_of slots.now) }
{
    let mut total: u64 = 0;
    for slot in slots {
        total = total.saturating_add(room_of(slot));
    }
    total
}

fn aggregate_bytes(class: Class) -> u64
    ensures { result ≡ aggregate_bytes class }
{
    match class {
        Class::Void | Class::Word => 0,
        Class::Agg(bytes) => u64::from(bytes),
    }
}

fn all_aggregates(classes: &[Class]) -> u64
    ensures { result ≡ small (sum_by aggregate_bytes classes.now) }
{
    let mut total: u64 = 0;
    for class in classes {
        total = total.saturating_add(aggregate_bytes(*class));
    }
    total
}

/// What so many arguments of these classes need.
fn need_of(args: usize, classes: &[Class]) -> u64
    ensures { result ≡ small (24 * args + sum_by aggregate_bytes classes.now) }
{
    (args as u64)
        .saturating_mul(24)
        .saturating_add(all_aggregates(classes))
}

fn call_need(op: &IrOp) -> u64
    ensures { result ≡ small (call_need op.now) }
{
    match op {
        IrOp::CallName {
            name: _,
            sig,
            args,
            result: _,
        }
        | IrOp::CallPointer {
            pointer: _,
            sig,
            args,
            result: _,
        }
        | IrOp::CallService {
            name: _,
            sig,
            args,
            result: _,
        } => { need_of(args.len(), sig.args.as_slice()) }
        _ => 0,
    }
}

fn most_need(ops: &[IrOp]) -> u64
    ensures { result ≡ small (most_need ops.now) }
{
    let mut most: u64 = 0;
    for op in ops {
        most = most.max(call_need(op));
    }
    most
}

fn code_work(f: &IrFn) -> u64
    ensures { result ≡ small (code_work f.now) }
{
    let ops = f.ops.len() as u64;
    let parameters = f.sig.args.len() as u64;
    ops.saturating_add(parameters)
        .saturating_add(all_call_args(f.ops.as_slice()))
        .saturating_mul(160)
        .saturating_add(256)
}

fn frame_work(f: &IrFn) -> u64
    ensures { result ≡ small (frame_work f.now) }
{
    let parameters = (f.sig.args.len() as u64).saturating_mul(24);
    all_rooms(f.slots.as_slice())
        .saturating_add(1024)
        .saturating_add(parameters)
        .saturating_add(most_need(f.ops.as_slice()))
}

/// How much code and stack a function asks for: the sum of 256 and of 160 for each operation, each parameter and each
/// argument of a call; and the sum of 1,024, of its slots' sizes, each rounded up to 8, of 24 for each parameter, and
/// of the most that one of its calls needs. Each is the greatest `u64` where it is more. Takes no memory.
pub fn size_of_work(f: &IrFn) -> (u64, u64)
    ensures code { result.0 ≡ small (code_work f.now) }
    ensures frame { result.1 ≡ small (frame_work f.now) }
{
    (code_work(f), frame_work(f))
}
