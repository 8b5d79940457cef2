ghost use Rattle.std.specs.Prelude.{◌≤◌, IfOk};
ghost use Rattle.c_interp_steps.specs.declared.work.FindWork.TheVariants as finds;
ghost use Rattle.c_interp_steps.specs.Rests.{find_rest, place_rest};
ghost use Rattle.c_interp_steps.specs.Stack.{turn_load};
ghost use Rattle.c_interp_steps.specs.Goes.{GivesObject};

use crate::outcomes::{index, inside, object};
use c_interp_steps::{FindWork, Now, Pending, PlaceWork, Turn};
use c_meaning::SourceEnd;
use c_program::PathStep;
use c_values::{Object, Value};
use std::alloc::AllocError;

/// The object that a pointer points to.
fn found<'a>(v: Value) -> Turn<'a>
    ensures gives { GivesObject (λ m. find_rest finds.Target v) result }
    ensures within { turn_load result ≤ 12 }
{
    match object(v) {
        Some(o) => Turn::Go(Now::Found(o)),
        None => Turn::Go(Now::Stopped(SourceEnd::Trap(242))),
    }
}

/// A field of the struct that a pointer points to.
fn field<'a>(v: Value, f: u32) -> Result<Turn<'a>, AllocError>
    ensures gives { IfOk result (GivesObject (λ m. find_rest (finds.Arrow f) v)) }
    ensures within { IfOk result (λ turn. turn_load turn ≤ 12) }
{
    match object(v) {
        Some(o) => Ok(Turn::Go(Now::Found(inside(o, PathStep::Field(f))?))),
        None => Ok(Turn::Go(Now::Stopped(SourceEnd::Trap(242)))),
    }
}

/// An element of an array of `n` elements.
fn element<'a>(o: Object, n: u64, v: Value) -> Result<Turn<'a>, AllocError>
    ensures gives { IfOk result (GivesObject (λ m. find_rest (finds.ElementAt o n) v)) }
    ensures within { IfOk result (λ turn. turn_load turn ≤ 12) }
{
    match index(n, v) {
        Some(k) => Ok(Turn::Go(Now::Found(inside(o, PathStep::Element(k))?))),
        None => Ok(Turn::Go(Now::Stopped(SourceEnd::Trap(241)))),
    }
}

/// A value goes to work that gives an object.
pub fn wake_find<'a>(work: FindWork, v: Value) -> Result<Turn<'a>, AllocError>
    ensures gives { IfOk result (GivesObject (λ m. find_rest work v)) }
    ensures within { IfOk result (λ turn. turn_load turn ≤ 12) }
{
    match work {
        FindWork::Target => Ok(found(v)),
        FindWork::Arrow(f) => field(v, f),
        FindWork::ElementAt(o, n) => element(o, n, v),
    }
}

/// An object goes to work that gives an object.
pub fn wake_place<'a>(work: PlaceWork<'a>, o: Object) -> Result<Turn<'a>, AllocError>
    ensures gives { IfOk result (GivesObject (λ m. place_rest m work.entry o)) }
    ensures within { IfOk result (λ turn. turn_load turn ≤ 12) }
{
    match work {
        PlaceWork::Field(f) => Ok(Turn::Go(Now::Found(inside(o, PathStep::Field(f))?))),
        PlaceWork::ElementThen(i, n) => {
            let work = FindWork::ElementAt(o, n);
            Ok(Turn::Await(Pending::Find(work), Now::Value(i)))
        }
    }
}
