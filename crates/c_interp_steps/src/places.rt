ghost use Rattle.std.specs.Prelude.{◌≤◌};
ghost use Rattle.c_interp_steps.specs.Parts.{paid_object};
ghost use Rattle.c_interp_steps.specs.Stack.{turn_load};
ghost use Rattle.c_interp_steps.specs.Goes.{GivesObject};

use crate::work::{FindWork, Now, Pending, PlaceWork, Turn};
use c_program::Place;
use c_values::{Object, Root};
use hx_words::Items;
use std::alloc::Global;

/// Goes into a place, whose unit is paid.
pub fn enter_place<'a>(alloc: Global, p: &'a Place) -> Turn<'a>
    ensures gives { GivesObject (λ m. paid_object m p.now) result }
    ensures within { turn_load result ≤ 11 }
{
    match p {
        Place::Local(l) => Turn::Go(Now::Local(*l)),
        Place::Global(g) => Turn::Go(Now::Found(Object {
            root: Root::Global(*g),
            path: Items::new(alloc),
        })),
        Place::Target(_, e) => Turn::Await(Pending::Find(FindWork::Target), Now::Value(e.get())),
        Place::Arrow(e, _, f) => {
            Turn::Await(Pending::Find(FindWork::Arrow(*f)), Now::Value(e.get()))
        }
        Place::Field(whole, _, f) => {
            Turn::Await(
                Pending::Place(PlaceWork::Field(*f)),
                Now::Place(whole.get()),
            )
        }
        Place::Element(_, whole, i, n) => {
            let work = PlaceWork::ElementThen(i.get(), *n);
            Turn::Await(Pending::Place(work), Now::Place(whole.get()))
        }
    }
}
