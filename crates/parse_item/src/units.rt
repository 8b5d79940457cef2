ghost use Rattle.std.specs.Prelude.{◌≡◌, IfOk};
ghost use Rattle.parse_item.specs.UnitMachine.{unit_start, unit_said, said_of, unit_finish, Takes};
ghost use Rattle.parse_item.specs.UnitAnswers.{unit_answer};

use crate::items::{ItemState, begin_item, step_item};
use crate::parts::{ItemPart, ItemsPart, UnitPart, add_item, empty_items, make_unit};
use parse_terms::{Answer, Terminal};
use std::alloc::{AllocError, Global};

/// A unit that is being read: its items, and how far the one at hand has been read.
#[derive(Drop)]
pub struct UnitState {
    pub items: ItemsPart,
    pub current: Option<ItemState>,
}

/// Where a unit begins.
pub fn begin_unit(alloc: Global) -> UnitState
    ensures { result ≡ unit_start }
{
    UnitState {
        items: empty_items(alloc),
        current: None,
    }
}

/// The item at hand takes a token, or one begins.
fn advance(
    alloc: Global,
    token: &Terminal,
    current: Option<ItemState>,
) -> Result<Answer<ItemState, ItemPart>, AllocError>
    ensures { IfOk result (λ r. r ≡ said_of 256 token.now current) }
{
    match current {
        Some(item) => step_item(alloc, token, item),
        None => begin_item(alloc, token),
    }
}

/// The unit behind a token of an item.
fn settle(
    items: ItemsPart,
    answer: Answer<ItemState, ItemPart>,
) -> Result<Option<UnitState>, AllocError>
    ensures { IfOk result (λ r. Takes r (unit_said items answer)) }
{
    match answer {
        Answer::More(item) => Ok(Some(UnitState {
            items,
            current: Some(item),
        })),
        Answer::Done(item) => Ok(Some(UnitState {
            items: add_item(items, item)?,
            current: None,
        })),
        Answer::Bad => Ok(None),
    }
}

/// A unit takes a token: the state behind it, or `None` where no text goes on so.
#[tactic(auto, unfolding(crate::specs::UnitAnswers::unit_answer))]
pub fn step_unit(
    alloc: Global,
    token: &Terminal,
    state: UnitState,
) -> Result<Option<UnitState>, AllocError>
    ensures { IfOk result (λ r. Takes r (unit_answer 256 token.now state)) }
{
    let answer = advance(alloc, token, state.current)?;
    settle(state.items, answer)
}

/// The unit that the tokens were, if they were one.
pub fn finish_unit(state: UnitState) -> Option<UnitPart>
    ensures { result ≡ unit_finish 256 state }
{
    match state.current {
        None => Some(make_unit(state.items)),
        Some(_) => None,
    }
}
