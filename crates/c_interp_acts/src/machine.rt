ghost use Rattle.std.specs.Prelude.{◌≡◌, ℕ, ◌+◌, ◌*◌, length, IfOk};
ghost use Rattle.c_meaning.specs.States.{State};
ghost use Rattle.c_meaning.specs.Rules.{Setting};
ghost use Rattle.c_interp_steps.specs.Stack.{total, turned, load, turn_load};

use c_interp_steps::{Now, Pending, Turn};
use c_state::Store;
use std::alloc::AllocError;

/// The state, the work that waits with the last put on it last, and the units left.
#[derive(Drop)]
pub struct Machine<'a> {
    pub store: Store,
    pub stack: Vec<Pending<'a>>,
    pub left: u64,
}

impl<'a> Machine<'a> {
    /// Puts what is to wait on the stack.
    #[tactic(auto, unfolding(c_interp_steps::specs::Stack::turned))]
    pub fn put(&mut self, turn: Turn<'a>) -> Result<Now<'a>, AllocError>
        ensures goes { IfOk result (λ n. (m : Setting) (s : State) (k : ℕ) → total m n self.new.stack.items s k ≡ turned m turn.entry self.old.stack.items s k) }
        ensures less { IfOk result (λ n. load n self.new.stack.items ≡ turn_load turn.entry + 3 * length self.old.stack.items) }
        ensures store { self.new.store ≡ self.old.store }
        ensures left { self.new.left ≡ self.old.left }
    {
        match turn {
            Turn::Go(now) => Ok(now),
            Turn::Await(pending, now) => {
                self.stack.push(pending)?;
                Ok(now)
            }
        }
    }
}
