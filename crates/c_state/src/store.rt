ghost use Rattle.std.specs.Prelude.{◌≡◌, slice_get, ℕ, List, IfOk, OnOk, MatchOption, Some, None, option_copied};
ghost use Rattle.c_values.specs.Objects.{nothing, write_path};
ghost use Rattle.c_meaning.specs.States.{read as read_in, read_root, written, opened, closed, own_local as own_local_in, with_rest, rest_in, extras_in, active_in, local_in, with_local};
ghost use Rattle.c_meaning.specs.Rules.{with_input};
ghost use Rattle.c_state.specs.Extras.{ExtraGiven};
ghost use Rattle.c_state.specs.Seen.{Unseen, state_of, fresh, walking, with_left, with_frames, activation_in, frames_of, frames_in, top_rewritten, below_rewritten};

use crate::activation::{Activation, rewrite};
use c_program::{PathStep, Target};
use c_types::IntTy;
use c_values::{Object, Parts, Root, Value, copy_value, find};
use hx_words::Items;
use std::alloc::{AllocError, Global};
use std::mem;

/// The globals' values, the innermost call and those below it with the last one called last, how many
/// bytes were taken, and the greatest sum of charges so far.
#[derive(Drop)]
pub struct Store {
    globals: Parts<Value>,
    top: Option<Activation>,
    below: Vec<Activation>,
    taken: u64,
    peak: u64,
}

impl Store {
    /// The state before any call, with these values of the globals.
    pub fn new(alloc: Global, globals: Parts<Value>) -> Store
        ensures { (h : Unseen) → state_of result h ≡ fresh globals h }
    {
        Store {
            globals,
            top: None,
            below: Vec::new(alloc),
            taken: 0,
            peak: 0,
        }
    }

    /// The bytes taken of the input.
    pub fn taken(&self) -> u64
        ensures { (h : Unseen) → result ≡ (state_of self.now h).world.taken }
    {
        self.taken
    }

    /// The greatest sum of charges so far.
    pub fn peak(&self) -> u64
        ensures { (h : Unseen) → result ≡ (state_of self.now h).peak }
    {
        self.peak
    }

    /// The active call at a place from the outermost on.
    fn activation(&self, n: u64) -> Option<&Activation>
        ensures { option_copied result ≡ activation_in self.now.top self.now.below.items n }
    {
        match &self.top {
            Some(top) => {
                if n == self.below.len() as u64 {
                    Some(top)
                } else {
                    self.below.get(n as usize)
                }
            }
            None => None,
        }
    }

    #[tactic(auto, using(crate::proofs::FrameLaws::local_in_store))]
    fn root(&self, root: Root) -> Option<&Value>
        ensures { (h : Unseen) → MatchOption result (read_root root (state_of self.now h) ≡ nothing) (λ v. v.now ≡ read_root root (state_of self.now h)) }
    {
        match root {
            Root::Global(g) => self.globals.as_slice().get(g as usize),
            Root::Local(n, l) => match self.activation(n) {
                Some(activation) => activation.locals.as_slice().get(l as usize),
                None => None,
            },
        }
    }

    /// A copy of what an object holds.
    #[tactic(auto, using(crate::proofs::PartLaws::read_nothing), unfolding(c_meaning::specs::States::read))]
    pub fn read(&self, alloc: Global, o: &Object) -> Result<Value, AllocError>
        ensures { IfOk result (λ v. (h : Unseen) → v ≡ read_in o.now (state_of self.now h)) }
    {
        let Some(root) = self.root(o.root) else {
            return Ok(Value::Number(0));
        };
        match find(root, o.path.as_slice()) {
            Some(v) => copy_value(alloc, v),
            None => Ok(Value::Number(0)),
        }
    }

    fn rewrite_top(&mut self, l: usize, path: &[PathStep], v: Value)
        ensures top { self.new.top ≡ top_rewritten self.old.top l path.now v }
        ensures below { self.new.below ≡ self.old.below }
        ensures globals { self.new.globals ≡ self.old.globals }
        ensures taken { self.new.taken ≡ self.old.taken }
        ensures peak { self.new.peak ≡ self.old.peak }
    {
        if let Some(activation) = &mut self.top {
            activation.rewrite(l, path, v);
        }
    }

    fn rewrite_below(&mut self, n: usize, l: usize, path: &[PathStep], v: Value)
        ensures below { self.new.below.items ≡ below_rewritten (slice_get self.old.below.items n) self.old.below.items n l path.now v }
        ensures top { self.new.top ≡ self.old.top }
        ensures globals { self.new.globals ≡ self.old.globals }
        ensures taken { self.new.taken ≡ self.old.taken }
        ensures peak { self.new.peak ≡ self.old.peak }
    {
        if let Some(activation) = self.below.get_mut(n) {
            activation.rewrite(l, path, v);
        }
    }

    #[tactic(auto, using(crate::proofs::FrameLaws::rewritings))]
    fn write_local(&mut self, n: u64, l: usize, path: &[PathStep], v: Value)
        ensures { (h : Unseen) → state_of self.new h ≡ with_frames (with_local (state_of self.old h).frames n l (write_path (local_in (state_of self.old h).frames n l) path.now v)) (state_of self.old h) }
    {
        if n == self.below.len() as u64 {
            self.rewrite_top(l, path, v);
        } else {
            self.rewrite_below(n as usize, l, path, v);
        }
    }

    /// The state in which an object holds another value.
    #[tactic(auto, unfolding(c_meaning::specs::States::written))]
    pub fn write(&mut self, o: &Object, v: Value)
        ensures { (h : Unseen) → state_of self.new h ≡ written o.now v (state_of self.old h) }
    {
        let path = o.path.as_slice();
        match o.root {
            Root::Global(g) => rewrite(&mut self.globals, g as usize, path, v),
            Root::Local(n, l) => self.write_local(n, l as usize, path, v),
        }
    }

    /// A local of the innermost call.
    #[tactic(auto, using(crate::proofs::FrameLaws::frames_length))]
    pub fn own_local(&self, alloc: Global, l: u32) -> Object
        ensures { (h : Unseen) → result ≡ own_local_in l (state_of self.now h) }
    {
        let below = match &self.top {
            Some(_) => self.below.len() as u64,
            None => 0,
        };
        Object {
            root: Root::Local(below, l),
            path: Items::new(alloc),
        }
    }

    fn active(&self) -> u64
        ensures { (h : Unseen) → result ≡ active_in (state_of self.now h).frames }
    {
        match &self.top {
            Some(activation) => activation.active,
            None => 0,
        }
    }

    /// The calls below a call that becomes the innermost.
    #[tactic(auto, using(crate::proofs::FrameLaws::frames_push, crate::proofs::FrameLaws::frames_none))]
    fn keep_below(&mut self, caller: Option<Activation>) -> Result<(), AllocError>
        ensures below { OnOk result (frames_of self.new.below.items ≡ frames_in caller self.old.below.items) }
        ensures top { self.new.top ≡ self.old.top }
        ensures globals { self.new.globals ≡ self.old.globals }
        ensures taken { self.new.taken ≡ self.old.taken }
        ensures peak { self.new.peak ≡ self.old.peak }
    {
        match caller {
            Some(caller) => self.below.push(caller)?,
            None => self.below.clear(),
        }
        Ok(())
    }

    /// A call of `who` becomes active, and is the innermost.
    #[tactic(auto, using(crate::proofs::FrameLaws::frames_push, crate::proofs::FrameLaws::frames_none))]
    pub fn open(
        &mut self,
        who: Target,
        charge: u64,
        locals: Parts<Value>,
        extras: Parts<Value>,
    ) -> Result<(), AllocError>
        ensures { OnOk result ((h : Unseen) → state_of self.new (walking who h) ≡ opened who charge locals extras (state_of self.old h)) }
    {
        let Some(active) = self.active().checked_add(charge) else {
            return Err(AllocError);
        };
        let activation = Activation {
            who,
            locals,
            extras,
            begun: None,
            active,
        };
        let caller = mem::replace(&mut self.top, Some(activation));
        self.keep_below(caller)?;
        self.peak = self.peak.max(active);
        Ok(())
    }

    /// The innermost call ends.
    #[tactic(auto, using(crate::proofs::FrameLaws::frames_push, crate::proofs::FrameLaws::frames_none))]
    pub fn close(&mut self)
        ensures { (h : Unseen) → state_of self.new h ≡ closed (state_of self.old h) }
    {
        if self.top.is_some() {
            self.top = self.below.pop();
        }
    }

    /// `va_start`: all extra arguments of the innermost call are there to be taken.
    pub fn begin_extras(&mut self)
        ensures { (h : Unseen) → state_of self.new h ≡ with_frames (with_rest (Some (extras_in (state_of self.old h).frames)) (state_of self.old h).frames) (state_of self.old h) }
    {
        if let Some(activation) = &mut self.top {
            activation.begun = Some(0);
        }
    }

    /// `va_start` is no longer in force.
    pub fn end_extras(&mut self)
        ensures { (h : Unseen) → state_of self.new h ≡ with_frames (with_rest None (state_of self.old h).frames) (state_of self.old h) }
    {
        if let Some(activation) = &mut self.top {
            activation.begun = None;
        }
    }

    /// The next extra argument of the innermost call, as a number of a type.
    pub fn next_extra(&mut self, int: IntTy) -> Option<i128>
        ensures given { (h : Unseen) → ExtraGiven int (rest_in (state_of self.old h).frames) result (rest_in (state_of self.new h).frames) }
        ensures kept { (h : Unseen) → state_of self.new h ≡ with_frames (with_rest (rest_in (state_of self.new h).frames) (state_of self.old h).frames) (state_of self.old h) }
    {
        match &mut self.top {
            Some(activation) => activation.next_extra(int),
            None => None,
        }
    }

    /// One more byte is taken.
    pub fn count_taken(&mut self) -> Result<(), AllocError>
        ensures { OnOk result ((h : Unseen) (left : List ℕ) → state_of self.new (with_left left h) ≡ with_input left (state_of self.old h)) }
    {
        let Some(taken) = self.taken.checked_add(1) else {
            return Err(AllocError);
        };
        self.taken = taken;
        Ok(())
    }
}
