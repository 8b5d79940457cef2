ghost use Rattle.std.specs.Prelude.{◌≡◌, [], ◌∷◌, ◌++◌, ◌<◌, length, slice_get, slice_set, IfOk, OnOk, OnErr};

use std::alloc::{AllocError, Global};
use std::marker::Model;
use std::mem;

/// The parts of an aggregate, which contracts see as their list.
#[derive(Debug, Drop)]
pub struct Parts<T> {
    items: Vec<T>,
}

impl<T> Model for Parts<T> {
    ghost use Rattle.std.specs.Prelude.{List};
    ghost use Rattle.std.specs.Coded.{coded_list};

    ghost Value = { List T };

    ghost coded = { coded_list T.code };

    ghost view = { λ it. it.items.items };
}

impl<T> Parts<T> {
    pub fn new(alloc: Global) -> Parts<T>
        ensures { result ≡ [] }
    {
        Parts {
            items: Vec::new(alloc),
        }
    }

    pub fn as_slice(&self) -> &[T]
        ensures { result.now ≡ self.now }
    {
        self.items.as_slice()
    }

    /// Puts another part in the place of one, which it answers.
    pub fn replace(&mut self, at: usize, part: T) -> T
        requires { at < length self.old }
        ensures old { slice_get self.old at ≡ Some result }
        ensures new { self.new ≡ slice_set self.old at part }
    {
        mem::replace(&mut self.items[at], part)
    }
}

impl<T: Drop> Parts<T> {
    /// Puts another part in the place of one.
    pub fn set(&mut self, at: usize, part: T)
        requires { at < length self.old }
        ensures { self.new ≡ slice_set self.old at part }
    {
        self.items[at] = part;
    }

    /// One more part, the last.
    pub fn push(&mut self, part: T) -> Result<(), AllocError>
        ensures ok { OnOk result (self.new ≡ self.old ++ part ∷ []) }
        ensures err { OnErr result (self.new ≡ self.old) }
    {
        self.items.push(part)?;
        Ok(())
    }
}
