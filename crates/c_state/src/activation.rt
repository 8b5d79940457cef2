ghost use Rattle.std.specs.Prelude.{◌≡◌, get_or, slice_set};
ghost use Rattle.c_values.specs.Objects.{nothing, write_path};
ghost use Rattle.c_state.specs.Extras.{rest_of, ExtraGiven};
ghost use Rattle.c_state.specs.Seen.{rewritten};

use c_program::{PathStep, Target};
use c_types::IntTy;
use c_values::{Parts, Value, number, wrap, write};

/// An active call: of which function or adjustor, the values of its locals with its parameters first,
/// its extra arguments, how many of them `va_arg` has taken where `va_start` is in force, and what it
/// and the calls below it are charged with.
#[derive(Drop)]
pub struct Activation {
    pub who: Target,
    pub locals: Parts<Value>,
    pub extras: Parts<Value>,
    pub begun: Option<usize>,
    pub active: u64,
}

/// The parts with another value where a path leads in one of them.
pub(crate) fn rewrite(parts: &mut Parts<Value>, at: usize, path: &[PathStep], new: Value)
    ensures { parts.new ≡ slice_set parts.old at (write_path (get_or parts.old at nothing) path.now new) }
{
    if at >= parts.as_slice().len() {
        return;
    }
    let part = parts.replace(at, Value::Null);
    parts.set(at, write(part, path, new));
}

impl Activation {
    /// Another value where a path leads in a local.
    pub(crate) fn rewrite(&mut self, l: usize, path: &[PathStep], v: Value)
        ensures { self.new ≡ rewritten self.old l path.now v }
    {
        rewrite(&mut self.locals, l, path, v);
    }

    /// The next extra argument as a number of a type; none where `va_start` isn't in force or where all
    /// are taken.
    pub(crate) fn next_extra(&mut self, int: IntTy) -> Option<i128>
        ensures given { ExtraGiven int (rest_of self.old.begun self.old.extras) result (rest_of self.new.begun self.new.extras) }
        ensures who { self.new.who ≡ self.old.who }
        ensures locals { self.new.locals ≡ self.old.locals }
        ensures extras { self.new.extras ≡ self.old.extras }
        ensures active { self.new.active ≡ self.old.active }
    {
        let taken = self.begun?;
        let extra = self.extras.as_slice().get(taken)?;
        let value = wrap(int, number(extra));
        self.begun = Some(taken + 1);
        Some(value)
    }
}
