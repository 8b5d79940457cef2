ghost use Rattle.std.specs.Prelude.{◌≡◌, [], ◌∷◌};
ghost use Rattle.ec_limits.specs.Limits.{first_passed};

use ec_report::LimitKind;

/// A count, and the number that it may not pass.
#[derive(Clone, Copy, Debug)]
pub struct Count {
    pub which: LimitKind,
    pub most: u64,
    pub count: u64,
}

/// A count that passes its number; the largest `u64` where it is more.
#[derive(Clone, Copy, Debug, PartialEq, Eq)]
pub struct Passed {
    pub which: LimitKind,
    pub count: u64,
}

impl Count {
    /// A count against a number.
    pub fn new(which: LimitKind, most: u64, count: u64) -> Count
        ensures { result ≡ record { which = which; most = most; count = count } }
    {
        Count { which, most, count }
    }
    /// This count, where it passes its number.
    pub fn passed(self) -> Option<Passed>
        ensures { result ≡ first_passed (self ∷ []) }
    {
        if self.count > self.most {
            return Some(Passed {
                which: self.which,
                count: self.count,
            });
        }
        None
    }
}
