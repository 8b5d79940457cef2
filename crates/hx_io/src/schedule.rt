//! Which calls of a failing object fail.
ghost use Rattle.std.specs.Prelude.{◌≡◌, ◌≤◌, ◌↔◌, IsTrue};
ghost use Rattle.hx_words.specs.Counts.{most_faults};
ghost use Rattle.hx_io.specs.Faults.{counted};
ghost use Rattle.hx_io.specs.Plan.{FailsNext, after_call, new_plan};

use crate::faults::faults_after;
use std::marker::Model;

/// The numbers, from 0, of the calls that fail, with counts of the calls and of those that failed.
#[derive(Debug, Drop)]
pub struct Schedule {
    fails: Vec<u64>,
    /// The number of the next call, while there is a u64 for it.
    upcoming: Option<u64>,
    faults: u64,
}

impl Model for Schedule {
    ghost use Rattle.hx_io.specs.Plan.{Plan, calls_before};

    ghost Value = { Plan };

    ghost view = { λ s. record { fails = s.fails.items; calls = calls_before s.upcoming; faults = s.faults } };
}

impl Schedule {
    /// The schedule of an object that is new.
    pub(crate) fn new(fails: Vec<u64>) -> Schedule
        ensures { result ≡ new_plan fails.items }
    {
        Schedule {
            fails,
            upcoming: Some(0),
            faults: 0,
        }
    }

    /// Whether the next call is one that fails.
    fn fails_next(&self) -> bool
        ensures { IsTrue result ↔ FailsNext self.now }
    {
        match self.upcoming {
            Some(number) => self.fails.contains(&number),
            None => false,
        }
    }

    /// Counts a call, and says whether it is one that fails.
    pub(crate) fn count_call(&mut self) -> bool
        ensures fails { IsTrue result ↔ FailsNext self.old }
        ensures counts { self.new ≡ after_call self.old result }
        ensures counted { self.old.faults ≤ self.new.faults }
        ensures bounded { self.new.faults ≤ most_faults }
    {
        let fails = self.fails_next();
        if let Some(number) = self.upcoming {
            self.upcoming = number.checked_add(1);
        }
        self.faults = faults_after(self.faults, fails);
        fails
    }

    /// Counts a fault of a call that was not to fail, if it had one.
    pub(crate) fn count_fault(&mut self, failed: bool)
        ensures counts { self.new ≡ record self.old { faults = counted self.old.faults failed } }
        ensures counted { self.old.faults ≤ self.new.faults }
        ensures bounded { self.new.faults ≤ most_faults }
    {
        self.faults = faults_after(self.faults, failed);
    }
}
