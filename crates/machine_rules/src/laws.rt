//! Laws of the machine, over every code map, state and number of steps. They take no step.

ghost use Rattle.std.specs.Prelude.{◌≡◌, ℕ, ◌+◌};
ghost use Rattle.machine_rules.specs.declared.ends.GuestEnd.{GuestEnd as End};
ghost use Rattle.machine_rules.specs.State.{Machine, Code, After, Ends};
ghost use Rattle.machine_rules.specs.Steps.{step_of};
ghost use Rattle.machine_rules.specs.Runs.{run_from, no_step, machine_of};
ghost use Rattle.machine_rules.specs.Laws.{joined, KeepsRights};

/// Runs go on, and end once.
pub fn run_laws()
    // A run of n + k steps is one of n steps and then, from what it came to, one of k.
    ensures joined { (code : Code) (n k : ℕ) (a : After) → run_from code (n + k) a ≡ joined (run_from code n a) (run_from code k (run_from code n a).after) }
    // After an end nothing changes.
    ensures ended { (code : Code) (n : ℕ) (end : End) (m : Machine) → run_from code n (Ends end m) ≡ no_step (Ends end m) }
{}

/// A step changes no byte outside writable regions, and neither places nor rights of any.
pub fn step_laws()
    ensures keeps { (code : Code) (m : Machine) → KeepsRights m.guest.mem (machine_of (step_of code m).after).guest.mem }
{}
