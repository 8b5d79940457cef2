ghost use Rattle.std.specs.Prelude.{◌≡◌, ◌≤◌, ℕ, []};
ghost use Rattle.c_meaning.specs.Laws.{IsFixpoint, DepthIsEnough, StaysOver, GoesOn};
ghost use Rattle.c_meaning.specs.Source.{source};
ghost use Rattle.c_meaning.specs.Worked.{gives_seven, seven_run, endless, endless_run};

/// The meaning of each part is what its rule says over the meanings of its own parts, and no greater
/// depth of the rules in one another changes it.
pub fn meaning_is_fixpoint()
    ensures fixpoint { IsFixpoint }
    ensures depth { DepthIsEnough }
{}

/// A run that is over stays as it is with more units, and what any run has done, one with more units
/// has done too.
pub fn runs_go_on()
    ensures over { StaysOver }
    ensures further { GoesOn }
{}

/// Two programs, worked out by hand: `return 263`, with each number of units that is enough, and an
/// endless loop with 1,000.
pub fn worked_programs()
    ensures seven { (n : ℕ) → 3 ≤ n → source gives_seven [] n ≡ seven_run }
    ensures endless { source endless [] 1000 ≡ endless_run }
{}
