ghost use Rattle.std.specs.Prelude.{◌≡◌, ℕ, List, []};
ghost use Rattle.c_program.specs.declared.expressions.Target.{Target};
ghost use Rattle.c_meaning.specs.States.{State};
ghost use Rattle.c_meaning.specs.Rules.{Setting, meaning};
ghost use Rattle.c_meaning.specs.Source.{stand};
ghost use Rattle.c_interp_steps.specs.declared.work.Now.{Now};
ghost use Rattle.c_interp_steps.specs.declared.work.Now.TheVariants as now;
ghost use Rattle.c_interp_steps.specs.declared.work.Pending.{Pending};
ghost use Rattle.c_interp_steps.specs.Stack.{total};
ghost use Rattle.c_interp_laws.specs.Later.{Later};

/// The state in which a run ends goes on from the state at each step: what was put stays put, and what
/// was taken stays taken.
pub fn states_go_on()
    ensures { (m : Setting) (n : Now) (ps : List Pending) (s : State) (k : ℕ) → Later s (total m n ps s k).state }
{}

/// A call for which nothing waits comes to what the meaning makes of it.
pub fn calls_alone()
    ensures { (m : Setting) (t : Target) (s : State) (k : ℕ) → total m (now.Call t []) [] s k ≡ stand ((meaning m).call t [] s k) }
{}
