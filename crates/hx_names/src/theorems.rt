//! The laws of names, over every name. They take no step.

ghost use Rattle.std.specs.Prelude.{◌≡◌, ℕ, Bool, List, Some};
ghost use Rattle.hx_names.specs.Mangling.{mangled, unmangled, thunk_name_of};

/// Names are told apart.
pub fn name_laws()
    // A name that was mangled is given back, and no two names become one.
    ensures back { (name : List ℕ) → unmangled (mangled name) ≡ Some name }
    ensures only { (name inner : List ℕ) → unmangled name ≡ Some inner → name ≡ mangled inner }
    // A thunk's name tells its direction and the code.
    ensures thunk { (entry other : Bool) (code more : List ℕ) → thunk_name_of entry code ≡ thunk_name_of other more → (entry ≡ other) × (code ≡ more) }
{}
