ghost use Rattle.std.specs.Prelude.{◌≡◌, ◌≤◌, ℕ, List, [], ◌∷◌, Some, None, Ok, true};
ghost use Rattle.hx_io.specs.Files.{Files};
ghost use Rattle.case_gen.specs.Units.{unit_of};
ghost use Rattle.c_typing.specs.Units.{typed};
ghost use Rattle.ec_limits.specs.Limits.{passed};
ghost use Rattle.ec_units.specs.Verdicts.{judged, verdict, passes};
ghost use Rattle.gen_units.specs.Trees.{unit_tree};
ghost use Rattle.gen_laws.specs.Programs.{program_at};

/// The tree of each number and each size from 1 to 1,000 is a whole program, which passes no limit.
pub fn types_generated()
    ensures program { (number size : ℕ) → 1 ≤ size → size ≤ 1000 → typed (unit_tree number size ∷ []) true ≡ Ok (program_at number size) }
    ensures limits { (number size longest : ℕ) → size ≤ 1000 → longest ≤ 255 → passed (program_at number size) longest ≡ None }
{}

/// The text of each number and each size from 1 to 1,000 passes the checker as a whole program, whatever its name is.
pub fn checks_generated()
    ensures text { (name : List ℕ) (number size : ℕ) → 1 ≤ size → size ≤ 1000 → judged true (record { name = name; file = Some (unit_of number size) } ∷ []) ≡ passes (program_at number size) (unit_of number size ∷ []) }
    ensures file { (files : Files) (name : List ℕ) (number size : ℕ) → 1 ≤ size → size ≤ 1000 → files name ≡ Some (unit_of number size) → verdict files (name ∷ []) true ≡ passes (program_at number size) (unit_of number size ∷ []) }
{}
