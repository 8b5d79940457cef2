ghost use Rattle.std.specs.Prelude.{◌≡◌, [], ◌∷◌, true};
ghost use Rattle.c_typing.specs.declared.faults.TypeKind.{TypeKind};
ghost use Rattle.c_typing.specs.Units.{typed, unit_fault};
ghost use Rattle.c_typing.specs.Examples.{empty_unit, least_unit, least_program, address_unit, count_unit};

/// What the rules say of four small units, each a whole program: one without `main`, the least one,
/// one that takes the address of a local, and one that calls a variadic function with the wrong
/// number of extra arguments.
pub fn example_answers()
    ensures empty { typed (empty_unit ∷ []) true ≡ Err (unit_fault TypeKind.NoMain 0 0) }
    ensures least { typed (least_unit ∷ []) true ≡ Ok least_program }
    ensures address { typed (address_unit ∷ []) true ≡ Err (unit_fault TypeKind.NoAddress 0 27) }
    ensures count { typed (count_unit ∷ []) true ≡ Err (unit_fault TypeKind.VariadicCount 0 50) }
{}
