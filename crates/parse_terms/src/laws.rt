ghost use Rattle.std.specs.Prelude.{◌≡◌, ◌∷◌, List};
ghost use Rattle.c_tree.specs.declared.expressions.TypeName.{TypeName};
ghost use Rattle.parse_terms.specs.declared.answer.Answer.TheVariants.{Done};
ghost use Rattle.parse_terms.specs.declared.terminal.Terminal.{Terminal};
ghost use Rattle.parse_terms.specs.declared.types.TypeState.{TypeState};
ghost use Rattle.parse_terms.specs.declared.types.TypeState.TheVariants.{Opening};
ghost use Rattle.parse_terms.specs.Runs.{run, Finished, Came};
ghost use Rattle.parse_terms.specs.TypeNames.{IsTypeName, Stops, type_step};

/// The machine of types reads each type that the grammar has, up to a token that ends one, and no
/// other.
pub fn reads_types()
    ensures complete { (n : TypeName) (t : Terminal) (a b : List Terminal) → IsTypeName n a (t ∷ b) → Stops t.sort → run type_step a Opening ≡ Finished n (t ∷ b) }
    ensures sound { (n : TypeName) (x : TypeState) (t : Terminal) (m a : List Terminal) → Came type_step Opening m x (t ∷ a) → type_step t x ≡ Done n → IsTypeName n m (t ∷ a) }
{}
