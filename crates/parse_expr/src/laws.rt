ghost use Rattle.std.specs.Prelude.{◌≡◌, ◌≤◌, [], ◌∷◌, ℕ, Bool, true, false, List};
ghost use Rattle.parse_terms.specs.declared.answer.Answer.TheVariants.{Done};
ghost use Rattle.parse_expr.specs.declared.parts.Part.{Part};
ghost use Rattle.parse_expr.specs.declared.state.ExprState.{ExprState};
ghost use Rattle.c_tree.specs.declared.expressions.Expr.{Expr};
ghost use Rattle.parse_terms.specs.declared.terminal.Terminal.{Terminal};
ghost use Rattle.parse_terms.specs.Runs.{run, Finished, Came};
ghost use Rattle.parse_expr.specs.ExprGrammar.{IsAssign, is_effect};
ghost use Rattle.parse_expr.specs.Parts.{cap};
ghost use Rattle.parse_expr.specs.ExprMachine.{Ends, start, expr_step, IsRead, CanEnd};

/// The machine of expressions reads each expression that the grammar has, up to a token that ends one,
/// and no other; where it is to be an effect, each effect and nothing else.
pub fn reads_expressions()
    ensures whole { (n : ℕ) → 1 ≤ n → (x : Expr) (t : Terminal) → Ends t.sort → (a b : List Terminal) → IsAssign x a (t ∷ b) → run (expr_step n) a (start false) ≡ Finished (cap n x) (t ∷ b) }
    ensures effect { (n : ℕ) → 1 ≤ n → (x : Expr) → is_effect x ≡ true → (t : Terminal) → Ends t.sort → (a b : List Terminal) → IsAssign x a (t ∷ b) → run (expr_step n) a (start true) ≡ Finished (cap n x) (t ∷ b) }
    ensures sound { (n : ℕ) → 1 ≤ n → (e : Bool) (st : ExprState) (p : Part) (t : Terminal) (z a : List Terminal) → Came (expr_step n) (start e) z st (t ∷ a) → expr_step n t st ≡ Done p → IsRead n e p z t a }
{}

/// What the machine of expressions has taken begins an expression: tokens follow that end it, before
/// whatever token that ends one.
pub fn completes_expressions()
    ensures { (n : ℕ) → 1 ≤ n → (e : Bool) (z : List Terminal) (st : ExprState) → Came (expr_step n) (start e) z st [] → (t : Terminal) → Ends t.sort → (b : List Terminal) → CanEnd n st t b }
{}
