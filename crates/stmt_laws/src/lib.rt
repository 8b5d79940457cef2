//! Laws of the machine that reads statements (crate `parse_stmt`): it reads the bodies that the grammar
//! has, and no others, each as its tree or as one that is too high; and what it has taken always begins
//! a body.
#![tactic(auto)]

ghost use Rattle.std.specs.Prelude.{◌≡◌, ◌≤◌, [], ◌∷◌, ℕ, List};
ghost use Rattle.c_types.specs.declared.types.Span.{Span};
ghost use Rattle.c_tree.specs.declared.statements.BlockItem.{BlockItem};
ghost use Rattle.c_lex.specs.declared.marks.Mark.TheVariants.{CloseBrace};
ghost use Rattle.parse_terms.specs.declared.answer.Answer.TheVariants.{Done};
ghost use Rattle.parse_terms.specs.declared.terminal.Terminal.{Terminal};
ghost use Rattle.parse_terms.specs.Terminals.{mark};
ghost use Rattle.parse_terms.specs.Runs.{run, Finished, Came};
ghost use Rattle.parse_decl.specs.Ends.{CanEnd};
ghost use Rattle.parse_stmt.specs.declared.state.BodyState.{BodyState};
ghost use Rattle.parse_stmt.specs.StmtGrammar.{IsBlockItems};
ghost use Rattle.parse_stmt.specs.StmtParts.{Body, cap_body};
ghost use Rattle.parse_stmt.specs.StmtMachine.{body_start, body_step};
ghost use Rattle.stmt_laws.specs.Bodies.{IsBodyRead};

/// The machine of statements reads each body that the grammar has, up to the `}` that ends it, and no
/// other.
pub fn reads_bodies()
    ensures complete { (n : ℕ) → 1 ≤ n → (xs : List BlockItem) (s : Span) (a b : List Terminal) → IsBlockItems xs a (mark CloseBrace s ∷ b) → run (body_step n) a body_start ≡ Finished (cap_body n xs) (mark CloseBrace s ∷ b) }
    ensures sound { (n : ℕ) → 1 ≤ n → (st : BodyState) (p : Body) (t : Terminal) (z a : List Terminal) → Came (body_step n) body_start z st (t ∷ a) → body_step n t st ≡ Done p → IsBodyRead n p z t a }
{}

/// What the machine of statements has taken begins a body: tokens follow that end it, before whatever
/// `}`.
pub fn completes_bodies()
    ensures { (n : ℕ) → 1 ≤ n → (z : List Terminal) (st : BodyState) → Came (body_step n) body_start z st [] → (s : Span) → CanEnd BodyState Body (body_step n) st (mark CloseBrace s) }
{}
