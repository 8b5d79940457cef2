ghost use Rattle.std.specs.Prelude.{◌≡◌, ◌≤◌, ℕ, [], ◌∷◌, List};
ghost use Rattle.c_types.specs.declared.types.Span.{Span};
ghost use Rattle.c_tree.specs.declared.expressions.Base.{Base};
ghost use Rattle.c_tree.specs.declared.expressions.TypeName.{TypeName};
ghost use Rattle.c_tree.specs.declared.declarations.Decl.{Decl};
ghost use Rattle.parse_terms.specs.declared.answer.Answer.TheVariants.{Done};
ghost use Rattle.parse_terms.specs.declared.terminal.Terminal.{Terminal};
ghost use Rattle.parse_terms.specs.declared.types.TypeState.{TypeState};
ghost use Rattle.parse_terms.specs.declared.types.TypeState.TheVariants.{Opening};
ghost use Rattle.parse_terms.specs.declared.declarators.DeclState.{DeclState};
ghost use Rattle.parse_terms.specs.declared.declarators.DeclState.TheVariants.{Stars};
ghost use Rattle.parse_terms.specs.Runs.{run, Finished, Came};
ghost use Rattle.parse_terms.specs.TypeNames.{type_name, type_step, Stops};
ghost use Rattle.parse_terms.specs.Declarators.{IsDecl, decl_step};
ghost use Rattle.parse_decl.specs.Ends.{CanEnd};
ghost use Rattle.c_tree.specs.declared.declarations.Params.{Params};
ghost use Rattle.c_lex.specs.declared.marks.Mark.TheVariants.{CloseParen};
ghost use Rattle.parse_terms.specs.Terminals.{mark};
ghost use Rattle.parse_terms.specs.declared.terminal.Sort.TheVariants.{Mark};
ghost use Rattle.parse_decl.specs.declared.params.ParamsState.{ParamsState};
ghost use Rattle.parse_decl.specs.declared.params.ParamsState.TheVariants.{Opening as ParamsOpening};
ghost use Rattle.parse_decl.specs.Params.{IsParams, params_step};
ghost use Rattle.c_tree.specs.declared.declarations.Init.{Init};
ghost use Rattle.parse_decl.specs.declared.inits.InitPart.{InitPart};
ghost use Rattle.parse_decl.specs.declared.inits.InitState.{InitState};
ghost use Rattle.parse_decl.specs.Inits.{IsInit, cap_init, init_start, init_step, EndsInit, IsInitRead};
ghost use Rattle.parse_decl.specs.TypedDecls.{EndsDecl, IsTypedDecl, TypedRun};

/// The machine of declarators reads each declarator that the grammar has, up to a token that ends
/// one, and no other.
pub fn reads_declarators()
    ensures complete { (d : Decl) (t : Terminal) (a b : List Terminal) → IsDecl d a (t ∷ b) → EndsDecl t.sort → run decl_step a (Stars []) ≡ Finished d (t ∷ b) }
    ensures sound { (d : Decl) (st : DeclState) (t : Terminal) (m a : List Terminal) → Came decl_step (Stars []) m st (t ∷ a) → decl_step t st ≡ Done d → IsDecl d m (t ∷ a) }
{}

/// The machine of types and then, with the stars that it read, that of declarators read a base and a
/// declarator behind it, and nothing else.
pub fn reads_typed_declarators()
    ensures complete { (y : Base) (d : Decl) (t : Terminal) (a b : List Terminal) → IsTypedDecl y d a (t ∷ b) → EndsDecl t.sort → TypedRun y d a t b }
    ensures sound { (y : Base) (ss : List Span) (d : Decl) (x : TypeState) (st : DeclState) (t u : Terminal) (m a b : List Terminal) → Came type_step Opening m x (t ∷ a) → type_step t x ≡ Done (type_name y ss) → Came decl_step (Stars ss) (t ∷ a) st (u ∷ b) → decl_step u st ≡ Done d → IsTypedDecl y d m (u ∷ b) }
{}

/// Whatever the machine of declarators holds can be brought to its end before each token that ends a
/// declarator.
pub fn completes_declarators()
    ensures { (st : DeclState) (t : Terminal) → EndsDecl t.sort → CanEnd DeclState Decl decl_step st t }
{}

/// Whatever the machine of types holds can be brought to its end before each token that ends a type,
/// a name among them.
pub fn completes_types()
    ensures { (x : TypeState) (t : Terminal) → Stops t.sort → CanEnd TypeState TypeName type_step x t }
{}

/// The machine of parameters reads what the grammar has between `(` and `)`, and nothing else.
pub fn reads_params()
    ensures complete { (ps : Params) (s : Span) (a b : List Terminal) → IsParams ps a (mark CloseParen s ∷ b) → run params_step a ParamsOpening ≡ Finished ps (mark CloseParen s ∷ b) }
    ensures sound { (ps : Params) (st : ParamsState) (t : Terminal) (m a : List Terminal) → Came params_step ParamsOpening m st (t ∷ a) → params_step t st ≡ Done ps → IsParams ps m (t ∷ a) }
    ensures ends { (ps : Params) (st : ParamsState) (t : Terminal) → params_step t st ≡ Done ps → t.sort ≡ Mark CloseParen }
{}

/// Whatever the machine of parameters holds can be brought to its end before each `)`.
pub fn completes_params()
    ensures { (st : ParamsState) (s : Span) → CanEnd ParamsState Params params_step st (mark CloseParen s) }
{}

/// The machine of initial values reads each value that the grammar has, up to a token that is no part
/// of it, and nothing else.
pub fn reads_inits()
    ensures complete { (n : ℕ) → 1 ≤ n → (i : Init) (t : Terminal) (a b : List Terminal) → IsInit i a (t ∷ b) → EndsInit t.sort → run (init_step n) a init_start ≡ Finished (cap_init n i) (t ∷ b) }
    ensures sound { (n : ℕ) → 1 ≤ n → (st : InitState) (p : InitPart) (t : Terminal) (z a : List Terminal) → Came (init_step n) init_start z st (t ∷ a) → init_step n t st ≡ Done p → IsInitRead n p z (t ∷ a) }
{}

/// Whatever the machine of initial values holds can be brought to its end before each token that is no
/// part of a value.
pub fn completes_inits()
    ensures { (n : ℕ) (st : InitState) (t : Terminal) → EndsInit t.sort → CanEnd InitState InitPart (init_step n) st t }
{}
