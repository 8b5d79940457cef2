ghost use Rattle.std.specs.Prelude.{◌≡◌, ◌≤◌, ℕ, List, Ok, true};
ghost use Rattle.case_gen.specs.Units.{unit_of};
ghost use Rattle.c_lex.specs.Reading.{tokens_of};
ghost use Rattle.gen_tokens.specs.Pieces.{Piece, joined, tokens_at, all_fit, AreSmall};
ghost use Rattle.gen_tokens.specs.UnitPieces.{unit_tokens};

/// Pieces that may stand one behind another are read as the tokens that they are.
pub fn reads_pieces()
    ensures { (pieces : List Piece) → all_fit pieces ≡ true → AreSmall pieces → tokens_of (joined pieces) ≡ Ok (tokens_at 0 pieces) }
{}

/// The text of each number and each size up to 1,000 is read as its tokens.
pub fn reads_generated()
    ensures { (number size : ℕ) → size ≤ 1000 → tokens_of (unit_of number size) ≡ Ok (unit_tokens number size) }
{}
