ghost use Rattle.std.specs.Prelude.{◌≡◌, ◌≤◌, ℕ, Ok};
ghost use Rattle.c_tree.specs.Height.{unit_height};
ghost use Rattle.parse_item.specs.ItemGrammar.{IsUnit};
ghost use Rattle.c_parser.specs.Texts.{terminals};
ghost use Rattle.c_parser.specs.Answers.{answer_of};
ghost use Rattle.gen_tokens.specs.UnitPieces.{unit_tokens};
ghost use Rattle.gen_units.specs.Trees.{unit_tree};

/// The tokens of each number and each size from 1 are those of a unit, which is low, and the parser's answer to them.
pub fn parses_generated()
    ensures reads { (number size : ℕ) → 1 ≤ size → IsUnit (unit_tree number size) (terminals (unit_tokens number size)) }
    ensures low { (number size : ℕ) → unit_height (unit_tree number size) ≤ 21 }
    ensures answered { (number size : ℕ) → 1 ≤ size → answer_of (unit_tokens number size) ≡ Ok (unit_tree number size) }
{}
