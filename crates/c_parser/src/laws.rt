ghost use Rattle.std.specs.Prelude.{◌≡◌, ◌≤◌, ◌<◌, ◌≢◌, ℕ, List, Ok, Err};
ghost use Rattle.c_lex.specs.declared.token.Token.{Token};
ghost use Rattle.c_tree.specs.declared.declarations.Unit.{Unit};
ghost use Rattle.c_tree.specs.Height.{unit_height};
ghost use Rattle.parse_item.specs.ItemGrammar.{IsUnit};
ghost use Rattle.c_parser.specs.declared.refusals.ParseRefusal.TheVariants.{Syntax, TooDeep, NoMemory};
ghost use Rattle.c_parser.specs.Texts.{terminals, Stops, IsTooHigh};
ghost use Rattle.c_parser.specs.Answers.{answer_of};

/// The answer to a list of tokens is what the grammar says of it.
pub fn answers_texts()
    ensures sound { (ts : List Token) (u : Unit) → answer_of ts ≡ Ok u → IsUnit u (terminals ts) × (unit_height u ≤ 256) }
    ensures whole { (ts : List Token) (u : Unit) → IsUnit u (terminals ts) → unit_height u ≤ 256 → answer_of ts ≡ Ok u }
    ensures high { (ts : List Token) → answer_of ts ≡ Err TooDeep → IsTooHigh 256 (terminals ts) }
    ensures deep { (ts : List Token) (u : Unit) → IsUnit u (terminals ts) → 256 < unit_height u → answer_of ts ≡ Err TooDeep }
    ensures stops { (ts : List Token) (at : ℕ) → answer_of ts ≡ Err (Syntax at) → Stops (terminals ts) at }
    ensures syntax { (ts : List Token) (at : ℕ) → Stops (terminals ts) at → answer_of ts ≡ Err (Syntax at) }
    ensures memory { (ts : List Token) → answer_of ts ≢ Err NoMemory }
    ensures one { (ts : List Token) (u v : Unit) → IsUnit u (terminals ts) → IsUnit v (terminals ts) → u ≡ v }
{}
