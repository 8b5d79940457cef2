//! The laws of words, over every list of words and every text. They take no step.

ghost use Rattle.std.specs.Prelude.{◌≡◌, ◌≤◌, ◌<◌, ◌^◌, ◌+◌, ◌%◌, ◌++◌, ◌∷◌, [], ℕ, List, Some, None, true, false, codes};
ghost use Rattle.std.specs.List.{list_all, list_any};
ghost use Rattle.std.specs.Str.{bytes_eq};
ghost use Rattle.std.specs.Char.{digit_value};
ghost use Rattle.ec_words.specs.Laws.{Pair, words_of, joined, has_comma};
ghost use Rattle.ec_words.specs.Numbers.{number_in, number_of, rounded};
ghost use Rattle.ec_words.specs.Markings.{pieces_after};
ghost use Rattle.ec_words.specs.Rule.{is_operand, operands, options, value_of, are_options};

/// Words are positional words and then the others; two options that stand side by side may change
/// their places, and so all of them theirs.
pub fn line_laws()
    ensures split { (words : List (List ℕ)) → words ≡ operands words ++ options words }
    ensures front { (words : List (List ℕ)) → list_all is_operand (operands words) ≡ true }
    ensures order { (names : List (List ℕ)) (before after : List Pair) (a b : Pair) → bytes_eq a.name b.name ≡ false
        → are_options names (words_of (before ++ a ∷ b ∷ after)) ≡ are_options names (words_of (before ++ b ∷ a ∷ after)) }
    ensures values { (name : List ℕ) (before after : List Pair) (a b : Pair) → bytes_eq a.name b.name ≡ false
        → value_of name (words_of (before ++ a ∷ b ∷ after)) ≡ value_of name (words_of (before ++ b ∷ a ∷ after)) }
{}

/// Numbers are below 2^64, zeros in front of digits count for nothing, `0x` alone is none, and a
/// capital letter is the digit that its small one is. Rounding goes to the next multiple of 4,096.
pub fn number_laws()
    ensures below { (text : List ℕ) (n : ℕ) → number_of text ≡ Some n → n < 2 ^ 64 }
    ensures zeros { (base digit : ℕ) (digits : List ℕ) → 1 ≤ base → number_in base (48 ∷ digit ∷ digits) ≡ number_in base (digit ∷ digits) }
    ensures prefix { number_of (codes "0x") ≡ None }
    ensures letters { (c : ℕ) → 65 ≤ c → c ≤ 90 → digit_value (c + 32) ≡ digit_value c }
    ensures multiple { (n : ℕ) → rounded n % 4096 ≡ 0 }
    ensures least { (n : ℕ) → (n ≤ rounded n) × (rounded n < n + 4096) }
{}

/// The pieces of a marking have no comma, and with commas between them they are its text.
pub fn marking_laws()
    ensures whole { (text : List ℕ) → joined (pieces_after [] text) ≡ text }
    ensures apart { (text : List ℕ) → list_any has_comma (pieces_after [] text) ≡ false }
{}
