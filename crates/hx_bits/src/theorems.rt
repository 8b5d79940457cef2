//! The laws of the words that the contracts cite, over every word and number. They take no step.

ghost use Rattle.std.specs.Prelude.{◌≡◌, ◌≤◌, ◌<◌, ◌+◌, ◌*◌, ◌%◌, ◌^◌, ◌++◌, ◌⊎◌, ℕ, List, Some, length, take, drop};
ghost use Rattle.hx_words.specs.LittleEndian.{number_of, bytes_of, AreBytes};
ghost use Rattle.hx_words.specs.TwosComplement.{signed_of};
ghost use Rattle.hx_bits.specs.declared.widths.Width.{Width as OperandWidth};
ghost use Rattle.hx_bits.specs.Bits.{field_of, with_field};
ghost use Rattle.hx_bits.specs.Numbers.{number_at};
ghost use Rattle.hx_bits.specs.Widths.{bits_in, truncated, sign_extended};

/// A field is some bits of a word, and a put changes these alone.
pub fn field_laws()
    // A field that was put is read back.
    ensures read_back { (lo len w v : ℕ) → v < 2 ^ len → field_of lo len (with_field lo len w v) ≡ v }
    // Every field below or above it is kept.
    ensures kept { (lo len w v at n : ℕ) → v < 2 ^ len → (at + n ≤ lo) ⊎ (lo + len ≤ at) → field_of at n (with_field lo len w v) ≡ field_of at n w }
    // A put of what was read changes nothing, and the last of two puts stays.
    ensures unchanged { (lo len w : ℕ) → with_field lo len w (field_of lo len w) ≡ w }
    ensures last { (lo len w u v : ℕ) → u < 2 ^ len → with_field lo len (with_field lo len w u) v ≡ with_field lo len w v }
    // A field of a field is a field of the word: so each bit of a field is the bit of the word there.
    ensures nested { (lo len at n w : ℕ) → at + n ≤ len → field_of at n (field_of lo len w) ≡ field_of (lo + at) n w }
    ensures whole { (lo len w v : ℕ) → lo + len ≤ 32 → w < 2 ^ 32 → v < 2 ^ len → with_field lo len w v < 2 ^ 32 }
{}

/// Little-endian numbers and their bytes determine each other.
pub fn number_laws()
    ensures number { (n v : ℕ) → v < 256 ^ n → number_of (bytes_of n v) ≡ v }
    ensures bytes { (xs : List ℕ) → AreBytes xs → bytes_of (length xs) (number_of xs) ≡ xs }
    // A number is read where its bytes stand, and its bytes are those that stand there.
    ensures found { (n v : ℕ) (before after : List ℕ) → number_at n (before ++ (bytes_of n v ++ after)) (length before) ≡ Some (v % 256 ^ n) }
    ensures stands { (n at v : ℕ) (xs : List ℕ) → AreBytes xs → number_at n xs at ≡ Some v → bytes_of n v ≡ take n (drop at xs) }
{}

/// Both extensions keep the low bits; by its sign, the signed number too.
pub fn width_laws()
    ensures low { (w : OperandWidth) (v : ℕ) → truncated w (sign_extended w v) ≡ truncated w v }
    ensures signed { (w : OperandWidth) (v : ℕ) → signed_of 64 (sign_extended w v) ≡ signed_of (bits_in w) (truncated w v) }
    ensures zero { (w : OperandWidth) (v : ℕ) → truncated w (truncated w v) ≡ truncated w v }
    ensures bound { (w : OperandWidth) (v : ℕ) → sign_extended w v < 2 ^ 64 }
{}
