//! What holds of the sequence alone. The laws take no step.

ghost use Rattle.std.specs.Prelude.{◌≡◌, ◌++◌, ℕ, ℤ, List, length};
ghost use Rattle.hx_words.specs.TwosComplement.{IsSigned};
ghost use Rattle.fast_forward.specs.Sequence.{sequence_of, distance, Jumps, instructions, spelled, AllValid};

/// A sequence leads where it was made to lead, whatever follows, and bytes are the sequence of one distance alone. It is
/// the spelling of its instructions, by the table of x64.
pub fn leads()
    ensures back { (at target : ℕ) (rest : List ℕ) → IsSigned 32 (distance at target) → Jumps (sequence_of (distance at target) ++ rest) (distance at target) }
    ensures one { (bytes : List ℕ) (y z : ℤ) → Jumps bytes y → Jumps bytes z → y ≡ z }
    ensures spelled_as { (z : ℤ) → sequence_of z ≡ spelled (instructions z) }
    ensures valid { (z : ℤ) → IsSigned 32 z → AllValid (instructions z) }
    ensures size { (z : ℤ) → length (sequence_of z) ≡ 16 }
{}
