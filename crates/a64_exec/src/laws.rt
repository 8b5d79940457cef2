//! Laws of the words that the contract of `step` cites. They take no step.

ghost use Rattle.std.specs.Prelude.{◌≡◌, ◌≢◌, ℕ, ◌+◌, ◌-◌, ◌*◌, ◌/◌, ◌%◌, ◌<◌, ◌≤◌, ◌^◌, ◌≤ℤ◌, ◌<ℤ◌, ◌+ℤ◌, ◌-ℤ◌, ◌↔◌, false, int_div};
ghost use Rattle.hx_words.specs.TwosComplement.{signed_of, bits_of, IsSigned};
ghost use Rattle.hx_bits.specs.Widths.{sign_extended};
ghost use Rattle.reg_map.specs.declared.registers.A64Reg.{A64Reg};
ghost use Rattle.reg_map.specs.Registers.{Registers};
ghost use Rattle.a64_exec.specs.Values.{adds_of, subs_of, signed_quotient_of, difference_of, shifted_left, shifted_right_signed, quarter_of, with_quarter, bitfield_of, signed_bitfield_of};
ghost use Rattle.a64_exec.specs.Effects.{with_target};
ghost use Rattle.a64_exec.specs.Decides.{SubsDecides};

use a64_isa::instruction::Condition;
use hx_bits::Width;

/// What the conditions decide of two numbers after SUBS.
pub fn comparison_laws()
    ensures equal { SubsDecides Condition.Equal (λ x y. x ≡ y) }
    ensures not_equal { SubsDecides Condition.NotEqual (λ x y. x ≢ y) }
    ensures carry_set { SubsDecides Condition.CarrySet (λ x y. y ≤ x) }
    ensures carry_clear { SubsDecides Condition.CarryClear (λ x y. x < y) }
    ensures higher { SubsDecides Condition.Higher (λ x y. y < x) }
    ensures lower_or_same { SubsDecides Condition.LowerOrSame (λ x y. x ≤ y) }
    ensures greater_or_equal { SubsDecides Condition.GreaterOrEqual (λ x y. signed_of 64 y ≤ℤ signed_of 64 x) }
    ensures less { SubsDecides Condition.Less (λ x y. signed_of 64 x <ℤ signed_of 64 y) }
    ensures greater { SubsDecides Condition.Greater (λ x y. signed_of 64 y <ℤ signed_of 64 x) }
    ensures less_or_equal { SubsDecides Condition.LessOrEqual (λ x y. signed_of 64 x ≤ℤ signed_of 64 y) }
    ensures minus { SubsDecides Condition.Minus (λ x y. 2 ^ 63 ≤ difference_of x y) }
    ensures plus { SubsDecides Condition.Plus (λ x y. difference_of x y < 2 ^ 63) }
{}

/// UBFM and SBFM as shifts and extensions.
pub fn bitfield_laws()
    ensures right { (x k : ℕ) → x < 2 ^ 64 → k < 64 → bitfield_of x 63 k ≡ x / 2 ^ k }
    ensures right_signed { (x k : ℕ) → x < 2 ^ 64 → k < 64 → signed_bitfield_of x 63 k ≡ shifted_right_signed x k }
    ensures left { (x k : ℕ) → 0 < k → k < 64 → bitfield_of x (63 - k) (64 - k) ≡ shifted_left x k }
    ensures byte { (x : ℕ) → bitfield_of x 7 0 ≡ x % 2 ^ 8 }
    ensures half { (x : ℕ) → bitfield_of x 15 0 ≡ x % 2 ^ 16 }
    ensures word { (x : ℕ) → bitfield_of x 31 0 ≡ x % 2 ^ 32 }
    ensures signed_byte { (x : ℕ) → signed_bitfield_of x 7 0 ≡ sign_extended Width.W8 x }
    ensures signed_half { (x : ℕ) → signed_bitfield_of x 15 0 ≡ sign_extended Width.W16 x }
    ensures signed_word { (x : ℕ) → signed_bitfield_of x 31 0 ≡ sign_extended Width.W32 x }
{}

/// MOVZ and three MOVK make any number of 64 bits.
pub fn quarter_laws()
    ensures { (v : ℕ) → v < 2 ^ 64 → with_quarter (with_quarter (with_quarter (quarter_of (v % 2 ^ 16) 0) (v / 2 ^ 16 % 2 ^ 16) 1) (v / 2 ^ 32 % 2 ^ 16) 2) (v / 2 ^ 48) 3 ≡ v }
{}

/// A register that is given a value leaves the others.
pub fn target_laws()
    ensures { (s : Registers) (d : A64Reg) (v k : ℕ) → k ≢ d.0 → (with_target s d v).value k ≡ s.value k }
{}

/// V is clear exactly where the signed sum or difference is a number of 64 bits.
pub fn overflow_laws()
    ensures adds { (x y : ℕ) → x < 2 ^ 64 → y < 2 ^ 64 → ((adds_of x y).flags.v ≡ false) ↔ IsSigned 64 (signed_of 64 x +ℤ signed_of 64 y) }
    ensures subs { (x y : ℕ) → x < 2 ^ 64 → y < 2 ^ 64 → ((subs_of x y).flags.v ≡ false) ↔ IsSigned 64 (signed_of 64 x -ℤ signed_of 64 y) }
{}

/// SDIV is the quotient of the signed numbers toward 0, as 64 bits, where the divisor is not 0.
pub fn quotient_laws()
    ensures { (x y : ℕ) → x < 2 ^ 64 → y < 2 ^ 64 → 0 < y → signed_quotient_of x y ≡ bits_of 64 (int_div (signed_of 64 x) (signed_of 64 y)) }
{}
