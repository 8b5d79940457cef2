//! Laws of what x64 instructions compute, over every number and register, for proofs about code that is made of
//! them: what CMP and each condition decide of two numbers, CQO and IDIV as the truncated division of signed
//! numbers, MOVZX and MOVSX as numbers, and what an instruction of registers alone leaves. They take no step.
#![tactic(auto)]

ghost use Rattle.std.specs.Prelude.{◌≡◌, ◌≢◌, ℕ, ◌-◌, ◌%◌, ◌<◌, ◌≤◌, ◌^◌, ◌≤ℤ◌, ◌<ℤ◌, ◌-ℤ◌, false, Option, Some, None, int_div, int_rem};
ghost use Rattle.hx_words.specs.TwosComplement.{signed_of, bits_of, IsSigned};
ghost use Rattle.hx_bits.specs.Widths.{truncated, sign_extended};
ghost use Rattle.hx_mem.specs.Space.{Space};
ghost use Rattle.reg_map.specs.Registers.{Registers};
ghost use Rattle.x64_isa.specs.declared.instruction.Condition.TheVariants.{Below};
ghost use Rattle.x64_isa.specs.declared.instruction.XInstr.{XInstr as Instruction};
ghost use Rattle.x64_exec.specs.Words.{minus, signs, next_pc, division, signed_divided};
ghost use Rattle.x64_exec.specs.Effects.{effect_of};
ghost use Rattle.x64_laws.specs.Decides.{CmpDecides};
ghost use Rattle.x64_laws.specs.RegisterForms.{LeavesRegister, sets_flags};

use hx_bits::Width;
use x64_exec::event::XEvent;
use x64_isa::instruction::Condition;

/// What the conditions decide of two numbers after CMP: unsigned, signed, and the overflow and the sign of their
/// difference.
pub fn compare_laws()
    ensures equals { CmpDecides Condition.Equals (λ x y. x ≡ y) }
    ensures not_equals { CmpDecides Condition.NotEquals (λ x y. x ≢ y) }
    ensures above_or_equal { CmpDecides Condition.AboveOrEqual (λ x y. y ≤ x) }
    ensures below { CmpDecides Below (λ x y. x < y) }
    ensures above { CmpDecides Condition.Above (λ x y. y < x) }
    ensures below_or_equal { CmpDecides Condition.BelowOrEqual (λ x y. x ≤ y) }
    ensures greater_or_equal { CmpDecides Condition.GreaterOrEqual (λ x y. signed_of 64 y ≤ℤ signed_of 64 x) }
    ensures less_than { CmpDecides Condition.LessThan (λ x y. signed_of 64 x <ℤ signed_of 64 y) }
    ensures greater_than { CmpDecides Condition.GreaterThan (λ x y. signed_of 64 y <ℤ signed_of 64 x) }
    ensures less_or_equal { CmpDecides Condition.LessOrEqual (λ x y. signed_of 64 x ≤ℤ signed_of 64 y) }
    ensures sign { CmpDecides Condition.Sign (λ x y. 2 ^ 63 ≤ minus x y) }
    ensures not_sign { CmpDecides Condition.NotSign (λ x y. minus x y < 2 ^ 63) }
    ensures not_overflow { CmpDecides Condition.NotOverflow (λ x y. IsSigned 64 (signed_of 64 x -ℤ signed_of 64 y)) }
    ensures overflow { CmpDecides Condition.Overflow (λ x y. ¬ IsSigned 64 (signed_of 64 x -ℤ signed_of 64 y)) }
{}

/// CQO and then IDIV: the quotient of the signed numbers toward 0 and its remainder. It faults where the divisor is
/// 0, and where the least number is divided by -1.
pub fn division_laws()
    ensures quotient { (x d : ℕ) → x < 2 ^ 64 → d < 2 ^ 64 → 0 < d → (x ≡ 2 ^ 63 → d ≢ 2 ^ 64 - 1) → signed_divided (signs x) x d ≡ Some (division (bits_of 64 (int_div (signed_of 64 x) (signed_of 64 d))) (bits_of 64 (int_rem (signed_of 64 x) (signed_of 64 d)))) }
    ensures by_zero { (x : ℕ) → signed_divided (signs x) x 0 ≡ None }
    ensures least { signed_divided (signs (2 ^ 63)) (2 ^ 63) (2 ^ 64 - 1) ≡ None }
{}

/// MOVZX keeps the number of the low bits, MOVSX and MOVSXD the signed number that they stand for.
pub fn extension_laws()
    ensures byte { (v : ℕ) → truncated Width.W8 v ≡ v % 2 ^ 8 }
    ensures half { (v : ℕ) → truncated Width.W16 v ≡ v % 2 ^ 16 }
    ensures signed_byte { (v : ℕ) → signed_of 64 (sign_extended Width.W8 v) ≡ signed_of 8 (v % 2 ^ 8) }
    ensures signed_half { (v : ℕ) → signed_of 64 (sign_extended Width.W16 v) ≡ signed_of 16 (v % 2 ^ 16) }
    ensures signed_word { (v : ℕ) → signed_of 64 (sign_extended Width.W32 v) ≡ signed_of 32 (v % 2 ^ 32) }
{}

/// An instruction of registers alone changes one register at most, the flags where it sets them, and the program
/// counter.
pub fn register_form_laws()
    ensures registers { (i : Instruction) (len : ℕ) (s : Registers) (m : Space) (k : ℕ) → LeavesRegister i k → (effect_of i len s m).cpu.value k ≡ s.value k }
    ensures memory { (i : Instruction) (len : ℕ) (s : Registers) (m : Space) (k : ℕ) → LeavesRegister i k → (effect_of i len s m).mem ≡ m }
    ensures flags { (i : Instruction) (len : ℕ) (s : Registers) (m : Space) (k : ℕ) → LeavesRegister i k → sets_flags i ≡ false → (effect_of i len s m).cpu.xf ≡ s.xf }
    ensures other_flags { (i : Instruction) (len : ℕ) (s : Registers) (m : Space) (k : ℕ) → LeavesRegister i k → (effect_of i len s m).cpu.af ≡ s.af }
    ensures goes_on { (i : Instruction) (len : ℕ) (s : Registers) (m : Space) (k : ℕ) → LeavesRegister i k → (effect_of i len s m).cpu.pc ≡ next_pc len s }
    ensures event { (i : Instruction) (len : ℕ) (s : Registers) (m : Space) (k : ℕ) → LeavesRegister i k → (effect_of i len s m).event ≡ XEvent.Next }
{}
