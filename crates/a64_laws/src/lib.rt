//! Laws of what A64 instructions compute, over every number and register, for proofs about code that is made
//! of them: what ADDS and each condition decide of two numbers, overflow as a condition after SUBS, numbers from
//! MOVN and MOVK, and what an instruction of registers alone leaves. They take no step.
#![tactic(auto)]

ghost use Rattle.std.specs.Prelude.{◌≡◌, ◌≢◌, ℕ, pos, ◌+◌, ◌-◌, ◌/◌, ◌%◌, ◌<◌, ◌≤◌, ◌^◌, ◌≤ℤ◌, ◌<ℤ◌, ◌+ℤ◌, ◌-ℤ◌, false};
ghost use Rattle.hx_words.specs.TwosComplement.{signed_of, IsSigned};
ghost use Rattle.hx_mem.specs.Space.{Space};
ghost use Rattle.reg_map.specs.Registers.{Registers};
ghost use Rattle.a64_isa.specs.declared.instruction.AInstr.{AInstr as Instruction};
ghost use Rattle.a64_exec.specs.Values.{sum_of, complement, quarter_of, with_quarter};
ghost use Rattle.a64_exec.specs.Effects.{effect_of, act_of, next_pc};
ghost use Rattle.a64_exec.specs.Decides.{SubsDecides};
ghost use Rattle.a64_laws.specs.Decides.{AddsDecides};
ghost use Rattle.a64_laws.specs.RegisterForms.{LeavesRegister, sets_flags};

use a64_exec::event::AEvent;
use a64_isa::instruction::Condition;

/// What the conditions decide of two numbers after ADDS.
pub fn sum_laws()
    ensures equal { AddsDecides Condition.Equal (λ x y. (x + y) % 2 ^ 64 ≡ 0) }
    ensures not_equal { AddsDecides Condition.NotEqual (λ x y. (x + y) % 2 ^ 64 ≢ 0) }
    ensures carry_set { AddsDecides Condition.CarrySet (λ x y. 2 ^ 64 ≤ x + y) }
    ensures carry_clear { AddsDecides Condition.CarryClear (λ x y. x + y < 2 ^ 64) }
    ensures minus { AddsDecides Condition.Minus (λ x y. 2 ^ 63 ≤ sum_of x y) }
    ensures plus { AddsDecides Condition.Plus (λ x y. sum_of x y < 2 ^ 63) }
    ensures overflow { AddsDecides Condition.Overflow (λ x y. ¬ IsSigned 64 (signed_of 64 x +ℤ signed_of 64 y)) }
    ensures no_overflow { AddsDecides Condition.NoOverflow (λ x y. IsSigned 64 (signed_of 64 x +ℤ signed_of 64 y)) }
    ensures higher { AddsDecides Condition.Higher (λ x y. 2 ^ 64 < x + y) }
    ensures lower_or_same { AddsDecides Condition.LowerOrSame (λ x y. x + y ≤ 2 ^ 64) }
    ensures greater_or_equal { AddsDecides Condition.GreaterOrEqual (λ x y. pos 0 ≤ℤ (signed_of 64 x +ℤ signed_of 64 y)) }
    ensures less { AddsDecides Condition.Less (λ x y. (signed_of 64 x +ℤ signed_of 64 y) <ℤ pos 0) }
    ensures greater { AddsDecides Condition.Greater (λ x y. pos 0 <ℤ (signed_of 64 x +ℤ signed_of 64 y)) }
    ensures less_or_equal { AddsDecides Condition.LessOrEqual (λ x y. (signed_of 64 x +ℤ signed_of 64 y) ≤ℤ pos 0) }
{}

/// Overflow as a condition after SUBS: the signed difference is no number of 64 bits.
pub fn overflow_conditions()
    ensures overflow { SubsDecides Condition.Overflow (λ x y. ¬ IsSigned 64 (signed_of 64 x -ℤ signed_of 64 y)) }
    ensures no_overflow { SubsDecides Condition.NoOverflow (λ x y. IsSigned 64 (signed_of 64 x -ℤ signed_of 64 y)) }
{}

/// MOVN and three MOVK make any number of 64 bits, and MOVN alone one whose upper quarters are all ones.
pub fn negated_quarter_laws()
    ensures any { (v : ℕ) → v < 2 ^ 64 → with_quarter (with_quarter (with_quarter (complement (quarter_of (2 ^ 16 - 1 - v % 2 ^ 16) 0)) (v / 2 ^ 16 % 2 ^ 16) 1) (v / 2 ^ 32 % 2 ^ 16) 2) (v / 2 ^ 48) 3 ≡ v }
    ensures alone { (v : ℕ) → v < 2 ^ 64 → 2 ^ 64 - 2 ^ 16 ≤ v → complement (quarter_of (2 ^ 16 - 1 - v % 2 ^ 16) 0) ≡ v }
{}

/// An instruction of registers alone changes one register, the flags where it sets them, and the program counter.
pub fn register_form_laws()
    ensures registers { (i : Instruction) (s : Registers) (m : Space) (k : ℕ) → LeavesRegister i k → (effect_of i s m).registers.value k ≡ s.value k }
    ensures memory { (i : Instruction) (s : Registers) (m : Space) (k : ℕ) → LeavesRegister i k → (effect_of i s m).memory ≡ m }
    ensures flags { (i : Instruction) (s : Registers) (m : Space) (k : ℕ) → LeavesRegister i k → sets_flags i ≡ false → (act_of i s m).registers.af ≡ s.af }
    ensures other_flags { (i : Instruction) (s : Registers) (m : Space) (k : ℕ) → LeavesRegister i k → (act_of i s m).registers.xf ≡ s.xf }
    ensures goes_on { (i : Instruction) (s : Registers) (m : Space) (k : ℕ) → LeavesRegister i k → (act_of i s m).registers.pc ≡ next_pc s }
    ensures event { (i : Instruction) (s : Registers) (m : Space) (k : ℕ) → LeavesRegister i k → (act_of i s m).event ≡ AEvent.Next }
{}
