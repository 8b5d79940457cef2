//! What holds of the runs of operations. These functions take no step.

ghost use Rattle.std.specs.Prelude.{◌≡◌, ◌+◌, ℕ, [], ◌∷◌, IsTrue};
ghost use Rattle.ir_core.specs.Worlds.{Codes, World, End, Config, Ended, Wrong};
ghost use Rattle.ir_core.specs.Steps.{step, steps};
ghost use Rattle.ir_core.specs.Accounts.{counted, ticks, works, crossings};
ghost use Rattle.ir_core.specs.Laws.{world_in, GoesOn};
ghost use Rattle.ir_core.specs.Worked.{loop_program, loop_start, loop_end, call_program, call_start, call_end};
ghost use Rattle.ir_core.specs.MoreRows.{trap_program, trap_start, trap_end, extra_program, extra_start, extra_end};
ghost use Rattle.ir_core.specs.Start.{codes_of};
ghost use Rattle.ir_core.specs.Cells.{byte_cells};
ghost use Rattle.ir_core.specs.Worlds.{Globals};
ghost use Rattle.ir_core.specs.Access.{binary_of, converted};
ghost use Rattle.ir_core.specs.Operands.{is_signature};
ghost use Rattle.sig_core.specs.declared.classes.Signature.{Signature};
ghost use Rattle.sig_core.specs.Signatures.{Allowed};

use crate::operations::IrBinary;
use c_types::IntTy;

/// A configuration and a count of steps determine the configuration behind them.
pub fn run_laws()
    // What has ended stays as it is.
    ensures ended { (p : Codes) (n : ℕ) (o : End) (w : World) → steps p n (Ended o w) ≡ Ended o w }
    ensures wrong { (p : Codes) (n : ℕ) (w : World) → steps p n (Wrong w) ≡ Wrong w }
    // So many steps and then others are one run, and so are their accounts.
    ensures sums { (p : Codes) (m n : ℕ) (c : Config) → steps p (m + n) c ≡ steps p n (steps p m c) }
    ensures accounts { (cost : Config → ℕ) (p : Codes) (m n : ℕ) (c : Config)
        → counted cost p (m + n) c ≡ counted cost p m c + counted cost p n (steps p m c) }
    // What was seen is seen for good.
    ensures grows { (p : Codes) (n : ℕ) (c : Config) → GoesOn (world_in c) (world_in (steps p n c)) }
{}

/// A loop that puts three bytes, worked out by hand.
pub fn loop_row()
    ensures end { steps (codes_of loop_program) 22 loop_start ≡ loop_end }
    ensures ticks { ticks (codes_of loop_program) 22 loop_start ≡ 26 }
    ensures works { works (codes_of loop_program) 22 loop_start ≡ 21 }
    ensures crossings { crossings (codes_of loop_program) 22 loop_start ≡ 0 }
{}

/// A call of an adjustor with a struct, worked out by hand.
pub fn call_row()
    ensures end { steps (codes_of call_program) 10 call_start ≡ call_end }
    ensures ticks { ticks (codes_of call_program) 10 call_start ≡ 32 }
    ensures works { works (codes_of call_program) 10 call_start ≡ 10 }
    ensures crossings { crossings (codes_of call_program) 10 call_start ≡ 16 }
{}

/// A store through a pointer, a read by an index, and a trap, worked out by hand.
pub fn trap_row()
    ensures end { steps (codes_of trap_program) 10 trap_start ≡ trap_end }
    ensures ticks { ticks (codes_of trap_program) 10 trap_start ≡ 13 }
{}

/// A call through a pointer with an extra argument, worked out by hand.
pub fn extra_row()
    ensures end { steps (codes_of extra_program) 9 extra_start ≡ extra_end }
    ensures ticks { ticks (codes_of extra_program) 9 extra_start ≡ 25 }
    ensures crossings { crossings (codes_of extra_program) 9 extra_start ≡ 8 }
{}

/// Integers at their edges, worked out by hand.
pub fn number_rows()
    // The least int by -1 is itself, and leaves 0; by 0 there is nothing.
    ensures least { (g : Globals) → binary_of g IrBinary.Div IntTy.I32 (byte_cells (0 ∷ 0 ∷ 0 ∷ 128 ∷ []))
        (byte_cells (255 ∷ 255 ∷ 255 ∷ 255 ∷ [])) ≡ Some (byte_cells (0 ∷ 0 ∷ 0 ∷ 128 ∷ [])) }
    ensures rest { (g : Globals) → binary_of g IrBinary.Rem IntTy.I32 (byte_cells (0 ∷ 0 ∷ 0 ∷ 128 ∷ []))
        (byte_cells (255 ∷ 255 ∷ 255 ∷ 255 ∷ [])) ≡ Some (byte_cells (0 ∷ 0 ∷ 0 ∷ 0 ∷ [])) }
    ensures zero { (g : Globals) → binary_of g IrBinary.Div IntTy.U8 (byte_cells (7 ∷ [])) (byte_cells (0 ∷ [])) ≡ None }
    // -7 / 2 is -3, and leaves -1.
    ensures toward_zero { (g : Globals) → binary_of g IrBinary.Div IntTy.I8 (byte_cells (249 ∷ [])) (byte_cells (2 ∷ []))
        ≡ Some (byte_cells (253 ∷ [])) }
    ensures left { (g : Globals) → binary_of g IrBinary.Rem IntTy.I8 (byte_cells (249 ∷ [])) (byte_cells (2 ∷ []))
        ≡ Some (byte_cells (255 ∷ [])) }
    // A shift by -1 is one by 31; -8 shifted right by 1 is -4.
    ensures shift { (g : Globals) → binary_of g IrBinary.Shl IntTy.I32 (byte_cells (1 ∷ 0 ∷ 0 ∷ 0 ∷ []))
        (byte_cells (255 ∷ 255 ∷ 255 ∷ 255 ∷ [])) ≡ Some (byte_cells (0 ∷ 0 ∷ 0 ∷ 128 ∷ [])) }
    ensures sign { (g : Globals) → binary_of g IrBinary.Shr IntTy.I32 (byte_cells (248 ∷ 255 ∷ 255 ∷ 255 ∷ []))
        (byte_cells (1 ∷ 0 ∷ 0 ∷ 0 ∷ [])) ≡ Some (byte_cells (252 ∷ 255 ∷ 255 ∷ 255 ∷ [])) }
    // -1 < 1 as chars, and not as unsigned ones; the answer is an int.
    ensures signed { (g : Globals) → binary_of g IrBinary.Lt IntTy.I8 (byte_cells (255 ∷ [])) (byte_cells (1 ∷ []))
        ≡ Some (byte_cells (1 ∷ 0 ∷ 0 ∷ 0 ∷ [])) }
    ensures unsigned { (g : Globals) → binary_of g IrBinary.Lt IntTy.U8 (byte_cells (255 ∷ [])) (byte_cells (1 ∷ []))
        ≡ Some (byte_cells (0 ∷ 0 ∷ 0 ∷ 0 ∷ [])) }
    // A char keeps its sign, and an unsigned one has none.
    ensures wide { converted IntTy.I8 IntTy.I64 (byte_cells (200 ∷ []))
        ≡ Some (byte_cells (200 ∷ 255 ∷ 255 ∷ 255 ∷ 255 ∷ 255 ∷ 255 ∷ 255 ∷ [])) }
    ensures plain { converted IntTy.U8 IntTy.I16 (byte_cells (200 ∷ [])) ≡ Some (byte_cells (200 ∷ 0 ∷ [])) }
{}

/// The signatures that `valid` lets through are those that functions have, so that their calls have places.
pub fn signature_laws()
    ensures { (s : Signature) → IsTrue (is_signature s) → Allowed s }
{}
