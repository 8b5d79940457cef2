//! What holds of places and codes, over every signature and every count of extra arguments.
//! These functions take no step.

ghost use Rattle.std.specs.Prelude.{◌≡◌, ◌-◌, ◌*◌, ◌<◌, ◌≤◌, ℕ, length, nat_lt, if◌then◌else◌, slice_get, codes};
ghost use Rattle.sig_core.specs.declared.classes.Signature.{Signature};
ghost use Rattle.sig_core.specs.declared.places.ResultPlace.{ResultPlace};
ghost use Rattle.sig_core.specs.declared.places.Slot.{Slot};
ghost use Rattle.sig_core.specs.Codes.{signature_code};
ghost use Rattle.sig_core.specs.Places.{placed_by, AreApart, AreWithin, HasByte, HasRegister};
ghost use Rattle.sig_core.specs.Registers.{words_of, stack_words, ec_placement};
ghost use Rattle.sig_core.specs.Rows.{five_words, five_words_on_x64, five_words_in_ec, late_struct, late_struct_in_ec, counted_sum, counted_sum_in_ec};
ghost use Rattle.sig_core.specs.Signatures.{Allowed};
ghost use Rattle.sig_core.specs.Slots.{slots_of, x64_placement, variadic_placement};

/// Every placement has a place for each argument, that of its number.
pub fn place_laws()
    ensures count { (place : ℕ → Slot) (back : ResultPlace) (n : ℕ) → length (placed_by place back n).args ≡ n }
    ensures each { (place : ℕ → Slot) (back : ResultPlace) (n i : ℕ) → i < n
        → slice_get (placed_by place back n).args i ≡ Some (place i) }
{}

/// The places of an x64 call.
pub fn x64_laws()
    // No register and no byte of the stack belongs to two arguments.
    ensures apart { (s : Signature) (extras : ℕ) → AreApart (x64_placement s extras).args }
    // The registers are x0 to x3; on the stack the arguments stand behind the home space and end by `stack`.
    ensures within { (s : Signature) (extras : ℕ) → AreWithin (x64_placement s extras).args 4 32 (x64_placement s extras).stack }
    // The register of the hidden pointer is no argument's.
    ensures hidden { (s : Signature) (extras i r : ℕ) (a : Slot) → (x64_placement s extras).result ≡ ResultPlace.Hidden r
        → slice_get (x64_placement s extras).args i ≡ Some a → HasRegister a r → ⊥ }
    // Eight bytes for each slot, home space included, where a slot stands behind it.
    ensures stack { (s : Signature) (extras : ℕ)
        → (x64_placement s extras).stack ≡ (if nat_lt 4 (slots_of s extras) then 8 * slots_of s extras else 0) }
    ensures few { (s : Signature) (extras : ℕ) → (x64_placement s extras).stack ≤ 8 * slots_of s extras }
{}

/// The places of a call of a variadic Arm64EC function.
pub fn variadic_laws()
    ensures apart { (s : Signature) (extras : ℕ) → AreApart (variadic_placement s extras).args }
    ensures within { (s : Signature) (extras : ℕ)
        → AreWithin (variadic_placement s extras).args 4 0 (variadic_placement s extras).stack }
    // Eight bytes for each slot behind the fourth.
    ensures stack { (s : Signature) (extras : ℕ) → (variadic_placement s extras).stack ≡ 8 * (slots_of s extras - 4) }
{}

/// The places of a call between Arm64EC functions.
pub fn ec_laws()
    ensures apart { (s : Signature) → AreApart (ec_placement s).args }
    // The registers are x0 to x7; on the stack the arguments end by `stack`.
    ensures within { (s : Signature) → AreWithin (ec_placement s).args 8 0 (ec_placement s).stack }
    // Behind an argument on the stack none stands in registers.
    ensures after { (s : Signature) (i j b r : ℕ) (a c : Slot) → i < j → slice_get (ec_placement s).args i ≡ Some a
        → slice_get (ec_placement s).args j ≡ Some c → HasByte a b → HasRegister c r → ⊥ }
    // The words of the arguments on the stack: at most those of all arguments.
    ensures stack { (s : Signature) → (ec_placement s).stack ≡ 8 * stack_words s.args (length s.args) }
    ensures few { (s : Signature) → (ec_placement s).stack ≤ 8 * words_of s.args }
{}

/// Two signatures with one code are one signature, so thunks may be shared by name.
pub fn code_laws()
    ensures { (s t : Signature) → Allowed s → Allowed t → signature_code s ≡ signature_code t → s ≡ t }
{}

/// Calls whose places were worked out by hand.
pub fn placement_rows()
    // `struct s make(int, int, int, int, int)`, whose struct has 24 bytes.
    ensures x64 { x64_placement five_words 0 ≡ five_words_on_x64 }
    ensures ec { ec_placement five_words ≡ five_words_in_ec }
    // Seven words, a struct of 16 bytes, and a word.
    ensures split { ec_placement late_struct ≡ late_struct_in_ec }
    // `int sum(int, int, ...)` with six extra arguments.
    ensures variadic { variadic_placement counted_sum 6 ≡ counted_sum_in_ec }
    // Their codes.
    ensures fixed_code { signature_code five_words ≡ codes "m24$i8i8i8i8i8" }
    ensures variadic_code { signature_code counted_sum ≡ codes "i8$i8i8$varargs" }
{}
