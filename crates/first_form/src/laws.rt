//! Laws of units of the first form, each the contract of a function that does nothing.

ghost use Rattle.std.specs.Prelude.{◌≡◌, ℕ, ◌+◌, ◌*◌, ◌<◌, ◌≤◌, List, length};
ghost use Rattle.first_form.specs.FirstForm.{IsFirstForm, AreBelow};
ghost use Rattle.first_form.specs.FirstCode.{code_of};

/// Bytes are one unit at most: they say which numbers are put and which one is returned.
pub fn one_reading()
    ensures { (bytes puts others : List ℕ) (status other : ℕ)
        → IsFirstForm puts status bytes → IsFirstForm others other bytes → (puts ≡ others) × (status ≡ other) }
{}

/// A unit takes 12 bytes at least for each number that it puts, and its numbers are below 1000.
pub fn within_bytes()
    ensures calls { (bytes puts : List ℕ) (status : ℕ) → IsFirstForm puts status bytes → 12 * length puts ≤ length bytes }
    ensures numbers { (bytes puts : List ℕ) (status : ℕ) → IsFirstForm puts status bytes → AreBelow puts × (status < 1000) }
{}

/// The code of a unit takes 28 bytes, and 22 for each number that it puts.
pub fn code_size()
    ensures { (puts : List ℕ) (status : ℕ) → length (code_of puts status) ≡ 28 + 22 * length puts }
{}
