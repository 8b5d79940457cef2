//! The laws of the words that the contracts of a memory cite, over every memory, address and count of
//! bytes. They take no step.

ghost use Rattle.std.specs.Prelude.{◌≡◌, ◌↔◌, ◌≤◌, ◌<◌, ◌+◌, ◌%◌, ◌^◌, ℕ, List, Ok, Err, Some, true, false, length};
ghost use Rattle.hx_mem.specs.declared.fault.MemBad.{MemBad as Refusal};
ghost use Rattle.hx_mem.specs.Segments.{Segment};
ghost use Rattle.hx_mem.specs.Space.{Space, Apart, load_of, store_of, after_store, fetch_of, read, code_of, region_of, guarded, IsMemory};
ghost use Rattle.hx_mem.specs.Refusals.{IsFirstOutside, IsReadOnly, IsNoCode, IsWriteOrExec};

use crate::fault::MemBad;

/// A load gives the bytes last stored, and a store changes these bytes alone.
pub fn store_laws()
    // What was stored is loaded: the low bits of the number.
    ensures loaded { (m : Space) (a n v : ℕ) → store_of m a n ≡ Ok tt → load_of (after_store m a n v) a n ≡ Ok (v % 256 ^ n) }
    // Loads of other bytes give what they gave, or are refused as they were.
    ensures kept { (m : Space) (a n v b k : ℕ) → Apart a n b k → load_of (after_store m a n v) b k ≡ load_of m b k }
    // Places and rights never change.
    ensures rights { (m : Space) (a n v b k : ℕ) → store_of (after_store m a n v) b k ≡ store_of m b k }
    // A store that is refused changes nothing.
    ensures refused { (m : Space) (a n v : ℕ) (bad : Refusal) → store_of m a n ≡ Err bad → after_store m a n v ≡ m }
    // Code that may not be written stays, and so does every fetch where nothing may be both.
    ensures code { (m : Space) (a n v b k : ℕ) → code_of (after_store m a n v).regions b k ≡ code_of m.regions b k }
    ensures fetches { (m : Space) (a n v b k : ℕ) → IsWriteOrExec m.regions → fetch_of (after_store m a n v) b k ≡ fetch_of m b k }
    // A number that is loaded has no more than the bytes that were asked for.
    ensures bound { (m : Space) (a n v : ℕ) → IsMemory m → load_of m a n ≡ Ok v → v < 256 ^ n }
    // A memory stays one.
    ensures whole { (m : Space) (a n v : ℕ) → IsMemory m → IsMemory (after_store m a n v) }
{}

/// Refusals are exact: each is told with this address in these cases, and in no other.
pub fn refusal_laws()
    ensures load_guard { (m : Space) (a n b : ℕ) → IsMemory m → (load_of m a n ≡ Err (MemBad.Guard b)) ↔ ((b ≡ a) × (guarded m.guard a ≡ true)) }
    ensures store_guard { (m : Space) (a n b : ℕ) → IsMemory m → (store_of m a n ≡ Err (MemBad.Guard b)) ↔ ((b ≡ a) × (guarded m.guard a ≡ true)) }
    ensures fetch_guard { (m : Space) (a n b : ℕ) → IsMemory m → (fetch_of m a n ≡ Err (MemBad.Guard b)) ↔ ((b ≡ a) × (guarded m.guard a ≡ true)) }
    ensures load_unmapped { (m : Space) (a n b : ℕ) → IsMemory m → 0 < n → (load_of m a n ≡ Err (MemBad.Unmapped b)) ↔ ((guarded m.guard a ≡ false) × IsFirstOutside m a n b) }
    ensures store_unmapped { (m : Space) (a n b : ℕ) → IsMemory m → 0 < n → (store_of m a n ≡ Err (MemBad.Unmapped b)) ↔ ((guarded m.guard a ≡ false) × IsFirstOutside m a n b) }
    ensures fetch_unmapped { (m : Space) (a n b : ℕ) → IsMemory m → (fetch_of m a n ≡ Err (MemBad.Unmapped b)) ↔ ((guarded m.guard a ≡ false) × IsFirstOutside m a 1 b) }
    ensures load_protected { (m : Space) (a n b : ℕ) → IsMemory m → ¬ (load_of m a n ≡ Err (MemBad.Protected b)) }
    ensures store_protected { (m : Space) (a n b : ℕ) → IsMemory m → (store_of m a n ≡ Err (MemBad.Protected b)) ↔ ((b ≡ a) × IsReadOnly m a n) }
    ensures fetch_protected { (m : Space) (a n b : ℕ) → IsMemory m → (fetch_of m a n ≡ Err (MemBad.Protected b)) ↔ ((b ≡ a) × IsNoCode m a) }
{}
