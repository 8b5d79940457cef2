//! The law of object files, over every object: what the writer spells (crate `coff_write`) is read back as the same
//! object (crate `coff_read`). The law takes no step. It wants that the numbers of the object are those of their types,
//! which [`object_has_ranges`] says of an object that code holds.
#![tactic(auto)]

ghost use Rattle.std.specs.Prelude.{◌≡◌, Result, Ok, MatchResult, true};
ghost use Rattle.coff_write.specs.declared.object.Object.{Object as AnyObject};
ghost use Rattle.coff_write.specs.Format.{object_bytes};
ghost use Rattle.coff_write.specs.Valid.{is_valid};
ghost use Rattle.coff_read.specs.declared.refusal.ObjRefusal.{ObjRefusal as Refusal};
ghost use Rattle.coff_read.specs.declared.refusal.ObjRefusal.TheVariants.{NoMemory};
ghost use Rattle.coff_read.specs.Objects.{object_of, Tells};
ghost use Rattle.coff_laws_parts.specs.Ranges.{HasRanges};

mod ranges;

pub use ranges::object_has_ranges;

/// What is written for a valid object is read back as it was.
pub fn written_is_read()
    // The file of a valid object has none of the refusals, and its object is that object.
    ensures spelled { (o : AnyObject) → HasRanges o → is_valid o ≡ true → object_of (object_bytes o) ≡ Ok o }
    // So a reader of the file gives the object, or runs out of memory.
    ensures answered { (o : AnyObject) → HasRanges o → is_valid o ≡ true → (r : Result AnyObject Refusal) → Tells r (object_of (object_bytes o)) → MatchResult r (λ x. x ≡ o) (λ k. k ≡ NoMemory) }
{}
