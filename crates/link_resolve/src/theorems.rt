//! The laws of names and sections, over every list of symbols. They take no step.

ghost use Rattle.std.specs.Prelude.{ℕ, List};
ghost use Rattle.link_resolve.specs.declared.listing.Section.{Section};
ghost use Rattle.link_resolve.specs.Symbols.{Symbol};
ghost use Rattle.link_resolve.specs.Lookups.{NamesTell, HomeIsKept};

/// What the lists of a linked answer tell.
#[tactic(auto, using(crate::proofs::NameLaws::names_tell, crate::proofs::NameLaws::homes_kept))]
pub fn name_laws()
    // A look-up in the list of names finds the place that a name means, and finds nothing where it
    // means none or an import slot.
    ensures names { (symbols : List Symbol) (name : List ℕ) → NamesTell symbols name }
    // The first definition of a name is never left out.
    ensures kept { (symbols : List Symbol) (sections : List Section) (name : List ℕ) → HomeIsKept symbols sections name }
{}
