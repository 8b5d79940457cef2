ghost use Rattle.std.specs.Prelude.{◌≡◌, MatchResult};
ghost use Rattle.c_typing.specs.Visits.{fault};
ghost use Rattle.c_typing.specs.declared.faults.Refusal.TheVariants.{NoMemory};

use c_typing::{Fault, Refusal, TypeKind};

/// A fault of this kind at this byte.
pub fn refusal(kind: TypeKind, at: u32) -> Refusal
    ensures { result ≡ Refusal.Fault (fault kind at) }
{
    Refusal::Fault(Fault { kind, at })
}

/// A place of a table as a number that a tree holds.
///
/// # Errors
///
/// [`Refusal::NoMemory`] from the place 2^32 on.
pub fn small_place(place: usize) -> Result<u32, Refusal>
    ensures { MatchResult result (λ small. small ≡ place) (λ e. e ≡ NoMemory) }
{
    match u32::try_from(place) {
        Ok(small) => Ok(small),
        Err(_) => Err(Refusal::NoMemory),
    }
}
