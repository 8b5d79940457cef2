//! Names of bodies and thunks.

ghost use Rattle.std.specs.Prelude.{◌≡◌, ◌↔◌, ◌<◌, ◌++◌, ℕ, [], length, IfOk, IsErrOf, Err};
ghost use Rattle.std.specs.Option.{option_copied};
ghost use Rattle.hx_names.specs.Mangling.{most_name, mangled, unmangled, thunk_name_of};

use std::alloc::{AllocError, Global};
use thiserror::Error;

/// Why a name has no mangled form.
#[derive(Clone, Copy, PartialEq, Eq, Debug, Error)]
pub enum NameRefusal {
    /// The name has no byte.
    #[error("the name is empty")]
    Empty,
    /// The name has so many bytes, more than 255.
    #[error("the name has {0} bytes, more than 255")]
    TooLong(u64),
    /// There was no memory for the new name.
    #[error("out of memory")]
    NoMemory,
}

/// The name of the Arm64EC body of a function.
pub fn mangle(alloc: Global, name: &[u8]) -> Result<Vec<u8>, NameRefusal>
    ensures value { IfOk result (λ new. new.items ≡ mangled name.now) }
    ensures empty { (result ≡ Err NameRefusal.Empty) ↔ (name.now ≡ []) }
    ensures long { (n : ℕ) → (result ≡ Err (NameRefusal.TooLong n)) ↔ ((n ≡ length name.now) × (most_name < length name.now)) }
{
    if name.is_empty() {
        return Err(NameRefusal::Empty);
    }
    if name.len() > 255 {
        return Err(NameRefusal::TooLong(name.len() as u64));
    }
    match joined(alloc, b"#", name) {
        Ok(new) => Ok(new),
        Err(AllocError) => Err(NameRefusal::NoMemory),
    }
}

/// The function's name in the name of its Arm64EC body; `None` for every name that does not begin
/// with `#`.
pub fn unmangle(name: &[u8]) -> Option<&[u8]>
    ensures { option_copied result ≡ unmangled name.now }
{
    match name {
        [b'#', rest @ ..] => Some(rest),
        _ => None,
    }
}

/// The name of an entry or exit thunk for a signature with this code.
pub fn thunk_name(alloc: Global, entry: bool, code: &[u8]) -> Result<Vec<u8>, AllocError>
    ensures { IfOk result (λ name. name.items ≡ thunk_name_of entry code.now) }
{
    if entry {
        let name = joined(alloc, b"$ientry_thunk$cdecl$", code)?;
        Ok(name)
    } else {
        let name = joined(alloc, b"$iexit_thunk$cdecl$", code)?;
        Ok(name)
    }
}

fn joined(alloc: Global, front: &[u8], back: &[u8]) -> Result<Vec<u8>, AllocError>
    ensures { IfOk result (λ whole. whole.items ≡ front.now ++ back.now) }
{
    let mut whole = Vec::with_capacity(alloc, front.len())?;
    whole.extend_from_slice(front)?;
    whole.extend_from_slice(back)?;
    Ok(whole)
}
