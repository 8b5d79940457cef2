//! The index from keys to first places, whose keys are lists of numbers.
ghost use Rattle.std.specs.Prelude.{◌≡◌, ◌+◌, ◌<◌, ◌≤◌, Some, IfOk, OnOk, IsOk};
ghost use Rattle.std.specs.HashMap.{spare, Updates};
ghost use Rattle.std.specs.Cmp.Lexicographic.{pointwise};
ghost use Rattle.named_rows.specs.Places.{look_up, KeyFor};

use indexmap::IndexMap;
use std::alloc::{AllocError, Global};
use std::hash::Hash;

/// The place that an index has for a key. It takes no memory.
pub fn place_of<E: Eq + Hash + Drop>(places: &IndexMap<Vec<E>, usize>, key: &[E]) -> Option<usize>
    ensures { result ≡ look_up E.eq places.now key.now }
{
    places.get(key).copied()
}

/// A copy of a key that an index doesn't have yet, and room for it; none where the index has the key.
///
/// # Errors
///
/// Want of memory. The index stays in each case.
pub fn key_for<E: Copy + Eq + Hash + Drop>(
    alloc: Global,
    key: &[E],
    places: &mut IndexMap<Vec<E>, usize>,
) -> Result<Option<Vec<E>>, AllocError>
    ensures stays { places.new.entries ≡ places.old.entries }
    ensures key { IfOk result (KeyFor (look_up E.eq places.old key.now) key.now (spare places.new)) }
{
    if place_of(places, key).is_some() {
        return Ok(None);
    }
    let copy = Vec::from_slice(alloc, key)?;
    places.reserve(1)?;
    Ok(Some(copy))
}

/// A key that an index lacks, at its place. The index has room for it.
pub fn put_key<E: Eq + Hash + Drop>(key: Vec<E>, at: usize, places: &mut IndexMap<Vec<E>, usize>)
    requires room { 0 < spare places.old }
    ensures { Updates (λ x y. pointwise E.eq x.items y.items) places.old places.new key (Some at) }
{
    places.insert(key, at).unwrap();
}
