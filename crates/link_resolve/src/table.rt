//! The list of all symbols, with an index from names to their first definitions.

ghost use Rattle.std.specs.Prelude.{◌≡◌, ℕ, ◌+◌, ◌<◌, ◌≤◌, List, length, slice_get, IfOk};
ghost use Rattle.std.specs.Option.{option_copied};
ghost use Rattle.link_resolve.specs.Meaning.{definition_of, is_first};
ghost use Rattle.link_resolve.specs.Refusals.{has_clash};
ghost use Rattle.link_resolve.specs.Index.{known_with, Indexes};

use crate::listing::Listed;
use indexmap::IndexMap;
use std::alloc::{AllocError, AllocFailed, Global};
use std::marker::Model;

/// What the index holds of a name: the place of its first definition, whether there are more, and
/// whether one of them isn't COMDAT.
#[derive(Clone, Copy, Debug)]
pub struct Known {
    pub first: usize,
    pub several: bool,
    pub alone: bool,
}

/// The symbol at a place of the list.
fn symbol_at<'a>(list: &'a [Listed<'a>], at: usize) -> Option<&'a Listed<'a>>
    ensures { option_copied result ≡ slice_get list.now at }
{
    list.get(at)
}

/// The list and its index. A contract sees the list.
#[derive(Drop)]
pub struct Table<'a> {
    list: &'a [Listed<'a>],
    index: IndexMap<&'a [u8], Known>,
}

impl<'a> Model for Table<'a> {
    ghost use Rattle.std.specs.Prelude.{List};
    ghost use Rattle.link_resolve.specs.Symbols.{Symbol};
    ghost use Rattle.link_resolve.specs.Index.{Indexes};

    ghost Value = { List Symbol };

    ghost view = { λ t. t.list.now };

    ghost invariant = { λ t. Indexes t.index t.list.now };
}

/// What is known of a name after one more definition.
fn known_with(known: Option<Known>, at: usize, comdat: bool) -> Known
    ensures { result ≡ known_with known at comdat }
{
    match known {
        None => Known {
            first: at,
            several: false,
            alone: !comdat,
        },
        Some(k) => Known {
            first: k.first,
            several: true,
            alone: k.alone || !comdat,
        },
    }
}

/// The index of a list.
#[tactic(auto, using(crate::proofs::IndexLaws::known_none))]
fn index_of<'a>(
    alloc: Global,
    list: &'a [Listed<'a>],
) -> Result<IndexMap<&'a [u8], Known>, AllocError>
    ensures { IfOk result (λ index. Indexes index list.now) }
{
    let mut index: IndexMap<&'a [u8], Known> = IndexMap::new(alloc);
    for (i, symbol) in list.iter().enumerate() {
        if symbol.is_definition() {
            let name = symbol.name();
            let known = known_with(index.get(name).copied(), i, symbol.is_comdat());
            index.insert(name, known)?;
        }
    }
    Ok(index)
}

impl<'a> Table<'a> {
    /// The list with its index.
    pub fn new(alloc: Global, list: &'a [Listed<'a>]) -> Result<Table<'a>, AllocError>
        ensures { IfOk result (λ table. table ≡ list.now) }
    {
        let index = index_of(alloc, list)?;
        Ok(Table { list, index })
    }

    pub fn symbols(&self) -> &'a [Listed<'a>]
        ensures { result.now ≡ self.now }
    {
        self.list
    }

    /// The first definition of a name.
    #[tactic(auto, using(crate::proofs::IndexLaws::first_known, crate::proofs::IndexLaws::first_unknown))]
    pub fn definition_of(&self, name: &[u8]) -> Option<&'a Listed<'a>>
        ensures { option_copied result ≡ definition_of self.now name.now }
    {
        let list = self.list;
        match self.index.get(name) {
            Some(known) => symbol_at(list, known.first),
            None => None,
        }
    }

    /// Whether a name has two definitions that aren't both COMDAT.
    #[tactic(auto, using(crate::proofs::IndexLaws::clash_known, crate::proofs::IndexLaws::clash_unknown))]
    pub fn has_clash(&self, name: &[u8]) -> bool
        ensures { result ≡ has_clash self.now name.now }
    {
        match self.index.get(name) {
            Some(known) => known.several && known.alone,
            None => false,
        }
    }

    /// Whether a symbol is the first definition of its name.
    #[tactic(auto, unfolding(crate::specs::Meaning::is_first))]
    pub fn is_first(&self, symbol: &Listed<'_>) -> bool
        ensures { result ≡ is_first self.now symbol.now }
    {
        if !symbol.is_definition() {
            return false;
        }
        match self.definition_of(symbol.name()) {
            Some(first) => first.is_same(symbol),
            None => false,
        }
    }
}
