//! A store in memory. It tells its files.
ghost use Rattle.std.specs.Prelude.{◌≡◌, ℕ, List, true, None, IfOk, IsOkUnless, option_copied};
ghost use Rattle.hx_io.specs.Files.{SameFiles, SameButAt, Finds, IsWithin, Saves};
ghost use Rattle.hx_io.specs.MemFiles.{files_of, SavesWhole};

use crate::outside::{Found, Store, StoreFail};
use std::alloc::Global;
use std::collections::BTreeMap;

/// Files in memory, by name. Two names are one where their bytes are the same.
#[derive(Debug, Drop)]
pub struct MemStore {
    files: BTreeMap<String, Vec<u8>>,
}

impl MemStore {
    /// A store with no file.
    pub fn new(alloc: Global) -> MemStore
        ensures { (name : List ℕ) → files_of result name ≡ None }
    {
        MemStore {
            files: BTreeMap::new(alloc),
        }
    }

    /// The bytes of the file of a name, if there is one.
    pub fn held(&self, name: &str) -> Option<&[u8]>
        ensures { option_copied result ≡ files_of self.now name.now }
    {
        match self.files.get(name) {
            Some(bytes) => Some(bytes.as_slice()),
            None => None,
        }
    }
}

impl Store for MemStore {
    ghost tells = { λ _. true };

    ghost file = { files_of };

    ghost faults = { λ _. 0 };

    fn load(&mut self, alloc: Global, name: &str, most: u64) -> Result<Found, StoreFail>
        ensures finds { Finds (files_of self.old name.now) most result }
        ensures within { IfOk result (IsWithin most) }
        ensures same { SameFiles (files_of self.old) (files_of self.new) }
        ensures never_fails { IsOkUnless result StoreFail.NoMemory }
    {
        let Some(bytes) = self.held(name) else {
            return Ok(Found::Missing);
        };
        if bytes.len() as u64 > most {
            return Ok(Found::Longer);
        }
        match Vec::from_slice(alloc, bytes) {
            Ok(bytes) => Ok(Found::Whole(bytes)),
            Err(_) => Err(StoreFail::NoMemory),
        }
    }

    fn save(&mut self, alloc: Global, name: &str, bytes: &[u8]) -> Result<(), StoreFail>
        ensures exact { SavesWhole (files_of self.old) name.now bytes.now result (files_of self.new) }
        ensures never_fails { IsOkUnless result StoreFail.NoMemory }
    {
        let name = String::from_str(alloc, name).map_err(|_| StoreFail::NoMemory)?;
        let bytes = Vec::from_slice(alloc, bytes).map_err(|_| StoreFail::NoMemory)?;
        match self.files.insert(name, bytes) {
            Ok(_) => Ok(()),
            Err(_) => Err(StoreFail::NoMemory),
        }
    }
}
