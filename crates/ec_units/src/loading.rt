ghost use Rattle.std.specs.Prelude.{◌≡◌, ◌≤◌, IsTrue, IfOk, IfErr, OnOk, IsErrOf, length, map, string_bytes, vec_len};
ghost use Rattle.hx_words.specs.Counts.{Rose};
ghost use Rattle.hx_io.specs.Files.{SameFiles};
ghost use Rattle.ec_units.specs.Verdicts.{no_texts, named_in, add_text, add_file, add_units, IsOneOf};
ghost use Rattle.ec_units.specs.Steps.{texts_in, with_text, LeavesTexts, IsOfText, IsMissing, NamesMissing, FindsUnit, AddsFile, AreRead};

use crate::refusals::UnitsRefusal;
use crate::state::Loaded;
use crate::texts::{Text, TextRefusal, read_text};
use ec_report::LimitKind;
use hx_io::{Found, Store, StoreFail};
use std::alloc::Global;

/// The most bytes of a unit.
const UNIT_BYTES: u64 = 1_048_576;

/// The most bytes of all units.
const ALL_BYTES: u64 = 4_194_304;

/// No units.
pub fn no_units(alloc: Global) -> Loaded
    ensures { texts_in result ≡ no_texts }
{
    Loaded {
        units: Vec::new(alloc),
        sources: Vec::new(alloc),
        bytes: 0,
        longest_name: 0,
    }
}

impl Loaded {
    /// Adds a unit and its bytes, which makes so many bytes.
    fn push(&mut self, text: Text, source: Vec<u8>, bytes: u64) -> Result<(), UnitsRefusal>
        requires { bytes ≤ 4194304 }
        ensures pushed { OnOk result (texts_in self.new ≡ with_text (texts_in self.old) text source.items bytes) }
        ensures refused { IfErr result (λ e. e ≡ UnitsRefusal.NoMemory) }
    {
        let Text { unit, longest_name } = text;
        if self.units.push(unit).is_err() || self.sources.push(source).is_err() {
            return Err(UnitsRefusal::NoMemory);
        }
        self.bytes = bytes;
        self.longest_name = self.longest_name.max(longest_name);
        Ok(())
    }

    /// Adds the unit that the bytes of a file are.
    fn add_text(&mut self, alloc: Global, number: u32, source: Vec<u8>) -> Result<(), UnitsRefusal>
        requires { vec_len source ≤ 1048576 }
        ensures exact { LeavesTexts (add_text number (texts_in self.old) source.items) result (texts_in self.new) }
        ensures of_text { IfErr result IsOfText }
    {
        let bytes = self.bytes + source.len() as u64;
        if bytes > ALL_BYTES {
            return Err(UnitsRefusal::Limit(LimitKind::AllBytes, bytes));
        }
        match read_text(alloc, source.as_slice()) {
            Ok(text) => self.push(text, source, bytes),
            Err(TextRefusal::Refused(refusal)) => Err(UnitsRefusal::Unit(number, refusal)),
            Err(TextRefusal::NoMemory) => Err(UnitsRefusal::NoMemory),
        }
    }
}

/// The refusal that a unit isn't there.
fn missing(alloc: Global, name: &str) -> UnitsRefusal
    ensures { IsMissing name.now result }
{
    match Vec::from_slice(alloc, name.as_bytes()) {
        Ok(name) => UnitsRefusal::Missing(name),
        Err(_) => UnitsRefusal::NoMemory,
    }
}

/// The bytes of a unit's file.
fn load_unit<S: Store>(alloc: Global, store: &mut S, name: &str) -> Result<Vec<u8>, UnitsRefusal>
    ensures files { IsTrue (S.tells store.old) → SameFiles (S.file store.old) (S.file store.new) }
    ensures told { S.tells store.new ≡ S.tells store.old }
    ensures counted { S.faults store.old ≤ S.faults store.new }
    ensures exact { IsTrue (S.tells store.old) → FindsUnit (S.file store.old name.now) name.now result }
    ensures within { IfOk result (λ bytes. vec_len bytes ≤ 1048576) }
    ensures missing { IfErr result (NamesMissing name.now) }
    ensures failed { IsErrOf result UnitsRefusal.StoreFault → Rose (S.faults store.old) (S.faults store.new) }
{
    match store.load(alloc, name, UNIT_BYTES) {
        Ok(Found::Whole(bytes)) => Ok(bytes),
        Ok(Found::Missing) => Err(missing(alloc, name)),
        Ok(Found::Longer) => Err(UnitsRefusal::Limit(LimitKind::UnitBytes, UNIT_BYTES + 1)),
        Err(StoreFail::Failed) => Err(UnitsRefusal::StoreFault),
        Err(StoreFail::NoMemory) => Err(UnitsRefusal::NoMemory),
    }
}

/// Adds the unit of this number and name.
fn add_unit<S: Store>(
    alloc: Global,
    store: &mut S,
    number: u32,
    name: &str,
    loaded: &mut Loaded,
) -> Result<(), UnitsRefusal>
    ensures files { IsTrue (S.tells store.old) → SameFiles (S.file store.old) (S.file store.new) }
    ensures told { S.tells store.new ≡ S.tells store.old }
    ensures counted { S.faults store.old ≤ S.faults store.new }
    ensures exact { IsTrue (S.tells store.old) → LeavesTexts (add_file number (texts_in loaded.old) name.now (S.file store.old name.now)) result (texts_in loaded.new) }
    ensures read { OnOk result (AddsFile number (texts_in loaded.old) name.now (texts_in loaded.new)) }
    ensures missing { IfErr result (NamesMissing name.now) }
    ensures failed { IsErrOf result UnitsRefusal.StoreFault → Rose (S.faults store.old) (S.faults store.new) }
{
    match load_unit(alloc, store, name) {
        Ok(source) => loaded.add_text(alloc, number, source),
        Err(refusal) => Err(refusal),
    }
}

/// Adds the units of these names, in order.
pub fn add_units<S: Store>(
    alloc: Global,
    store: &mut S,
    names: &[String],
    loaded: &mut Loaded,
) -> Result<(), UnitsRefusal>
    requires few { length names.now ≤ 64 }
    requires empty { texts_in loaded.old ≡ no_texts }
    ensures files { IsTrue (S.tells store.old) → SameFiles (S.file store.old) (S.file store.new) }
    ensures told { S.tells store.new ≡ S.tells store.old }
    ensures counted { S.faults store.old ≤ S.faults store.new }
    ensures exact { IsTrue (S.tells store.old) → LeavesTexts (add_units 0 no_texts (named_in (S.file store.old) (map string_bytes names.now))) result (texts_in loaded.new) }
    ensures read { OnOk result (AreRead (map string_bytes names.now) (texts_in loaded.new)) }
    ensures missing { IfErr result (IsOneOf (map string_bytes names.now)) }
    ensures failed { IsErrOf result UnitsRefusal.StoreFault → Rose (S.faults store.old) (S.faults store.new) }
{
    for (number, name) in names.iter().enumerate() {
        match add_unit(alloc, store, number as u32, name.as_str(), loaded) {
            Ok(()) => {}
            Err(refusal) => return Err(refusal),
        }
    }
    Ok(())
}
