//! The symbols and the sections of all objects, in one list each.

ghost use Rattle.std.specs.Prelude.{◌≡◌, ℕ, ◌+◌, ◌-◌, ◌*◌, ◌<◌, ◌≤◌, ◌^◌, ◌++◌, true, false, ◌&&◌, ◌==◌, length, slice_set, IfOk, OnOk, IsTrue};
ghost use Rattle.std.specs.List.{list_any, slice_index_or};
ghost use Rattle.coff_write.specs.Format.{section_of, is_comdat};
ghost use Rattle.link_resolve.specs.Symbols.{is_entry_of, symbol_in, symbols_in, symbols_from, all_symbols, sections_in, sections_from, all_sections, section_total};
ghost use Rattle.link_resolve.specs.Meaning.{is_definition, is_same};

use crate::resolved::SectionId;
use coff_write::{HybridRow, ObjSection, ObjSymbol, Object};
use std::alloc::{AllocError, Global};
use std::marker::Model;

/// Whether there are few enough objects and sections for their numbers: fewer than 2^32 objects,
/// which have together fewer than 2^31 sections.
pub fn are_few(objects: &[Object]) -> bool
    ensures enough { IsTrue result → (length objects.now < 2 ^ 32) × (section_total objects.now < 2 ^ 31) }
    ensures only { length objects.now < 2 ^ 32 → section_total objects.now < 2 ^ 31 → IsTrue result }
{
    let mut total = 0usize;
    for object in objects {
        let more = object.sections.len();
        if more >= 0x8000_0000 - total {
            return false;
        }
        total += more;
    }
    objects.len() < 0x1_0000_0000
}

/// A symbol, and what its object says of it.
#[derive(Debug, Drop)]
pub struct Listed<'a> {
    symbol: &'a ObjSymbol,
    object: u32,
    number: usize,
    home: usize,
    comdat: bool,
    entry: bool,
}

impl<'a> Model for Listed<'a> {
    ghost use Rattle.link_resolve.specs.Symbols.{Symbol};

    ghost Value = { Symbol };

    ghost view = { λ s. record { symbol = s.symbol.now; object = s.object; number = s.number; home = s.home; comdat = s.comdat; entry = s.entry } };
}

impl<'a> Listed<'a> {
    pub fn name(&self) -> &'a [u8]
        ensures { result.now ≡ self.now.symbol.name }
    {
        let symbol = self.symbol;
        symbol.name.as_slice()
    }

    /// Whether the symbol is external and in a section.
    pub fn is_definition(&self) -> bool
        ensures { result ≡ is_definition self.now }
    {
        let symbol = self.symbol;
        symbol.external && symbol.section != 0 && symbol.section != 65_535
    }

    /// Whether the symbol is external and in no section.
    pub fn is_open(&self) -> bool
        ensures { result ≡ (self.now.symbol.external && (self.now.symbol.section == 0)) }
    {
        let symbol = self.symbol;
        symbol.external && symbol.section == 0
    }

    /// Whether this is the other symbol.
    pub fn is_same(&self, other: &Listed<'_>) -> bool
        ensures { result ≡ is_same self.now other.now }
    {
        self.object == other.object && self.number == other.number
    }

    /// The section, in its object.
    pub fn section_id(&self) -> SectionId
        ensures object { result.object ≡ self.now.object }
        ensures section { result.section ≡ self.now.symbol.section - 1 }
    {
        let symbol = self.symbol;
        SectionId {
            object: self.object,
            section: (symbol.section as u32).saturating_sub(1),
        }
    }

    /// The place in the section.
    pub fn value(&self) -> u32
        ensures { result ≡ self.now.symbol.value }
    {
        let symbol = self.symbol;
        symbol.value
    }

    /// The number of the section, counted over all objects.
    pub fn home(&self) -> usize
        ensures { result ≡ self.now.home }
    {
        self.home
    }

    pub fn is_comdat(&self) -> bool
        ensures { result ≡ self.now.comdat }
    {
        self.comdat
    }

    pub fn has_entry(&self) -> bool
        ensures { result ≡ self.now.entry }
    {
        self.entry
    }
}

/// A section, and whether one of several definitions is kept.
#[derive(Clone, Copy, Debug)]
pub struct Section {
    pub id: SectionId,
    pub comdat: bool,
}

/// Marks a place, if there is one.
pub fn mark(marks: &mut [bool], at: usize)
    ensures { marks.new ≡ slice_set marks.old at true }
{
    if at < marks.len() {
        marks[at] = true;
    }
}

/// Whether a place is there and marked.
pub fn is_marked(marks: &[bool], at: usize) -> bool
    ensures { result ≡ slice_index_or marks.now at false }
{
    at < marks.len() && marks[at]
}

/// Marks the source of each row that tells an entry thunk.
fn entries_of(alloc: Global, rows: &[HybridRow], count: usize) -> Result<Vec<bool>, AllocError>
    ensures { IfOk result (λ marks. (k : ℕ) → k < count → slice_index_or marks.items k false ≡ list_any (is_entry_of k) rows.now) }
{
    let mut marks = vec![in alloc; false; count]?;
    for row in rows {
        if row.kind == 1 {
            mark(&mut marks, row.source as usize);
        }
    }
    Ok(marks)
}

/// Whether the section of a number, which counts from 1, is COMDAT.
fn comdat_at(sections: &[ObjSection], number: u16) -> bool
    ensures { result ≡ is_comdat (section_of sections.now number) }
{
    if number == 0 {
        return false;
    }
    match sections.get(number as usize - 1) {
        Some(section) => section.comdat,
        None => false,
    }
}

/// Symbol k of an object, before which there are so many sections.
#[tactic(auto, unfolding(crate::specs::Symbols::symbol_in))]
fn make_listed<'a>(
    symbol: &'a ObjSymbol,
    object: &'a Object,
    number: u32,
    before: usize,
    k: usize,
    entry: bool,
) -> Listed<'a>
    requires entry { entry ≡ list_any (is_entry_of k) object.now.hybrid }
    requires before { before < 2 ^ 31 }
    ensures { result ≡ symbol_in number before object.now k symbol.now }
{
    Listed {
        symbol,
        object: number,
        number: k,
        home: (before + symbol.section as usize).saturating_sub(1),
        comdat: comdat_at(object.sections.as_slice(), symbol.section),
        entry,
    }
}

/// Adds the symbols of an object, before which there are so many sections.
fn add_symbols<'a>(
    list: &mut Vec<Listed<'a>>,
    object: &'a Object,
    number: u32,
    before: usize,
    entries: &[bool],
) -> Result<(), AllocError>
    requires entries { (k : ℕ) → k < length object.now.symbols → slice_index_or entries.now k false ≡ list_any (is_entry_of k) object.now.hybrid }
    requires before { before < 2 ^ 31 }
    ensures { OnOk result (list.new.items ≡ list.old.items ++ symbols_in number before object.now 0 object.now.symbols) }
{
    for (k, symbol) in object.symbols.as_slice().iter().enumerate() {
        let entry = is_marked(entries, k);
        list.push(make_listed(symbol, object, number, before, k, entry))?;
    }
    Ok(())
}

/// The symbols of all objects.
pub fn list_symbols<'a>(alloc: Global, objects: &'a [Object]) -> Result<Vec<Listed<'a>>, AllocError>
    requires objects { length objects.now < 2 ^ 32 }
    requires sections { section_total objects.now < 2 ^ 31 }
    ensures { IfOk result (λ list. list.items ≡ all_symbols objects.now) }
{
    let mut list = Vec::new(alloc);
    let mut before = 0usize;
    for (o, object) in objects.iter().enumerate() {
        let entries = entries_of(alloc, object.hybrid.as_slice(), object.symbols.len())?;
        add_symbols(&mut list, object, o as u32, before, &entries)?;
        before += object.sections.len();
    }
    Ok(list)
}

/// Adds the sections of an object.
fn add_sections(
    list: &mut Vec<Section>,
    sections: &[ObjSection],
    number: u32,
) -> Result<(), AllocError>
    requires { length sections.now < 2 ^ 32 }
    ensures { OnOk result (list.new.items ≡ list.old.items ++ sections_in number 0 sections.now) }
{
    for (k, section) in sections.iter().enumerate() {
        list.push(Section {
            id: SectionId {
                object: number,
                section: k as u32,
            },
            comdat: section.comdat,
        })?;
    }
    Ok(())
}

/// The sections of all objects.
pub fn list_sections(alloc: Global, objects: &[Object]) -> Result<Vec<Section>, AllocError>
    requires objects { length objects.now < 2 ^ 32 }
    requires sections { section_total objects.now < 2 ^ 31 }
    ensures { IfOk result (λ list. list.items ≡ all_sections objects.now) }
{
    let mut list = Vec::new(alloc);
    for (o, object) in objects.iter().enumerate() {
        add_sections(&mut list, object.sections.as_slice(), o as u32)?;
    }
    Ok(list)
}
