//! Each type and each struct, measured once.
ghost use Rattle.std.specs.Prelude.{◌≡◌, length, slice_set, IfOk};
ghost use Rattle.c_types.specs.Layout.{size_of};
ghost use Rattle.measured_types.specs.Measures.{AreUnknown};
ghost use Rattle.type_sizes.specs.Known.{AreSizes};

use crate::order::{Part, parts_first};
use c_types::{Ty, Types};
use measured_types::{Measured, find_extent, measure_of, struct_measure};
use std::alloc::{AllocError, Global};

/// What is known of the sizes of a table's types.
#[derive(Drop)]
pub struct Sizes {
    elements: Vec<Option<Measured>>,
    structs: Vec<Option<Measured>>,
}

/// Another entry at a place, if one stands there.
fn put_at(measures: &mut Vec<Option<Measured>>, place: usize, measure: Option<Measured>)
    ensures { measures.new.items ≡ slice_set measures.old.items place measure }
{
    if place < measures.len() {
        measures[place] = measure;
    }
}

fn unknown_entries(alloc: Global, count: usize) -> Result<Vec<Option<Measured>>, AllocError>
    ensures places { IfOk result (λ entries. length entries.items ≡ count) }
    ensures none { IfOk result (λ entries. AreUnknown entries.items) }
{
    let mut entries = Vec::new(alloc);
    for _place in 0..count {
        entries.push(None)?;
    }
    Ok(entries)
}

impl Sizes {
    /// Nothing is known yet.
    #[tactic(auto, using(measured_types::proofs::MeasureLaws::none_noted))]
    fn unknown(alloc: Global, types: &Types) -> Result<Sizes, AllocError>
        ensures { IfOk result (λ sizes. AreSizes types.now sizes) }
    {
        Ok(Sizes {
            elements: unknown_entries(alloc, types.tys.len())?,
            structs: unknown_entries(alloc, types.structs.len())?,
        })
    }

    fn note_element(&mut self, types: &Types, place: u32)
        requires { AreSizes types.now self.old }
        ensures { AreSizes types.now self.new }
    {
        if let Some(ty) = types.tys.get(place as usize) {
            let measure = measure_of(
                types,
                self.elements.as_slice(),
                self.structs.as_slice(),
                *ty,
            );
            put_at(&mut self.elements, place as usize, measure);
        }
    }

    fn note_struct(&mut self, types: &Types, place: u32)
        requires { AreSizes types.now self.old }
        ensures { AreSizes types.now self.new }
    {
        if let Some(definition) = types.structs.get(place as usize) {
            let measure = struct_measure(
                types,
                self.elements.as_slice(),
                self.structs.as_slice(),
                definition,
            );
            put_at(&mut self.structs, place as usize, measure);
        }
    }

    fn note_all(&mut self, types: &Types, parts: &[Part])
        requires { AreSizes types.now self.old }
        ensures { AreSizes types.now self.new }
    {
        for part in parts {
            match part {
                Part::Element(place) => self.note_element(types, *place),
                Part::Struct(place) => self.note_struct(types, *place),
            }
        }
    }

    /// Measures the types of a table: a struct or an array costs as much as it has fields or brackets.
    ///
    /// # Errors
    ///
    /// Want of memory.
    pub fn of(alloc: Global, types: &Types) -> Result<Sizes, AllocError>
        ensures { IfOk result (λ sizes. AreSizes types.now sizes) }
    {
        let mut sizes = Sizes::unknown(alloc, types)?;
        let parts = parts_first(alloc, types)?;
        sizes.note_all(types, parts.as_slice());
        Ok(sizes)
    }

    /// The bytes that a type of this table takes, as [`c_types::size`] finds them; 0 where it has no layout. It
    /// takes no memory.
    pub fn size(&self, types: &Types, ty: Ty) -> u64
        requires { AreSizes types.now self.now }
        ensures { result ≡ size_of types.now ty }
    {
        match find_extent(types, self.elements.as_slice(), self.structs.as_slice(), ty) {
            Some(extent) => extent.size,
            None => 0,
        }
    }
}
