//! Types in order, with what is known of their extents.
ghost use Rattle.std.specs.Prelude.{◌≡◌, [], ◌∷◌, ◌++◌, ◌<◌, length, position, slice_get, slice_set, vec_len, vec_capacity, IfOk, IfSome, OnOk, OnErr};
ghost use Rattle.c_types.specs.Layout.{extent_of, size_of, IsSmall};
ghost use Rattle.type_table.specs.TypeKeys.{is_ty, is_fun, has_tag};
ghost use Rattle.measured_types.specs.Measures.{AreMeasures, AreUnknown, IsStructMeasure, complete_in, with_struct};

use crate::measure::{Measured, find_extent, measure_of, struct_measure};
use c_types::{Extent, FunTy, StructDef, Ty, Types};
use std::alloc::{AllocError, Global};
use std::marker::Model;
use type_table::TypeTable;

/// The types that a program names, of which each is found by an index and measured by a look-up. A
/// contract sees the types.
#[derive(Drop)]
pub struct MeasuredTypes {
    types: TypeTable,
    /// What is known of the type at each place of the types: each may be the element of an array.
    elements: Vec<Option<Measured>>,
    /// What is known of each struct.
    structs: Vec<Option<Measured>>,
}

impl Model for MeasuredTypes {
    ghost use Rattle.c_types.specs.declared.types.Types.{Types};
    ghost use Rattle.measured_types.specs.Measures.{AreMeasures};

    ghost Value = { Types };

    ghost view = { λ it. it.types };

    ghost invariant = { λ it. AreMeasures it.types it.elements.items it.structs.items };
}

/// One more entry, for which there is room.
fn put_last(measures: &mut Vec<Option<Measured>>, measure: Option<Measured>)
    requires { vec_len measures.old < vec_capacity measures.old }
    ensures { measures.new.items ≡ measures.old.items ++ measure ∷ [] }
{
    measures.push(measure).unwrap();
}

/// Another entry at a place, if one stands there.
fn put_at(measures: &mut Vec<Option<Measured>>, place: usize, measure: Option<Measured>)
    ensures { measures.new.items ≡ slice_set measures.old.items place measure }
{
    if place < measures.len() {
        measures[place] = measure;
    }
}

fn forget(measures: &mut Vec<Option<Measured>>)
    ensures places { length measures.new.items ≡ length measures.old.items }
    ensures none { AreUnknown measures.new.items }
{
    let entries = measures.as_mut_slice();
    for entry in entries.iter_mut() {
        *entry = None;
    }
}

/// Whether a complete struct stands at a place.
fn is_complete(types: &Types, place: usize) -> bool
    ensures { result ≡ complete_in (slice_get types.now.structs place) }
{
    match types.structs.get(place) {
        Some(definition) => definition.complete,
        None => false,
    }
}

/// Makes ready for another struct at a place, which is measured. Nothing that is known stands on an
/// incomplete struct; where a complete one stood, all is forgotten.
fn replace(
    types: &Types,
    elements: &mut Vec<Option<Measured>>,
    structs: &mut Vec<Option<Measured>>,
    place: usize,
    definition: &StructDef,
) -> Option<Measured>
    requires { AreMeasures types.now elements.old.items structs.old.items }
    ensures known { AreMeasures (with_struct types.now place definition.now) elements.new.items structs.new.items }
    ensures measure { IfSome result (λ m. IsStructMeasure (with_struct types.now place definition.now) definition.now m) }
{
    if is_complete(types, place) {
        forget(elements);
        forget(structs);
        return None;
    }
    struct_measure(types, elements.as_slice(), structs.as_slice(), definition)
}

impl MeasuredTypes {
    /// No types yet.
    pub fn new(alloc: Global) -> MeasuredTypes
        ensures { result ≡ record { tys = []; structs = []; funs = [] } }
    {
        MeasuredTypes {
            types: TypeTable::new(alloc),
            elements: Vec::new(alloc),
            structs: Vec::new(alloc),
        }
    }

    /// The types in order.
    pub fn as_types(&self) -> &Types
        ensures { result.now ≡ self.now }
    {
        self.types.as_types()
    }

    /// The types alone.
    pub fn into_types(self) -> Types
        ensures { result ≡ self }
    {
        let MeasuredTypes {
            types,
            elements: _,
            structs: _,
        } = self;
        types.into_types()
    }

    /// The first place of a type. It takes no memory.
    pub fn find_ty(&self, ty: Ty) -> Option<usize>
        ensures { result ≡ position (is_ty ty) self.now.tys }
    {
        self.types.find_ty(ty)
    }

    /// The first place of a function's type.
    ///
    /// # Errors
    ///
    /// Want of memory for the numbers by which the type is found.
    pub fn find_fun(&self, f: &FunTy) -> Result<Option<usize>, AllocError>
        ensures { IfOk result (λ place. place ≡ position (is_fun f.now) self.now.funs) }
    {
        self.types.find_fun(f)
    }

    /// The first place of a struct of this tag. It takes no memory.
    pub fn find_struct(&self, tag: &[u8]) -> Option<usize>
        ensures { result ≡ position (has_tag tag.now) self.now.structs }
    {
        self.types.find_struct(tag)
    }

    /// One more type at the end, which is measured by what is known.
    ///
    /// # Errors
    ///
    /// Want of memory. The table stays then.
    pub fn push_ty(&mut self, ty: Ty) -> Result<(), AllocError>
        ensures ok { OnOk result (self.new ≡ record self.old { tys = self.old.tys ++ ty ∷ [] }) }
        ensures err { OnErr result (self.new ≡ self.old) }
    {
        let measure = measure_of(
            self.types.as_types(),
            self.elements.as_slice(),
            self.structs.as_slice(),
            ty,
        );
        self.elements.reserve(1)?;
        self.types.push_ty(ty)?;
        put_last(&mut self.elements, measure);
        Ok(())
    }

    /// One more function type at the end.
    ///
    /// # Errors
    ///
    /// Want of memory. The table stays then.
    pub fn push_fun(&mut self, f: FunTy) -> Result<(), AllocError>
        ensures ok { OnOk result (self.new ≡ record self.old { funs = self.old.funs ++ f ∷ [] }) }
        ensures err { OnErr result (self.new ≡ self.old) }
    {
        self.types.push_fun(f)?;
        Ok(())
    }

    /// One more struct at the end, which is measured by what is known.
    ///
    /// # Errors
    ///
    /// Want of memory. The table stays then.
    pub fn push_struct(&mut self, s: StructDef) -> Result<(), AllocError>
        ensures ok { OnOk result (self.new ≡ record self.old { structs = self.old.structs ++ s ∷ [] }) }
        ensures err { OnErr result (self.new ≡ self.old) }
    {
        let measure = struct_measure(
            self.types.as_types(),
            self.elements.as_slice(),
            self.structs.as_slice(),
            &s,
        );
        self.structs.reserve(1)?;
        self.types.push_struct(s)?;
        put_last(&mut self.structs, measure);
        Ok(())
    }

    /// A struct in the place of another, if one stands there. It takes no memory. Where the other was
    /// complete, the layouts of all types that were pushed before are walked again each time.
    pub fn set_struct(&mut self, place: usize, definition: StructDef)
        ensures { self.new ≡ record self.old { structs = slice_set self.old.structs place definition } }
    {
        let measure = replace(
            self.types.as_types(),
            &mut self.elements,
            &mut self.structs,
            place,
            &definition,
        );
        self.types.set_struct(place, definition);
        put_at(&mut self.structs, place, measure);
    }

    /// The size and the alignment of a type, as [`c_types::layout`] finds them. They are looked up where
    /// the type's parts were pushed before it. It takes no memory.
    pub fn layout(&self, ty: Ty) -> Option<Extent>
        ensures value { result ≡ extent_of self.now ty }
        ensures small { IfSome result IsSmall }
    {
        find_extent(
            self.types.as_types(),
            self.elements.as_slice(),
            self.structs.as_slice(),
            ty,
        )
    }

    /// The bytes that a type takes; 0 where it has no [`layout`](MeasuredTypes::layout). It takes no memory.
    pub fn size(&self, ty: Ty) -> u64
        ensures { result ≡ size_of self.now ty }
    {
        match self.layout(ty) {
            Some(extent) => extent.size,
            None => 0,
        }
    }
}
