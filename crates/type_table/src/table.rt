//! Types in order, which an index finds.
ghost use Rattle.std.specs.Prelude.{◌≡◌, [], ◌∷◌, ◌++◌, position, slice_get, slice_set, IfOk, OnOk, OnErr};
ghost use Rattle.type_table.specs.TypeKeys.{is_ty, is_fun, has_tag, keeps_tag};

use crate::keys::{key_of, key_of_function};
use c_types::{FunTy, StructDef, Ty, Types};
use hx_words::Items;
use indexmap::IndexMap;
use named_rows::{key_for, place_of, put_key};
use std::alloc::{AllocError, Global};
use std::marker::Model;

/// The types that a program names, of which each is found by an index. A contract sees the types.
#[derive(Drop)]
pub struct TypeTable {
    alloc: Global,
    types: Types,
    ty_places: IndexMap<Vec<u64>, usize>,
    fun_places: IndexMap<Vec<u64>, usize>,
    struct_places: IndexMap<Vec<u8>, usize>,
    /// False once a struct took the place of one of another tag: tags are then found by a walk.
    tags_known: bool,
}

impl Model for TypeTable {
    ghost use Rattle.c_types.specs.declared.types.Types.{Types};
    ghost use Rattle.type_table.specs.TypeKeys.{IsIndexed};

    ghost Value = { Types };

    ghost view = { λ t. t.types };

    ghost invariant = { λ t. IsIndexed t.types t.ty_places t.fun_places t.struct_places t.tags_known };
}

/// Whether the struct at a place has this tag, if there is one.
fn keeps_tag(structs: &[StructDef], place: usize, tag: &[u8]) -> bool
    ensures { result ≡ keeps_tag (slice_get structs.now place) tag.now }
{
    match structs.get(place) {
        Some(s) => s.tag.as_slice() == tag,
        None => true,
    }
}

fn put_struct(structs: &mut Items<StructDef>, place: usize, definition: StructDef)
    ensures { structs.new ≡ slice_set structs.old place definition }
{
    if place < structs.len() {
        structs.set(place, definition);
    }
}

/// The first place of a tag, by a walk.
fn walk_to(structs: &[StructDef], tag: &[u8]) -> Option<usize>
    ensures { result ≡ position (has_tag tag.now) structs.now }
{
    structs.iter().position(|s| s.tag.as_slice() == tag)
}

impl TypeTable {
    /// A table without types.
    pub fn new(alloc: Global) -> TypeTable
        ensures { result ≡ record { tys = []; structs = []; funs = [] } }
    {
        let types = Types {
            tys: Items::new(alloc),
            structs: Items::new(alloc),
            funs: Items::new(alloc),
        };
        TypeTable {
            alloc,
            types,
            ty_places: IndexMap::new(alloc),
            fun_places: IndexMap::new(alloc),
            struct_places: IndexMap::new(alloc),
            tags_known: true,
        }
    }

    /// The types in order.
    pub fn as_types(&self) -> &Types
        ensures { result.now ≡ self.now }
    {
        &self.types
    }

    /// The types alone.
    pub fn into_types(self) -> Types
        ensures { result ≡ self }
    {
        let TypeTable {
            alloc: _,
            types,
            ty_places: _,
            fun_places: _,
            struct_places: _,
            tags_known: _,
        } = self;
        types
    }

    /// The first place of a type. It takes no memory.
    pub fn find_ty(&self, ty: Ty) -> Option<usize>
        ensures { result ≡ position (is_ty ty) self.now.tys }
    {
        place_of(&self.ty_places, &key_of(ty))
    }

    /// The first place of a function's type.
    ///
    /// # Errors
    ///
    /// Want of memory for the numbers by which the type is found.
    pub fn find_fun(&self, f: &FunTy) -> Result<Option<usize>, AllocError>
        ensures { IfOk result (λ place. place ≡ position (is_fun f.now) self.now.funs) }
    {
        let key = key_of_function(self.alloc, f)?;
        Ok(place_of(&self.fun_places, key.as_slice()))
    }

    /// The first place of a struct of this tag. It takes no memory.
    pub fn find_struct(&self, tag: &[u8]) -> Option<usize>
        ensures { result ≡ position (has_tag tag.now) self.now.structs }
    {
        if !self.tags_known {
            return walk_to(self.types.structs.as_slice(), tag);
        }
        place_of(&self.struct_places, tag)
    }

    /// One more type at the end.
    ///
    /// # Errors
    ///
    /// Want of memory. The table stays then.
    pub fn push_ty(&mut self, ty: Ty) -> Result<(), AllocError>
        ensures ok { OnOk result (self.new ≡ record self.old { tys = self.old.tys ++ ty ∷ [] }) }
        ensures err { OnErr result (self.new ≡ self.old) }
    {
        let at = self.types.tys.len();
        let key = key_for(self.alloc, &key_of(ty), &mut self.ty_places)?;
        match key {
            Some(key) => {
                self.types.tys.push(ty)?;
                put_key(key, at, &mut self.ty_places);
            }
            None => {
                self.types.tys.push(ty)?;
            }
        }
        Ok(())
    }

    /// One more function type at the end.
    ///
    /// # Errors
    ///
    /// Want of memory. The table stays then.
    pub fn push_fun(&mut self, f: FunTy) -> Result<(), AllocError>
        ensures ok { OnOk result (self.new ≡ record self.old { funs = self.old.funs ++ f ∷ [] }) }
        ensures err { OnErr result (self.new ≡ self.old) }
    {
        let at = self.types.funs.len();
        let numbers = key_of_function(self.alloc, &f)?;
        let key = key_for(self.alloc, numbers.as_slice(), &mut self.fun_places)?;
        match key {
            Some(key) => {
                self.types.funs.push(f)?;
                put_key(key, at, &mut self.fun_places);
            }
            None => {
                self.types.funs.push(f)?;
            }
        }
        Ok(())
    }

    /// One more struct at the end.
    ///
    /// # Errors
    ///
    /// Want of memory. The table stays then.
    pub fn push_struct(&mut self, s: StructDef) -> Result<(), AllocError>
        ensures ok { OnOk result (self.new ≡ record self.old { structs = self.old.structs ++ s ∷ [] }) }
        ensures err { OnErr result (self.new ≡ self.old) }
    {
        let at = self.types.structs.len();
        let key = key_for(self.alloc, s.tag.as_slice(), &mut self.struct_places)?;
        match key {
            Some(key) => {
                self.types.structs.push(s)?;
                put_key(key, at, &mut self.struct_places);
            }
            None => {
                self.types.structs.push(s)?;
            }
        }
        Ok(())
    }

    /// A struct in the place of another, if one stands there. It takes no memory.
    pub fn set_struct(&mut self, place: usize, definition: StructDef)
        ensures { self.new ≡ record self.old { structs = slice_set self.old.structs place definition } }
    {
        let kept = keeps_tag(
            self.types.structs.as_slice(),
            place,
            definition.tag.as_slice(),
        );
        put_struct(&mut self.types.structs, place, definition);
        self.tags_known = self.tags_known && kept;
    }
}
