//! Rows with names, in order.
ghost use Rattle.std.specs.Prelude.{◌≡◌, [], ◌∷◌, ◌++◌, ◌<◌, true, length, position, find, slice_get, slice_set, bytes_eq, IfOk, OnOk, OnErr, OnSome};
ghost use Rattle.std.specs.Option.{option_copied};
ghost use Rattle.named_rows.specs.Places.{AreDistinct};

use crate::named::Named;
use crate::places::{key_for, place_of, put_key};
use hx_words::Items;
use indexmap::IndexMap;
use std::alloc::{AllocError, Global};
use std::marker::{Model, PhantomData};

/// Rows in order, of which the first of a name is found by an index. A contract sees the rows.
#[derive(Drop)]
pub struct NamedRows<T: Named<By>, By> {
    alloc: Global,
    rows: Items<T>,
    places: IndexMap<Vec<u8>, usize>,
    /// False once two rows may have one name.
    distinct: bool,
    by: PhantomData<By>,
}

impl<T: Named<By>, By> Model for NamedRows<T, By> {
    ghost use Rattle.std.specs.Prelude.{List};
    ghost use Rattle.std.specs.Coded.{coded_list};
    ghost use Rattle.named_rows.specs.Places.{IsIndexed};

    ghost Value = { List T };

    ghost coded = { coded_list T.code };

    ghost view = { λ it. it.rows };

    ghost invariant = { λ it. IsIndexed T.name it.places it.distinct it.rows };
}

impl<T: Named<By>, By> NamedRows<T, By> {
    /// No rows yet.
    pub fn new(alloc: Global) -> NamedRows<T, By>
        ensures { result ≡ [] }
    {
        NamedRows {
            alloc,
            rows: Items::new(alloc),
            places: IndexMap::new(alloc),
            distinct: true,
            by: PhantomData,
        }
    }

    /// The rows in order.
    pub fn as_slice(&self) -> &[T]
        ensures { result.now ≡ self.now }
    {
        self.rows.as_slice()
    }

    /// The number of rows.
    pub fn len(&self) -> usize
        ensures { result ≡ length self.now }
    {
        self.rows.len()
    }

    /// The row at a place.
    pub fn get(&self, at: usize) -> Option<&T>
        ensures value { option_copied result ≡ slice_get self.now at }
        ensures within { OnSome result (at < length self.now) }
    {
        self.rows.get(at)
    }

    /// The place of the first row of a name. It takes no memory.
    pub fn find(&self, name: &[u8]) -> Option<usize>
        ensures { result ≡ position (λ row. bytes_eq (T.name row) name.now) self.now }
    {
        place_of(&self.places, name)
    }

    /// The first row of a name. It takes no memory.
    pub fn find_row(&self, name: &[u8]) -> Option<&T>
        ensures { option_copied result ≡ find (λ row. bytes_eq (T.name row) name.now) self.now }
    {
        match self.find(name) {
            Some(at) => self.rows.get(at),
            None => None,
        }
    }

    /// Whether it is known that each name stands once: so it is while no row is pushed whose name stands.
    pub fn are_distinct(&self) -> bool
        ensures { result ≡ true → AreDistinct T.name self.now }
    {
        self.distinct
    }

    /// The rows alone.
    pub fn into_items(self) -> Items<T>
        ensures { result ≡ self }
    {
        let NamedRows {
            alloc: _,
            rows,
            places: _,
            distinct: _,
            by: _,
        } = self;
        rows
    }
}

impl<T: Named<By> + Drop, By> NamedRows<T, By> {
    /// One more row at the end. Where its name stands already, the first row of that name stays found.
    ///
    /// # Errors
    ///
    /// Want of memory. The rows stay then.
    pub fn push(&mut self, row: T) -> Result<(), AllocError>
        ensures ok { OnOk result (self.new ≡ self.old ++ row ∷ []) }
        ensures err { OnErr result (self.new ≡ self.old) }
    {
        let at = self.rows.len();
        match key_for(self.alloc, row.name(), &mut self.places)? {
            Some(key) => {
                self.rows.push(row)?;
                put_key(key, at, &mut self.places);
            }
            None => {
                self.rows.push(row)?;
                self.distinct = false;
            }
        }
        Ok(())
    }

    /// Another row of the same name at a place. It takes no memory.
    pub fn set(&mut self, at: usize, row: T)
        requires there { at < length self.old }
        requires named { (other : _) → slice_get self.old at ≡ Some other → T.name other ≡ T.name row }
        ensures { self.new ≡ slice_set self.old at row }
    {
        self.rows.set(at, row);
    }
}
