//! An order of a table's types and structs in which each stands behind its parts.
//!
//! It is found by a walk from part to part with a stack of its own. No contract speaks of it: in any order
//! the sizes that are found are right, and in this one none is walked for.
use c_types::{Ty, Types};
use std::alloc::{AllocError, Global};

/// What can be measured, by its place in the list of its kind.
#[derive(Clone, Copy)]
pub enum Part {
    Element(u32),
    Struct(u32),
}

/// What is to be done with a part.
#[derive(Clone, Copy)]
enum Visit {
    /// Its own parts are to be visited, and then it is left.
    Enter(Part),
    /// All its parts are in order.
    Leave(Part),
}

/// The walk so far.
#[derive(Drop)]
struct Walk {
    entered_elements: Vec<bool>,
    entered_structs: Vec<bool>,
    /// The last is the next.
    visits: Vec<Visit>,
    order: Vec<Part>,
}

/// Whether a place is marked for the first time.
fn mark(marked: &mut Vec<bool>, place: usize) -> bool {
    if place >= marked.len() || marked[place] {
        return false;
    }
    marked[place] = true;
    true
}

/// How many of so many things a place can name.
fn places(count: usize) -> u32 {
    count.min(u32::MAX as usize) as u32
}

impl Walk {
    fn new(alloc: Global, types: &Types) -> Result<Walk, AllocError> {
        Ok(Walk {
            entered_elements: vec![in alloc; false; types.tys.len()]?,
            entered_structs: vec![in alloc; false; types.structs.len()]?,
            visits: Vec::new(alloc),
            order: Vec::new(alloc),
        })
    }

    /// The part that a type is made of is to be visited.
    fn visit_part(&mut self, ty: Ty) -> Result<(), AllocError> {
        match ty {
            Ty::Struct(place) => self.visits.push(Visit::Enter(Part::Struct(place)))?,
            Ty::Array(place, _) => self.visits.push(Visit::Enter(Part::Element(place)))?,
            _ => (),
        }
        Ok(())
    }

    fn visit_fields(&mut self, types: &Types, place: u32) -> Result<(), AllocError> {
        if let Some(definition) = types.structs.get(place as usize) {
            for field in definition.fields.as_slice() {
                self.visit_part(field.ty)?;
            }
        }
        Ok(())
    }

    fn enter(&mut self, types: &Types, part: Part) -> Result<(), AllocError> {
        match part {
            Part::Element(place) => {
                if mark(&mut self.entered_elements, place as usize) {
                    self.visits.push(Visit::Leave(part))?;
                    if let Some(ty) = types.tys.get(place as usize) {
                        self.visit_part(*ty)?;
                    }
                }
            }
            Part::Struct(place) => {
                if mark(&mut self.entered_structs, place as usize) {
                    self.visits.push(Visit::Leave(part))?;
                    self.visit_fields(types, place)?;
                }
            }
        }
        Ok(())
    }

    fn visit_all(&mut self, types: &Types) -> Result<(), AllocError> {
        for place in 0..places(types.tys.len()) {
            self.visits.push(Visit::Enter(Part::Element(place)))?;
        }
        for place in 0..places(types.structs.len()) {
            self.visits.push(Visit::Enter(Part::Struct(place)))?;
        }
        Ok(())
    }

    fn finish(&mut self, types: &Types) -> Result<(), AllocError> {
        for _visit in 0..u64::MAX {
            match self.visits.pop() {
                Some(Visit::Enter(part)) => self.enter(types, part)?,
                Some(Visit::Leave(part)) => self.order.push(part)?,
                None => return Ok(()),
            }
        }
        Ok(())
    }
}

/// All types and structs of a table, each once.
pub fn parts_first(alloc: Global, types: &Types) -> Result<Vec<Part>, AllocError> {
    let mut walk = Walk::new(alloc, types)?;
    walk.visit_all(types)?;
    walk.finish(types)?;
    Ok(walk.order)
}
