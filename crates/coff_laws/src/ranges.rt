//! The ranges of an object that code holds.

ghost use Rattle.std.specs.Prelude.{◌≡◌, ℕ, ◌<◌, ◌^◌, Some, slice_get};
ghost use Rattle.coff_write.specs.declared.object.ObjSection.{ObjSection as AnySection};
ghost use Rattle.coff_write.specs.declared.object.ObjSymbol.{ObjSymbol as AnySymbol};
ghost use Rattle.coff_laws_parts.specs.Ranges.{HasRanges};

use coff_write::{ObjSection, ObjSymbol, Object};

/// What the types of a section's numbers say is known where they are read.
fn look_at_section(section: &ObjSection)
    ensures flags { section.now.flags < 2 ^ 32 }
    ensures zeros { section.now.zeros < 2 ^ 32 }
{
    let _flags = section.flags;
    let _zeros = section.zeros;
}

fn look_at_symbol(symbol: &ObjSymbol)
    ensures { symbol.now.value < 2 ^ 32 }
{
    let _value = symbol.value;
}

fn look_at_sections(sections: &[ObjSection])
    ensures flags { (i : ℕ) (s : AnySection) → slice_get sections.now i ≡ Some s → s.flags < 2 ^ 32 }
    ensures zeros { (i : ℕ) (s : AnySection) → slice_get sections.now i ≡ Some s → s.zeros < 2 ^ 32 }
{
    for section in sections {
        look_at_section(section);
    }
}

fn look_at_symbols(symbols: &[ObjSymbol])
    ensures { (j : ℕ) (s : AnySymbol) → slice_get symbols.now j ≡ Some s → s.value < 2 ^ 32 }
{
    for symbol in symbols {
        look_at_symbol(symbol);
    }
}

/// The numbers of an object are those of their types. This looks at each of them, and changes nothing.
pub fn object_has_ranges(object: &Object)
    ensures { HasRanges object.now }
{
    look_at_sections(object.sections.as_slice());
    look_at_symbols(object.symbols.as_slice());
}
