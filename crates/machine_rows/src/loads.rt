//! An image made by hand, and what its bytes are at a base.

ghost use Rattle.std.specs.Prelude.{IfOk};
ghost use Rattle.pe_loader.specs.Loading.{CanLoad};

use chpe_types::{CodeRange, Image, ImageSection, ImportSlot, Meta};
use hx_bits::Width;
use hx_words::Items;
use pe_loader::{LoadRefusal, Loaded, base_ok, load};
use std::alloc::{AllocError, Global};
use std::test::Fail;

/// A section of x64 code, and one of data with a number to be moved and a slot.
fn image(alloc: Global, name: &[u8], site: u32) -> Result<Image, AllocError>
    ensures { IfOk result CanLoad }
{
    let text = ImageSection {
        name: Items::from_slice(alloc, b".text")?,
        rva: 0x1000,
        size: 2,
        flags: 0x6000_0020,
        bytes: Items::from_slice(alloc, b"\x0F\x0B")?,
    };
    let data = ImageSection {
        name: Items::from_slice(alloc, b".data")?,
        rva: 0x2000,
        size: 24,
        flags: 0xC000_0040,
        bytes: Items::from_slice(alloc, b"\x02\x10\0\x40\x01")?,
    };
    let slot = ImportSlot {
        name: Items::from_slice(alloc, name)?,
        rva: 0x2008,
    };
    let range = CodeRange {
        start: 0x1000,
        length: 2,
        kind: 2,
    };
    Ok(Image {
        base: 0x1_4000_0000,
        size: 0x3000,
        entry: 0x1000,
        stack: 4096,
        sections: Items::from_vec(vec![in alloc; text, data]?),
        imports: Items::from_vec(vec![in alloc; slot]?),
        sites: Items::from_slice(alloc, &[site])?,
        meta: Meta {
            ranges: Items::from_vec(vec![in alloc; range]?),
            redirects: Items::new(alloc),
            rows: Items::new(alloc),
        },
    })
}

/// A name of an import, a site and a base, and then the numbers of the data section or a refusal.
type Row = (&'static [u8], u32, u64, &'static str);

static ROWS: [Row; 8] = [
    (
        b"put_byte",
        0x2000,
        0x1_4000_0000,
        "140001002 7fff00000030 0",
    ),
    (b"#trap", 0x2000, 0x2_0000, "21002 7fff00001060 0"),
    (
        b"__os_arm64x_dispatch_ret",
        0x2010,
        0x2_0000,
        "140001002 7fff00001020 fffffffec0020000",
    ),
    (b"exit", 0x2000, 0, "BadBase"),
    (b"exit", 0x2000, 0x1_4000_8000, "BadBase"),
    (b"exit", 0x2000, 0x4000_0000_0000, "BadBase"),
    (b"receive", 0x3000, 0x1_0000, "UnknownImport receive"),
    (b"exit", 0x2011, 0x1_0000, "BadRelocation 2011"),
];

/// The three numbers of the data section.
fn numbers(alloc: Global, l: &Loaded) -> Result<String, Fail> {
    let at = l.base.wrapping_add(0x2000);
    let moved = l.mem.load(at, Width::W64)?;
    let slot = l.mem.load(at.wrapping_add(8), Width::W64)?;
    let rest = l.mem.load(at.wrapping_add(16), Width::W64)?;
    Ok(format!(in alloc; "{moved:x} {slot:x} {rest:x}")?)
}

/// What a load comes to.
fn answer(alloc: Global, name: &[u8], site: u32, base: u64) -> Result<String, Fail> {
    let i = image(alloc, name, site)?;
    match load(alloc, &i, base) {
        Ok(loaded) => numbers(alloc, &loaded),
        Err(LoadRefusal::BadBase) => Ok(format!(in alloc; "BadBase")?),
        Err(LoadRefusal::UnknownImport(name)) => {
            let text = std::str::from_utf8(&name)?;
            Ok(format!(in alloc; "UnknownImport {text}")?)
        }
        Err(LoadRefusal::BadRelocation(rva)) => Ok(format!(in alloc; "BadRelocation {rva:x}")?),
        Err(LoadRefusal::NoMemory) => Err(Fail::new("out of memory")),
    }
}

#[test]
fn images_load(rt: HostRuntime) -> Result<(), Fail> {
    for (name, site, base, wanted) in &ROWS {
        assert!(rt;
            answer(rt.alloc(), name, *site, *base)?.as_str() == *wanted,
            "{wanted}"
        );
    }
    Ok(())
}

/// A size, a base, and whether it is permitted.
static BASES: [(u32, u64, bool); 7] = [
    (0x1000, 0x1_0000, true),
    (0x1000, 0, false),
    (0x1000, 0x1_8000, false),
    (0x1_0000, 0x3FFF_FFFF_0000, true),
    (0x1_0001, 0x3FFF_FFFF_0000, false),
    (0x1000, 0x4000_0000_0000, false),
    (u32::MAX, u64::MAX - 0xFFFF, false),
];

#[test]
fn bases(rt: HostRuntime) {
    for (size, base, allowed) in &BASES {
        assert!(rt; base_ok(*size, *base) == *allowed, "{size} {base}");
    }
}
