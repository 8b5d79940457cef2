//! Look-ups in a small image's metadata, worked out by hand.

use chpe_types::{CodeRange, Meta, Redirect, kind_at, redirect_of, valid_meta};
use hx_words::Items;
use std::alloc::{AllocError, Global};
use std::test::Fail;

/// x64 code at 0x1000, sequences after it, a hole, and EC code at 0x4000.
static RANGES: [CodeRange; 3] = [
    CodeRange {
        start: 0x1000,
        length: 0x800,
        kind: 2,
    },
    CodeRange {
        start: 0x1800,
        length: 0x10,
        kind: 2,
    },
    CodeRange {
        start: 0x4000,
        length: 0x1234,
        kind: 1,
    },
];

static REDIRECTS: [Redirect; 2] = [
    Redirect {
        source: 0x1800,
        destination: 0x4004,
    },
    Redirect {
        source: 0x1808,
        destination: 0x5000,
    },
];

/// A place, and what the code map and the redirections say of it.
struct Row {
    rva: u32,
    kind: Option<u8>,
    ec: Option<u32>,
}

static ROWS: [Row; 9] = [
    Row {
        rva: 0xFFF,
        kind: None,
        ec: None,
    },
    Row {
        rva: 0x1000,
        kind: Some(2),
        ec: None,
    },
    Row {
        rva: 0x17FF,
        kind: Some(2),
        ec: None,
    },
    Row {
        rva: 0x1800,
        kind: Some(2),
        ec: Some(0x4004),
    },
    Row {
        rva: 0x1808,
        kind: Some(2),
        ec: Some(0x5000),
    },
    Row {
        rva: 0x1810,
        kind: None,
        ec: None,
    },
    Row {
        rva: 0x5233,
        kind: Some(1),
        ec: None,
    },
    Row {
        rva: 0x5234,
        kind: None,
        ec: None,
    },
    Row {
        rva: 0xFFFF_FFFF,
        kind: None,
        ec: None,
    },
];

fn meta(alloc: Global, ranges: &[CodeRange], redirects: &[Redirect]) -> Result<Meta, AllocError> {
    Ok(Meta {
        ranges: Items::from_slice(alloc, ranges)?,
        redirects: Items::from_slice(alloc, redirects)?,
        rows: Items::new(alloc),
    })
}

/// Whether the look-ups in the small image's metadata give what the rows say.
fn gives(meta: &Meta) -> bool {
    if !valid_meta(meta) {
        return false;
    }
    let mut all = true;
    for row in &ROWS {
        all = all && kind_at(meta, row.rva) == row.kind && redirect_of(meta, row.rva) == row.ec;
    }
    all
}

#[test]
fn places_of_a_small_image(rt: HostRuntime) -> Result<(), Fail> {
    let meta = meta(rt.alloc(), &RANGES, &REDIRECTS)?;
    assert!(rt; gives(&meta));
    Ok(())
}

/// Whether these tables are metadata.
fn is_valid(
    alloc: Global,
    ranges: &[CodeRange],
    redirects: &[Redirect],
) -> Result<bool, AllocError> {
    let meta = meta(alloc, ranges, redirects)?;
    Ok(valid_meta(&meta))
}

#[test]
fn tables_out_of_order(rt: HostRuntime) -> Result<(), Fail> {
    let over = CodeRange {
        start: 0x17FF,
        length: 1,
        kind: 2,
    };
    let sideless = CodeRange {
        start: 0,
        length: 1,
        kind: 3,
    };
    assert!(rt; !is_valid(rt.alloc(), &[RANGES[1], RANGES[0]], &[])?);
    assert!(rt; !is_valid(rt.alloc(), &[RANGES[0], over], &[])?);
    assert!(rt; !is_valid(rt.alloc(), &[sideless], &[])?);
    assert!(rt; !is_valid(rt.alloc(), &[], &[REDIRECTS[0], REDIRECTS[0]])?);
    assert!(rt; is_valid(rt.alloc(), &[], &[])?);
    Ok(())
}
