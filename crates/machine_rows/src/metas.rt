//! Metadata of a small image, with its bytes worked out by hand, and bytes that are no metadata.

use chpe_meta::{MetaRefusal, allowed_meta, meta_fits, read_meta, write_meta};
use chpe_types::{CodeRange, FnRow, Meta, Redirect};
use hx_words::Items;
use std::alloc::{AllocError, Global};
use std::test::Fail;

/// The metadata below, with its header at 0x3000.
static SAMPLE: [u8; 116] = [
    // version 1; the code map at 0x301C, 2 ranges; 1 redirection at 0x302C; 3 rows at 0x3034
    0x01, 0x00, 0x00, 0x00, 0x1C, 0x30, 0x00, 0x00, 0x02, 0x00, 0x00, 0x00, 0x2C, 0x30, 0x00, 0x00,
    0x01, 0x00, 0x00, 0x00, 0x34, 0x30, 0x00, 0x00, 0x03, 0x00, 0x00, 0x00,
    // x64 code from 0x1000, EC code from 0x2000
    0x02, 0x10, 0x00, 0x00, 0x20, 0x00, 0x00, 0x00, 0x01, 0x20, 0x00, 0x00, 0x3C, 0x00, 0x00, 0x00,
    // 0x1010 leads to 0x2004
    0x10, 0x10, 0x00, 0x00, 0x04, 0x20, 0x00, 0x00,
    // the start stub, a sequence, a body; names from 0x3064
    0x06, 0x00, 0x00, 0x00, 0x64, 0x30, 0x00, 0x00, 0x00, 0x10, 0x00, 0x00, 0x10, 0x10, 0x00, 0x00,
    0x05, 0x00, 0x00, 0x00, 0x6A, 0x30, 0x00, 0x00, 0x10, 0x10, 0x00, 0x00, 0x20, 0x10, 0x00, 0x00,
    0x01, 0x00, 0x00, 0x00, 0x6F, 0x30, 0x00, 0x00, 0x04, 0x20, 0x00, 0x00, 0x3C, 0x20, 0x00, 0x00,
    // start, main, main
    0x73, 0x74, 0x61, 0x72, 0x74, 0x00, 0x6D, 0x61, 0x69, 0x6E, 0x00, 0x6D, 0x61, 0x69, 0x6E, 0x00,
];

fn row(alloc: Global, kind: u32, name: &[u8], start: u32, end: u32) -> Result<FnRow, AllocError> {
    Ok(FnRow {
        kind,
        name: Items::from_slice(alloc, name)?,
        start,
        end,
    })
}

fn sample(alloc: Global, x64_start: u32) -> Result<Meta, AllocError> {
    let x64 = CodeRange {
        start: x64_start,
        length: 0x20,
        kind: 2,
    };
    let ec = CodeRange {
        start: 0x2000,
        length: 0x3C,
        kind: 1,
    };
    let redirect = Redirect {
        source: 0x1010,
        destination: 0x2004,
    };
    let mut rows = Items::new(alloc);
    rows.push(row(alloc, 6, b"start", 0x1000, 0x1010)?)?;
    rows.push(row(alloc, 5, b"main", 0x1010, 0x1020)?)?;
    rows.push(row(alloc, 1, b"main", 0x2004, 0x203C)?)?;
    Ok(Meta {
        ranges: Items::from_slice(alloc, &[x64, ec])?,
        redirects: Items::from_slice(alloc, &[redirect])?,
        rows,
    })
}

/// The bytes of the metadata, at 3000h, if they have any.
fn bytes_of(alloc: Global, meta: &Meta) -> Result<Option<Vec<u8>>, AllocError> {
    if allowed_meta(meta) && meta_fits(meta, 0x3000) {
        Ok(Some(write_meta(alloc, meta, 0x3000)?))
    } else {
        Ok(None)
    }
}

#[test]
fn metadata_and_its_bytes(rt: HostRuntime) -> Result<(), Fail> {
    let meta = sample(rt.alloc(), 0x1000)?;
    // 116 bytes end below 2^32, or at it
    assert!(rt; meta_fits(&meta, 0xFFFF_FF8B) && !meta_fits(&meta, 0xFFFF_FF8C));
    let bytes = bytes_of(rt.alloc(), &meta)?;
    assert!(rt; bytes.as_deref() == Some(SAMPLE.as_slice()));
    Ok(())
}

#[test]
fn a_start_without_a_row(rt: HostRuntime) -> Result<(), Fail> {
    // a start that isn't a multiple of 4
    let meta = sample(rt.alloc(), 0x1002)?;
    assert!(rt; !allowed_meta(&meta));
    Ok(())
}

/// A place in the sample, the byte that is put there, and whether that is metadata.
static CHANGES: [(usize, u8, bool); 14] = [
    (0, 1, true),
    // version, the header, each table outside
    (0, 2, false),
    (5, 0x2F, false),
    (8, 12, false),
    (16, 10, false),
    (24, 5, false),
    // kinds 0 and 3, ranges that meet, and that overlap
    (28, 0, false),
    (28, 3, false),
    (33, 0x10, false),
    (29, 0x1F, true),
    // a name before the header, on its last zero, and past it
    (57, 0x2F, false),
    (56, 0x73, true),
    (56, 0x74, false),
    // rows out of order
    (61, 0x11, false),
];

/// Whether the bytes are read, want of memory aside.
fn told(alloc: Global, bytes: &[u8]) -> Result<bool, MetaRefusal> {
    match read_meta(alloc, bytes, 0x3000) {
        Ok(_meta) => Ok(true),
        Err(MetaRefusal::NoMemory) => Err(MetaRefusal::NoMemory),
        Err(MetaRefusal::Bad) => Ok(false),
    }
}

/// The sample with another byte.
fn edited(alloc: Global, place: usize, byte: u8) -> Result<Vec<u8>, AllocError> {
    let mut bytes = Vec::from_slice(alloc, &SAMPLE)?;
    if place < bytes.len() {
        bytes[place] = byte;
    }
    Ok(bytes)
}

#[test]
fn changed_bytes(rt: HostRuntime) -> Result<(), Fail> {
    for change in &CHANGES {
        let (place, byte, good) = *change;
        let bytes = edited(rt.alloc(), place, byte)?;
        assert!(rt; told(rt.alloc(), &bytes)? == good, "{byte} at {place}");
    }
    for len in 0..SAMPLE.len() {
        assert!(rt; !told(rt.alloc(), &SAMPLE[..len])?, "{len} bytes");
    }
    Ok(())
}
