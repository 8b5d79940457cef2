//! Accesses at the ends of regions, across neighbours, in the guard range and at the ends of the
//! address space, with values worked out by hand.

use hx_bits::Width;
use hx_mem::{MemBad, Memory, Region};
use std::alloc::Global;
use std::process::Abort;
use std::test::Fail;

const TOP: u64 = 1 << 63;

/// A region: its start, its bytes, and whether it may be written and run.
type Held = (u64, &'static [u8], bool, bool);

/// Data, code right after it, and four bytes below 2^63, out of order, and a region without bytes.
static HELD: [Held; 4] = [
    (0x1010, &[0x48, 0x8b, 0xc4, 0xc3], false, true),
    (TOP - 4, &[0xf0, 0xf1, 0xf2, 0xf3], true, false),
    (0x1008, &[1, 2, 3, 4, 5, 6, 7, 0x88], true, false),
    (0x100a, &[], true, true),
];

/// Adds a region where there is room.
fn place(
    rt: &impl Abort,
    alloc: Global,
    memory: &mut Memory,
    (start, bytes, write, exec): Held,
) -> Result<(), Fail> {
    assert!(rt; memory.has_room(start, bytes.len() as u64));
    let bytes = bytes.to_vec(alloc)?;
    memory.add(Region {
        start,
        bytes,
        write,
        exec,
    })?;
    Ok(())
}

/// Those regions, and a guard range.
fn fill(rt: &impl Abort, alloc: Global, memory: &mut Memory) -> Result<(), Fail> {
    for held in &HELD {
        place(rt, alloc, memory, *held)?;
    }
    assert!(rt; memory.has_room_for_guard(0x2000, 0x1000));
    memory.guard(0x2000, 0x1000);
    Ok(())
}

fn gives(rt: &impl Abort, memory: &Memory, at: u64, most: usize, want: &[u8]) {
    match memory.fetch(at, most) {
        Ok(bytes) => assert!(rt; bytes == want, "at {at}"),
        Err(_) => assert!(rt; false, "at {at}"),
    }
}

fn refuses(rt: &impl Abort, memory: &Memory, at: u64, want: MemBad) {
    match memory.fetch(at, 4) {
        Ok(_) => assert!(rt; false, "at {at}"),
        Err(bad) => assert!(rt; bad == want, "at {at}"),
    }
}

/// A place, a width, and what a load of it gives.
static LOADS: [(u64, Width, Result<u64, MemBad>); 21] = [
    (0x1008, Width::W8, Ok(1)),
    (0x100f, Width::W8, Ok(0x88)),
    (0x100e, Width::W16, Ok(0x8807)),
    (0x100f, Width::W16, Err(MemBad::Unmapped(0x1010))),
    (0x100c, Width::W32, Ok(0x8807_0605)),
    (0x100d, Width::W32, Err(MemBad::Unmapped(0x1010))),
    (0x1008, Width::W64, Ok(0x8807_0605_0403_0201)),
    (0x1009, Width::W64, Err(MemBad::Unmapped(0x1010))),
    (0x1007, Width::W16, Err(MemBad::Unmapped(0x1007))),
    (0x1010, Width::W32, Ok(0xc3c4_8b48)),
    (0x1010, Width::W64, Err(MemBad::Unmapped(0x1014))),
    (0x1fff, Width::W64, Err(MemBad::Unmapped(0x1fff))),
    (0x2000, Width::W8, Err(MemBad::Guard(0x2000))),
    (0x2fff, Width::W64, Err(MemBad::Guard(0x2fff))),
    (0x3000, Width::W8, Err(MemBad::Unmapped(0x3000))),
    (TOP - 4, Width::W32, Ok(0xf3f2_f1f0)),
    (TOP - 1, Width::W8, Ok(0xf3)),
    (TOP - 1, Width::W16, Err(MemBad::Unmapped(TOP))),
    (TOP, Width::W8, Err(MemBad::Unmapped(TOP))),
    (u64::MAX, Width::W64, Err(MemBad::Unmapped(u64::MAX))),
    (0, Width::W8, Err(MemBad::Unmapped(0))),
];

#[test]
fn loads_at_the_ends(rt: HostRuntime) -> Result<(), Fail> {
    let mut memory = Memory::new(rt.alloc());
    fill(&rt, rt.alloc(), &mut memory)?;
    for (at, w, want) in &LOADS {
        assert!(rt; memory.load(*at, *w) == *want, "at {at}");
    }
    Ok(())
}

/// A place, a width, a value, and what a store of it gives.
static STORES: [(u64, Width, u64, Result<(), MemBad>); 8] = [
    (0x100c, Width::W32, 0x1_2233_4455, Ok(())),
    (0x1009, Width::W8, 0x1ff, Ok(())),
    (0x100d, Width::W32, 0, Err(MemBad::Unmapped(0x1010))),
    (0x1010, Width::W8, 0, Err(MemBad::Protected(0x1010))),
    (0x1013, Width::W16, 0, Err(MemBad::Unmapped(0x1014))),
    (0x2800, Width::W64, 0, Err(MemBad::Guard(0x2800))),
    (TOP - 2, Width::W16, 0xabcd, Ok(())),
    (TOP - 2, Width::W64, 0, Err(MemBad::Unmapped(TOP))),
];

fn stores(rt: &impl Abort, memory: &mut Memory) {
    for (at, w, v, want) in &STORES {
        assert!(rt; memory.store(*at, *w, *v) == *want, "at {at}");
    }
    assert!(rt; memory.load(0x1008, Width::W64) == Ok(0x2233_4455_0403_ff01));
    assert!(rt; memory.load(TOP - 4, Width::W32) == Ok(0xabcd_f1f0));
}

#[test]
fn stores_and_fetches(rt: HostRuntime) -> Result<(), Fail> {
    let mut memory = Memory::new(rt.alloc());
    fill(&rt, rt.alloc(), &mut memory)?;
    stores(&rt, &mut memory);
    gives(&rt, &memory, 0x1010, 15, &[0x48, 0x8b, 0xc4, 0xc3]);
    gives(&rt, &memory, 0x1011, 2, &[0x8b, 0xc4]);
    gives(&rt, &memory, 0x1013, 4, &[0xc3]);
    refuses(&rt, &memory, 0x1014, MemBad::Unmapped(0x1014));
    refuses(&rt, &memory, 0x1008, MemBad::Protected(0x1008));
    refuses(&rt, &memory, 0x2fff, MemBad::Guard(0x2fff));
    Ok(())
}

/// A start, a length, and whether a region of them has room.
static ROOMS: [(u64, u64, bool); 13] = [
    (0x1014, 4, true),
    (0x1013, 4, false),
    (0x1004, 4, true),
    (0x1004, 5, false),
    (0x100a, 0, true),
    (0x1fff, 1, true),
    (0x1fff, 2, false),
    (0x3000, 1, true),
    (TOP - 4, 1, false),
    (TOP, 0, true),
    (TOP, 1, false),
    (u64::MAX, 1, false),
    (1, u64::MAX, false),
];

#[test]
fn room(rt: HostRuntime) -> Result<(), Fail> {
    let mut memory = Memory::new(rt.alloc());
    fill(&rt, rt.alloc(), &mut memory)?;
    for (start, length, want) in &ROOMS {
        assert!(rt; memory.has_room(*start, *length) == *want, "at {start}");
    }
    assert!(rt; memory.has_room_for_guard(0x2800, 0x2000));
    assert!(rt; !memory.has_room_for_guard(0x1000, 0x1000));
    Ok(())
}
