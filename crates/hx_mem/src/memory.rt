//! The whole memory.

ghost use Rattle.std.specs.Prelude.{◌≡◌, ◌≤◌, ◌<◌, ◌+◌, ◌-◌, ◌^◌, ◌∷◌, [], length, true, IsTrue, None, Some, Ok, Err, MatchOption, MatchResult, OnOk, OnErr, nat_le, nat_lt};
ghost use Rattle.hx_words.specs.LittleEndian.{bytes_of, AreBytes};
ghost use Rattle.hx_bits.specs.Widths.{bytes_in};
ghost use Rattle.hx_mem.specs.Found.{NoneHas, IsFoundAt, AllStartBy, AllStartPast};
ghost use Rattle.hx_mem.specs.Space.{read, put, loaded, load_bad, stored, fetched, no_region, region_of, load_of, store_of, after_store, after_add, fetch_of, has_room, has_room_for_guard, misses_guard, misses, shares_none, IsLaidOut, end_of};

use crate::fault::MemBad;
use crate::region::Region;
use hx_bits::Width;
use std::alloc::{AllocError, Global};
use std::marker::Model;

/// A range of addresses that no region may touch.
#[derive(Clone, Copy, PartialEq, Eq, Debug)]
pub struct GuardRange {
    pub start: u64,
    pub length: u64,
}

/// A memory: its regions, which share no address, and a range that none touches.
#[derive(Drop)]
pub struct Memory {
    regions: Vec<Region>,
    guard: Option<GuardRange>,
}

impl Model for Memory {
    ghost use Rattle.hx_mem.specs.Space.{Space, IsMemory};

    ghost Value = { Space };

    ghost view = { λ m. record { regions = m.regions.items; guard = m.guard } };

    ghost invariant = { λ m. IsMemory (record { regions = m.regions.items; guard = m.guard }) };
}

impl Memory {
    ghost use Rattle.hx_mem.specs.Space.{IsMemory};

    /// A memory with no region and no guard range.
    pub fn new(alloc: Global) -> Memory
        ensures value { result ≡ record { regions = []; guard = None } }
        ensures whole { IsMemory result }
    {
        Memory {
            regions: Vec::new(alloc),
            guard: None,
        }
    }

    /// Whether a region of so many bytes may be added: it shares no address with a region of the memory
    /// or with the guard range, and ends by 2^63.
    pub fn has_room(&self, start: u64, length: u64) -> bool
        ensures value { result ≡ has_room self.now start length }
        ensures whole { IsMemory self.now }
    {
        ends_low(start, length)
            && misses_guard(&self.guard, start, length)
            && misses_regions(&self.regions, start, length)
    }

    /// Whether the guard range may lie there: it shares no address with a region, and ends by 2^63.
    pub fn has_room_for_guard(&self, start: u64, length: u64) -> bool
        ensures value { result ≡ has_room_for_guard self.now start length }
        ensures whole { IsMemory self.now }
    {
        ends_low(start, length) && misses_regions(&self.regions, start, length)
    }

    /// One more region. A region of no bytes has no address, and is not kept.
    pub fn add(&mut self, region: Region) -> Result<(), AllocError>
        requires { IsTrue (has_room self.old region.start (length region.bytes)) }
        ensures ok { OnOk result (self.new ≡ after_add self.old region) }
        ensures err { OnErr result (self.new ≡ self.old) }
        ensures whole { IsMemory self.new }
    {
        let i = started_by(&self.regions, region.start);
        if !has_any(&region.bytes) {
            return Ok(());
        }
        self.regions.insert(i, region)?;
        Ok(())
    }

    /// Sets the guard range, in the place of the one before.
    pub fn guard(&mut self, start: u64, length: u64)
        requires { IsTrue (has_room_for_guard self.old start length) }
        ensures after { self.new ≡ record self.old { guard = Some (record { start = start; length = length }) } }
        ensures whole { IsMemory self.new }
    {
        self.guard = Some(GuardRange { start, length });
    }

    /// The number of a width at an address, the lowest byte first.
    pub fn load(&self, at: u64, w: Width) -> Result<u64, MemBad>
        ensures { result ≡ load_of self.now at (bytes_in w) }
    {
        load_from(&self.regions, &self.guard, at, w)
    }

    /// Writes the low bits of a number, the lowest byte first. A store that is refused changes nothing.
    pub fn store(&mut self, at: u64, w: Width, v: u64) -> Result<(), MemBad>
        ensures answer { result ≡ store_of self.old at (bytes_in w) }
        ensures after { self.new ≡ after_store self.old at (bytes_in w) v }
    {
        store_to(&mut self.regions, &self.guard, at, w, v)
    }

    /// What a store of a width at an address would answer.
    pub fn check_store(&self, at: u64, w: Width) -> Result<(), MemBad>
        ensures { result ≡ store_of self.now at (bytes_in w) }
    {
        check_store_to(&self.regions, &self.guard, at, w)
    }

    /// Up to `most` bytes of an executable region, from an address of it.
    pub fn fetch(&self, at: u64, most: usize) -> Result<&[u8], MemBad>
        ensures { MatchResult result (λ bytes. Ok bytes.now ≡ fetch_of self.now at most) (λ bad. Err bad ≡ fetch_of self.now at most) }
    {
        fetch_from(&self.regions, &self.guard, at, most)
    }
}

// Whether there is a byte; each is below 256.
fn has_any(bytes: &[u8]) -> bool
    ensures value { result ≡ nat_lt 0 (length bytes.now) }
    ensures items { AreBytes bytes.now }
{
    !bytes.is_empty()
}

// Whether the addresses end by 2^63.
fn ends_low(start: u64, length: u64) -> bool
    ensures { result ≡ nat_le (start + length) (2 ^ 63) }
{
    const LIMIT: u64 = 1 << 63;
    length <= LIMIT && start <= LIMIT - length
}

// Whether two stretches of addresses share none.
fn shares_none(a: u64, n: u64, b: u64, k: u64) -> bool
    ensures { result ≡ shares_none a n b k }
{
    if a <= b {
        n <= b - a || k == 0
    } else {
        k <= a - b || n == 0
    }
}

fn misses_guard(guard: &Option<GuardRange>, start: u64, length: u64) -> bool
    ensures { result ≡ misses_guard guard.now start length }
{
    match guard {
        None => true,
        Some(range) => shares_none(start, length, range.start, range.length),
    }
}

fn misses_regions(regions: &[Region], start: u64, length: u64) -> bool
    ensures { result ≡ misses regions.now start length }
{
    for region in regions {
        if !shares_none(start, length, region.start, region.bytes.len() as u64) {
            return false;
        }
    }
    true
}

// How many regions start by an address. They are in the order of their starts, so halving finds it.
fn started_by(regions: &[Region], at: u64) -> usize
    requires { IsLaidOut regions.now }
    ensures bound { result ≤ length regions.now }
    ensures started { AllStartBy regions.now at result }
    ensures others { AllStartPast regions.now at result }
{
    let mut low = 0;
    let mut high = regions.len();
    while low < high {
        let middle = low + (high - low) / 2;
        let region = &regions[middle];
        if region.start <= at {
            low = middle + 1;
        } else {
            high = middle;
        }
    }
    low
}

// The place of the region that has the address.
fn region_at(regions: &[Region], at: u64) -> Option<usize>
    requires { IsLaidOut regions.now }
    ensures { MatchOption result (NoneHas regions.now at) (IsFoundAt regions.now at) }
{
    let i = started_by(regions, at);
    if i == 0 {
        return None;
    }
    let region = &regions[i - 1];
    if region.has(at) { Some(i - 1) } else { None }
}

fn load_from(
    regions: &[Region],
    guard: &Option<GuardRange>,
    at: u64,
    w: Width,
) -> Result<u64, MemBad>
    requires { IsLaidOut regions.now }
    ensures { result ≡ loaded (read regions.now at (bytes_in w)) (load_bad (region_of regions.now at) guard.now at) }
{
    match region_at(regions, at) {
        None => Err(bad_at(guard, at)),
        Some(i) => {
            let region = &regions[i];
            region.load(at, w)
        }
    }
}

fn store_to(
    regions: &mut [Region],
    guard: &Option<GuardRange>,
    at: u64,
    w: Width,
    v: u64,
) -> Result<(), MemBad>
    requires { IsLaidOut regions.old }
    ensures answer { result ≡ stored (region_of regions.old at) guard.now at (bytes_in w) }
    ensures after { regions.new ≡ put regions.old at (bytes_of (bytes_in w) v) }
{
    match region_at(regions, at) {
        None => Err(bad_at(guard, at)),
        Some(i) => {
            let region = &mut regions[i];
            region.store(at, w, v)
        }
    }
}

fn check_store_to(
    regions: &[Region],
    guard: &Option<GuardRange>,
    at: u64,
    w: Width,
) -> Result<(), MemBad>
    requires { IsLaidOut regions.now }
    ensures { result ≡ stored (region_of regions.now at) guard.now at (bytes_in w) }
{
    match region_at(regions, at) {
        None => Err(bad_at(guard, at)),
        Some(i) => {
            let region = &regions[i];
            region.check_store(at, w)
        }
    }
}

fn fetch_from<'a>(
    regions: &'a [Region],
    guard: &Option<GuardRange>,
    at: u64,
    most: usize,
) -> Result<&'a [u8], MemBad>
    requires { IsLaidOut regions.now }
    ensures { MatchResult result (λ bytes. Ok bytes.now ≡ fetched (region_of regions.now at) guard.now at most) (λ bad. Err bad ≡ fetched (region_of regions.now at) guard.now at most) }
{
    match region_at(regions, at) {
        None => Err(bad_at(guard, at)),
        Some(i) => {
            let region = &regions[i];
            region.fetch(at, most)
        }
    }
}

// Why an access at an address of no region is refused.
fn bad_at(guard: &Option<GuardRange>, at: u64) -> MemBad
    ensures { result ≡ no_region guard.now at }
{
    match guard {
        Some(range) if range.start <= at && at - range.start < range.length => MemBad::Guard(at),
        _ => MemBad::Unmapped(at),
    }
}
