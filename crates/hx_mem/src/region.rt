//! One region of a memory.

ghost use Rattle.std.specs.Prelude.{◌≡◌, ◌≤◌, ◌<◌, ◌+◌, ◌-◌, ◌^◌, length, take, drop, true, Ok, Err, MatchResult};
ghost use Rattle.hx_words.specs.LittleEndian.{bytes_of};
ghost use Rattle.hx_bits.specs.Widths.{bytes_in};
ghost use Rattle.hx_mem.specs.Space.{has, splice, read_in, put_in, end_of, loaded, stored_in, fetched_in};

use crate::fault::MemBad;
use hx_bits::{Width, read_number, write_number};
use std::marker::Model;

/// Bytes at a place, and whether they may be written and executed.
#[derive(Drop)]
pub struct Region {
    /// The address of the first byte.
    pub start: u64,
    pub bytes: Vec<u8>,
    pub write: bool,
    pub exec: bool,
}

impl Model for Region {
    ghost use Rattle.hx_mem.specs.Segments.{Segment};

    ghost Value = { Segment };

    ghost view = { λ r. record { start = r.start; bytes = r.bytes.items; write = r.write; exec = r.exec } };
}

impl Region {
    // Whether the region has the address.
    #[tactic(auto, unfolding(crate::specs::Space::has))]
    pub(crate) fn has(&self, at: u64) -> bool
        ensures { result ≡ has self.now at }
    {
        self.start <= at && at - self.start < self.bytes.len() as u64
    }

    // The first address past the region.
    fn end(&self) -> u64
        requires { end_of self.now ≤ 2 ^ 63 }
        ensures { result ≡ end_of self.now }
    {
        self.start + self.bytes.len() as u64
    }

    // The number at an address of the region.
    #[tactic(auto, unfolding(crate::specs::Space::read_in))]
    pub(crate) fn load(&self, at: u64, w: Width) -> Result<u64, MemBad>
        requires from { self.now.start ≤ at }
        requires before { at < end_of self.now }
        requires low { end_of self.now ≤ 2 ^ 63 }
        ensures { result ≡ loaded (read_in self.now at (bytes_in w)) (MemBad.Unmapped (end_of self.now)) }
    {
        let end = self.end();
        if w.bytes() as u64 > end - at {
            return Err(MemBad::Unmapped(end));
        }
        let from = (at - self.start) as usize;
        Ok(read_number(&self.bytes[from..], w))
    }

    // Writes a number at an address of the region.
    pub(crate) fn store(&mut self, at: u64, w: Width, v: u64) -> Result<(), MemBad>
        requires from { self.old.start ≤ at }
        requires before { at < end_of self.old }
        requires low { end_of self.old ≤ 2 ^ 63 }
        ensures answer { result ≡ stored_in self.old at (bytes_in w) }
        ensures after { self.new ≡ put_in self.old at (bytes_of (bytes_in w) v) }
    {
        let end = self.end();
        let length = w.bytes() as u64;
        if length > end - at {
            return Err(MemBad::Unmapped(end));
        }
        if !self.write {
            return Err(MemBad::Protected(at));
        }
        let from = (at - self.start) as usize;
        write_at(&mut self.bytes, from, w, v);
        Ok(())
    }

    // What a store at an address of the region would answer.
    pub(crate) fn check_store(&self, at: u64, w: Width) -> Result<(), MemBad>
        requires from { self.now.start ≤ at }
        requires before { at < end_of self.now }
        requires low { end_of self.now ≤ 2 ^ 63 }
        ensures { result ≡ stored_in self.now at (bytes_in w) }
    {
        let end = self.end();
        let room = end - at;
        if room < w.bytes() as u64 {
            return Err(MemBad::Unmapped(end));
        }
        if self.write {
            Ok(())
        } else {
            Err(MemBad::Protected(at))
        }
    }

    // Up to `most` bytes from an address of the region.
    pub(crate) fn fetch(&self, at: u64, most: usize) -> Result<&[u8], MemBad>
        requires from { self.now.start ≤ at }
        requires before { at < end_of self.now }
        ensures { MatchResult result (λ bytes. Ok bytes.now ≡ fetched_in self.now at most) (λ bad. Err bad ≡ fetched_in self.now at most) }
    {
        if !self.exec {
            return Err(MemBad::Protected(at));
        }
        let rest = &self.bytes[(at - self.start) as usize..];
        Ok(&rest[..most.min(rest.len())])
    }
}

// Writes the low bits of a number to the bytes from a place on.
fn write_at(bytes: &mut [u8], from: usize, w: Width, v: u64)
    requires { from + bytes_in w ≤ length bytes.old }
    ensures { bytes.new ≡ splice bytes.old from (bytes_of (bytes_in w) v) }
{
    write_number(&mut bytes[from..], w, v);
}
