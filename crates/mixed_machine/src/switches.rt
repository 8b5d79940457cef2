//! Where control goes after a row: on, to the other side by a switch, or nowhere.

ghost use Rattle.std.specs.Prelude.{◌≡◌, ◌<◌};
ghost use Rattle.reg_map.specs.Registers.{registers_of};
ghost use Rattle.hx_mem.specs.Space.{load_of};
ghost use Rattle.x64_exec.specs.Words.{minus};
ghost use Rattle.machine_rules.specs.Layout.{side_of as side_of_lem};
ghost use Rattle.machine_rules.specs.State.{place_at, is_other as is_other_lem, is_across as is_across_lem, is_ec as is_ec_lem};
ghost use Rattle.machine_rules.specs.Steps.{arrives, thunk_of as thunk_of_lem, to_thunk, with_distance, enters, jumps, returns};

use crate::code_map::CodeMap;
use crate::guest::{Guest, refused};
use hx_bits::{Width, sign_extend};
use machine_rules::ends::{GuestEnd, StuckWhy};
use machine_rules::places::{Place, Service, Side};

/// The side whose code a service is for.
fn side_of(service: Service) -> Side
    ensures { result ≡ side_of_lem service }
{
    match service {
        Service::PutByte(side) => side,
        Service::GetByte(side) => side,
        Service::ExitGuest(side) => side,
        Service::TrapGuest(side) => side,
        Service::CheckCall | Service::DispatchCall | Service::DispatchReturn => Side::Ec,
    }
}

/// Whether two sides differ.
fn is_other(side: Side, there: Side) -> bool
    ensures { result ≡ is_other_lem side there }
{
    match (side, there) {
        (Side::X64, Side::X64) => false,
        (Side::X64, Side::Ec) => true,
        (Side::Ec, Side::X64) => true,
        (Side::Ec, Side::Ec) => false,
    }
}

/// Whether a place belongs to the other side.
pub fn is_across(side: Side, place: Place) -> bool
    ensures { result ≡ is_across_lem side place }
{
    match place {
        Place::AtService(service) => is_other(side, side_of(service)),
        Place::InRange(there) => is_other(side, there),
        Place::Nowhere => false,
    }
}

/// Whether a place is EC code.
pub fn is_ec(place: Place) -> bool
    ensures { result ≡ is_ec_lem place }
{
    match place {
        Place::InRange(Side::Ec) => true,
        _ => false,
    }
}

/// The entry thunk of a function, by the word before it.
fn thunk_of(target: u64, distance: u64) -> u64
    ensures { result ≡ thunk_of_lem target distance }
{
    target
        .wrapping_add(sign_extend(distance, Width::W32))
        .wrapping_sub(1)
}

impl Guest {
    ghost use Rattle.mixed_machine.specs.States.{guest_of, way_of};

    /// Control comes to pc without a switch, from the instruction at `pc`.
    pub fn arrive(&mut self, code: &CodeMap, side: Side, pc: u64) -> Option<GuestEnd>
        ensures { way_of result (guest_of self.new) ≡ arrives side (place_at code.now self.old.cpu.pc) pc (registers_of self.old.cpu) self.old.mem }
    {
        let place = code.place_near(self.cpu.pc, &mut self.near);
        if is_across(side, place) {
            return self.bar(pc, GuestEnd::Stuck(StuckWhy::BadSwitch, pc));
        }
        None
    }

    /// Goes to the entry thunk of the EC function at pc, with the return address that was popped.
    fn enter_thunk(&mut self, code: &CodeMap, distance: u64, back: u64, pc: u64) -> Option<GuestEnd>
        ensures { way_of result (guest_of self.new) ≡ to_thunk code.now distance back pc (registers_of self.old.cpu) self.old.mem }
    {
        let function = self.cpu.pc;
        let thunk = thunk_of(function, distance);
        if distance % 4 != 1 || !is_ec(code.place_at(thunk)) {
            return self.bar(pc, GuestEnd::Stuck(StuckWhy::NoThunk, pc));
        }
        let sp = self.cpu.value(31).wrapping_add(8);
        self.cpu.set_value(30, back);
        self.cpu.set_value(31, sp);
        self.cpu.set_value(9, function);
        self.cpu.set_value(4, sp);
        self.cpu.pc = thunk;
        self.clear();
        None
    }

    /// Reads the word before the EC function at pc, and goes to its entry thunk.
    fn enter_after_pop(&mut self, code: &CodeMap, back: u64, pc: u64) -> Option<GuestEnd>
        ensures { way_of result (guest_of self.new) ≡ with_distance (load_of self.old.mem (minus self.old.cpu.pc 4) 4) code.now back pc (registers_of self.old.cpu) self.old.mem }
    {
        match self.mem.load(self.cpu.pc.wrapping_sub(4), Width::W32) {
            Err(bad) => self.bar(pc, refused(bad, pc)),
            Ok(distance) => self.enter_thunk(code, distance, back, pc),
        }
    }

    /// Enters the EC function at pc from x64 code, by its entry thunk.
    fn enter(&mut self, code: &CodeMap, pc: u64) -> Option<GuestEnd>
        ensures { way_of result (guest_of self.new) ≡ enters code.now pc (registers_of self.old.cpu) self.old.mem }
    {
        let sp = self.cpu.value(31);
        if sp.wrapping_add(8) % 16 != 0 {
            return self.bar(pc, GuestEnd::Stuck(StuckWhy::Misaligned, pc));
        }
        match self.mem.load(sp, Width::W64) {
            Err(bad) => self.bar(pc, refused(bad, pc)),
            Ok(back) => self.enter_after_pop(code, back, pc),
        }
    }

    /// An x64 call or jump has come to pc.
    pub fn jump(&mut self, code: &CodeMap, pc: u64) -> Option<GuestEnd>
        ensures { way_of result (guest_of self.new) ≡ jumps code.now pc (registers_of self.old.cpu) self.old.mem }
    {
        if is_ec(code.place_at(self.cpu.pc)) {
            return self.enter(code, pc);
        }
        self.arrive(code, Side::X64, pc)
    }

    /// An x64 return has come to pc.
    pub fn return_to(&mut self, code: &CodeMap, pc: u64) -> Option<GuestEnd>
        ensures { way_of result (guest_of self.new) ≡ returns code.now pc (registers_of self.old.cpu) self.old.mem }
    {
        if is_ec(code.place_at(self.cpu.pc)) {
            self.clear();
            return None;
        }
        self.arrive(code, Side::X64, pc)
    }
}
