//! The services of the outside.

ghost use Rattle.std.specs.Prelude.{◌≡◌, ◌≢◌, ◌≤◌, ◌%◌, ℕ, List, IsTrue, IsOk, Err};
ghost use Rattle.hx_mem.specs.Space.{store_of};
ghost use Rattle.x64_exec.specs.Words.{minus};
ghost use Rattle.reg_map.specs.Registers.{registers_of};
ghost use Rattle.hx_words.specs.Counts.{Rose};
ghost use Rattle.machine_rules.specs.State.{silent, is_x64 as is_x64_lem, is_code as is_code_lem};
ghost use Rattle.machine_rules.specs.Steps.{argument, result_register as result_register_lem, back as back_lem, puts, gets, checks, dispatched, returned, serve as serve_lem};
ghost use Rattle.mixed_machine.specs.Answers.{Moves, StepPuts, AwaitsInputAt, AwaitsOutputAt};

use crate::code_map::CodeMap;
use crate::guest::{Guest, clear_flags, refused};
use crate::switches::{is_across, is_ec};
use hx_bits::Width;
use hx_io::{Sink, Source};
use machine_rules::ends::{GuestEnd, StuckWhy};
use machine_rules::places::{Place, Service, Side};
use reg_map::registers::Cpu;

/// What of the outside failed at a service.
#[derive(Clone, Copy, Debug, PartialEq, Eq)]
pub enum Fault {
    /// The source.
    OfSource,
    /// The sink.
    OfSink,
}

/// Whether a place is x64 code.
fn is_x64(place: Place) -> bool
    ensures { result ≡ is_x64_lem place }
{
    match place {
        Place::InRange(Side::X64) => true,
        _ => false,
    }
}

/// Whether a place is code.
fn is_code(place: Place) -> bool
    ensures { result ≡ is_code_lem place }
{
    match place {
        Place::InRange(_) => true,
        _ => false,
    }
}

/// The number of the register in which `get_byte` gives its result: rax, or x0 for EC code.
fn result_register(side: Side) -> u8
    ensures { result ≡ result_register_lem side }
{
    match side {
        Side::X64 => 8,
        Side::Ec => 0,
    }
}

impl Guest {
    ghost use Rattle.mixed_machine.specs.States.{guest_of, way_of, registers_or};

    /// The low 8 bits of rcx, which is x0.
    fn argument(&self) -> u8
        ensures { result ≡ argument (guest_of self.now) }
    {
        (self.cpu.value(0) % 256) as u8
    }

    /// The registers after a return as x64 code makes it, or the end that it would bring.
    fn x64_back(&self, code: &CodeMap) -> Result<Cpu, GuestEnd>
        ensures { registers_or result ≡ back_lem Side.X64 code.now (guest_of self.now) }
    {
        let pc = self.cpu.pc;
        let sp = self.cpu.value(31);
        match self.mem.load(sp, Width::W64) {
            Err(bad) => Err(refused(bad, pc)),
            Ok(to) => {
                let place = code.place_at(to);
                let mut cpu = self.cpu;
                cpu.set_value(31, sp.wrapping_add(8));
                cpu.pc = to;
                if is_ec(place) {
                    clear_flags(&mut cpu);
                    return Ok(cpu);
                }
                if is_across(Side::X64, place) {
                    return Err(GuestEnd::Stuck(StuckWhy::BadSwitch, pc));
                }
                Ok(cpu)
            }
        }
    }

    /// The same of a return as EC code makes it.
    fn ec_back(&self, code: &CodeMap) -> Result<Cpu, GuestEnd>
        ensures { registers_or result ≡ back_lem Side.Ec code.now (guest_of self.now) }
    {
        let to = self.cpu.value(30);
        if is_across(Side::Ec, code.place_at(to)) {
            return Err(GuestEnd::Stuck(StuckWhy::BadSwitch, self.cpu.pc));
        }
        let mut cpu = self.cpu;
        cpu.pc = to;
        Ok(cpu)
    }

    /// The same for the side of a service.
    fn back(&self, code: &CodeMap, side: Side) -> Result<Cpu, GuestEnd>
        ensures { registers_or result ≡ back_lem side code.now (guest_of self.now) }
    {
        match side {
            Side::X64 => self.x64_back(code),
            Side::Ec => self.ec_back(code),
        }
    }

    /// Puts a byte and returns, or does neither.
    fn put_byte<O: Sink>(
        &mut self,
        code: &CodeMap,
        side: Side,
        out: &mut O,
    ) -> Result<Option<GuestEnd>, Fault>
        ensures moves { (left : List ℕ) → Moves result (puts (back_lem side code.now (guest_of self.old)) (guest_of self.old) left) (guest_of self.old) left (guest_of self.new) left }
        ensures puts { IsTrue (O.tells out.old) → (left : List ℕ) → StepPuts result (O.bytes out.old) (puts (back_lem side code.now (guest_of self.old)) (guest_of self.old) left).put (O.bytes out.new) }
        ensures told { O.tells out.new ≡ O.tells out.old }
        ensures counted { O.faults out.old ≤ O.faults out.new }
        ensures source { result ≢ Err Fault.OfSource }
        ensures failed { result ≡ Err Fault.OfSink → Rose (O.faults out.old) (O.faults out.new) }
        ensures kept { result ≡ Err Fault.OfSink → self.new ≡ self.old }
        ensures asked { result ≡ Err Fault.OfSink → IsOk (back_lem side code.now (guest_of self.old)) }
    {
        match self.back(code, side) {
            Err(end) => Ok(Some(end)),
            Ok(cpu) => {
                if out.put(&[self.argument()]).is_err() {
                    return Err(Fault::OfSink);
                }
                self.cpu = cpu;
                Ok(None)
            }
        }
    }

    /// Gives a byte of the input and returns, or does neither.
    fn get_byte<I: Source>(
        &mut self,
        code: &CodeMap,
        side: Side,
        input: &mut I,
    ) -> Result<Option<GuestEnd>, Fault>
        ensures moves { IsTrue (I.tells input.old) → Moves result (silent (gets (back_lem side code.now (guest_of self.old)) side (guest_of self.old) (I.left input.old))) (guest_of self.old) (I.left input.old) (guest_of self.new) (I.left input.new) }
        ensures told { I.tells input.new ≡ I.tells input.old }
        ensures counted { I.faults input.old ≤ I.faults input.new }
        ensures sink { result ≢ Err Fault.OfSink }
        ensures failed { result ≡ Err Fault.OfSource → Rose (I.faults input.old) (I.faults input.new) }
        ensures kept { result ≡ Err Fault.OfSource → self.new ≡ self.old }
        ensures asked { result ≡ Err Fault.OfSource → IsOk (back_lem side code.now (guest_of self.old)) }
    {
        match self.back(code, side) {
            Err(end) => Ok(Some(end)),
            Ok(mut cpu) => {
                let value = match input.next() {
                    Err(_) => return Err(Fault::OfSource),
                    Ok(None) => u64::MAX,
                    Ok(Some(byte)) => byte as u64,
                };
                cpu.set_value(result_register(side), value);
                self.cpu = cpu;
                Ok(None)
            }
        }
    }

    /// Tells how a call to x11 is made, and returns.
    fn check_call(&mut self, code: &CodeMap) -> Option<GuestEnd>
        ensures { way_of result (guest_of self.new) ≡ checks (back_lem Side.Ec code.now (guest_of self.old)) code.now (guest_of self.old) }
    {
        let mut cpu = match self.ec_back(code) {
            Err(end) => return Some(end),
            Ok(cpu) => cpu,
        };
        let target = cpu.value(11);
        let place = code.place_at(target);
        if !is_ec(place) {
            match code.redirected(target) {
                Some(to) => cpu.set_value(11, to),
                None if is_x64(place) => {
                    let thunk = cpu.value(10);
                    cpu.set_value(9, target);
                    cpu.set_value(11, thunk);
                }
                None => return Some(GuestEnd::Stuck(StuckWhy::BadTarget, self.cpu.pc)),
            }
        }
        self.cpu = cpu;
        None
    }

    /// Pushes lr and goes to the x64 code at x9.
    fn dispatch_call(&mut self, code: &CodeMap) -> Option<GuestEnd>
        ensures { way_of result (guest_of self.new) ≡ dispatched (store_of self.old.mem (minus ((registers_of self.old.cpu).value 31) 8) 8) code.now (guest_of self.old) }
    {
        let sp = self.cpu.value(31).wrapping_sub(8);
        if let Err(bad) = self.mem.check_store(sp, Width::W64) {
            return Some(refused(bad, self.cpu.pc));
        }
        let target = self.cpu.value(9);
        if !is_x64(code.place_at(target)) {
            return Some(GuestEnd::Stuck(StuckWhy::BadTarget, self.cpu.pc));
        }
        let _ = self.mem.store(sp, Width::W64, self.cpu.value(30));
        self.cpu.set_value(31, sp);
        self.cpu.pc = target;
        self.clear();
        None
    }

    /// Goes to the code at lr.
    fn dispatch_return(&mut self, code: &CodeMap) -> Option<GuestEnd>
        ensures { way_of result (guest_of self.new) ≡ returned code.now (guest_of self.old) }
    {
        let target = self.cpu.value(30);
        if !is_code(code.place_at(target)) {
            return Some(GuestEnd::Stuck(StuckWhy::BadTarget, self.cpu.pc));
        }
        self.cpu.pc = target;
        self.clear();
        None
    }

    /// Does a service.
    #[tactic(auto, unfolding(machine_rules::specs::Steps::serve))]
    pub fn serve<I: Source, O: Sink>(
        &mut self,
        code: &CodeMap,
        service: Service,
        input: &mut I,
        out: &mut O,
    ) -> Result<Option<GuestEnd>, Fault>
        ensures moves { IsTrue (I.tells input.old) → Moves result (serve_lem service code.now (guest_of self.old) (I.left input.old)) (guest_of self.old) (I.left input.old) (guest_of self.new) (I.left input.new) }
        ensures puts { IsTrue (O.tells out.old) → IsTrue (I.tells input.old) → StepPuts result (O.bytes out.old) (serve_lem service code.now (guest_of self.old) (I.left input.old)).put (O.bytes out.new) }
        ensures input_told { I.tells input.new ≡ I.tells input.old }
        ensures out_told { O.tells out.new ≡ O.tells out.old }
        ensures input_counted { I.faults input.old ≤ I.faults input.new }
        ensures out_counted { O.faults out.old ≤ O.faults out.new }
        ensures input_failed { result ≡ Err Fault.OfSource → Rose (I.faults input.old) (I.faults input.new) }
        ensures out_failed { result ≡ Err Fault.OfSink → Rose (O.faults out.old) (O.faults out.new) }
        ensures kept { (fault : Fault) → result ≡ Err fault → self.new ≡ self.old }
        ensures input_asked { result ≡ Err Fault.OfSource → AwaitsInputAt service code.now (guest_of self.old) }
        ensures out_asked { result ≡ Err Fault.OfSink → AwaitsOutputAt service code.now (guest_of self.old) }
    {
        match service {
            Service::PutByte(side) => self.put_byte(code, side, out),
            Service::GetByte(side) => self.get_byte(code, side, input),
            Service::ExitGuest(_) => Ok(Some(GuestEnd::Exit(self.argument()))),
            Service::TrapGuest(_) => Ok(Some(GuestEnd::Trap(self.argument()))),
            Service::CheckCall => Ok(self.check_call(code)),
            Service::DispatchCall => Ok(self.dispatch_call(code)),
            Service::DispatchReturn => Ok(self.dispatch_return(code)),
        }
    }
}
