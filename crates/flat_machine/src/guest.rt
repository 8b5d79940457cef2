//! The state of the guest, and one step of it.

ghost use Rattle.std.specs.Prelude.{◌≡◌, ◌≢◌, ◌≤◌, ◌<◌, ◌^◌, ◌%◌, IsTrue, IfOk, IfSome, Some, None, length};
ghost use Rattle.hx_words.specs.Counts.{Rose};
ghost use Rattle.flat_machine.specs.Layout.{zeros, start_registers as start_registers_lem, start_memory as start_memory_lem};
ghost use Rattle.std.specs.Result.{result_ok};
ghost use Rattle.x64_isa.specs.Spelling.{Valid};
ghost use Rattle.x64_isa.specs.Reading.{decode_of};
ghost use Rattle.reg_map.specs.Registers.{registers_of, x64_value};
ghost use Rattle.flat_machine.specs.Steps.{refusal, fault_end};
ghost use Rattle.flat_machine.specs.Runs.{start_of};
ghost use Rattle.flat_machine.specs.Answers.{Moves, StepPuts};

use crate::ends::{RunEnd, StuckWhy};
use crate::service::{Service, service_at};
use hx_bits::Width;
use hx_io::Sink;
use hx_mem::{MemBad, Memory, Region};
use reg_map::registers::{AFlags, Cpu, X64Reg, XFlags};
use std::alloc::{AllocError, Global};
use x64_exec::event::{XEvent, XFault};
use x64_exec::step::step;
use x64_isa::decoder::decode;
use x64_isa::instruction::XInstr;

/// The address of the image's first byte.
pub const IMAGE_BASE: u64 = 0x1_4000_0000;
/// The first address past the stack.
pub const STACK_TOP: u64 = 0x7FFE_0000_0000;
/// The bytes of the stack.
pub const STACK_SIZE: u64 = 1_048_576;
/// The bytes of the guard below the stack.
pub const GUARD_SIZE: u64 = 16_777_216;
/// The most bytes of an instruction (Intel SDM, Vol. 2, 2.3.11).
const MOST_BYTES: usize = 15;

/// A guest: its registers, its memory, and how many bytes its image has.
#[derive(Drop)]
pub struct Guest {
    pub cpu: Cpu,
    pub mem: Memory,
    pub size: u64,
}

/// How a refused access ends a run.
fn refused(bad: MemBad, pc: u64) -> RunEnd
    ensures { result ≡ refusal bad pc }
{
    match bad {
        MemBad::Guard(_) => RunEnd::StackSpent,
        MemBad::Unmapped(_) => RunEnd::Stuck(StuckWhy::Unmapped, pc),
        MemBad::Protected(_) => RunEnd::Stuck(StuckWhy::Protected, pc),
    }
}

/// How a fault ends a run.
fn faulted(fault: XFault, pc: u64) -> RunEnd
    ensures { result ≡ fault_end fault pc }
{
    match fault {
        XFault::Memory(bad) => refused(bad, pc),
        XFault::Divide => RunEnd::Stuck(StuckWhy::Divide, pc),
        XFault::Halt => RunEnd::Stuck(StuckWhy::Halt, pc),
    }
}

impl Guest {
    ghost use Rattle.flat_machine.specs.Steps.{step_of, serve, instruct, found_at};
    ghost use Rattle.flat_machine.specs.States.{guest_of};

    /// The state at the start of a run of the image.
    pub fn new(alloc: Global, image: &[u8]) -> Result<Guest, AllocError>
        requires { length image.now < 2 ^ 32 }
        ensures state { IfOk result (λ g. guest_of g ≡ start_of image.now) }
        ensures size { IfOk result (λ g. g.size ≡ length image.now) }
    {
        Ok(Guest {
            cpu: start_registers(),
            mem: start_memory(alloc, image)?,
            size: image.len() as u64,
        })
    }

    /// One step: None where the run goes on.
    #[tactic(auto, unfolding(crate::specs::Steps::step_of))]
    pub fn step<O: Sink>(&mut self, out: &mut O) -> Option<RunEnd>
        ensures moves { Moves result (step_of self.old.size (guest_of self.old)).after (guest_of self.new) }
        ensures puts { IsTrue (O.tells out.old) → StepPuts result (O.bytes out.old) (step_of self.old.size (guest_of self.old)).put (O.bytes out.new) }
        ensures size { self.new.size ≡ self.old.size }
        ensures told { O.tells out.new ≡ O.tells out.old }
        ensures counted { O.faults out.old ≤ O.faults out.new }
        ensures failed { result ≡ Some RunEnd.WriteFault → Rose (O.faults out.old) (O.faults out.new) }
    {
        match service_at(self.cpu.pc) {
            Some(service) => self.serve(service, out),
            None => self.instruct(),
        }
    }

    fn serve<O: Sink>(&mut self, service: Service, out: &mut O) -> Option<RunEnd>
        ensures moves { Moves result (serve service (guest_of self.old)).after (guest_of self.new) }
        ensures puts { IsTrue (O.tells out.old) → StepPuts result (O.bytes out.old) (serve service (guest_of self.old)).put (O.bytes out.new) }
        ensures size { self.new.size ≡ self.old.size }
        ensures told { O.tells out.new ≡ O.tells out.old }
        ensures counted { O.faults out.old ≤ O.faults out.new }
        ensures failed { result ≡ Some RunEnd.WriteFault → Rose (O.faults out.old) (O.faults out.new) }
    {
        match service {
            Service::PutByte => self.put_byte(out),
            Service::GetByte => self.get_byte(),
            Service::ExitGuest => Some(RunEnd::Exit(self.argument())),
            Service::TrapGuest => Some(RunEnd::Trap(self.argument())),
        }
    }

    /// The low 8 bits of rcx, in which a service is given its argument.
    fn argument(&self) -> u8
        ensures { result ≡ x64_value (guest_of self.now).cpu X64Reg.Rcx % 256 }
    {
        (self.cpu.get64(X64Reg::Rcx) % 256) as u8
    }

    /// Puts a byte and returns, or does neither where the return would end the run or the sink fails.
    fn put_byte<O: Sink>(&mut self, out: &mut O) -> Option<RunEnd>
        ensures moves { Moves result (serve Service.PutByte (guest_of self.old)).after (guest_of self.new) }
        ensures puts { IsTrue (O.tells out.old) → StepPuts result (O.bytes out.old) (serve Service.PutByte (guest_of self.old)).put (O.bytes out.new) }
        ensures size { self.new.size ≡ self.old.size }
        ensures told { O.tells out.new ≡ O.tells out.old }
        ensures counted { O.faults out.old ≤ O.faults out.new }
        ensures failed { result ≡ Some RunEnd.WriteFault → Rose (O.faults out.old) (O.faults out.new) }
    {
        let sp = self.cpu.get64(X64Reg::Rsp);
        match self.mem.load(sp, Width::W64) {
            Err(bad) => Some(refused(bad, self.cpu.pc)),
            Ok(target) => {
                if out.put(&[self.argument()]).is_err() {
                    return Some(RunEnd::WriteFault);
                }
                self.cpu.set64(X64Reg::Rsp, sp.wrapping_add(8));
                self.cpu.pc = target;
                None
            }
        }
    }

    /// Gives the end of the input, and returns.
    fn get_byte(&mut self) -> Option<RunEnd>
        ensures moves { Moves result (serve Service.GetByte (guest_of self.old)).after (guest_of self.new) }
        ensures ends { result ≢ Some RunEnd.WriteFault }
        ensures size { self.new.size ≡ self.old.size }
    {
        let sp = self.cpu.get64(X64Reg::Rsp);
        match self.mem.load(sp, Width::W64) {
            Err(bad) => Some(refused(bad, self.cpu.pc)),
            Ok(target) => {
                self.cpu.set64(X64Reg::Rax, u64::MAX);
                self.cpu.set64(X64Reg::Rsp, sp.wrapping_add(8));
                self.cpu.pc = target;
                None
            }
        }
    }

    /// Does the instruction at pc.
    fn instruct(&mut self) -> Option<RunEnd>
        ensures moves { Moves result (instruct self.old.size (guest_of self.old)) (guest_of self.new) }
        ensures ends { result ≢ Some RunEnd.WriteFault }
        ensures size { self.new.size ≡ self.old.size }
    {
        let pc = self.cpu.pc;
        if pc < IMAGE_BASE || pc - IMAGE_BASE >= self.size {
            return Some(RunEnd::Stuck(StuckWhy::NoRange, pc));
        }
        let (i, n) = match self.instruction() {
            None => return Some(RunEnd::Stuck(StuckWhy::BadInstruction, pc)),
            Some(found) => found,
        };
        match step(&mut self.cpu, &mut self.mem, &i, n as u64) {
            XEvent::Fault(fault) => Some(faulted(fault, pc)),
            _ => None,
        }
    }

    /// The instruction at pc and how many bytes it has, if one stands there.
    fn instruction(&self) -> Option<(XInstr, usize)>
        ensures found { result ≡ found_at (guest_of self.now) }
        ensures valid { IfSome result (λ x. Valid x.0) }
    {
        match self.mem.fetch(self.cpu.pc, MOST_BYTES) {
            Err(_) => None,
            Ok(bytes) => instruction_in(bytes),
        }
    }
}

/// The registers at the start: sp is the stack's top, pc the image's first byte, and all else is zero.
fn start_registers() -> Cpu
    ensures { registers_of result ≡ start_registers_lem }
{
    Cpu {
        x: [0; 31],
        sp: STACK_TOP,
        pc: IMAGE_BASE,
        xf: XFlags {
            cf: false,
            zf: false,
            sf: false,
            of: false,
        },
        af: AFlags {
            n: false,
            z: false,
            c: false,
            v: false,
        },
    }
}

/// The instruction that bytes begin with and how many bytes it has, if there is one.
fn instruction_in(bytes: &[u8]) -> Option<(XInstr, usize)>
    ensures found { result ≡ result_ok (decode_of bytes.now) }
    ensures valid { IfSome result (λ x. Valid x.0) }
{
    match decode(bytes) {
        Ok(found) => Some(found),
        Err(_) => None,
    }
}

/// So many bytes of value 0.
#[tactic(auto, unfolding(crate::specs::Layout::zeros))]
fn zero_bytes(alloc: Global, n: usize) -> Result<Vec<u8>, AllocError>
    ensures items { IfOk result (λ v. v.items ≡ zeros n) }
{
    vec![in alloc; 0; n]
}

/// The memory at the start: the image, read and executed, the stack, read and written, and the guard.
fn start_memory(alloc: Global, image: &[u8]) -> Result<Memory, AllocError>
    requires { length image.now < 2 ^ 32 }
    ensures { IfOk result (λ m. m ≡ start_memory_lem image.now) }
{
    let mut mem = Memory::new(alloc);
    mem.add(Region {
        start: IMAGE_BASE,
        bytes: Vec::from_slice(alloc, image)?,
        write: false,
        exec: true,
    })?;
    mem.add(Region {
        start: STACK_TOP - STACK_SIZE,
        bytes: zero_bytes(alloc, STACK_SIZE as usize)?,
        write: true,
        exec: false,
    })?;
    mem.guard(STACK_TOP - STACK_SIZE - GUARD_SIZE, GUARD_SIZE);
    Ok(mem)
}
