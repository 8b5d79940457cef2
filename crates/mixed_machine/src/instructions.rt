//! Instructions of both sides.

ghost use Rattle.std.specs.Prelude.{◌≡◌, ◌<◌, ◌%◌, IfSome, Ok};
ghost use Rattle.std.specs.Result.{result_ok};
ghost use Rattle.x64_isa.specs.Spelling.{Valid as ValidX64};
ghost use Rattle.x64_isa.specs.Reading.{decode_of as decode_x64_lem};
ghost use Rattle.a64_isa.specs.Forms.{Valid as ValidA64};
ghost use Rattle.machine_rules.specs.Steps.{x64_end as x64_end_lem, ec_end as ec_end_lem, x64_at, x64_done, ec_at, ec_read, ec_done, instruct as instruct_lem};

use crate::code_map::CodeMap;
use crate::guest::{Guest, refused};
use a64_exec::event::{AEvent, AFault};
use a64_isa::instruction::AInstr;
use hx_bits::{Width, read_number};
use machine_rules::ends::{GuestEnd, StuckWhy};
use machine_rules::places::Side;
use x64_exec::event::{XEvent, XFault};
use x64_isa::instruction::XInstr;

/// The most bytes of an x64 instruction (Intel SDM, Vol. 2, 2.3.11).
const MOST_BYTES: usize = 15;
/// The bytes of an A64 instruction.
const WORD_BYTES: usize = 4;

/// How a fault of an x64 instruction ends a run.
fn x64_end(fault: XFault, pc: u64) -> GuestEnd
    ensures { result ≡ x64_end_lem fault pc }
{
    match fault {
        XFault::Memory(bad) => refused(bad, pc),
        XFault::Divide => GuestEnd::Stuck(StuckWhy::Divide, pc),
        XFault::Halt => GuestEnd::Stuck(StuckWhy::Halt, pc),
    }
}

/// How a fault of an A64 instruction ends a run.
fn ec_end(fault: AFault, pc: u64) -> GuestEnd
    ensures { result ≡ ec_end_lem fault pc }
{
    match fault {
        AFault::Memory(bad) => refused(bad, pc),
        AFault::Blocked => GuestEnd::Stuck(StuckWhy::Blocked, pc),
        AFault::Misaligned => GuestEnd::Stuck(StuckWhy::Misaligned, pc),
        AFault::Halt => GuestEnd::Stuck(StuckWhy::Halt, pc),
    }
}

/// The x64 instruction that bytes begin with and how many bytes it has, if there is one.
fn x64_in(bytes: &[u8]) -> Option<(XInstr, usize)>
    ensures found { result ≡ result_ok (decode_x64_lem bytes.now) }
    ensures valid { IfSome result (λ x. ValidX64 x.0) }
{
    match x64_isa::decoder::decode(bytes) {
        Ok(found) => Some(found),
        Err(_) => None,
    }
}

/// The A64 instruction that bytes are, if they are one.
fn ec_in(bytes: &[u8]) -> Option<AInstr>
    ensures found { result ≡ ec_read (Ok bytes.now) }
    ensures valid { IfSome result ValidA64 }
{
    if bytes.len() != WORD_BYTES {
        return None;
    }
    a64_isa::decode(read_number(bytes, Width::W32) as u32)
}

impl Guest {
    ghost use Rattle.mixed_machine.specs.States.{guest_of, way_of};

    /// The x64 instruction at pc and how many bytes it has, if one stands there.
    fn x64_instruction(&self) -> Option<(XInstr, usize)>
        ensures found { result ≡ x64_at (guest_of self.now) }
        ensures valid { IfSome result (λ x. ValidX64 x.0) }
    {
        match self.mem.fetch(self.cpu.pc, MOST_BYTES) {
            Err(_) => None,
            Ok(bytes) => x64_in(bytes),
        }
    }

    /// The A64 instruction at pc, if one stands there.
    fn ec_instruction(&self) -> Option<AInstr>
        ensures found { result ≡ ec_at (guest_of self.now) }
        ensures valid { IfSome result ValidA64 }
    {
        match self.mem.fetch(self.cpu.pc, WORD_BYTES) {
            Err(_) => None,
            Ok(bytes) => ec_in(bytes),
        }
    }

    /// Does the x64 instruction at pc.
    fn do_x64(&mut self, code: &CodeMap) -> Option<GuestEnd>
        ensures { way_of result (guest_of self.new) ≡ x64_done (x64_at (guest_of self.old)) code.now (guest_of self.old) }
    {
        let pc = self.cpu.pc;
        let (i, n) = match self.x64_instruction() {
            None => return Some(GuestEnd::Stuck(StuckWhy::BadInstruction, pc)),
            Some(found) => found,
        };
        match x64_exec::step::step(&mut self.cpu, &mut self.mem, &i, n as u64) {
            XEvent::Next | XEvent::Branch(_) => self.arrive(code, Side::X64, pc),
            XEvent::Goto(_) | XEvent::CallTo(_) => self.jump(code, pc),
            XEvent::RetTo(_) => self.return_to(code, pc),
            XEvent::Fault(fault) => Some(x64_end(fault, pc)),
        }
    }

    /// Does the A64 instruction at pc.
    fn do_ec(&mut self, code: &CodeMap) -> Option<GuestEnd>
        ensures { way_of result (guest_of self.new) ≡ ec_done (ec_at (guest_of self.old)) code.now (guest_of self.old) }
    {
        let pc = self.cpu.pc;
        let i = match self.ec_instruction() {
            None => return Some(GuestEnd::Stuck(StuckWhy::BadInstruction, pc)),
            Some(found) => found,
        };
        match a64_exec::step(&mut self.cpu, &mut self.mem, &i) {
            AEvent::Fault(fault) => Some(ec_end(fault, pc)),
            _ => self.arrive(code, Side::Ec, pc),
        }
    }

    /// Does the instruction at pc, which is one of the side.
    #[tactic(auto, unfolding(machine_rules::specs::Steps::instruct))]
    pub fn instruct(&mut self, code: &CodeMap, side: Side) -> Option<GuestEnd>
        ensures { way_of result (guest_of self.new) ≡ instruct_lem side code.now (guest_of self.old) }
    {
        match side {
            Side::X64 => self.do_x64(code),
            Side::Ec => {
                if self.cpu.pc % 4 != 0 {
                    return Some(GuestEnd::Stuck(StuckWhy::Misaligned, self.cpu.pc));
                }
                self.do_ec(code)
            }
        }
    }
}
