//! The machine: its start, its steps and its runs.

ghost use Rattle.std.specs.Prelude.{◌≡◌, ◌≤◌, ◌^◌, IsTrue, IfOk, None, Err};
ghost use Rattle.hx_words.specs.Counts.{Rose};
ghost use Rattle.reg_map.specs.Registers.{registers_of};
ghost use Rattle.pe_loader.specs.Loading.{IsWhole};
ghost use Rattle.machine_rules.specs.Loads.{zeros, start_registers as start_registers_lem, with_stack as with_stack_lem};
ghost use Rattle.machine_rules.specs.State.{place_at};
ghost use Rattle.machine_rules.specs.Steps.{step_of};
ghost use Rattle.machine_rules.specs.Runs.{act_of};
ghost use Rattle.mixed_machine.specs.Answers.{Moves, StepPuts, Tells, TellsStep, StepsTo, StepLeaves, Runs, RunPuts, AwaitsInput, AwaitsOutput, run_end_of};
ghost use Rattle.hx_mem.specs.Refusals.{EndBy};
ghost use Rattle.pe_loader.specs.Loading.{IsStack};

use crate::code_map::CodeMap;
use crate::guest::{Guest, NO_A64_FLAGS, NO_X64_FLAGS};
use crate::services::Fault;
use hx_io::{Sink, Source};
use hx_mem::{Memory, Region};
use machine_rules::ends::{GuestEnd, RunEnd, StuckWhy};
use machine_rules::places::Place;
use pe_loader::Loaded;
use reg_map::registers::Cpu;
use std::alloc::{AllocError, Global};

/// The first address past the stack.
const STACK_TOP: u64 = 0x7FFE_0000_0000;
/// The bytes of the guard below the stack.
const GUARD_SIZE: u64 = 16_777_216;

/// What a step answers.
#[derive(Clone, Copy, Debug, PartialEq, Eq)]
pub enum StepEnd {
    /// The machine goes on.
    Going,
    /// It ended, or the outside failed.
    Ended(RunEnd),
}

/// A machine: its guest, the map of its code, and how it ended if it did.
#[derive(Drop)]
pub struct Machine {
    guest: Guest,
    code: CodeMap,
    end: Option<GuestEnd>,
}

/// The end of a run that the guest brought.
fn run_end(end: GuestEnd) -> RunEnd
    ensures { result ≡ run_end_of end }
{
    match end {
        GuestEnd::Exit(k) => RunEnd::Exit(k),
        GuestEnd::Trap(k) => RunEnd::Trap(k),
        GuestEnd::StackSpent => RunEnd::StackSpent,
        GuestEnd::Stuck(why, pc) => RunEnd::Stuck(why, pc),
    }
}

/// The registers at the start: sp is the stack's top, pc the entry point, and all else is zero.
fn start_registers(entry: u64) -> Cpu
    ensures { registers_of result ≡ start_registers_lem entry }
{
    Cpu {
        x: [0; 31],
        sp: STACK_TOP,
        pc: entry,
        xf: NO_X64_FLAGS,
        af: NO_A64_FLAGS,
    }
}

/// So many bytes of value 0.
#[tactic(auto, unfolding(machine_rules::specs::Loads::zeros))]
fn zero_bytes(alloc: Global, n: usize) -> Result<Vec<u8>, AllocError>
    ensures items { IfOk result (λ v. v.items ≡ zeros n) }
{
    vec![in alloc; 0; n]
}

/// The memory at the start: what was loaded, the stack above it, read and written, and the guard.
fn add_stack(alloc: Global, mut mem: Memory, stack: u64) -> Result<Memory, AllocError>
    requires low { EndBy mem.regions (2 ^ 46) }
    requires guard { mem.guard ≡ None }
    requires stack { IsStack stack }
    ensures { IfOk result (λ m. m ≡ with_stack_lem mem stack) }
{
    mem.add(Region {
        start: STACK_TOP - stack,
        bytes: zero_bytes(alloc, stack as usize)?,
        write: true,
        exec: false,
    })?;
    mem.guard(STACK_TOP - stack - GUARD_SIZE, GUARD_SIZE);
    Ok(mem)
}

impl Guest {
    ghost use Rattle.mixed_machine.specs.States.{guest_of};

    /// One step of the guest: how it ended, if it did.
    #[tactic(auto, unfolding(machine_rules::specs::Steps::step_of))]
    fn act<I: Source, O: Sink>(
        &mut self,
        code: &CodeMap,
        input: &mut I,
        out: &mut O,
    ) -> Result<Option<GuestEnd>, Fault>
        ensures moves { IsTrue (I.tells input.old) → Moves result (step_of code.now (record { guest = guest_of self.old; input = I.left input.old })) (guest_of self.old) (I.left input.old) (guest_of self.new) (I.left input.new) }
        ensures puts { IsTrue (O.tells out.old) → IsTrue (I.tells input.old) → StepPuts result (O.bytes out.old) (step_of code.now (record { guest = guest_of self.old; input = I.left input.old })).put (O.bytes out.new) }
        ensures input_told { I.tells input.new ≡ I.tells input.old }
        ensures out_told { O.tells out.new ≡ O.tells out.old }
        ensures input_counted { I.faults input.old ≤ I.faults input.new }
        ensures out_counted { O.faults out.old ≤ O.faults out.new }
        ensures input_failed { result ≡ Err Fault.OfSource → Rose (I.faults input.old) (I.faults input.new) }
        ensures out_failed { result ≡ Err Fault.OfSink → Rose (O.faults out.old) (O.faults out.new) }
        ensures kept { (fault : Fault) → result ≡ Err fault → self.new ≡ self.old }
        ensures input_asked { result ≡ Err Fault.OfSource → AwaitsInput (place_at code.now self.old.cpu.pc) code.now (guest_of self.old) }
        ensures out_asked { result ≡ Err Fault.OfSink → AwaitsOutput (place_at code.now self.old.cpu.pc) code.now (guest_of self.old) }
    {
        let mut near = self.near;
        match code.place_near(self.cpu.pc, &mut near) {
            Place::AtService(service) => self.serve(code, service, input, out),
            Place::InRange(side) => {
                self.near = near;
                Ok(self.instruct(code, side))
            }
            Place::Nowhere => Ok(Some(GuestEnd::Stuck(StuckWhy::NoRange, self.cpu.pc))),
        }
    }
}

impl Machine {
    ghost use Rattle.mixed_machine.specs.States.{guest_of, after_of, IsStartOf};

    /// A machine at the start of what was loaded, with its stack and its guard.
    pub fn new(alloc: Global, l: Loaded) -> Result<Machine, AllocError>
        requires { IsWhole l }
        ensures { IfOk result (IsStartOf l) }
    {
        let Loaded {
            mem,
            meta,
            base,
            entry,
            stack,
        } = l;
        let guest = Guest {
            cpu: start_registers(entry),
            mem: add_stack(alloc, mem, stack)?,
            near: 0,
        };
        Ok(Machine {
            guest,
            code: CodeMap::new(meta, base),
            end: None,
        })
    }

    /// The registers and flags as they are.
    pub fn cpu(&self) -> &Cpu
        ensures { result.now ≡ self.now.guest.cpu }
    {
        &self.guest.cpu
    }

    /// The memory as it is.
    pub fn memory(&self) -> &Memory
        ensures { result.now ≡ self.now.guest.mem }
    {
        &self.guest.mem
    }

    /// One step. After an end the same end is answered, and nothing changes. `ReadFault` and
    /// `WriteFault` come only where the source or the sink failed; the state is then the one before
    /// the service, and a later call asks again.
    pub fn step<I: Source, O: Sink>(&mut self, input: &mut I, out: &mut O) -> StepEnd
        ensures code { self.new.code ≡ self.old.code }
        ensures answer { TellsStep result self.new.end }
        ensures read_kept { result ≡ StepEnd.Ended RunEnd.ReadFault → self.new.guest ≡ self.old.guest }
        ensures write_kept { result ≡ StepEnd.Ended RunEnd.WriteFault → self.new.guest ≡ self.old.guest }
        ensures moves { IsTrue (I.tells input.old) → StepsTo result (act_of self.old.code (after_of self.old (I.left input.old))) (after_of self.old (I.left input.old)) (after_of self.new (I.left input.new)) }
        ensures puts { IsTrue (O.tells out.old) → IsTrue (I.tells input.old) → StepLeaves result (O.bytes out.old) (act_of self.old.code (after_of self.old (I.left input.old))).put (O.bytes out.new) }
        ensures input_told { I.tells input.new ≡ I.tells input.old }
        ensures out_told { O.tells out.new ≡ O.tells out.old }
        ensures input_counted { I.faults input.old ≤ I.faults input.new }
        ensures out_counted { O.faults out.old ≤ O.faults out.new }
        ensures input_failed { result ≡ StepEnd.Ended RunEnd.ReadFault → Rose (I.faults input.old) (I.faults input.new) }
        ensures out_failed { result ≡ StepEnd.Ended RunEnd.WriteFault → Rose (O.faults out.old) (O.faults out.new) }
        ensures input_asked { result ≡ StepEnd.Ended RunEnd.ReadFault → AwaitsInput (place_at self.new.code self.new.guest.cpu.pc) self.new.code (guest_of self.new.guest) }
        ensures out_asked { result ≡ StepEnd.Ended RunEnd.WriteFault → AwaitsOutput (place_at self.new.code self.new.guest.cpu.pc) self.new.code (guest_of self.new.guest) }
    {
        if let Some(end) = self.end {
            return StepEnd::Ended(run_end(end));
        }
        match self.guest.act(&self.code, input, out) {
            Err(Fault::OfSource) => StepEnd::Ended(RunEnd::ReadFault),
            Err(Fault::OfSink) => StepEnd::Ended(RunEnd::WriteFault),
            Ok(None) => StepEnd::Going,
            Ok(Some(end)) => {
                self.end = Some(end);
                StepEnd::Ended(run_end(end))
            }
        }
    }

    /// At most `budget` steps, from the state that the machine has. `Budget` is answered exactly where
    /// it hasn't ended after so many; a fault as by [`Machine::step`].
    pub fn run<I: Source, O: Sink>(&mut self, input: &mut I, out: &mut O, budget: u64) -> RunEnd
        ensures code { self.new.code ≡ self.old.code }
        ensures answer { Tells result self.new.end }
        ensures runs { IsTrue (I.tells input.old) → Runs result self.old.code budget (after_of self.old (I.left input.old)) (after_of self.new (I.left input.new)) }
        ensures puts { IsTrue (O.tells out.old) → IsTrue (I.tells input.old) → RunPuts result self.old.code budget (after_of self.old (I.left input.old)) (after_of self.new (I.left input.new)) (O.bytes out.old) (O.bytes out.new) }
        ensures input_told { I.tells input.new ≡ I.tells input.old }
        ensures out_told { O.tells out.new ≡ O.tells out.old }
        ensures input_counted { I.faults input.old ≤ I.faults input.new }
        ensures out_counted { O.faults out.old ≤ O.faults out.new }
        ensures input_failed { result ≡ RunEnd.ReadFault → Rose (I.faults input.old) (I.faults input.new) }
        ensures out_failed { result ≡ RunEnd.WriteFault → Rose (O.faults out.old) (O.faults out.new) }
        ensures input_asked { result ≡ RunEnd.ReadFault → AwaitsInput (place_at self.new.code self.new.guest.cpu.pc) self.new.code (guest_of self.new.guest) }
        ensures out_asked { result ≡ RunEnd.WriteFault → AwaitsOutput (place_at self.new.code self.new.guest.cpu.pc) self.new.code (guest_of self.new.guest) }
    {
        if let Some(end) = self.end {
            return run_end(end);
        }
        for _turn in 0..budget {
            if let StepEnd::Ended(end) = self.step(input, out) {
                return end;
            }
        }
        RunEnd::Budget
    }
}
