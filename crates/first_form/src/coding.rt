//! The code of units of the first form.

ghost use Rattle.std.specs.Prelude.{◌≡◌, ◌++◌, [], IfOk, OnOk};
ghost use Rattle.x64_isa.specs.Spelling.{spell_of};
ghost use Rattle.first_form.specs.FirstCode.{call_of, spelled, code_of};

use crate::reading::FirstUnit;
use crate::services::Service;
use reg_map::registers::X64Reg;
use std::alloc::{AllocError, Global};
use x64_isa::{XInstr, encode};

/// Appends an instruction.
fn append(code: &mut Vec<u8>, instruction: XInstr) -> Result<(), AllocError>
    ensures { OnOk result (code.new.items ≡ code.old.items ++ spell_of instruction) }
{
    code.extend_from_slice(encode(&instruction).as_slice())?;
    Ok(())
}

/// Appends a call of a service on a number.
#[tactic(auto, unfolding(crate::specs::FirstCode::spelled))]
fn append_call(code: &mut Vec<u8>, service: Service, argument: u16) -> Result<(), AllocError>
    ensures { OnOk result (code.new.items ≡ code.old.items ++ spelled (call_of service argument [])) }
{
    append(
        code,
        XInstr::MovImm64 {
            r: X64Reg::Rcx,
            imm: u64::from(argument),
        },
    )?;
    append(
        code,
        XInstr::MovImm64 {
            r: X64Reg::Rax,
            imm: service.address(),
        },
    )?;
    append(code, XInstr::CallReg { q: X64Reg::Rax })?;
    Ok(())
}

/// The x64 code of a unit, entered at its first byte; it ends the run and never returns.
pub fn code(alloc: Global, unit: &FirstUnit) -> Result<Vec<u8>, AllocError>
    ensures { IfOk result (λ bytes. bytes.items ≡ code_of unit.now.puts.items unit.now.status) }
{
    let mut code = Vec::new(alloc);
    append(
        &mut code,
        XInstr::SubImm {
            q: X64Reg::Rsp,
            imm: 32,
        },
    )?;
    for put in &unit.puts {
        append_call(&mut code, Service::PutByte, *put)?;
    }
    append_call(&mut code, Service::Exit, unit.status)?;
    append(&mut code, XInstr::Ud2)?;
    Ok(code)
}
