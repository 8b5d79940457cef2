//! The registers that Arm64EC code must not use.

ghost use Rattle.std.specs.Prelude.{◌≡◌};
ghost use Rattle.a64_exec.specs.Effects.{one_blocked, two_blocked, three_blocked, names_blocked};

use a64_isa::instruction::AInstr;
use reg_map::registers::{A64Reg, is_blocked};

fn two(d: A64Reg, n: A64Reg) -> bool
    ensures { result ≡ two_blocked d n }
{
    is_blocked(d) || is_blocked(n)
}

fn three(d: A64Reg, n: A64Reg, m: A64Reg) -> bool
    ensures { result ≡ three_blocked d n m }
{
    is_blocked(d) || is_blocked(n) || is_blocked(m)
}

/// Whether a register field of the instruction names one of these registers.
pub fn names_blocked(i: &AInstr) -> bool
    ensures { result ≡ names_blocked i.now }
{
    match *i {
        AInstr::AddImmediate { d, n, .. } => two(d, n),
        AInstr::SubImmediate { d, n, .. } => two(d, n),
        AInstr::AddsImmediate { d, n, .. } => two(d, n),
        AInstr::SubsImmediate { d, n, .. } => two(d, n),
        AInstr::AddRegister { d, n, m } => three(d, n, m),
        AInstr::SubRegister { d, n, m } => three(d, n, m),
        AInstr::AddsRegister { d, n, m } => three(d, n, m),
        AInstr::SubsRegister { d, n, m } => three(d, n, m),
        AInstr::AndRegister { d, n, m } => three(d, n, m),
        AInstr::OrrRegister { d, n, m } => three(d, n, m),
        AInstr::EorRegister { d, n, m } => three(d, n, m),
        AInstr::OrnRegister { d, n, m } => three(d, n, m),
        AInstr::Udiv { d, n, m } => three(d, n, m),
        AInstr::Sdiv { d, n, m } => three(d, n, m),
        AInstr::Lslv { d, n, m } => three(d, n, m),
        AInstr::Lsrv { d, n, m } => three(d, n, m),
        AInstr::Asrv { d, n, m } => three(d, n, m),
        AInstr::Madd { d, n, a, m } => two(d, n) || two(a, m),
        AInstr::Msub { d, n, a, m } => two(d, n) || two(a, m),
        AInstr::Movz { d, .. } => is_blocked(d),
        AInstr::Movk { d, .. } => is_blocked(d),
        AInstr::Movn { d, .. } => is_blocked(d),
        AInstr::Adr { d, .. } => is_blocked(d),
        AInstr::Adrp { d, .. } => is_blocked(d),
        AInstr::LdrX { t, n, .. } => two(t, n),
        AInstr::StrX { t, n, .. } => two(t, n),
        AInstr::LdrW { t, n, .. } => two(t, n),
        AInstr::StrW { t, n, .. } => two(t, n),
        AInstr::Ldrh { t, n, .. } => two(t, n),
        AInstr::Strh { t, n, .. } => two(t, n),
        AInstr::Ldrb { t, n, .. } => two(t, n),
        AInstr::Strb { t, n, .. } => two(t, n),
        AInstr::Ldrsb { t, n, .. } => two(t, n),
        AInstr::Ldrsh { t, n, .. } => two(t, n),
        AInstr::Ldrsw { t, n, .. } => two(t, n),
        AInstr::Stp { t, n, t2, .. } => three(t, n, t2),
        AInstr::Ldp { t, n, t2, .. } => three(t, n, t2),
        AInstr::StpPre { t, n, t2, .. } => three(t, n, t2),
        AInstr::LdpPost { t, n, t2, .. } => three(t, n, t2),
        AInstr::B { .. } => false,
        AInstr::Bl { .. } => false,
        AInstr::BCond { .. } => false,
        AInstr::Cbz { t, .. } => is_blocked(t),
        AInstr::Cbnz { t, .. } => is_blocked(t),
        AInstr::Br { n } => is_blocked(n),
        AInstr::Blr { n } => is_blocked(n),
        AInstr::Ret { n } => is_blocked(n),
        AInstr::Csinc { d, n, m, .. } => three(d, n, m),
        AInstr::Ubfm { d, n, .. } => two(d, n),
        AInstr::Sbfm { d, n, .. } => two(d, n),
        AInstr::Nop => false,
        AInstr::Brk { .. } => false,
    }
}
