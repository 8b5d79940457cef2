//! Names, numbers and values of registers.

ghost use Rattle.std.specs.Prelude.{◌≡◌, ◌≢◌, ◌↔◌, IsTrue, ◌≤◌, IsNone, Option};
ghost use Rattle.reg_map.specs.declared.registers.X64Reg.{X64Reg};
ghost use Rattle.reg_map.specs.Table.{arm_number, x64_at, is_blocked_at, IsBlocked};

/// An x64 general register, in the order of its number in an instruction (Intel SDM, Vol. 2, 3.1.1.1).
#[derive(Clone, Copy, Debug, PartialEq, Eq)]
pub enum X64Reg {
    Rax,
    Rcx,
    Rdx,
    Rbx,
    Rsp,
    Rbp,
    Rsi,
    Rdi,
    R8,
    R9,
    R10,
    R11,
    R12,
    R13,
    R14,
    R15,
}

/// An Arm64 general register by its number: 0 to 30 for x0 to x30, and 31 for sp.
#[derive(Clone, Copy, Debug, PartialEq, Eq)]
pub struct A64Reg(pub u8);

/// The flags of x64 code: carry, zero, sign, overflow (Intel SDM, Vol. 1, 3.4.3.1).
#[derive(Clone, Copy, Debug, PartialEq, Eq)]
pub struct XFlags {
    pub cf: bool,
    pub zf: bool,
    pub sf: bool,
    pub of: bool,
}

/// The flags of Arm64 code: negative, zero, carry, overflow (Arm ARM, C5.2.10).
#[derive(Clone, Copy, Debug, PartialEq, Eq)]
pub struct AFlags {
    pub n: bool,
    pub z: bool,
    pub c: bool,
    pub v: bool,
}

/// The one processor state of both sides: x0 to x30, the stack pointer, the program counter, and
/// the flags of each side. An x64 register is the Arm64 register that `arm_of` gives.
#[derive(Clone, Copy, Debug, PartialEq, Eq)]
pub struct Cpu {
    pub x: [u64; 31],
    pub sp: u64,
    pub pc: u64,
    pub xf: XFlags,
    pub af: AFlags,
}

/// The Arm64 register that holds an x64 register where both sides run in one process
/// (Microsoft, "Overview of ARM64EC ABI conventions", register mapping).
pub fn arm_of(r: X64Reg) -> A64Reg
    ensures { result.0 ≡ arm_number r }
{
    let number = match r {
        X64Reg::Rax => 8,
        X64Reg::Rcx => 0,
        X64Reg::Rdx => 1,
        X64Reg::Rbx => 27,
        X64Reg::Rsp => 31,
        X64Reg::Rbp => 29,
        X64Reg::Rsi => 25,
        X64Reg::Rdi => 26,
        X64Reg::R8 => 2,
        X64Reg::R9 => 3,
        X64Reg::R10 => 4,
        X64Reg::R11 => 5,
        X64Reg::R12 => 19,
        X64Reg::R13 => 20,
        X64Reg::R14 => 21,
        X64Reg::R15 => 22,
    };
    A64Reg(number)
}

/// The x64 register that an Arm64 register holds, if it holds one: none for the link register, for
/// x6, x7, x9 to x12 and x15 to x17, which x64 code has no name for, and for the blocked registers.
pub fn x64_of(r: A64Reg) -> Option<X64Reg>
    ensures exact { (q : X64Reg) → (result ≡ Some q) ↔ (arm_number q ≡ r.0) }
    ensures outside { IsNone result ↔ ((q : X64Reg) → arm_number q ≢ r.0) }
    ensures value { result ≡ x64_at r.0 }
{
    x64_numbered(r.0)
}

fn x64_numbered(n: u8) -> Option<X64Reg>
    ensures { result ≡ x64_at n }
{
    match n {
        0 => Some(X64Reg::Rcx),
        1 => Some(X64Reg::Rdx),
        2 => Some(X64Reg::R8),
        3 => Some(X64Reg::R9),
        4 => Some(X64Reg::R10),
        5 => Some(X64Reg::R11),
        8 => Some(X64Reg::Rax),
        19 => Some(X64Reg::R12),
        20 => Some(X64Reg::R13),
        21 => Some(X64Reg::R14),
        22 => Some(X64Reg::R15),
        25 => Some(X64Reg::Rsi),
        26 => Some(X64Reg::Rdi),
        27 => Some(X64Reg::Rbx),
        29 => Some(X64Reg::Rbp),
        31 => Some(X64Reg::Rsp),
        _ => None,
    }
}

/// Whether Arm64EC code must not name this register: x13, x14, x23, x24 and x28 have no place in
/// the x64 context, and x18 is the platform's (Microsoft, "Overview of ARM64EC ABI conventions").
pub fn is_blocked(r: A64Reg) -> bool
    ensures exact { IsTrue result ↔ IsBlocked r.0 }
    ensures value { result ≡ is_blocked_at r.0 }
{
    matches!(r.0, 13 | 14 | 18 | 23 | 24 | 28)
}

impl Cpu {
    ghost use Rattle.reg_map.specs.Registers.{registers_of, with_x64, with_number, x64_value};

    /// The value of an x64 register.
    pub fn get64(&self, r: X64Reg) -> u64
        ensures { result ≡ x64_value (registers_of self.now) r }
    {
        self.value(arm_of(r).0)
    }

    /// Sets an x64 register, and changes nothing else.
    pub fn set64(&mut self, r: X64Reg, v: u64)
        ensures { registers_of self.new ≡ with_x64 (registers_of self.old) r v }
    {
        self.set_value(arm_of(r).0, v);
    }

    /// The value of a register by number, 31 being sp.
    pub fn value(&self, n: u8) -> u64
        requires { n ≤ 31 }
        ensures { result ≡ (registers_of self.now).value n }
    {
        if n == 31 { self.sp } else { self.x[n as usize] }
    }

    /// Sets a register by number, 31 being sp, and changes nothing else.
    pub fn set_value(&mut self, n: u8, v: u64)
        requires { n ≤ 31 }
        ensures { registers_of self.new ≡ with_number (registers_of self.old) n v }
    {
        if n == 31 {
            self.sp = v;
        } else {
            self.x[n as usize] = v;
        }
    }
}
