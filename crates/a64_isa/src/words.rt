//! Words of instructions.

ghost use Rattle.std.specs.Prelude.{◌≡◌, ◌↔◌, ℕ, ◌<◌, ◌^◌, Option};
ghost use Rattle.a64_isa.specs.declared.instruction.AInstr.{AInstr};
ghost use Rattle.a64_isa.specs.Forms.{encode_of, is_allowed, base_apart, Valid};
ghost use Rattle.a64_isa.specs.Reading.{wide_of, pc_relative_of, bitfield_of, one_register_of, register_pair_of, branch_of, branch_if_of, compare_branch_of, branch_register_of, system_of, exception_of, shifted_of, two_sources_of, three_sources_of, select_of, immediate_of, control_of, memory_of, register_of, candidate_of, decode_of};

use crate::instruction::AInstr;
use crate::operands::{bit, bits, condition_of, number_of, signed};
use hx_bits::{field, put_field};
use reg_map::registers::A64Reg;

// The word with these bits made zero.
macro_rules! cleared {
    ($word:expr) => { $word };
    ($word:expr, $lo:literal $len:literal $(, $rest_lo:literal $rest_len:literal)*) => {
        cleared!(put_field::<$lo, $len>($word, 0) $(, $rest_lo $rest_len)*)
    };
}

// One operand of a word, by its kind and its bits.
macro_rules! operand {
    ($word:ident, register $lo:literal) => { A64Reg(field::<$lo, 5>($word) as u8) };
    ($word:ident, small $lo:literal $len:literal) => { field::<$lo, $len>($word) as u8 };
    ($word:ident, number $lo:literal $len:literal) => { field::<$lo, $len>($word) as u16 };
    ($word:ident, flag $lo:literal) => { field::<$lo, 1>($word) == 1 };
    ($word:ident, condition $lo:literal) => { condition_of(field::<$lo, 4>($word)) };
    ($word:ident, signed $lo:literal $len:literal) => { signed::<$len>(field::<$lo, $len>($word)) };
    ($word:ident, units $lo:literal $len:literal) => { signed::<$len>(field::<$lo, $len>($word)) as i8 };
    ($word:ident, place) => { signed::<21>(field::<5, 19>($word) * 4 + field::<29, 2>($word)) };
}

// The instruction of a form with the operands of a word.
macro_rules! form {
    ($word:ident, $form:ident { $($name:ident: $kind:ident $($bits:literal)*),* }) => {
        Some(AInstr::$form { $($name: operand!($word, $kind $($bits)*)),* })
    };
}

// A word with one operand put in, by its kind and its bits.
macro_rules! put {
    ($word:expr, $v:ident register $lo:literal) => { put_field::<$lo, 5>($word, $v.0 as u32) };
    ($word:expr, $v:ident number $lo:literal $len:literal) => { put_field::<$lo, $len>($word, $v as u32) };
    ($word:expr, $v:ident flag $lo:literal) => { put_field::<$lo, 1>($word, bit($v)) };
    ($word:expr, $v:ident condition $lo:literal) => { put_field::<$lo, 4>($word, number_of($v)) };
    ($word:expr, $v:ident signed $lo:literal $len:literal) => { put_field::<$lo, $len>($word, bits::<$len>($v)) };
    ($word:expr, $v:ident units $lo:literal $len:literal) => { put_field::<$lo, $len>($word, bits::<$len>($v as i32)) };
    ($word:expr, $v:ident place) => {{
        let place = bits::<21>($v);
        put_field::<29, 2>(put_field::<5, 19>($word, place / 4), place % 4)
    }};
}

// The base word of a form with its operands put in.
macro_rules! word_of {
    ($base:expr) => { $base };
    ($base:expr, $name:ident $kind:ident $($bits:literal)* $(, $rest:ident $rest_kind:ident $($rest_bits:literal)*)*) => {
        word_of!(put!($base, $name $kind $($bits)*) $(, $rest $rest_kind $($rest_bits)*)*)
    };
}

macro_rules! add_immediate {
    ($word:ident, $form:ident) => {
        form!($word, $form { d: register 0, n: register 5, imm: number 10 12, shift12: flag 22 })
    };
}

macro_rules! three_registers {
    ($word:ident, $form:ident) => {
        form!($word, $form { d: register 0, n: register 5, m: register 16 })
    };
}

macro_rules! three_sources {
    ($word:ident, $form:ident) => {
        form!($word, $form { d: register 0, n: register 5, a: register 10, m: register 16 })
    };
}

macro_rules! move_wide {
    ($word:ident, $form:ident) => {
        form!($word, $form { d: register 0, imm: number 5 16, hw: small 21 2 })
    };
}

macro_rules! pc_relative {
    ($word:ident, $form:ident) => {
        form!($word, $form { d: register 0, offset: place })
    };
}

macro_rules! one_register {
    ($word:ident, $form:ident) => {
        form!($word, $form { t: register 0, n: register 5, offset: number 10 12 })
    };
}

macro_rules! register_pair {
    ($word:ident, $form:ident) => {
        form!($word, $form { t: register 0, n: register 5, t2: register 10, offset: units 15 7 })
    };
}

macro_rules! branch {
    ($word:ident, $form:ident) => {
        form!($word, $form { offset: signed 0 26 })
    };
}

macro_rules! branch_if {
    ($word:ident, $form:ident) => {
        form!($word, $form { condition: condition 0, offset: signed 5 19 })
    };
}

macro_rules! compare_branch {
    ($word:ident, $form:ident) => {
        form!($word, $form { t: register 0, offset: signed 5 19 })
    };
}

macro_rules! branch_register {
    ($word:ident, $form:ident) => {
        form!($word, $form { n: register 5 })
    };
}

macro_rules! select {
    ($word:ident, $form:ident) => {
        form!($word, $form { d: register 0, n: register 5, condition: condition 12, m: register 16 })
    };
}

macro_rules! bitfield {
    ($word:ident, $form:ident) => {
        form!($word, $form { d: register 0, n: register 5, imms: small 10 6, immr: small 16 6 })
    };
}

macro_rules! exception {
    ($word:ident, $form:ident) => {
        form!($word, $form { imm: number 5 16 })
    };
}

// Add/subtract (immediate) and move wide (immediate).
#[tactic(auto, unfolding(crate::specs::Reading::wide_of, crate::specs::Reading::wide_at, crate::specs::Reading::arm))]
fn wide(word: u32) -> Option<AInstr>
    ensures { result ≡ wide_of word }
{
    match cleared!(word, 0 23) {
        0x9100_0000 => add_immediate!(word, AddImmediate),
        0xD100_0000 => add_immediate!(word, SubImmediate),
        0xB100_0000 => add_immediate!(word, AddsImmediate),
        0xF100_0000 => add_immediate!(word, SubsImmediate),
        0xD280_0000 => move_wide!(word, Movz),
        0xF280_0000 => move_wide!(word, Movk),
        0x9280_0000 => move_wide!(word, Movn),
        _ => None,
    }
}

// PC-relative addressing.
#[tactic(auto, unfolding(crate::specs::Reading::pc_relative_of, crate::specs::Reading::pc_relative_at, crate::specs::Reading::arm))]
fn pc_relative(word: u32) -> Option<AInstr>
    ensures { result ≡ pc_relative_of word }
{
    match cleared!(word, 29 2, 0 24) {
        0x1000_0000 => pc_relative!(word, Adr),
        0x9000_0000 => pc_relative!(word, Adrp),
        _ => None,
    }
}

// Bitfield.
#[tactic(auto, unfolding(crate::specs::Reading::bitfield_of, crate::specs::Reading::bitfield_at, crate::specs::Reading::arm))]
fn bitfield(word: u32) -> Option<AInstr>
    ensures { result ≡ bitfield_of word }
{
    match cleared!(word, 0 22) {
        0xD340_0000 => bitfield!(word, Ubfm),
        0x9340_0000 => bitfield!(word, Sbfm),
        _ => None,
    }
}

// Load/store register (unsigned immediate).
#[tactic(auto, unfolding(crate::specs::Reading::one_register_of, crate::specs::Reading::one_register_at, crate::specs::Reading::arm))]
fn one_register(word: u32) -> Option<AInstr>
    ensures { result ≡ one_register_of word }
{
    match cleared!(word, 0 22) {
        0xF940_0000 => one_register!(word, LdrX),
        0xF900_0000 => one_register!(word, StrX),
        0xB940_0000 => one_register!(word, LdrW),
        0xB900_0000 => one_register!(word, StrW),
        0x7940_0000 => one_register!(word, Ldrh),
        0x7900_0000 => one_register!(word, Strh),
        0x3940_0000 => one_register!(word, Ldrb),
        0x3900_0000 => one_register!(word, Strb),
        0x3980_0000 => one_register!(word, Ldrsb),
        0x7980_0000 => one_register!(word, Ldrsh),
        0xB980_0000 => one_register!(word, Ldrsw),
        _ => None,
    }
}

// Load/store register pair.
#[tactic(auto, unfolding(crate::specs::Reading::register_pair_of, crate::specs::Reading::register_pair_at, crate::specs::Reading::arm))]
fn register_pair(word: u32) -> Option<AInstr>
    ensures { result ≡ register_pair_of word }
{
    match cleared!(word, 0 22) {
        0xA900_0000 => register_pair!(word, Stp),
        0xA940_0000 => register_pair!(word, Ldp),
        0xA980_0000 => register_pair!(word, StpPre),
        0xA8C0_0000 => register_pair!(word, LdpPost),
        _ => None,
    }
}

// Unconditional branch (immediate).
#[tactic(auto, unfolding(crate::specs::Reading::branch_of, crate::specs::Reading::branch_at, crate::specs::Reading::arm))]
fn branch(word: u32) -> Option<AInstr>
    ensures { result ≡ branch_of word }
{
    match cleared!(word, 0 26) {
        0x1400_0000 => branch!(word, B),
        0x9400_0000 => branch!(word, Bl),
        _ => None,
    }
}

// Conditional branch (immediate).
#[tactic(auto, unfolding(crate::specs::Reading::branch_if_of, crate::specs::Reading::branch_if_at, crate::specs::Reading::arm))]
fn branch_if(word: u32) -> Option<AInstr>
    ensures { result ≡ branch_if_of word }
{
    let fixed = cleared!(word, 5 19, 0 4);
    if (fixed == 0x5400_0000) & (field::<0, 4>(word) < 14) {
        return branch_if!(word, BCond);
    }
    None
}

// Compare and branch (immediate).
#[tactic(auto, unfolding(crate::specs::Reading::compare_branch_of, crate::specs::Reading::compare_branch_at, crate::specs::Reading::arm))]
fn compare_branch(word: u32) -> Option<AInstr>
    ensures { result ≡ compare_branch_of word }
{
    match cleared!(word, 0 24) {
        0xB400_0000 => compare_branch!(word, Cbz),
        0xB500_0000 => compare_branch!(word, Cbnz),
        _ => None,
    }
}

// Unconditional branch (register).
#[tactic(auto, unfolding(crate::specs::Reading::branch_register_of, crate::specs::Reading::branch_register_at, crate::specs::Reading::arm))]
fn branch_register(word: u32) -> Option<AInstr>
    ensures { result ≡ branch_register_of word }
{
    match cleared!(word, 5 5) {
        0xD61F_0000 => branch_register!(word, Br),
        0xD63F_0000 => branch_register!(word, Blr),
        0xD65F_0000 => branch_register!(word, Ret),
        _ => None,
    }
}

// Hints.
#[tactic(auto, unfolding(crate::specs::Reading::system_of, crate::specs::Reading::system_at, crate::specs::Reading::arm))]
fn system(word: u32) -> Option<AInstr>
    ensures { result ≡ system_of word }
{
    match word {
        0xD503_201F => Some(AInstr::Nop),
        _ => None,
    }
}

// Exception generation.
#[tactic(auto, unfolding(crate::specs::Reading::exception_of, crate::specs::Reading::exception_at, crate::specs::Reading::arm))]
fn exception(word: u32) -> Option<AInstr>
    ensures { result ≡ exception_of word }
{
    match cleared!(word, 5 16) {
        0xD420_0000 => exception!(word, Brk),
        _ => None,
    }
}

// Add/subtract and logical (shifted register).
#[tactic(auto, unfolding(crate::specs::Reading::shifted_of, crate::specs::Reading::shifted_at, crate::specs::Reading::arm))]
fn shifted(word: u32) -> Option<AInstr>
    ensures { result ≡ shifted_of word }
{
    match cleared!(word, 16 5, 0 10) {
        0x8B00_0000 => three_registers!(word, AddRegister),
        0xCB00_0000 => three_registers!(word, SubRegister),
        0xAB00_0000 => three_registers!(word, AddsRegister),
        0xEB00_0000 => three_registers!(word, SubsRegister),
        0x8A00_0000 => three_registers!(word, AndRegister),
        0xAA00_0000 => three_registers!(word, OrrRegister),
        0xCA00_0000 => three_registers!(word, EorRegister),
        0xAA20_0000 => three_registers!(word, OrnRegister),
        _ => None,
    }
}

// Data processing (2 source).
#[tactic(auto, unfolding(crate::specs::Reading::two_sources_of, crate::specs::Reading::two_sources_at, crate::specs::Reading::arm))]
fn two_sources(word: u32) -> Option<AInstr>
    ensures { result ≡ two_sources_of word }
{
    match cleared!(word, 16 5, 0 10) {
        0x9AC0_0800 => three_registers!(word, Udiv),
        0x9AC0_0C00 => three_registers!(word, Sdiv),
        0x9AC0_2000 => three_registers!(word, Lslv),
        0x9AC0_2400 => three_registers!(word, Lsrv),
        0x9AC0_2800 => three_registers!(word, Asrv),
        _ => None,
    }
}

// Data processing (3 source).
#[tactic(auto, unfolding(crate::specs::Reading::three_sources_of, crate::specs::Reading::three_sources_at, crate::specs::Reading::arm))]
fn three_sources(word: u32) -> Option<AInstr>
    ensures { result ≡ three_sources_of word }
{
    match cleared!(word, 16 5, 0 15) {
        0x9B00_0000 => three_sources!(word, Madd),
        0x9B00_8000 => three_sources!(word, Msub),
        _ => None,
    }
}

// Conditional select.
#[tactic(auto, unfolding(crate::specs::Reading::select_of, crate::specs::Reading::select_at, crate::specs::Reading::arm))]
fn select(word: u32) -> Option<AInstr>
    ensures { result ≡ select_of word }
{
    let fixed = cleared!(word, 12 9, 0 10);
    if (fixed == 0x9A80_0400) & (field::<12, 4>(word) < 14) {
        return select!(word, Csinc);
    }
    None
}

// Data processing (immediate).
#[tactic(auto, unfolding(crate::specs::Reading::immediate_of))]
fn immediate(word: u32) -> Option<AInstr>
    ensures { result ≡ immediate_of word }
{
    match field::<24, 5>(word) {
        16 => pc_relative(word),
        19 => bitfield(word),
        _ => wide(word),
    }
}

// Branches, exception generating and system instructions.
#[tactic(auto, unfolding(crate::specs::Reading::control_of))]
fn control(word: u32) -> Option<AInstr>
    ensures { result ≡ control_of word }
{
    if field::<26, 5>(word) == 5 {
        return branch(word);
    }
    match field::<24, 8>(word) {
        0x54 => branch_if(word),
        0xD4 => exception(word),
        0xD5 => system(word),
        0xD6 => branch_register(word),
        _ => compare_branch(word),
    }
}

// Loads and stores.
#[tactic(auto, unfolding(crate::specs::Reading::memory_of))]
fn memory(word: u32) -> Option<AInstr>
    ensures { result ≡ memory_of word }
{
    if field::<27, 3>(word) == 7 {
        one_register(word)
    } else {
        register_pair(word)
    }
}

// Data processing (register).
#[tactic(auto, unfolding(crate::specs::Reading::register_of))]
fn register(word: u32) -> Option<AInstr>
    ensures { result ≡ register_of word }
{
    match field::<21, 8>(word) {
        0xD8 => three_sources(word),
        0xD4 => select(word),
        0xD6 => two_sources(word),
        _ => shifted(word),
    }
}

// The instruction of the form whose fixed bits the word has.
#[tactic(auto, unfolding(crate::specs::Reading::candidate_of))]
fn candidate(word: u32) -> Option<AInstr>
    ensures { result ≡ candidate_of word }
{
    match field::<26, 3>(word) {
        4 => immediate(word),
        5 => control(word),
        _ => {
            if field::<25, 1>(word) == 0 {
                memory(word)
            } else {
                register(word)
            }
        },
    }
}

// Whether a base is sp, or none of the two registers.
fn base_is_apart(n: A64Reg, t: A64Reg, t2: A64Reg) -> bool
    ensures { result ≡ base_apart n t t2 }
{
    n.0 == 31 || (n.0 != t.0 && n.0 != t2.0)
}

// Whether the table has the instruction, given that its operands fit.
fn allowed(i: &AInstr) -> bool
    ensures { result ≡ is_allowed i.now }
{
    match *i {
        AInstr::Ldp { t, t2, .. } => t.0 != t2.0,
        AInstr::StpPre { t, n, t2, .. } => base_is_apart(n, t, t2),
        AInstr::LdpPost { t, n, t2, .. } => t.0 != t2.0 && base_is_apart(n, t, t2),
        AInstr::Br { n } => n.0 != 31,
        AInstr::Blr { n } => n.0 != 31,
        AInstr::Ret { n } => n.0 != 31,
        _ => true,
    }
}

#[tactic(auto, unfolding(crate::specs::Reading::decode_of))]
fn read(word: u32) -> Option<AInstr>
    ensures { result ≡ decode_of word }
{
    let i = candidate(word)?;
    if allowed(&i) { Some(i) } else { None }
}

/// The instruction of the table that the word is; None where it is none of the table.
pub fn decode(word: u32) -> Option<AInstr>
    ensures exact { (i : AInstr) → (result ≡ Some i) ↔ (Valid i × (encode_of i ≡ word)) }
    ensures value { result ≡ decode_of word }
{
    read(word)
}

/// The word of an instruction of the table.
pub fn encode(i: &AInstr) -> u32
    requires { Valid i.now }
    ensures { result ≡ encode_of i.now }
{
    match *i {
        AInstr::AddImmediate { d, n, imm, shift12 } =>
            word_of!(0x9100_0000, d register 0, n register 5, imm number 10 12, shift12 flag 22),
        AInstr::SubImmediate { d, n, imm, shift12 } =>
            word_of!(0xD100_0000, d register 0, n register 5, imm number 10 12, shift12 flag 22),
        AInstr::AddsImmediate { d, n, imm, shift12 } =>
            word_of!(0xB100_0000, d register 0, n register 5, imm number 10 12, shift12 flag 22),
        AInstr::SubsImmediate { d, n, imm, shift12 } =>
            word_of!(0xF100_0000, d register 0, n register 5, imm number 10 12, shift12 flag 22),
        AInstr::AddRegister { d, n, m } =>
            word_of!(0x8B00_0000, d register 0, n register 5, m register 16),
        AInstr::SubRegister { d, n, m } =>
            word_of!(0xCB00_0000, d register 0, n register 5, m register 16),
        AInstr::AddsRegister { d, n, m } =>
            word_of!(0xAB00_0000, d register 0, n register 5, m register 16),
        AInstr::SubsRegister { d, n, m } =>
            word_of!(0xEB00_0000, d register 0, n register 5, m register 16),
        AInstr::AndRegister { d, n, m } =>
            word_of!(0x8A00_0000, d register 0, n register 5, m register 16),
        AInstr::OrrRegister { d, n, m } =>
            word_of!(0xAA00_0000, d register 0, n register 5, m register 16),
        AInstr::EorRegister { d, n, m } =>
            word_of!(0xCA00_0000, d register 0, n register 5, m register 16),
        AInstr::OrnRegister { d, n, m } =>
            word_of!(0xAA20_0000, d register 0, n register 5, m register 16),
        AInstr::Udiv { d, n, m } =>
            word_of!(0x9AC0_0800, d register 0, n register 5, m register 16),
        AInstr::Sdiv { d, n, m } =>
            word_of!(0x9AC0_0C00, d register 0, n register 5, m register 16),
        AInstr::Lslv { d, n, m } =>
            word_of!(0x9AC0_2000, d register 0, n register 5, m register 16),
        AInstr::Lsrv { d, n, m } =>
            word_of!(0x9AC0_2400, d register 0, n register 5, m register 16),
        AInstr::Asrv { d, n, m } =>
            word_of!(0x9AC0_2800, d register 0, n register 5, m register 16),
        AInstr::Madd { d, n, a, m } =>
            word_of!(0x9B00_0000, d register 0, n register 5, a register 10, m register 16),
        AInstr::Msub { d, n, a, m } =>
            word_of!(0x9B00_8000, d register 0, n register 5, a register 10, m register 16),
        AInstr::Movz { d, imm, hw } =>
            word_of!(0xD280_0000, d register 0, imm number 5 16, hw number 21 2),
        AInstr::Movk { d, imm, hw } =>
            word_of!(0xF280_0000, d register 0, imm number 5 16, hw number 21 2),
        AInstr::Movn { d, imm, hw } =>
            word_of!(0x9280_0000, d register 0, imm number 5 16, hw number 21 2),
        AInstr::Adr { d, offset } => word_of!(0x1000_0000, d register 0, offset place),
        AInstr::Adrp { d, offset } => word_of!(0x9000_0000, d register 0, offset place),
        AInstr::LdrX { t, n, offset } =>
            word_of!(0xF940_0000, t register 0, n register 5, offset number 10 12),
        AInstr::StrX { t, n, offset } =>
            word_of!(0xF900_0000, t register 0, n register 5, offset number 10 12),
        AInstr::LdrW { t, n, offset } =>
            word_of!(0xB940_0000, t register 0, n register 5, offset number 10 12),
        AInstr::StrW { t, n, offset } =>
            word_of!(0xB900_0000, t register 0, n register 5, offset number 10 12),
        AInstr::Ldrh { t, n, offset } =>
            word_of!(0x7940_0000, t register 0, n register 5, offset number 10 12),
        AInstr::Strh { t, n, offset } =>
            word_of!(0x7900_0000, t register 0, n register 5, offset number 10 12),
        AInstr::Ldrb { t, n, offset } =>
            word_of!(0x3940_0000, t register 0, n register 5, offset number 10 12),
        AInstr::Strb { t, n, offset } =>
            word_of!(0x3900_0000, t register 0, n register 5, offset number 10 12),
        AInstr::Ldrsb { t, n, offset } =>
            word_of!(0x3980_0000, t register 0, n register 5, offset number 10 12),
        AInstr::Ldrsh { t, n, offset } =>
            word_of!(0x7980_0000, t register 0, n register 5, offset number 10 12),
        AInstr::Ldrsw { t, n, offset } =>
            word_of!(0xB980_0000, t register 0, n register 5, offset number 10 12),
        AInstr::Stp { t, n, t2, offset } =>
            word_of!(0xA900_0000, t register 0, n register 5, t2 register 10, offset units 15 7),
        AInstr::Ldp { t, n, t2, offset } =>
            word_of!(0xA940_0000, t register 0, n register 5, t2 register 10, offset units 15 7),
        AInstr::StpPre { t, n, t2, offset } =>
            word_of!(0xA980_0000, t register 0, n register 5, t2 register 10, offset units 15 7),
        AInstr::LdpPost { t, n, t2, offset } =>
            word_of!(0xA8C0_0000, t register 0, n register 5, t2 register 10, offset units 15 7),
        AInstr::B { offset } => word_of!(0x1400_0000, offset signed 0 26),
        AInstr::Bl { offset } => word_of!(0x9400_0000, offset signed 0 26),
        AInstr::BCond { condition, offset } =>
            word_of!(0x5400_0000, condition condition 0, offset signed 5 19),
        AInstr::Cbz { t, offset } => word_of!(0xB400_0000, t register 0, offset signed 5 19),
        AInstr::Cbnz { t, offset } => word_of!(0xB500_0000, t register 0, offset signed 5 19),
        AInstr::Br { n } => word_of!(0xD61F_0000, n register 5),
        AInstr::Blr { n } => word_of!(0xD63F_0000, n register 5),
        AInstr::Ret { n } => word_of!(0xD65F_0000, n register 5),
        AInstr::Csinc { d, n, condition, m } =>
            word_of!(0x9A80_0400, d register 0, n register 5, condition condition 12, m register 16),
        AInstr::Ubfm { d, n, imms, immr } =>
            word_of!(0xD340_0000, d register 0, n register 5, imms number 10 6, immr number 16 6),
        AInstr::Sbfm { d, n, imms, immr } =>
            word_of!(0x9340_0000, d register 0, n register 5, imms number 10 6, immr number 16 6),
        AInstr::Nop => word_of!(0xD503_201F),
        AInstr::Brk { imm } => word_of!(0xD420_0000, imm number 5 16),
    }
}

/// No two instructions of the table have one word.
pub fn one_instruction()
    ensures { (i j : AInstr) → Valid i → Valid j → encode_of i ≡ encode_of j → i ≡ j }
{}

/// What is encoded is decoded, and what is decoded encodes to its word.
pub fn round_trips()
    ensures again { (i : AInstr) → Valid i → decode_of (encode_of i) ≡ Some i }
    ensures back { (w : ℕ) → w < 2 ^ 32 → (i : AInstr) → decode_of w ≡ Some i → encode_of i ≡ w }
{}
