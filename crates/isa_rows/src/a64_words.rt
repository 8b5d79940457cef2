//! Words and what they are, as others read them. The text above a row is GNU objdump's, and llvm-mc
//! gives the word for it again; a place is written from the instruction, as `.+8`. None stands for a
//! word outside the table. `tools/a64_vectors.py rows` writes the rows.

use a64_isa::instruction::{AInstr, Condition};
use a64_isa::words::{decode, encode};
use reg_map::registers::A64Reg;

macro_rules! rows {
    ($($word:literal => $want:expr,)*) => { [$(($word, $want)),*] };
}

static ROWS: [(u32, Option<AInstr>); 185] = rows! {
    // add x0, x1, #0x10
    0x9100_4020 => Some(AInstr::AddImmediate { d: A64Reg(0), n: A64Reg(1), imm: 16, shift12: false }),
    // ret
    0xD65F_03C0 => Some(AInstr::Ret { n: A64Reg(30) }),
    // add x24, x16, #0x960, lsl #12
    0x9165_8218 => Some(AInstr::AddImmediate { d: A64Reg(24), n: A64Reg(16), imm: 2400, shift12: true }),
    // add x1, x0, #0xd8f, lsl #12
    0x9176_3C01 => Some(AInstr::AddImmediate { d: A64Reg(1), n: A64Reg(0), imm: 3471, shift12: true }),
    // add sp, sp, #0xfff, lsl #12
    0x917F_FFFF => Some(AInstr::AddImmediate { d: A64Reg(31), n: A64Reg(31), imm: 4095, shift12: true }),
    // sub x7, x9, #0x582, lsl #12
    0xD156_0927 => Some(AInstr::SubImmediate { d: A64Reg(7), n: A64Reg(9), imm: 1410, shift12: true }),
    // sub x14, x23, #0xb37, lsl #12
    0xD16C_DEEE => Some(AInstr::SubImmediate { d: A64Reg(14), n: A64Reg(23), imm: 2871, shift12: true }),
    // sub sp, sp, #0xfff, lsl #12
    0xD17F_FFFF => Some(AInstr::SubImmediate { d: A64Reg(31), n: A64Reg(31), imm: 4095, shift12: true }),
    // adds x15, x3, #0xa7f, lsl #12
    0xB169_FC6F => Some(AInstr::AddsImmediate { d: A64Reg(15), n: A64Reg(3), imm: 2687, shift12: true }),
    // adds x19, x28, #0x67, lsl #12
    0xB141_9F93 => Some(AInstr::AddsImmediate { d: A64Reg(19), n: A64Reg(28), imm: 103, shift12: true }),
    // adds xzr, sp, #0xfff, lsl #12
    0xB17F_FFFF => Some(AInstr::AddsImmediate { d: A64Reg(31), n: A64Reg(31), imm: 4095, shift12: true }),
    // subs x0, x12, #0x1ac
    0xF106_B180 => Some(AInstr::SubsImmediate { d: A64Reg(0), n: A64Reg(12), imm: 428, shift12: false }),
    // subs x2, x27, #0x582, lsl #12
    0xF156_0B62 => Some(AInstr::SubsImmediate { d: A64Reg(2), n: A64Reg(27), imm: 1410, shift12: true }),
    // subs xzr, sp, #0xfff, lsl #12
    0xF17F_FFFF => Some(AInstr::SubsImmediate { d: A64Reg(31), n: A64Reg(31), imm: 4095, shift12: true }),
    // add x16, x26, x16
    0x8B10_0350 => Some(AInstr::AddRegister { d: A64Reg(16), n: A64Reg(26), m: A64Reg(16) }),
    // add x9, x17, x25
    0x8B19_0229 => Some(AInstr::AddRegister { d: A64Reg(9), n: A64Reg(17), m: A64Reg(25) }),
    // add xzr, xzr, xzr
    0x8B1F_03FF => Some(AInstr::AddRegister { d: A64Reg(31), n: A64Reg(31), m: A64Reg(31) }),
    // sub x29, x28, x20
    0xCB14_039D => Some(AInstr::SubRegister { d: A64Reg(29), n: A64Reg(28), m: A64Reg(20) }),
    // sub x26, x19, x6
    0xCB06_027A => Some(AInstr::SubRegister { d: A64Reg(26), n: A64Reg(19), m: A64Reg(6) }),
    // sub xzr, xzr, xzr
    0xCB1F_03FF => Some(AInstr::SubRegister { d: A64Reg(31), n: A64Reg(31), m: A64Reg(31) }),
    // adds x15, x0, x0
    0xAB00_000F => Some(AInstr::AddsRegister { d: A64Reg(15), n: A64Reg(0), m: A64Reg(0) }),
    // adds x9, xzr, x6
    0xAB06_03E9 => Some(AInstr::AddsRegister { d: A64Reg(9), n: A64Reg(31), m: A64Reg(6) }),
    // adds xzr, xzr, xzr
    0xAB1F_03FF => Some(AInstr::AddsRegister { d: A64Reg(31), n: A64Reg(31), m: A64Reg(31) }),
    // subs x22, x12, x18
    0xEB12_0196 => Some(AInstr::SubsRegister { d: A64Reg(22), n: A64Reg(12), m: A64Reg(18) }),
    // subs x3, x25, x14
    0xEB0E_0323 => Some(AInstr::SubsRegister { d: A64Reg(3), n: A64Reg(25), m: A64Reg(14) }),
    // subs xzr, xzr, xzr
    0xEB1F_03FF => Some(AInstr::SubsRegister { d: A64Reg(31), n: A64Reg(31), m: A64Reg(31) }),
    // and x8, x27, x24
    0x8A18_0368 => Some(AInstr::AndRegister { d: A64Reg(8), n: A64Reg(27), m: A64Reg(24) }),
    // and x19, x4, x24
    0x8A18_0093 => Some(AInstr::AndRegister { d: A64Reg(19), n: A64Reg(4), m: A64Reg(24) }),
    // and xzr, xzr, xzr
    0x8A1F_03FF => Some(AInstr::AndRegister { d: A64Reg(31), n: A64Reg(31), m: A64Reg(31) }),
    // orr x28, x28, x12
    0xAA0C_039C => Some(AInstr::OrrRegister { d: A64Reg(28), n: A64Reg(28), m: A64Reg(12) }),
    // orr x2, x25, x27
    0xAA1B_0322 => Some(AInstr::OrrRegister { d: A64Reg(2), n: A64Reg(25), m: A64Reg(27) }),
    // orr xzr, xzr, xzr
    0xAA1F_03FF => Some(AInstr::OrrRegister { d: A64Reg(31), n: A64Reg(31), m: A64Reg(31) }),
    // eor x14, x10, x5
    0xCA05_014E => Some(AInstr::EorRegister { d: A64Reg(14), n: A64Reg(10), m: A64Reg(5) }),
    // eor x23, x14, x23
    0xCA17_01D7 => Some(AInstr::EorRegister { d: A64Reg(23), n: A64Reg(14), m: A64Reg(23) }),
    // eor xzr, xzr, xzr
    0xCA1F_03FF => Some(AInstr::EorRegister { d: A64Reg(31), n: A64Reg(31), m: A64Reg(31) }),
    // orn x0, x2, x8
    0xAA28_0040 => Some(AInstr::OrnRegister { d: A64Reg(0), n: A64Reg(2), m: A64Reg(8) }),
    // orn x3, x9, x25
    0xAA39_0123 => Some(AInstr::OrnRegister { d: A64Reg(3), n: A64Reg(9), m: A64Reg(25) }),
    // orn xzr, xzr, xzr
    0xAA3F_03FF => Some(AInstr::OrnRegister { d: A64Reg(31), n: A64Reg(31), m: A64Reg(31) }),
    // udiv x20, x8, x30
    0x9ADE_0914 => Some(AInstr::Udiv { d: A64Reg(20), n: A64Reg(8), m: A64Reg(30) }),
    // udiv x12, x1, x14
    0x9ACE_082C => Some(AInstr::Udiv { d: A64Reg(12), n: A64Reg(1), m: A64Reg(14) }),
    // udiv xzr, xzr, xzr
    0x9ADF_0BFF => Some(AInstr::Udiv { d: A64Reg(31), n: A64Reg(31), m: A64Reg(31) }),
    // sdiv x14, x25, x0
    0x9AC0_0F2E => Some(AInstr::Sdiv { d: A64Reg(14), n: A64Reg(25), m: A64Reg(0) }),
    // sdiv x1, x3, x15
    0x9ACF_0C61 => Some(AInstr::Sdiv { d: A64Reg(1), n: A64Reg(3), m: A64Reg(15) }),
    // sdiv xzr, xzr, xzr
    0x9ADF_0FFF => Some(AInstr::Sdiv { d: A64Reg(31), n: A64Reg(31), m: A64Reg(31) }),
    // lslv x30, x1, x6
    0x9AC6_203E => Some(AInstr::Lslv { d: A64Reg(30), n: A64Reg(1), m: A64Reg(6) }),
    // lslv x6, x15, x1
    0x9AC1_21E6 => Some(AInstr::Lslv { d: A64Reg(6), n: A64Reg(15), m: A64Reg(1) }),
    // lslv xzr, xzr, xzr
    0x9ADF_23FF => Some(AInstr::Lslv { d: A64Reg(31), n: A64Reg(31), m: A64Reg(31) }),
    // lsrv x26, x21, x6
    0x9AC6_26BA => Some(AInstr::Lsrv { d: A64Reg(26), n: A64Reg(21), m: A64Reg(6) }),
    // lsrv x13, x1, x12
    0x9ACC_242D => Some(AInstr::Lsrv { d: A64Reg(13), n: A64Reg(1), m: A64Reg(12) }),
    // lsrv xzr, xzr, xzr
    0x9ADF_27FF => Some(AInstr::Lsrv { d: A64Reg(31), n: A64Reg(31), m: A64Reg(31) }),
    // asrv x2, x8, x11
    0x9ACB_2902 => Some(AInstr::Asrv { d: A64Reg(2), n: A64Reg(8), m: A64Reg(11) }),
    // asrv x29, x3, x6
    0x9AC6_287D => Some(AInstr::Asrv { d: A64Reg(29), n: A64Reg(3), m: A64Reg(6) }),
    // asrv xzr, xzr, xzr
    0x9ADF_2BFF => Some(AInstr::Asrv { d: A64Reg(31), n: A64Reg(31), m: A64Reg(31) }),
    // madd x3, x26, x17, x25
    0x9B11_6743 => Some(AInstr::Madd { d: A64Reg(3), n: A64Reg(26), a: A64Reg(25), m: A64Reg(17) }),
    // madd x12, xzr, x12, x8
    0x9B0C_23EC => Some(AInstr::Madd { d: A64Reg(12), n: A64Reg(31), a: A64Reg(8), m: A64Reg(12) }),
    // madd xzr, xzr, xzr, xzr
    0x9B1F_7FFF => Some(AInstr::Madd { d: A64Reg(31), n: A64Reg(31), a: A64Reg(31), m: A64Reg(31) }),
    // msub x29, x8, x30, x11
    0x9B1E_AD1D => Some(AInstr::Msub { d: A64Reg(29), n: A64Reg(8), a: A64Reg(11), m: A64Reg(30) }),
    // msub xzr, x20, x26, x16
    0x9B1A_C29F => Some(AInstr::Msub { d: A64Reg(31), n: A64Reg(20), a: A64Reg(16), m: A64Reg(26) }),
    // msub xzr, xzr, xzr, xzr
    0x9B1F_FFFF => Some(AInstr::Msub { d: A64Reg(31), n: A64Reg(31), a: A64Reg(31), m: A64Reg(31) }),
    // movz x17, #0xb872, lsl #32
    0xD2D7_0E51 => Some(AInstr::Movz { d: A64Reg(17), imm: 47218, hw: 2 }),
    // movz x28, #0x8193, lsl #16
    0xD2B0_327C => Some(AInstr::Movz { d: A64Reg(28), imm: 33171, hw: 1 }),
    // movz xzr, #0xffff, lsl #48
    0xD2FF_FFFF => Some(AInstr::Movz { d: A64Reg(31), imm: 65535, hw: 3 }),
    // movk x18, #0xe296, lsl #48
    0xF2FC_52D2 => Some(AInstr::Movk { d: A64Reg(18), imm: 58006, hw: 3 }),
    // movk x12, #0x8dde, lsl #16
    0xF2B1_BBCC => Some(AInstr::Movk { d: A64Reg(12), imm: 36318, hw: 1 }),
    // movk xzr, #0xffff, lsl #48
    0xF2FF_FFFF => Some(AInstr::Movk { d: A64Reg(31), imm: 65535, hw: 3 }),
    // movn x25, #0xa275, lsl #16
    0x92B4_4EB9 => Some(AInstr::Movn { d: A64Reg(25), imm: 41589, hw: 1 }),
    // movn x9, #0xac6d, lsl #16
    0x92B5_8DA9 => Some(AInstr::Movn { d: A64Reg(9), imm: 44141, hw: 1 }),
    // movn xzr, #0xffff, lsl #48
    0x92FF_FFFF => Some(AInstr::Movn { d: A64Reg(31), imm: 65535, hw: 3 }),
    // adr x1, .-516828
    0x10C0_E921 => Some(AInstr::Adr { d: A64Reg(1), offset: -516828 }),
    // adr x30, .-869326
    0x5095_E19E => Some(AInstr::Adr { d: A64Reg(30), offset: -869326 }),
    // adr xzr, .-1
    0x70FF_FFFF => Some(AInstr::Adr { d: A64Reg(31), offset: -1 }),
    // adrp x13, .+1099304960
    0xB020_C30D => Some(AInstr::Adrp { d: A64Reg(13), offset: 268385 }),
    // adrp x23, .+368754688
    0x900A_FD77 => Some(AInstr::Adrp { d: A64Reg(23), offset: 90028 }),
    // adrp xzr, .-4096
    0xF0FF_FFFF => Some(AInstr::Adrp { d: A64Reg(31), offset: -1 }),
    // ldr x21, [x23, #15040]
    0xF95D_62F5 => Some(AInstr::LdrX { t: A64Reg(21), n: A64Reg(23), offset: 1880 }),
    // ldr x7, [x3, #31240]
    0xF97D_0467 => Some(AInstr::LdrX { t: A64Reg(7), n: A64Reg(3), offset: 3905 }),
    // ldr xzr, [sp, #32760]
    0xF97F_FFFF => Some(AInstr::LdrX { t: A64Reg(31), n: A64Reg(31), offset: 4095 }),
    // str x14, [x10, #16752]
    0xF920_B94E => Some(AInstr::StrX { t: A64Reg(14), n: A64Reg(10), offset: 2094 }),
    // str x30, [x28, #8272]
    0xF910_2B9E => Some(AInstr::StrX { t: A64Reg(30), n: A64Reg(28), offset: 1034 }),
    // str xzr, [sp, #32760]
    0xF93F_FFFF => Some(AInstr::StrX { t: A64Reg(31), n: A64Reg(31), offset: 4095 }),
    // ldr w6, [x29, #2488]
    0xB949_BBA6 => Some(AInstr::LdrW { t: A64Reg(6), n: A64Reg(29), offset: 622 }),
    // ldr w2, [x15, #6216]
    0xB958_49E2 => Some(AInstr::LdrW { t: A64Reg(2), n: A64Reg(15), offset: 1554 }),
    // ldr wzr, [sp, #16380]
    0xB97F_FFFF => Some(AInstr::LdrW { t: A64Reg(31), n: A64Reg(31), offset: 4095 }),
    // str w12, [x27, #8864]
    0xB922_A36C => Some(AInstr::StrW { t: A64Reg(12), n: A64Reg(27), offset: 2216 }),
    // str w19, [x22, #616]
    0xB902_6AD3 => Some(AInstr::StrW { t: A64Reg(19), n: A64Reg(22), offset: 154 }),
    // str wzr, [sp, #16380]
    0xB93F_FFFF => Some(AInstr::StrW { t: A64Reg(31), n: A64Reg(31), offset: 4095 }),
    // ldrh w25, [x16, #7270]
    0x7978_CE19 => Some(AInstr::Ldrh { t: A64Reg(25), n: A64Reg(16), offset: 3635 }),
    // ldrh w21, [x13, #7910]
    0x797D_CDB5 => Some(AInstr::Ldrh { t: A64Reg(21), n: A64Reg(13), offset: 3955 }),
    // ldrh wzr, [sp, #8190]
    0x797F_FFFF => Some(AInstr::Ldrh { t: A64Reg(31), n: A64Reg(31), offset: 4095 }),
    // strh w7, [x4, #1718]
    0x790D_6C87 => Some(AInstr::Strh { t: A64Reg(7), n: A64Reg(4), offset: 859 }),
    // strh w16, [x18, #4758]
    0x7925_2E50 => Some(AInstr::Strh { t: A64Reg(16), n: A64Reg(18), offset: 2379 }),
    // strh wzr, [sp, #8190]
    0x793F_FFFF => Some(AInstr::Strh { t: A64Reg(31), n: A64Reg(31), offset: 4095 }),
    // ldrb w12, [x23, #3568]
    0x3977_C2EC => Some(AInstr::Ldrb { t: A64Reg(12), n: A64Reg(23), offset: 3568 }),
    // ldrb w18, [x29, #526]
    0x3948_3BB2 => Some(AInstr::Ldrb { t: A64Reg(18), n: A64Reg(29), offset: 526 }),
    // ldrb wzr, [sp, #4095]
    0x397F_FFFF => Some(AInstr::Ldrb { t: A64Reg(31), n: A64Reg(31), offset: 4095 }),
    // strb w29, [x15, #1768]
    0x391B_A1FD => Some(AInstr::Strb { t: A64Reg(29), n: A64Reg(15), offset: 1768 }),
    // strb w0, [x12, #1787]
    0x391B_ED80 => Some(AInstr::Strb { t: A64Reg(0), n: A64Reg(12), offset: 1787 }),
    // strb wzr, [sp, #4095]
    0x393F_FFFF => Some(AInstr::Strb { t: A64Reg(31), n: A64Reg(31), offset: 4095 }),
    // ldrsb x17, [x18, #1587]
    0x3998_CE51 => Some(AInstr::Ldrsb { t: A64Reg(17), n: A64Reg(18), offset: 1587 }),
    // ldrsb x23, [x15, #1252]
    0x3993_91F7 => Some(AInstr::Ldrsb { t: A64Reg(23), n: A64Reg(15), offset: 1252 }),
    // ldrsb xzr, [sp, #4095]
    0x39BF_FFFF => Some(AInstr::Ldrsb { t: A64Reg(31), n: A64Reg(31), offset: 4095 }),
    // ldrsh x9, [x25, #7716]
    0x79BC_4B29 => Some(AInstr::Ldrsh { t: A64Reg(9), n: A64Reg(25), offset: 3858 }),
    // ldrsh x22, [x29, #7216]
    0x79B8_63B6 => Some(AInstr::Ldrsh { t: A64Reg(22), n: A64Reg(29), offset: 3608 }),
    // ldrsh xzr, [sp, #8190]
    0x79BF_FFFF => Some(AInstr::Ldrsh { t: A64Reg(31), n: A64Reg(31), offset: 4095 }),
    // ldrsw x21, [x10, #6532]
    0xB999_8555 => Some(AInstr::Ldrsw { t: A64Reg(21), n: A64Reg(10), offset: 1633 }),
    // ldrsw x16, [x5, #10380]
    0xB9A8_8CB0 => Some(AInstr::Ldrsw { t: A64Reg(16), n: A64Reg(5), offset: 2595 }),
    // ldrsw xzr, [sp, #16380]
    0xB9BF_FFFF => Some(AInstr::Ldrsw { t: A64Reg(31), n: A64Reg(31), offset: 4095 }),
    // stp x24, x3, [x9, #264]
    0xA910_8D38 => Some(AInstr::Stp { t: A64Reg(24), n: A64Reg(9), t2: A64Reg(3), offset: 33 }),
    // stp x0, x20, [x19, #280]
    0xA911_D260 => Some(AInstr::Stp { t: A64Reg(0), n: A64Reg(19), t2: A64Reg(20), offset: 35 }),
    // stp xzr, xzr, [sp, #-8]
    0xA93F_FFFF => Some(AInstr::Stp { t: A64Reg(31), n: A64Reg(31), t2: A64Reg(31), offset: -1 }),
    // ldp x15, x3, [x2, #-328]
    0xA96B_8C4F => Some(AInstr::Ldp { t: A64Reg(15), n: A64Reg(2), t2: A64Reg(3), offset: -41 }),
    // ldp x27, x12, [x1, #-264]
    0xA96F_B03B => Some(AInstr::Ldp { t: A64Reg(27), n: A64Reg(1), t2: A64Reg(12), offset: -33 }),
    // ldp xzr, xzr, [sp, #-8]
    0xA97F_FFFF => None,
    // stp x9, x15, [x23, #-408]!
    0xA9A6_BEE9 => Some(AInstr::StpPre { t: A64Reg(9), n: A64Reg(23), t2: A64Reg(15), offset: -51 }),
    // stp x15, x26, [x8, #-208]!
    0xA9B3_690F => Some(AInstr::StpPre { t: A64Reg(15), n: A64Reg(8), t2: A64Reg(26), offset: -26 }),
    // stp xzr, xzr, [sp, #-8]!
    0xA9BF_FFFF => Some(AInstr::StpPre { t: A64Reg(31), n: A64Reg(31), t2: A64Reg(31), offset: -1 }),
    // ldp x10, x26, [x25], #-400
    0xA8E7_6B2A => Some(AInstr::LdpPost { t: A64Reg(10), n: A64Reg(25), t2: A64Reg(26), offset: -50 }),
    // ldp x11, x13, [x16], #-80
    0xA8FB_360B => Some(AInstr::LdpPost { t: A64Reg(11), n: A64Reg(16), t2: A64Reg(13), offset: -10 }),
    // ldp xzr, xzr, [sp], #-8
    0xA8FF_FFFF => None,
    // b .-111998964
    0x1654_C203 => Some(AInstr::B { offset: -27999741 }),
    // b .+13559676
    0x1433_B9DF => Some(AInstr::B { offset: 3389919 }),
    // b .-4
    0x17FF_FFFF => Some(AInstr::B { offset: -1 }),
    // bl .-8417152
    0x97DF_E420 => Some(AInstr::Bl { offset: -2104288 }),
    // bl .-25278296
    0x979F_922A => Some(AInstr::Bl { offset: -6319574 }),
    // bl .-4
    0x97FF_FFFF => Some(AInstr::Bl { offset: -1 }),
    // b.gt .+484564
    0x543B_26AC => Some(AInstr::BCond { condition: Condition::Greater, offset: 121141 }),
    // b.le .-396424
    0x54CF_9BCD => Some(AInstr::BCond { condition: Condition::LessOrEqual, offset: -99106 }),
    // b.nv 0x1f8
    0x54FF_FFEF => None,
    // cbz x2, .+705760
    0xB456_2702 => Some(AInstr::Cbz { t: A64Reg(2), offset: 176440 }),
    // cbz x22, .-533620
    0xB4BE_DC76 => Some(AInstr::Cbz { t: A64Reg(22), offset: -133405 }),
    // cbz xzr, .-4
    0xB4FF_FFFF => Some(AInstr::Cbz { t: A64Reg(31), offset: -1 }),
    // cbnz x23, .-920176
    0xB58F_AC97 => Some(AInstr::Cbnz { t: A64Reg(23), offset: -230044 }),
    // cbnz x30, .-202756
    0xB5E7_3FFE => Some(AInstr::Cbnz { t: A64Reg(30), offset: -50689 }),
    // cbnz xzr, .-4
    0xB5FF_FFFF => Some(AInstr::Cbnz { t: A64Reg(31), offset: -1 }),
    // br x1
    0xD61F_0020 => Some(AInstr::Br { n: A64Reg(1) }),
    // br x2
    0xD61F_0040 => Some(AInstr::Br { n: A64Reg(2) }),
    // br xzr
    0xD61F_03E0 => None,
    // blr x7
    0xD63F_00E0 => Some(AInstr::Blr { n: A64Reg(7) }),
    // blr x2
    0xD63F_0040 => Some(AInstr::Blr { n: A64Reg(2) }),
    // blr xzr
    0xD63F_03E0 => None,
    // ret x10
    0xD65F_0140 => Some(AInstr::Ret { n: A64Reg(10) }),
    // ret x14
    0xD65F_01C0 => Some(AInstr::Ret { n: A64Reg(14) }),
    // ret xzr
    0xD65F_03E0 => None,
    // csinc x24, x11, x12, pl
    0x9A8C_5578 => Some(AInstr::Csinc { d: A64Reg(24), n: A64Reg(11), condition: Condition::Plus, m: A64Reg(12) }),
    // csinc x13, x29, x11, vc
    0x9A8B_77AD => Some(AInstr::Csinc { d: A64Reg(13), n: A64Reg(29), condition: Condition::NoOverflow, m: A64Reg(11) }),
    // csinc xzr, xzr, xzr, nv
    0x9A9F_F7FF => None,
    // ubfm x30, x19, #51, #46
    0xD373_BA7E => Some(AInstr::Ubfm { d: A64Reg(30), n: A64Reg(19), imms: 46, immr: 51 }),
    // ubfm x2, x15, #7, #54
    0xD347_D9E2 => Some(AInstr::Ubfm { d: A64Reg(2), n: A64Reg(15), imms: 54, immr: 7 }),
    // ubfm xzr, xzr, #63, #63
    0xD37F_FFFF => Some(AInstr::Ubfm { d: A64Reg(31), n: A64Reg(31), imms: 63, immr: 63 }),
    // sbfm xzr, x20, #19, #5
    0x9353_169F => Some(AInstr::Sbfm { d: A64Reg(31), n: A64Reg(20), imms: 5, immr: 19 }),
    // sbfm x27, x23, #59, #63
    0x937B_FEFB => Some(AInstr::Sbfm { d: A64Reg(27), n: A64Reg(23), imms: 63, immr: 59 }),
    // sbfm xzr, xzr, #63, #63
    0x937F_FFFF => Some(AInstr::Sbfm { d: A64Reg(31), n: A64Reg(31), imms: 63, immr: 63 }),
    // hint #0x0
    0xD503_201F => Some(AInstr::Nop),
    // brk #0xe387
    0xD43C_70E0 => Some(AInstr::Brk { imm: 58247 }),
    // brk #0x3f6c
    0xD427_ED80 => Some(AInstr::Brk { imm: 16236 }),
    // brk #0xffff
    0xD43F_FFE0 => Some(AInstr::Brk { imm: 65535 }),
    // udf #0
    0x0000_0000 => None,
    // .inst 0xffffffff
    0xFFFF_FFFF => None,
    // ldp x0, x1, [x0]
    0xA940_0400 => Some(AInstr::Ldp { t: A64Reg(0), n: A64Reg(0), t2: A64Reg(1), offset: 0 }),
    // ldp x0, x0, [x0]
    0xA940_0000 => None,
    // ldp x1, x1, [x0], #16
    0xA8C1_0401 => None,
    // ldp x0, x1, [x1], #16
    0xA8C1_0420 => None,
    // ldp x0, x1, [sp], #16
    0xA8C1_07E0 => Some(AInstr::LdpPost { t: A64Reg(0), n: A64Reg(31), t2: A64Reg(1), offset: 2 }),
    // stp x1, x1, [x0, #16]!
    0xA981_0401 => Some(AInstr::StpPre { t: A64Reg(1), n: A64Reg(0), t2: A64Reg(1), offset: 2 }),
    // stp x0, x1, [x1, #16]!
    0xA981_0420 => None,
    // stp x0, x1, [sp, #16]!
    0xA981_07E0 => Some(AInstr::StpPre { t: A64Reg(0), n: A64Reg(31), t2: A64Reg(1), offset: 2 }),
    // b.al 0x298
    0x5400_000E => None,
    // b.nv 0x29c
    0x5400_000F => None,
    // bc.eq 0x2a0
    0x5400_0010 => None,
    // csinc x0, x0, x0, al
    0x9A80_E400 => None,
    // csinc x0, x0, x0, nv
    0x9A80_F400 => None,
    // add w0, w1, #0x10
    0x1100_4020 => None,
    // add x0, x1, x1, lsl #3
    0x8B01_0C20 => None,
    // add x0, x1, w1, uxtb
    0x8B21_0020 => None,
    // ldr x0, [x1], #8
    0xF840_8420 => None,
    // stp x0, x1, [x1], #16
    0xA881_0420 => None,
    // ldp x0, x1, [x1, #16]!
    0xA9C1_0420 => None,
    // hint #0x1
    0xD503_203F => None,
    // svc #0x0
    0xD400_0001 => None,
    // smaddl x0, w0, w1, x0
    0x9B21_0000 => None,
    // .inst 0xd3000000
    0xD300_0000 => None,
    // madd w0, w0, w0, w0
    0x1B00_0000 => None,
    // movk x0, #0x0, lsl #32
    0xF2C0_0000 => Some(AInstr::Movk { d: A64Reg(0), imm: 0, hw: 2 }),
    // b.le .-4
    0x54FF_FFED => Some(AInstr::BCond { condition: Condition::LessOrEqual, offset: -1 }),
    // ldp x0, x1, [x1, #-8]
    0xA97F_8420 => Some(AInstr::Ldp { t: A64Reg(0), n: A64Reg(1), t2: A64Reg(1), offset: -1 }),
};

#[test]
fn reads_and_writes_words(rt: HostRuntime) {
    for (word, want) in &ROWS {
        let read = decode(*word);
        assert!(rt; read == *want, "at {word:08x}");
        if let Some(i) = read {
            assert!(rt; encode(&i) == *word, "at {word:08x}");
        }
    }
}
