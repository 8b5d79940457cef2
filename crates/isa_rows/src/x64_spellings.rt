//! Spellings as GNU as gives them: made by `tools/x64_vectors.py`.

use reg_map::registers::X64Reg;
use x64_isa::instruction::{Condition, Place, XInstr};
use x64_isa::{decode, encode};

static SPELLINGS: [(XInstr, &[u8]); 151] = [
    // {load} mov rax, rsp
    (
        XInstr::MovReg {
            r: X64Reg::Rax,
            q: X64Reg::Rsp,
        },
        b"\x48\x8B\xC4",
    ),
    // {load} mov r12, r13
    (
        XInstr::MovReg {
            r: X64Reg::R12,
            q: X64Reg::R13,
        },
        b"\x4D\x8B\xE5",
    ),
    // mov rsp, qword ptr [r13-128]
    (
        XInstr::MovLoad {
            r: X64Reg::Rsp,
            m: Place::Base {
                base: X64Reg::R13,
                displacement: -128,
            },
        },
        b"\x49\x8B\x65\x80",
    ),
    // mov r8, qword ptr [r12+128]
    (
        XInstr::MovLoad {
            r: X64Reg::R8,
            m: Place::Base {
                base: X64Reg::R12,
                displacement: 128,
            },
        },
        b"\x4D\x8B\x84\x24\x80\x00\x00\x00",
    ),
    // mov rbx, qword ptr [rip+4096]
    (
        XInstr::MovLoad {
            r: X64Reg::Rbx,
            m: Place::Rip { displacement: 4096 },
        },
        b"\x48\x8B\x1D\x00\x10\x00\x00",
    ),
    // {load} mov r9d, esi
    (
        XInstr::Mov32Reg {
            r: X64Reg::R9,
            q: X64Reg::Rsi,
        },
        b"\x44\x8B\xCE",
    ),
    // {load} mov eax, esp
    (
        XInstr::Mov32Reg {
            r: X64Reg::Rax,
            q: X64Reg::Rsp,
        },
        b"\x8B\xC4",
    ),
    // mov r14d, dword ptr [r15+2147483647]
    (
        XInstr::Mov32Load {
            r: X64Reg::R14,
            m: Place::Base {
                base: X64Reg::R15,
                displacement: 2147483647,
            },
        },
        b"\x45\x8B\xB7\xFF\xFF\xFF\x7F",
    ),
    // mov edx, dword ptr [rip-2147483648]
    (
        XInstr::Mov32Load {
            r: X64Reg::Rdx,
            m: Place::Rip {
                displacement: -2147483648,
            },
        },
        b"\x8B\x15\x00\x00\x00\x80",
    ),
    // mov ebp, dword ptr [rsp-2147483648]
    (
        XInstr::Mov32Load {
            r: X64Reg::Rbp,
            m: Place::Base {
                base: X64Reg::Rsp,
                displacement: -2147483648,
            },
        },
        b"\x8B\xAC\x24\x00\x00\x00\x80",
    ),
    // {disp8} mov qword ptr [rbx+0], rax
    (
        XInstr::MovStore {
            m: Place::Base {
                base: X64Reg::Rbx,
                displacement: 0,
            },
            r: X64Reg::Rax,
        },
        b"\x48\x89\x43\x00",
    ),
    // mov qword ptr [rsp+127], r9
    (
        XInstr::MovStore {
            m: Place::Base {
                base: X64Reg::Rsp,
                displacement: 127,
            },
            r: X64Reg::R9,
        },
        b"\x4C\x89\x4C\x24\x7F",
    ),
    // mov qword ptr [r13-128], rsp
    (
        XInstr::MovStore {
            m: Place::Base {
                base: X64Reg::R13,
                displacement: -128,
            },
            r: X64Reg::Rsp,
        },
        b"\x49\x89\x65\x80",
    ),
    // mov dword ptr [r12+128], r8d
    (
        XInstr::Mov32Store {
            m: Place::Base {
                base: X64Reg::R12,
                displacement: 128,
            },
            r: X64Reg::R8,
        },
        b"\x45\x89\x84\x24\x80\x00\x00\x00",
    ),
    // mov dword ptr [rip+4096], ebx
    (
        XInstr::Mov32Store {
            m: Place::Rip { displacement: 4096 },
            r: X64Reg::Rbx,
        },
        b"\x89\x1D\x00\x10\x00\x00",
    ),
    // mov dword ptr [rbp-129], r15d
    (
        XInstr::Mov32Store {
            m: Place::Base {
                base: X64Reg::Rbp,
                displacement: -129,
            },
            r: X64Reg::R15,
        },
        b"\x44\x89\xBD\x7F\xFF\xFF\xFF",
    ),
    // {disp8} mov word ptr [r12+0], si
    (
        XInstr::Mov16Store {
            m: Place::Base {
                base: X64Reg::R12,
                displacement: 0,
            },
            r: X64Reg::Rsi,
        },
        b"\x66\x41\x89\x74\x24\x00",
    ),
    // mov word ptr [r15+2147483647], r14w
    (
        XInstr::Mov16Store {
            m: Place::Base {
                base: X64Reg::R15,
                displacement: 2147483647,
            },
            r: X64Reg::R14,
        },
        b"\x66\x45\x89\xB7\xFF\xFF\xFF\x7F",
    ),
    // mov word ptr [rip-2147483648], dx
    (
        XInstr::Mov16Store {
            m: Place::Rip {
                displacement: -2147483648,
            },
            r: X64Reg::Rdx,
        },
        b"\x66\x89\x15\x00\x00\x00\x80",
    ),
    // {rex} mov byte ptr [rsp-2147483648], bpl
    (
        XInstr::Mov8Store {
            m: Place::Base {
                base: X64Reg::Rsp,
                displacement: -2147483648,
            },
            r: X64Reg::Rbp,
        },
        b"\x40\x88\xAC\x24\x00\x00\x00\x80",
    ),
    // {rex} {disp8} mov byte ptr [rbx+0], al
    (
        XInstr::Mov8Store {
            m: Place::Base {
                base: X64Reg::Rbx,
                displacement: 0,
            },
            r: X64Reg::Rax,
        },
        b"\x40\x88\x43\x00",
    ),
    // {rex} mov byte ptr [rsp+127], r9b
    (
        XInstr::Mov8Store {
            m: Place::Base {
                base: X64Reg::Rsp,
                displacement: 127,
            },
            r: X64Reg::R9,
        },
        b"\x44\x88\x4C\x24\x7F",
    ),
    // movzx rdi, r10b
    (
        XInstr::Movzx8Reg {
            r: X64Reg::Rdi,
            q: X64Reg::R10,
        },
        b"\x49\x0F\xB6\xFA",
    ),
    // movzx r9, sil
    (
        XInstr::Movzx8Reg {
            r: X64Reg::R9,
            q: X64Reg::Rsi,
        },
        b"\x4C\x0F\xB6\xCE",
    ),
    // movzx rbx, byte ptr [rip+4096]
    (
        XInstr::Movzx8Load {
            r: X64Reg::Rbx,
            m: Place::Rip { displacement: 4096 },
        },
        b"\x48\x0F\xB6\x1D\x00\x10\x00\x00",
    ),
    // movzx r15, byte ptr [rbp-129]
    (
        XInstr::Movzx8Load {
            r: X64Reg::R15,
            m: Place::Base {
                base: X64Reg::Rbp,
                displacement: -129,
            },
        },
        b"\x4C\x0F\xB6\xBD\x7F\xFF\xFF\xFF",
    ),
    // {disp8} movzx rsi, byte ptr [r12+0]
    (
        XInstr::Movzx8Load {
            r: X64Reg::Rsi,
            m: Place::Base {
                base: X64Reg::R12,
                displacement: 0,
            },
        },
        b"\x49\x0F\xB6\x74\x24\x00",
    ),
    // movzx r15, cx
    (
        XInstr::Movzx16Reg {
            r: X64Reg::R15,
            q: X64Reg::Rcx,
        },
        b"\x4C\x0F\xB7\xF9",
    ),
    // movzx rdi, r10w
    (
        XInstr::Movzx16Reg {
            r: X64Reg::Rdi,
            q: X64Reg::R10,
        },
        b"\x49\x0F\xB7\xFA",
    ),
    // movzx rbp, word ptr [rsp-2147483648]
    (
        XInstr::Movzx16Load {
            r: X64Reg::Rbp,
            m: Place::Base {
                base: X64Reg::Rsp,
                displacement: -2147483648,
            },
        },
        b"\x48\x0F\xB7\xAC\x24\x00\x00\x00\x80",
    ),
    // {disp8} movzx rax, word ptr [rbx+0]
    (
        XInstr::Movzx16Load {
            r: X64Reg::Rax,
            m: Place::Base {
                base: X64Reg::Rbx,
                displacement: 0,
            },
        },
        b"\x48\x0F\xB7\x43\x00",
    ),
    // movzx r9, word ptr [rsp+127]
    (
        XInstr::Movzx16Load {
            r: X64Reg::R9,
            m: Place::Base {
                base: X64Reg::Rsp,
                displacement: 127,
            },
        },
        b"\x4C\x0F\xB7\x4C\x24\x7F",
    ),
    // movsx rbp, r8b
    (
        XInstr::Movsx8Reg {
            r: X64Reg::Rbp,
            q: X64Reg::R8,
        },
        b"\x49\x0F\xBE\xE8",
    ),
    // movsx r15, cl
    (
        XInstr::Movsx8Reg {
            r: X64Reg::R15,
            q: X64Reg::Rcx,
        },
        b"\x4C\x0F\xBE\xF9",
    ),
    // movsx rbx, byte ptr [rip+4096]
    (
        XInstr::Movsx8Load {
            r: X64Reg::Rbx,
            m: Place::Rip { displacement: 4096 },
        },
        b"\x48\x0F\xBE\x1D\x00\x10\x00\x00",
    ),
    // movsx r15, byte ptr [rbp-129]
    (
        XInstr::Movsx8Load {
            r: X64Reg::R15,
            m: Place::Base {
                base: X64Reg::Rbp,
                displacement: -129,
            },
        },
        b"\x4C\x0F\xBE\xBD\x7F\xFF\xFF\xFF",
    ),
    // {disp8} movsx rsi, byte ptr [r12+0]
    (
        XInstr::Movsx8Load {
            r: X64Reg::Rsi,
            m: Place::Base {
                base: X64Reg::R12,
                displacement: 0,
            },
        },
        b"\x49\x0F\xBE\x74\x24\x00",
    ),
    // movsx r12, r13w
    (
        XInstr::Movsx16Reg {
            r: X64Reg::R12,
            q: X64Reg::R13,
        },
        b"\x4D\x0F\xBF\xE5",
    ),
    // movsx rbp, r8w
    (
        XInstr::Movsx16Reg {
            r: X64Reg::Rbp,
            q: X64Reg::R8,
        },
        b"\x49\x0F\xBF\xE8",
    ),
    // movsx rbp, word ptr [rsp-2147483648]
    (
        XInstr::Movsx16Load {
            r: X64Reg::Rbp,
            m: Place::Base {
                base: X64Reg::Rsp,
                displacement: -2147483648,
            },
        },
        b"\x48\x0F\xBF\xAC\x24\x00\x00\x00\x80",
    ),
    // {disp8} movsx rax, word ptr [rbx+0]
    (
        XInstr::Movsx16Load {
            r: X64Reg::Rax,
            m: Place::Base {
                base: X64Reg::Rbx,
                displacement: 0,
            },
        },
        b"\x48\x0F\xBF\x43\x00",
    ),
    // movsx r9, word ptr [rsp+127]
    (
        XInstr::Movsx16Load {
            r: X64Reg::R9,
            m: Place::Base {
                base: X64Reg::Rsp,
                displacement: 127,
            },
        },
        b"\x4C\x0F\xBF\x4C\x24\x7F",
    ),
    // movsxd rax, esp
    (
        XInstr::Movsx32Reg {
            r: X64Reg::Rax,
            q: X64Reg::Rsp,
        },
        b"\x48\x63\xC4",
    ),
    // movsxd r12, r13d
    (
        XInstr::Movsx32Reg {
            r: X64Reg::R12,
            q: X64Reg::R13,
        },
        b"\x4D\x63\xE5",
    ),
    // movsxd rbx, dword ptr [rip+4096]
    (
        XInstr::Movsx32Load {
            r: X64Reg::Rbx,
            m: Place::Rip { displacement: 4096 },
        },
        b"\x48\x63\x1D\x00\x10\x00\x00",
    ),
    // movsxd r15, dword ptr [rbp-129]
    (
        XInstr::Movsx32Load {
            r: X64Reg::R15,
            m: Place::Base {
                base: X64Reg::Rbp,
                displacement: -129,
            },
        },
        b"\x4C\x63\xBD\x7F\xFF\xFF\xFF",
    ),
    // {disp8} movsxd rsi, dword ptr [r12+0]
    (
        XInstr::Movsx32Load {
            r: X64Reg::Rsi,
            m: Place::Base {
                base: X64Reg::R12,
                displacement: 0,
            },
        },
        b"\x49\x63\x74\x24\x00",
    ),
    // movabs rcx, 0x1122334455667788
    (
        XInstr::MovImm64 {
            r: X64Reg::Rcx,
            imm: 1234605616436508552,
        },
        b"\x48\xB9\x88\x77\x66\x55\x44\x33\x22\x11",
    ),
    // movabs rax, 0xffffffffffffffff
    (
        XInstr::MovImm64 {
            r: X64Reg::Rax,
            imm: 18446744073709551615,
        },
        b"\x48\xB8\xFF\xFF\xFF\xFF\xFF\xFF\xFF\xFF",
    ),
    // movabs r15, 0x1
    (
        XInstr::MovImm64 {
            r: X64Reg::R15,
            imm: 1,
        },
        b"\x49\xBF\x01\x00\x00\x00\x00\x00\x00\x00",
    ),
    // lea r14, [r15+2147483647]
    (
        XInstr::Lea {
            r: X64Reg::R14,
            m: Place::Base {
                base: X64Reg::R15,
                displacement: 2147483647,
            },
        },
        b"\x4D\x8D\xB7\xFF\xFF\xFF\x7F",
    ),
    // lea rdx, [rip-2147483648]
    (
        XInstr::Lea {
            r: X64Reg::Rdx,
            m: Place::Rip {
                displacement: -2147483648,
            },
        },
        b"\x48\x8D\x15\x00\x00\x00\x80",
    ),
    // lea rbp, [rsp-2147483648]
    (
        XInstr::Lea {
            r: X64Reg::Rbp,
            m: Place::Base {
                base: X64Reg::Rsp,
                displacement: -2147483648,
            },
        },
        b"\x48\x8D\xAC\x24\x00\x00\x00\x80",
    ),
    // add r8, rbp
    (
        XInstr::AddReg {
            q: X64Reg::R8,
            r: X64Reg::Rbp,
        },
        b"\x49\x01\xE8",
    ),
    // add rcx, r15
    (
        XInstr::AddReg {
            q: X64Reg::Rcx,
            r: X64Reg::R15,
        },
        b"\x4C\x01\xF9",
    ),
    // add rax, -128
    (
        XInstr::AddImm {
            q: X64Reg::Rax,
            imm: -128,
        },
        b"\x48\x83\xC0\x80",
    ),
    // add r15, -129
    (
        XInstr::AddImm {
            q: X64Reg::R15,
            imm: -129,
        },
        b"\x49\x81\xC7\x7F\xFF\xFF\xFF",
    ),
    // or rsp, rax
    (
        XInstr::OrReg {
            q: X64Reg::Rsp,
            r: X64Reg::Rax,
        },
        b"\x48\x09\xC4",
    ),
    // or r13, r12
    (
        XInstr::OrReg {
            q: X64Reg::R13,
            r: X64Reg::R12,
        },
        b"\x4D\x09\xE5",
    ),
    // or rsp, 32
    (
        XInstr::OrImm {
            q: X64Reg::Rsp,
            imm: 32,
        },
        b"\x48\x83\xCC\x20",
    ),
    // or r12, 127
    (
        XInstr::OrImm {
            q: X64Reg::R12,
            imm: 127,
        },
        b"\x49\x83\xCC\x7F",
    ),
    // and r10, rdi
    (
        XInstr::AndReg {
            q: X64Reg::R10,
            r: X64Reg::Rdi,
        },
        b"\x49\x21\xFA",
    ),
    // and rsi, r9
    (
        XInstr::AndReg {
            q: X64Reg::Rsi,
            r: X64Reg::R9,
        },
        b"\x4C\x21\xCE",
    ),
    // and r15, -129
    (
        XInstr::AndImm {
            q: X64Reg::R15,
            imm: -129,
        },
        b"\x49\x81\xE7\x7F\xFF\xFF\xFF",
    ),
    // and rsi, 2147483647
    (
        XInstr::AndImm {
            q: X64Reg::Rsi,
            imm: 2147483647,
        },
        b"\x48\x81\xE6\xFF\xFF\xFF\x7F",
    ),
    // sub r8, rbp
    (
        XInstr::SubReg {
            q: X64Reg::R8,
            r: X64Reg::Rbp,
        },
        b"\x49\x29\xE8",
    ),
    // sub rcx, r15
    (
        XInstr::SubReg {
            q: X64Reg::Rcx,
            r: X64Reg::R15,
        },
        b"\x4C\x29\xF9",
    ),
    // sub r12, 127
    (
        XInstr::SubImm {
            q: X64Reg::R12,
            imm: 127,
        },
        b"\x49\x83\xEC\x7F",
    ),
    // sub rcx, 128
    (
        XInstr::SubImm {
            q: X64Reg::Rcx,
            imm: 128,
        },
        b"\x48\x81\xE9\x80\x00\x00\x00",
    ),
    // xor rsp, rax
    (
        XInstr::XorReg {
            q: X64Reg::Rsp,
            r: X64Reg::Rax,
        },
        b"\x48\x31\xC4",
    ),
    // xor r13, r12
    (
        XInstr::XorReg {
            q: X64Reg::R13,
            r: X64Reg::R12,
        },
        b"\x4D\x31\xE5",
    ),
    // xor rsi, 2147483647
    (
        XInstr::XorImm {
            q: X64Reg::Rsi,
            imm: 2147483647,
        },
        b"\x48\x81\xF6\xFF\xFF\xFF\x7F",
    ),
    // xor r8, -2147483648
    (
        XInstr::XorImm {
            q: X64Reg::R8,
            imm: -2147483648,
        },
        b"\x49\x81\xF0\x00\x00\x00\x80",
    ),
    // cmp r10, rdi
    (
        XInstr::CmpReg {
            q: X64Reg::R10,
            r: X64Reg::Rdi,
        },
        b"\x49\x39\xFA",
    ),
    // cmp rsi, r9
    (
        XInstr::CmpReg {
            q: X64Reg::Rsi,
            r: X64Reg::R9,
        },
        b"\x4C\x39\xCE",
    ),
    // cmp rcx, 128
    (
        XInstr::CmpImm {
            q: X64Reg::Rcx,
            imm: 128,
        },
        b"\x48\x81\xF9\x80\x00\x00\x00",
    ),
    // cmp rax, -128
    (
        XInstr::CmpImm {
            q: X64Reg::Rax,
            imm: -128,
        },
        b"\x48\x83\xF8\x80",
    ),
    // test r8, rbp
    (
        XInstr::TestReg {
            q: X64Reg::R8,
            r: X64Reg::Rbp,
        },
        b"\x49\x85\xE8",
    ),
    // imul rbp, r8
    (
        XInstr::ImulReg {
            r: X64Reg::Rbp,
            q: X64Reg::R8,
        },
        b"\x49\x0F\xAF\xE8",
    ),
    // test rcx, r15
    (
        XInstr::TestReg {
            q: X64Reg::Rcx,
            r: X64Reg::R15,
        },
        b"\x4C\x85\xF9",
    ),
    // imul r15, rcx
    (
        XInstr::ImulReg {
            r: X64Reg::R15,
            q: X64Reg::Rcx,
        },
        b"\x4C\x0F\xAF\xF9",
    ),
    // not r12
    (XInstr::NotReg { q: X64Reg::R12 }, b"\x49\xF7\xD4"),
    // not rsp
    (XInstr::NotReg { q: X64Reg::Rsp }, b"\x48\xF7\xD4"),
    // neg r8
    (XInstr::NegReg { q: X64Reg::R8 }, b"\x49\xF7\xD8"),
    // neg r15
    (XInstr::NegReg { q: X64Reg::R15 }, b"\x49\xF7\xDF"),
    // div rax
    (XInstr::DivReg { q: X64Reg::Rax }, b"\x48\xF7\xF0"),
    // div r12
    (XInstr::DivReg { q: X64Reg::R12 }, b"\x49\xF7\xF4"),
    // idiv rsp
    (XInstr::IdivReg { q: X64Reg::Rsp }, b"\x48\xF7\xFC"),
    // idiv r8
    (XInstr::IdivReg { q: X64Reg::R8 }, b"\x49\xF7\xF8"),
    // cqo
    (XInstr::Cqo, b"\x48\x99"),
    // shl r15, cl
    (XInstr::ShlCl { q: X64Reg::R15 }, b"\x49\xD3\xE7"),
    // shl r15, 7
    (
        XInstr::ShlImm {
            q: X64Reg::R15,
            imm: 7,
        },
        b"\x49\xC1\xE7\x07",
    ),
    // shl rax, cl
    (XInstr::ShlCl { q: X64Reg::Rax }, b"\x48\xD3\xE0"),
    // shl rax, 0
    (
        XInstr::ShlImm {
            q: X64Reg::Rax,
            imm: 0,
        },
        b"\x48\xC1\xE0\x00",
    ),
    // shr r8, cl
    (XInstr::ShrCl { q: X64Reg::R8 }, b"\x49\xD3\xE8"),
    // shr r8, 0
    (
        XInstr::ShrImm {
            q: X64Reg::R8,
            imm: 0,
        },
        b"\x49\xC1\xE8\x00",
    ),
    // shr r15, cl
    (XInstr::ShrCl { q: X64Reg::R15 }, b"\x49\xD3\xEF"),
    // shr r15, 63
    (
        XInstr::ShrImm {
            q: X64Reg::R15,
            imm: 63,
        },
        b"\x49\xC1\xEF\x3F",
    ),
    // sar rsp, cl
    (XInstr::SarCl { q: X64Reg::Rsp }, b"\x48\xD3\xFC"),
    // sar rsp, 63
    (
        XInstr::SarImm {
            q: X64Reg::Rsp,
            imm: 63,
        },
        b"\x48\xC1\xFC\x3F",
    ),
    // sar r8, cl
    (XInstr::SarCl { q: X64Reg::R8 }, b"\x49\xD3\xF8"),
    // sar r8, 7
    (
        XInstr::SarImm {
            q: X64Reg::R8,
            imm: 7,
        },
        b"\x49\xC1\xF8\x07",
    ),
    // {rex} seto spl
    (
        XInstr::Setcc {
            c: Condition::Overflow,
            q: X64Reg::Rsp,
        },
        b"\x40\x0F\x90\xC4",
    ),
    // {disp32} jo .+6-6
    (
        XInstr::Jcc {
            c: Condition::Overflow,
            rel: -6,
        },
        b"\x0F\x80\xFA\xFF\xFF\xFF",
    ),
    // {rex} setno dil
    (
        XInstr::Setcc {
            c: Condition::NotOverflow,
            q: X64Reg::Rdi,
        },
        b"\x40\x0F\x91\xC7",
    ),
    // {disp32} jno .+6-2147483648
    (
        XInstr::Jcc {
            c: Condition::NotOverflow,
            rel: -2147483648,
        },
        b"\x0F\x81\x00\x00\x00\x80",
    ),
    // {rex} setb al
    (
        XInstr::Setcc {
            c: Condition::Below,
            q: X64Reg::Rax,
        },
        b"\x40\x0F\x92\xC0",
    ),
    // {disp32} jb .+6+5
    (
        XInstr::Jcc {
            c: Condition::Below,
            rel: 5,
        },
        b"\x0F\x82\x05\x00\x00\x00",
    ),
    // {rex} setae r8b
    (
        XInstr::Setcc {
            c: Condition::AboveOrEqual,
            q: X64Reg::R8,
        },
        b"\x41\x0F\x93\xC0",
    ),
    // {disp32} jae .+6+2147483647
    (
        XInstr::Jcc {
            c: Condition::AboveOrEqual,
            rel: 2147483647,
        },
        b"\x0F\x83\xFF\xFF\xFF\x7F",
    ),
    // {rex} sete r13b
    (
        XInstr::Setcc {
            c: Condition::Equals,
            q: X64Reg::R13,
        },
        b"\x41\x0F\x94\xC5",
    ),
    // {disp32} je .+6+0
    (
        XInstr::Jcc {
            c: Condition::Equals,
            rel: 0,
        },
        b"\x0F\x84\x00\x00\x00\x00",
    ),
    // {rex} setne spl
    (
        XInstr::Setcc {
            c: Condition::NotEquals,
            q: X64Reg::Rsp,
        },
        b"\x40\x0F\x95\xC4",
    ),
    // {disp32} jne .+6-6
    (
        XInstr::Jcc {
            c: Condition::NotEquals,
            rel: -6,
        },
        b"\x0F\x85\xFA\xFF\xFF\xFF",
    ),
    // {rex} setbe dil
    (
        XInstr::Setcc {
            c: Condition::BelowOrEqual,
            q: X64Reg::Rdi,
        },
        b"\x40\x0F\x96\xC7",
    ),
    // {disp32} jbe .+6-2147483648
    (
        XInstr::Jcc {
            c: Condition::BelowOrEqual,
            rel: -2147483648,
        },
        b"\x0F\x86\x00\x00\x00\x80",
    ),
    // {rex} seta al
    (
        XInstr::Setcc {
            c: Condition::Above,
            q: X64Reg::Rax,
        },
        b"\x40\x0F\x97\xC0",
    ),
    // {disp32} ja .+6+5
    (
        XInstr::Jcc {
            c: Condition::Above,
            rel: 5,
        },
        b"\x0F\x87\x05\x00\x00\x00",
    ),
    // {rex} sets r8b
    (
        XInstr::Setcc {
            c: Condition::Sign,
            q: X64Reg::R8,
        },
        b"\x41\x0F\x98\xC0",
    ),
    // {disp32} js .+6+2147483647
    (
        XInstr::Jcc {
            c: Condition::Sign,
            rel: 2147483647,
        },
        b"\x0F\x88\xFF\xFF\xFF\x7F",
    ),
    // {rex} setns r13b
    (
        XInstr::Setcc {
            c: Condition::NotSign,
            q: X64Reg::R13,
        },
        b"\x41\x0F\x99\xC5",
    ),
    // {disp32} jns .+6+0
    (
        XInstr::Jcc {
            c: Condition::NotSign,
            rel: 0,
        },
        b"\x0F\x89\x00\x00\x00\x00",
    ),
    // {rex} setl spl
    (
        XInstr::Setcc {
            c: Condition::LessThan,
            q: X64Reg::Rsp,
        },
        b"\x40\x0F\x9C\xC4",
    ),
    // {disp32} jl .+6-6
    (
        XInstr::Jcc {
            c: Condition::LessThan,
            rel: -6,
        },
        b"\x0F\x8C\xFA\xFF\xFF\xFF",
    ),
    // {rex} setge dil
    (
        XInstr::Setcc {
            c: Condition::GreaterOrEqual,
            q: X64Reg::Rdi,
        },
        b"\x40\x0F\x9D\xC7",
    ),
    // {disp32} jge .+6-2147483648
    (
        XInstr::Jcc {
            c: Condition::GreaterOrEqual,
            rel: -2147483648,
        },
        b"\x0F\x8D\x00\x00\x00\x80",
    ),
    // {rex} setle al
    (
        XInstr::Setcc {
            c: Condition::LessOrEqual,
            q: X64Reg::Rax,
        },
        b"\x40\x0F\x9E\xC0",
    ),
    // {disp32} jle .+6+5
    (
        XInstr::Jcc {
            c: Condition::LessOrEqual,
            rel: 5,
        },
        b"\x0F\x8E\x05\x00\x00\x00",
    ),
    // {rex} setg r8b
    (
        XInstr::Setcc {
            c: Condition::GreaterThan,
            q: X64Reg::R8,
        },
        b"\x41\x0F\x9F\xC0",
    ),
    // {disp32} jg .+6+2147483647
    (
        XInstr::Jcc {
            c: Condition::GreaterThan,
            rel: 2147483647,
        },
        b"\x0F\x8F\xFF\xFF\xFF\x7F",
    ),
    // {disp32} jmp .+5+2147483647
    (XInstr::JmpRel { rel: 2147483647 }, b"\xE9\xFF\xFF\xFF\x7F"),
    // call .+5+2147483647
    (XInstr::CallRel { rel: 2147483647 }, b"\xE8\xFF\xFF\xFF\x7F"),
    // {disp32} jmp .+5-2147483648
    (XInstr::JmpRel { rel: -2147483648 }, b"\xE9\x00\x00\x00\x80"),
    // call .+5-2147483648
    (
        XInstr::CallRel { rel: -2147483648 },
        b"\xE8\x00\x00\x00\x80",
    ),
    // call r12
    (XInstr::CallReg { q: X64Reg::R12 }, b"\x41\xFF\xD4"),
    // call rsp
    (XInstr::CallReg { q: X64Reg::Rsp }, b"\xFF\xD4"),
    // call qword ptr [rip-2147483648]
    (
        XInstr::CallMem {
            m: Place::Rip {
                displacement: -2147483648,
            },
        },
        b"\xFF\x15\x00\x00\x00\x80",
    ),
    // call qword ptr [rsp-2147483648]
    (
        XInstr::CallMem {
            m: Place::Base {
                base: X64Reg::Rsp,
                displacement: -2147483648,
            },
        },
        b"\xFF\x94\x24\x00\x00\x00\x80",
    ),
    // {disp8} call qword ptr [rbx+0]
    (
        XInstr::CallMem {
            m: Place::Base {
                base: X64Reg::Rbx,
                displacement: 0,
            },
        },
        b"\xFF\x53\x00",
    ),
    // jmp r12
    (XInstr::JmpReg { q: X64Reg::R12 }, b"\x41\xFF\xE4"),
    // jmp rsp
    (XInstr::JmpReg { q: X64Reg::Rsp }, b"\xFF\xE4"),
    // jmp qword ptr [r12+128]
    (
        XInstr::JmpMem {
            m: Place::Base {
                base: X64Reg::R12,
                displacement: 128,
            },
        },
        b"\x41\xFF\xA4\x24\x80\x00\x00\x00",
    ),
    // jmp qword ptr [rip+4096]
    (
        XInstr::JmpMem {
            m: Place::Rip { displacement: 4096 },
        },
        b"\xFF\x25\x00\x10\x00\x00",
    ),
    // jmp qword ptr [rbp-129]
    (
        XInstr::JmpMem {
            m: Place::Base {
                base: X64Reg::Rbp,
                displacement: -129,
            },
        },
        b"\xFF\xA5\x7F\xFF\xFF\xFF",
    ),
    // push r12
    (XInstr::Push { r: X64Reg::R12 }, b"\x41\x54"),
    // push rsp
    (XInstr::Push { r: X64Reg::Rsp }, b"\x54"),
    // pop r8
    (XInstr::Pop { r: X64Reg::R8 }, b"\x41\x58"),
    // pop r15
    (XInstr::Pop { r: X64Reg::R15 }, b"\x41\x5F"),
    // ret
    (XInstr::Ret, b"\xC3"),
    // int3
    (XInstr::Int3, b"\xCC"),
    // ud2
    (XInstr::Ud2, b"\x0F\x0B"),
];

#[test]
fn spellings(rt: HostRuntime) {
    for (instruction, bytes) in &SPELLINGS {
        assert!(rt; encode(instruction).as_slice() == *bytes, "{bytes:?}");
        assert!(rt;
            decode(bytes) == Ok((*instruction, bytes.len())),
            "{bytes:?}"
        );
    }
}
