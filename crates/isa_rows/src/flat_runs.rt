//! Images whose runs were worked out by hand; their bytes are from GNU as.

use flat_machine::ends::{RunEnd, StuckWhy};
use flat_machine::guest::IMAGE_BASE;
use flat_machine::run::run;
use hx_io::MemSink;
use std::test::Fail;

/// An image, its output, the steps, and the end.
static ROWS: [(&[u8], &str, u64, RunEnd); 10] = [
    // nothing there; ud2; a byte that begins no instruction; half an instruction
    (b"", "", 9, RunEnd::Stuck(StuckWhy::NoRange, IMAGE_BASE)),
    (
        b"\x0F\x0B",
        "",
        9,
        RunEnd::Stuck(StuckWhy::Halt, IMAGE_BASE),
    ),
    (
        b"\x90",
        "",
        9,
        RunEnd::Stuck(StuckWhy::BadInstruction, IMAGE_BASE),
    ),
    (
        b"\x48\x83",
        "",
        9,
        RunEnd::Stuck(StuckWhy::BadInstruction, IMAGE_BASE),
    ),
    // call rax, where rax is 0
    (b"\xFF\xD0", "", 9, RunEnd::Stuck(StuckWhy::NoRange, 0)),
    // sub rsp,0x200000; call rax: into the guard
    (b"\x48\x81\xEC\0\0\x20\0\xFF\xD0", "", 9, RunEnd::StackSpent),
    // sub rsp,0x2000000; call rax: below the guard
    (
        b"\x48\x81\xEC\0\0\0\x02\xFF\xD0",
        "",
        9,
        RunEnd::Stuck(StuckWhy::Unmapped, IMAGE_BASE + 7),
    ),
    // mov rax,0x140000000; call rax: again and again, until the stack is spent
    (
        b"\x48\xB8\0\0\0\x40\x01\0\0\0\xFF\xD0",
        "",
        1000,
        RunEnd::Budget,
    ),
    (
        b"\x48\xB8\0\0\0\x40\x01\0\0\0\xFF\xD0",
        "",
        1_000_000,
        RunEnd::StackSpent,
    ),
    // mov rcx,0x141; mov rax,0x7fff00000030; call rax; mov rax,0x7fff00000060; call rax
    (
        b"\x48\xB9\x41\x01\0\0\0\0\0\0\x48\xB8\x30\0\0\0\xFF\x7F\0\0\xFF\xD0\x48\xB8\x60\0\0\0\xFF\x7F\0\0\xFF\xD0",
        "A",
        8,
        RunEnd::Trap(0x41),
    ),
];

#[test]
fn images_run(rt: HostRuntime) -> Result<(), Fail> {
    for (image, output, budget, end) in &ROWS {
        let mut out = MemSink::new(rt.alloc(), 4)?;
        assert!(rt; run(rt.alloc(), image, &mut out, *budget)? == *end);
        assert!(rt; out.bytes() == output.as_bytes());
    }
    Ok(())
}
