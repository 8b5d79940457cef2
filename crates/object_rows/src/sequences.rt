//! Sequences worked out by hand, and bytes that are none.

use fast_forward::{jump_of, sequence};

// mov rax,rsp; mov [rax+20h],rbx; push rbp; pop rbp; jmp +1002h; int3; int3, and the byte 90 behind them.
static BYTES: [u8; 17] = [
    0x48, 0x8B, 0xC4, 0x48, 0x89, 0x58, 0x20, 0x55, 0x5D, 0xE9, 0x02, 0x10, 0x00, 0x00, 0xCC, 0xCC,
    0x90,
];

// A place in the bytes, another byte there, and how far the jump then goes.
static CHANGES: [(usize, u8, Option<i32>); 8] = [
    (0, 0x49, None),
    (9, 0xE8, None),
    (14, 0xC3, None),
    (15, 0x90, None),
    (16, 0xCC, Some(0x1002)),
    (10, 0xFF, Some(0x10FF)),
    (13, 0x80, Some(-0x7FFF_EFFE)),
    (13, 0x7F, Some(0x7F00_1002)),
];

#[test]
fn sequences(rt: HostRuntime) {
    // The jump ends at 200Eh.
    assert!(rt; sequence(0x2000, 0x3010)[..] == BYTES[..16]);
    assert!(rt; jump_of(&sequence(0x3000, 0x2000)) == Some(-0x100E));
    assert!(rt; jump_of(&sequence(0, 0x8000_000D)) == Some(0x7FFF_FFFF));
    assert!(rt; jump_of(&sequence(0x8000_0000, 0xE)) == Some(-0x8000_0000));
}

#[test]
fn jumps(rt: HostRuntime) {
    assert!(rt; jump_of(&BYTES) == Some(0x1002));
    assert!(rt; jump_of(&BYTES[..16]) == Some(0x1002));
    assert!(rt; jump_of(&BYTES[..15]) == None);
    assert!(rt; jump_of(&BYTES[1..]) == None);
    assert!(rt; jump_of(&[]) == None);
    for (at, byte, want) in &CHANGES {
        let mut bytes = BYTES;
        if *at < bytes.len() {
            bytes[*at] = *byte;
        }
        assert!(rt; jump_of(&bytes) == *want);
    }
}
