//! Fields of encodings from the Arm Architecture Reference Manual, and numbers worked out by hand.

use hx_bits::{Width, field, le_u16_at, le_u32_at, le_u64_at, put_field, sign_extend, truncate};

#[test]
fn fields_of_encodings(rt: HostRuntime) {
    for (got, want) in [
        // add x1, x2, #3: sf 31, imm12 10 to 21, Rn 5 to 9, Rd 0 to 4.
        (field::<31, 1>(0x9100_0c41), 1),
        (field::<10, 12>(0x9100_0c41), 3),
        (field::<5, 5>(0x9100_0c41), 2),
        (field::<0, 5>(0x9100_0c41), 1),
        // movz x16, #0xbeef, lsl #48: hw 21 and 22, imm16 5 to 20.
        (field::<21, 2>(0xd2f7_ddf0), 3),
        (field::<5, 16>(0xd2f7_ddf0), 0xbeef),
        (field::<0, 32>(0xd2f7_ddf0), 0xd2f7_ddf0),
        // ret is br's family with Rn 30; ret x3 has Rn 3.
        (put_field::<5, 5>(0xd65f_03c0, 3), 0xd65f_0060),
        // b #-4: imm26 of all ones.
        (put_field::<0, 26>(0x1400_0000, 0x3ff_ffff), 0x17ff_ffff),
        (put_field::<31, 1>(0x1100_0c41, 1), 0x9100_0c41),
    ] {
        assert_eq!(rt; got, want);
    }
}

static BYTES: [u8; 9] = [0x01, 0x02, 0x83, 0x04, 0x05, 0x06, 0x07, 0x88, 0xff];

#[test]
fn numbers_of_bytes(rt: HostRuntime) {
    for (at, want) in [
        (1, Some(0x8302)),
        (7, Some(0xff88)),
        (8, None),
        (u64::MAX, None),
    ] {
        assert_eq!(rt; le_u16_at(&BYTES, at), want, "at {at}");
    }
}

#[test]
fn longer_numbers_of_bytes(rt: HostRuntime) {
    assert!(rt; le_u32_at(&BYTES, 5) == Some(0xff88_0706));
    assert!(rt; le_u32_at(&BYTES, 6) == None);
    assert!(rt; le_u64_at(&BYTES, 0) == Some(0x8807_0605_0483_0201));
    assert!(rt; le_u64_at(&BYTES, 2) == None);
    assert!(rt; le_u64_at(&BYTES, u64::MAX - 6) == None);
}

/// A width, a number of it, and that number with its sign in front, in 64 bits.
static EXTENDED: [(Width, u64, u64); 7] = [
    (Width::W8, 0x80, 0xffff_ffff_ffff_ff80),
    (Width::W8, 0x7f, 0x7f),
    (Width::W16, 0x8000, 0xffff_ffff_ffff_8000),
    (Width::W16, 0x4000, 0x4000),
    (Width::W32, 0x8000_0000, 0xffff_ffff_8000_0000),
    (Width::W32, 0x7fff_ffff, 0x7fff_ffff),
    (Width::W64, 0x8000_0000_0000_0000, 0x8000_0000_0000_0000),
];

#[test]
fn signs(rt: HostRuntime) {
    for (w, low, want) in &EXTENDED {
        assert!(rt; sign_extend(*low, *w) == *want, "at {low}");
        assert!(rt; truncate(*want, *w) == *low, "at {low}");
    }
    assert!(rt; truncate(0x1_2345_6789, Width::W32) == 0x2345_6789);
}
