//! Sites and what they become, worked out by hand; the words of instructions are those of the Arm Architecture
//! Reference Manual for the operands beside them.

use hx_bits::{Width, write_number};
use hx_names::SiteKind;
use link_reloc::{RelocRefusal, apply};

const BASE: u64 = 0x1_4000_0000;

// A kind, the places of the site and of its target, and the eight bytes from the site on as a number, before and after.
static ROWS: [(SiteKind, u32, u32, u64, Result<u64, RelocRefusal>); 35] = [
    (
        SiteKind::Nothing,
        0x1000,
        0x2000,
        0x1122_3344_5566_7788,
        Ok(0x1122_3344_5566_7788),
    ),
    (SiteKind::Addr64, 0x1000, 0x1234, 8, Ok(0x1_4000_123C)),
    (
        SiteKind::Addr64,
        0x1000,
        0x1234,
        0xFFFF_FFFF_FFFF_FFFC,
        Ok(0x1_4000_1230),
    ),
    (
        SiteKind::Addr64,
        0x1000,
        0x1234,
        0xFFFF_FFFE_C000_0000,
        Ok(0x1234),
    ),
    (
        SiteKind::Addr32Nb,
        0x1000,
        0x2000,
        0x7_FFFF_FFFC,
        Ok(0x7_0000_1FFC),
    ),
    (SiteKind::Addr32Nb, 0x1000, 0x8000_0000, 0x8000_0000, Ok(0)),
    (SiteKind::Addr32Nb, 0x1000, 0xFFFF_FFFF, 0, Ok(0xFFFF_FFFF)),
    (
        SiteKind::Addr32Nb,
        0x1000,
        0xFFFF_FFFF,
        1,
        Err(RelocRefusal::OutOfReach(0x1_0000_0000)),
    ),
    (
        SiteKind::Addr32Nb,
        0x1000,
        0,
        0xFFFF_FFFF,
        Err(RelocRefusal::OutOfReach(-1)),
    ),
    (SiteKind::Rel32, 0x1001, 0x2000, 0, Ok(0xFFB)),
    (
        SiteKind::Rel32,
        0x1001,
        0x1000,
        0x9_FFFF_FFFC,
        Ok(0x9_FFFF_FFF7),
    ),
    (SiteKind::Rel32, 0x1000, 0x8000_1003, 0, Ok(0x7FFF_FFFF)),
    (
        SiteKind::Rel32,
        0x1000,
        0x8000_1004,
        0,
        Err(RelocRefusal::OutOfReach(0x8000_0000)),
    ),
    (SiteKind::Rel32, 0x8000_0000, 4, 0, Ok(0x8000_0000)),
    (
        SiteKind::Rel32,
        0x8000_0000,
        3,
        0,
        Err(RelocRefusal::OutOfReach(-0x8000_0001)),
    ),
    // bl #0x10; bl #-0x10; the farthest ways ahead and back
    (
        SiteKind::Branch26,
        0x1000,
        0x1010,
        0x9400_0000,
        Ok(0x9400_0004),
    ),
    (
        SiteKind::Branch26,
        0x1010,
        0x1000,
        0x3_9400_0000,
        Ok(0x3_97FF_FFFC),
    ),
    (
        SiteKind::Branch26,
        0,
        0x7FF_FFFC,
        0x9400_0000,
        Ok(0x95FF_FFFF),
    ),
    (
        SiteKind::Branch26,
        0x800_0000,
        0,
        0x1400_0000,
        Ok(0x1600_0000),
    ),
    (
        SiteKind::Branch26,
        0,
        0x800_0000,
        0x9400_0000,
        Err(RelocRefusal::OutOfReach(0x200_0000)),
    ),
    (
        SiteKind::Branch26,
        0x1000,
        0x1006,
        0x9400_0000,
        Err(RelocRefusal::Misaligned(6)),
    ),
    (
        SiteKind::Branch26,
        0x1007,
        0x1000,
        0x9400_0000,
        Err(RelocRefusal::Misaligned(-7)),
    ),
    (
        SiteKind::Branch26,
        0,
        0x800_0002,
        0x9400_0000,
        Err(RelocRefusal::Misaligned(0x800_0002)),
    ),
    (
        SiteKind::Branch26,
        0,
        0x800_0002,
        0x9600_0000,
        Err(RelocRefusal::Addend),
    ),
    // adrp x0, #0x2000; adrp x0, #-0x2000
    (
        SiteKind::PageBaseRel21,
        0x1FFC,
        0x3004,
        0x9000_0000,
        Ok(0xD000_0000),
    ),
    (
        SiteKind::PageBaseRel21,
        0x3000,
        0x1FFF,
        0x9000_0000,
        Ok(0xD0FF_FFE0),
    ),
    (
        SiteKind::PageBaseRel21,
        0x3000,
        0x1000,
        0xB000_0000,
        Err(RelocRefusal::Addend),
    ),
    (
        SiteKind::PageBaseRel21,
        0x3000,
        0x1000,
        0x9000_0020,
        Err(RelocRefusal::Addend),
    ),
    // add x0, x0, #0xabc; ldrb w0, [x0, #0xabf]; ldrh w0, [x0, #0xabe]; ldr w0, [x0, #0xabc]; ldr x0, [x0, #0xab8]
    (
        SiteKind::PageOffset12A,
        0x1000,
        0x3ABC,
        0x9100_0000,
        Ok(0x912A_F000),
    ),
    (
        SiteKind::PageOffset12A,
        0x1000,
        0x3ABC,
        0x9120_0000,
        Err(RelocRefusal::Addend),
    ),
    (
        SiteKind::PageOffset12L,
        0x1000,
        0x3ABF,
        0x3940_0000,
        Ok(0x396A_FC00),
    ),
    (
        SiteKind::PageOffset12L,
        0x1000,
        0x3ABE,
        0x7940_0000,
        Ok(0x7955_7C00),
    ),
    (
        SiteKind::PageOffset12L,
        0x1000,
        0x3ABC,
        0xB940_0000,
        Ok(0xB94A_BC00),
    ),
    (
        SiteKind::PageOffset12L,
        0x1000,
        0x3AB8,
        0xF940_0000,
        Ok(0xF945_5C00),
    ),
    (
        SiteKind::PageOffset12L,
        0x1000,
        0x3ABC,
        0xF940_0000,
        Err(RelocRefusal::Misaligned(0xABC)),
    ),
];

#[test]
#[tactic(auto, using(link_reloc::proofs::Fills::width_le))]
fn sites(rt: HostRuntime) {
    for (kind, site, target, number, want) in &ROWS {
        let mut before = [0x5A; 16];
        write_number(&mut before[4..], Width::W64, *number);
        let mut after = before;
        let answer = apply(
            *kind,
            &mut after,
            4,
            u64::from(*site),
            u64::from(*target),
            BASE,
        );
        match want {
            Ok(new) => {
                write_number(&mut before[4..], Width::W64, *new);
                assert!(rt; answer == Ok(()));
            }
            Err(refusal) => assert!(rt; answer == Err(*refusal)),
        }
        assert!(rt; after == before);
    }
}
