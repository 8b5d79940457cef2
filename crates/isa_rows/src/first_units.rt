//! Texts with their answers by hand.

use first_form::{code, parse};
use std::alloc::Global;
use std::test::Fail;

/// Units: the text, the numbers that it puts, and the one that it returns.
static UNITS: [(&[u8], &[u16], u16); 10] = [
    (
        b"int main(void){put_byte(72);put_byte(361);return 7;}",
        &[72, 361],
        7,
    ),
    (
        b" \t\r\n int main(void){put_byte( 33\n) ; return\t0 ;}\n",
        &[33],
        0,
    ),
    (b"int main(void){return 0;}", &[], 0),
    (b"int main(void){return 263;}", &[], 263),
    (b"int main(void){return 999;}", &[], 999),
    (b"int main(void){return 10;}", &[], 10),
    (
        b"int main(void){put_byte(0);put_byte(9);put_byte(100);return 1;}",
        &[0, 9, 100],
        1,
    ),
    (
        b"int\nmain\t(\rvoid ) { put_byte ( 65 ) ; return 2 ; } ",
        &[65],
        2,
    ),
    (b"int \t\r\nmain(void){return\r\n\t 5;}", &[], 5),
    (
        b"int main(void)\n{\n    put_byte(1);\n    put_byte(1);\n    return 3;\n}\n",
        &[1, 1],
        3,
    ),
];

/// Whether a text is a unit that puts these numbers and returns this one.
fn is_unit(alloc: Global, text: &[u8], puts: &[u16], status: u16) -> Result<bool, Fail> {
    match parse(alloc, text)? {
        Some(unit) => Ok(unit.puts.as_slice() == puts && unit.status == status),
        None => Ok(false),
    }
}

#[test]
fn units(rt: HostRuntime) -> Result<(), Fail> {
    for (text, puts, status) in &UNITS {
        assert!(rt; is_unit(rt.alloc(), text, puts, *status)?, "in {text:?}");
    }
    Ok(())
}

/// Texts that are none.
static REFUSED: [&[u8]; 51] = [
    b"",
    b" ",
    b"int main(void){return 07;}",
    b"int main(void){return 00;}",
    b"int main(void){return 1000;}",
    b"int main(void){put_byte(1000);return 0;}",
    b"int main(void){put_byte(010);return 0;}",
    b"int main(void){return 99999999999999999999;}",
    b"int main(void){return 1 0;}",
    b"int main(void){return -1;}",
    b"int main(void){return +1;}",
    b"int main(void){return 0x1;}",
    b"int main(void){return 1u;}",
    b"int main(void){return (0);}",
    b"int main(void){return;}",
    b"int main(void){return ;}",
    b"int main(void){return0;}",
    b"int main(void){}",
    b"int main(void){put_byte(1);}",
    b"int main(void){return 0;put_byte(1);}",
    b"int main(void){return 0;return 0;}",
    b"int main(void){return 0;}}",
    b"int main(void){return 0;};",
    b"int main(void){return 0;}x",
    b"int main(void){return 0;}\0",
    b"int main(void){return 0;",
    b"int main(void){return 0}",
    b"int main(void)return 0;}",
    b"int main(void){put_byte(1)return 0;}",
    b"int main(void){put_byte();return 0;}",
    b"int main(void){put_byte 1;return 0;}",
    b"int main(void){put_byte(1;return 0;}",
    b"int main(void){put_byte(put_byte(1));return 0;}",
    b"int main(void){put_byte(1,2);return 0;}",
    b"int main(void){put _byte(1);return 0;}",
    b"int main(void){put_byt(1);return 0;}",
    b"int main(void){putbyte(1);return 0;}",
    b"int main(void){;return 0;}",
    b"int main(void){{return 0;}}",
    b"int main(void){retu rn 0;}",
    b"int main(vo id){return 0;}",
    b"int main(){return 0;}",
    b"int main(void{return 0;}",
    b"intmain(void){return 0;}",
    b"in t main(void){return 0;}",
    b"Int main(void){return 0;}",
    b"int main(void){return 0;}/**/",
    b"int\x0Bmain(void){return\x0C0;}",
    b"int main(void){return 0;}\x80",
    b"int\xA0main(void){return 0;}",
    b"\xEF\xBB\xBFint main(void){return 0;}",
];

#[test]
fn others(rt: HostRuntime) -> Result<(), Fail> {
    for text in &REFUSED {
        assert!(rt; parse(rt.alloc(), text)?.is_none(), "in {text:?}");
    }
    Ok(())
}

/// The code of the unit that puts `Hi` and returns 7, as GNU as assembles it from
/// `sub rsp,32`, three times `movabs rcx,n`, `movabs rax,service` and `call rax`, and `ud2`.
static HI: &[u8] = b"\x48\x83\xEC\x20\
\x48\xB9\x48\x00\x00\x00\x00\x00\x00\x00\x48\xB8\x30\x00\x00\x00\xFF\x7F\x00\x00\xFF\xD0\
\x48\xB9\x69\x01\x00\x00\x00\x00\x00\x00\x48\xB8\x30\x00\x00\x00\xFF\x7F\x00\x00\xFF\xD0\
\x48\xB9\x07\x00\x00\x00\x00\x00\x00\x00\x48\xB8\x50\x00\x00\x00\xFF\x7F\x00\x00\xFF\xD0\
\x0F\x0B";

#[test]
fn codes(rt: HostRuntime) -> Result<(), Fail> {
    let text = b"int main(void){put_byte(72);put_byte(361);return 7;}";
    let unit = parse(rt.alloc(), text)?.ok_or("refused")?;
    assert!(rt; code(rt.alloc(), &unit)?.as_slice() == HI);
    Ok(())
}
