//! Little lists of objects and what they link to, worked out by hand.
//!
//! A list is written as a text. Objects are apart by `|`, their words by blanks. `+` is a section, `*`
//! a COMDAT section; `f@2` an external symbol in the second section, `f@0` one in none, `f@A` an
//! absolute one, and `.f@2` a static one; each has its number in the object as its value. `!3` gives
//! symbol 3 an entry thunk, `?3` a guest exit thunk. An answer has the sections that are kept, and the
//! names with their places: `=` for a place, `~` for the sequence that leads there.

use coff_write::{HybridRow, ObjMachine, ObjSection, ObjSymbol, Object};
use hx_words::Items;
use link_resolve::{LinkRefusal, NamePlace, Resolved, are_few, resolve};
use std::alloc::{AllocError, Global};
use std::test::Fail;

type Case = (&'static [u8], &'static str);

static CASES: [Case; 66] = [
    // main
    (b"", "NoMain"),
    (b"|", "NoMain"),
    (b"+ main@1", "0.0: main=0.0+0"),
    (b"+ #main@1 !0", "0.0: #main=0.0+0 main~0.0+0"),
    (b"+ f@1", "NoMain"),
    (b"+ .main@1", "NoMain"),
    (b"+ main@A", "NoMain"),
    (b"+ Main@1 main2@1 _main@1", "NoMain"),
    (b"+ #main$exit_thunk@1", "NoMain"),
    (b"+ f@1 | + main@1", "0.0 1.0: f=0.0+0 main=1.0+0"),
    // names that nothing defines
    (b"+ main@1 f@0", "Undefined f"),
    (b"main@0", "Undefined main"),
    (b"#main@0", "Undefined #main"),
    (b"+ main@1 #f@0", "Undefined #f"),
    (b"+ main@1 .f@0", "0.0: main=0.0+0"),
    (b"+ main@1 f@A", "0.0: main=0.0+0"),
    (b"+ main@1 f@0 f@A", "Undefined f"),
    (b"+ main@1 f@0 .f@1", "Undefined f"),
    (b"+ main@1 g@0 f@0", "Undefined g"),
    (b"+ main@1 g@0 | f@0 g@0", "Undefined g"),
    (b"+ main@1 g@0 | + g@1 h@0", "Undefined h"),
    (b"+ main@1 f@0 | + f@1", "0.0 1.0: main=0.0+0 f=1.0+0"),
    // an import slot needs no definition, a service by itself does
    (
        b"+ main@1 __imp_put_byte@0 __imp_get_byte@0 __imp_exit@0 __imp_trap@0",
        "0.0: main=0.0+0",
    ),
    (
        b"+ main@1 __imp_#put_byte@0 __imp_#get_byte@0 __imp_#exit@0 __imp_#trap@0",
        "0.0: main=0.0+0",
    ),
    (
        b"+ main@1 __os_arm64x_check_icall@0 __os_arm64x_dispatch_call_no_redirect@0 __os_arm64x_dispatch_ret@0",
        "0.0: main=0.0+0",
    ),
    (b"+ main@1 put_byte@0", "Undefined put_byte"),
    (b"+ main@1 #exit@0", "Undefined #exit"),
    (b"+ main@1 __imp_put_bytes@0", "Undefined __imp_put_bytes"),
    (b"+ main@1 __imp_exit@1", "0.0: main=0.0+0"),
    // a function of the other side
    (
        b"+ main@1 f@0 | + #f@1 !0",
        "0.0 1.0: main=0.0+0 #f=1.0+0 f~1.0+0",
    ),
    (
        b"+ + #main@1 #f@0 #f$exit_thunk@2 !0 | + f@1",
        "0.0 0.1 1.0: #main=0.0+0 main~0.0+0 #f$exit_thunk=0.1+2 #f=0.1+2 f=1.0+0",
    ),
    (b"+ + #main@1 #f@0 #f$exit_thunk@2 !0", "Undefined #f"),
    (b"+ #main@1 #f@0 !0 | + f@1", "Undefined #f"),
    (
        b"+ + main@1 #f$exit_thunk@2",
        "0.0 0.1: main=0.0+0 #f$exit_thunk=0.1+1",
    ),
    (
        b"+ main@1 f$exit_thunk@0 | + f@1 #f$exit_thunk@1",
        "Undefined f$exit_thunk",
    ),
    (
        b"+ main@1 | + #f@1 !0 | + #f$exit_thunk@1",
        "0.0 1.0 2.0: main=0.0+0 #f=1.0+0 f~1.0+0 #f$exit_thunk=2.0+0",
    ),
    (b"+ main@1 ##f@1 !1", "0.0: main=0.0+0 ##f=0.0+1"),
    // two definitions
    (b"+ main@1 | + main@1", "Duplicate main"),
    (b"+ + main@1 main@2", "Duplicate main"),
    (b"+ main@1 main@1", "Duplicate main"),
    (b"+ main@1 | * main@1", "Duplicate main"),
    (b"* main@1 | + main@1", "Duplicate main"),
    (b"* main@1 | * main@1", "0.0: main=0.0+0"),
    (b"* main@1 | * main@1 | * main@1", "0.0: main=0.0+0"),
    (b"* main@1 | * main@1 | + main@1", "Duplicate main"),
    (b"+ main@1 .f@1 | + f@1 .f@1", "0.0 1.0: main=0.0+0 f=1.0+0"),
    (b"+ f@1 g@1 | + g@1 f@1", "Duplicate f"),
    (b"+ f@0 g@1 | + g@1 f@1 | + f@1", "Duplicate g"),
    (b"+ f@1 | + f@1 g@0", "Undefined g"),
    // sections that are left out
    (
        b"+ * main@1 .t@2 t@2 | + * #f@1 .t@2 t@2 !0",
        "0.0 0.1 1.0: main=0.0+0 t=0.1+2 #f=1.0+0 f~1.0+0",
    ),
    (
        b"+ * main@1 t@2 | * t@1 u@1",
        "0.0 0.1 1.0: main=0.0+0 t=0.1+1 u=1.0+1",
    ),
    (
        b"+ * main@1 t@2 u@2 | * t@1 u@1 | * u@1",
        "0.0 0.1: main=0.0+0 t=0.1+1 u=0.1+2",
    ),
    (
        b"+ main@1 | * .t@1 | * .t@1 | *",
        "0.0 1.0 2.0 3.0: main=0.0+0",
    ),
    (b"* * main@1 main@2", "0.0: main=0.0+0"),
    (b"* main@1 main@1", "0.0: main=0.0+0"),
    // both sides
    (b"+ main@1 f@1 | + #f@1 !0", "BothSides f"),
    (b"+ main@1 | + #f@1 !0 | + f@1", "BothSides f"),
    (
        b"+ main@1 .f@1 | + #f@1 !0",
        "0.0 1.0: main=0.0+0 #f=1.0+0 f~1.0+0",
    ),
    (b"+ #f@1 #g@1 g@1 f@1", "BothSides g"),
    (b"+ #f@1 f@1 | + g@1 g@1", "Duplicate g"),
    // entry thunks
    (b"+ #main@1", "NoEntryThunk #main"),
    (b"+ #main@1 #f@1 #g@1 !0 !2", "NoEntryThunk #f"),
    (b"+ #main@1 ?0", "NoEntryThunk #main"),
    (b"+ #f@1 g@1 !1 | + #h@1 !0", "NoEntryThunk #f"),
    (b"* #main@1 !0 | * #main@1", "0.0: #main=0.0+0 main~0.0+0"),
    (b"* #main@1 !0 | * #main@1 u@1", "NoEntryThunk #main"),
];

fn digit(c: u8) -> u16 {
    (c as u16).saturating_sub(48)
}

fn section(alloc: Global, comdat: bool) -> ObjSection {
    ObjSection {
        name: Items::new(alloc),
        flags: 0,
        bytes: Items::new(alloc),
        zeros: 0,
        comdat,
        sites: Items::new(alloc),
    }
}

/// The symbol `NAME@S`, which has this number.
fn symbol(alloc: Global, word: &[u8], number: usize) -> Result<ObjSymbol, AllocError> {
    let (name, place) = match word {
        [name @ .., b'@', place] => (name, *place),
        _ => (word, b'0'),
    };
    let (name, external) = match name {
        [b'.', rest @ ..] => (rest, false),
        _ => (name, true),
    };
    let section = if place == b'A' { 65_535 } else { digit(place) };
    Ok(ObjSymbol {
        name: Items::from_slice(alloc, name)?,
        value: number.min(99) as u32,
        section,
        external,
    })
}

fn add_word(alloc: Global, object: &mut Object, word: &[u8]) -> Result<(), AllocError> {
    match word {
        [] => {}
        [b'+'] => object.sections.push(section(alloc, false))?,
        [b'*'] => object.sections.push(section(alloc, true))?,
        [mark @ (b'!' | b'?'), number] => object.hybrid.push(HybridRow {
            source: digit(*number) as u32,
            thunk: 0,
            kind: if *mark == b'!' { 1 } else { 0 },
        })?,
        _ => {
            let number = object.symbols.len();
            object.symbols.push(symbol(alloc, word, number)?)?;
        }
    }
    Ok(())
}

fn object_of(alloc: Global, text: &[u8]) -> Result<Object, AllocError> {
    let mut object = Object {
        machine: ObjMachine::Arm64Ec,
        sections: Items::new(alloc),
        symbols: Items::new(alloc),
        hybrid: Items::new(alloc),
    };
    for word in text.split(|c| *c == b' ') {
        add_word(alloc, &mut object, word)?;
    }
    Ok(object)
}

fn objects_of(alloc: Global, text: &[u8]) -> Result<Vec<Object>, AllocError> {
    let mut objects = Vec::new(alloc);
    for part in text.split(|c| *c == b'|') {
        objects.push(object_of(alloc, part)?)?;
    }
    Ok(objects)
}

fn show_name(line: &mut String, name: &[u8]) -> Result<(), AllocError> {
    for c in name {
        line.push(*c as char)?;
    }
    Ok(())
}

fn show_place(line: &mut String, place: &NamePlace) -> Result<(), AllocError> {
    line.push(' ')?;
    show_name(line, place.name.as_slice())?;
    line.push(if place.sequence { '~' } else { '=' })?;
    let home = place.home;
    let at = place.at;
    write!(line, "{}.{}+{at}", home.object, home.section)?;
    Ok(())
}

fn show_kept(line: &mut String, answer: &Resolved) -> Result<(), AllocError> {
    for (k, id) in answer.kept.as_slice().iter().enumerate() {
        if k > 0 {
            line.push(' ')?;
        }
        write!(line, "{}.{}", id.object, id.section)?;
    }
    Ok(())
}

fn show_answer(line: &mut String, answer: &Resolved) -> Result<(), AllocError> {
    show_kept(line, answer)?;
    line.push(':')?;
    for place in answer.names.as_slice() {
        show_place(line, place)?;
    }
    Ok(())
}

fn show_refusal(line: &mut String, word: &str, name: &[u8]) -> Result<(), AllocError> {
    line.push_str(word)?;
    line.push(' ')?;
    show_name(line, name)
}

fn told(alloc: Global, text: &[u8]) -> Result<String, AllocError> {
    let objects = objects_of(alloc, text)?;
    let mut line = String::new(alloc);
    if !are_few(&objects) {
        return Ok(line);
    }
    match resolve(alloc, &objects) {
        Ok(answer) => show_answer(&mut line, &answer)?,
        Err(LinkRefusal::Undefined(name)) => show_refusal(&mut line, "Undefined", name.as_slice())?,
        Err(LinkRefusal::Duplicate(name)) => show_refusal(&mut line, "Duplicate", name.as_slice())?,
        Err(LinkRefusal::BothSides(name)) => show_refusal(&mut line, "BothSides", name.as_slice())?,
        Err(LinkRefusal::NoEntryThunk(name)) => show_refusal(
            &mut line,
            "NoEntryThunk",
            name.as_slice(),
        )?,
        Err(LinkRefusal::NoMain) => line.push_str("NoMain")?,
        Err(LinkRefusal::NoMemory) => return Err(AllocError),
    }
    Ok(line)
}

#[test]
fn little_lists(rt: HostRuntime) -> Result<(), Fail> {
    for (text, want) in &CASES {
        let line = told(rt.alloc(), text)?;
        assert!(rt; line.as_str() == *want, "at {text:?}");
    }
    Ok(())
}
