//! Words and what they are, worked out by hand from the table of commands.

use ec_words::{BaseMarking, Marking, number, read_command, sides_of};
use std::alloc::{AllocError, Global};
use std::test::Fail;

fn words_of(alloc: Global, line: &[&str]) -> Result<Vec<String>, AllocError> {
    let mut words = Vec::new(alloc);
    for word in line {
        words.push(String::from_str(alloc, word)?)?;
    }
    Ok(words)
}

/// What the words are.
fn told(alloc: Global, line: &[&str]) -> Result<String, AllocError> {
    let words = words_of(alloc, line)?;
    match read_command(alloc, &words)? {
        Some(command) => format!(in alloc; "{command:?}"),
        None => String::from_str(alloc, "none"),
    }
}

/// Words, and what they are.
static COMMANDS: [(&[&str], &str); 12] = [
    (
        &["check", "a.c", "b.c"],
        r#"Check { units: ["a.c", "b.c"] }"#,
    ),
    (
        &["interp", "p.c"],
        r#"Interp { units: ["p.c"], fuel: 100000000 }"#,
    ),
    (
        &["interp", "p.c", "--fuel", "0xE8D4A51000"],
        r#"Interp { units: ["p.c"], fuel: 1000000000000 }"#,
    ),
    (
        &["compile", "c.c", "-m", "alt", "-o", "q"],
        r#"Compile { units: ["c.c"], stem: "q", marking: Marking { base: Alternate, turned: [] } }"#,
    ),
    (
        &["link", "q.0.ec.obj", "-o", "p.img", "--stack", "65537"],
        r#"Link { objects: ["q.0.ec.obj"], image: "p.img", stack: 69632 }"#,
    ),
    (
        &[
            "build",
            "p.c",
            "--stack",
            "0268435456",
            "-o",
            "p.img",
            "-m",
            "x64,a,,a",
        ],
        r#"Build { units: ["p.c"], image: "p.img", marking: Marking { base: X64, turned: [[97], [], [97]] }, stack: 268435456 }"#,
    ),
    (
        &[
            "run",
            "p.img",
            "--base",
            "18446744073709551615",
            "--fuel",
            "0",
        ],
        r#"Run { image: "p.img", base: 18446744073709551615, fuel: 0 }"#,
    ),
    (
        &["exec", "p.c", "-o", "p.img"],
        r#"Exec { units: ["p.c"], image: "p.img", marking: Marking { base: X64, turned: [] }, stack: 1048576, base: 5368709120, fuel: 100000000 }"#,
    ),
    (
        &["exec", "p.c", "-m", "b5,", "-o", "p.img", "--fuel", "1"],
        r#"Exec { units: ["p.c"], image: "p.img", marking: Marking { base: Pattern(5), turned: [[]] }, stack: 1048576, base: 5368709120, fuel: 1 }"#,
    ),
    (&["gen", "1"], "Gen { number: 1, size: 200 }"),
    (
        &["gen", "0x0fF", "--size", "0x3e8"],
        "Gen { number: 255, size: 1000 }",
    ),
    (
        &["many", "1", "-o", "q"],
        r#"Many { number: 1, stem: "q" }"#,
    ),
];

#[test]
fn commands(rt: HostRuntime) -> Result<(), Fail> {
    for (line, wanted) in &COMMANDS {
        let text = told(rt.alloc(), line)?;
        assert!(rt; text.as_str() == *wanted, "{line:?}");
    }
    Ok(())
}

/// Words that are no command.
static NO_COMMANDS: [&[&str]; 48] = [
    // no command
    &[],
    &[""],
    &["checks", "p.c"],
    &["Check", "p.c"],
    &["--fuel", "5"],
    // a count of positional words
    &["check"],
    &["run", "a", "b"],
    &["gen"],
    &["gen", "1", "2"],
    &["many", "-o", "q"],
    // a positional word or a value that is empty or begins with a hyphen
    &["check", ""],
    &["check", "p.c", ""],
    &["check", "-p.c"],
    &["check", "p.c", "-"],
    &["link", "a", "-o", ""],
    &["link", "a", "-o", "-p"],
    &["run", "p.img", "--fuel", "-1"],
    // an option that is none of the command's, or isn't in the form of two words
    &["check", "p.c", "--fuel", "5"],
    &["interp", "p.c", "-o", "q"],
    &["run", "p.img", "--fuel=5"],
    &["build", "p.c", "-op.img"],
    &["link", "a", "-o", "p", "-m", "x64"],
    &["gen", "1", "--seed", "5"],
    &["run", "p.img", "--help"],
    // options that are missing, have no value, stand twice or before a positional word
    &["build", "p.c"],
    &["many", "1"],
    &["build", "p.c", "-o"],
    &["build", "-o", "p.img", "p.c"],
    &["build", "p.c", "-o", "p.img", "q.c"],
    &["run", "p.img", "--fuel", "5", "--fuel", "5"],
    &["run", "p.img", "--", "5"],
    // numbers
    &["run", "p.img", "--base", "0x"],
    &["run", "p.img", "--base", "0X10"],
    &["run", "p.img", "--base", "1g"],
    &["run", "p.img", "--base", "+1"],
    &["run", "p.img", "--base", "18446744073709551616"],
    &["run", "p.img", "--base", "0x10000000000000000"],
    &["gen", "x"],
    // ranges
    &["run", "p.img", "--fuel", "1000000000001"],
    &["link", "a", "-o", "p", "--stack", "65535"],
    &["link", "a", "-o", "p", "--stack", "268435457"],
    &["gen", "1", "--size", "0"],
    &["gen", "1", "--size", "1001"],
    // bases of a marking
    &["build", "p.c", "-o", "p.img", "-m", "b8"],
    &["build", "p.c", "-o", "p.img", "-m", ",x64"],
    &["build", "p.c", "-o", "p.img", "-m", "X64"],
    &["build", "p.c", "-o", "p.img", "-m", "b"],
    &["build", "p.c", "-o", "p.img", "-m", "b07"],
];

#[test]
fn no_commands(rt: HostRuntime) -> Result<(), Fail> {
    for line in &NO_COMMANDS {
        let text = told(rt.alloc(), line)?;
        assert!(rt; text.as_str() == "none", "{line:?}");
    }
    Ok(())
}

static NUMBERS: [(&str, Option<u64>); 11] = [
    ("0", Some(0)),
    ("0x0", Some(0)),
    ("0000000000000000000000010", Some(10)),
    ("0x00aF", Some(175)),
    ("18446744073709551615", Some(u64::MAX)),
    ("0xFFFFFFFFFFFFFFFF", Some(u64::MAX)),
    ("18446744073709551616", None),
    ("", None),
    ("x", None),
    ("0x0x1", None),
    ("1 ", None),
];

#[test]
fn numbers(rt: HostRuntime) {
    for (word, wanted) in &NUMBERS {
        assert!(rt; number(word) == *wanted, "{word}");
    }
}

fn names_of(alloc: Global, names: &[&str]) -> Result<Vec<Vec<u8>>, AllocError> {
    let mut turned = Vec::new(alloc);
    for name in names {
        turned.push(Vec::from_slice(alloc, name.as_bytes())?)?;
    }
    Ok(turned)
}

static DEFINED: [&[u8]; 5] = [b"a", b"b", b"c", b"d", b"main"];

/// The sides of five functions under a marking.
fn sides(alloc: Global, base: BaseMarking, names: &[&str]) -> Result<String, AllocError> {
    let turned = names_of(alloc, names)?;
    let marking = Marking { base, turned };
    let sides = sides_of(alloc, &marking, &DEFINED);
    format!(in alloc; "{sides:?}")
}

/// A marking, and the sides.
static MARKINGS: [(BaseMarking, &[&str], &str); 9] = [
    (BaseMarking::X64, &[], "Ok([X64, X64, X64, X64, X64])"),
    (BaseMarking::Ec, &["b"], "Ok([Ec, X64, Ec, Ec, Ec])"),
    (BaseMarking::Alternate, &[], "Ok([X64, Ec, X64, Ec, X64])"),
    (
        BaseMarking::Pattern(0),
        &[],
        "Ok([X64, X64, X64, X64, X64])",
    ),
    (BaseMarking::Pattern(1), &[], "Ok([Ec, X64, X64, Ec, X64])"),
    (BaseMarking::Pattern(6), &[], "Ok([X64, Ec, Ec, X64, Ec])"),
    (
        BaseMarking::Pattern(7),
        &["main", "a", "main"],
        "Ok([X64, Ec, Ec, Ec, X64])",
    ),
    (
        BaseMarking::X64,
        &["a", "e", "b", "x"],
        "Err(Unknown([101]))",
    ),
    (BaseMarking::X64, &[""], "Err(Unknown([]))"),
];

#[test]
fn sides_of_markings(rt: HostRuntime) -> Result<(), Fail> {
    for (base, turned, wanted) in &MARKINGS {
        let text = sides(rt.alloc(), *base, turned)?;
        assert!(rt; text.as_str() == *wanted, "{turned:?}");
    }
    Ok(())
}
