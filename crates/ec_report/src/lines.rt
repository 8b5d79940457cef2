//! The lines of reports.

ghost use Rattle.std.specs.Prelude.{◌≡◌, ◌++◌, IfOk, string_bytes};
ghost use Rattle.ec_report.specs.Reports.{outcome_text, unit_text, line_of, named_line, guest_line, meant_line, unit_line, limit_line};

use crate::kinds::{LimitKind, Outcome, UnitRefusal};
use crate::names::{image_name, limit_name, load_name, type_name, why_name};
use crate::reports::Report;
use std::alloc::{AllocError, Global};

/// The text of an outcome, which begins its line.
fn outcome_text(alloc: Global, outcome: Outcome) -> Result<String, AllocError>
    ensures { IfOk result (λ text. string_bytes text ≡ outcome_text outcome) }
{
    match outcome {
        Outcome::Exit(k) => format!(in alloc; "exit {k}"),
        Outcome::Trap(k) => format!(in alloc; "trap {k}"),
        Outcome::Budget => String::from_str(alloc, "budget"),
        Outcome::StackSpent => String::from_str(alloc, "stack spent"),
        Outcome::Stuck(why, pc) => {
            let name = why_name(why);
            format!(in alloc; "stuck {name} at 0x{pc:x}")
        }
    }
}

/// The text of a refused unit, behind the unit's number.
fn unit_text(alloc: Global, refusal: UnitRefusal) -> Result<String, AllocError>
    ensures { IfOk result (λ text. string_bytes text ≡ unit_text refusal) }
{
    match refusal {
        UnitRefusal::BadByte(at) => format!(in alloc; "BadByte at {at}"),
        UnitRefusal::BadNumber(at) => format!(in alloc; "BadNumber at {at}"),
        UnitRefusal::Unclosed(at) => format!(in alloc; "Unclosed at {at}"),
        UnitRefusal::Directive(at) => format!(in alloc; "Directive at {at}"),
        UnitRefusal::Syntax(at) => format!(in alloc; "Syntax at {at}"),
        UnitRefusal::TooDeep => String::from_str(alloc, "TooDeep"),
        UnitRefusal::Typing(kind, at) => {
            let name = type_name(kind);
            format!(in alloc; "{name} at {at}")
        }
    }
}

/// The line of a report that is a word and a name.
fn named_line(alloc: Global, word: &[u8], name: &[u8]) -> Result<Vec<u8>, AllocError>
    ensures { IfOk result (λ text. text.items ≡ named_line word.now name.now) }
{
    let mut text = Vec::from_slice(alloc, word)?;
    text.extend_from_slice(name)?;
    text.push(b'\n')?;
    Ok(text)
}

/// The line of the run of a guest.
fn guest_line(alloc: Global, outcome: Outcome) -> Result<Vec<u8>, AllocError>
    ensures { IfOk result (λ text. text.items ≡ guest_line outcome) }
{
    let text = outcome_text(alloc, outcome)?;
    let text = text.as_str();
    Ok(format!(in alloc; "{text}\n")?.into_bytes())
}

/// The line of the run of a source.
fn meant_line(alloc: Global, outcome: Outcome, units: u64, peak: u64) -> Result<Vec<u8>, AllocError>
    ensures { IfOk result (λ text. text.items ≡ meant_line outcome units peak) }
{
    let text = outcome_text(alloc, outcome)?;
    let text = text.as_str();
    Ok(format!(in alloc; "{text} units {units} peak {peak}\n")?.into_bytes())
}

/// The line of a refused unit.
fn unit_line(alloc: Global, unit: u32, refusal: UnitRefusal) -> Result<Vec<u8>, AllocError>
    ensures { IfOk result (λ text. text.items ≡ unit_line unit refusal) }
{
    let text = unit_text(alloc, refusal)?;
    let text = text.as_str();
    Ok(format!(in alloc; "unit {unit}: {text}\n")?.into_bytes())
}

/// The line of a limit that is passed.
fn limit_line(alloc: Global, which: LimitKind, count: u64) -> Result<Vec<u8>, AllocError>
    ensures { IfOk result (λ text. text.items ≡ limit_line which count) }
{
    let name = limit_name(which);
    Ok(format!(in alloc; "limit {name} {count}\n")?.into_bytes())
}

/// The line of a report, its line feed included. Refused where memory runs out.
pub fn line(alloc: Global, report: &Report) -> Result<Vec<u8>, AllocError>
    ensures { IfOk result (λ text. text.items ≡ line_of report.now) }
{
    match report {
        Report::Guest(outcome) => guest_line(alloc, *outcome),
        Report::Meant {
            outcome,
            units,
            peak,
        } => meant_line(alloc, *outcome, *units, *peak),
        Report::Unit(unit, refusal) => unit_line(alloc, *unit, *refusal),
        Report::Limit(which, count) => limit_line(alloc, *which, *count),
        Report::Image(why) => named_line(alloc, b"image: ", image_name(*why).as_bytes()),
        Report::Load(why) => named_line(alloc, b"load: ", load_name(why).as_bytes()),
        Report::Built => Vec::from_slice(alloc, b"built\n"),
        Report::Checked => Vec::from_slice(alloc, b"checked\n"),
        Report::Generated => Vec::from_slice(alloc, b"generated\n"),
        Report::Compared => Vec::from_slice(alloc, b"compared\n"),
        Report::Usage => Vec::from_slice(alloc, b"usage\n"),
        Report::Mark(name) => named_line(alloc, b"mark ", name),
        Report::Missing(name) => named_line(alloc, b"missing ", name),
        Report::NotBuilt => Vec::from_slice(alloc, b"not built\n"),
        Report::StoreFault => Vec::from_slice(alloc, b"store fault\n"),
        Report::ReadFault => Vec::from_slice(alloc, b"read fault\n"),
        Report::WriteFault => Vec::from_slice(alloc, b"write fault\n"),
        Report::NoMemory => Vec::from_slice(alloc, b"no memory\n"),
    }
}
