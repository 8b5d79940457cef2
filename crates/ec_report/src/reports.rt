//! Reports and their statuses.

ghost use Rattle.std.specs.Prelude.{◌≡◌};
ghost use Rattle.ec_report.specs.Reports.{outcome_status, status_number};

use crate::kinds::{ImageRefusal, LimitKind, LoadRefusal, Outcome, UnitRefusal};

/// What a command answers.
#[derive(Debug, PartialEq, Eq, Drop)]
pub enum Report {
    /// Objects or an image were built and saved.
    Built,
    /// The units are a program.
    Checked,
    /// The text of a number was put.
    Generated,
    /// The images of a number were run.
    Compared,
    /// The guest ran, and ended so.
    Guest(Outcome),
    /// The source's meaning ran, and ended so, with the units paid and the greatest stack in bytes.
    Meant {
        outcome: Outcome,
        units: u64,
        peak: u64,
    },
    /// The words are no command.
    Usage,
    /// The unit of this number, from 0, is refused.
    Unit(u32, UnitRefusal),
    /// A count passes its limit, with the count.
    Limit(LimitKind, u64),
    /// The marking names what no unit defines.
    Mark(Vec<u8>),
    /// The file isn't an image.
    Image(ImageRefusal),
    /// The image isn't loaded.
    Load(LoadRefusal),
    /// The store has no file of this name.
    Missing(Vec<u8>),
    /// The unit is none that this version builds.
    NotBuilt,
    /// The store failed.
    StoreFault,
    /// The guest's input failed.
    ReadFault,
    /// Standard output or standard error failed.
    WriteFault,
    /// Memory ran out.
    NoMemory,
}

/// The exit status that an outcome gives a report.
fn outcome_status(outcome: Outcome) -> u8
    ensures { result ≡ outcome_status outcome }
{
    match outcome {
        Outcome::Exit(_) => 0,
        Outcome::Trap(_) => 10,
        Outcome::Budget => 11,
        Outcome::StackSpent => 12,
        Outcome::Stuck(_, _) => 13,
    }
}

/// The exit status of a report: the project's own numbers, by the table of reports.
pub fn status_of(report: &Report) -> u8
    ensures { result ≡ status_number report.now }
{
    match report {
        Report::Built => 0,
        Report::Checked => 0,
        Report::Generated => 0,
        Report::Compared => 0,
        Report::Guest(outcome) => outcome_status(*outcome),
        Report::Meant { outcome, .. } => outcome_status(*outcome),
        Report::Usage => 2,
        Report::Unit(_, _) => 20,
        Report::Limit(_, _) => 21,
        Report::Mark(_) => 22,
        Report::Image(_) => 25,
        Report::Load(_) => 26,
        Report::Missing(_) => 27,
        Report::NotBuilt => 29,
        Report::StoreFault => 30,
        Report::ReadFault => 31,
        Report::WriteFault => 32,
        Report::NoMemory => 33,
    }
}
