//! Lines and statuses that no command shows, written out by hand.

use ec_report::{Outcome, Report, StuckWhy, line, status_of};
use std::process::Abort;
use std::test::Fail;

/// What a report's line and its status are to be.
fn told<R: Abort + AllocGlobal>(
    rt: &R,
    report: &Report,
    text: &str,
    status: u8,
) -> Result<(), Fail> {
    assert!(rt; status_of(report) == status, "status of {text}");
    let line = line(rt.alloc(), report)?;
    assert!(rt; line.as_slice() == text.as_bytes(), "line {text}");
    Ok(())
}

#[test]
fn reports(rt: HostRuntime) -> Result<(), Fail> {
    told(&rt, &Report::Built, "built\n", 0)?;
    told(&rt, &Report::Compared, "compared\n", 0)?;
    told(&rt, &Report::NoMemory, "no memory\n", 33)?;
    let stuck = Outcome::Stuck(StuckWhy::Halt, 0x1_4000_10AF);
    let meant = Report::Meant {
        outcome: stuck,
        units: 3,
        peak: 5408,
    };
    told(
        &rt,
        &meant,
        "stuck Halt at 0x1400010af units 3 peak 5408\n",
        13,
    )
}
