//! A law of the lines, over every two reports. It takes no step.

ghost use Rattle.std.specs.Prelude.{◌≡◌};
ghost use Rattle.ec_report.specs.declared.reports.Report.{Report};
ghost use Rattle.ec_report.specs.Reports.{line_of, status_number};

/// Whoever reads a line knows the status.
pub fn lines_tell_statuses()
    ensures { (r s : Report) → line_of r ≡ line_of s → status_number r ≡ status_number s }
{}
