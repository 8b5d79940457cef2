ghost use Rattle.std.specs.Prelude.{◌≡◌};
ghost use Rattle.c_values.specs.Worked.{Numbers};

/// Results worked out by hand: wrapping, division toward 0, the least value by -1, counts of shifts
/// modulo 32 and 64, and bits.
pub fn worked_arithmetic()
    ensures { Numbers }
{}
