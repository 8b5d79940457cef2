//! How an object counts its faults.
ghost use Rattle.std.specs.Prelude.{◌≡◌, ◌≤◌};
ghost use Rattle.hx_words.specs.Counts.{most_faults};
ghost use Rattle.hx_io.specs.Faults.{counted};

/// The count of faults after a call that failed or not. It stops at 2^64 - 1.
pub(crate) fn faults_after(faults: u64, failed: bool) -> u64
    ensures counts { result ≡ counted faults failed }
    ensures rises { faults ≤ result }
    ensures bounded { result ≤ most_faults }
{
    if failed {
        faults.saturating_add(1)
    } else {
        faults
    }
}
