//! Where an image may stand.

ghost use Rattle.std.specs.Prelude.{◌≡◌};
ghost use Rattle.machine_rules.specs.Loads.{base_allowed};

/// An image ends by this address, which keeps it below the stack.
const HIGHEST_END: u64 = 1 << 46;
/// The granularity of bases, and the least one.
const BASE_STEP: u64 = 65_536;

/// Whether an image of `size` bytes may stand at a base: a multiple of 65,536, at least 65,536, from
/// which it ends by 2^46.
pub fn base_ok(size: u32, base: u64) -> bool
    ensures { result ≡ base_allowed size base }
{
    base % BASE_STEP == 0 && base >= BASE_STEP && base <= HIGHEST_END - size as u64
}
