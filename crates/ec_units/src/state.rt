ghost use Rattle.std.specs.Prelude.{◌≤◌};

use c_tree::Unit;

/// The units so far, the bytes of each, how many these are, and the longest identifier.
#[derive(Drop)]
pub struct Loaded {
    pub units: Vec<Unit>,
    pub sources: Vec<Vec<u8>>,
    pub bytes: u64,
    pub longest_name: u64,
    ghost within: { bytes ≤ 4194304 },
}
