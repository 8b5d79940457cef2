use ec_report::{LimitKind, UnitRefusal};

/// Why units are no program within the limits.
#[derive(Debug, PartialEq, Eq, Drop)]
pub enum UnitsRefusal {
    /// The store has no file of this name.
    Missing(Vec<u8>),
    /// A count passes its limit, with the count.
    Limit(LimitKind, u64),
    /// The unit of this number, from 0, is refused.
    Unit(u32, UnitRefusal),
    /// The store failed.
    StoreFault,
    /// Memory ran out.
    NoMemory,
}
