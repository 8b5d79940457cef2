/// How a run of a program stands.
#[derive(Clone, Copy, Debug, PartialEq, Eq)]
pub enum SourceEnd {
    /// It ended with this status.
    Exit(u8),
    /// It broke the rule of this number: 241 an index, 242 null, 243 a division by zero, 244 an extra
    /// argument that isn't there.
    Trap(u8),
    /// The units left don't pay what comes next.
    Running,
}
