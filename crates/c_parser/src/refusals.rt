use thiserror::Error;

/// Why tokens aren't parsed.
#[derive(Clone, Copy, Debug, PartialEq, Eq, Error)]
pub enum ParseRefusal {
    /// No unit has these tokens: the start of the first token such that no unit's tokens begin with
    /// those up to it, or the end of the last token where there is no such token.
    #[error("byte {0}: no unit goes on so")]
    Syntax(u32),
    /// A unit has these tokens, and its tree is higher than 256 nodes.
    #[error("the tree is higher than 256 nodes")]
    TooDeep,
    #[error("out of memory")]
    NoMemory,
}
