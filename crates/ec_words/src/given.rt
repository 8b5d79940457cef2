//! The positional words and the values of options that were given.

/// The positional words, and the value of each option that is there.
#[derive(Clone, Copy)]
pub struct Given<'m, 'a> {
    /// The positional words.
    pub operands: Option<&'m [&'a str]>,
    /// `-o`
    pub output: Option<&'a str>,
    /// `-m`
    pub marking: Option<&'a str>,
    /// `--stack`
    pub stack: Option<&'a str>,
    /// `--base`
    pub base: Option<&'a str>,
    /// `--fuel`
    pub fuel: Option<&'a str>,
    /// `--size`
    pub size: Option<&'a str>,
}
