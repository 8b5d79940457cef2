/// What a machine says to a token.
#[derive(Drop)]
pub enum Answer<S, D> {
    /// It took the token, and is in this state.
    More(S),
    /// Its part of the text is this, and ended before the token.
    Done(D),
    /// No text goes on so.
    Bad,
}

/// What a machine that changes its state in place says to a token.
#[derive(Drop)]
pub enum Verdict<D> {
    /// It took the token.
    More,
    /// Its part of the text is this, and ended before the token.
    Done(D),
    /// No text goes on so.
    Bad,
}
