//! What rules are made of, and what is left to read.

/// One place in a rule: a token that a terminal takes, a part with rules of its own, a part that stands inside
/// one more opening, or an action on what was read so far.
#[derive(Clone, Copy, Debug, PartialEq, Eq)]
pub enum Place<C, P, M> {
    Token(C),
    Part(P),
    Inside(P),
    Make(M),
}

/// What is left to read: a token, a part that stands inside so many openings, or an action.
#[derive(Clone, Copy, Debug, PartialEq, Eq)]
pub enum Symbol<C, P, M> {
    Token(C),
    Part(P, u8),
    Make(M),
}
