use arith_tree::ArithPath;
use ksh_base::Text;

/// What is asked of a variable.
#[derive(Clone, Copy, Debug, PartialEq, Eq)]
pub enum VarAsk {
    /// Its number, or its text.
    Read,
    /// That it is given the number.
    Write(i64),
    /// The path with its subscripts evaluated, so that they are evaluated once.
    Settle,
}

/// What a variable answers. What it answers to `Write` isn't looked at; a path in answer to `Read` stands for an
/// unset variable, and anything else in answer to `Settle` for the path as it was.
#[derive(Debug, Drop)]
pub enum VarAnswer {
    /// The number of an integer variable.
    Number(i64),
    /// The text of any other variable; empty where it is unset.
    Plain(Text),
    /// The path with its subscripts evaluated.
    Settled(ArithPath),
}
