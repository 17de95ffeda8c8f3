use thiserror::Error;

/// Why an expression has no value.
#[derive(Clone, Copy, Debug, PartialEq, Eq, Error)]
pub enum NumFault {
    #[error("divide by zero")]
    DivideByZero,
    #[error("negative exponent")]
    NegativeExponent,
    /// A variable's text is no expression, from that byte on.
    #[error("not a number")]
    NotANumber(usize),
    /// Too many texts are read inside one another, or an expression has too many levels.
    #[error("arithmetic too deep")]
    TooDeep,
}

/// Why an evaluation stopped. `E` is what the variables refuse with.
#[derive(Debug, Drop)]
pub enum ArithFault<E> {
    /// The expression has no value.
    Value(NumFault),
    /// A variable was refused.
    Var(E),
    /// Memory ran out.
    Memory,
}

/// Why a text is no expression.
#[derive(Clone, Copy, Debug, PartialEq, Eq, Error)]
pub enum ArithRefused {
    /// The first byte, or the end, at which no expression goes on.
    #[error("no expression goes on at byte {0}")]
    Bad(usize),
    /// The token past which the expression has more than 256 levels.
    #[error("too many levels at byte {0}")]
    TooDeep(usize),
    #[error("out of memory")]
    Memory,
}
