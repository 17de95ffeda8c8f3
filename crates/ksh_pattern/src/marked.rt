//! Bytes that may be quoted.

/// A byte of a pattern, and whether it was quoted, so that it stands for itself.
#[derive(Clone, Copy, Debug, PartialEq, Eq)]
pub struct Marked {
    pub byte: u8,
    pub quoted: bool,
}
