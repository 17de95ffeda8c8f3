//! Why a text gives no tree.
use ksh_lexer::SyntaxFault;
use thiserror::Error;

/// Why a text gives no tree.
#[derive(Clone, Copy, Debug, PartialEq, Eq, Error)]
pub enum Unparsed {
    /// The text's first fault.
    #[error("syntax fault at line {}, byte {}", .0.place.line, .0.place.byte)]
    Fault(SyntaxFault),
    #[error("out of memory")]
    Memory,
}
