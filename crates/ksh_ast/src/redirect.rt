use crate::digit::Digit;
use ksh_base::{Name, Text};

/// A redirection: which descriptor, its operator, and its word.
#[derive(Drop)]
pub struct Redirect<W> {
    pub to: RedirectTo,
    pub form: RedirectForm,
    /// The word after the operator; of a here-document its body.
    pub word: W,
}

/// The descriptor of a redirection.
#[derive(Debug, Drop)]
pub enum RedirectTo {
    /// The operator's own: 0 for those that begin with `<`, else 1.
    Usual,
    /// The digit before the operator.
    Digit(Digit),
    /// `{name}` before the operator.
    Var(Name),
}

/// The operator of a redirection.
#[derive(Debug, Drop)]
pub enum RedirectForm {
    /// `<`
    Read,
    /// `>`
    Write,
    /// `>|`
    Clobber,
    /// `>>`
    Append,
    /// `<>`
    ReadWrite,
    /// `<&`
    DupInput,
    /// `>&`
    DupOutput,
    /// `<<<`
    HereString,
    /// `<<` or `<<-`. The end word is only for the text of a refusal, and no part of what the script means.
    HereDoc { end: Text },
}
