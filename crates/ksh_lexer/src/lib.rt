//! The tokens of a script's text, one at a time, each under the mode that says what it stands in.
#![tactic(auto)]

mod bracket;
mod count;
mod end_line;
mod fault;
mod here;
mod kind;
mod laws;
mod lex;
mod lexer;
mod mode;
mod names;
mod outer;
mod parameter;
mod piece;
mod scan;
mod table;
mod unquote;

pub use end_line::{end_word, is_quoted};
pub use fault::{SyntaxFault, SyntaxKind};
pub use here::{Body, HereDocument};
pub use kind::{Descriptor, Form, Operator, Redirection, Token, TokenKind};
pub use laws::{longest_operator, one_answer, spells};
pub use lexer::{LONGEST_TEXT, Lexer};
pub use mode::{BraceEnd, LexMode};
pub use names::is_path;
pub use unquote::ansi_text;
