//! Parameters and what is made of them.
ghost use Rattle.std.specs.Prelude.{◌≡◌, IfOk, MatchOption, false};
ghost use Rattle.tree_parts.specs.Parts.{formed, is_param, plain_form, replacing, simple_param};

use crate::asked::Asked;
use crate::names::{name_of, starts_name};
use ksh_ast::{ParamForm, ParamOf, Replaced, TreePath, Word};
use ksh_base::{Items, Memory, Text};
use ksh_lexer::Form;
use std::alloc::Global;

/// The parameter whose bytes stand behind a `$`; nothing exactly where they begin like a name and are none.
pub fn simple_param(alloc: Global, bytes: &[u8]) -> Result<Option<ParamOf>, Memory>
    ensures { IfOk result (λ o. MatchOption o (is_param bytes.now ≡ false) (λ p. p ≡ simple_param bytes.now)) }
{
    let begins = match bytes.split_first() {
        Some((first, _)) => starts_name(*first),
        None => false,
    };
    if begins {
        return match name_of(alloc, bytes)? {
            Some(name) => Ok(Some(ParamOf::Var(TreePath {
                name,
                parts: Items::new(alloc),
            }))),
            None => Ok(None),
        };
    }
    Ok(Some(ParamOf::Special(Text::of(alloc, bytes)?)))
}

/// What is made of a parameter without a form.
pub fn plain_form(asked: Asked) -> ParamForm
    ensures { result ≡ plain_form asked }
{
    match asked {
        Asked::Value => ParamForm::Plain,
        Asked::Length => ParamForm::Length,
        Asked::Target => ParamForm::Target,
    }
}

/// A replacement: the last of its texts is the pattern where there is no other.
fn replacing(alloc: Global, which: Replaced, first: Option<Word>, word: Word) -> ParamForm
    ensures { result ≡ replacing which first word }
{
    match first {
        Some(pattern) => ParamForm::Replace {
            which,
            pattern,
            with: word,
        },
        None => ParamForm::Replace {
            which,
            pattern: word,
            with: Items::new(alloc),
        },
    }
}

/// What a form makes with its texts, of which `word` is the last; nothing where it takes no other.
pub fn formed(alloc: Global, form: Form, first: Option<Word>, word: Word) -> Option<ParamForm>
    ensures { result ≡ formed form first word }
{
    match (form, first) {
        (Form::Instead { colon }, None) => Some(ParamForm::Instead { colon, word }),
        (Form::Assign { colon }, None) => Some(ParamForm::Assign { colon, word }),
        (Form::Fault { colon }, None) => Some(ParamForm::Fault { colon, word }),
        (Form::Other { colon }, None) => Some(ParamForm::Other { colon, word }),
        (Form::Cut { tail, longest }, None) => Some(ParamForm::Cut {
            tail,
            longest,
            pattern: word,
        }),
        (Form::Slice, None) => Some(ParamForm::Slice {
            from: word,
            count: None,
        }),
        (Form::Slice, Some(from)) => Some(ParamForm::Slice {
            from,
            count: Some(word),
        }),
        (Form::ReplaceFirst, first) => Some(replacing(alloc, Replaced::First, first, word)),
        (Form::ReplaceAll, first) => Some(replacing(alloc, Replaced::All, first, word)),
        (Form::ReplaceFront, first) => Some(replacing(alloc, Replaced::Front, first, word)),
        (Form::ReplaceTail, first) => Some(replacing(alloc, Replaced::Tail, first, word)),
        _ => None,
    }
}
