//! Copies of redirections.
ghost use Rattle.std.specs.Prelude.{◌≡◌, IfOk};

use crate::redirect::{Redirect, RedirectForm, RedirectTo};
use crate::tree::Word;
use crate::word_copies::copy_word;
use ksh_base::{Items, Memory};
use std::alloc::Global;

impl RedirectTo {
    pub fn copy(&self, alloc: Global) -> Result<RedirectTo, Memory>
        ensures { IfOk result (λ c. c ≡ self.now) }
    {
        match self {
            RedirectTo::Usual => Ok(RedirectTo::Usual),
            RedirectTo::Digit(digit) => Ok(RedirectTo::Digit(digit.copy())),
            RedirectTo::Var(name) => Ok(RedirectTo::Var(name.copy(alloc)?)),
        }
    }
}

impl RedirectForm {
    pub fn copy(&self, alloc: Global) -> Result<RedirectForm, Memory>
        ensures { IfOk result (λ c. c ≡ self.now) }
    {
        match self {
            RedirectForm::Read => Ok(RedirectForm::Read),
            RedirectForm::Write => Ok(RedirectForm::Write),
            RedirectForm::Clobber => Ok(RedirectForm::Clobber),
            RedirectForm::Append => Ok(RedirectForm::Append),
            RedirectForm::ReadWrite => Ok(RedirectForm::ReadWrite),
            RedirectForm::DupInput => Ok(RedirectForm::DupInput),
            RedirectForm::DupOutput => Ok(RedirectForm::DupOutput),
            RedirectForm::HereString => Ok(RedirectForm::HereString),
            RedirectForm::HereDoc { end } => {
                let end = end.copy(alloc)?;
                Ok(RedirectForm::HereDoc { end })
            }
        }
    }
}

/// Copies of the redirections.
pub fn copy_redirects(
    alloc: Global,
    redirects: &[Redirect<Word>],
) -> Result<Items<Redirect<Word>>, Memory>
    ensures { IfOk result (λ c. c ≡ redirects.now) }
{
    let mut copies = Items::new(alloc);
    for redirect in redirects {
        let to = redirect.to.copy(alloc)?;
        let form = redirect.form.copy(alloc)?;
        let word = copy_word(alloc, &redirect.word)?;
        copies.push(Redirect { to, form, word })?;
    }
    Ok(copies)
}
