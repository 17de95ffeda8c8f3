//! Redirections.
ghost use Rattle.std.specs.Prelude.{◌≡◌, IfOk, MatchOption, false, nat_lt};
ghost use Rattle.ksh_ast.specs.declared.redirect.RedirectTo.TheVariants as to;
ghost use Rattle.tree_parts.specs.Parts.{descriptor_name, is_descriptor, redirect_form, redirect_to};

use crate::names::name_of;
use ksh_ast::{Digit, RedirectForm, RedirectTo};
use ksh_base::Memory;
use ksh_lexer::{Descriptor, Redirection};
use std::alloc::Global;

/// The form of a redirection by its operator; nothing for those of here-documents.
pub fn redirect_form(operator: Redirection) -> Option<RedirectForm>
    ensures { result ≡ redirect_form operator }
{
    match operator {
        Redirection::HereString => Some(RedirectForm::HereString),
        Redirection::ReadWrite => Some(RedirectForm::ReadWrite),
        Redirection::CopyInput => Some(RedirectForm::DupInput),
        Redirection::Input => Some(RedirectForm::Read),
        Redirection::Clobber => Some(RedirectForm::Clobber),
        Redirection::Append => Some(RedirectForm::Append),
        Redirection::CopyOutput => Some(RedirectForm::DupOutput),
        Redirection::Output => Some(RedirectForm::Write),
        _ => None,
    }
}

/// The descriptor of a digit's value; nothing exactly where it has two digits.
#[tactic(auto, using(crate::proofs::Pieces::digit_read, crate::proofs::Pieces::no_digit))]
fn digit_to(number: u8) -> Option<RedirectTo>
    ensures { MatchOption result (nat_lt number 10 ≡ false) (λ t. t ≡ to.Digit number) }
{
    if number < 10 {
        return match Digit::read(b'0' + number) {
            Some(digit) => Some(RedirectTo::Digit(digit)),
            None => None,
        };
    }
    None
}

/// The name of an operator's descriptor, which ends at that place of the script.
fn descriptor_name(end: usize, from: usize, bytes: &[u8]) -> &[u8]
    ensures { result.now ≡ descriptor_name end from bytes.now }
{
    let count = end.saturating_sub(from).saturating_sub(1);
    match bytes.split_first() {
        Some((_, behind)) => &behind[..count.min(behind.len())],
        None => b"",
    }
}

/// The descriptor of an operator, whose token has these bytes from that place of the script on; nothing exactly where they
/// name none.
pub fn redirect_to(
    alloc: Global,
    descriptor: Descriptor,
    from: usize,
    bytes: &[u8],
) -> Result<Option<RedirectTo>, Memory>
    ensures { IfOk result (λ o. MatchOption o (is_descriptor descriptor from bytes.now ≡ false) (λ t. t ≡ redirect_to descriptor from bytes.now)) }
{
    match descriptor {
        Descriptor::Default => Ok(Some(RedirectTo::Usual)),
        Descriptor::Digit(number) => Ok(digit_to(number)),
        Descriptor::Named(end) => match name_of(alloc, descriptor_name(end, from, bytes))? {
            Some(name) => Ok(Some(RedirectTo::Var(name))),
            None => Ok(None),
        },
    }
}
