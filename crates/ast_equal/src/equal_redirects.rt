//! Whether two redirections are equal, one level at a time.
ghost use Rattle.std.specs.Prelude.{◌≡◌, ◌↔◌, IsTrue, IfOk};
ghost use Rattle.ast_equal.specs.Equal.{ComesTo};

use crate::unsettled::{Sides, Unsettled};
use ksh_ast::{Redirect, RedirectForm, RedirectTo, Word};
use ksh_base::Memory;

fn targets_equal(left: &RedirectTo, right: &RedirectTo) -> bool
    ensures { IsTrue result ↔ (left.now ≡ right.now) }
{
    match left {
        RedirectTo::Usual => match right {
            RedirectTo::Usual => true,
            _ => false,
        },
        RedirectTo::Digit(left) => match right {
            RedirectTo::Digit(right) => left.number() == right.number(),
            _ => false,
        },
        RedirectTo::Var(left) => match right {
            RedirectTo::Var(right) => left == right,
            _ => false,
        },
    }
}

fn operators_equal(left: &RedirectForm, right: &RedirectForm) -> bool
    ensures { IsTrue result ↔ (left.now ≡ right.now) }
{
    match left {
        RedirectForm::Read => matches!(right, RedirectForm::Read),
        RedirectForm::Write => matches!(right, RedirectForm::Write),
        RedirectForm::Clobber => matches!(right, RedirectForm::Clobber),
        RedirectForm::Append => matches!(right, RedirectForm::Append),
        RedirectForm::ReadWrite => matches!(right, RedirectForm::ReadWrite),
        RedirectForm::DupInput => matches!(right, RedirectForm::DupInput),
        RedirectForm::DupOutput => matches!(right, RedirectForm::DupOutput),
        RedirectForm::HereString => matches!(right, RedirectForm::HereString),
        RedirectForm::HereDoc { end: left } => match right {
            RedirectForm::HereDoc { end: right } => left == right,
            _ => false,
        },
    }
}

pub fn compare_redirects<'a>(
    left: &'a [Redirect<Word>],
    right: &'a [Redirect<Word>],
    unsettled: &mut Unsettled<'a>,
) -> Result<bool, Memory>
    ensures { IfOk result (λ same. ComesTo (left.now ≡ right.now) unsettled.old same unsettled.new) }
{
    let Some((left_first, left_rest)) = left.split_first() else {
        return Ok(right.is_empty());
    };
    let Some((right_first, right_rest)) = right.split_first() else {
        return Ok(false);
    };
    unsettled.push(Sides::Redirects(left_rest, right_rest))?;
    compare_redirect(left_first, right_first, unsettled)
}

fn compare_redirect<'a>(
    left: &'a Redirect<Word>,
    right: &'a Redirect<Word>,
    unsettled: &mut Unsettled<'a>,
) -> Result<bool, Memory>
    ensures { IfOk result (λ same. ComesTo (left.now ≡ right.now) unsettled.old same unsettled.new) }
{
    unsettled.push(Sides::Pieces(left.word.as_slice(), right.word.as_slice()))?;
    Ok(targets_equal(&left.to, &right.to) && operators_equal(&left.form, &right.form))
}
