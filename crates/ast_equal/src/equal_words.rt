//! Whether two words are equal, one level at a time.
ghost use Rattle.std.specs.Prelude.{◌≡◌, IfOk};
ghost use Rattle.ast_equal.specs.Equal.{ComesTo};
ghost use Rattle.ksh_ast.specs.declared.tree.Piece.TheVariants.{Literal, Expand, Subst, Number};

use crate::equal_forms::compare_form;
use crate::unsettled::{Sides, Unsettled};
use ksh_ast::{Arith, List, Param, ParamOf, Piece, SubstKind, TreePart, TreePath, Word};
use ksh_base::{Memory, Text};

pub fn compare_pieces<'a>(
    left: &'a [Piece],
    right: &'a [Piece],
    unsettled: &mut Unsettled<'a>,
) -> Result<bool, Memory>
    ensures { IfOk result (λ same. ComesTo (left.now ≡ right.now) unsettled.old same unsettled.new) }
{
    let Some((left_first, left_rest)) = left.split_first() else {
        return Ok(right.is_empty());
    };
    let Some((right_first, right_rest)) = right.split_first() else {
        return Ok(false);
    };
    unsettled.push(Sides::Pieces(left_rest, right_rest))?;
    compare_piece(left_first, right_first, unsettled)
}

fn compare_piece<'a>(
    left: &'a Piece,
    right: &'a Piece,
    unsettled: &mut Unsettled<'a>,
) -> Result<bool, Memory>
    ensures { IfOk result (λ same. ComesTo (left.now ≡ right.now) unsettled.old same unsettled.new) }
{
    match left {
        Piece::Literal { text, quoted } => literal_equals(text, quoted, right, unsettled),
        Piece::Expand { param, quoted } => compare_expand(param, quoted, right, unsettled),
        Piece::Subst { body, kind, quoted } => compare_subst(body, kind, quoted, right, unsettled),
        Piece::Number { text, quoted } => compare_number(text, quoted, right, unsettled),
    }
}

fn literal_equals<'a>(
    text: &'a Text,
    quoted: &'a bool,
    right: &'a Piece,
    unsettled: &mut Unsettled<'a>,
) -> Result<bool, Memory>
    ensures { IfOk result (λ same. ComesTo (Literal text.now quoted.now ≡ right.now) unsettled.old same unsettled.new) }
{
    let Piece::Literal {
        text: right_text,
        quoted: right_quoted,
    } = right
    else {
        return Ok(false);
    };
    Ok(text == right_text && quoted == right_quoted)
}

fn compare_expand<'a>(
    param: &'a Param,
    quoted: &'a bool,
    right: &'a Piece,
    unsettled: &mut Unsettled<'a>,
) -> Result<bool, Memory>
    ensures { IfOk result (λ same. ComesTo (Expand param.now quoted.now ≡ right.now) unsettled.old same unsettled.new) }
{
    let Piece::Expand {
        param: right_param,
        quoted: right_quoted,
    } = right
    else {
        return Ok(false);
    };
    if quoted != right_quoted {
        return Ok(false);
    }
    compare_param(param, right_param, unsettled)
}

fn compare_subst<'a>(
    body: &'a List,
    kind: &'a SubstKind,
    quoted: &'a bool,
    right: &'a Piece,
    unsettled: &mut Unsettled<'a>,
) -> Result<bool, Memory>
    ensures { IfOk result (λ same. ComesTo (Subst body.now kind.now quoted.now ≡ right.now) unsettled.old same unsettled.new) }
{
    let Piece::Subst {
        body: right_body,
        kind: right_kind,
        quoted: right_quoted,
    } = right
    else {
        return Ok(false);
    };
    unsettled.push(Sides::Items(body.get().as_slice(), right_body.get().as_slice()))?;
    Ok(*kind == *right_kind && quoted == right_quoted)
}

fn compare_number<'a>(
    text: &'a Arith,
    quoted: &'a bool,
    right: &'a Piece,
    unsettled: &mut Unsettled<'a>,
) -> Result<bool, Memory>
    ensures { IfOk result (λ same. ComesTo (Number text.now quoted.now ≡ right.now) unsettled.old same unsettled.new) }
{
    let Piece::Number {
        text: right_text,
        quoted: right_quoted,
    } = right
    else {
        return Ok(false);
    };
    if quoted != right_quoted {
        return Ok(false);
    }
    compare_arith(text, right_text, unsettled)
}

pub fn compare_arith<'a>(
    left: &'a Arith,
    right: &'a Arith,
    unsettled: &mut Unsettled<'a>,
) -> Result<bool, Memory>
    ensures { IfOk result (λ same. ComesTo (left.now ≡ right.now) unsettled.old same unsettled.new) }
{
    match left {
        Arith::Parsed(left) => match right {
            Arith::Parsed(right) => {
                unsettled.push(Sides::Expr(left, right))?;
                Ok(true)
            },
            _ => Ok(false),
        },
        Arith::Text(left) => match right {
            Arith::Text(right) => {
                unsettled.push(Sides::Pieces(left.as_slice(), right.as_slice()))?;
                Ok(true)
            },
            _ => Ok(false),
        },
    }
}

fn compare_param<'a>(
    left: &'a Param,
    right: &'a Param,
    unsettled: &mut Unsettled<'a>,
) -> Result<bool, Memory>
    ensures { IfOk result (λ same. ComesTo (left.now ≡ right.now) unsettled.old same unsettled.new) }
{
    if !compare_of(&left.of, &right.of, unsettled)? {
        return Ok(false);
    }
    compare_form(&left.form, &right.form, unsettled)
}

fn compare_of<'a>(
    left: &'a ParamOf,
    right: &'a ParamOf,
    unsettled: &mut Unsettled<'a>,
) -> Result<bool, Memory>
    ensures { IfOk result (λ same. ComesTo (left.now ≡ right.now) unsettled.old same unsettled.new) }
{
    match left {
        ParamOf::Var(left) => match right {
            ParamOf::Var(right) => compare_path(left, right, unsettled),
            _ => Ok(false),
        },
        ParamOf::Special(left) => match right {
            ParamOf::Special(right) => Ok(left == right),
            _ => Ok(false),
        },
        ParamOf::Prefix(left) => match right {
            ParamOf::Prefix(right) => Ok(left == right),
            _ => Ok(false),
        },
    }
}

pub fn compare_path<'a>(
    left: &'a TreePath,
    right: &'a TreePath,
    unsettled: &mut Unsettled<'a>,
) -> Result<bool, Memory>
    ensures { IfOk result (λ same. ComesTo (left.now ≡ right.now) unsettled.old same unsettled.new) }
{
    unsettled.push(Sides::Parts(left.parts.as_slice(), right.parts.as_slice()))?;
    Ok(left.name == right.name)
}

pub fn compare_parts<'a>(
    left: &'a [TreePart],
    right: &'a [TreePart],
    unsettled: &mut Unsettled<'a>,
) -> Result<bool, Memory>
    ensures { IfOk result (λ same. ComesTo (left.now ≡ right.now) unsettled.old same unsettled.new) }
{
    let Some((left_first, left_rest)) = left.split_first() else {
        return Ok(right.is_empty());
    };
    let Some((right_first, right_rest)) = right.split_first() else {
        return Ok(false);
    };
    unsettled.push(Sides::Parts(left_rest, right_rest))?;
    compare_part(left_first, right_first, unsettled)
}

fn compare_part<'a>(
    left: &'a TreePart,
    right: &'a TreePart,
    unsettled: &mut Unsettled<'a>,
) -> Result<bool, Memory>
    ensures { IfOk result (λ same. ComesTo (left.now ≡ right.now) unsettled.old same unsettled.new) }
{
    match left {
        TreePart::Member(left) => match right {
            TreePart::Member(right) => Ok(left == right),
            _ => Ok(false),
        },
        TreePart::Sub(left) => match right {
            TreePart::Sub(right) => {
                unsettled.push(Sides::Pieces(left.as_slice(), right.as_slice()))?;
                Ok(true)
            },
            _ => Ok(false),
        },
        TreePart::Each => match right {
            TreePart::Each => Ok(true),
            _ => Ok(false),
        },
        TreePart::Joined => match right {
            TreePart::Joined => Ok(true),
            _ => Ok(false),
        },
    }
}
