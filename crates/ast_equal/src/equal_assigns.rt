//! Whether two assignments, or two arguments, are equal, one level at a time.
ghost use Rattle.std.specs.Prelude.{◌≡◌, ◌↔◌, IsTrue, IfOk};
ghost use Rattle.ast_equal.specs.Equal.{ComesTo};

use crate::equal_words::compare_path;
use crate::unsettled::{Sides, Unsettled};
use ksh_ast::{Argument, Assign, AssignValue, FunctionDef, List, Member, Pair, Word};
use ksh_base::{Memory, Name};

pub fn compare_words<'a>(
    left: &'a [Word],
    right: &'a [Word],
    unsettled: &mut Unsettled<'a>,
) -> Result<bool, Memory>
    ensures { IfOk result (λ same. ComesTo (left.now ≡ right.now) unsettled.old same unsettled.new) }
{
    let Some((left_first, left_rest)) = left.split_first() else {
        return Ok(right.is_empty());
    };
    let Some((right_first, right_rest)) = right.split_first() else {
        return Ok(false);
    };
    unsettled.push(Sides::Words(left_rest, right_rest))?;
    unsettled.push(Sides::Pieces(left_first.as_slice(), right_first.as_slice()))?;
    Ok(true)
}

pub fn compare_pairs<'a>(
    left: &'a [Pair<Word>],
    right: &'a [Pair<Word>],
    unsettled: &mut Unsettled<'a>,
) -> Result<bool, Memory>
    ensures { IfOk result (λ same. ComesTo (left.now ≡ right.now) unsettled.old same unsettled.new) }
{
    let Some((left_first, left_rest)) = left.split_first() else {
        return Ok(right.is_empty());
    };
    let Some((right_first, right_rest)) = right.split_first() else {
        return Ok(false);
    };
    unsettled.push(Sides::Pairs(left_rest, right_rest))?;
    compare_pair(left_first, right_first, unsettled)
}

fn compare_pair<'a>(
    left: &'a Pair<Word>,
    right: &'a Pair<Word>,
    unsettled: &mut Unsettled<'a>,
) -> Result<bool, Memory>
    ensures { IfOk result (λ same. ComesTo (left.now ≡ right.now) unsettled.old same unsettled.new) }
{
    unsettled.push(Sides::Pieces(left.subscript.as_slice(), right.subscript.as_slice()))?;
    unsettled.push(Sides::Pieces(left.value.as_slice(), right.value.as_slice()))?;
    Ok(true)
}

pub fn compare_assigns<'a>(
    left: &'a [Assign],
    right: &'a [Assign],
    unsettled: &mut Unsettled<'a>,
) -> Result<bool, Memory>
    ensures { IfOk result (λ same. ComesTo (left.now ≡ right.now) unsettled.old same unsettled.new) }
{
    let Some((left_first, left_rest)) = left.split_first() else {
        return Ok(right.is_empty());
    };
    let Some((right_first, right_rest)) = right.split_first() else {
        return Ok(false);
    };
    unsettled.push(Sides::Assigns(left_rest, right_rest))?;
    compare_assign(left_first, right_first, unsettled)
}

fn compare_assign<'a>(
    left: &'a Assign,
    right: &'a Assign,
    unsettled: &mut Unsettled<'a>,
) -> Result<bool, Memory>
    ensures { IfOk result (λ same. ComesTo (left.now ≡ right.now) unsettled.old same unsettled.new) }
{
    if left.append != right.append {
        return Ok(false);
    }
    if !compare_path(&left.path, &right.path, unsettled)? {
        return Ok(false);
    }
    compare_value(&left.value, &right.value, unsettled)
}

fn compare_value<'a>(
    left: &'a AssignValue,
    right: &'a AssignValue,
    unsettled: &mut Unsettled<'a>,
) -> Result<bool, Memory>
    ensures { IfOk result (λ same. ComesTo (left.now ≡ right.now) unsettled.old same unsettled.new) }
{
    match left {
        AssignValue::Word(left) => match right {
            AssignValue::Word(right) => {
                unsettled.push(Sides::Pieces(left.as_slice(), right.as_slice()))?;
                Ok(true)
            },
            _ => Ok(false),
        },
        AssignValue::Words(left) => match right {
            AssignValue::Words(right) => {
                unsettled.push(Sides::Words(left.as_slice(), right.as_slice()))?;
                Ok(true)
            },
            _ => Ok(false),
        },
        AssignValue::Pairs(left) => match right {
            AssignValue::Pairs(right) => {
                unsettled.push(Sides::Pairs(left.as_slice(), right.as_slice()))?;
                Ok(true)
            },
            _ => Ok(false),
        },
        AssignValue::Members(left) => match right {
            AssignValue::Members(right) => {
                unsettled.push(Sides::Members(left.as_slice(), right.as_slice()))?;
                Ok(true)
            },
            _ => Ok(false),
        },
    }
}

pub fn compare_members<'a>(
    left: &'a [Member],
    right: &'a [Member],
    unsettled: &mut Unsettled<'a>,
) -> Result<bool, Memory>
    ensures { IfOk result (λ same. ComesTo (left.now ≡ right.now) unsettled.old same unsettled.new) }
{
    let Some((left_first, left_rest)) = left.split_first() else {
        return Ok(right.is_empty());
    };
    let Some((right_first, right_rest)) = right.split_first() else {
        return Ok(false);
    };
    unsettled.push(Sides::Members(left_rest, right_rest))?;
    compare_member(left_first, right_first, unsettled)
}

fn compare_member<'a>(
    left: &'a Member,
    right: &'a Member,
    unsettled: &mut Unsettled<'a>,
) -> Result<bool, Memory>
    ensures { IfOk result (λ same. ComesTo (left.now ≡ right.now) unsettled.old same unsettled.new) }
{
    match left {
        Member::Assign(left) => match right {
            Member::Assign(right) => compare_assign(left, right, unsettled),
            _ => Ok(false),
        },
        Member::Declare(left) => match right {
            Member::Declare(right) => {
                unsettled.push(Sides::Arguments(left.as_slice(), right.as_slice()))?;
                Ok(true)
            },
            _ => Ok(false),
        },
        Member::Function(left) => match right {
            Member::Function(right) => { compare_definition(left.get(), right.get(), unsettled) },
            _ => Ok(false),
        },
    }
}

pub fn compare_arguments<'a>(
    left: &'a [Argument],
    right: &'a [Argument],
    unsettled: &mut Unsettled<'a>,
) -> Result<bool, Memory>
    ensures { IfOk result (λ same. ComesTo (left.now ≡ right.now) unsettled.old same unsettled.new) }
{
    let Some((left_first, left_rest)) = left.split_first() else {
        return Ok(right.is_empty());
    };
    let Some((right_first, right_rest)) = right.split_first() else {
        return Ok(false);
    };
    unsettled.push(Sides::Arguments(left_rest, right_rest))?;
    compare_argument(left_first, right_first, unsettled)
}

fn compare_argument<'a>(
    left: &'a Argument,
    right: &'a Argument,
    unsettled: &mut Unsettled<'a>,
) -> Result<bool, Memory>
    ensures { IfOk result (λ same. ComesTo (left.now ≡ right.now) unsettled.old same unsettled.new) }
{
    match left {
        Argument::Word(left) => match right {
            Argument::Word(right) => {
                unsettled.push(Sides::Pieces(left.as_slice(), right.as_slice()))?;
                Ok(true)
            },
            _ => Ok(false),
        },
        Argument::Assign(left) => match right {
            Argument::Assign(right) => compare_assign(left, right, unsettled),
            _ => Ok(false),
        },
    }
}

fn name_equals(left: &Name, right: &Name) -> bool
    ensures { IsTrue result ↔ (left.now ≡ right.now) }
{
    left == right
}

fn names_equal(left: &[Name], right: &[Name]) -> bool
    ensures { IsTrue result ↔ (left.now ≡ right.now) }
{
    if left.len() != right.len() {
        return false;
    }
    for i in 0..left.len() {
        if !name_equals(&left[i], &right[i]) {
            return false;
        }
    }
    true
}

pub fn compare_definition<'a>(
    left: &'a FunctionDef<List>,
    right: &'a FunctionDef<List>,
    unsettled: &mut Unsettled<'a>,
) -> Result<bool, Memory>
    ensures { IfOk result (λ same. ComesTo (left.now ≡ right.now) unsettled.old same unsettled.new) }
{
    if left.own_scope != right.own_scope {
        return Ok(false);
    }
    if left.text != right.text {
        return Ok(false);
    }
    if !names_equal(left.name.as_slice(), right.name.as_slice()) {
        return Ok(false);
    }
    unsettled.push(Sides::Items(left.body.get().as_slice(), right.body.get().as_slice()))?;
    Ok(true)
}
