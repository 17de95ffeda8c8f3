//! Whether two conditions are equal, one level at a time.
ghost use Rattle.std.specs.Prelude.{◌≡◌, IfOk};
ghost use Rattle.ast_equal.specs.Equal.{ComesTo};
ghost use Rattle.ksh_ast.specs.declared.tree.Test.TheVariants.{Unary, Binary};

use crate::unsettled::{Sides, Unsettled};
use ksh_ast::{BinaryTest, Term, Test, UnaryTest, Word};
use ksh_base::{Items, Memory};

pub fn compare_tests<'a>(
    left: &'a [Items<Term>],
    right: &'a [Items<Term>],
    unsettled: &mut Unsettled<'a>,
) -> Result<bool, Memory>
    ensures { IfOk result (λ same. ComesTo (left.now ≡ right.now) unsettled.old same unsettled.new) }
{
    let Some((left_first, left_rest)) = left.split_first() else {
        return Ok(right.is_empty());
    };
    let Some((right_first, right_rest)) = right.split_first() else {
        return Ok(false);
    };
    unsettled.push(Sides::Tests(left_rest, right_rest))?;
    unsettled.push(Sides::Terms(left_first.as_slice(), right_first.as_slice()))?;
    Ok(true)
}

pub fn compare_terms<'a>(
    left: &'a [Term],
    right: &'a [Term],
    unsettled: &mut Unsettled<'a>,
) -> Result<bool, Memory>
    ensures { IfOk result (λ same. ComesTo (left.now ≡ right.now) unsettled.old same unsettled.new) }
{
    let Some((left_first, left_rest)) = left.split_first() else {
        return Ok(right.is_empty());
    };
    let Some((right_first, right_rest)) = right.split_first() else {
        return Ok(false);
    };
    unsettled.push(Sides::Terms(left_rest, right_rest))?;
    compare_term(left_first, right_first, unsettled)
}

fn compare_term<'a>(
    left: &'a Term,
    right: &'a Term,
    unsettled: &mut Unsettled<'a>,
) -> Result<bool, Memory>
    ensures { IfOk result (λ same. ComesTo (left.now ≡ right.now) unsettled.old same unsettled.new) }
{
    if left.negated != right.negated {
        return Ok(false);
    }
    compare_test(&left.test, &right.test, unsettled)
}

fn compare_test<'a>(
    left: &'a Test,
    right: &'a Test,
    unsettled: &mut Unsettled<'a>,
) -> Result<bool, Memory>
    ensures { IfOk result (λ same. ComesTo (left.now ≡ right.now) unsettled.old same unsettled.new) }
{
    match left {
        Test::Nested(left) => match right {
            Test::Nested(right) => {
                unsettled.push(Sides::Tests(left.as_slice(), right.as_slice()))?;
                Ok(true)
            },
            _ => Ok(false),
        },
        Test::Unary { op, word } => compare_unary(op, word, right, unsettled),
        Test::Binary {
            left: first,
            op,
            right: second,
        } => compare_binary(first, op, second, right, unsettled),
        Test::Word(left) => match right {
            Test::Word(right) => {
                unsettled.push(Sides::Pieces(left.as_slice(), right.as_slice()))?;
                Ok(true)
            },
            _ => Ok(false),
        },
    }
}

fn compare_unary<'a>(
    op: &'a UnaryTest,
    word: &'a Word,
    right: &'a Test,
    unsettled: &mut Unsettled<'a>,
) -> Result<bool, Memory>
    ensures { IfOk result (λ same. ComesTo (Unary op.now word.now ≡ right.now) unsettled.old same unsettled.new) }
{
    let Test::Unary {
        op: right_op,
        word: right_word,
    } = right
    else {
        return Ok(false);
    };
    unsettled.push(Sides::Pieces(word.as_slice(), right_word.as_slice()))?;
    Ok(*op == *right_op)
}

fn compare_binary<'a>(
    first: &'a Word,
    op: &'a BinaryTest,
    second: &'a Word,
    right: &'a Test,
    unsettled: &mut Unsettled<'a>,
) -> Result<bool, Memory>
    ensures { IfOk result (λ same. ComesTo (Binary first.now op.now second.now ≡ right.now) unsettled.old same unsettled.new) }
{
    let Test::Binary {
        left: right_first,
        op: right_op,
        right: right_second,
    } = right
    else {
        return Ok(false);
    };
    unsettled.push(Sides::Pieces(first.as_slice(), right_first.as_slice()))?;
    unsettled.push(Sides::Pieces(second.as_slice(), right_second.as_slice()))?;
    Ok(*op == *right_op)
}
