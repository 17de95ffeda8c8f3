//! Whether two arithmetic expressions are equal, one level at a time.
ghost use Rattle.std.specs.Prelude.{◌≡◌, ◌↔◌, IsTrue, IfOk};
ghost use Rattle.ast_equal.specs.Equal.{ComesTo};
ghost use Rattle.arith_tree.specs.declared.expr.ArithExpr.TheVariants.{Unary, Step, Power, Chain, Choice, Assign};

use crate::unsettled::{Sides, Unsettled};
use arith_tree::{ArithExpr, ArithLink, ArithPart, ArithPath, BinaryOp, StepWay, UnaryOp};
use ksh_base::{Boxed, Items, Memory};

fn parts_equal(left: &[ArithPart], right: &[ArithPart]) -> bool
    ensures { IsTrue result ↔ (left.now ≡ right.now) }
{
    if left.len() != right.len() {
        return false;
    }
    for i in 0..left.len() {
        if !part_equals(&left[i], &right[i]) {
            return false;
        }
    }
    true
}

fn part_equals(left: &ArithPart, right: &ArithPart) -> bool
    ensures { IsTrue result ↔ (left.now ≡ right.now) }
{
    match left {
        ArithPart::Member(left) => match right {
            ArithPart::Member(right) => left == right,
            _ => false,
        },
        ArithPart::Sub(left) => match right {
            ArithPart::Sub(right) => left == right,
            _ => false,
        },
    }
}

fn path_equals(left: &ArithPath, right: &ArithPath) -> bool
    ensures { IsTrue result ↔ (left.now ≡ right.now) }
{
    left.name == right.name && parts_equal(left.parts.as_slice(), right.parts.as_slice())
}

pub fn compare_expr<'a>(
    left: &'a ArithExpr,
    right: &'a ArithExpr,
    unsettled: &mut Unsettled<'a>,
) -> Result<bool, Memory>
    ensures { IfOk result (λ same. ComesTo (left.now ≡ right.now) unsettled.old same unsettled.new) }
{
    match left {
        ArithExpr::Number(left) => match right {
            ArithExpr::Number(right) => Ok(left == right),
            _ => Ok(false),
        },
        ArithExpr::Variable(left) => match right {
            ArithExpr::Variable(right) => Ok(path_equals(left, right)),
            _ => Ok(false),
        },
        ArithExpr::Unary(op, operand) => compare_unary(op, operand, right, unsettled),
        ArithExpr::Step { path, way } => step_equals(path, way, right, unsettled),
        ArithExpr::Power(base, exponent) => compare_power(base, exponent, right, unsettled),
        ArithExpr::Chain(first, rest) => compare_chain(first, rest, right, unsettled),
        ArithExpr::Choice(test, first, second) => {
            compare_choice(test, first, second, right, unsettled)
        },
        ArithExpr::Assign { path, op, value } => compare_assign(path, op, value, right, unsettled),
    }
}

fn compare_unary<'a>(
    op: &'a UnaryOp,
    operand: &'a Boxed<ArithExpr>,
    right: &'a ArithExpr,
    unsettled: &mut Unsettled<'a>,
) -> Result<bool, Memory>
    ensures { IfOk result (λ same. ComesTo (Unary op.now operand.now ≡ right.now) unsettled.old same unsettled.new) }
{
    let ArithExpr::Unary(right_op, right_operand) = right else {
        return Ok(false);
    };
    unsettled.push(Sides::Expr(operand.get(), right_operand.get()))?;
    Ok(*op == *right_op)
}

fn step_equals<'a>(
    path: &'a ArithPath,
    way: &'a StepWay,
    right: &'a ArithExpr,
    unsettled: &mut Unsettled<'a>,
) -> Result<bool, Memory>
    ensures { IfOk result (λ same. ComesTo (Step path.now way.now ≡ right.now) unsettled.old same unsettled.new) }
{
    let ArithExpr::Step {
        path: right_path,
        way: right_way,
    } = right
    else {
        return Ok(false);
    };
    Ok(path_equals(path, right_path) && *way == *right_way)
}

fn compare_power<'a>(
    base: &'a Boxed<ArithExpr>,
    exponent: &'a Boxed<ArithExpr>,
    right: &'a ArithExpr,
    unsettled: &mut Unsettled<'a>,
) -> Result<bool, Memory>
    ensures { IfOk result (λ same. ComesTo (Power base.now exponent.now ≡ right.now) unsettled.old same unsettled.new) }
{
    let ArithExpr::Power(right_base, right_exponent) = right else {
        return Ok(false);
    };
    unsettled.push(Sides::Expr(base.get(), right_base.get()))?;
    unsettled.push(Sides::Expr(exponent.get(), right_exponent.get()))?;
    Ok(true)
}

fn compare_chain<'a>(
    first: &'a Boxed<ArithExpr>,
    rest: &'a Items<ArithLink>,
    right: &'a ArithExpr,
    unsettled: &mut Unsettled<'a>,
) -> Result<bool, Memory>
    ensures { IfOk result (λ same. ComesTo (Chain first.now rest.now ≡ right.now) unsettled.old same unsettled.new) }
{
    let ArithExpr::Chain(right_first, right_rest) = right else {
        return Ok(false);
    };
    unsettled.push(Sides::Expr(first.get(), right_first.get()))?;
    unsettled.push(Sides::ArithLinks(rest.as_slice(), right_rest.as_slice()))?;
    Ok(true)
}

fn compare_choice<'a>(
    test: &'a Boxed<ArithExpr>,
    first: &'a Boxed<ArithExpr>,
    second: &'a Boxed<ArithExpr>,
    right: &'a ArithExpr,
    unsettled: &mut Unsettled<'a>,
) -> Result<bool, Memory>
    ensures { IfOk result (λ same. ComesTo (Choice test.now first.now second.now ≡ right.now) unsettled.old same unsettled.new) }
{
    let ArithExpr::Choice(right_test, right_first, right_second) = right else {
        return Ok(false);
    };
    unsettled.push(Sides::Expr(test.get(), right_test.get()))?;
    unsettled.push(Sides::Expr(first.get(), right_first.get()))?;
    unsettled.push(Sides::Expr(second.get(), right_second.get()))?;
    Ok(true)
}

fn compare_assign<'a>(
    path: &'a ArithPath,
    op: &'a Option<BinaryOp>,
    value: &'a Boxed<ArithExpr>,
    right: &'a ArithExpr,
    unsettled: &mut Unsettled<'a>,
) -> Result<bool, Memory>
    ensures { IfOk result (λ same. ComesTo (Assign path.now op.now value.now ≡ right.now) unsettled.old same unsettled.new) }
{
    let ArithExpr::Assign {
        path: right_path,
        op: right_op,
        value: right_value,
    } = right
    else {
        return Ok(false);
    };
    unsettled.push(Sides::Expr(value.get(), right_value.get()))?;
    Ok(path_equals(path, right_path) && *op == *right_op)
}

pub fn compare_arith_links<'a>(
    left: &'a [ArithLink],
    right: &'a [ArithLink],
    unsettled: &mut Unsettled<'a>,
) -> Result<bool, Memory>
    ensures { IfOk result (λ same. ComesTo (left.now ≡ right.now) unsettled.old same unsettled.new) }
{
    let Some((left_first, left_rest)) = left.split_first() else {
        return Ok(right.is_empty());
    };
    let Some((right_first, right_rest)) = right.split_first() else {
        return Ok(false);
    };
    unsettled.push(Sides::ArithLinks(left_rest, right_rest))?;
    compare_arith_link(left_first, right_first, unsettled)
}

fn compare_arith_link<'a>(
    left: &'a ArithLink,
    right: &'a ArithLink,
    unsettled: &mut Unsettled<'a>,
) -> Result<bool, Memory>
    ensures { IfOk result (λ same. ComesTo (left.now ≡ right.now) unsettled.old same unsettled.new) }
{
    unsettled.push(Sides::Expr(&left.operand, &right.operand))?;
    Ok(left.op == right.op)
}
