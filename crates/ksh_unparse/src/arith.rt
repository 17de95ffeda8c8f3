//! Arithmetic, with parentheses where the tree needs them.
ghost use Rattle.std.specs.Prelude.{◌≡◌, ◌≤◌, OnOk, map};
ghost use Rattle.ksh_unparse.specs.Arith.{arith_parts_put, arith_path_put, assign_bytes, binary_bytes, binary_level, chain_bytes, chain_level, chain_put, expr_put, grouped_mark, link_put, links_put, step_bytes, step_put, unary_bytes};
ghost use Rattle.ksh_unparse.specs.Stack.{to_write};

use crate::left::{Left, Task};
use arith_tree::{ArithExpr, ArithLink, ArithPart, ArithPath, BinaryOp, ChainOp, StepWay, UnaryOp};
use ksh_base::Memory;

/// An expression where operators of at most that level may stand without parentheses.
pub fn put_expr<'a>(expr: &'a ArithExpr, level: u8, left: &mut Left<'a>) -> Result<(), Memory>
    ensures { OnOk result (to_write left.new.tasks ≡ expr_put expr.now level (to_write left.old.tasks)) }
{
    match expr {
        ArithExpr::Number(value) => left.push(Task::Number(value.cast_unsigned())),
        ArithExpr::Variable(path) => put_path(path, left),
        ArithExpr::Unary(op, operand) => {
            left.push(Task::Expr(operand.get(), 0))?;
            left.push(Task::Bytes(unary_bytes(*op)))
        }
        ArithExpr::Step { path, way } => put_step(path, *way, left),
        ArithExpr::Power(base, exponent) => {
            put_mark(1 <= level, b")", left)?;
            left.push(Task::Expr(exponent.get(), 1))?;
            left.push(Task::Bytes(b" ** "))?;
            left.push(Task::Expr(base.get(), 0))?;
            put_mark(1 <= level, b"(", left)
        }
        ArithExpr::Chain(first, links) => put_chain(first.get(), links.as_slice(), level, left),
        ArithExpr::Choice(test, yes, no) => {
            put_mark(12 <= level, b")", left)?;
            left.push(Task::Expr(no.get(), 12))?;
            left.push(Task::Bytes(b" : "))?;
            left.push(Task::Expr(yes.get(), 14))?;
            left.push(Task::Bytes(b" ? "))?;
            left.push(Task::Expr(test.get(), 11))?;
            put_mark(12 <= level, b"(", left)
        }
        ArithExpr::Assign { path, op, value } => {
            put_mark(13 <= level, b")", left)?;
            left.push(Task::Expr(value.get(), 13))?;
            left.push(Task::Bytes(assign_bytes(*op)))?;
            put_path(path, left)?;
            put_mark(13 <= level, b"(", left)
        }
    }
}

/// A parenthesis, unless the operator may stand without.
fn put_mark<'a>(bare: bool, mark: &'a [u8], left: &mut Left<'a>) -> Result<(), Memory>
    ensures { OnOk result (to_write left.new.tasks ≡ grouped_mark bare mark.now (to_write left.old.tasks)) }
{
    if bare {
        return Ok(());
    }
    left.push(Task::Bytes(mark))
}

/// A chain: its operands hold tighter operators alone.
fn put_chain<'a>(
    first: &'a ArithExpr,
    links: &'a [ArithLink],
    level: u8,
    left: &mut Left<'a>,
) -> Result<(), Memory>
    ensures { OnOk result (to_write left.new.tasks ≡ chain_put level (expr_put first.now) (map link_put links.now) (to_write left.old.tasks)) }
{
    let Some((link, _)) = links.split_first() else {
        return left.push(Task::Expr(first, level));
    };
    let own = chain_level(link.op);
    put_mark(own <= level, b")", left)?;
    left.push(Task::ExprLinks(links, own - 1))?;
    left.push(Task::Expr(first, own - 1))?;
    put_mark(own <= level, b"(", left)
}

/// Operators and operands.
pub fn put_links<'a>(links: &'a [ArithLink], level: u8, left: &mut Left<'a>) -> Result<(), Memory>
    ensures { OnOk result (to_write left.new.tasks ≡ links_put level (map link_put links.now) (to_write left.old.tasks)) }
{
    let Some((link, rest)) = links.split_first() else {
        return Ok(());
    };
    left.push(Task::ExprLinks(rest, level))?;
    left.push(Task::Expr(&link.operand, level))?;
    left.push(Task::Bytes(chain_bytes(link.op)))
}

fn put_step<'a>(path: &'a ArithPath, way: StepWay, left: &mut Left<'a>) -> Result<(), Memory>
    ensures { OnOk result (to_write left.new.tasks ≡ step_put way path.now (to_write left.old.tasks)) }
{
    if way.before {
        left.push(Task::Bytes(step_bytes(way.down)))?;
        put_path(path, left)
    } else {
        put_path(path, left)?;
        left.push(Task::Bytes(step_bytes(way.down)))
    }
}

fn put_path<'a>(path: &'a ArithPath, left: &mut Left<'a>) -> Result<(), Memory>
    ensures { OnOk result (to_write left.new.tasks ≡ arith_path_put path.now (to_write left.old.tasks)) }
{
    left.push(Task::ExprParts(path.parts.as_slice()))?;
    left.push(Task::Bytes(path.name.text().bytes()))
}

/// Parts of a path.
pub fn put_expr_parts<'a>(parts: &'a [ArithPart], left: &mut Left<'a>) -> Result<(), Memory>
    ensures { OnOk result (to_write left.new.tasks ≡ arith_parts_put parts.now (to_write left.old.tasks)) }
{
    let Some((part, rest)) = parts.split_first() else {
        return Ok(());
    };
    left.push(Task::ExprParts(rest))?;
    match part {
        ArithPart::Member(name) => {
            left.push(Task::Bytes(name.text().bytes()))?;
            left.push(Task::Bytes(b"."))
        }
        ArithPart::Sub(text) => {
            left.push(Task::Bytes(b"]"))?;
            left.push(Task::Bytes(text.bytes()))?;
            left.push(Task::Bytes(b"["))
        }
    }
}

fn unary_bytes<'a>(op: UnaryOp) -> &'a [u8]
    ensures { result.now ≡ unary_bytes op }
{
    match op {
        UnaryOp::Plus => b"+ ",
        UnaryOp::Minus => b"- ",
        UnaryOp::Not => b"! ",
        UnaryOp::Complement => b"~ ",
    }
}

fn binary_bytes<'a>(op: BinaryOp) -> &'a [u8]
    ensures { result.now ≡ binary_bytes op }
{
    match op {
        BinaryOp::BitOr => b" | ",
        BinaryOp::BitXor => b" ^ ",
        BinaryOp::BitAnd => b" & ",
        BinaryOp::Equal => b" == ",
        BinaryOp::NotEqual => b" != ",
        BinaryOp::Less => b" < ",
        BinaryOp::LessEqual => b" <= ",
        BinaryOp::Greater => b" > ",
        BinaryOp::GreaterEqual => b" >= ",
        BinaryOp::ShiftLeft => b" << ",
        BinaryOp::ShiftRight => b" >> ",
        BinaryOp::Add => b" + ",
        BinaryOp::Subtract => b" - ",
        BinaryOp::Multiply => b" * ",
        BinaryOp::Divide => b" / ",
        BinaryOp::Remainder => b" % ",
    }
}

fn chain_bytes<'a>(op: ChainOp) -> &'a [u8]
    ensures { result.now ≡ chain_bytes op }
{
    match op {
        ChainOp::Comma => b", ",
        ChainOp::Or => b" || ",
        ChainOp::And => b" && ",
        ChainOp::Binary(op) => binary_bytes(op),
    }
}

/// `=`, or the operator before it. Those that compare have no such form.
fn assign_bytes<'a>(op: Option<BinaryOp>) -> &'a [u8]
    ensures { result.now ≡ assign_bytes op }
{
    match op {
        Some(BinaryOp::BitOr) => b" |= ",
        Some(BinaryOp::BitXor) => b" ^= ",
        Some(BinaryOp::BitAnd) => b" &= ",
        Some(BinaryOp::ShiftLeft) => b" <<= ",
        Some(BinaryOp::ShiftRight) => b" >>= ",
        Some(BinaryOp::Add) => b" += ",
        Some(BinaryOp::Subtract) => b" -= ",
        Some(BinaryOp::Multiply) => b" *= ",
        Some(BinaryOp::Divide) => b" /= ",
        Some(BinaryOp::Remainder) => b" %= ",
        _ => b" = ",
    }
}

fn step_bytes<'a>(down: bool) -> &'a [u8]
    ensures { result.now ≡ step_bytes down }
{
    if down { b"--" } else { b"++" }
}

fn binary_level(op: BinaryOp) -> u8
    ensures level { result ≡ binary_level op }
    ensures loose { 1 ≤ result }
{
    match op {
        BinaryOp::Multiply | BinaryOp::Divide | BinaryOp::Remainder => 2,
        BinaryOp::Add | BinaryOp::Subtract => 3,
        BinaryOp::ShiftLeft | BinaryOp::ShiftRight => 4,
        BinaryOp::Less | BinaryOp::LessEqual | BinaryOp::Greater | BinaryOp::GreaterEqual => 5,
        BinaryOp::Equal | BinaryOp::NotEqual => 6,
        BinaryOp::BitAnd => 7,
        BinaryOp::BitXor => 8,
        BinaryOp::BitOr => 9,
    }
}

fn chain_level(op: ChainOp) -> u8
    ensures level { result ≡ chain_level op }
    ensures loose { 1 ≤ result }
{
    match op {
        ChainOp::And => 10,
        ChainOp::Or => 11,
        ChainOp::Comma => 14,
        ChainOp::Binary(op) => binary_level(op),
    }
}
