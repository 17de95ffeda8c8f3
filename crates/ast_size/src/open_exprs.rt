//! Parts of arithmetic, one level at a time.
ghost use Rattle.std.specs.Prelude.{IfOk, ◌+◌, length, map};
ghost use Rattle.ast_size.specs.Parts.{size_of, Adds};
ghost use Rattle.ast_size.specs.Size.{total, size_of_expr, size_of_link};

use crate::left::Left;
use crate::part::Part;
use arith_tree::{ArithExpr, ArithLink, ArithPart};
use ksh_base::Memory;

/// An operand or an operation, and what it holds.
#[tactic(auto, using(crate::proofs::Levels::expressions))]
pub fn open_expr<'a>(expr: &'a ArithExpr, left: &mut Left<'a>) -> Result<u64, Memory>
    ensures { IfOk result (λ nodes. Adds nodes (size_of_expr expr.now) left.old left.new) }
{
    match expr {
        ArithExpr::Number(_) => left.put_node(Part::Nothing),
        ArithExpr::Variable(path) => left.put_node(Part::ArithPath(path.parts.as_slice())),
        ArithExpr::Unary(_, operand) => left.put_node(Part::Expr(operand.get())),
        ArithExpr::Step { path, .. } => left.put_node(Part::ArithPath(path.parts.as_slice())),
        ArithExpr::Power(base, exponent) => {
            let base = Part::Expr(base.get());
            left.put(1, base, Part::Expr(exponent.get()), Part::Nothing)
        }
        ArithExpr::Chain(first, rest) => {
            let first = Part::Expr(first.get());
            left.put(1, first, Part::ArithLinks(rest.as_slice()), Part::Nothing)
        }
        ArithExpr::Choice(test, first, second) => {
            let test = Part::Expr(test.get());
            left.put(1, test, Part::Expr(first.get()), Part::Expr(second.get()))
        }
        ArithExpr::Assign { path, value, .. } => {
            let path = Part::ArithPath(path.parts.as_slice());
            left.put(1, path, Part::Expr(value.get()), Part::Nothing)
        }
    }
}

/// One of them, and the others.
#[tactic(auto, using(crate::proofs::Levels::link_operand))]
pub fn open_arith_links<'a>(links: &'a [ArithLink], left: &mut Left<'a>) -> Result<u64, Memory>
    ensures { IfOk result (λ nodes. Adds nodes (total (map size_of_link links.now)) left.old left.new) }
{
    let Some((first, rest)) = links.split_first() else {
        return Ok(0);
    };
    left.put(
        0,
        Part::Expr(&first.operand),
        Part::ArithLinks(rest),
        Part::Nothing,
    )
}

/// One of them, and the others.
pub fn open_arith_path<'a>(parts: &'a [ArithPart], left: &mut Left<'a>) -> Result<u64, Memory>
    ensures { IfOk result (λ nodes. Adds nodes (length parts.now) left.old left.new) }
{
    let Some((_, rest)) = parts.split_first() else {
        return Ok(0);
    };
    left.put(1, Part::ArithPath(rest), Part::Nothing, Part::Nothing)
}
