ghost use Rattle.std.specs.Prelude.{◌≡◌, IfOk};

use crate::expr::{ArithExpr, ArithLink, ArithPart, ArithPath};
use ksh_base::{Boxed, Items, Memory};
use std::alloc::Global;

impl ArithPath {
    pub fn copy(&self, alloc: Global) -> Result<ArithPath, Memory>
        ensures { IfOk result (λ c. c ≡ self.now) }
    {
        let name = self.name.copy(alloc)?;
        let parts = copy_parts(alloc, self.parts.as_slice())?;
        Ok(ArithPath { name, parts })
    }
}

impl ArithPart {
    pub fn copy(&self, alloc: Global) -> Result<ArithPart, Memory>
        ensures { IfOk result (λ c. c ≡ self.now) }
    {
        match self {
            ArithPart::Member(name) => Ok(ArithPart::Member(name.copy(alloc)?)),
            ArithPart::Sub(text) => Ok(ArithPart::Sub(text.copy(alloc)?)),
        }
    }
}

fn copy_parts(alloc: Global, parts: &[ArithPart]) -> Result<Items<ArithPart>, Memory>
    ensures { IfOk result (λ c. c ≡ parts.now) }
{
    let mut copies = Items::new(alloc);
    for part in parts {
        copies.push(part.copy(alloc)?)?;
    }
    Ok(copies)
}

impl ArithExpr {
    #[cycle(copy_expr)]
    pub fn copy(&self, alloc: Global) -> Result<ArithExpr, Memory>
        ensures { IfOk result (λ c. c ≡ self.now) }
    {
        match self {
            ArithExpr::Number(value) => Ok(ArithExpr::Number(*value)),
            ArithExpr::Variable(path) => Ok(ArithExpr::Variable(path.copy(alloc)?)),
            ArithExpr::Unary(op, operand) => Ok(ArithExpr::Unary(*op, copy_boxed(alloc, operand)?)),
            ArithExpr::Step { path, way } => {
                let path = path.copy(alloc)?;
                Ok(ArithExpr::Step { path, way: *way })
            }
            ArithExpr::Power(base, exponent) => {
                let base = copy_boxed(alloc, base)?;
                let exponent = copy_boxed(alloc, exponent)?;
                Ok(ArithExpr::Power(base, exponent))
            }
            ArithExpr::Chain(first, rest) => {
                let first = copy_boxed(alloc, first)?;
                let rest = copy_links(alloc, rest.as_slice())?;
                Ok(ArithExpr::Chain(first, rest))
            }
            ArithExpr::Choice(test, yes, no) => {
                let test = copy_boxed(alloc, test)?;
                let yes = copy_boxed(alloc, yes)?;
                let no = copy_boxed(alloc, no)?;
                Ok(ArithExpr::Choice(test, yes, no))
            }
            ArithExpr::Assign { path, op, value } => {
                let path = path.copy(alloc)?;
                let value = copy_boxed(alloc, value)?;
                Ok(ArithExpr::Assign {
                    path,
                    op: *op,
                    value,
                })
            }
        }
    }
}

#[cycle(copy_expr)]
fn copy_boxed(alloc: Global, expr: &Boxed<ArithExpr>) -> Result<Boxed<ArithExpr>, Memory>
    ensures { IfOk result (λ c. c ≡ expr.now) }
{
    let copy = expr.get().copy(alloc)?;
    Ok(Boxed::new(alloc, copy)?)
}

#[cycle(copy_expr)]
fn copy_links(alloc: Global, links: &[ArithLink]) -> Result<Items<ArithLink>, Memory>
    ensures { IfOk result (λ c. c ≡ links.now) }
{
    let mut copies = Items::new(alloc);
    for link in links {
        let operand = link.operand.copy(alloc)?;
        copies.push(ArithLink {
            op: link.op,
            operand,
        })?;
    }
    Ok(copies)
}
