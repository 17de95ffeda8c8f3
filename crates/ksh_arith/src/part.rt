ghost use Rattle.std.specs.Prelude.{◌≡◌};
ghost use Rattle.ksh_arith.specs.Grammar.{expr_of, height_of};

use arith_tree::{ArithExpr, ArithPath};

/// What was read, and how many levels it has.
#[derive(Drop)]
pub enum Part {
    /// A variable by itself, which may be assigned.
    Variable { path: ArithPath, height: u32 },
    Other { expr: ArithExpr, height: u32 },
}

impl Part {
    pub fn into_expr(self) -> ArithExpr
        ensures { result ≡ expr_of self }
    {
        match self {
            Part::Variable { path, .. } => ArithExpr::Variable(path),
            Part::Other { expr, .. } => expr,
        }
    }

    pub fn height(&self) -> u32
        ensures { result ≡ height_of self.now }
    {
        match self {
            Part::Variable { height, .. } | Part::Other { height, .. } => *height,
        }
    }
}
