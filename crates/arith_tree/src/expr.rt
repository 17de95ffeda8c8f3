use ksh_base::{Boxed, Items, Name, Text};

/// An arithmetic expression.
///
/// Operators of one level that group from the left are one node, so that the length of such a chain costs no depth.
#[cycle(arith)]
#[derive(Debug, Drop)]
pub enum ArithExpr {
    /// A literal, read modulo 2^64.
    Number(i64),
    /// The value of a variable.
    Variable(ArithPath),
    /// `-e` and its kin.
    Unary(UnaryOp, Boxed<ArithExpr>),
    /// `++v`, `v--` and their kin.
    Step {
        path: ArithPath,
        way: StepWay,
    },
    /// `a ** b`.
    Power(Boxed<ArithExpr>, Boxed<ArithExpr>),
    /// The first operand and the others, from the left.
    Chain(Boxed<ArithExpr>, Items<ArithLink>),
    /// `test ? yes : no`.
    Choice(Boxed<ArithExpr>, Boxed<ArithExpr>, Boxed<ArithExpr>),
    /// `v = e`, or `v op= e`.
    Assign {
        path: ArithPath,
        op: Option<BinaryOp>,
        value: Boxed<ArithExpr>,
    },
}

/// An operator of a chain, and the operand on its right.
#[cycle(arith)]
#[derive(Debug, Drop)]
pub struct ArithLink {
    pub op: ChainOp,
    pub operand: ArithExpr,
}

/// What joins the operands of a chain.
#[derive(Clone, Copy, Debug, PartialEq, Eq)]
pub enum ChainOp {
    /// `,`: the value on the right.
    Comma,
    /// `||`: the right is evaluated where the left is 0.
    Or,
    /// `&&`: the right is evaluated where the left isn't 0.
    And,
    /// An operator on two numbers.
    Binary(BinaryOp),
}

/// An operator on two numbers that groups from the left.
#[derive(Clone, Copy, Debug, PartialEq, Eq)]
pub enum BinaryOp {
    BitOr,
    BitXor,
    BitAnd,
    Equal,
    NotEqual,
    Less,
    LessEqual,
    Greater,
    GreaterEqual,
    ShiftLeft,
    ShiftRight,
    Add,
    Subtract,
    Multiply,
    Divide,
    Remainder,
}

/// An operator on one number.
#[derive(Clone, Copy, Debug, PartialEq, Eq)]
pub enum UnaryOp {
    /// `+`
    Plus,
    /// `-`
    Minus,
    /// `!`
    Not,
    /// `~`
    Complement,
}

/// How a variable is stepped: by one up or down, and whether the value is that before the step.
#[derive(Clone, Copy, Debug, PartialEq, Eq)]
pub struct StepWay {
    pub down: bool,
    pub before: bool,
}

/// A path to a variable in arithmetic: `name`, then members and subscripts.
#[derive(Debug, Drop)]
pub struct ArithPath {
    pub name: Name,
    pub parts: Items<ArithPart>,
}

/// A part of a path in arithmetic.
#[derive(Debug, Drop)]
pub enum ArithPart {
    /// `.name`
    Member(Name),
    /// `[text]`, which is arithmetic again unless the array is associative.
    Sub(Text),
}
