//! Small trees, and deep ones.
use arith_tree::ArithExpr;
use ksh_ast::{
    Argument, Arith, Assign, AssignValue, Command, Item, Piece, Redirect, RedirectForm, RedirectTo,
    Script, TreePart, TreePath, Word,
};
use ksh_base::{Boxed, Items, Memory, Name, Shared, Text};
use std::alloc::Global;

fn script(alloc: Global, line: u32, command: Command) -> Result<Script, Memory> {
    let mut items = Items::new(alloc);
    items.push(Item { line, command })?;
    let list = Shared::new(alloc, items)?;
    Ok(Script { list })
}

/// A pipeline without members, behind so many `!`.
pub fn deep(alloc: Global, line: u32, depth: u32) -> Result<Script, Memory> {
    let mut command = Command::Pipeline {
        members: Items::new(alloc),
    };
    for _ in 0..depth {
        command = Command::Not {
            inner: Boxed::new(alloc, command)?,
        };
    }
    script(alloc, line, command)
}

/// A word of one arithmetic expression.
pub fn number(alloc: Global, expr: ArithExpr) -> Result<Word, Memory> {
    let mut word = Items::new(alloc);
    word.push(Piece::Number {
        text: Arith::Parsed(expr),
        quoted: false,
    })?;
    Ok(word)
}

fn literal(alloc: Global, bytes: &[u8], quoted: bool) -> Result<Word, Memory> {
    let mut word = Items::new(alloc);
    let text = Text::of(alloc, bytes)?;
    word.push(Piece::Literal { text, quoted })?;
    Ok(word)
}

/// `x[text]=text`
fn assign(alloc: Global, text: &[u8]) -> Result<Assign, Memory> {
    let Ok(name) = Name::read(alloc, b"x") else {
        return Err(Memory);
    };
    let mut parts = Items::new(alloc);
    parts.push(TreePart::Sub(literal(alloc, text, false)?))?;
    let value = AssignValue::Word(literal(alloc, text, false)?);
    Ok(Assign {
        path: TreePath { name, parts },
        append: false,
        value,
    })
}

/// `x[text]=text text >text`, where the word is quoted or not.
pub fn simple(alloc: Global, text: &[u8], quoted: bool) -> Result<Script, Memory> {
    let mut assigns = Items::new(alloc);
    assigns.push(assign(alloc, text)?)?;
    let mut words = Items::new(alloc);
    words.push(Argument::Word(literal(alloc, text, quoted)?))?;
    let mut redirects = Items::new(alloc);
    redirects.push(Redirect {
        to: RedirectTo::Usual,
        form: RedirectForm::Write,
        word: literal(alloc, text, false)?,
    })?;
    let command = Command::Simple {
        assigns,
        words,
        redirects,
    };
    script(alloc, 1, command)
}
