//! Substitutions, lists and commands.
ghost use Rattle.std.specs.Prelude.{◌≡◌, ◌∷◌, [], IfOk};
ghost use Rattle.tree_parts.specs.Parts.{ended_by, is_file, is_input, is_newline, is_one_input, item, joins, loop_with_redirects, negated, opens_list, piped, reads_file, subst_kind, with_redirects};

use ksh_ast::{Command, Item, List, Redirect, RedirectForm, RedirectTo, SubstKind, Word};
use ksh_base::{Boxed, Items, Memory, Shared};
use ksh_syntax::Kind;
use std::alloc::Global;

/// How a substitution runs that a token opens.
pub fn opens_list(kind: Kind) -> Option<SubstKind>
    ensures { result ≡ opens_list kind }
{
    match kind {
        Kind::OpenSubstitution => Some(SubstKind::Fork),
        Kind::Backquote => Some(SubstKind::Fork),
        Kind::OpenCurrent => Some(SubstKind::Current),
        _ => None,
    }
}

fn is_input(form: &RedirectForm, to: &RedirectTo) -> bool
    ensures { result ≡ is_input form.now to.now }
{
    matches!((form, to), (RedirectForm::Read, RedirectTo::Usual))
}

/// Whether there is one redirection, which is `<file`.
fn is_one_input(redirects: &[Redirect<Word>]) -> bool
    ensures { result ≡ is_one_input redirects.now }
{
    match redirects {
        [redirect] => is_input(&redirect.form, &redirect.to),
        _ => false,
    }
}

fn reads_file(command: &Command) -> bool
    ensures { result ≡ reads_file command.now }
{
    match command {
        Command::Simple {
            assigns,
            words,
            redirects,
        } => assigns.is_empty() && words.is_empty() && is_one_input(redirects.as_slice()),
        _ => false,
    }
}

/// Whether a list is `<file` alone.
fn is_file(items: &[Item]) -> bool
    ensures { result ≡ is_file items.now }
{
    match items {
        [item] => reads_file(&item.command),
        _ => false,
    }
}

/// How a substitution of these commands runs.
pub fn subst_kind(kind: SubstKind, items: &[Item]) -> SubstKind
    ensures { result ≡ subst_kind kind items.now }
{
    match kind {
        SubstKind::Fork => {
            if is_file(items) {
                SubstKind::File
            } else {
                SubstKind::Fork
            }
        }
        other => other,
    }
}

/// A list of one command.
pub fn list_of(alloc: Global, line: u32, command: Command) -> Result<List, Memory>
    ensures { IfOk result (λ l. l ≡ item line command ∷ []) }
{
    let mut items = Items::new(alloc);
    items.push(Item { line, command })?;
    Ok(Shared::new(alloc, items)?)
}

pub fn is_newline(kind: Kind) -> bool
    ensures { result ≡ is_newline kind }
{
    matches!(kind, Kind::Newline | Kind::NewlineBodies)
}

/// What a command of a list becomes by the token that ends it; nothing where it ends none.
pub fn ended_by(
    alloc: Global,
    kind: Kind,
    line: u32,
    command: Command,
) -> Result<Option<Command>, Memory>
    ensures { IfOk result (λ o. o ≡ ended_by kind line command) }
{
    match kind {
        Kind::Newline => Ok(Some(command)),
        Kind::NewlineBodies => Ok(Some(command)),
        Kind::Semicolon => Ok(Some(command)),
        Kind::Ampersand => Ok(Some(Command::Background {
            inner: list_of(alloc, line, command)?,
            coprocess: false,
        })),
        Kind::BarAmpersand => Ok(Some(Command::Background {
            inner: list_of(alloc, line, command)?,
            coprocess: true,
        })),
        _ => Ok(None),
    }
}

/// Whether a token is `||`, which joins pipelines as `&&` does; nothing where it joins none.
pub fn joins(kind: Kind) -> Option<bool>
    ensures { result ≡ joins kind }
{
    match kind {
        Kind::AndIf => Some(false),
        Kind::OrIf => Some(true),
        _ => None,
    }
}

/// A pipeline behind a `!`, or without one.
pub fn negated(alloc: Global, not: bool, command: Command) -> Result<Command, Memory>
    ensures { IfOk result (λ c. c ≡ negated not command) }
{
    if not {
        let inner = Boxed::new(alloc, command)?;
        return Ok(Command::Not { inner });
    }
    Ok(command)
}

/// A pipeline of these members and the command.
#[tactic(auto, using(crate::proofs::Pieces::pipeline))]
pub fn piped(
    alloc: Global,
    members: Items<List>,
    line: u32,
    command: Command,
) -> Result<Command, Memory>
    ensures { IfOk result (λ c. c ≡ piped members line command) }
{
    if members.is_empty() {
        return Ok(command);
    }
    let mut all = members;
    all.push(list_of(alloc, line, command)?)?;
    Ok(Command::Pipeline { members: all })
}

/// A compound command with the redirections behind it; nothing where the command is none.
pub fn with_redirects(command: Command, redirects: Items<Redirect<Word>>) -> Option<Command>
    ensures { result ≡ with_redirects command redirects }
{
    match command {
        Command::Arith { text, .. } => Some(Command::Arith { text, redirects }),
        Command::Cond { test, .. } => Some(Command::Cond { test, redirects }),
        Command::Group { body, .. } => Some(Command::Group { body, redirects }),
        Command::Subshell { body, .. } => Some(Command::Subshell { body, redirects }),
        Command::If {
            arms,
            otherwise,
            ..
        } => Some(Command::If {
            arms,
            otherwise,
            redirects,
        }),
        Command::Case { word, items, .. } => Some(Command::Case {
            word,
            items,
            redirects,
        }),
        other => loop_with_redirects(other, redirects),
    }
}

/// The same of `while`, `for` and `select`.
fn loop_with_redirects(command: Command, redirects: Items<Redirect<Word>>) -> Option<Command>
    ensures { result ≡ loop_with_redirects command redirects }
{
    match command {
        Command::Loop {
            until,
            test,
            body,
            ..
        } => Some(Command::Loop {
            until,
            test,
            body,
            redirects,
        }),
        Command::For {
            name,
            words,
            body,
            ..
        } => Some(Command::For {
            name,
            words,
            body,
            redirects,
        }),
        Command::ForArith {
            first,
            test,
            step,
            body,
            ..
        } => Some(Command::ForArith {
            first,
            test,
            step,
            body,
            redirects,
        }),
        Command::Select {
            name,
            words,
            body,
            ..
        } => Some(Command::Select {
            name,
            words,
            body,
            redirects,
        }),
        _ => None,
    }
}
