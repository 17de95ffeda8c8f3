//! Lists, and the subshells in them.
ghost use Rattle.std.specs.Prelude.{◌≡◌, ◌∷◌, ◌++◌, [], List, IfOk, MatchOption, OnOk, Option, Some, None};
ghost use Rattle.ksh_ast.specs.declared.tree.Item as tree;
ghost use Rattle.ksh_script.specs.declared.tree.Item as plain;
ghost use Rattle.ksh_lower.specs.Lowers.{body_of, item, Leads, Lowers, LowersTo, Waits};

use crate::simple::command_of;
use ksh_ast::{Command, Item, List};
use ksh_base::{Items, Memory, Shared};
use ksh_script::{Command as PlainCommand, Item as PlainItem, List as PlainList};
use std::alloc::Global;

/// A list that is open: what of it is left, and what is run of the rest.
#[derive(Drop)]
pub(crate) struct Level<'a> {
    /// The line of the subshell whose list it is.
    line: u32,
    rest: &'a [Item],
    done: Items<PlainItem>,
}

/// The list of a subshell without redirections.
fn body_of(command: &Command) -> Option<&List>
    ensures { MatchOption result (body_of command.now ≡ None) (λ b. body_of command.now ≡ Some b.now) }
{
    match command {
        Command::Subshell { body, redirects } if redirects.is_empty() => Some(body),
        _ => None,
    }
}

/// What is run of a command that is no subshell.
#[tactic(auto, using(crate::specs::Lowers::simple, crate::specs::Lowers::not_built))]
fn plain_command(alloc: Global, command: &Command) -> Result<PlainCommand, Memory>
    requires { body_of command.now ≡ None }
    ensures { IfOk result (λ c. LowersTo command.now c) }
{
    match command_of(alloc, command)? {
        Some(plain) => Ok(plain),
        None => Ok(PlainCommand::NotBuilt),
    }
}

/// Where a level that ended leads.
#[derive(Drop)]
pub(crate) enum Left<'a> {
    All(PlainList),
    Within(Level<'a>),
}

/// Goes on behind the first command of a level, or into it.
#[tactic(auto, using(crate::proofs::Levels::goes_on, crate::proofs::Levels::enters))]
fn go<'a>(
    alloc: Global,
    outer: &mut Items<Level<'a>>,
    level: Level<'a>,
    first: &'a Item,
    behind: &'a [Item],
) -> Result<Level<'a>, Memory>
    requires { level.rest.now ≡ first.now ∷ behind.now }
    ensures { IfOk result (λ l. (whole : List tree.Item) → Waits whole outer.old level.entry.line level.entry.rest.now level.entry.done → Waits whole outer.new l.line l.rest.now l.done) }
{
    let Level { line, rest, done } = level;
    if let Some(body) = body_of(&first.command) {
        outer.push(Level {
            line,
            rest: behind,
            done,
        })?;
        return Ok(Level {
            line: first.line,
            rest: body.get().as_slice(),
            done: Items::new(alloc),
        });
    }
    let command = plain_command(alloc, &first.command)?;
    let mut done = done;
    done.push(PlainItem {
        line: first.line,
        command,
    })?;
    Ok(Level {
        line,
        rest: behind,
        done,
    })
}

/// Goes out of a level of which nothing is left.
#[tactic(auto, using(crate::proofs::Levels::leaves, crate::proofs::Levels::ends))]
fn leave<'a>(
    alloc: Global,
    outer: &mut Items<Level<'a>>,
    level: Level<'a>,
) -> Result<Left<'a>, Memory>
    requires { level.rest.now ≡ [] }
    ensures { IfOk result (λ left. (whole : List tree.Item) → Waits whole outer.old level.entry.line level.entry.rest.now level.entry.done → Leads whole outer.new left) }
{
    let body = Shared::new(alloc, level.done)?;
    let Some(below) = outer.pop() else {
        return Ok(Left::All(body));
    };
    let Level { line, rest, done } = below;
    let mut done = done;
    done.push(PlainItem {
        line: level.line,
        command: PlainCommand::Subshell { body },
    })?;
    Ok(Left::Within(Level { line, rest, done }))
}

/// What a shell runs of a list: each command in its place.
#[tactic(auto, using(crate::proofs::Levels::begins))]
pub fn lower(alloc: Global, list: &List) -> Result<PlainList, Memory>
    ensures { IfOk result (λ l. Lowers list.now l) }
{
    let mut outer: Items<Level> = Items::new(alloc);
    let mut level = Level {
        line: 0,
        rest: list.get().as_slice(),
        done: Items::new(alloc),
    };
    for _ in 0..u64::MAX {
        match level.rest.split_first() {
            Some((first, behind)) => level = go(alloc, &mut outer, level, first, behind)?,
            None => match leave(alloc, &mut outer, level)? {
                Left::All(list) => return Ok(list),
                Left::Within(below) => level = below,
            },
        }
    }
    Err(Memory)
}
