//! Parts of commands, one level at a time.
ghost use Rattle.std.specs.Prelude.{IfOk, ◌+◌, map};
ghost use Rattle.ast_size.specs.Parts.{size_of, Adds};
ghost use Rattle.ast_size.specs.Size.{total, total_all, total_arms, total_links, size_of_command, size_of_items, size_of_item, size_of_redirects, link_size, arm_sizes, size_of_case_item};

use crate::left::Left;
use crate::part::{Part, list_or_nothing, list_part, redirects_part, word_part, words_or_nothing};
use ksh_ast::{Arm, CaseItem, Command, Item, Link, List, Redirect, Word};
use ksh_base::{Items, Memory};

/// One of them, and the others.
#[tactic(auto, using(crate::proofs::Levels::item_command))]
pub fn open_items<'a>(items: &'a [Item], left: &mut Left<'a>) -> Result<u64, Memory>
    ensures { IfOk result (λ nodes. Adds nodes (size_of_items items.now) left.old left.new) }
{
    let Some((first, rest)) = items.split_first() else {
        return Ok(0);
    };
    left.put(
        0,
        Part::Command(&first.command),
        Part::Items(rest),
        Part::Nothing,
    )
}

/// One of them, and the others.
pub fn open_lists<'a>(lists: &'a [List], left: &mut Left<'a>) -> Result<u64, Memory>
    ensures { IfOk result (λ nodes. Adds nodes (total_all (map (map size_of_item) lists.now)) left.old left.new) }
{
    let Some((first, rest)) = lists.split_first() else {
        return Ok(0);
    };
    left.put(0, list_part(first), Part::Lists(rest), Part::Nothing)
}

/// One of them, and the others.
pub fn open_links<'a>(links: &'a [Link<Command>], left: &mut Left<'a>) -> Result<u64, Memory>
    ensures { IfOk result (λ nodes. Adds nodes (total_links (map link_size links.now)) left.old left.new) }
{
    let Some((first, rest)) = links.split_first() else {
        return Ok(0);
    };
    left.put(
        0,
        Part::Command(&first.command),
        Part::Links(rest),
        Part::Nothing,
    )
}

/// One of them, and the others.
pub fn open_arms<'a>(arms: &'a [Arm<List>], left: &mut Left<'a>) -> Result<u64, Memory>
    ensures { IfOk result (λ nodes. Adds nodes (total_arms (map arm_sizes arms.now)) left.old left.new) }
{
    let Some((first, rest)) = arms.split_first() else {
        return Ok(0);
    };
    left.put(
        0,
        list_part(&first.test),
        list_part(&first.body),
        Part::Arms(rest),
    )
}

/// One of them, and the others.
#[tactic(auto, using(crate::proofs::Levels::case_item_parts))]
pub fn open_case_items<'a>(items: &'a [CaseItem], left: &mut Left<'a>) -> Result<u64, Memory>
    ensures { IfOk result (λ nodes. Adds nodes (total (map size_of_case_item items.now)) left.old left.new) }
{
    let Some((first, rest)) = items.split_first() else {
        return Ok(0);
    };
    let patterns = Part::Words(first.patterns.as_slice());
    left.put(0, patterns, list_part(&first.body), Part::CaseItems(rest))
}

/// One of them, and the others.
pub fn open_redirects<'a>(
    redirects: &'a [Redirect<Word>],
    left: &mut Left<'a>,
) -> Result<u64, Memory>
    ensures { IfOk result (λ nodes. Adds nodes (size_of_redirects redirects.now) left.old left.new) }
{
    let Some((first, rest)) = redirects.split_first() else {
        return Ok(0);
    };
    left.put(
        1,
        word_part(&first.word),
        Part::Redirects(rest),
        Part::Nothing,
    )
}

/// A command, and what it holds.
#[tactic(auto, using(crate::proofs::Levels::command_sizes))]
pub fn open_command<'a>(command: &'a Command, left: &mut Left<'a>) -> Result<u64, Memory>
    ensures { IfOk result (λ nodes. Adds nodes (size_of_command command.now) left.old left.new) }
{
    match command {
        Command::Arith { text, redirects } => open_node(Part::Arith(text), redirects, left),
        Command::Cond { test, redirects } => {
            open_node(Part::Condition(test.as_slice()), redirects, left)
        }
        Command::Group { body, redirects } => open_node(list_part(body), redirects, left),
        Command::Subshell { body, redirects } => open_node(list_part(body), redirects, left),
        Command::Function { definition } => left.put_node(list_part(&definition.get().body)),
        Command::Pipeline { members } => left.put_node(Part::Lists(members.as_slice())),
        Command::AndOr { first, rest } => {
            let links = Part::Links(rest.as_slice());
            left.put(1, Part::Command(first.get()), links, Part::Nothing)
        }
        Command::Not { inner } => left.put_node(Part::Command(inner.get())),
        Command::Background { inner, .. } => left.put_node(list_part(inner)),
        _ => open_choice(command, left),
    }
}

/// A node that holds a part and redirections.
fn open_node<'a>(
    part: Part<'a>,
    redirects: &'a Items<Redirect<Word>>,
    left: &mut Left<'a>,
) -> Result<u64, Memory>
    ensures { IfOk result (λ nodes. Adds nodes (1 + size_of part.entry + size_of_redirects redirects.now) left.old left.new) }
{
    left.put(1, part, redirects_part(redirects), Part::Nothing)
}

/// A node that holds two parts and redirections.
fn open_pair<'a>(
    first: Part<'a>,
    second: Part<'a>,
    redirects: &'a Items<Redirect<Word>>,
    left: &mut Left<'a>,
) -> Result<u64, Memory>
    ensures { IfOk result (λ nodes. Adds nodes (1 + size_of first.entry + size_of second.entry + size_of_redirects redirects.now) left.old left.new) }
{
    left.put(1, first, second, redirects_part(redirects))
}

/// A simple command, `if` or `case`, and what it holds; a loop is left to `open_loop`.
#[tactic(auto, using(crate::proofs::Levels::command_sizes))]
fn open_choice<'a>(command: &'a Command, left: &mut Left<'a>) -> Result<u64, Memory>
    ensures { IfOk result (λ nodes. Adds nodes (size_of_command command.now) left.old left.new) }
{
    match command {
        Command::Simple {
            assigns,
            words,
            redirects,
        } => {
            let words = Part::Arguments(words.as_slice());
            open_pair(Part::Assigns(assigns.as_slice()), words, redirects, left)
        }
        Command::If {
            arms,
            otherwise,
            redirects,
        } => {
            let arms = Part::Arms(arms.as_slice());
            open_pair(arms, list_or_nothing(otherwise), redirects, left)
        }
        Command::Case {
            word,
            items,
            redirects,
        } => {
            let items = Part::CaseItems(items.as_slice());
            open_pair(word_part(word), items, redirects, left)
        }
        _ => open_loop(command, left),
    }
}

/// A loop and what it holds; any other form stays closed.
#[tactic(auto, using(crate::proofs::Levels::command_sizes))]
fn open_loop<'a>(command: &'a Command, left: &mut Left<'a>) -> Result<u64, Memory>
    ensures { IfOk result (λ nodes. Adds nodes (size_of_command command.now) left.old left.new) }
{
    match command {
        Command::Loop {
            test,
            body,
            redirects,
            ..
        } => open_pair(list_part(test), list_part(body), redirects, left),
        Command::For {
            words,
            body,
            redirects,
            ..
        } => open_pair(words_or_nothing(words), list_part(body), redirects, left),
        Command::ForArith {
            first,
            test,
            step,
            body,
            redirects,
        } => open_pair(
            Part::Steps(first, test, step),
            list_part(body),
            redirects,
            left,
        ),
        Command::Select {
            words,
            body,
            redirects,
            ..
        } => open_pair(words_or_nothing(words), list_part(body), redirects, left),
        _ => left.put(0, Part::Command(command), Part::Nothing, Part::Nothing),
    }
}
