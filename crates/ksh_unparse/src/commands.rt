//! Commands.
ghost use Rattle.std.specs.Prelude.{◌≡◌, OnOk, codes, map};
ghost use Rattle.ksh_unparse.specs.Commands.{background_bytes, blank, condition_put, do_put, link_bytes, loop_bytes, redirects_put, section, simple_put, stages_behind, stages_put, words_behind};
ghost use Rattle.ksh_unparse.specs.Commands as commands;
ghost use Rattle.ksh_unparse.specs.Marks.{each, line, lines, say};
ghost use Rattle.ksh_unparse.specs.Stack.{link_puts, list_puts, maybe_arith, redirect_spots, to_write, word_spots};
ghost use Rattle.ksh_unparse.specs.Tree.{argument_put, arith_put, assign_put, case_item_put, command_put, term_put};
ghost use Rattle.ksh_unparse.specs.Words.{word_put};

use crate::assigns::{
    is_reserved, put_alone, put_argument, put_assign, put_function, put_redirect,
};
use crate::branches::put_if;
use crate::conditions::put_condition;
use crate::left::{Left, Task};
use crate::sections::{put_do, put_section};
use crate::words::put_arith;
use ksh_ast::{Argument, Arith, Assign, CaseItem, Command, Condition, Link, List, Redirect, Word};
use ksh_base::{Memory, Name};

/// A command.
#[tactic(auto, unfolding(crate::specs::Tree::command_put, crate::specs::Tree::item_put, crate::specs::Tree::piece_spot, crate::specs::Tree::arith_put, crate::specs::Tree::term_put))]
pub fn put_command<'a>(command: &'a Command, left: &mut Left<'a>) -> Result<(), Memory>
    ensures { OnOk result (to_write left.new.tasks ≡ command_put command.now (to_write left.old.tasks)) }
{
    match command {
        Command::Arith { text, redirects } => put_arithmetic(text, redirects.as_slice(), left),
        Command::Cond { test, redirects } => put_test(test, redirects.as_slice(), left),
        Command::Group { body, redirects } => {
            put_list(b"{", body, b"}", redirects.as_slice(), left)
        }
        Command::Subshell { body, redirects } => {
            put_list(b"(", body, b")", redirects.as_slice(), left)
        }
        Command::Function { definition } => put_function(definition.get(), left),
        Command::Pipeline { members } => put_pipeline(members.as_slice(), left),
        Command::AndOr { first, rest } => {
            left.push(Task::Links(rest.as_slice()))?;
            left.push(Task::Command(first.get()))
        }
        Command::Not { inner } => {
            left.push(Task::Command(inner.get()))?;
            left.push(Task::Bytes(b"! "))
        }
        Command::Background { inner, coprocess } => {
            left.push(Task::Bytes(background_bytes(*coprocess)))?;
            put_alone(inner.get().as_slice(), left)
        }
        _ => put_choice(command, left),
    }
}

/// A simple command, `if`, `case`, `while` or `until`; other loops are left to `put_for`.
#[tactic(auto, unfolding(crate::specs::Tree::command_put, crate::specs::Tree::item_put, crate::specs::Tree::piece_spot, crate::specs::Tree::case_item_put))]
fn put_choice<'a>(command: &'a Command, left: &mut Left<'a>) -> Result<(), Memory>
    ensures { OnOk result (to_write left.new.tasks ≡ command_put command.now (to_write left.old.tasks)) }
{
    match command {
        Command::Simple {
            assigns,
            words,
            redirects,
        } => put_simple(
            assigns.as_slice(),
            words.as_slice(),
            redirects.as_slice(),
            left,
        ),
        Command::If {
            arms,
            otherwise,
            redirects,
        } => put_if(arms.as_slice(), otherwise, redirects.as_slice(), left),
        Command::Loop {
            until,
            test,
            body,
            redirects,
        } => put_loop(loop_bytes(*until), test, body, redirects.as_slice(), left),
        Command::Case {
            word,
            items,
            redirects,
        } => put_case(word, items.as_slice(), redirects.as_slice(), left),
        _ => put_for(command, left),
    }
}

/// `for`; `select` is left to `put_select`.
#[tactic(auto, unfolding(crate::specs::Tree::command_put, crate::specs::Tree::item_put, crate::specs::Tree::piece_spot, crate::specs::Tree::arith_put))]
fn put_for<'a>(command: &'a Command, left: &mut Left<'a>) -> Result<(), Memory>
    ensures { OnOk result (to_write left.new.tasks ≡ command_put command.now (to_write left.old.tasks)) }
{
    match command {
        Command::For {
            name,
            words: Some(words),
            body,
            redirects,
        } => {
            put_do(body, redirects.as_slice(), left)?;
            put_in(b"for ", name, words.as_slice(), left)
        }
        Command::For {
            name,
            words: None,
            body,
            redirects,
        } => {
            put_do(body, redirects.as_slice(), left)?;
            put_named(b"for ", name, left)
        }
        Command::ForArith {
            first,
            test,
            step,
            body,
            redirects,
        } => {
            put_do(body, redirects.as_slice(), left)?;
            put_for_arith(first, test, step, left)
        }
        _ => put_select(command, left),
    }
}

/// `select`; any other form stays a task.
#[tactic(auto, unfolding(crate::specs::Tree::command_put, crate::specs::Tree::item_put, crate::specs::Tree::piece_spot))]
fn put_select<'a>(command: &'a Command, left: &mut Left<'a>) -> Result<(), Memory>
    ensures { OnOk result (to_write left.new.tasks ≡ command_put command.now (to_write left.old.tasks)) }
{
    match command {
        Command::Select {
            name,
            words: Some(words),
            body,
            redirects,
        } => {
            put_do(body, redirects.as_slice(), left)?;
            put_in(b"select ", name, words.as_slice(), left)
        }
        Command::Select {
            name,
            words: None,
            body,
            redirects,
        } => {
            put_do(body, redirects.as_slice(), left)?;
            put_named(b"select ", name, left)
        }
        _ => left.push(Task::Command(command)),
    }
}

/// A simple command. Its redirections stand last, but before a reserved word that is its first word.
fn put_simple<'a>(
    assigns: &'a [Assign],
    words: &'a [Argument],
    redirects: &'a [Redirect<Word>],
    left: &mut Left<'a>,
) -> Result<(), Memory>
    ensures { OnOk result (to_write left.new.tasks ≡ simple_put (map assign_put assigns.now) (map argument_put words.now) (map redirect_spots redirects.now) (to_write left.old.tasks)) }
{
    if let Some((assign, more)) = assigns.split_first() {
        left.push(Task::Redirects(redirects))?;
        left.push(Task::Arguments(words))?;
        left.push(Task::Assigns(more))?;
        return put_assign(assign, left);
    }
    match (words.split_first(), redirects.split_first()) {
        (None, None) => Ok(()),
        (None, Some((redirect, more))) => {
            left.push(Task::Redirects(more))?;
            put_redirect(redirect, left)
        }
        (Some((word, more)), None) => {
            left.push(Task::Arguments(more))?;
            put_argument(word, left)
        }
        (Some((word, more)), Some((redirect, others))) => {
            if is_reserved(word) {
                left.push(Task::Arguments(words))?;
                left.push(Task::Redirects(others))?;
                put_redirect(redirect, left)
            } else {
                left.push(Task::Redirects(redirects))?;
                left.push(Task::Arguments(more))?;
                put_argument(word, left)
            }
        }
    }
}

fn put_arithmetic<'a>(
    text: &'a Arith,
    redirects: &'a [Redirect<Word>],
    left: &mut Left<'a>,
) -> Result<(), Memory>
    ensures { OnOk result (to_write left.new.tasks ≡ say (codes "((") (arith_put text.now (say (codes "))") (redirects_put (map redirect_spots redirects.now) (to_write left.old.tasks))))) }
{
    left.push(Task::Redirects(redirects))?;
    left.push(Task::Bytes(b"))"))?;
    put_arith(text, left)?;
    left.push(Task::Bytes(b"(("))
}

fn put_test<'a>(
    test: &'a Condition,
    redirects: &'a [Redirect<Word>],
    left: &mut Left<'a>,
) -> Result<(), Memory>
    ensures { OnOk result (to_write left.new.tasks ≡ say (codes "[[ ") (condition_put (map (map term_put) test.now) (say (codes " ]]") (redirects_put (map redirect_spots redirects.now) (to_write left.old.tasks))))) }
{
    left.push(Task::Redirects(redirects))?;
    left.push(Task::Bytes(b" ]]"))?;
    put_condition(test, left)?;
    left.push(Task::Bytes(b"[[ "))
}

fn put_list<'a>(
    begin: &'a [u8],
    body: &'a List,
    end: &'a [u8],
    redirects: &'a [Redirect<Word>],
    left: &mut Left<'a>,
) -> Result<(), Memory>
    ensures { OnOk result (to_write left.new.tasks ≡ section begin.now (list_puts body.now) (say end.now (redirects_put (map redirect_spots redirects.now) (to_write left.old.tasks)))) }
{
    left.push(Task::Redirects(redirects))?;
    left.push(Task::Bytes(end))?;
    put_section(begin, body, left)
}

fn put_loop<'a>(
    begin: &'a [u8],
    test: &'a List,
    body: &'a List,
    redirects: &'a [Redirect<Word>],
    left: &mut Left<'a>,
) -> Result<(), Memory>
    ensures { OnOk result (to_write left.new.tasks ≡ say begin.now (lines (list_puts test.now) (do_put (list_puts body.now) (redirects_put (map redirect_spots redirects.now) (to_write left.old.tasks))))) }
{
    put_do(body, redirects, left)?;
    left.push(Task::List(test.get().as_slice()))?;
    left.push(Task::Bytes(begin))
}

/// `for name in words`
fn put_in<'a>(
    begin: &'a [u8],
    name: &'a Name,
    words: &'a [Word],
    left: &mut Left<'a>,
) -> Result<(), Memory>
    ensures { OnOk result (to_write left.new.tasks ≡ say begin.now (say name.now (say (codes " in") (words_behind blank (map word_spots words.now) (line (to_write left.old.tasks)))))) }
{
    left.push(Task::Line)?;
    left.push(Task::Words(b" ", words))?;
    left.push(Task::Bytes(b" in"))?;
    left.push(Task::Bytes(name.text().bytes()))?;
    left.push(Task::Bytes(begin))
}

/// `for name`
fn put_named<'a>(begin: &'a [u8], name: &'a Name, left: &mut Left<'a>) -> Result<(), Memory>
    ensures { OnOk result (to_write left.new.tasks ≡ say begin.now (say name.now (line (to_write left.old.tasks)))) }
{
    left.push(Task::Line)?;
    left.push(Task::Bytes(name.text().bytes()))?;
    left.push(Task::Bytes(begin))
}

/// `for ((first;test;step))`: a blank would belong to a text that is expanded.
fn put_for_arith<'a>(
    first: &'a Option<Arith>,
    test: &'a Option<Arith>,
    step: &'a Option<Arith>,
    left: &mut Left<'a>,
) -> Result<(), Memory>
    ensures { OnOk result (to_write left.new.tasks ≡ say (codes "for ((") (maybe_arith first.now (say (codes ";") (maybe_arith test.now (say (codes ";") (maybe_arith step.now (say (codes "))") (line (to_write left.old.tasks))))))))) }
{
    left.push(Task::Line)?;
    left.push(Task::Bytes(b"))"))?;
    put_maybe(step, left)?;
    left.push(Task::Bytes(b";"))?;
    put_maybe(test, left)?;
    left.push(Task::Bytes(b";"))?;
    put_maybe(first, left)?;
    left.push(Task::Bytes(b"for (("))
}

fn put_maybe<'a>(text: &'a Option<Arith>, left: &mut Left<'a>) -> Result<(), Memory>
    ensures { OnOk result (to_write left.new.tasks ≡ maybe_arith text.now (to_write left.old.tasks)) }
{
    match text {
        Some(text) => put_arith(text, left),
        None => Ok(()),
    }
}

fn put_case<'a>(
    word: &'a Word,
    items: &'a [CaseItem],
    redirects: &'a [Redirect<Word>],
    left: &mut Left<'a>,
) -> Result<(), Memory>
    ensures { OnOk result (to_write left.new.tasks ≡ say (codes "case ") (word_put (word_spots word.now) (say (codes " in") (line (each (map case_item_put items.now) (say (codes "esac") (redirects_put (map redirect_spots redirects.now) (to_write left.old.tasks)))))))) }
{
    left.push(Task::Redirects(redirects))?;
    left.push(Task::Bytes(b"esac"))?;
    left.push(Task::CaseItems(items))?;
    left.push(Task::Line)?;
    left.push(Task::Bytes(b" in"))?;
    left.push(Task::Word(word.as_slice()))?;
    left.push(Task::Bytes(b"case "))
}

fn put_pipeline<'a>(members: &'a [List], left: &mut Left<'a>) -> Result<(), Memory>
    ensures { OnOk result (to_write left.new.tasks ≡ stages_put (map list_puts members.now) (to_write left.old.tasks)) }
{
    let Some((member, rest)) = members.split_first() else {
        return Ok(());
    };
    left.push(Task::Stages(rest))?;
    put_alone(member.get().as_slice(), left)
}

/// Further members of a pipeline.
pub fn put_stages<'a>(members: &'a [List], left: &mut Left<'a>) -> Result<(), Memory>
    ensures { OnOk result (to_write left.new.tasks ≡ stages_behind (map list_puts members.now) (to_write left.old.tasks)) }
{
    let Some((member, rest)) = members.split_first() else {
        return Ok(());
    };
    left.push(Task::Stages(rest))?;
    put_alone(member.get().as_slice(), left)?;
    left.push(Task::Line)?;
    left.push(Task::Bytes(b" |"))
}

/// Commands behind `&&` and `||`.
pub fn put_links<'a>(links: &'a [Link<Command>], left: &mut Left<'a>) -> Result<(), Memory>
    ensures { OnOk result (to_write left.new.tasks ≡ commands.links_put (map link_puts links.now) (to_write left.old.tasks)) }
{
    let Some((link, rest)) = links.split_first() else {
        return Ok(());
    };
    left.push(Task::Links(rest))?;
    left.push(Task::Command(&link.command))?;
    left.push(Task::Line)?;
    left.push(Task::Bytes(link_bytes(link.or)))
}

fn loop_bytes<'a>(until: bool) -> &'a [u8]
    ensures { result.now ≡ loop_bytes until }
{
    if until { b"until " } else { b"while " }
}

fn link_bytes<'a>(or: bool) -> &'a [u8]
    ensures { result.now ≡ link_bytes or }
{
    if or { b" ||" } else { b" &&" }
}

fn background_bytes<'a>(coprocess: bool) -> &'a [u8]
    ensures { result.now ≡ background_bytes coprocess }
{
    if coprocess { b" |&" } else { b" &" }
}
