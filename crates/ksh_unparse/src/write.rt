//! A script's canonical text.
ghost use Rattle.std.specs.Prelude.{◌≡◌, ◌++◌, IfOk, OnErr, OnOk, []};
ghost use Rattle.ksh_unparse.specs.Paper.{paper_text};
ghost use Rattle.ksh_unparse.specs.Stack.{task_marks, to_write};
ghost use Rattle.ksh_unparse.specs.Tree.{list_text};

use crate::arith::{put_expr, put_expr_parts, put_links as put_expr_links};
use crate::assigns::{
    put_arguments, put_assign, put_assigns, put_behind_lines, put_list, put_members, put_names,
    put_pairs, put_redirects, put_words,
};
use crate::branches::{put_case_items, put_elifs};
use crate::commands::{put_command, put_links, put_stages};
use crate::conditions::{put_alternatives, put_term, put_terms};
use crate::left::{Left, Task};
use crate::paper::Paper;
use crate::words::{put_body, put_parts, put_pieces};
use ksh_ast::Script;
use ksh_base::{Memory, Text};
use std::alloc::Global;

/// Appends the canonical text of the script. On `Memory`, `out` holds what it held.
pub fn write_script(alloc: Global, script: &Script, out: &mut Text) -> Result<(), Memory>
    ensures ok { OnOk result (out.new ≡ out.old ++ list_text script.now.list) }
    ensures err { OnErr result (out.new ≡ out.old) }
{
    let text = list_text(alloc, script)?;
    out.append(text.bytes())
}

#[tactic(auto, unfolding(crate::specs::Tree::list_text))]
fn list_text(alloc: Global, script: &Script) -> Result<Text, Memory>
    ensures { IfOk result (λ t. t ≡ list_text script.now.list) }
{
    let mut left = Left::new(alloc);
    let mut paper = Paper::new(alloc);
    left.push(Task::List(script.list.get().as_slice()))?;
    do_all(&mut left, &mut paper)?;
    Ok(paper.text)
}

/// Does all that is left. A tree has fewer parts than the loop has rounds, so that only memory runs out.
fn do_all<'a>(left: &mut Left<'a>, paper: &mut Paper) -> Result<(), Memory>
    ensures { OnOk result (paper_text paper.new [] ≡ paper_text paper.old (to_write left.old.tasks)) }
{
    'rounds: for _ in 0..u64::MAX {
        let Some(task) = left.pop() else {
            return Ok(());
        };
        do_task(task, left, paper)?;
    }
    Err(Memory)
}

/// Does a task: it writes bytes, or puts the tasks that the part consists of before those that are left.
fn do_task<'a>(task: Task<'a>, left: &mut Left<'a>, paper: &mut Paper) -> Result<(), Memory>
    ensures { OnOk result (paper_text paper.new (to_write left.new.tasks) ≡ paper_text paper.old (task_marks task.entry (to_write left.old.tasks))) }
{
    match task {
        Task::Bytes(bytes) => paper.say(bytes),
        Task::Quoted(text) => paper.quote(text),
        Task::Escaped(text) => paper.escape(text),
        Task::Number(number) => paper.number(number),
        Task::Line => paper.end_line(),
        Task::Open => paper.open(),
        Task::Close => paper.close(),
        Task::List(list) => put_list(list, left),
        Task::BehindLines(list) => put_behind_lines(list, left),
        Task::Command(command) => put_command(command, left),
        Task::Word(word) => put_pieces(word, false, false, left),
        Task::Body(word) => put_body(word, left),
        Task::Pieces(word, arithmetic, inside) => put_pieces(word, arithmetic, inside, left),
        Task::Words(bytes, words) => put_words(bytes, words, left),
        Task::Arguments(arguments) => put_arguments(arguments, left),
        Task::Assign(assign) => put_assign(assign, left),
        Task::Assigns(assigns) => put_assigns(assigns, left),
        Task::Redirects(redirects) => put_redirects(redirects, left),
        Task::Pairs(pairs) => put_pairs(pairs, left),
        Task::Members(members) => put_members(members, left),
        Task::Parts(parts) => put_parts(parts, left),
        Task::Names(names) => put_names(names, left),
        Task::Term(term) => put_term(term, left),
        Task::Terms(terms) => put_terms(terms, left),
        Task::Alternatives(condition) => put_alternatives(condition, left),
        Task::Arms(arms) => put_elifs(arms, left),
        Task::CaseItems(items) => put_case_items(items, left),
        Task::Stages(members) => put_stages(members, left),
        Task::Links(links) => put_links(links, left),
        Task::Expr(expr, level) => put_expr(expr, level, left),
        Task::ExprLinks(links, level) => put_expr_links(links, level, left),
        Task::ExprParts(parts) => put_expr_parts(parts, left),
    }
}
