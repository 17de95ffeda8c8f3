//! A part of a tree is opened to what it holds.
ghost use Rattle.std.specs.Prelude.{IfOk};
ghost use Rattle.ast_size.specs.Parts.{size_of, Adds};

use crate::left::Left;
use crate::open_assigns::{open_arguments, open_assign, open_assigns, open_members};
use crate::open_commands::{
    open_arms, open_case_items, open_command, open_items, open_links, open_lists, open_redirects,
};
use crate::open_conditions::{open_condition, open_terms, open_test};
use crate::open_exprs::{open_arith_links, open_arith_path, open_expr};
use crate::open_words::{
    open_arith, open_form, open_pairs, open_param, open_path, open_pieces, open_steps, open_words,
};
use crate::part::Part;
use ksh_base::Memory;

/// A part has as many nodes as what it is opened to.
pub fn open<'a>(part: Part<'a>, left: &mut Left<'a>) -> Result<u64, Memory>
    ensures { IfOk result (λ nodes. Adds nodes (size_of part.entry) left.old left.new) }
{
    match part {
        Part::Nothing => Ok(0),
        Part::Pieces(pieces) => open_pieces(pieces, left),
        Part::Words(words) => open_words(words, left),
        Part::Param(param) => open_param(param, left),
        Part::Form(form) => open_form(form, left),
        Part::Path(parts) => open_path(parts, left),
        Part::Arith(text) => open_arith(text, left),
        Part::Steps(first, test, step) => open_steps(first, test, step, left),
        Part::Expr(expr) => open_expr(expr, left),
        Part::ArithLinks(links) => open_arith_links(links, left),
        Part::ArithPath(parts) => open_arith_path(parts, left),
        Part::Pairs(pairs) => open_pairs(pairs, left),
        Part::Members(members) => open_members(members, left),
        Part::Arguments(arguments) => open_arguments(arguments, left),
        Part::Assign(assign) => open_assign(assign, left),
        Part::Assigns(assigns) => open_assigns(assigns, left),
        Part::Redirects(redirects) => open_redirects(redirects, left),
        Part::Terms(terms) => open_terms(terms, left),
        Part::Test(test) => open_test(test, left),
        Part::Condition(condition) => open_condition(condition, left),
        Part::Command(command) => open_command(command, left),
        Part::Items(items) => open_items(items, left),
        Part::Lists(lists) => open_lists(lists, left),
        Part::Links(links) => open_links(links, left),
        Part::Arms(arms) => open_arms(arms, left),
        Part::CaseItems(items) => open_case_items(items, left),
    }
}
