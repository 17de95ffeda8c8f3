//! Whether two trees are equal.
ghost use Rattle.std.specs.Prelude.{◌≡◌, ◌↔◌, IsTrue, IfOk};
ghost use Rattle.ast_equal.specs.Equal.{AreEqual, ComesTo};

use crate::equal_assigns::{
    compare_arguments, compare_assigns, compare_members, compare_pairs, compare_words,
};
use crate::equal_commands::{
    compare_arms, compare_case_items, compare_command, compare_items, compare_links, compare_lists,
};
use crate::equal_conditions::{compare_terms, compare_tests};
use crate::equal_exprs::{compare_arith_links, compare_expr};
use crate::equal_redirects::compare_redirects;
use crate::equal_words::{compare_parts, compare_pieces};
use crate::unsettled::{Sides, Unsettled};
use ksh_ast::{Assign, Item, Piece, Redirect, Script, Word};
use ksh_base::Memory;
use std::alloc::Global;

/// Whether the words of these pieces are equal.
pub fn words_equal(alloc: Global, left: &[Piece], right: &[Piece]) -> Result<bool, Memory>
    ensures { IfOk result (λ same. IsTrue same ↔ (left.now ≡ right.now)) }
{
    all_equal(alloc, Sides::Pieces(left, right))
}

/// Whether the assignments are equal.
pub fn assigns_equal(alloc: Global, left: &[Assign], right: &[Assign]) -> Result<bool, Memory>
    ensures { IfOk result (λ same. IsTrue same ↔ (left.now ≡ right.now)) }
{
    all_equal(alloc, Sides::Assigns(left, right))
}

/// Whether the redirections are equal.
pub fn redirects_equal(
    alloc: Global,
    left: &[Redirect<Word>],
    right: &[Redirect<Word>],
) -> Result<bool, Memory>
    ensures { IfOk result (λ same. IsTrue same ↔ (left.now ≡ right.now)) }
{
    all_equal(alloc, Sides::Redirects(left, right))
}

/// Whether the lists of commands are equal, their lines included.
pub fn lists_equal(alloc: Global, left: &[Item], right: &[Item]) -> Result<bool, Memory>
    ensures { IfOk result (λ same. IsTrue same ↔ (left.now ≡ right.now)) }
{
    all_equal(alloc, Sides::Items(left, right))
}

/// Whether the scripts are equal, the lines of their commands and the texts of their functions included.
pub fn scripts_equal(alloc: Global, left: &Script, right: &Script) -> Result<bool, Memory>
    ensures { IfOk result (λ same. IsTrue same ↔ (left.now ≡ right.now)) }
{
    lists_equal(
        alloc,
        left.list.get().as_slice(),
        right.list.get().as_slice(),
    )
}

/// Whether the two sides are equal. More than 2^64 parts count as want of memory.
fn all_equal<'a>(alloc: Global, sides: Sides<'a>) -> Result<bool, Memory>
    ensures { IfOk result (λ same. IsTrue same ↔ AreEqual sides.entry) }
{
    let mut unsettled = Unsettled::new(alloc);
    unsettled.push(sides)?;
    for _ in 0..u64::MAX {
        let Some(next) = unsettled.pop() else {
            return Ok(true);
        };
        if !compare(next, &mut unsettled)? {
            return Ok(false);
        }
    }
    Err(Memory)
}

/// Looks at one level of two sides: what lies further in isn't settled yet.
fn compare<'a>(sides: Sides<'a>, unsettled: &mut Unsettled<'a>) -> Result<bool, Memory>
    ensures { IfOk result (λ same. ComesTo (AreEqual sides.entry) unsettled.old same unsettled.new) }
{
    match sides {
        Sides::Pieces(left, right) => compare_pieces(left, right, unsettled),
        Sides::Words(left, right) => compare_words(left, right, unsettled),
        Sides::Parts(left, right) => compare_parts(left, right, unsettled),
        Sides::Expr(left, right) => compare_expr(left, right, unsettled),
        Sides::ArithLinks(left, right) => compare_arith_links(left, right, unsettled),
        Sides::Pairs(left, right) => compare_pairs(left, right, unsettled),
        Sides::Members(left, right) => compare_members(left, right, unsettled),
        Sides::Arguments(left, right) => compare_arguments(left, right, unsettled),
        Sides::Assigns(left, right) => compare_assigns(left, right, unsettled),
        Sides::Redirects(left, right) => compare_redirects(left, right, unsettled),
        Sides::Terms(left, right) => compare_terms(left, right, unsettled),
        Sides::Tests(left, right) => compare_tests(left, right, unsettled),
        Sides::Items(left, right) => compare_items(left, right, unsettled),
        Sides::Lists(left, right) => compare_lists(left, right, unsettled),
        Sides::Command(left, right) => compare_command(left, right, unsettled),
        Sides::Links(left, right) => compare_links(left, right, unsettled),
        Sides::Arms(left, right) => compare_arms(left, right, unsettled),
        Sides::CaseItems(left, right) => compare_case_items(left, right, unsettled),
    }
}
