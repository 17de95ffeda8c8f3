//! Copies of a `!` group's alternatives that have come to be alike, of which one does for all.
ghost use Rattle.std.specs.Prelude.{◌≡◌, ℕ, List, true};
ghost use Rattle.ksh_pattern.specs.Cells.{whole, rest, whole_all, rest_all, whole_some, rest_some, rest_copies};
ghost use Rattle.ksh_pattern.specs.declared.byte_test.ByteTest.TheVariants as test;

use crate::byte_test::{ByteTest, Member};
use crate::cell::Cell;

/// Whether two tests are one; where it says so, they are.
fn same_test(a: &ByteTest, b: &ByteTest) -> bool
    ensures { result ≡ true → a.now ≡ b.now }
{
    match a {
        ByteTest::Is(byte) => is_byte(b, *byte),
        ByteTest::Any => matches!(b, ByteTest::Any),
        ByteTest::Bracket(turned, members) => match b {
            ByteTest::Bracket(turned_too, others) => {
                turned == turned_too
                    && same_members(members.get().as_slice(), others.get().as_slice())
            }
            ByteTest::Is(_) | ByteTest::Any => false,
        },
    }
}

/// Whether a test asks for that byte.
fn is_byte(asked: &ByteTest, byte: u8) -> bool
    ensures { result ≡ true → asked.now ≡ test.Is byte }
{
    match asked {
        ByteTest::Is(wanted) => *wanted == byte,
        ByteTest::Any | ByteTest::Bracket(_, _) => false,
    }
}

/// Whether two brackets list the same members, in the same order.
fn same_members(a: &[Member], b: &[Member]) -> bool
    ensures { result ≡ true → a.now ≡ b.now }
{
    if a.len() != b.len() {
        return false;
    }
    for (index, member) in a.iter().enumerate() {
        if *member != b[index] {
            return false;
        }
    }
    true
}

/// Whether two parts that are being matched are alike: marked at the same places of the same pattern. A `!` group is
/// taken for unlike.
#[cycle(alike)]
fn same_cell(a: &Cell, b: &Cell) -> bool
    ensures whole { result ≡ true → (w : List ℕ) → whole a.now w ≡ whole b.now w }
    ensures rest { result ≡ true → (w : List ℕ) → rest a.now w ≡ rest b.now w }
{
    match a {
        Cell::One(test, mark) => match b {
            Cell::One(test_too, mark_too) => mark == mark_too && same_test(test, test_too),
            Cell::AnyText(_) | Cell::Group(_, _) | Cell::Not(_, _) => false,
        },
        Cell::AnyText(mark) => match b {
            Cell::AnyText(mark_too) => mark == mark_too,
            Cell::One(_, _) | Cell::Group(_, _) | Cell::Not(_, _) => false,
        },
        Cell::Group(kind, alternatives) => match b {
            Cell::Group(kind_too, others) => kind == kind_too && same_some(alternatives, others),
            Cell::One(_, _) | Cell::AnyText(_) | Cell::Not(_, _) => false,
        },
        Cell::Not(_, _) => false,
    }
}

/// Whether two lists of parts are alike, one by one.
#[cycle(alike)]
fn same_all(a: &[Cell], b: &[Cell]) -> bool
    ensures whole { result ≡ true → (w : List ℕ) → whole_all a.now w ≡ whole_all b.now w }
    ensures rest { result ≡ true → (w : List ℕ) → rest_all a.now w ≡ rest_all b.now w }
{
    if a.len() != b.len() {
        return false;
    }
    for (index, cell) in a.iter().enumerate() {
        if !same_cell(cell, &b[index]) {
            return false;
        }
    }
    true
}

/// Whether two copies of alternatives are alike, one by one.
#[cycle(alike)]
fn same_some(a: &[Vec<Cell>], b: &[Vec<Cell>]) -> bool
    ensures whole { result ≡ true → (w : List ℕ) → whole_some a.now w ≡ whole_some b.now w }
    ensures rest { result ≡ true → (w : List ℕ) → rest_some a.now w ≡ rest_some b.now w }
{
    if a.len() != b.len() {
        return false;
    }
    for (index, cells) in a.iter().enumerate() {
        if !same_all(cells, &b[index]) {
            return false;
        }
    }
    true
}

/// Drops each copy that is like its neighbour.
pub fn drop_doubles(copies: &mut Vec<Vec<Vec<Cell>>>)
    ensures { (w : List ℕ) → rest_copies copies.new.items w ≡ rest_copies copies.old.items w }
{
    let mut at = 1;
    while at < copies.len() {
        if same_some(&copies[at - 1], &copies[at]) {
            copies.remove(at);
        } else {
            at += 1;
        }
    }
}
