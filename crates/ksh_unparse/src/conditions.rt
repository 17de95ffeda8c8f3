//! Conditions.
ghost use Rattle.std.specs.Prelude.{◌≡◌, OnOk, codes, map};
ghost use Rattle.ksh_unparse.specs.Commands.{binary_bytes, condition_behind, condition_put, terms_put, unary_bytes};
ghost use Rattle.ksh_unparse.specs.Marks.{behind};
ghost use Rattle.ksh_unparse.specs.Stack.{to_write};
ghost use Rattle.ksh_unparse.specs.Tree.{term_put, test_put};

use crate::left::{Left, Task};
use ksh_ast::{BinaryTest, Condition, Term, Test, UnaryTest};
use ksh_base::{Items, Memory};

/// A condition.
pub fn put_condition<'a>(condition: &'a Condition, left: &mut Left<'a>) -> Result<(), Memory>
    ensures { OnOk result (to_write left.new.tasks ≡ condition_put (map (map term_put) condition.now) (to_write left.old.tasks)) }
{
    let Some((terms, rest)) = condition.as_slice().split_first() else {
        return Ok(());
    };
    left.push(Task::Alternatives(rest))?;
    put_terms_between(terms.as_slice(), left)
}

/// What may hold instead, each behind ` || `.
pub fn put_alternatives<'a>(condition: &'a [Items<Term>], left: &mut Left<'a>) -> Result<(), Memory>
    ensures { OnOk result (to_write left.new.tasks ≡ condition_behind (map (map term_put) condition.now) (to_write left.old.tasks)) }
{
    let Some((terms, rest)) = condition.split_first() else {
        return Ok(());
    };
    left.push(Task::Alternatives(rest))?;
    put_terms_between(terms.as_slice(), left)?;
    left.push(Task::Bytes(b" || "))
}

fn put_terms_between<'a>(terms: &'a [Term], left: &mut Left<'a>) -> Result<(), Memory>
    ensures { OnOk result (to_write left.new.tasks ≡ terms_put (map term_put terms.now) (to_write left.old.tasks)) }
{
    let Some((term, rest)) = terms.split_first() else {
        return Ok(());
    };
    left.push(Task::Terms(rest))?;
    left.push(Task::Term(term))
}

/// Terms, each behind ` && `.
pub fn put_terms<'a>(terms: &'a [Term], left: &mut Left<'a>) -> Result<(), Memory>
    ensures { OnOk result (to_write left.new.tasks ≡ behind (codes " && ") (map term_put terms.now) (to_write left.old.tasks)) }
{
    let Some((term, rest)) = terms.split_first() else {
        return Ok(());
    };
    left.push(Task::Terms(rest))?;
    left.push(Task::Term(term))?;
    left.push(Task::Bytes(b" && "))
}

/// A term.
#[tactic(auto, unfolding(crate::specs::Tree::term_put, crate::specs::Tree::test_put))]
pub fn put_term<'a>(term: &'a Term, left: &mut Left<'a>) -> Result<(), Memory>
    ensures { OnOk result (to_write left.new.tasks ≡ term_put term.now (to_write left.old.tasks)) }
{
    put_test(&term.test, left)?;
    if term.negated {
        return left.push(Task::Bytes(b"! "));
    }
    Ok(())
}

#[tactic(auto, unfolding(crate::specs::Tree::test_put, crate::specs::Tree::term_put, crate::specs::Tree::piece_spot))]
fn put_test<'a>(test: &'a Test, left: &mut Left<'a>) -> Result<(), Memory>
    ensures { OnOk result (to_write left.new.tasks ≡ test_put test.now (to_write left.old.tasks)) }
{
    match test {
        Test::Nested(condition) => {
            left.push(Task::Bytes(b" )"))?;
            put_condition(condition, left)?;
            left.push(Task::Bytes(b"( "))
        }
        Test::Unary { op, word } => {
            left.push(Task::Word(word.as_slice()))?;
            left.push(Task::Bytes(unary_bytes(*op)))
        }
        Test::Binary {
            left: first,
            op,
            right,
        } => {
            left.push(Task::Word(right.as_slice()))?;
            left.push(Task::Bytes(binary_bytes(*op)))?;
            left.push(Task::Word(first.as_slice()))
        }
        Test::Word(word) => left.push(Task::Word(word.as_slice())),
    }
}

fn unary_bytes<'a>(op: UnaryTest) -> &'a [u8]
    ensures { result.now ≡ unary_bytes op }
{
    match op {
        UnaryTest::NotEmpty => b"-n ",
        UnaryTest::Empty => b"-z ",
        UnaryTest::Exists => b"-e ",
        UnaryTest::Plain => b"-f ",
        UnaryTest::Folder => b"-d ",
        UnaryTest::Readable => b"-r ",
        UnaryTest::Writable => b"-w ",
        UnaryTest::Runnable => b"-x ",
        UnaryTest::HasBytes => b"-s ",
        UnaryTest::OptionOn => b"-o ",
        UnaryTest::IsSet => b"-v ",
    }
}

fn binary_bytes<'a>(op: BinaryTest) -> &'a [u8]
    ensures { result.now ≡ binary_bytes op }
{
    match op {
        BinaryTest::Matches => b" == ",
        BinaryTest::Differs => b" != ",
        BinaryTest::Before => b" < ",
        BinaryTest::After => b" > ",
        BinaryTest::Equal => b" -eq ",
        BinaryTest::NotEqual => b" -ne ",
        BinaryTest::Less => b" -lt ",
        BinaryTest::LessEqual => b" -le ",
        BinaryTest::Greater => b" -gt ",
        BinaryTest::GreaterEqual => b" -ge ",
    }
}
