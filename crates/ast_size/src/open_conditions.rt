//! Parts of conditions, one level at a time.
ghost use Rattle.std.specs.Prelude.{IfOk, ◌≡◌, ◌+◌, map};
ghost use Rattle.ast_size.specs.Parts.{size_of, Adds};
ghost use Rattle.ast_size.specs.Size.{total, size_of_condition, size_of_term, size_of_test};

use crate::left::Left;
use crate::open_words::open_word;
use crate::part::{Part, word_part};
use ksh_ast::{Term, Test};
use ksh_base::{Items, Memory};

/// One of them, and the others.
pub fn open_condition<'a>(condition: &'a [Items<Term>], left: &mut Left<'a>) -> Result<u64, Memory>
    ensures { IfOk result (λ nodes. Adds nodes (size_of_condition condition.now) left.old left.new) }
{
    let Some((first, rest)) = condition.split_first() else {
        return Ok(0);
    };
    left.put(
        0,
        Part::Terms(first.as_slice()),
        Part::Condition(rest),
        Part::Nothing,
    )
}

/// One of them, and the others.
#[tactic(auto, using(crate::proofs::Levels::term_test))]
pub fn open_terms<'a>(terms: &'a [Term], left: &mut Left<'a>) -> Result<u64, Memory>
    ensures { IfOk result (λ nodes. Adds nodes (total (map size_of_term terms.now)) left.old left.new) }
{
    let Some((first, rest)) = terms.split_first() else {
        return Ok(0);
    };
    left.put(1, Part::Test(&first.test), Part::Terms(rest), Part::Nothing)
}

/// What a test holds.
#[tactic(auto, using(crate::proofs::Levels::test_sizes))]
pub fn open_test<'a>(test: &'a Test, left: &mut Left<'a>) -> Result<u64, Memory>
    ensures { IfOk result (λ nodes. Adds nodes (size_of_test test.now) left.old left.new) }
{
    match test {
        Test::Nested(condition) => {
            let condition = Part::Condition(condition.as_slice());
            left.put(0, condition, Part::Nothing, Part::Nothing)
        }
        Test::Unary { word, .. } => open_word(word, left),
        Test::Binary {
            left: first,
            right,
            ..
        } => { left.put(0, word_part(first), word_part(right), Part::Nothing) }
        Test::Word(word) => open_word(word, left),
    }
}
