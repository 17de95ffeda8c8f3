//! The tests of conditions.
ghost use Rattle.std.specs.Prelude.{◌≡◌};
ghost use Rattle.tree_parts.specs.Parts.{binary_by, binary_test, plain_bytes, test_of, unary_by, unary_test};

use crate::arithmetic::plain_bytes;
use ksh_ast::{BinaryTest, Test, UnaryTest, Word};
use ksh_base::Items;

fn unary_test(name: &[u8]) -> Option<UnaryTest>
    ensures { result ≡ unary_test name.now }
{
    match name {
        b"-n" => Some(UnaryTest::NotEmpty),
        b"-z" => Some(UnaryTest::Empty),
        b"-a" => Some(UnaryTest::Exists),
        b"-e" => Some(UnaryTest::Exists),
        b"-f" => Some(UnaryTest::Plain),
        b"-d" => Some(UnaryTest::Folder),
        b"-r" => Some(UnaryTest::Readable),
        b"-w" => Some(UnaryTest::Writable),
        b"-x" => Some(UnaryTest::Runnable),
        b"-s" => Some(UnaryTest::HasBytes),
        b"-o" => Some(UnaryTest::OptionOn),
        b"-v" => Some(UnaryTest::IsSet),
        _ => None,
    }
}

fn binary_test(name: &[u8]) -> Option<BinaryTest>
    ensures { result ≡ binary_test name.now }
{
    match name {
        b"=" => Some(BinaryTest::Matches),
        b"==" => Some(BinaryTest::Matches),
        b"!=" => Some(BinaryTest::Differs),
        b"<" => Some(BinaryTest::Before),
        b">" => Some(BinaryTest::After),
        b"-eq" => Some(BinaryTest::Equal),
        b"-ne" => Some(BinaryTest::NotEqual),
        b"-lt" => Some(BinaryTest::Less),
        b"-le" => Some(BinaryTest::LessEqual),
        b"-gt" => Some(BinaryTest::Greater),
        b"-ge" => Some(BinaryTest::GreaterEqual),
        _ => None,
    }
}

/// A test of one word, by the word that names it.
fn unary(name: Word, word: Word) -> Option<Test>
    ensures { result ≡ unary_by (unary_test (plain_bytes name)) word }
{
    match unary_test(plain_bytes(name.as_slice())) {
        Some(op) => Some(Test::Unary { op, word }),
        None => None,
    }
}

/// A test of two words, by the word between them.
fn binary(left: Word, name: Word, right: Word) -> Option<Test>
    ensures { result ≡ binary_by left (binary_test (plain_bytes name)) right }
{
    match binary_test(plain_bytes(name.as_slice())) {
        Some(op) => Some(Test::Binary { left, op, right }),
        None => None,
    }
}

/// The test that the words of a term are; nothing exactly where they are none.
#[tactic(auto, using(crate::proofs::Terms::no_word, crate::proofs::Terms::one_word, crate::proofs::Terms::two_words, crate::proofs::Terms::three_words, crate::proofs::Terms::more_words))]
pub fn test_of(words: Items<Word>) -> Option<Test>
    ensures { result ≡ test_of words }
{
    let mut front = words;
    let Some(last) = front.pop() else {
        return None;
    };
    let Some(name) = front.pop() else {
        return Some(Test::Word(last));
    };
    let Some(left) = front.pop() else {
        return unary(name, last);
    };
    if !front.is_empty() {
        return None;
    }
    binary(left, name, last)
}
