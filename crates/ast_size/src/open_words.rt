//! Parts of words, one level at a time.
ghost use Rattle.std.specs.Prelude.{IfOk, ◌≡◌, ◌+◌, map};
ghost use Rattle.ast_size.specs.Parts.{size_of, Adds};
ghost use Rattle.ast_size.specs.Size.{total, total_pairs, size_of_pieces, size_of_words, size_of_piece, size_of_param, size_of_of, size_of_form, size_of_part, size_of_arith, arith_if_there, pair_sizes};

use crate::left::Left;
use crate::part::{Part, list_part, word_or_nothing, word_part};
use ksh_ast::{Arith, Pair, Param, ParamForm, ParamOf, Piece, TreePart, Word};
use ksh_base::Memory;

/// One of them, and the others.
pub fn open_pieces<'a>(pieces: &'a [Piece], left: &mut Left<'a>) -> Result<u64, Memory>
    ensures { IfOk result (λ nodes. Adds nodes (size_of_pieces pieces.now) left.old left.new) }
{
    let Some((first, rest)) = pieces.split_first() else {
        return Ok(0);
    };
    left.put(1, inside_piece(first), Part::Pieces(rest), Part::Nothing)
}

/// What a piece holds.
#[tactic(auto, using(crate::proofs::Levels::piece_sizes))]
fn inside_piece<'a>(piece: &'a Piece) -> Part<'a>
    ensures { 1 + size_of result ≡ size_of_piece piece.now }
{
    match piece {
        Piece::Literal { .. } => Part::Nothing,
        Piece::Expand { param, .. } => Part::Param(param),
        Piece::Subst { body, .. } => list_part(body),
        Piece::Number { text, .. } => Part::Arith(text),
    }
}

/// One of them, and the others.
pub fn open_words<'a>(words: &'a [Word], left: &mut Left<'a>) -> Result<u64, Memory>
    ensures { IfOk result (λ nodes. Adds nodes (size_of_words words.now) left.old left.new) }
{
    let Some((first, rest)) = words.split_first() else {
        return Ok(0);
    };
    left.put(0, word_part(first), Part::Words(rest), Part::Nothing)
}

/// One of them, and the others.
pub fn open_pairs<'a>(pairs: &'a [Pair<Word>], left: &mut Left<'a>) -> Result<u64, Memory>
    ensures { IfOk result (λ nodes. Adds nodes (total_pairs (map pair_sizes pairs.now)) left.old left.new) }
{
    let Some((first, rest)) = pairs.split_first() else {
        return Ok(0);
    };
    left.put(
        0,
        word_part(&first.subscript),
        word_part(&first.value),
        Part::Pairs(rest),
    )
}

/// One of them, and the others.
pub fn open_path<'a>(parts: &'a [TreePart], left: &mut Left<'a>) -> Result<u64, Memory>
    ensures { IfOk result (λ nodes. Adds nodes (total (map size_of_part parts.now)) left.old left.new) }
{
    let Some((first, rest)) = parts.split_first() else {
        return Ok(0);
    };
    left.put(1, inside_path_part(first), Part::Path(rest), Part::Nothing)
}

/// What a part of a path holds.
#[tactic(auto, using(crate::proofs::Levels::part_sizes))]
fn inside_path_part<'a>(part: &'a TreePart) -> Part<'a>
    ensures { 1 + size_of result ≡ size_of_part part.now }
{
    match part {
        TreePart::Member(_) => Part::Nothing,
        TreePart::Sub(word) => word_part(word),
        TreePart::Each => Part::Nothing,
        TreePart::Joined => Part::Nothing,
    }
}

/// Arithmetic is an expression or a word.
#[tactic(auto, using(crate::proofs::Levels::arith_sizes))]
pub fn open_arith<'a>(text: &'a Arith, left: &mut Left<'a>) -> Result<u64, Memory>
    ensures { IfOk result (λ nodes. Adds nodes (size_of_arith text.now) left.old left.new) }
{
    match text {
        Arith::Parsed(expr) => left.put(0, Part::Expr(expr), Part::Nothing, Part::Nothing),
        Arith::Text(word) => open_word(word, left),
    }
}

/// The three parts of a counting loop, each of which may be missing.
pub fn open_steps<'a>(
    first: &'a Option<Arith>,
    test: &'a Option<Arith>,
    step: &'a Option<Arith>,
    left: &mut Left<'a>,
) -> Result<u64, Memory>
    ensures { IfOk result (λ nodes. Adds nodes (arith_if_there first.now + arith_if_there test.now + arith_if_there step.now) left.old left.new) }
{
    left.put(
        0,
        arith_or_nothing(first),
        arith_or_nothing(test),
        arith_or_nothing(step),
    )
}

fn arith_or_nothing<'a>(text: &'a Option<Arith>) -> Part<'a>
    ensures { size_of result ≡ arith_if_there text.now }
{
    match text {
        Some(text) => Part::Arith(text),
        None => Part::Nothing,
    }
}

/// The path of a parameter, and its form.
#[tactic(auto, using(crate::proofs::Levels::param_parts))]
pub fn open_param<'a>(param: &'a Param, left: &mut Left<'a>) -> Result<u64, Memory>
    ensures { IfOk result (λ nodes. Adds nodes (size_of_param param.now) left.old left.new) }
{
    left.put(
        0,
        inside_of(&param.of),
        Part::Form(&param.form),
        Part::Nothing,
    )
}

#[tactic(auto, using(crate::proofs::Levels::of_sizes))]
fn inside_of<'a>(of: &'a ParamOf) -> Part<'a>
    ensures { size_of result ≡ size_of_of of.now }
{
    match of {
        ParamOf::Var(path) => Part::Path(path.parts.as_slice()),
        ParamOf::Special(_) => Part::Nothing,
        ParamOf::Prefix(_) => Part::Nothing,
    }
}

/// The words of a parameter's form.
#[tactic(auto, using(crate::proofs::Levels::form_sizes))]
pub fn open_form<'a>(form: &'a ParamForm, left: &mut Left<'a>) -> Result<u64, Memory>
    ensures { IfOk result (λ nodes. Adds nodes (size_of_form form.now) left.old left.new) }
{
    match form {
        ParamForm::Plain => Ok(0),
        ParamForm::Length => Ok(0),
        ParamForm::Target => Ok(0),
        ParamForm::Instead { word, .. } => open_word(word, left),
        ParamForm::Assign { word, .. } => open_word(word, left),
        ParamForm::Fault { word, .. } => open_word(word, left),
        ParamForm::Other { word, .. } => open_word(word, left),
        ParamForm::Cut { pattern, .. } => open_word(pattern, left),
        ParamForm::Slice { from, count } => {
            left.put(0, word_part(from), word_or_nothing(count), Part::Nothing)
        }
        ParamForm::Replace { pattern, with, .. } => {
            left.put(0, word_part(pattern), word_part(with), Part::Nothing)
        }
    }
}

pub fn open_word<'a>(word: &'a Word, left: &mut Left<'a>) -> Result<u64, Memory>
    ensures { IfOk result (λ nodes. Adds nodes (size_of_pieces word.now) left.old left.new) }
{
    left.put(0, word_part(word), Part::Nothing, Part::Nothing)
}
