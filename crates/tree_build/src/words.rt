//! Words, and where they belong.
ghost use Rattle.ksh_ast.specs.declared.kinds.BinaryTest.{BinaryTest};
ghost use Rattle.ksh_ast.specs.declared.kinds.UnaryTest.{UnaryTest};
ghost use Rattle.ksh_syntax.specs.declared.kind.Kind.TheVariants as kind;
ghost use Rattle.std.specs.Prelude.{Some, [], false, true, ◌∷◌, ◌≡◌};
ghost use Rattle.tree_build.specs.Fits.{Moves};
ghost use Rattle.tree_build.specs.Tables.{is_assignment, is_word};
ghost use Rattle.tree_moves.specs.Tags as tag;
ghost use Rattle.tree_parts.specs.Parts.{all_names, binary_test, names_of, unary_test};
ghost use Rattle.tree_build.specs.Frames.{Grows, Stays, StaysIn};
ghost use Rattle.tree_build.specs.Heard.{Lexed};

use crate::frames::Frames;
use crate::opening::{Open, Opening};
use crate::place::Place;
use crate::script::slice;
use crate::tables::{is_assignment, is_word, starts_word};
use crate::texts::open_text;
use crate::unbuilt::Unbuilt;
use ksh_ast::{Argument, Assign, AssignValue, Pair, Redirect};
use ksh_lexer::end_word;
use ksh_syntax::Kind;
use std::alloc::Global;
use tree_parts::{Entry, Sign, add_pieces, assignment_of, is_assigned, literal_word, path_word};

#[tactic(auto, using(crate::proofs::Wording::reads_word_starts, crate::proofs::Onto::word_start_on, crate::proofs::MovingQ::opens_plain_word, crate::proofs::MovingQ::opens_assignment_word))]
fn open_word(frames: &mut Frames, sign: Sign, bytes: &[u8]) -> Result<(), Unbuilt>
    ensures grows { Grows (Lexed sign bytes.now) frames.old frames.new result }
    ensures moves_plain { sign.kind ≡ kind.Start → Moves ([], tag.WordStart ∷ []) frames.old frames.new result }
    ensures moves_assignment { sign.kind ≡ kind.StartAssignment → Moves ([], tag.AssignmentStart ∷ []) frames.old frames.new result }
{
    let Some(assigns) = starts_word(sign.kind) else {
        return Err(frames.opened.stray());
    };
    frames.opened.push_after(Ok(()), Open::Opened(Opening::WordStart(sign.from, assigns)))?;
    Ok(())
}

/// A word with pieces begins.
#[tactic(auto, using(crate::proofs::Steps::grows_stays, crate::proofs::MovingQ::first_fails))]
pub fn start_word(
    frames: &mut Frames,
    alloc: Global,
    sign: Sign,
    bytes: &[u8],
) -> Result<(), Unbuilt>
    ensures grows { Grows (Lexed sign bytes.now) frames.old frames.new result }
    ensures moves_plain { sign.kind ≡ kind.Start → Moves ([], tag.Text ∷ tag.WordStart ∷ []) frames.old frames.new result }
    ensures moves_assignment { sign.kind ≡ kind.StartAssignment → Moves ([], tag.Text ∷ tag.AssignmentStart ∷ []) frames.old frames.new result }
{
    open_word(frames, sign, bytes)?;
    open_text(frames, alloc)
}

/// The end of a word with pieces.
#[tactic(auto, using(crate::proofs::Onto::text_loaded, crate::proofs::Onto::word_start_loaded))]
fn close_plain_word(frames: &mut Frames, sign: Sign, bytes: &[u8]) -> Result<(), Unbuilt>
    ensures grows { Grows (Lexed sign bytes.now) frames.old frames.new result }
    ensures moves_plain { sign.kind ≡ kind.WordEnd → Moves (tag.Text ∷ tag.WordStart ∷ [], tag.Whole ∷ []) frames.old frames.new result }
    ensures moves_assignment { sign.kind ≡ kind.WordEnd → Moves (tag.Text ∷ tag.AssignmentStart ∷ [], tag.WholeAssignment ∷ []) frames.old frames.new result }
{
    if sign.kind != Kind::WordEnd {
        return Err(frames.opened.stray());
    }
    let Some(Open::Text) = frames.opened.pop() else {
        return Err(frames.opened.stray());
    };
    let Some(Open::Opened(Opening::WordStart(from, assigns))) = frames.opened.pop() else {
        return Err(frames.opened.stray());
    };
    frames
        .opened
        .push_after(Ok(()), Open::Whole(from, sign.from, assigns))?;
    Ok(())
}

/// The end of a word that begins with a path and its subscripts.
#[tactic(auto, using(crate::proofs::Onto::text_loaded, crate::proofs::Onto::element_loaded))]
fn close_element_word(
    frames: &mut Frames,
    alloc: Global,
    sign: Sign,
    bytes: &[u8],
) -> Result<(), Unbuilt>
    ensures grows { Grows (Lexed sign bytes.now) frames.old frames.new result }
    ensures moves { sign.kind ≡ kind.WordEnd → Moves (tag.Text ∷ tag.Element ∷ [], tag.Whole ∷ []) frames.old frames.new result }
{
    if sign.kind != Kind::WordEnd {
        return Err(frames.opened.stray());
    }
    let Some(Open::Text) = frames.opened.pop() else {
        return Err(frames.opened.stray());
    };
    let Some(Open::Element(from)) = frames.opened.pop() else {
        return Err(frames.opened.stray());
    };
    let Some(pieces) = frames.texts.words.pop() else {
        unreachable!();
    };
    let Some(path) = frames.texts.paths.pop() else {
        unreachable!();
    };
    let Ok(mut word) = path_word(alloc, path) else {
        return Err(frames.opened.lost());
    };
    let Ok(()) = add_pieces(alloc, &mut word, pieces) else {
        return Err(frames.opened.lost());
    };
    let ready = frames.texts.words.push(word);
    frames
        .opened
        .push_after(ready, Open::Whole(from, sign.from, false))?;
    Ok(())
}

/// The end of the word that is assigned.
#[tactic(auto, using(crate::proofs::Onto::text_loaded, crate::proofs::Onto::assigning_loaded))]
fn close_assigned_word(frames: &mut Frames, sign: Sign, bytes: &[u8]) -> Result<(), Unbuilt>
    ensures grows { Grows (Lexed sign bytes.now) frames.old frames.new result }
    ensures moves { sign.kind ≡ kind.WordEnd → Moves (tag.Text ∷ tag.Assigning ∷ [], tag.Assigned ∷ []) frames.old frames.new result }
{
    if sign.kind != Kind::WordEnd {
        return Err(frames.opened.stray());
    }
    let Some(Open::Text) = frames.opened.pop() else {
        return Err(frames.opened.stray());
    };
    let Some(Open::Assigning(append)) = frames.opened.pop() else {
        return Err(frames.opened.stray());
    };
    let Some(pieces) = frames.texts.words.pop() else {
        unreachable!();
    };
    let Some(path) = frames.texts.paths.pop() else {
        unreachable!();
    };
    let value = AssignValue::Word(pieces);
    let ready = frames.simples.assigned.push(Assign {
        path,
        append,
        value,
    });
    frames.opened.push_after(ready, Open::Assigned)?;
    Ok(())
}

/// The end of a word, or of the word that is assigned.
#[tactic(auto, using(crate::proofs::MovingQ::never_second))]
pub fn close_word(
    frames: &mut Frames,
    alloc: Global,
    sign: Sign,
    bytes: &[u8],
) -> Result<(), Unbuilt>
    ensures grows { Grows (Lexed sign bytes.now) frames.old frames.new result }
    ensures moves_plain { sign.kind ≡ kind.WordEnd → Moves (tag.Text ∷ tag.WordStart ∷ [], tag.Whole ∷ []) frames.old frames.new result }
    ensures moves_assignment { sign.kind ≡ kind.WordEnd → Moves (tag.Text ∷ tag.AssignmentStart ∷ [], tag.WholeAssignment ∷ []) frames.old frames.new result }
    ensures moves_element { sign.kind ≡ kind.WordEnd → Moves (tag.Text ∷ tag.Element ∷ [], tag.Whole ∷ []) frames.old frames.new result }
    ensures moves_assigned { sign.kind ≡ kind.WordEnd → Moves (tag.Text ∷ tag.Assigning ∷ [], tag.Assigned ∷ []) frames.old frames.new result }
{
    match frames.at(1) {
        Place::Element => close_element_word(frames, alloc, sign, bytes),
        Place::Assigning => close_assigned_word(frames, sign, bytes),
        _ => close_plain_word(frames, sign, bytes),
    }
}

/// The end of the word of a pair.
#[tactic(auto, using(crate::proofs::Onto::text_loaded, crate::proofs::Onto::keyed_loaded, crate::proofs::Onto::value_loaded))]
pub fn close_pair(frames: &mut Frames, sign: Sign, bytes: &[u8]) -> Result<(), Unbuilt>
    ensures grows { Grows (Lexed sign bytes.now) frames.old frames.new result }
    ensures moves { sign.kind ≡ kind.WordEnd → Moves (tag.Text ∷ tag.Keyed ∷ tag.Value ∷ [], tag.Value ∷ []) frames.old frames.new result }
{
    if sign.kind != Kind::WordEnd {
        return Err(frames.opened.stray());
    }
    let Some(Open::Text) = frames.opened.pop() else {
        return Err(frames.opened.stray());
    };
    let Some(Open::Keyed) = frames.opened.pop() else {
        return Err(frames.opened.stray());
    };
    let Some(Open::Value) = frames.opened.pop() else {
        return Err(frames.opened.stray());
    };
    let Some(value) = frames.texts.words.pop() else {
        unreachable!();
    };
    let Some(subscript) = frames.texts.words.pop() else {
        unreachable!();
    };
    let ready = frames
        .texts
        .entries
        .add(Entry::Pair(Pair { subscript, value }));
    frames.opened.push_after(ready, Open::Value)?;
    Ok(())
}

/// A word of plain bytes, or what compares in a condition.
#[tactic(auto, using(crate::proofs::Wording::reads_plain_word, crate::proofs::Wording::reads_order_word, crate::proofs::Onto::whole_on, crate::proofs::MovingQ::pushes_plain, crate::proofs::MovingQ::pushes_assignment, crate::proofs::MovingQ::pushes_name, crate::proofs::MovingQ::pushes_unary, crate::proofs::MovingQ::pushes_binary, crate::proofs::MovingQ::says_nothing))]
pub fn push_word(
    frames: &mut Frames,
    alloc: Global,
    sign: Sign,
    bytes: &[u8],
) -> Result<(), Unbuilt>
    ensures grows { Grows (Lexed sign bytes.now) frames.old frames.new result }
    ensures moves_plain { is_word sign.kind ≡ true → is_assignment sign.kind ≡ false → Moves ([], tag.Whole ∷ []) frames.old frames.new result }
    ensures moves_assignment { sign.kind ≡ kind.Assignment → Moves ([], tag.WholeAssignment ∷ []) frames.old frames.new result }
    ensures moves_name { is_word sign.kind ≡ true → is_assignment sign.kind ≡ false → all_names (names_of bytes.now) ≡ true → Moves ([], tag.WholeName ∷ []) frames.old frames.new result }
    ensures moves_unary { is_word sign.kind ≡ true → (test : UnaryTest) → unary_test bytes.now ≡ Some test → Moves ([], tag.WholeUnary ∷ []) frames.old frames.new result }
    ensures moves_binary { is_word sign.kind ≡ true → (test : BinaryTest) → binary_test bytes.now ≡ Some test → Moves ([], tag.WholeBinary ∷ []) frames.old frames.new result }
    ensures moves_order { sign.kind ≡ kind.Order → (test : BinaryTest) → binary_test bytes.now ≡ Some test → Moves ([], tag.WholeBinary ∷ []) frames.old frames.new result }
{
    let word = literal_word(alloc, bytes, false)?;
    if is_word(sign.kind) {
        let assigns = is_assignment(sign.kind);
        let ready = frames.texts.words.push(word);
        frames
            .opened
            .push_after(ready, Open::Whole(sign.from, sign.to, assigns))?;
        return Ok(());
    }
    if sign.kind != Kind::Order {
        return Err(frames.opened.stray());
    }
    let ready = frames.texts.words.push(word);
    frames
        .opened
        .push_after(ready, Open::Whole(sign.from, sign.to, false))?;
    Ok(())
}

/// A word of a simple command.
#[tactic(auto, using(crate::proofs::Wording::reads_simple_word, crate::proofs::Onto::whole_on, crate::proofs::Onto::simple_on, crate::proofs::Onto::whole_loaded, crate::proofs::Onto::simple_loaded, crate::proofs::MovingQ::gives_word, crate::proofs::MovingQ::gives_name))]
fn give_simple_word(frames: &mut Frames) -> Result<(), Unbuilt>
    ensures stays { Stays frames.old frames.new result }
    ensures moves_simple { Moves (tag.Whole ∷ tag.Simple ∷ [], tag.Simple ∷ []) frames.old frames.new result }
    ensures moves_first { Moves (tag.WholeName ∷ tag.SimpleEmpty ∷ [], tag.SimpleName ∷ []) frames.old frames.new result }
{
    let Some(Open::Whole(_, _, false)) = frames.opened.pop() else {
        return Err(frames.opened.stray());
    };
    let Some(Open::Simple(at, line)) = frames.opened.pop() else {
        return Err(frames.opened.stray());
    };
    let Some(word) = frames.texts.words.pop() else {
        unreachable!();
    };
    let ready = frames.simples.arguments.add(Argument::Word(word));
    frames.opened.push_after(ready, Open::Simple(at, line))?;
    Ok(())
}

/// A word of `for` or `select`.
#[tactic(auto, using(crate::proofs::Onto::whole_loaded, crate::proofs::Onto::for_words_loaded))]
fn give_for_word(frames: &mut Frames) -> Result<(), Unbuilt>
    ensures stays { Stays frames.old frames.new result }
    ensures moves { Moves (tag.AnyWhole ∷ tag.ForWords ∷ [], tag.ForWords ∷ []) frames.old frames.new result }
{
    let Some(Open::Whole(_, _, _)) = frames.opened.pop() else {
        return Err(frames.opened.stray());
    };
    let Some(Open::ForWords(line, select)) = frames.opened.pop() else {
        return Err(frames.opened.stray());
    };
    let Some(word) = frames.texts.words.pop() else {
        unreachable!();
    };
    let ready = frames.compounds.word_lists.add(word);
    frames
        .opened
        .push_after(ready, Open::ForWords(line, select))?;
    Ok(())
}

/// The word of `case`.
#[tactic(auto, using(crate::proofs::Onto::whole_loaded, crate::proofs::Onto::case_loaded))]
fn give_case_word(frames: &mut Frames) -> Result<(), Unbuilt>
    ensures stays { Stays frames.old frames.new result }
    ensures moves { Moves (tag.AnyWhole ∷ tag.Case ∷ [], tag.CaseWord ∷ []) frames.old frames.new result }
{
    let Some(Open::Whole(_, _, _)) = frames.opened.pop() else {
        return Err(frames.opened.stray());
    };
    let Some(Open::Opened(Opening::Case(line))) = frames.opened.pop() else {
        return Err(frames.opened.stray());
    };
    frames.opened.push_after(Ok(()), Open::CaseWord(line))?;
    Ok(())
}

/// A pattern.
#[tactic(auto, using(crate::proofs::Onto::whole_loaded, crate::proofs::Onto::patterns_loaded))]
fn give_pattern(frames: &mut Frames) -> Result<(), Unbuilt>
    ensures stays { Stays frames.old frames.new result }
    ensures moves { Moves (tag.AnyWhole ∷ tag.Patterns ∷ [], tag.Patterns ∷ []) frames.old frames.new result }
{
    let Some(Open::Whole(_, _, _)) = frames.opened.pop() else {
        return Err(frames.opened.stray());
    };
    let Some(Open::Patterns) = frames.opened.pop() else {
        return Err(frames.opened.stray());
    };
    let Some(word) = frames.texts.words.pop() else {
        unreachable!();
    };
    let ready = frames.compounds.word_lists.add(word);
    frames.opened.push_after(ready, Open::Patterns)?;
    Ok(())
}

/// A word of a term.
#[tactic(auto, using(crate::proofs::Onto::whole_loaded, crate::proofs::Onto::operands_loaded))]
fn give_operand(frames: &mut Frames) -> Result<(), Unbuilt>
    ensures stays { Stays frames.old frames.new result }
    ensures moves_unary { Moves (tag.WholeUnary ∷ tag.OperandsNone ∷ [], tag.OperandsUnary ∷ []) frames.old frames.new result }
    ensures moves_operand { Moves (tag.AnyWhole ∷ tag.OperandsNone ∷ [], tag.OperandsOne ∷ []) frames.old frames.new result }
    ensures moves_both { Moves (tag.WholeBinary ∷ tag.OperandsUnary ∷ [], tag.OperandsBoth ∷ []) frames.old frames.new result }
    ensures moves_binary { Moves (tag.WholeBinary ∷ tag.OperandsOne ∷ [], tag.OperandsBinary ∷ []) frames.old frames.new result }
    ensures moves_second { Moves (tag.AnyWhole ∷ tag.OperandsUnary ∷ [], tag.Operands ∷ []) frames.old frames.new result }
    ensures moves_third { Moves (tag.AnyWhole ∷ tag.OperandsBinary ∷ [], tag.Operands ∷ []) frames.old frames.new result }
{
    let Some(Open::Whole(_, _, _)) = frames.opened.pop() else {
        return Err(frames.opened.stray());
    };
    let Some(Open::Operands) = frames.opened.pop() else {
        return Err(frames.opened.stray());
    };
    let Some(word) = frames.texts.words.pop() else {
        unreachable!();
    };
    let ready = frames.compounds.word_lists.add(word);
    frames.opened.push_after(ready, Open::Operands)?;
    Ok(())
}

/// A word of a value.
#[tactic(auto, using(crate::proofs::Onto::whole_loaded, crate::proofs::Onto::value_loaded))]
fn give_entry(frames: &mut Frames) -> Result<(), Unbuilt>
    ensures stays { Stays frames.old frames.new result }
    ensures moves_entry { Moves (tag.Whole ∷ tag.Value ∷ [], tag.Value ∷ []) frames.old frames.new result }
    ensures moves_name { Moves (tag.WholeName ∷ tag.Value ∷ [], tag.ValueWord ∷ []) frames.old frames.new result }
    ensures moves_named { Moves (tag.WholeName ∷ tag.ValueWord ∷ [], tag.ValueNamed ∷ []) frames.old frames.new result }
{
    let Some(Open::Whole(from, _, false)) = frames.opened.pop() else {
        return Err(frames.opened.stray());
    };
    let Some(Open::Value) = frames.opened.pop() else {
        return Err(frames.opened.stray());
    };
    let Some(word) = frames.texts.words.pop() else {
        unreachable!();
    };
    let ready = frames.texts.entries.add(Entry::Word(word, from));
    frames.opened.push_after(ready, Open::Value)?;
    Ok(())
}

/// Gives a word that was read to what it belongs to.
#[tactic(auto, using(crate::proofs::MovingQ::never_second))]
fn give_word(frames: &mut Frames) -> Result<(), Unbuilt>
    ensures stays { Stays frames.old frames.new result }
    ensures moves_simple { Moves (tag.Whole ∷ tag.Simple ∷ [], tag.Simple ∷ []) frames.old frames.new result }
    ensures moves_first { Moves (tag.WholeName ∷ tag.SimpleEmpty ∷ [], tag.SimpleName ∷ []) frames.old frames.new result }
    ensures moves_for { Moves (tag.AnyWhole ∷ tag.ForWords ∷ [], tag.ForWords ∷ []) frames.old frames.new result }
    ensures moves_case { Moves (tag.AnyWhole ∷ tag.Case ∷ [], tag.CaseWord ∷ []) frames.old frames.new result }
    ensures moves_pattern { Moves (tag.AnyWhole ∷ tag.Patterns ∷ [], tag.Patterns ∷ []) frames.old frames.new result }
    ensures moves_unary { Moves (tag.WholeUnary ∷ tag.OperandsNone ∷ [], tag.OperandsUnary ∷ []) frames.old frames.new result }
    ensures moves_operand { Moves (tag.AnyWhole ∷ tag.OperandsNone ∷ [], tag.OperandsOne ∷ []) frames.old frames.new result }
    ensures moves_both { Moves (tag.WholeBinary ∷ tag.OperandsUnary ∷ [], tag.OperandsBoth ∷ []) frames.old frames.new result }
    ensures moves_binary { Moves (tag.WholeBinary ∷ tag.OperandsOne ∷ [], tag.OperandsBinary ∷ []) frames.old frames.new result }
    ensures moves_second { Moves (tag.AnyWhole ∷ tag.OperandsUnary ∷ [], tag.Operands ∷ []) frames.old frames.new result }
    ensures moves_third { Moves (tag.AnyWhole ∷ tag.OperandsBinary ∷ [], tag.Operands ∷ []) frames.old frames.new result }
    ensures moves_entry { Moves (tag.Whole ∷ tag.Value ∷ [], tag.Value ∷ []) frames.old frames.new result }
    ensures moves_name { Moves (tag.WholeName ∷ tag.Value ∷ [], tag.ValueWord ∷ []) frames.old frames.new result }
    ensures moves_named { Moves (tag.WholeName ∷ tag.ValueWord ∷ [], tag.ValueNamed ∷ []) frames.old frames.new result }
{
    match frames.at(1) {
        Place::Simple => give_simple_word(frames),
        Place::ForWords => give_for_word(frames),
        Place::Case => give_case_word(frames),
        Place::Patterns => give_pattern(frames),
        Place::Operands => give_operand(frames),
        _ => give_entry(frames),
    }
}

/// Reads a word as an assignment; as a word where a quote or an expansion stands before its `=`.
#[tactic(auto, using(crate::proofs::Onto::whole_loaded, crate::proofs::MovingQ::is_an_assignment))]
fn assign_word(frames: &mut Frames, alloc: Global) -> Result<(), Unbuilt>
    ensures stays { Stays frames.old frames.new result }
    ensures moves { Moves (tag.WholeAssignment ∷ [], tag.Given ∷ []) frames.old frames.new result }
{
    let Some(Open::Whole(from, to, true)) = frames.opened.pop() else {
        return Err(frames.opened.stray());
    };
    let Some(word) = frames.texts.words.pop() else {
        unreachable!();
    };
    if !is_assigned(word.as_slice()) {
        let ready = frames.texts.words.push(word);
        frames
            .opened
            .push_after(ready, Open::Whole(from, to, false))?;
        return Ok(());
    }
    let Ok(found) = assignment_of(alloc, word) else {
        return Err(frames.opened.lost());
    };
    let Some(assign) = found else {
        unreachable!();
    };
    let ready = frames.simples.assigned.push(assign);
    frames.opened.push_after(ready, Open::Assigned)?;
    Ok(())
}

/// An assignment of a simple command: before its words, or behind one.
#[tactic(auto, using(crate::proofs::Onto::assigned_loaded, crate::proofs::Onto::simple_loaded))]
fn give_simple_assignment(frames: &mut Frames) -> Result<(), Unbuilt>
    ensures stays { Stays frames.old frames.new result }
    ensures moves { Moves (tag.Assigned ∷ tag.Simple ∷ [], tag.Simple ∷ []) frames.old frames.new result }
{
    let Some(Open::Assigned) = frames.opened.pop() else {
        return Err(frames.opened.stray());
    };
    let Some(Open::Simple(at, line)) = frames.opened.pop() else {
        return Err(frames.opened.stray());
    };
    let Some(assign) = frames.simples.assigned.pop() else {
        unreachable!();
    };
    if frames.simples.arguments.ends_empty() {
        let ready = frames.simples.assigns.add(assign);
        frames.opened.push_after(ready, Open::Simple(at, line))?;
        return Ok(());
    }
    let ready = frames.simples.arguments.add(Argument::Assign(assign));
    frames.opened.push_after(ready, Open::Simple(at, line))?;
    Ok(())
}

/// An assignment in a value.
#[tactic(auto, using(crate::proofs::Onto::assigned_loaded, crate::proofs::Onto::value_loaded))]
fn give_value_assignment(frames: &mut Frames) -> Result<(), Unbuilt>
    ensures stays { Stays frames.old frames.new result }
    ensures moves { Moves (tag.Assigned ∷ tag.Value ∷ [], tag.Value ∷ []) frames.old frames.new result }
{
    let Some(Open::Assigned) = frames.opened.pop() else {
        return Err(frames.opened.stray());
    };
    let Some(Open::Value) = frames.opened.pop() else {
        return Err(frames.opened.stray());
    };
    let Some(assign) = frames.simples.assigned.pop() else {
        unreachable!();
    };
    let ready = frames.texts.entries.add(Entry::Assign(assign));
    frames.opened.push_after(ready, Open::Value)?;
    Ok(())
}

/// Gives an assignment to its command or value.
#[tactic(auto, using(crate::proofs::MovingQ::never_second))]
pub fn give_assignment(frames: &mut Frames) -> Result<(), Unbuilt>
    ensures stays { Stays frames.old frames.new result }
    ensures moves_simple { Moves (tag.Assigned ∷ tag.Simple ∷ [], tag.Simple ∷ []) frames.old frames.new result }
    ensures moves_value { Moves (tag.Assigned ∷ tag.Value ∷ [], tag.Value ∷ []) frames.old frames.new result }
{
    match frames.at(1) {
        Place::Value => give_value_assignment(frames),
        _ => give_simple_assignment(frames),
    }
}

/// Gives what a word that begins with `path=` or `path+=` was read as.
#[tactic(auto, using(crate::proofs::MovingQ::given_word, crate::proofs::MovingQ::given_assignment))]
fn give_settled(frames: &mut Frames) -> Result<(), Unbuilt>
    ensures stays { Stays frames.old frames.new result }
    ensures moves_simple { Moves (tag.Given ∷ tag.Simple ∷ [], tag.Simple ∷ []) frames.old frames.new result }
    ensures moves_value { Moves (tag.Given ∷ tag.Value ∷ [], tag.Value ∷ []) frames.old frames.new result }
{
    match frames.at(0) {
        Place::Whole => give_word(frames),
        _ => give_assignment(frames),
    }
}

/// Reads a word as that of a redirection.
#[tactic(auto, using(crate::proofs::Onto::whole_loaded, crate::proofs::Onto::redirection_loaded))]
fn redirect_word(frames: &mut Frames) -> Result<(), Unbuilt>
    ensures stays { Stays frames.old frames.new result }
    ensures moves { Moves (tag.AnyWhole ∷ tag.Redirection ∷ [], tag.Redirected ∷ []) frames.old frames.new result }
{
    let Some(Open::Whole(_, _, _)) = frames.opened.pop() else {
        return Err(frames.opened.stray());
    };
    let Some(Open::Redirection) = frames.opened.pop() else {
        return Err(frames.opened.stray());
    };
    let Some(word) = frames.texts.words.pop() else {
        unreachable!();
    };
    let Some(to) = frames.redirections.targets.pop() else {
        unreachable!();
    };
    let Some(form) = frames.redirections.forms.pop() else {
        unreachable!();
    };
    let ready = frames
        .redirections
        .redirected
        .push(Redirect { to, form, word });
    frames.opened.push_after(ready, Open::Redirected)?;
    Ok(())
}

/// Reads a word as that which ends a here-document's body.
#[tactic(auto, using(crate::proofs::Onto::whole_loaded, crate::proofs::Onto::here_operator_loaded))]
fn here_word(frames: &mut Frames, alloc: Global, script: &[u8]) -> Result<(), Unbuilt>
    ensures stays { StaysIn script.now frames.old frames.new result }
    ensures moves { Moves (tag.AnyWhole ∷ tag.HereOperator ∷ [], tag.HereWord ∷ []) frames.old frames.new result }
{
    let Some(Open::Whole(from, to, _)) = frames.opened.pop() else {
        return Err(frames.opened.stray());
    };
    let Some(Open::HereOperator) = frames.opened.pop() else {
        return Err(frames.opened.stray());
    };
    let Some(_word) = frames.texts.words.pop() else {
        unreachable!();
    };
    let Ok(end) = end_word(alloc, slice(script, from, to)) else {
        return Err(frames.opened.lost());
    };
    let ready = frames.redirections.ends.push(end);
    frames.opened.push_after(ready, Open::HereWord)?;
    Ok(())
}

/// A redirection of a simple command.
#[tactic(auto, using(crate::proofs::Onto::redirected_loaded, crate::proofs::Onto::simple_loaded))]
fn give_simple_redirection(frames: &mut Frames) -> Result<(), Unbuilt>
    ensures stays { Stays frames.old frames.new result }
    ensures moves { Moves (tag.Redirected ∷ tag.Simple ∷ [], tag.Simple ∷ []) frames.old frames.new result }
{
    let Some(Open::Redirected) = frames.opened.pop() else {
        return Err(frames.opened.stray());
    };
    let Some(Open::Simple(at, line)) = frames.opened.pop() else {
        return Err(frames.opened.stray());
    };
    let Some(redirect) = frames.redirections.redirected.pop() else {
        unreachable!();
    };
    let ready = frames.redirections.redirects.add(redirect);
    frames.opened.push_after(ready, Open::Simple(at, line))?;
    Ok(())
}

/// A redirection behind a compound command.
#[tactic(auto, using(crate::proofs::Onto::redirected_loaded, crate::proofs::Onto::compound_loaded))]
fn give_compound_redirection(frames: &mut Frames) -> Result<(), Unbuilt>
    ensures stays { Stays frames.old frames.new result }
    ensures moves { Moves (tag.Redirected ∷ tag.Compound ∷ [], tag.Compound ∷ []) frames.old frames.new result }
{
    let Some(Open::Redirected) = frames.opened.pop() else {
        return Err(frames.opened.stray());
    };
    let Some(Open::Compound(line)) = frames.opened.pop() else {
        return Err(frames.opened.stray());
    };
    let Some(redirect) = frames.redirections.redirected.pop() else {
        unreachable!();
    };
    let ready = frames.redirections.redirects.add(redirect);
    frames.opened.push_after(ready, Open::Compound(line))?;
    Ok(())
}

/// Gives a redirection to its command.
#[tactic(auto, using(crate::proofs::MovingQ::never_second))]
pub fn give_redirection(frames: &mut Frames) -> Result<(), Unbuilt>
    ensures stays { Stays frames.old frames.new result }
    ensures moves_simple { Moves (tag.Redirected ∷ tag.Simple ∷ [], tag.Simple ∷ []) frames.old frames.new result }
    ensures moves_compound { Moves (tag.Redirected ∷ tag.Compound ∷ [], tag.Compound ∷ []) frames.old frames.new result }
{
    match frames.at(1) {
        Place::Simple => give_simple_redirection(frames),
        _ => give_compound_redirection(frames),
    }
}

/// Reads a word as that of a redirection, and gives that to its command.
#[tactic(auto, using(crate::proofs::Steps::stays_stays, crate::proofs::MovingQ::two_fail))]
fn settle_redirection(frames: &mut Frames) -> Result<(), Unbuilt>
    ensures stays { Stays frames.old frames.new result }
    ensures moves_simple { Moves (tag.AnyWhole ∷ tag.Redirection ∷ tag.Simple ∷ [], tag.Simple ∷ []) frames.old frames.new result }
    ensures moves_compound { Moves (tag.AnyWhole ∷ tag.Redirection ∷ tag.Compound ∷ [], tag.Compound ∷ []) frames.old frames.new result }
{
    redirect_word(frames)?;
    give_redirection(frames)
}

/// Reads a word as an assignment, and gives what it was read as.
#[tactic(auto, using(crate::proofs::Steps::stays_stays, crate::proofs::MovingQ::one_fails))]
fn settle_assignment(frames: &mut Frames, alloc: Global) -> Result<(), Unbuilt>
    ensures stays { Stays frames.old frames.new result }
    ensures moves_simple { Moves (tag.WholeAssignment ∷ tag.Simple ∷ [], tag.Simple ∷ []) frames.old frames.new result }
    ensures moves_value { Moves (tag.WholeAssignment ∷ tag.Value ∷ [], tag.Value ∷ []) frames.old frames.new result }
{
    assign_word(frames, alloc)?;
    give_settled(frames)
}

/// Gives a word, or an assignment, to its command or value.
#[tactic(auto, using(crate::proofs::MovingQ::never_assignment, crate::proofs::MovingQ::never_whole, crate::proofs::MovingQ::never_name))]
fn settle_entry(frames: &mut Frames, alloc: Global) -> Result<(), Unbuilt>
    ensures stays { Stays frames.old frames.new result }
    ensures moves_simple { Moves (tag.Whole ∷ tag.Simple ∷ [], tag.Simple ∷ []) frames.old frames.new result }
    ensures moves_first { Moves (tag.WholeName ∷ tag.SimpleEmpty ∷ [], tag.SimpleName ∷ []) frames.old frames.new result }
    ensures moves_entry { Moves (tag.Whole ∷ tag.Value ∷ [], tag.Value ∷ []) frames.old frames.new result }
    ensures moves_name { Moves (tag.WholeName ∷ tag.Value ∷ [], tag.ValueWord ∷ []) frames.old frames.new result }
    ensures moves_named { Moves (tag.WholeName ∷ tag.ValueWord ∷ [], tag.ValueNamed ∷ []) frames.old frames.new result }
    ensures moves_simple_assignment { Moves (tag.WholeAssignment ∷ tag.Simple ∷ [], tag.Simple ∷ []) frames.old frames.new result }
    ensures moves_value_assignment { Moves (tag.WholeAssignment ∷ tag.Value ∷ [], tag.Value ∷ []) frames.old frames.new result }
{
    if frames.is_assignment_word() {
        return settle_assignment(frames, alloc);
    }
    give_word(frames)
}

/// Gives what was read to what it belongs to: a word, an assignment or a redirection. Among the entries of a value a name waits
/// for what comes.
#[tactic(auto, using(crate::proofs::Steps::stays_in, crate::proofs::MovingQ::never_second))]
pub fn settle_word(frames: &mut Frames, alloc: Global, script: &[u8]) -> Result<(), Unbuilt>
    ensures stays { StaysIn script.now frames.old frames.new result }
    ensures moves_simple { Moves (tag.Whole ∷ tag.Simple ∷ [], tag.Simple ∷ []) frames.old frames.new result }
    ensures moves_first { Moves (tag.WholeName ∷ tag.SimpleEmpty ∷ [], tag.SimpleName ∷ []) frames.old frames.new result }
    ensures moves_for { Moves (tag.AnyWhole ∷ tag.ForWords ∷ [], tag.ForWords ∷ []) frames.old frames.new result }
    ensures moves_case { Moves (tag.AnyWhole ∷ tag.Case ∷ [], tag.CaseWord ∷ []) frames.old frames.new result }
    ensures moves_pattern { Moves (tag.AnyWhole ∷ tag.Patterns ∷ [], tag.Patterns ∷ []) frames.old frames.new result }
    ensures moves_unary { Moves (tag.WholeUnary ∷ tag.OperandsNone ∷ [], tag.OperandsUnary ∷ []) frames.old frames.new result }
    ensures moves_operand { Moves (tag.AnyWhole ∷ tag.OperandsNone ∷ [], tag.OperandsOne ∷ []) frames.old frames.new result }
    ensures moves_both { Moves (tag.WholeBinary ∷ tag.OperandsUnary ∷ [], tag.OperandsBoth ∷ []) frames.old frames.new result }
    ensures moves_binary { Moves (tag.WholeBinary ∷ tag.OperandsOne ∷ [], tag.OperandsBinary ∷ []) frames.old frames.new result }
    ensures moves_second { Moves (tag.AnyWhole ∷ tag.OperandsUnary ∷ [], tag.Operands ∷ []) frames.old frames.new result }
    ensures moves_third { Moves (tag.AnyWhole ∷ tag.OperandsBinary ∷ [], tag.Operands ∷ []) frames.old frames.new result }
    ensures moves_entry { Moves (tag.Whole ∷ tag.Value ∷ [], tag.Value ∷ []) frames.old frames.new result }
    ensures moves_name { Moves (tag.WholeName ∷ tag.Value ∷ [], tag.ValueWord ∷ []) frames.old frames.new result }
    ensures moves_named { Moves (tag.WholeName ∷ tag.ValueWord ∷ [], tag.ValueNamed ∷ []) frames.old frames.new result }
    ensures moves_simple_assignment { Moves (tag.WholeAssignment ∷ tag.Simple ∷ [], tag.Simple ∷ []) frames.old frames.new result }
    ensures moves_value_assignment { Moves (tag.WholeAssignment ∷ tag.Value ∷ [], tag.Value ∷ []) frames.old frames.new result }
    ensures moves_simple_redirection { Moves (tag.AnyWhole ∷ tag.Redirection ∷ tag.Simple ∷ [], tag.Simple ∷ []) frames.old frames.new result }
    ensures moves_compound_redirection { Moves (tag.AnyWhole ∷ tag.Redirection ∷ tag.Compound ∷ [], tag.Compound ∷ []) frames.old frames.new result }
    ensures moves_here { Moves (tag.AnyWhole ∷ tag.HereOperator ∷ [], tag.HereWord ∷ []) frames.old frames.new result }
{
    match frames.at(1) {
        Place::Redirection => settle_redirection(frames),
        Place::HereOperator => here_word(frames, alloc, script),
        Place::Simple | Place::Value => settle_entry(frames, alloc),
        _ => give_word(frames),
    }
}
