//! Conditions.
ghost use Rattle.ksh_syntax.specs.declared.kind.Kind.TheVariants as kind;
ghost use Rattle.std.specs.Prelude.{[], ◌∷◌, ◌≡◌};
ghost use Rattle.tree_build.specs.Fits.{Moves};
ghost use Rattle.tree_moves.specs.Tags as tag;
ghost use Rattle.ksh_syntax.specs.declared.part.Mark.TheVariants.{TermEnds};
ghost use Rattle.tree_build.specs.Frames.{Grows, Stays};
ghost use Rattle.tree_build.specs.Heard.{Lexed, Marked};

use crate::begins::open_terms;
use crate::compounds::open_compound;
use crate::frames::Frames;
use crate::opening::{Open, Opening};
use crate::place::Place;
use crate::unbuilt::Unbuilt;
use ksh_ast::{Command, Term, Test};
use ksh_base::Items;
use ksh_syntax::Kind;
use std::alloc::Global;
use tree_parts::{Moment, Sign, test_of};

/// `[[`
#[tactic(auto, using(crate::proofs::Steps::grows_stays))]
pub fn begin_condition(
    frames: &mut Frames,
    alloc: Global,
    sign: Sign,
    bytes: &[u8],
) -> Result<(), Unbuilt>
    ensures grows { Grows (Lexed sign bytes.now) frames.old frames.new result }
    ensures moves { sign.kind ≡ kind.LeftBrackets → Moves ([], tag.Terms ∷ tag.ConditionCommand ∷ []) frames.old frames.new result }
{
    open_compound(frames, alloc, sign, bytes)?;
    open_terms(frames, alloc)
}

/// A `!` before a term.
#[tactic(auto, using(crate::proofs::Testing::reads_not_term, crate::proofs::Onto::terms_on, crate::proofs::Onto::terms_loaded, crate::proofs::MovingP::turns_terms))]
pub fn not_term(frames: &mut Frames, sign: Sign, bytes: &[u8]) -> Result<(), Unbuilt>
    ensures grows { Grows (Lexed sign bytes.now) frames.old frames.new result }
    ensures moves { sign.kind ≡ kind.Bang → Moves (tag.Terms ∷ [], tag.Terms ∷ []) frames.old frames.new result }
{
    if sign.kind != Kind::Bang {
        return Err(frames.opened.stray());
    }
    let Some(Open::Terms(not)) = frames.opened.pop() else {
        return Err(frames.opened.stray());
    };
    frames.opened.push_after(Ok(()), Open::Terms(!not))?;
    Ok(())
}

#[tactic(auto, using(crate::proofs::Testing::reads_tested, crate::proofs::Onto::operands_on, crate::proofs::Onto::tested_on, crate::proofs::Onto::operands_loaded, crate::proofs::MovingP::closes_operands))]
fn close_operands(frames: &mut Frames) -> Result<(), Unbuilt>
    ensures stays { Stays frames.old frames.new result }
    ensures moves { Moves (tag.Operands ∷ [], tag.Tested ∷ []) frames.old frames.new result }
{
    let Some(Open::Operands) = frames.opened.pop() else {
        return Err(frames.opened.stray());
    };
    let Some(words) = frames.compounds.word_lists.pop() else {
        unreachable!();
    };
    let Some(test) = test_of(words) else {
        return Err(frames.opened.stray());
    };
    let ready = frames.compounds.tests.push(test);
    frames.opened.push_after(ready, Open::Tested)?;
    Ok(())
}

#[tactic(auto, using(crate::proofs::Testing::reads_opens_nested, crate::proofs::Onto::nested_on, crate::proofs::MovingP::opens_nested))]
fn open_parenthesis(frames: &mut Frames, sign: Sign, bytes: &[u8]) -> Result<(), Unbuilt>
    ensures grows { Grows (Lexed sign bytes.now) frames.old frames.new result }
    ensures moves { sign.kind ≡ kind.Open → Moves ([], tag.Nested ∷ []) frames.old frames.new result }
{
    if sign.kind != Kind::Open {
        return Err(frames.opened.stray());
    }
    frames
        .opened
        .push_after(Ok(()), Open::Opened(Opening::Nested))?;
    Ok(())
}

/// A `(` in a condition.
#[tactic(auto, using(crate::proofs::Steps::grows_stays))]
pub fn begin_nested(
    frames: &mut Frames,
    alloc: Global,
    sign: Sign,
    bytes: &[u8],
) -> Result<(), Unbuilt>
    ensures grows { Grows (Lexed sign bytes.now) frames.old frames.new result }
    ensures moves { sign.kind ≡ kind.Open → Moves ([], tag.Terms ∷ tag.Nested ∷ []) frames.old frames.new result }
{
    open_parenthesis(frames, sign, bytes)?;
    open_terms(frames, alloc)
}

/// A `)` in a condition.
#[tactic(auto, using(crate::proofs::Onto::terms_loaded, crate::proofs::Onto::nested_loaded))]
pub fn close_nested(frames: &mut Frames, sign: Sign, bytes: &[u8]) -> Result<(), Unbuilt>
    ensures grows { Grows (Lexed sign bytes.now) frames.old frames.new result }
    ensures moves { sign.kind ≡ kind.Close → Moves (tag.Terms ∷ tag.Nested ∷ [], tag.Tested ∷ []) frames.old frames.new result }
{
    if sign.kind != Kind::Close {
        return Err(frames.opened.stray());
    }
    let Some(Open::Terms(_)) = frames.opened.pop() else {
        return Err(frames.opened.stray());
    };
    let Some(Open::Opened(Opening::Nested)) = frames.opened.pop() else {
        return Err(frames.opened.stray());
    };
    let Some(terms) = frames.compounds.terms.pop() else {
        unreachable!();
    };
    let Some(mut alternatives) = frames.compounds.conditions.pop() else {
        unreachable!();
    };
    let Ok(()) = alternatives.push(terms) else {
        return Err(frames.opened.lost());
    };
    let ready = frames.compounds.tests.push(Test::Nested(alternatives));
    frames.opened.push_after(ready, Open::Tested)?;
    Ok(())
}

#[tactic(auto, using(crate::proofs::Onto::tested_loaded, crate::proofs::Onto::terms_loaded))]
fn close_term(frames: &mut Frames, moment: Moment) -> Result<(), Unbuilt>
    ensures grows { Grows (Marked TermEnds moment) frames.old frames.new result }
    ensures moves { Moves (tag.Tested ∷ tag.Terms ∷ [], tag.Terms ∷ []) frames.old frames.new result }
{
    let Some(Open::Tested) = frames.opened.pop() else {
        return Err(frames.opened.stray());
    };
    let Some(Open::Terms(negated)) = frames.opened.pop() else {
        return Err(frames.opened.stray());
    };
    let Some(test) = frames.compounds.tests.pop() else {
        unreachable!();
    };
    let ready = frames.compounds.terms.add(Term { negated, test });
    frames.opened.push_after(ready, Open::Terms(false))?;
    Ok(())
}

/// Makes a test of the words of a term, where those stand there.
#[tactic(auto, using(crate::proofs::Steps::nothing_stays, crate::proofs::MovingP::operands_no_tested, crate::proofs::MovingP::no_operands, crate::proofs::MovingP::tested_stays))]
fn finish_operands(frames: &mut Frames) -> Result<(), Unbuilt>
    ensures stays { Stays frames.old frames.new result }
    ensures moves_operands { Moves (tag.Operands ∷ [], tag.Tested ∷ []) frames.old frames.new result }
    ensures moves_tested { Moves (tag.Tested ∷ [], tag.Tested ∷ []) frames.old frames.new result }
{
    match frames.at(0) {
        Place::Operands => close_operands(frames),
        _ => Ok(()),
    }
}

/// A term of a condition ends.
#[tactic(auto, using(crate::proofs::Steps::stays_grows))]
pub fn end_term(frames: &mut Frames, moment: Moment) -> Result<(), Unbuilt>
    ensures grows { Grows (Marked TermEnds moment) frames.old frames.new result }
    ensures moves_operands { Moves (tag.Operands ∷ tag.Terms ∷ [], tag.Terms ∷ []) frames.old frames.new result }
    ensures moves_tested { Moves (tag.Tested ∷ tag.Terms ∷ [], tag.Terms ∷ []) frames.old frames.new result }
{
    finish_operands(frames)?;
    close_term(frames, moment)
}

/// `||` in a condition.
#[tactic(auto, using(crate::proofs::Testing::reads_alternative, crate::proofs::Onto::terms_on, crate::proofs::Onto::terms_loaded, crate::proofs::MovingP::turns_terms))]
pub fn alternative(
    frames: &mut Frames,
    alloc: Global,
    sign: Sign,
    bytes: &[u8],
) -> Result<(), Unbuilt>
    ensures grows { Grows (Lexed sign bytes.now) frames.old frames.new result }
    ensures moves { sign.kind ≡ kind.OrIf → Moves (tag.Terms ∷ [], tag.Terms ∷ []) frames.old frames.new result }
{
    if sign.kind != Kind::OrIf {
        return Err(frames.opened.stray());
    }
    let Some(Open::Terms(_)) = frames.opened.pop() else {
        return Err(frames.opened.stray());
    };
    let Some(terms) = frames.compounds.terms.pop() else {
        unreachable!();
    };
    let ready = match frames.compounds.conditions.add(terms) {
        Ok(()) => frames.compounds.terms.push(Items::new(alloc)),
        Err(memory) => Err(memory),
    };
    frames.opened.push_after(ready, Open::Terms(false))?;
    Ok(())
}

/// `]]`
#[tactic(auto, using(crate::proofs::Onto::terms_loaded, crate::proofs::Onto::condition_command_loaded))]
pub fn close_condition(
    frames: &mut Frames,
    alloc: Global,
    sign: Sign,
    bytes: &[u8],
) -> Result<(), Unbuilt>
    ensures grows { Grows (Lexed sign bytes.now) frames.old frames.new result }
    ensures moves { sign.kind ≡ kind.RightBrackets → Moves (tag.Terms ∷ tag.ConditionCommand ∷ [], tag.Compound ∷ []) frames.old frames.new result }
{
    if sign.kind != Kind::RightBrackets {
        return Err(frames.opened.stray());
    }
    let Some(Open::Terms(_)) = frames.opened.pop() else {
        return Err(frames.opened.stray());
    };
    let Some(Open::Opened(Opening::ConditionCommand(line))) = frames.opened.pop() else {
        return Err(frames.opened.stray());
    };
    let Some(terms) = frames.compounds.terms.pop() else {
        unreachable!();
    };
    let Some(mut test) = frames.compounds.conditions.pop() else {
        unreachable!();
    };
    let Ok(()) = test.push(terms) else {
        return Err(frames.opened.lost());
    };
    let redirects = Items::new(alloc);
    let command = Command::Cond { test, redirects };
    let ready = match frames.lists.commands.push(command) {
        Ok(()) => frames.redirections.redirects.push(Items::new(alloc)),
        Err(memory) => Err(memory),
    };
    frames.opened.push_after(ready, Open::Compound(line))?;
    Ok(())
}
