//! Compound commands: groups, `if` and loops with a test.
ghost use Rattle.tree_moves.specs.Tags.{Tag};
ghost use Rattle.std.specs.Prelude.{◌≡◌, [], ◌∷◌, ◌++◌, MatchOption, None, OnOk, Some};
ghost use Rattle.tree_build.specs.Frame.{Opened};
ghost use Rattle.tree_build.specs.Fits.{Moves, opens};
ghost use Rattle.tree_build.specs.Frames.{Grows};
ghost use Rattle.tree_build.specs.Heard.{Lexed};
ghost use Rattle.tree_build.specs.Reads.{arm};
ghost use Rattle.tree_build.specs.Silent.{opened};
ghost use Rattle.ksh_syntax.specs.declared.kind.Kind.TheVariants as kind;
ghost use Rattle.tree_moves.specs.Tags as tag;

use crate::begins::open_list;
use crate::frames::Frames;
use crate::opening::{Open, Opening};
use crate::place::Place;
use crate::stack::Stack;
use crate::texts::open_text;
use crate::unbuilt::Unbuilt;
use ksh_ast::{Arm, Command, List, Redirect, Word};
use ksh_base::{Items, Memory};
use ksh_syntax::Kind;
use std::alloc::Global;
use tree_parts::{Sign, arith_of};

/// What a token opens: a compound command other than `if`, or a function.
#[tactic(auto, using(crate::proofs::MovingP::opens_nothing))]
fn opening(sign: Sign) -> Option<Opening>
    ensures { MatchOption result ((sign.kind ≡ kind.If → ⊥) → opens sign.kind ≡ None) (λ o. opened sign.kind sign.from sign.line ≡ Some (Opened o)) }
{
    match sign.kind {
        Kind::LeftBrace => Some(Opening::Group(sign.line)),
        Kind::Open => Some(Opening::Subshell(sign.line)),
        Kind::DoubleParenthesis => Some(Opening::ArithmeticCommand(sign.line)),
        Kind::LeftBrackets => Some(Opening::ConditionCommand(sign.line)),
        Kind::While => Some(Opening::Loop(sign.line, false)),
        Kind::Until => Some(Opening::Loop(sign.line, true)),
        Kind::For => Some(Opening::For(sign.line, false)),
        Kind::Select => Some(Opening::For(sign.line, true)),
        Kind::Case => Some(Opening::Case(sign.line)),
        Kind::Function => Some(Opening::Function(sign.from, sign.line)),
        _ => None,
    }
}

/// `if`
fn open_if(frames: &mut Frames, alloc: Global, sign: Sign, bytes: &[u8]) -> Result<(), Unbuilt>
    ensures grows { Grows (Lexed sign bytes.now) frames.old frames.new result }
    ensures moves { sign.kind ≡ kind.If → Moves ([], tag.If ∷ []) frames.old frames.new result }
{
    if sign.kind != Kind::If {
        return Err(frames.opened.stray());
    }
    let ready = frames.compounds.arms.push(Items::new(alloc));
    frames.opened.push_after(ready, Open::If(sign.line))?;
    Ok(())
}

/// What opens another compound command or a function.
#[tactic(auto, using(crate::proofs::Compounding::reads_opens, crate::proofs::MovingP::opens_other))]
fn open_other(frames: &mut Frames, sign: Sign, bytes: &[u8]) -> Result<(), Unbuilt>
    ensures grows { Grows (Lexed sign bytes.now) frames.old frames.new result }
    ensures moves { (t : Tag) → (sign.kind ≡ kind.If → ⊥) → opens sign.kind ≡ Some t → Moves ([], t ∷ []) frames.old frames.new result }
{
    let Some(opening) = opening(sign) else {
        return Err(frames.opened.stray());
    };
    frames.opened.push_after(Ok(()), Open::Opened(opening))?;
    Ok(())
}

/// What opens a compound command or a function.
#[tactic(auto, using(crate::proofs::MovingP::if_opens))]
pub fn open_compound(
    frames: &mut Frames,
    alloc: Global,
    sign: Sign,
    bytes: &[u8],
) -> Result<(), Unbuilt>
    ensures grows { Grows (Lexed sign bytes.now) frames.old frames.new result }
    ensures moves { (t : Tag) → opens sign.kind ≡ Some t → Moves ([], t ∷ []) frames.old frames.new result }
{
    match sign.kind {
        Kind::If => open_if(frames, alloc, sign, bytes),
        _ => open_other(frames, sign, bytes),
    }
}

/// What opens a list, and the list.
#[tactic(auto, using(crate::proofs::Steps::grows_stays))]
pub fn begin_list_command(
    frames: &mut Frames,
    alloc: Global,
    sign: Sign,
    bytes: &[u8],
) -> Result<(), Unbuilt>
    ensures grows { Grows (Lexed sign bytes.now) frames.old frames.new result }
    ensures moves { (t : Tag) → opens sign.kind ≡ Some t → Moves ([], tag.Lines ∷ t ∷ []) frames.old frames.new result }
{
    open_compound(frames, alloc, sign, bytes)?;
    open_list(frames, alloc)
}

/// `((`, and its text.
#[tactic(auto, using(crate::proofs::Steps::grows_stays))]
pub fn begin_arithmetic_command(
    frames: &mut Frames,
    alloc: Global,
    sign: Sign,
    bytes: &[u8],
) -> Result<(), Unbuilt>
    ensures grows { Grows (Lexed sign bytes.now) frames.old frames.new result }
    ensures moves { sign.kind ≡ kind.DoubleParenthesis → Moves ([], tag.Text ∷ tag.ArithmeticCommand ∷ []) frames.old frames.new result }
{
    open_compound(frames, alloc, sign, bytes)?;
    open_text(frames, alloc)
}

/// Puts a compound command, and no redirections behind it, on their stacks.
pub(crate) fn push_compound(
    commands: &mut Stack<Command>,
    redirects: &mut Stack<Items<Redirect<Word>>>,
    alloc: Global,
    command: Command,
) -> Result<(), Memory>
    ensures { OnOk result ((commands.new ≡ command ∷ commands.old) × (redirects.new ≡ [] ∷ redirects.old)) }
{
    commands.push(command)?;
    redirects.push(Items::new(alloc))?;
    Ok(())
}

/// The `}` of a group.
#[tactic(auto, using(crate::proofs::Onto::listed_loaded, crate::proofs::Onto::group_loaded))]
pub fn close_group(
    frames: &mut Frames,
    alloc: Global,
    sign: Sign,
    bytes: &[u8],
) -> Result<(), Unbuilt>
    ensures grows { Grows (Lexed sign bytes.now) frames.old frames.new result }
    ensures moves { sign.kind ≡ kind.RightBrace → Moves (tag.Listed ∷ tag.Group ∷ [], tag.Compound ∷ []) frames.old frames.new result }
{
    if sign.kind != Kind::RightBrace {
        return Err(frames.opened.stray());
    }
    let Some(Open::Listed) = frames.opened.pop() else {
        return Err(frames.opened.stray());
    };
    let Some(Open::Opened(Opening::Group(line))) = frames.opened.pop() else {
        return Err(frames.opened.stray());
    };
    let Some(body) = frames.lists.lists.pop() else {
        unreachable!();
    };
    let redirects = Items::new(alloc);
    let group = Command::Group { body, redirects };
    let ready = push_compound(
        &mut frames.lists.commands,
        &mut frames.redirections.redirects,
        alloc,
        group,
    );
    frames.opened.push_after(ready, Open::Compound(line))?;
    Ok(())
}

/// The `)` of a subshell.
#[tactic(auto, using(crate::proofs::Onto::listed_loaded, crate::proofs::Onto::subshell_loaded))]
pub fn close_subshell(
    frames: &mut Frames,
    alloc: Global,
    sign: Sign,
    bytes: &[u8],
) -> Result<(), Unbuilt>
    ensures grows { Grows (Lexed sign bytes.now) frames.old frames.new result }
    ensures moves { sign.kind ≡ kind.Close → Moves (tag.Listed ∷ tag.Subshell ∷ [], tag.Compound ∷ []) frames.old frames.new result }
{
    if sign.kind != Kind::Close {
        return Err(frames.opened.stray());
    }
    let Some(Open::Listed) = frames.opened.pop() else {
        return Err(frames.opened.stray());
    };
    let Some(Open::Opened(Opening::Subshell(line))) = frames.opened.pop() else {
        return Err(frames.opened.stray());
    };
    let Some(body) = frames.lists.lists.pop() else {
        unreachable!();
    };
    let redirects = Items::new(alloc);
    let subshell = Command::Subshell { body, redirects };
    let ready = push_compound(
        &mut frames.lists.commands,
        &mut frames.redirections.redirects,
        alloc,
        subshell,
    );
    frames.opened.push_after(ready, Open::Compound(line))?;
    Ok(())
}

/// The `))` of a command.
#[tactic(auto, using(crate::proofs::Onto::text_loaded, crate::proofs::Onto::arithmetic_command_loaded))]
pub fn close_arithmetic_command(
    frames: &mut Frames,
    alloc: Global,
    sign: Sign,
    bytes: &[u8],
) -> Result<(), Unbuilt>
    ensures grows { Grows (Lexed sign bytes.now) frames.old frames.new result }
    ensures moves { sign.kind ≡ kind.Close → Moves (tag.Text ∷ tag.ArithmeticCommand ∷ [], tag.Compound ∷ []) frames.old frames.new result }
{
    if sign.kind != Kind::Close {
        return Err(frames.opened.stray());
    }
    let Some(Open::Text) = frames.opened.pop() else {
        return Err(frames.opened.stray());
    };
    let Some(Open::Opened(Opening::ArithmeticCommand(line))) = frames.opened.pop() else {
        return Err(frames.opened.stray());
    };
    let Some(pieces) = frames.texts.words.pop() else {
        unreachable!();
    };
    let Ok(text) = arith_of(alloc, pieces) else {
        return Err(frames.opened.lost());
    };
    let redirects = Items::new(alloc);
    let arithmetic = Command::Arith { text, redirects };
    let ready = push_compound(
        &mut frames.lists.commands,
        &mut frames.redirections.redirects,
        alloc,
        arithmetic,
    );
    frames.opened.push_after(ready, Open::Compound(line))?;
    Ok(())
}

#[tactic(auto, using(crate::proofs::Onto::listed_loaded, crate::proofs::Onto::if_loaded))]
fn end_test(frames: &mut Frames, sign: Sign, bytes: &[u8]) -> Result<(), Unbuilt>
    ensures grows { Grows (Lexed sign bytes.now) frames.old frames.new result }
    ensures moves { sign.kind ≡ kind.Then → Moves (tag.Listed ∷ tag.If ∷ [], tag.Then ∷ []) frames.old frames.new result }
{
    if sign.kind != Kind::Then {
        return Err(frames.opened.stray());
    }
    let Some(Open::Listed) = frames.opened.pop() else {
        return Err(frames.opened.stray());
    };
    let Some(Open::If(line)) = frames.opened.pop() else {
        return Err(frames.opened.stray());
    };
    frames.opened.push_after(Ok(()), Open::Then(line))?;
    Ok(())
}

/// `then`
#[tactic(auto, using(crate::proofs::Steps::grows_stays))]
pub fn then(frames: &mut Frames, alloc: Global, sign: Sign, bytes: &[u8]) -> Result<(), Unbuilt>
    ensures grows { Grows (Lexed sign bytes.now) frames.old frames.new result }
    ensures moves { sign.kind ≡ kind.Then → Moves (tag.Listed ∷ tag.If ∷ [], tag.Lines ∷ tag.Then ∷ []) frames.old frames.new result }
{
    end_test(frames, sign, bytes)?;
    open_list(frames, alloc)
}

/// Puts an arm behind others.
fn add_arm(arms: &mut Items<Arm<List>>, test: List, body: List) -> Result<(), Memory>
    ensures { OnOk result (arms.new ≡ arms.old ++ arm test body ∷ []) }
{
    arms.push(Arm { test, body })?;
    Ok(())
}

#[tactic(auto, using(crate::proofs::Onto::listed_loaded, crate::proofs::Onto::then_loaded))]
fn end_arm(frames: &mut Frames, sign: Sign, bytes: &[u8]) -> Result<(), Unbuilt>
    ensures grows { Grows (Lexed sign bytes.now) frames.old frames.new result }
    ensures moves { sign.kind ≡ kind.Elif → Moves (tag.Listed ∷ tag.Then ∷ [], tag.If ∷ []) frames.old frames.new result }
{
    if sign.kind != Kind::Elif {
        return Err(frames.opened.stray());
    }
    let Some(Open::Listed) = frames.opened.pop() else {
        return Err(frames.opened.stray());
    };
    let Some(Open::Then(line)) = frames.opened.pop() else {
        return Err(frames.opened.stray());
    };
    let Some(body) = frames.lists.lists.pop() else {
        unreachable!();
    };
    let Some(test) = frames.lists.lists.pop() else {
        unreachable!();
    };
    let ready = frames.compounds.arms.add(Arm { test, body });
    frames.opened.push_after(ready, Open::If(line))?;
    Ok(())
}

/// `elif`
#[tactic(auto, using(crate::proofs::Steps::grows_stays))]
pub fn elif(frames: &mut Frames, alloc: Global, sign: Sign, bytes: &[u8]) -> Result<(), Unbuilt>
    ensures grows { Grows (Lexed sign bytes.now) frames.old frames.new result }
    ensures moves { sign.kind ≡ kind.Elif → Moves (tag.Listed ∷ tag.Then ∷ [], tag.Lines ∷ tag.If ∷ []) frames.old frames.new result }
{
    end_arm(frames, sign, bytes)?;
    open_list(frames, alloc)
}

#[tactic(auto, using(crate::proofs::Onto::listed_loaded, crate::proofs::Onto::then_loaded))]
fn end_last_arm(frames: &mut Frames, sign: Sign, bytes: &[u8]) -> Result<(), Unbuilt>
    ensures grows { Grows (Lexed sign bytes.now) frames.old frames.new result }
    ensures moves { sign.kind ≡ kind.Else → Moves (tag.Listed ∷ tag.Then ∷ [], tag.Else ∷ []) frames.old frames.new result }
{
    if sign.kind != Kind::Else {
        return Err(frames.opened.stray());
    }
    let Some(Open::Listed) = frames.opened.pop() else {
        return Err(frames.opened.stray());
    };
    let Some(Open::Then(line)) = frames.opened.pop() else {
        return Err(frames.opened.stray());
    };
    let Some(body) = frames.lists.lists.pop() else {
        unreachable!();
    };
    let Some(test) = frames.lists.lists.pop() else {
        unreachable!();
    };
    let ready = frames.compounds.arms.add(Arm { test, body });
    frames.opened.push_after(ready, Open::Else(line))?;
    Ok(())
}

/// `else`
#[tactic(auto, using(crate::proofs::Steps::grows_stays))]
pub fn otherwise_list(
    frames: &mut Frames,
    alloc: Global,
    sign: Sign,
    bytes: &[u8],
) -> Result<(), Unbuilt>
    ensures grows { Grows (Lexed sign bytes.now) frames.old frames.new result }
    ensures moves { sign.kind ≡ kind.Else → Moves (tag.Listed ∷ tag.Then ∷ [], tag.Lines ∷ tag.Else ∷ []) frames.old frames.new result }
{
    end_last_arm(frames, sign, bytes)?;
    open_list(frames, alloc)
}

/// `fi` behind the list of an arm.
#[tactic(auto, using(crate::proofs::Onto::listed_loaded, crate::proofs::Onto::then_loaded))]
fn end_arms(frames: &mut Frames, alloc: Global, sign: Sign, bytes: &[u8]) -> Result<(), Unbuilt>
    ensures grows { Grows (Lexed sign bytes.now) frames.old frames.new result }
    ensures moves { sign.kind ≡ kind.Fi → Moves (tag.Listed ∷ tag.Then ∷ [], tag.Compound ∷ []) frames.old frames.new result }
{
    if sign.kind != Kind::Fi {
        return Err(frames.opened.stray());
    }
    let Some(Open::Listed) = frames.opened.pop() else {
        return Err(frames.opened.stray());
    };
    let Some(Open::Then(line)) = frames.opened.pop() else {
        return Err(frames.opened.stray());
    };
    let Some(body) = frames.lists.lists.pop() else {
        unreachable!();
    };
    let Some(test) = frames.lists.lists.pop() else {
        unreachable!();
    };
    let Some(mut arms) = frames.compounds.arms.pop() else {
        unreachable!();
    };
    let Ok(()) = add_arm(&mut arms, test, body) else {
        return Err(frames.opened.lost());
    };
    let command = Command::If {
        arms,
        otherwise: None,
        redirects: Items::new(alloc),
    };
    let ready = push_compound(
        &mut frames.lists.commands,
        &mut frames.redirections.redirects,
        alloc,
        command,
    );
    frames.opened.push_after(ready, Open::Compound(line))?;
    Ok(())
}

/// `fi` behind the list of `else`.
#[tactic(auto, using(crate::proofs::Onto::listed_loaded, crate::proofs::Onto::else_loaded))]
fn end_else(frames: &mut Frames, alloc: Global, sign: Sign, bytes: &[u8]) -> Result<(), Unbuilt>
    ensures grows { Grows (Lexed sign bytes.now) frames.old frames.new result }
    ensures moves { sign.kind ≡ kind.Fi → Moves (tag.Listed ∷ tag.Else ∷ [], tag.Compound ∷ []) frames.old frames.new result }
{
    if sign.kind != Kind::Fi {
        return Err(frames.opened.stray());
    }
    let Some(Open::Listed) = frames.opened.pop() else {
        return Err(frames.opened.stray());
    };
    let Some(Open::Else(line)) = frames.opened.pop() else {
        return Err(frames.opened.stray());
    };
    let Some(body) = frames.lists.lists.pop() else {
        unreachable!();
    };
    let Some(arms) = frames.compounds.arms.pop() else {
        unreachable!();
    };
    let command = Command::If {
        arms,
        otherwise: Some(body),
        redirects: Items::new(alloc),
    };
    let ready = push_compound(
        &mut frames.lists.commands,
        &mut frames.redirections.redirects,
        alloc,
        command,
    );
    frames.opened.push_after(ready, Open::Compound(line))?;
    Ok(())
}

/// `fi`
#[tactic(auto, using(crate::proofs::MovingP::no_then, crate::proofs::MovingP::then_no_else))]
pub fn fi(frames: &mut Frames, alloc: Global, sign: Sign, bytes: &[u8]) -> Result<(), Unbuilt>
    ensures grows { Grows (Lexed sign bytes.now) frames.old frames.new result }
    ensures moves_then { sign.kind ≡ kind.Fi → Moves (tag.Listed ∷ tag.Then ∷ [], tag.Compound ∷ []) frames.old frames.new result }
    ensures moves_else { sign.kind ≡ kind.Fi → Moves (tag.Listed ∷ tag.Else ∷ [], tag.Compound ∷ []) frames.old frames.new result }
{
    match frames.at(1) {
        Place::Then => end_arms(frames, alloc, sign, bytes),
        _ => end_else(frames, alloc, sign, bytes),
    }
}

#[tactic(auto, using(crate::proofs::Onto::listed_loaded, crate::proofs::Onto::loop_loaded))]
fn end_loop_test(frames: &mut Frames, sign: Sign, bytes: &[u8]) -> Result<(), Unbuilt>
    ensures grows { Grows (Lexed sign bytes.now) frames.old frames.new result }
    ensures moves { sign.kind ≡ kind.Do → Moves (tag.Listed ∷ tag.Loop ∷ [], tag.LoopBody ∷ []) frames.old frames.new result }
{
    if sign.kind != Kind::Do {
        return Err(frames.opened.stray());
    }
    let Some(Open::Listed) = frames.opened.pop() else {
        return Err(frames.opened.stray());
    };
    let Some(Open::Opened(Opening::Loop(line, until))) = frames.opened.pop() else {
        return Err(frames.opened.stray());
    };
    frames
        .opened
        .push_after(Ok(()), Open::LoopBody(line, until))?;
    Ok(())
}

/// The `do` of `while` or `until`.
#[tactic(auto, using(crate::proofs::Steps::grows_stays))]
pub fn do_loop(frames: &mut Frames, alloc: Global, sign: Sign, bytes: &[u8]) -> Result<(), Unbuilt>
    ensures grows { Grows (Lexed sign bytes.now) frames.old frames.new result }
    ensures moves { sign.kind ≡ kind.Do → Moves (tag.Listed ∷ tag.Loop ∷ [], tag.Lines ∷ tag.LoopBody ∷ []) frames.old frames.new result }
{
    end_loop_test(frames, sign, bytes)?;
    open_list(frames, alloc)
}

/// The `done` of `while` or `until`.
#[tactic(auto, using(crate::proofs::Onto::listed_loaded, crate::proofs::Onto::loop_body_loaded))]
pub fn end_loop(frames: &mut Frames, alloc: Global, sign: Sign, bytes: &[u8]) -> Result<(), Unbuilt>
    ensures grows { Grows (Lexed sign bytes.now) frames.old frames.new result }
    ensures moves { sign.kind ≡ kind.Done → Moves (tag.Listed ∷ tag.LoopBody ∷ [], tag.Compound ∷ []) frames.old frames.new result }
{
    if sign.kind != Kind::Done {
        return Err(frames.opened.stray());
    }
    let Some(Open::Listed) = frames.opened.pop() else {
        return Err(frames.opened.stray());
    };
    let Some(Open::LoopBody(line, until)) = frames.opened.pop() else {
        return Err(frames.opened.stray());
    };
    let Some(body) = frames.lists.lists.pop() else {
        unreachable!();
    };
    let Some(test) = frames.lists.lists.pop() else {
        unreachable!();
    };
    let command = Command::Loop {
        until,
        test,
        body,
        redirects: Items::new(alloc),
    };
    let ready = push_compound(
        &mut frames.lists.commands,
        &mut frames.redirections.redirects,
        alloc,
        command,
    );
    frames.opened.push_after(ready, Open::Compound(line))?;
    Ok(())
}
