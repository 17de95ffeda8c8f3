//! Pipelines and lists of commands.
ghost use Rattle.ksh_ast.specs.declared.tree.Command.{Command};
ghost use Rattle.ksh_syntax.specs.declared.kind.Kind.TheVariants as kind;
ghost use Rattle.std.specs.Prelude.{None, [], ℕ, ◌∷◌, ◌≡◌};
ghost use Rattle.tree_build.specs.Fits.{Moves};
ghost use Rattle.tree_moves.specs.Tags as tag;
ghost use Rattle.tree_parts.specs.Parts.{ended_by, joins};
ghost use Rattle.tree_build.specs.Frames.{Grows, Stays};
ghost use Rattle.tree_build.specs.Heard.{Lexed, Marked};
ghost use Rattle.ksh_syntax.specs.declared.part.Mark.TheVariants.{AndOrBegins, ListEnds, PipelineBegins};

use crate::frames::Frames;
use crate::opening::{Open, Opening};
use crate::place::Place;
use crate::unbuilt::Unbuilt;
use ksh_ast::{Command, Item, Link};
use ksh_base::{Boxed, Items, Shared};
use ksh_syntax::Kind;
use std::alloc::Global;
use tree_parts::{Moment, Sign, ended_by, joins, list_of, negated, piped};

/// The `!` before a pipeline.
#[tactic(auto, using(crate::proofs::Listing::reads_bang, crate::proofs::Onto::stages_on, crate::proofs::Onto::stages_loaded, crate::proofs::MovingP::negates))]
pub fn negate(frames: &mut Frames, sign: Sign, bytes: &[u8]) -> Result<(), Unbuilt>
    ensures grows { Grows (Lexed sign bytes.now) frames.old frames.new result }
    ensures moves { sign.kind ≡ kind.Bang → Moves (tag.StagesFirst ∷ [], tag.Stages ∷ []) frames.old frames.new result }
{
    if sign.kind != Kind::Bang {
        return Err(frames.opened.stray());
    }
    let Some(Open::Stages(line, false)) = frames.opened.pop() else {
        return Err(frames.opened.stray());
    };
    let Some(members) = frames.lists.stages.pop() else {
        unreachable!();
    };
    if !members.is_empty() {
        return Err(frames.opened.stray());
    }
    let ready = frames.lists.stages.push(members);
    frames.opened.push_after(ready, Open::Stages(line, true))?;
    Ok(())
}

/// A `|` behind a command.
#[tactic(auto, using(crate::proofs::Onto::finished_loaded, crate::proofs::Onto::stages_loaded))]
pub fn bar(frames: &mut Frames, alloc: Global, sign: Sign, bytes: &[u8]) -> Result<(), Unbuilt>
    ensures grows { Grows (Lexed sign bytes.now) frames.old frames.new result }
    ensures moves { sign.kind ≡ kind.Bar → Moves (tag.Finished ∷ tag.Stages ∷ [], tag.Stages ∷ []) frames.old frames.new result }
{
    if sign.kind != Kind::Bar {
        return Err(frames.opened.stray());
    }
    let Some(Open::Finished(own)) = frames.opened.pop() else {
        return Err(frames.opened.stray());
    };
    let Some(Open::Stages(line, not)) = frames.opened.pop() else {
        return Err(frames.opened.stray());
    };
    let Some(command) = frames.lists.commands.pop() else {
        unreachable!();
    };
    let Ok(stage) = list_of(alloc, own, command) else {
        return Err(frames.opened.lost());
    };
    let ready = frames.lists.stages.add(stage);
    frames.opened.push_after(ready, Open::Stages(line, not))?;
    Ok(())
}

/// Makes a pipeline of its commands.
#[tactic(auto, using(crate::proofs::Onto::finished_loaded, crate::proofs::Onto::stages_loaded))]
fn finish_pipeline(frames: &mut Frames, alloc: Global) -> Result<(), Unbuilt>
    ensures stays { Stays frames.old frames.new result }
    ensures moves { Moves (tag.Finished ∷ tag.Stages ∷ [], tag.Piped ∷ []) frames.old frames.new result }
{
    let Some(Open::Finished(own)) = frames.opened.pop() else {
        return Err(frames.opened.stray());
    };
    let Some(Open::Stages(line, not)) = frames.opened.pop() else {
        return Err(frames.opened.stray());
    };
    let Some(command) = frames.lists.commands.pop() else {
        unreachable!();
    };
    let Some(members) = frames.lists.stages.pop() else {
        unreachable!();
    };
    let Ok(pipeline) = piped(alloc, members, own, command) else {
        return Err(frames.opened.lost());
    };
    let Ok(whole) = negated(alloc, not, pipeline) else {
        return Err(frames.opened.lost());
    };
    let ready = frames.lists.commands.push(whole);
    frames.opened.push_after(ready, Open::Piped(line))?;
    Ok(())
}

/// An `&&` or `||` behind the first pipeline.
#[tactic(auto, using(crate::proofs::Onto::piped_loaded, crate::proofs::Onto::no_link_loaded))]
fn first_link(frames: &mut Frames, alloc: Global, sign: Sign, bytes: &[u8]) -> Result<(), Unbuilt>
    ensures grows { Grows (Lexed sign bytes.now) frames.old frames.new result }
    ensures moves { (joins sign.kind ≡ None → ⊥) → Moves (tag.Piped ∷ tag.NoLink ∷ [], tag.Linked ∷ []) frames.old frames.new result }
{
    let Some(then_or) = joins(sign.kind) else {
        return Err(frames.opened.stray());
    };
    let Some(Open::Piped(own)) = frames.opened.pop() else {
        return Err(frames.opened.stray());
    };
    let Some(Open::Opened(Opening::NoLink)) = frames.opened.pop() else {
        return Err(frames.opened.stray());
    };
    let ready = frames.lists.links.push(Items::new(alloc));
    frames.opened.push_after(ready, Open::Linked(own, then_or))?;
    Ok(())
}

/// An `&&` or `||` behind a later one.
#[tactic(auto, using(crate::proofs::Onto::piped_loaded, crate::proofs::Onto::linked_loaded))]
fn next_link(frames: &mut Frames, sign: Sign, bytes: &[u8]) -> Result<(), Unbuilt>
    ensures grows { Grows (Lexed sign bytes.now) frames.old frames.new result }
    ensures moves { (joins sign.kind ≡ None → ⊥) → Moves (tag.Piped ∷ tag.Linked ∷ [], tag.Linked ∷ []) frames.old frames.new result }
{
    let Some(then_or) = joins(sign.kind) else {
        return Err(frames.opened.stray());
    };
    let Some(Open::Piped(_)) = frames.opened.pop() else {
        return Err(frames.opened.stray());
    };
    let Some(Open::Linked(line, or)) = frames.opened.pop() else {
        return Err(frames.opened.stray());
    };
    let Some(command) = frames.lists.commands.pop() else {
        unreachable!();
    };
    let ready = frames.lists.links.add(Link { or, command });
    frames
        .opened
        .push_after(ready, Open::Linked(line, then_or))?;
    Ok(())
}

/// An `&&` or `||` behind a pipeline.
#[tactic(auto, using(crate::proofs::MovingP::is_linked, crate::proofs::MovingP::is_not_linked))]
fn link(frames: &mut Frames, alloc: Global, sign: Sign, bytes: &[u8]) -> Result<(), Unbuilt>
    ensures grows { Grows (Lexed sign bytes.now) frames.old frames.new result }
    ensures moves { (joins sign.kind ≡ None → ⊥) → Moves (tag.Piped ∷ tag.Link ∷ [], tag.Linked ∷ []) frames.old frames.new result }
{
    match frames.at(1) {
        Place::Linked => next_link(frames, sign, bytes),
        _ => first_link(frames, alloc, sign, bytes),
    }
}

/// An `&&` or `||` behind a command.
#[tactic(auto, using(crate::proofs::Steps::stays_grows))]
pub fn join(frames: &mut Frames, alloc: Global, sign: Sign, bytes: &[u8]) -> Result<(), Unbuilt>
    ensures grows { Grows (Lexed sign bytes.now) frames.old frames.new result }
    ensures moves { (joins sign.kind ≡ None → ⊥) → Moves (tag.Finished ∷ tag.Stages ∷ tag.Link ∷ [], tag.Linked ∷ []) frames.old frames.new result }
{
    finish_pipeline(frames, alloc)?;
    link(frames, alloc, sign, bytes)
}

/// A list of one pipeline.
#[tactic(auto, using(crate::proofs::Onto::piped_loaded, crate::proofs::Onto::no_link_loaded))]
fn finish_one(frames: &mut Frames) -> Result<(), Unbuilt>
    ensures stays { Stays frames.old frames.new result }
    ensures moves { Moves (tag.Piped ∷ tag.NoLink ∷ [], tag.Chain ∷ []) frames.old frames.new result }
{
    let Some(Open::Piped(line)) = frames.opened.pop() else {
        return Err(frames.opened.stray());
    };
    let Some(Open::Opened(Opening::NoLink)) = frames.opened.pop() else {
        return Err(frames.opened.stray());
    };
    frames.opened.push_after(Ok(()), Open::Chain(line))?;
    Ok(())
}

/// A list of several pipelines.
#[tactic(auto, using(crate::proofs::Onto::piped_loaded, crate::proofs::Onto::linked_loaded))]
fn finish_several(frames: &mut Frames, alloc: Global) -> Result<(), Unbuilt>
    ensures stays { Stays frames.old frames.new result }
    ensures moves { Moves (tag.Piped ∷ tag.Linked ∷ [], tag.Chain ∷ []) frames.old frames.new result }
{
    let Some(Open::Piped(_)) = frames.opened.pop() else {
        return Err(frames.opened.stray());
    };
    let Some(Open::Linked(line, or)) = frames.opened.pop() else {
        return Err(frames.opened.stray());
    };
    let Some(command) = frames.lists.commands.pop() else {
        unreachable!();
    };
    let Some(first) = frames.lists.commands.pop() else {
        unreachable!();
    };
    let Some(mut rest) = frames.lists.links.pop() else {
        unreachable!();
    };
    let Ok(()) = rest.push(Link { or, command }) else {
        return Err(frames.opened.lost());
    };
    let Ok(first) = Boxed::new(alloc, first) else {
        return Err(frames.opened.lost());
    };
    let ready = frames.lists.commands.push(Command::AndOr { first, rest });
    frames.opened.push_after(ready, Open::Chain(line))?;
    Ok(())
}

/// Makes a command of a list of pipelines.
#[tactic(auto, using(crate::proofs::MovingP::is_linked, crate::proofs::MovingP::is_not_linked))]
fn finish_links(frames: &mut Frames, alloc: Global) -> Result<(), Unbuilt>
    ensures stays { Stays frames.old frames.new result }
    ensures moves { Moves (tag.Piped ∷ tag.Link ∷ [], tag.Chain ∷ []) frames.old frames.new result }
{
    match frames.at(1) {
        Place::Linked => finish_several(frames, alloc),
        _ => finish_one(frames),
    }
}

#[tactic(auto, using(crate::proofs::Steps::stays_stays))]
fn finish_chain(frames: &mut Frames, alloc: Global) -> Result<(), Unbuilt>
    ensures stays { Stays frames.old frames.new result }
    ensures moves { Moves (tag.Finished ∷ tag.Stages ∷ tag.Link ∷ [], tag.Chain ∷ []) frames.old frames.new result }
{
    finish_pipeline(frames, alloc)?;
    finish_links(frames, alloc)
}

/// What ends a list of pipelines.
#[tactic(auto, using(crate::proofs::Onto::chain_loaded, crate::proofs::Onto::lines_loaded))]
fn end_chain(frames: &mut Frames, alloc: Global, sign: Sign, bytes: &[u8]) -> Result<(), Unbuilt>
    ensures grows { Grows (Lexed sign bytes.now) frames.old frames.new result }
    ensures moves { ((line : ℕ) (c : Command) → ended_by sign.kind line c ≡ None → ⊥) → Moves (tag.Chain ∷ tag.Lines ∷ [], tag.Lines ∷ []) frames.old frames.new result }
{
    let Some(Open::Chain(line)) = frames.opened.pop() else {
        return Err(frames.opened.stray());
    };
    let Some(Open::Lines) = frames.opened.pop() else {
        return Err(frames.opened.stray());
    };
    let Some(command) = frames.lists.commands.pop() else {
        unreachable!();
    };
    let Ok(ended) = ended_by(alloc, sign.kind, line, command) else {
        return Err(frames.opened.lost());
    };
    let Some(command) = ended else {
        return Err(frames.opened.stray());
    };
    let ready = frames.lists.lines.add(Item { line, command });
    frames.opened.push_after(ready, Open::Lines)?;
    Ok(())
}

/// A newline, `;`, `&` or `|&` behind a command.
#[tactic(auto, using(crate::proofs::Steps::stays_grows))]
pub fn end_command(
    frames: &mut Frames,
    alloc: Global,
    sign: Sign,
    bytes: &[u8],
) -> Result<(), Unbuilt>
    ensures grows { Grows (Lexed sign bytes.now) frames.old frames.new result }
    ensures moves { ((line : ℕ) (c : Command) → ended_by sign.kind line c ≡ None → ⊥) → Moves (tag.Finished ∷ tag.Stages ∷ tag.Link ∷ tag.Lines ∷ [], tag.Lines ∷ []) frames.old frames.new result }
{
    finish_chain(frames, alloc)?;
    end_chain(frames, alloc, sign, bytes)
}

/// A list ends behind what ended its last command.
#[tactic(auto, using(crate::proofs::Listing::reads_list, crate::proofs::Onto::lines_on, crate::proofs::Onto::listed_on, crate::proofs::Onto::lines_loaded, crate::proofs::MovingP::closes_lines))]
fn close_lines(frames: &mut Frames, alloc: Global, moment: Moment) -> Result<(), Unbuilt>
    ensures grows { Grows (Marked ListEnds moment) frames.old frames.new result }
    ensures moves { Moves (tag.Lines ∷ [], tag.Listed ∷ []) frames.old frames.new result }
{
    let Some(Open::Lines) = frames.opened.pop() else {
        return Err(frames.opened.stray());
    };
    let Some(items) = frames.lists.lines.pop() else {
        unreachable!();
    };
    let Ok(list) = Shared::new(alloc, items) else {
        return Err(frames.opened.lost());
    };
    let ready = frames.lists.lists.push(list);
    frames.opened.push_after(ready, Open::Listed)?;
    Ok(())
}

/// A list ends behind its last command.
#[tactic(auto, using(crate::proofs::Onto::chain_loaded, crate::proofs::Onto::lines_loaded))]
fn close_last(frames: &mut Frames, alloc: Global, moment: Moment) -> Result<(), Unbuilt>
    ensures grows { Grows (Marked ListEnds moment) frames.old frames.new result }
    ensures moves { Moves (tag.Chain ∷ tag.Lines ∷ [], tag.Listed ∷ []) frames.old frames.new result }
{
    let Some(Open::Chain(line)) = frames.opened.pop() else {
        return Err(frames.opened.stray());
    };
    let Some(Open::Lines) = frames.opened.pop() else {
        return Err(frames.opened.stray());
    };
    let Some(command) = frames.lists.commands.pop() else {
        unreachable!();
    };
    let Some(mut items) = frames.lists.lines.pop() else {
        unreachable!();
    };
    let Ok(()) = items.push(Item { line, command }) else {
        return Err(frames.opened.lost());
    };
    let Ok(list) = Shared::new(alloc, items) else {
        return Err(frames.opened.lost());
    };
    let ready = frames.lists.lists.push(list);
    frames.opened.push_after(ready, Open::Listed)?;
    Ok(())
}

#[tactic(auto, using(crate::proofs::MovingP::no_lines, crate::proofs::MovingP::no_chain))]
fn close_list(frames: &mut Frames, alloc: Global, moment: Moment) -> Result<(), Unbuilt>
    ensures grows { Grows (Marked ListEnds moment) frames.old frames.new result }
    ensures moves_lines { Moves (tag.Lines ∷ [], tag.Listed ∷ []) frames.old frames.new result }
    ensures moves_chain { Moves (tag.Chain ∷ tag.Lines ∷ [], tag.Listed ∷ []) frames.old frames.new result }
{
    match frames.at(0) {
        Place::Lines => close_lines(frames, alloc, moment),
        _ => close_last(frames, alloc, moment),
    }
}

/// Makes a command of a list of pipelines that no token ended.
#[tactic(auto, using(crate::proofs::Steps::nothing_stays, crate::proofs::MovingP::finished_no_lines, crate::proofs::MovingP::no_finished, crate::proofs::MovingP::lines_stay))]
fn finish_last(frames: &mut Frames, alloc: Global) -> Result<(), Unbuilt>
    ensures stays { Stays frames.old frames.new result }
    ensures moves_lines { Moves (tag.Lines ∷ [], tag.Lines ∷ []) frames.old frames.new result }
    ensures moves_chain { Moves (tag.Finished ∷ tag.Stages ∷ tag.Link ∷ [], tag.Chain ∷ []) frames.old frames.new result }
{
    match frames.at(0) {
        Place::Finished => finish_chain(frames, alloc),
        _ => Ok(()),
    }
}

/// A list of commands ends.
#[tactic(auto, using(crate::proofs::Steps::stays_grows))]
pub fn end_list(frames: &mut Frames, alloc: Global, moment: Moment) -> Result<(), Unbuilt>
    ensures grows { Grows (Marked ListEnds moment) frames.old frames.new result }
    ensures moves_lines { Moves (tag.Lines ∷ [], tag.Listed ∷ []) frames.old frames.new result }
    ensures moves_chain { Moves (tag.Finished ∷ tag.Stages ∷ tag.Link ∷ tag.Lines ∷ [], tag.Listed ∷ []) frames.old frames.new result }
{
    finish_last(frames, alloc)?;
    close_list(frames, alloc, moment)
}
