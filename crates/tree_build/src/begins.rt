//! Parts of which nothing was read, and simple commands.
ghost use Rattle.std.specs.Prelude.{[], ◌∷◌};
ghost use Rattle.tree_build.specs.Fits.{Moves};
ghost use Rattle.tree_moves.specs.Tags as tag;
ghost use Rattle.ksh_syntax.specs.declared.part.Mark.TheVariants.{AndOrBegins, PipelineBegins, SimpleBegins, SimpleEnds};
ghost use Rattle.tree_build.specs.Frames.{Grows, Stays};
ghost use Rattle.tree_build.specs.Heard.{Marked};

use crate::frames::Frames;
use crate::opening::{Open, Opening};
use crate::unbuilt::Unbuilt;
use ksh_ast::Command;
use ksh_base::Items;
use std::alloc::Global;
use tree_parts::Moment;

/// A list of commands begins.
#[tactic(auto, using(crate::proofs::Listing::reads_no_line, crate::proofs::MovingP::opens_lines, crate::proofs::Onto::lines_on))]
pub fn open_list(frames: &mut Frames, alloc: Global) -> Result<(), Unbuilt>
    ensures stays { Stays frames.old frames.new result }
    ensures moves { Moves ([], tag.Lines ∷ []) frames.old frames.new result }
{
    let ready = frames.lists.lines.push(Items::new(alloc));
    frames.opened.push_after(ready, Open::Lines)?;
    Ok(())
}

/// Patterns begin.
#[tactic(auto, using(crate::proofs::Compounding::reads_no_pattern, crate::proofs::MovingP::opens_patterns, crate::proofs::Onto::patterns_on))]
pub fn open_patterns(frames: &mut Frames, alloc: Global) -> Result<(), Unbuilt>
    ensures stays { Stays frames.old frames.new result }
    ensures moves { Moves ([], tag.Patterns ∷ []) frames.old frames.new result }
{
    let ready = frames.compounds.word_lists.push(Items::new(alloc));
    frames.opened.push_after(ready, Open::Patterns)?;
    Ok(())
}

/// Terms begin.
#[tactic(auto, using(crate::proofs::Testing::reads_no_term, crate::proofs::MovingP::opens_terms, crate::proofs::Onto::terms_on))]
pub fn open_terms(frames: &mut Frames, alloc: Global) -> Result<(), Unbuilt>
    ensures stays { Stays frames.old frames.new result }
    ensures moves { Moves ([], tag.Terms ∷ []) frames.old frames.new result }
{
    let ready = match frames.compounds.conditions.push(Items::new(alloc)) {
        Ok(()) => frames.compounds.terms.push(Items::new(alloc)),
        Err(memory) => Err(memory),
    };
    frames.opened.push_after(ready, Open::Terms(false))?;
    Ok(())
}

/// The words of a term begin.
#[tactic(auto, using(crate::proofs::Testing::reads_no_operand, crate::proofs::MovingP::opens_operands, crate::proofs::Onto::operands_on))]
pub fn open_operands(frames: &mut Frames, alloc: Global) -> Result<(), Unbuilt>
    ensures stays { Stays frames.old frames.new result }
    ensures moves { Moves ([], tag.OperandsNone ∷ []) frames.old frames.new result }
{
    let ready = frames.compounds.word_lists.push(Items::new(alloc));
    frames.opened.push_after(ready, Open::Operands)?;
    Ok(())
}

/// A simple command begins.
#[tactic(auto, using(crate::proofs::Wording::reads_simple_begins, crate::proofs::MovingP::opens_simple, crate::proofs::Onto::simple_on))]
pub fn begin_simple(frames: &mut Frames, alloc: Global, moment: Moment) -> Result<(), Unbuilt>
    ensures grows { Grows (Marked SimpleBegins moment) frames.old frames.new result }
    ensures moves { Moves ([], tag.SimpleEmpty ∷ []) frames.old frames.new result }
{
    let Ok(()) = frames.simples.assigns.push(Items::new(alloc)) else {
        return Err(frames.opened.lost());
    };
    let Ok(()) = frames.simples.arguments.push(Items::new(alloc)) else {
        return Err(frames.opened.lost());
    };
    let ready = frames.redirections.redirects.push(Items::new(alloc));
    let what = Open::Simple(moment.from, moment.line);
    frames.opened.push_after(ready, what)?;
    Ok(())
}

/// A simple command ends.
#[tactic(auto, using(crate::proofs::Wording::reads_simple, crate::proofs::MovingP::ends_simple, crate::proofs::Onto::simple_on, crate::proofs::Onto::finished_on, crate::proofs::Onto::simple_loaded))]
pub fn end_simple(frames: &mut Frames, moment: Moment) -> Result<(), Unbuilt>
    ensures grows { Grows (Marked SimpleEnds moment) frames.old frames.new result }
    ensures moves { Moves (tag.Simple ∷ [], tag.Finished ∷ []) frames.old frames.new result }
{
    let Some(Open::Simple(_, line)) = frames.opened.pop() else {
        return Err(frames.opened.stray());
    };
    let Some(assigns) = frames.simples.assigns.pop() else {
        unreachable!();
    };
    let Some(words) = frames.simples.arguments.pop() else {
        unreachable!();
    };
    let Some(redirects) = frames.redirections.redirects.pop() else {
        unreachable!();
    };
    let command = Command::Simple {
        assigns,
        words,
        redirects,
    };
    let ready = frames.lists.commands.push(command);
    frames.opened.push_after(ready, Open::Finished(line))?;
    Ok(())
}

/// A pipeline begins.
#[tactic(auto, using(crate::proofs::Listing::reads_pipeline_begins, crate::proofs::MovingP::opens_stages, crate::proofs::Onto::stages_on))]
pub fn begin_pipeline(frames: &mut Frames, alloc: Global, moment: Moment) -> Result<(), Unbuilt>
    ensures grows { Grows (Marked PipelineBegins moment) frames.old frames.new result }
    ensures moves { Moves ([], tag.StagesFirst ∷ []) frames.old frames.new result }
{
    let ready = frames.lists.stages.push(Items::new(alloc));
    let what = Open::Stages(moment.line, false);
    frames.opened.push_after(ready, what)?;
    Ok(())
}

/// A list of pipelines begins.
#[tactic(auto, using(crate::proofs::Listing::reads_chain_begins, crate::proofs::MovingP::opens_no_link, crate::proofs::Onto::no_link_on))]
pub fn begin_chain(frames: &mut Frames, moment: Moment) -> Result<(), Unbuilt>
    ensures grows { Grows (Marked AndOrBegins moment) frames.old frames.new result }
    ensures moves { Moves ([], tag.NoLink ∷ []) frames.old frames.new result }
{
    let opening = Opening::NoLink;
    frames.opened.push_after(Ok(()), Open::Opened(opening))?;
    Ok(())
}
