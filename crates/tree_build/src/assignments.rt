//! Assignments and redirections.
ghost use Rattle.ksh_kinds.specs.Words.{path_front};
ghost use Rattle.ksh_lexer.specs.declared.kind.Descriptor.{Descriptor};
ghost use Rattle.ksh_lexer.specs.declared.kind.Redirection.{Redirection as Operator};
ghost use Rattle.ksh_lexer.specs.declared.kind.TokenKind.TheVariants as token;
ghost use Rattle.ksh_syntax.specs.declared.kind.Kind.TheVariants as kind;
ghost use Rattle.tree_build.specs.Fits.{Moves};
ghost use Rattle.tree_build.specs.Tables.{assigns};
ghost use Rattle.tree_moves.specs.Tags as tag;
ghost use Rattle.tree_parts.specs.Parts.{all_names, is_descriptor, names_of, redirect_form};
ghost use Rattle.std.specs.Prelude.{◌≡◌, ◌∷◌, OnOk, None, [], true};
ghost use Rattle.tree_build.specs.Frame.{Assigning};
ghost use Rattle.tree_build.specs.Frames.{Grows};
ghost use Rattle.tree_build.specs.Heard.{BodyBegins, BodyEnds, Lexed};

use crate::frames::Frames;
use crate::opening::Open;
use crate::tables::assigns;
use crate::texts::open_text;
use crate::unbuilt::Unbuilt;
use crate::words::{give_assignment, give_redirection};
use ksh_ast::{Assign, Redirect, RedirectForm, TreePath};
use ksh_base::Items;
use ksh_lexer::TokenKind;
use ksh_syntax::Kind;
use std::alloc::Global;
use tree_parts::{Sign, adds, path_front, path_of, redirect_form, redirect_to, value_of};

/// The path before a subscript of an assignment.
#[tactic(auto, using(crate::proofs::MovingQ::says_nothing))]
pub fn begin_element(
    frames: &mut Frames,
    alloc: Global,
    sign: Sign,
    bytes: &[u8],
) -> Result<(), Unbuilt>
    ensures grows { Grows (Lexed sign bytes.now) frames.old frames.new result }
    ensures moves { sign.kind ≡ kind.Element → all_names (names_of bytes.now) ≡ true → Moves ([], tag.Target ∷ []) frames.old frames.new result }
{
    if sign.kind != Kind::Element {
        return Err(frames.opened.stray());
    }
    let Some(path) = path_of(alloc, bytes)? else {
        return Err(frames.opened.stray());
    };
    let ready = frames.texts.paths.push(path);
    frames.opened.push_after(ready, Open::Target(sign.from))?;
    Ok(())
}

#[tactic(auto, using(crate::proofs::Wording::reads_no_assignment, crate::proofs::Onto::target_on, crate::proofs::Onto::element_on, crate::proofs::Onto::target_loaded, crate::proofs::MovingQ::moves_to_word))]
fn turn_to_word(frames: &mut Frames, sign: Sign, bytes: &[u8]) -> Result<(), Unbuilt>
    ensures grows { Grows (Lexed sign bytes.now) frames.old frames.new result }
    ensures moves { sign.kind ≡ kind.Otherwise → Moves (tag.Target ∷ [], tag.Element ∷ []) frames.old frames.new result }
{
    if sign.kind != Kind::Otherwise {
        return Err(frames.opened.stray());
    }
    let Some(Open::Target(from)) = frames.opened.pop() else {
        return Err(frames.opened.stray());
    };
    frames.opened.push_after(Ok(()), Open::Element(from))?;
    Ok(())
}

/// No assignment stands behind a path and its subscripts: they are the front of a word.
#[tactic(auto, using(crate::proofs::Steps::grows_stays, crate::proofs::MovingQ::first_fails))]
pub fn end_as_word(
    frames: &mut Frames,
    alloc: Global,
    sign: Sign,
    bytes: &[u8],
) -> Result<(), Unbuilt>
    ensures grows { Grows (Lexed sign bytes.now) frames.old frames.new result }
    ensures moves { sign.kind ≡ kind.Otherwise → Moves (tag.Target ∷ [], tag.Text ∷ tag.Element ∷ []) frames.old frames.new result }
{
    turn_to_word(frames, sign, bytes)?;
    open_text(frames, alloc)
}

/// `=` or `+=` behind a subscript.
#[tactic(auto, using(crate::proofs::Wording::reads_assigns_element, crate::proofs::Onto::target_on, crate::proofs::Onto::assigning_on, crate::proofs::Onto::target_loaded, crate::proofs::MovingQ::moves_to_assigning))]
pub fn assign_element(frames: &mut Frames, sign: Sign, bytes: &[u8]) -> Result<(), Unbuilt>
    ensures grows { Grows (Lexed sign bytes.now) frames.old frames.new result }
    ensures moves { (assigns sign.token ≡ None → ⊥) → Moves (tag.Target ∷ [], tag.Assigning ∷ []) frames.old frames.new result }
{
    let Some(append) = assigns(sign.token) else {
        return Err(frames.opened.stray());
    };
    let Some(Open::Target(_)) = frames.opened.pop() else {
        return Err(frames.opened.stray());
    };
    frames.opened.push_after(Ok(()), Open::Assigning(append))?;
    Ok(())
}

/// The same where a word comes.
#[tactic(auto, using(crate::proofs::Steps::grows_stays, crate::proofs::MovingQ::first_fails))]
pub fn begin_assigned(
    frames: &mut Frames,
    alloc: Global,
    sign: Sign,
    bytes: &[u8],
) -> Result<(), Unbuilt>
    ensures grows { Grows (Lexed sign bytes.now) frames.old frames.new result }
    ensures moves { (assigns sign.token ≡ None → ⊥) → Moves (tag.Target ∷ [], tag.Text ∷ tag.Assigning ∷ []) frames.old frames.new result }
{
    assign_element(frames, sign, bytes)?;
    open_text(frames, alloc)
}

fn open_assigning(frames: &mut Frames, path: TreePath, append: bool) -> Result<(), Unbuilt>
    ensures opens { OnOk result (frames.new ≡ Assigning path append ∷ frames.old) }
    ensures moves { Moves ([], tag.Assigning ∷ []) frames.old frames.new result }
{
    let ready = frames.texts.paths.push(path);
    frames.opened.push_after(ready, Open::Assigning(append))?;
    Ok(())
}

/// `path=` or `path+=` before a value in parentheses.
#[tactic(auto, using(crate::proofs::Wording::reads_assigns_value, crate::proofs::MovingQ::says_nothing, crate::proofs::MovingQ::first_fails))]
pub fn assign_value(
    frames: &mut Frames,
    alloc: Global,
    sign: Sign,
    bytes: &[u8],
) -> Result<(), Unbuilt>
    ensures grows { Grows (Lexed sign bytes.now) frames.old frames.new result }
    ensures moves { sign.kind ≡ kind.ValueOpen → all_names (names_of (path_front bytes.now)) ≡ true → Moves ([], tag.Assigning ∷ []) frames.old frames.new result }
{
    if sign.kind != Kind::ValueOpen {
        return Err(frames.opened.stray());
    }
    let Some(path) = path_of(alloc, path_front(bytes))? else {
        return Err(frames.opened.stray());
    };
    open_assigning(frames, path, adds(bytes))?;
    Ok(())
}

/// The `(` of a value.
#[tactic(auto, using(crate::proofs::Defining::reads_opens_value, crate::proofs::Onto::value_on, crate::proofs::MovingQ::opens_value))]
pub fn open_value(
    frames: &mut Frames,
    alloc: Global,
    sign: Sign,
    bytes: &[u8],
) -> Result<(), Unbuilt>
    ensures grows { Grows (Lexed sign bytes.now) frames.old frames.new result }
    ensures moves { sign.kind ≡ kind.Open → Moves ([], tag.Value ∷ []) frames.old frames.new result }
{
    if sign.kind != Kind::Open {
        return Err(frames.opened.stray());
    }
    let ready = frames.texts.entries.push(Items::new(alloc));
    frames.opened.push_after(ready, Open::Value)?;
    Ok(())
}

#[tactic(auto, using(crate::proofs::Onto::value_loaded, crate::proofs::Onto::assigning_loaded))]
fn end_value(frames: &mut Frames, alloc: Global, sign: Sign, bytes: &[u8]) -> Result<(), Unbuilt>
    ensures grows { Grows (Lexed sign bytes.now) frames.old frames.new result }
    ensures moves { sign.kind ≡ kind.Close → Moves (tag.Value ∷ tag.Assigning ∷ [], tag.Assigned ∷ []) frames.old frames.new result }
{
    if sign.kind != Kind::Close {
        return Err(frames.opened.stray());
    }
    let Some(Open::Value) = frames.opened.pop() else {
        return Err(frames.opened.stray());
    };
    let Some(Open::Assigning(append)) = frames.opened.pop() else {
        return Err(frames.opened.stray());
    };
    let Some(entries) = frames.texts.entries.pop() else {
        unreachable!();
    };
    let Some(path) = frames.texts.paths.pop() else {
        unreachable!();
    };
    let Ok(value) = value_of(alloc, entries) else {
        return Err(frames.opened.lost());
    };
    let ready = frames.simples.assigned.push(Assign {
        path,
        append,
        value,
    });
    frames.opened.push_after(ready, Open::Assigned)?;
    Ok(())
}

/// The `)` of a value.
#[tactic(auto, using(crate::proofs::Steps::grows_stays, crate::proofs::MovingQ::two_fail))]
pub fn close_value(
    frames: &mut Frames,
    alloc: Global,
    sign: Sign,
    bytes: &[u8],
) -> Result<(), Unbuilt>
    ensures grows { Grows (Lexed sign bytes.now) frames.old frames.new result }
    ensures moves_simple { sign.kind ≡ kind.Close → Moves (tag.Value ∷ tag.Assigning ∷ tag.Simple ∷ [], tag.Simple ∷ []) frames.old frames.new result }
    ensures moves_value { sign.kind ≡ kind.Close → Moves (tag.Value ∷ tag.Assigning ∷ tag.Value ∷ [], tag.Value ∷ []) frames.old frames.new result }
{
    end_value(frames, alloc, sign, bytes)?;
    give_assignment(frames)
}

/// The operator of a redirection.
#[tactic(auto, using(crate::proofs::Wording::reads_redirects, crate::proofs::Wording::reads_redirects_here, crate::proofs::Onto::redirection_on, crate::proofs::Onto::here_operator_on, crate::proofs::MovingQ::says_nothing, crate::proofs::MovingQ::opens_redirection, crate::proofs::MovingQ::opens_here))]
pub fn begin_redirection(
    frames: &mut Frames,
    alloc: Global,
    sign: Sign,
    bytes: &[u8],
) -> Result<(), Unbuilt>
    ensures grows { Grows (Lexed sign bytes.now) frames.old frames.new result }
    ensures moves_here { sign.kind ≡ kind.HereRedirect → (op : Operator) (d : Descriptor) → sign.token ≡ token.Redirect op d → is_descriptor d sign.from bytes.now ≡ true → Moves ([], tag.HereOperator ∷ []) frames.old frames.new result }
    ensures moves { (sign.kind ≡ kind.HereRedirect → ⊥) → (op : Operator) (d : Descriptor) → sign.token ≡ token.Redirect op d → is_descriptor d sign.from bytes.now ≡ true → (redirect_form op ≡ None → ⊥) → Moves ([], tag.Redirection ∷ []) frames.old frames.new result }
{
    let TokenKind::Redirect(operator, descriptor) = sign.token else {
        return Err(frames.opened.stray());
    };
    let Some(to) = redirect_to(alloc, descriptor, sign.from, bytes)? else {
        return Err(frames.opened.stray());
    };
    if sign.kind == Kind::HereRedirect {
        let ready = frames.redirections.targets.push(to);
        frames.opened.push_after(ready, Open::HereOperator)?;
        return Ok(());
    }
    let Some(form) = redirect_form(operator) else {
        return Err(frames.opened.stray());
    };
    let Ok(()) = frames.redirections.targets.push(to) else {
        return Err(frames.opened.lost());
    };
    let ready = frames.redirections.forms.push(form);
    frames.opened.push_after(ready, Open::Redirection)?;
    Ok(())
}

#[tactic(auto, using(crate::proofs::Wording::reads_here_body, crate::proofs::Onto::here_word_on, crate::proofs::Onto::here_body_on, crate::proofs::Onto::here_word_loaded, crate::proofs::MovingQ::moves_here_body))]
fn open_body(frames: &mut Frames) -> Result<(), Unbuilt>
    ensures grows { Grows BodyBegins frames.old frames.new result }
    ensures moves { Moves (tag.HereWord ∷ [], tag.HereBody ∷ []) frames.old frames.new result }
{
    let Some(Open::HereWord) = frames.opened.pop() else {
        return Err(frames.opened.stray());
    };
    frames.opened.push_after(Ok(()), Open::HereBody)?;
    Ok(())
}

/// The body of a here-document begins.
#[tactic(auto, using(crate::proofs::Steps::grows_stays, crate::proofs::MovingQ::first_fails))]
pub fn begin_body(frames: &mut Frames, alloc: Global) -> Result<(), Unbuilt>
    ensures grows { Grows BodyBegins frames.old frames.new result }
    ensures moves { Moves (tag.HereWord ∷ [], tag.Text ∷ tag.HereBody ∷ []) frames.old frames.new result }
{
    open_body(frames)?;
    open_text(frames, alloc)
}

#[tactic(auto, using(crate::proofs::Onto::text_loaded, crate::proofs::Onto::here_body_loaded))]
fn close_body(frames: &mut Frames) -> Result<(), Unbuilt>
    ensures grows { Grows BodyEnds frames.old frames.new result }
    ensures moves { Moves (tag.Text ∷ tag.HereBody ∷ [], tag.Redirected ∷ []) frames.old frames.new result }
{
    let Some(Open::Text) = frames.opened.pop() else {
        return Err(frames.opened.stray());
    };
    let Some(Open::HereBody) = frames.opened.pop() else {
        return Err(frames.opened.stray());
    };
    let Some(word) = frames.texts.words.pop() else {
        unreachable!();
    };
    let Some(to) = frames.redirections.targets.pop() else {
        unreachable!();
    };
    let Some(end) = frames.redirections.ends.pop() else {
        unreachable!();
    };
    let form = RedirectForm::HereDoc { end };
    let ready = frames
        .redirections
        .redirected
        .push(Redirect { to, form, word });
    frames.opened.push_after(ready, Open::Redirected)?;
    Ok(())
}

/// The body of a here-document ends.
#[tactic(auto, using(crate::proofs::Steps::grows_stays, crate::proofs::MovingQ::two_fail))]
pub fn end_body(frames: &mut Frames) -> Result<(), Unbuilt>
    ensures grows { Grows BodyEnds frames.old frames.new result }
    ensures moves_simple { Moves (tag.Text ∷ tag.HereBody ∷ tag.Simple ∷ [], tag.Simple ∷ []) frames.old frames.new result }
    ensures moves_compound { Moves (tag.Text ∷ tag.HereBody ∷ tag.Compound ∷ [], tag.Compound ∷ []) frames.old frames.new result }
{
    close_body(frames)?;
    give_redirection(frames)
}
