//! Parameters in braces, and subscripts.
ghost use Rattle.ksh_lexer.specs.declared.kind.Form.{Form};
ghost use Rattle.ksh_lexer.specs.declared.kind.TokenKind.TheVariants as token;
ghost use Rattle.ksh_syntax.specs.declared.kind.Kind.TheVariants as kind;
ghost use Rattle.tree_build.specs.Fits.{Moves, TakesTwo};
ghost use Rattle.tree_build.specs.Tables.{is_special, opens_bracket};
ghost use Rattle.tree_moves.specs.Tags as tag;
ghost use Rattle.tree_parts.specs.Literals.{from_place};
ghost use Rattle.tree_parts.specs.Parts.{is_name};
ghost use Rattle.std.specs.Prelude.{◌≡◌, Bool, [], true, ℕ, ◌∷◌};
ghost use Rattle.tree_build.specs.Frames.{Grows};
ghost use Rattle.tree_build.specs.Heard.{Lexed, Marked};
ghost use Rattle.ksh_syntax.specs.declared.part.Mark.TheVariants.{SubscriptEnds};
ghost use Rattle.tree_build.specs.Reads.{joined_or_each};

use crate::frames::Frames;
use crate::opening::{Open, Opening};
use crate::place::Place;
use crate::tables::{is_special, opens_bracket};
use crate::texts::open_text;
use crate::unbuilt::Unbuilt;
use ksh_ast::{ParamOf, TreePart, TreePath};
use ksh_base::{Items, Text};
use ksh_lexer::TokenKind;
use ksh_syntax::Kind;
use std::alloc::Global;
use tree_parts::{Asked, Moment, Sign, from_place, name_of, prefix_of, quotes};

/// `[*]` or `[@]`
fn all_items(joined: bool) -> TreePart
    ensures { result ≡ joined_or_each joined }
{
    if joined {
        TreePart::Joined
    } else {
        TreePart::Each
    }
}

/// `${`
#[tactic(auto, using(crate::proofs::Texting::reads_opens_braces, crate::proofs::Onto::braces_on, crate::proofs::MovingS::opens_braces))]
pub fn open_braces(frames: &mut Frames, sign: Sign, bytes: &[u8]) -> Result<(), Unbuilt>
    ensures grows { Grows (Lexed sign bytes.now) frames.old frames.new result }
    ensures moves { sign.kind ≡ kind.OpenParameter → Moves ([], tag.BracesValue ∷ []) frames.old frames.new result }
{
    if sign.kind != Kind::OpenParameter {
        return Err(frames.opened.stray());
    }
    let opening = Opening::Braces(quotes(sign.mode), Asked::Value);
    frames.opened.push_after(Ok(()), Open::Opened(opening))?;
    Ok(())
}

/// The `#` or `!` before a parameter's name.
#[tactic(auto, using(crate::proofs::Bracing::reads_length_of, crate::proofs::Bracing::reads_target_of, crate::proofs::Onto::braces_on, crate::proofs::Onto::braces_loaded, crate::proofs::MovingS::asks_length, crate::proofs::MovingS::asks_target))]
pub fn ask_parameter(frames: &mut Frames, sign: Sign, bytes: &[u8]) -> Result<(), Unbuilt>
    ensures grows { Grows (Lexed sign bytes.now) frames.old frames.new result }
    ensures moves_length { sign.kind ≡ kind.Length → Moves (tag.BracesValue ∷ [], tag.BracesLength ∷ []) frames.old frames.new result }
    ensures moves_target { sign.kind ≡ kind.Target → Moves (tag.BracesValue ∷ [], tag.BracesTarget ∷ []) frames.old frames.new result }
{
    let Some(Open::Opened(Opening::Braces(quoted, Asked::Value))) = frames.opened.pop() else {
        return Err(frames.opened.stray());
    };
    match sign.kind {
        Kind::Length => {
            let opening = Opening::Braces(quoted, Asked::Length);
            frames.opened.push_after(Ok(()), Open::Opened(opening))?;
            Ok(())
        }
        Kind::Target => {
            let opening = Opening::Braces(quoted, Asked::Target);
            frames.opened.push_after(Ok(()), Open::Opened(opening))?;
            Ok(())
        }
        _ => Err(frames.opened.stray()),
    }
}

/// The name of a parameter.
#[tactic(auto, using(crate::proofs::Onto::braces_loaded))]
pub fn name_parameter(
    frames: &mut Frames,
    alloc: Global,
    sign: Sign,
    bytes: &[u8],
) -> Result<(), Unbuilt>
    ensures grows { Grows (Lexed sign bytes.now) frames.old frames.new result }
    ensures moves_value { sign.kind ≡ kind.Name → is_name bytes.now ≡ true → Moves (tag.BracesValue ∷ [], tag.ParameterPath ∷ []) frames.old frames.new result }
    ensures moves_length { sign.kind ≡ kind.Name → is_name bytes.now ≡ true → Moves (tag.BracesLength ∷ [], tag.AskedPath ∷ []) frames.old frames.new result }
    ensures moves_target { sign.kind ≡ kind.Name → is_name bytes.now ≡ true → Moves (tag.BracesTarget ∷ [], tag.TargetPath ∷ []) frames.old frames.new result }
{
    if sign.kind != Kind::Name {
        return Err(frames.opened.stray());
    }
    let Some(name) = name_of(alloc, bytes)? else {
        return Err(frames.opened.stray());
    };
    let Some(Open::Opened(Opening::Braces(quoted, asked))) = frames.opened.pop() else {
        return Err(frames.opened.stray());
    };
    let path = TreePath {
        name,
        parts: Items::new(alloc),
    };
    let ready = frames.texts.params.push(ParamOf::Var(path));
    let what = Open::Parameter(quoted, asked);
    frames.opened.push_after(ready, what)?;
    Ok(())
}

/// A positional or special parameter.
#[tactic(auto, using(crate::proofs::Bracing::reads_special, crate::proofs::Onto::braces_on, crate::proofs::Onto::parameter_on, crate::proofs::Onto::braces_loaded, crate::proofs::MovingS::special_value, crate::proofs::MovingS::special_length))]
pub fn special_parameter(
    frames: &mut Frames,
    alloc: Global,
    sign: Sign,
    bytes: &[u8],
) -> Result<(), Unbuilt>
    ensures grows { Grows (Lexed sign bytes.now) frames.old frames.new result }
    ensures moves_value { is_special sign.kind ≡ true → Moves (tag.BracesValue ∷ [], tag.ParameterOther ∷ []) frames.old frames.new result }
    ensures moves_length { is_special sign.kind ≡ true → Moves (tag.BracesLength ∷ [], tag.AskedOther ∷ []) frames.old frames.new result }
{
    if !is_special(sign.kind) {
        return Err(frames.opened.stray());
    }
    let text = Text::of(alloc, bytes)?;
    let Some(Open::Opened(Opening::Braces(quoted, asked))) = frames.opened.pop() else {
        return Err(frames.opened.stray());
    };
    let ready = frames.texts.params.push(ParamOf::Special(text));
    let what = Open::Parameter(quoted, asked);
    frames.opened.push_after(ready, what)?;
    Ok(())
}

/// `.name` behind a parameter's path.
#[tactic(auto, using(crate::proofs::Bracing::reads_member, crate::proofs::Onto::parameter_on, crate::proofs::Onto::parameter_loaded, crate::proofs::MovingS::value_goes_on, crate::proofs::MovingS::asked_goes_on, crate::proofs::MovingS::target_goes_on))]
fn add_path_member(
    frames: &mut Frames,
    alloc: Global,
    sign: Sign,
    bytes: &[u8],
) -> Result<(), Unbuilt>
    ensures grows { Grows (Lexed sign bytes.now) frames.old frames.new result }
    ensures moves_value { (at : ℕ) → sign.token ≡ token.Member at → is_name (from_place sign at bytes.now) ≡ true → Moves (tag.ParameterPath ∷ [], tag.ParameterPath ∷ []) frames.old frames.new result }
    ensures moves_asked { (at : ℕ) → sign.token ≡ token.Member at → is_name (from_place sign at bytes.now) ≡ true → Moves (tag.AskedPath ∷ [], tag.AskedPath ∷ []) frames.old frames.new result }
    ensures moves_target { (at : ℕ) → sign.token ≡ token.Member at → is_name (from_place sign at bytes.now) ≡ true → Moves (tag.TargetPath ∷ [], tag.TargetPath ∷ []) frames.old frames.new result }
{
    let TokenKind::Member(at) = sign.token else {
        return Err(frames.opened.stray());
    };
    let Some(name) = name_of(alloc, from_place(sign, at, bytes))? else {
        return Err(frames.opened.stray());
    };
    let Some(Open::Parameter(quoted, asked)) = frames.opened.pop() else {
        return Err(frames.opened.stray());
    };
    let Some(ParamOf::Var(mut path)) = frames.texts.params.pop() else {
        return Err(frames.opened.stray());
    };
    let Ok(()) = path.parts.push(TreePart::Member(name)) else {
        return Err(frames.opened.lost());
    };
    let ready = frames.texts.params.push(ParamOf::Var(path));
    let what = Open::Parameter(quoted, asked);
    frames.opened.push_after(ready, what)?;
    Ok(())
}

/// `.name` behind the path of an assignment.
#[tactic(auto, using(crate::proofs::Wording::reads_element_member, crate::proofs::Onto::target_on, crate::proofs::Onto::target_loaded, crate::proofs::MovingS::element_goes_on))]
fn add_element_member(
    frames: &mut Frames,
    alloc: Global,
    sign: Sign,
    bytes: &[u8],
) -> Result<(), Unbuilt>
    ensures grows { Grows (Lexed sign bytes.now) frames.old frames.new result }
    ensures moves { (at : ℕ) → sign.token ≡ token.Member at → is_name (from_place sign at bytes.now) ≡ true → Moves (tag.Target ∷ [], tag.Target ∷ []) frames.old frames.new result }
{
    let TokenKind::Member(at) = sign.token else {
        return Err(frames.opened.stray());
    };
    let Some(name) = name_of(alloc, from_place(sign, at, bytes))? else {
        return Err(frames.opened.stray());
    };
    let Some(Open::Target(from)) = frames.opened.pop() else {
        return Err(frames.opened.stray());
    };
    let Some(mut path) = frames.texts.paths.pop() else {
        unreachable!();
    };
    let Ok(()) = path.parts.push(TreePart::Member(name)) else {
        return Err(frames.opened.lost());
    };
    let ready = frames.texts.paths.push(path);
    frames.opened.push_after(ready, Open::Target(from))?;
    Ok(())
}

/// `.name` behind a path.
#[tactic(auto, using(crate::proofs::MovingS::value_not_target, crate::proofs::MovingS::asked_not_target, crate::proofs::MovingS::target_not_target, crate::proofs::MovingS::element_not_other))]
pub fn add_member(
    frames: &mut Frames,
    alloc: Global,
    sign: Sign,
    bytes: &[u8],
) -> Result<(), Unbuilt>
    ensures grows { Grows (Lexed sign bytes.now) frames.old frames.new result }
    ensures moves_value { (at : ℕ) → sign.token ≡ token.Member at → is_name (from_place sign at bytes.now) ≡ true → Moves (tag.ParameterPath ∷ [], tag.ParameterPath ∷ []) frames.old frames.new result }
    ensures moves_asked { (at : ℕ) → sign.token ≡ token.Member at → is_name (from_place sign at bytes.now) ≡ true → Moves (tag.AskedPath ∷ [], tag.AskedPath ∷ []) frames.old frames.new result }
    ensures moves_target { (at : ℕ) → sign.token ≡ token.Member at → is_name (from_place sign at bytes.now) ≡ true → Moves (tag.TargetPath ∷ [], tag.TargetPath ∷ []) frames.old frames.new result }
    ensures moves_element { (at : ℕ) → sign.token ≡ token.Member at → is_name (from_place sign at bytes.now) ≡ true → Moves (tag.Target ∷ [], tag.Target ∷ []) frames.old frames.new result }
{
    match frames.at(0) {
        Place::Target => add_element_member(frames, alloc, sign, bytes),
        _ => add_path_member(frames, alloc, sign, bytes),
    }
}

/// `[@]` or `[*]`
#[tactic(auto, using(crate::proofs::Bracing::reads_all_items, crate::proofs::Onto::parameter_on, crate::proofs::Onto::parameter_loaded, crate::proofs::MovingS::value_goes_on, crate::proofs::MovingS::asked_goes_on, crate::proofs::MovingS::target_goes_on))]
pub fn add_all_items(frames: &mut Frames, sign: Sign, bytes: &[u8]) -> Result<(), Unbuilt>
    ensures grows { Grows (Lexed sign bytes.now) frames.old frames.new result }
    ensures moves_value { (joined : Bool) → sign.token ≡ token.Items joined → Moves (tag.ParameterPath ∷ [], tag.ParameterPath ∷ []) frames.old frames.new result }
    ensures moves_asked { (joined : Bool) → sign.token ≡ token.Items joined → Moves (tag.AskedPath ∷ [], tag.AskedPath ∷ []) frames.old frames.new result }
    ensures moves_target { (joined : Bool) → sign.token ≡ token.Items joined → Moves (tag.TargetPath ∷ [], tag.TargetPath ∷ []) frames.old frames.new result }
{
    let TokenKind::Items { joined } = sign.token else {
        return Err(frames.opened.stray());
    };
    let Some(Open::Parameter(quoted, asked)) = frames.opened.pop() else {
        return Err(frames.opened.stray());
    };
    let Some(ParamOf::Var(mut path)) = frames.texts.params.pop() else {
        return Err(frames.opened.stray());
    };
    let Ok(()) = path.parts.push(all_items(joined)) else {
        return Err(frames.opened.lost());
    };
    let ready = frames.texts.params.push(ParamOf::Var(path));
    let what = Open::Parameter(quoted, asked);
    frames.opened.push_after(ready, what)?;
    Ok(())
}

/// The `@` of `${!x@}`.
#[tactic(auto, using(crate::proofs::Onto::parameter_loaded))]
pub fn take_prefix(
    frames: &mut Frames,
    alloc: Global,
    sign: Sign,
    bytes: &[u8],
) -> Result<(), Unbuilt>
    ensures grows { Grows (Lexed sign bytes.now) frames.old frames.new result }
    ensures moves { sign.kind ≡ kind.Prefix → Moves (tag.TargetPath ∷ [], tag.ParameterOther ∷ []) frames.old frames.new result }
{
    if sign.kind != Kind::Prefix {
        return Err(frames.opened.stray());
    }
    let Some(Open::Parameter(quoted, Asked::Target)) = frames.opened.pop() else {
        return Err(frames.opened.stray());
    };
    let Some(ParamOf::Var(path)) = frames.texts.params.pop() else {
        return Err(frames.opened.stray());
    };
    let Ok(front) = prefix_of(alloc, path) else {
        return Err(frames.opened.lost());
    };
    let ready = frames.texts.params.push(ParamOf::Prefix(front));
    let what = Open::Parameter(quoted, Asked::Value);
    frames.opened.push_after(ready, what)?;
    Ok(())
}

#[tactic(auto, using(crate::proofs::Bracing::reads_with_form, crate::proofs::Onto::parameter_on, crate::proofs::Onto::formed_on, crate::proofs::Onto::parameter_loaded, crate::proofs::MovingS::formed_once, crate::proofs::MovingS::formed_twice))]
fn open_form(frames: &mut Frames, sign: Sign, bytes: &[u8]) -> Result<(), Unbuilt>
    ensures grows { Grows (Lexed sign bytes.now) frames.old frames.new result }
    ensures moves_once { (f : Form) → sign.token ≡ token.Form f → Moves (tag.ParameterOther ∷ [], tag.FormedOnce ∷ []) frames.old frames.new result }
    ensures moves_twice { (f : Form) → sign.token ≡ token.Form f → TakesTwo f → Moves (tag.ParameterOther ∷ [], tag.FormedTwice ∷ []) frames.old frames.new result }
{
    let TokenKind::Form(form) = sign.token else {
        return Err(frames.opened.stray());
    };
    let Some(Open::Parameter(quoted, Asked::Value)) = frames.opened.pop() else {
        return Err(frames.opened.stray());
    };
    let ready = frames.texts.firsts.push(None);
    let what = Open::Formed(quoted, form);
    frames.opened.push_after(ready, what)?;
    Ok(())
}

/// What is made of a parameter, before its text.
#[tactic(auto, using(crate::proofs::Steps::grows_stays, crate::proofs::MovingQ::first_fails))]
pub fn begin_form(
    frames: &mut Frames,
    alloc: Global,
    sign: Sign,
    bytes: &[u8],
) -> Result<(), Unbuilt>
    ensures grows { Grows (Lexed sign bytes.now) frames.old frames.new result }
    ensures moves_once { (f : Form) → sign.token ≡ token.Form f → Moves (tag.ParameterOther ∷ [], tag.Text ∷ tag.FormedOnce ∷ []) frames.old frames.new result }
    ensures moves_twice { (f : Form) → sign.token ≡ token.Form f → TakesTwo f → Moves (tag.ParameterOther ∷ [], tag.Text ∷ tag.FormedTwice ∷ []) frames.old frames.new result }
{
    open_form(frames, sign, bytes)?;
    open_text(frames, alloc)
}

#[tactic(auto, using(crate::proofs::Onto::text_loaded, crate::proofs::Onto::formed_loaded))]
fn end_first_text(frames: &mut Frames, sign: Sign, bytes: &[u8]) -> Result<(), Unbuilt>
    ensures grows { Grows (Lexed sign bytes.now) frames.old frames.new result }
    ensures moves { sign.kind ≡ kind.Separator → Moves (tag.Text ∷ tag.FormedTwice ∷ [], tag.FormedLast ∷ []) frames.old frames.new result }
{
    if sign.kind != Kind::Separator {
        return Err(frames.opened.stray());
    }
    let Some(Open::Text) = frames.opened.pop() else {
        return Err(frames.opened.stray());
    };
    let Some(Open::Formed(quoted, form)) = frames.opened.pop() else {
        return Err(frames.opened.stray());
    };
    let Some(None) = frames.texts.firsts.pop() else {
        return Err(frames.opened.stray());
    };
    let Some(pieces) = frames.texts.words.pop() else {
        unreachable!();
    };
    let ready = frames.texts.firsts.push(Some(pieces));
    let what = Open::Formed(quoted, form);
    frames.opened.push_after(ready, what)?;
    Ok(())
}

/// What parts the two texts of a form.
#[tactic(auto, using(crate::proofs::Steps::grows_stays, crate::proofs::MovingQ::first_fails))]
pub fn part_form(
    frames: &mut Frames,
    alloc: Global,
    sign: Sign,
    bytes: &[u8],
) -> Result<(), Unbuilt>
    ensures grows { Grows (Lexed sign bytes.now) frames.old frames.new result }
    ensures moves { sign.kind ≡ kind.Separator → Moves (tag.Text ∷ tag.FormedTwice ∷ [], tag.Text ∷ tag.FormedLast ∷ []) frames.old frames.new result }
{
    end_first_text(frames, sign, bytes)?;
    open_text(frames, alloc)
}

#[tactic(auto, using(crate::proofs::Bracing::reads_opens_subscript, crate::proofs::Onto::bracket_on, crate::proofs::MovingS::opens_bracket))]
fn open_bracket(frames: &mut Frames, sign: Sign, bytes: &[u8]) -> Result<(), Unbuilt>
    ensures grows { Grows (Lexed sign bytes.now) frames.old frames.new result }
    ensures moves { opens_bracket sign.kind ≡ true → Moves ([], tag.Bracket ∷ []) frames.old frames.new result }
{
    if !opens_bracket(sign.kind) {
        return Err(frames.opened.stray());
    }
    let opening = Opening::Bracket;
    frames.opened.push_after(Ok(()), Open::Opened(opening))?;
    Ok(())
}

/// The `[` of a subscript, or of a pair's key.
#[tactic(auto, using(crate::proofs::Steps::grows_stays, crate::proofs::MovingQ::first_fails))]
pub fn begin_subscript(
    frames: &mut Frames,
    alloc: Global,
    sign: Sign,
    bytes: &[u8],
) -> Result<(), Unbuilt>
    ensures grows { Grows (Lexed sign bytes.now) frames.old frames.new result }
    ensures moves { opens_bracket sign.kind ≡ true → Moves ([], tag.Text ∷ tag.Bracket ∷ []) frames.old frames.new result }
{
    open_bracket(frames, sign, bytes)?;
    open_text(frames, alloc)
}

/// The text of a subscript ends.
#[tactic(auto, using(crate::proofs::Onto::text_loaded, crate::proofs::Onto::bracket_loaded))]
pub fn end_subscript(frames: &mut Frames, moment: Moment) -> Result<(), Unbuilt>
    ensures grows { Grows (Marked SubscriptEnds moment) frames.old frames.new result }
    ensures moves { Moves (tag.Text ∷ tag.Bracket ∷ [], tag.Subscript ∷ []) frames.old frames.new result }
{
    let Some(Open::Text) = frames.opened.pop() else {
        return Err(frames.opened.stray());
    };
    let Some(Open::Opened(Opening::Bracket)) = frames.opened.pop() else {
        return Err(frames.opened.stray());
    };
    frames.opened.push_after(Ok(()), Open::Subscript)?;
    Ok(())
}

/// The `]` of a subscript of a parameter.
#[tactic(auto, using(crate::proofs::Onto::subscript_loaded, crate::proofs::Onto::parameter_loaded))]
fn close_path_subscript(frames: &mut Frames, sign: Sign, bytes: &[u8]) -> Result<(), Unbuilt>
    ensures grows { Grows (Lexed sign bytes.now) frames.old frames.new result }
    ensures moves_value { sign.kind ≡ kind.Close → Moves (tag.Subscript ∷ tag.ParameterPath ∷ [], tag.ParameterPath ∷ []) frames.old frames.new result }
    ensures moves_asked { sign.kind ≡ kind.Close → Moves (tag.Subscript ∷ tag.AskedPath ∷ [], tag.AskedPath ∷ []) frames.old frames.new result }
    ensures moves_target { sign.kind ≡ kind.Close → Moves (tag.Subscript ∷ tag.TargetPath ∷ [], tag.TargetPath ∷ []) frames.old frames.new result }
{
    if sign.kind != Kind::Close {
        return Err(frames.opened.stray());
    }
    let Some(Open::Subscript) = frames.opened.pop() else {
        return Err(frames.opened.stray());
    };
    let Some(Open::Parameter(quoted, asked)) = frames.opened.pop() else {
        return Err(frames.opened.stray());
    };
    let Some(word) = frames.texts.words.pop() else {
        unreachable!();
    };
    let Some(ParamOf::Var(mut path)) = frames.texts.params.pop() else {
        return Err(frames.opened.stray());
    };
    let Ok(()) = path.parts.push(TreePart::Sub(word)) else {
        return Err(frames.opened.lost());
    };
    let ready = frames.texts.params.push(ParamOf::Var(path));
    let what = Open::Parameter(quoted, asked);
    frames.opened.push_after(ready, what)?;
    Ok(())
}

/// The `]` of a subscript of an assignment.
#[tactic(auto, using(crate::proofs::Onto::subscript_loaded, crate::proofs::Onto::target_loaded))]
fn close_element_subscript(frames: &mut Frames, sign: Sign, bytes: &[u8]) -> Result<(), Unbuilt>
    ensures grows { Grows (Lexed sign bytes.now) frames.old frames.new result }
    ensures moves { sign.kind ≡ kind.Close → Moves (tag.Subscript ∷ tag.Target ∷ [], tag.Target ∷ []) frames.old frames.new result }
{
    if sign.kind != Kind::Close {
        return Err(frames.opened.stray());
    }
    let Some(Open::Subscript) = frames.opened.pop() else {
        return Err(frames.opened.stray());
    };
    let Some(Open::Target(from)) = frames.opened.pop() else {
        return Err(frames.opened.stray());
    };
    let Some(word) = frames.texts.words.pop() else {
        unreachable!();
    };
    let Some(mut path) = frames.texts.paths.pop() else {
        unreachable!();
    };
    let Ok(()) = path.parts.push(TreePart::Sub(word)) else {
        return Err(frames.opened.lost());
    };
    let ready = frames.texts.paths.push(path);
    frames.opened.push_after(ready, Open::Target(from))?;
    Ok(())
}

/// The `]` of a subscript.
#[tactic(auto, using(crate::proofs::MovingS::value_not_target_below, crate::proofs::MovingS::asked_not_target_below, crate::proofs::MovingS::target_not_target_below, crate::proofs::MovingS::element_not_other_below))]
pub fn close_subscript(frames: &mut Frames, sign: Sign, bytes: &[u8]) -> Result<(), Unbuilt>
    ensures grows { Grows (Lexed sign bytes.now) frames.old frames.new result }
    ensures moves_value { sign.kind ≡ kind.Close → Moves (tag.Subscript ∷ tag.ParameterPath ∷ [], tag.ParameterPath ∷ []) frames.old frames.new result }
    ensures moves_asked { sign.kind ≡ kind.Close → Moves (tag.Subscript ∷ tag.AskedPath ∷ [], tag.AskedPath ∷ []) frames.old frames.new result }
    ensures moves_target { sign.kind ≡ kind.Close → Moves (tag.Subscript ∷ tag.TargetPath ∷ [], tag.TargetPath ∷ []) frames.old frames.new result }
    ensures moves_element { sign.kind ≡ kind.Close → Moves (tag.Subscript ∷ tag.Target ∷ [], tag.Target ∷ []) frames.old frames.new result }
{
    match frames.at(1) {
        Place::Target => close_element_subscript(frames, sign, bytes),
        _ => close_path_subscript(frames, sign, bytes),
    }
}

/// The `]` of a pair's key.
#[tactic(auto, using(crate::proofs::Defining::reads_key, crate::proofs::Onto::subscript_on, crate::proofs::Onto::keyed_on, crate::proofs::Onto::subscript_loaded, crate::proofs::MovingS::keys))]
pub fn close_key(frames: &mut Frames, sign: Sign, bytes: &[u8]) -> Result<(), Unbuilt>
    ensures grows { Grows (Lexed sign bytes.now) frames.old frames.new result }
    ensures moves { sign.kind ≡ kind.Close → Moves (tag.Subscript ∷ [], tag.Keyed ∷ []) frames.old frames.new result }
{
    if sign.kind != Kind::Close {
        return Err(frames.opened.stray());
    }
    let Some(Open::Subscript) = frames.opened.pop() else {
        return Err(frames.opened.stray());
    };
    frames.opened.push_after(Ok(()), Open::Keyed)?;
    Ok(())
}
