//! Pieces of texts.
ghost use Rattle.ksh_ast.specs.declared.kinds.SubstKind.TheVariants as subst;
ghost use Rattle.ksh_lexer.specs.declared.kind.TokenKind.TheVariants as token;
ghost use Rattle.ksh_syntax.specs.declared.kind.Kind.TheVariants as kind;
ghost use Rattle.std.specs.Prelude.{None, Some, [], true, ℕ, ◌∷◌, ◌≡◌};
ghost use Rattle.tree_build.specs.Fits.{Moves};
ghost use Rattle.tree_build.specs.Tables.{closes};
ghost use Rattle.tree_moves.specs.Tags as tag;
ghost use Rattle.tree_parts.specs.Literals.{from_place, literal_of};
ghost use Rattle.tree_parts.specs.Parts.{is_param, opens_list};
ghost use Rattle.tree_build.specs.Frames.{Grows, Stays};
ghost use Rattle.tree_build.specs.Heard.{Lexed};

use crate::begins::open_list;
use crate::frames::Frames;
use crate::opening::{Open, Opening};
use crate::tables::closes;
use crate::unbuilt::Unbuilt;
use ksh_ast::{Param, ParamForm, Piece};
use ksh_base::Items;
use ksh_lexer::TokenKind;
use ksh_syntax::Kind;
use std::alloc::Global;
use tree_parts::{
    Sign, add_token, arith_of, formed, from_place, opens_list, plain_form, quotes, simple_param,
    subst_kind,
};

/// A text begins.
#[tactic(auto, using(crate::proofs::Texting::reads_no_piece, crate::proofs::Onto::text_on, crate::proofs::MovingS::opens_text))]
pub fn open_text(frames: &mut Frames, alloc: Global) -> Result<(), Unbuilt>
    ensures stays { Stays frames.old frames.new result }
    ensures moves { Moves ([], tag.Text ∷ []) frames.old frames.new result }
{
    let ready = frames.texts.words.push(Items::new(alloc));
    frames.opened.push_after(ready, Open::Text)?;
    Ok(())
}

/// A token of a text that stands for bytes.
#[tactic(auto, using(crate::proofs::Onto::text_loaded))]
pub fn hear_literal(
    frames: &mut Frames,
    alloc: Global,
    sign: Sign,
    bytes: &[u8],
) -> Result<(), Unbuilt>
    ensures grows { Grows (Lexed sign bytes.now) frames.old frames.new result }
    ensures moves { (literal_of sign bytes.now ≡ None → ⊥) → Moves (tag.Text ∷ [], tag.Text ∷ []) frames.old frames.new result }
{
    let Some(Open::Text) = frames.opened.pop() else {
        return Err(frames.opened.stray());
    };
    let Some(mut pieces) = frames.texts.words.pop() else {
        unreachable!();
    };
    let Ok(added) = add_token(alloc, &mut pieces, sign, bytes) else {
        return Err(frames.opened.lost());
    };
    if !added {
        return Err(frames.opened.stray());
    }
    let ready = frames.texts.words.push(pieces);
    frames.opened.push_after(ready, Open::Text)?;
    Ok(())
}

/// `$name` and its kin.
#[tactic(auto, using(crate::proofs::Onto::text_loaded))]
pub fn hear_expansion(
    frames: &mut Frames,
    alloc: Global,
    sign: Sign,
    bytes: &[u8],
) -> Result<(), Unbuilt>
    ensures grows { Grows (Lexed sign bytes.now) frames.old frames.new result }
    ensures moves { (at : ℕ) → sign.token ≡ token.Expand at → is_param (from_place sign at bytes.now) ≡ true → Moves (tag.Text ∷ [], tag.Text ∷ []) frames.old frames.new result }
{
    let TokenKind::Expand(at) = sign.token else {
        return Err(frames.opened.stray());
    };
    let Some(of) = simple_param(alloc, from_place(sign, at, bytes))? else {
        return Err(frames.opened.stray());
    };
    let Some(Open::Text) = frames.opened.pop() else {
        return Err(frames.opened.stray());
    };
    let param = Param {
        of,
        form: ParamForm::Plain,
    };
    let quoted = quotes(sign.mode);
    let ready = frames.texts.words.add(Piece::Expand { param, quoted });
    frames.opened.push_after(ready, Open::Text)?;
    Ok(())
}

/// The `}` behind a parameter without a form.
#[tactic(auto, using(crate::proofs::Onto::parameter_loaded, crate::proofs::Onto::text_loaded))]
pub fn close_plain(frames: &mut Frames, sign: Sign, bytes: &[u8]) -> Result<(), Unbuilt>
    ensures grows { Grows (Lexed sign bytes.now) frames.old frames.new result }
    ensures moves { sign.kind ≡ kind.Close → Moves (tag.AskedOther ∷ tag.Text ∷ [], tag.Text ∷ []) frames.old frames.new result }
{
    if sign.kind != Kind::Close {
        return Err(frames.opened.stray());
    }
    let Some(Open::Parameter(quoted, asked)) = frames.opened.pop() else {
        return Err(frames.opened.stray());
    };
    let Some(Open::Text) = frames.opened.pop() else {
        return Err(frames.opened.stray());
    };
    let Some(of) = frames.texts.params.pop() else {
        unreachable!();
    };
    let form = plain_form(asked);
    let param = Param { of, form };
    let ready = frames.texts.words.add(Piece::Expand { param, quoted });
    frames.opened.push_after(ready, Open::Text)?;
    Ok(())
}

/// The `}` behind the last text of a form.
#[tactic(auto, using(crate::proofs::Onto::text_loaded, crate::proofs::Onto::formed_loaded))]
pub fn close_formed(
    frames: &mut Frames,
    alloc: Global,
    sign: Sign,
    bytes: &[u8],
) -> Result<(), Unbuilt>
    ensures grows { Grows (Lexed sign bytes.now) frames.old frames.new result }
    ensures moves { sign.kind ≡ kind.Close → Moves (tag.Text ∷ tag.FormedLast ∷ tag.Text ∷ [], tag.Text ∷ []) frames.old frames.new result }
{
    if sign.kind != Kind::Close {
        return Err(frames.opened.stray());
    }
    let Some(Open::Text) = frames.opened.pop() else {
        return Err(frames.opened.stray());
    };
    let Some(Open::Formed(quoted, form)) = frames.opened.pop() else {
        return Err(frames.opened.stray());
    };
    let Some(Open::Text) = frames.opened.pop() else {
        return Err(frames.opened.stray());
    };
    let Some(last) = frames.texts.words.pop() else {
        unreachable!();
    };
    let Some(of) = frames.texts.params.pop() else {
        unreachable!();
    };
    let Some(first) = frames.texts.firsts.pop() else {
        unreachable!();
    };
    let Some(form) = formed(alloc, form, first, last) else {
        return Err(frames.opened.stray());
    };
    let param = Param { of, form };
    let ready = frames.texts.words.add(Piece::Expand { param, quoted });
    frames.opened.push_after(ready, Open::Text)?;
    Ok(())
}

#[tactic(auto, using(crate::proofs::Texting::reads_opens_substitution, crate::proofs::Onto::substitution_on, crate::proofs::MovingS::opens_fork, crate::proofs::MovingS::opens_current))]
fn open_substitution(frames: &mut Frames, sign: Sign, bytes: &[u8]) -> Result<(), Unbuilt>
    ensures grows { Grows (Lexed sign bytes.now) frames.old frames.new result }
    ensures moves_fork { opens_list sign.kind ≡ Some subst.Fork → Moves ([], tag.SubstitutionFork ∷ []) frames.old frames.new result }
    ensures moves_current { opens_list sign.kind ≡ Some subst.Current → Moves ([], tag.SubstitutionCurrent ∷ []) frames.old frames.new result }
{
    let Some(kind) = opens_list(sign.kind) else {
        return Err(frames.opened.stray());
    };
    let opening = Opening::Substitution(quotes(sign.mode), kind);
    frames.opened.push_after(Ok(()), Open::Opened(opening))?;
    Ok(())
}

/// What opens a substitution.
#[tactic(auto, using(crate::proofs::Steps::grows_stays, crate::proofs::MovingQ::first_fails))]
pub fn begin_substitution(
    frames: &mut Frames,
    alloc: Global,
    sign: Sign,
    bytes: &[u8],
) -> Result<(), Unbuilt>
    ensures grows { Grows (Lexed sign bytes.now) frames.old frames.new result }
    ensures moves_fork { opens_list sign.kind ≡ Some subst.Fork → Moves ([], tag.Lines ∷ tag.SubstitutionFork ∷ []) frames.old frames.new result }
    ensures moves_current { opens_list sign.kind ≡ Some subst.Current → Moves ([], tag.Lines ∷ tag.SubstitutionCurrent ∷ []) frames.old frames.new result }
{
    open_substitution(frames, sign, bytes)?;
    open_list(frames, alloc)
}

/// What closes a substitution.
#[tactic(auto, using(crate::proofs::Onto::listed_loaded, crate::proofs::Onto::substitution_loaded, crate::proofs::Onto::text_loaded))]
pub fn close_substitution(frames: &mut Frames, sign: Sign, bytes: &[u8]) -> Result<(), Unbuilt>
    ensures grows { Grows (Lexed sign bytes.now) frames.old frames.new result }
    ensures moves_fork { closes subst.Fork sign.kind ≡ true → Moves (tag.Listed ∷ tag.SubstitutionFork ∷ tag.Text ∷ [], tag.Text ∷ []) frames.old frames.new result }
    ensures moves_current { closes subst.Current sign.kind ≡ true → Moves (tag.Listed ∷ tag.SubstitutionCurrent ∷ tag.Text ∷ [], tag.Text ∷ []) frames.old frames.new result }
{
    let Some(Open::Listed) = frames.opened.pop() else {
        return Err(frames.opened.stray());
    };
    let Some(Open::Opened(Opening::Substitution(quoted, opened))) = frames.opened.pop() else {
        return Err(frames.opened.stray());
    };
    let Some(Open::Text) = frames.opened.pop() else {
        return Err(frames.opened.stray());
    };
    if !closes(opened, sign.kind) {
        return Err(frames.opened.stray());
    }
    let Some(body) = frames.lists.lists.pop() else {
        unreachable!();
    };
    let kind = subst_kind(opened, body.get().as_slice());
    let ready = frames.texts.words.add(Piece::Subst { body, kind, quoted });
    frames.opened.push_after(ready, Open::Text)?;
    Ok(())
}

#[tactic(auto, using(crate::proofs::Texting::reads_opens_arithmetic, crate::proofs::Onto::arithmetic_on, crate::proofs::MovingS::opens_arithmetic))]
fn open_arithmetic(frames: &mut Frames, sign: Sign, bytes: &[u8]) -> Result<(), Unbuilt>
    ensures grows { Grows (Lexed sign bytes.now) frames.old frames.new result }
    ensures moves { sign.kind ≡ kind.OpenArithmetic → Moves ([], tag.Arithmetic ∷ []) frames.old frames.new result }
{
    if sign.kind != Kind::OpenArithmetic {
        return Err(frames.opened.stray());
    }
    let opening = Opening::Arithmetic(quotes(sign.mode));
    frames.opened.push_after(Ok(()), Open::Opened(opening))?;
    Ok(())
}

/// `$((`
#[tactic(auto, using(crate::proofs::Steps::grows_stays, crate::proofs::MovingQ::first_fails))]
pub fn begin_arithmetic(
    frames: &mut Frames,
    alloc: Global,
    sign: Sign,
    bytes: &[u8],
) -> Result<(), Unbuilt>
    ensures grows { Grows (Lexed sign bytes.now) frames.old frames.new result }
    ensures moves { sign.kind ≡ kind.OpenArithmetic → Moves ([], tag.Text ∷ tag.Arithmetic ∷ []) frames.old frames.new result }
{
    open_arithmetic(frames, sign, bytes)?;
    open_text(frames, alloc)
}

/// The `))` of an expansion.
#[tactic(auto, using(crate::proofs::Onto::text_loaded, crate::proofs::Onto::arithmetic_loaded))]
pub fn close_number(
    frames: &mut Frames,
    alloc: Global,
    sign: Sign,
    bytes: &[u8],
) -> Result<(), Unbuilt>
    ensures grows { Grows (Lexed sign bytes.now) frames.old frames.new result }
    ensures moves { sign.kind ≡ kind.Close → Moves (tag.Text ∷ tag.Arithmetic ∷ tag.Text ∷ [], tag.Text ∷ []) frames.old frames.new result }
{
    if sign.kind != Kind::Close {
        return Err(frames.opened.stray());
    }
    let Some(Open::Text) = frames.opened.pop() else {
        return Err(frames.opened.stray());
    };
    let Some(Open::Opened(Opening::Arithmetic(quoted))) = frames.opened.pop() else {
        return Err(frames.opened.stray());
    };
    let Some(Open::Text) = frames.opened.pop() else {
        return Err(frames.opened.stray());
    };
    let Some(inside) = frames.texts.words.pop() else {
        unreachable!();
    };
    let Ok(text) = arith_of(alloc, inside) else {
        return Err(frames.opened.lost());
    };
    let ready = frames.texts.words.add(Piece::Number { text, quoted });
    frames.opened.push_after(ready, Open::Text)?;
    Ok(())
}
