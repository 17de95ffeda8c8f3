//! What says nothing of the tree.
ghost use Rattle.tree_build.specs.Fits.{Moves};
ghost use Rattle.tree_build.specs.Places.{place_at};
ghost use Rattle.tree_build.specs.Tables.{is_silent_mark};
ghost use Rattle.tree_build.specs.declared.place.Place.TheVariants as place;
ghost use Rattle.std.specs.Prelude.{◌≡◌, [], true};
ghost use Rattle.tree_build.specs.Frames.{Grows};
ghost use Rattle.tree_build.specs.Heard.{Lexed, Marked};
ghost use Rattle.tree_build.specs.Silent.{is_silent, passes_newlines};

use crate::frames::Frames;
use crate::place::Place;
use crate::tables::is_silent_mark;
use crate::unbuilt::Unbuilt;
use ksh_syntax::{Kind, Mark};
use tree_parts::{Moment, Sign};

fn passes_newlines(place: Place) -> bool
    ensures { result ≡ passes_newlines place }
{
    matches!(
        place,
        Place::Lines
            | Place::Linked
            | Place::Stages
            | Place::Function
            | Place::FunctionName
            | Place::ForName
            | Place::ForReady
            | Place::ForArithmetic
            | Place::CaseWord
            | Place::Cases
            | Place::Terms
    )
}

/// Whether a tree says nothing of a token of that kind there.
fn is_silent(kind: Kind, place: Place) -> bool
    ensures { result ≡ is_silent kind place }
{
    match (kind, place) {
        (Kind::Newline, place) => passes_newlines(place),
        (Kind::NewlineBodies, place) => passes_newlines(place),
        (Kind::Semicolon, Place::ForName) => true,
        (Kind::Semicolon, Place::ForArithmetic) => true,
        (Kind::Open, Place::Patterns) => true,
        (Kind::Bar, Place::Patterns) => true,
        (Kind::Close, Place::Patterns) => true,
        (Kind::Close, Place::FunctionName) => true,
        (Kind::AndIf, Place::Terms) => true,
        (Kind::Assign, Place::Keyed) => true,
        _ => false,
    }
}

/// Passes over a token.
#[tactic(auto, using(crate::proofs::Passing::reads_silent, crate::proofs::MovingP::stays_fit))]
pub fn pass_token(frames: &mut Frames, sign: Sign, bytes: &[u8]) -> Result<(), Unbuilt>
    ensures grows { Grows (Lexed sign bytes.now) frames.old frames.new result }
    ensures moves { is_silent sign.kind (place_at frames.old 0) ≡ true → (place_at frames.old 0 ≡ place.Nothing → ⊥) → Moves ([], []) frames.old frames.new result }
{
    match frames.at(0) {
        Place::Nothing => Err(Unbuilt::Stray),
        place => {
            if !is_silent(sign.kind, place) {
                return Err(Unbuilt::Stray);
            }
            Ok(())
        }
    }
}

/// Passes over a mark.
#[tactic(auto, using(crate::proofs::Passing::reads_silent_mark, crate::proofs::MovingP::stays_fit))]
pub fn pass_mark(frames: &mut Frames, mark: Mark, moment: Moment) -> Result<(), Unbuilt>
    ensures grows { Grows (Marked mark moment) frames.old frames.new result }
    ensures moves { is_silent_mark mark ≡ true → (place_at frames.old 0 ≡ place.Nothing → ⊥) → Moves ([], []) frames.old frames.new result }
{
    match frames.at(0) {
        Place::Nothing => Err(Unbuilt::Stray),
        _place => {
            if !is_silent_mark(mark) {
                return Err(Unbuilt::Stray);
            }
            Ok(())
        }
    }
}
