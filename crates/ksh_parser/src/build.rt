//! From a script's notes to its tree.
ghost use Rattle.std.specs.Prelude.{◌≡◌, [], Err, IfOk};
ghost use Rattle.ksh_parser.specs.Going.{CanBeHeard, EventGoes};
ghost use Rattle.ksh_parser.specs.Heard.{is_end};
ghost use Rattle.ksh_parser.specs.Tree.{Follows, IsBuilt};
ghost use Rattle.script_notes.specs.declared.cursor.Event.TheVariants as event;
ghost use Rattle.tree_build.specs.declared.unbuilt.Unbuilt.TheVariants as unbuilt;

use ksh_ast::List;
use ksh_scan::slice;
use ksh_syntax::Kind;
use script_notes::{Cursor, Event, Notes};
use script_tree::{hear_mark, hear_token};
use std::alloc::Global;
use tree_build::{Frames, Unbuilt, begin_body, end_body, open_list, release_frames};
use tree_parts::Sign;

fn is_end(kind: Kind) -> bool
    ensures { result ≡ is_end kind }
{
    matches!(kind, Kind::End)
}

/// Hears a token with its bytes; the end of the script says nothing.
#[tactic(auto, using(crate::proofs::Following::ends, crate::proofs::Following::hears, crate::proofs::Going::end_goes, crate::proofs::Going::token_goes))]
fn hear_sign(frames: &mut Frames, alloc: Global, script: &[u8], sign: Sign) -> Result<(), Unbuilt>
    ensures follows { Follows script.now (event.Token sign) frames.old frames.new result }
    ensures goes { EventGoes script.now (event.Token sign) frames.old frames.new result }
{
    if is_end(sign.kind) {
        return Ok(());
    }
    hear_token(
        frames,
        alloc,
        script,
        sign,
        slice(script, sign.from, sign.to),
    )
}

/// Hears one event of a script.
#[tactic(auto, using(crate::proofs::Following::hears_mark, crate::proofs::Following::begins, crate::proofs::Following::ends_body))]
fn hear(frames: &mut Frames, alloc: Global, script: &[u8], event: Event) -> Result<(), Unbuilt>
    ensures follows { Follows script.now event frames.old frames.new result }
    ensures goes { EventGoes script.now event frames.old frames.new result }
{
    match event {
        Event::Token(sign) => hear_sign(frames, alloc, script, sign),
        Event::Mark(mark, moment) => hear_mark(frames, alloc, script, mark, moment),
        Event::BodyBegins => begin_body(frames, alloc),
        Event::BodyEnds => end_body(frames),
    }
}

/// Hears all of a script with these notes, and gives its tree.
#[tactic(auto, using(crate::proofs::Building::starts, crate::proofs::Going::begins_going, crate::proofs::Going::ends_going))]
fn hear_all(
    frames: &mut Frames,
    alloc: Global,
    script: &[u8],
    notes: &Notes,
) -> Result<List, Unbuilt>
    requires { frames.old ≡ [] }
    ensures built { IfOk result (λ l. IsBuilt script.now notes.now l) }
    ensures strays { CanBeHeard script.now notes.now.texts → result ≡ Err unbuilt.Stray → ⊥ }
{
    open_list(frames, alloc)?;
    let mut cursor = Cursor::new(alloc)?;
    for _ in 0..u64::MAX {
        match cursor.next(notes)? {
            Some(event) => hear(frames, alloc, script, event)?,
            None => return frames.finish(),
        }
    }
    Err(Unbuilt::Memory)
}

/// The tree of a script with these notes.
pub(crate) fn build(alloc: Global, script: &[u8], notes: &Notes) -> Result<List, Unbuilt>
    ensures built { IfOk result (λ l. IsBuilt script.now notes.now l) }
    ensures strays { CanBeHeard script.now notes.now.texts → result ≡ Err unbuilt.Stray → ⊥ }
{
    let mut frames = Frames::new(alloc);
    let built = hear_all(&mut frames, alloc, script, notes);
    release_frames(frames);
    built
}
