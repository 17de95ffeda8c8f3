//! Which rule a token or mark follows. What stands on top of the frames decides it, and every rule is one of the grammar.
ghost use Rattle.script_tree.specs.Taken.{arithmetic_steps, assign_steps, bracket_steps, part_steps, whole_subscript_steps, begin_member_steps, brace_steps, close_assigned_steps, close_text_steps, close_word_steps, in_text_steps, name_steps, push, settle_steps, target_steps, word_end_steps};
ghost use Rattle.script_tree.specs.Steps.{AllMove, MarkMoves, then_rows};
ghost use Rattle.tree_build.specs.Fitting.{Fitting, is_between};
ghost use Rattle.std.specs.Prelude.{◌≡◌, false, [], ◌∷◌};
ghost use Rattle.ksh_syntax.specs.declared.kind.Kind.TheVariants as kind;
ghost use Rattle.ksh_syntax.specs.declared.kind.Mode.TheVariants as mode;
ghost use Rattle.tree_build.specs.declared.place.Place.TheVariants as place;
ghost use Rattle.tree_moves.specs.Tags as tag;
ghost use Rattle.tree_build.specs.Places.{place_at};
ghost use Rattle.tree_moves.specs.Moves.{token_rows};
ghost use Rattle.tree_build.specs.Frames.{Grows, GrowsIn};
ghost use Rattle.ksh_syntax.specs.declared.part.Mark.TheVariants.{MemberBody};
ghost use Rattle.tree_build.specs.Heard.{Lexed, Marked};

use crate::between::between;
use ksh_syntax::{Kind, Mark, Mode};
use std::alloc::Global;
use tree_build::{
    Frames, Place, Unbuilt, add_all_items, add_member, ask_parameter, assign_element,
    begin_arithmetic, begin_assigned, begin_chain, begin_form, begin_member_body, begin_pipeline,
    begin_simple, begin_subscript, begin_substitution, close_arithmetic_command, close_for_part,
    close_formed, close_key, close_number, close_pair, close_plain, close_subscript, close_word,
    end_as_word, end_compound, end_list, end_simple, end_subscript, end_term, give_assignment,
    hear_expansion, hear_literal, name_parameter, open_braces, open_text, part_for, part_form,
    pass_mark, pass_token, settle_word, special_parameter, take_prefix,
};
use tree_parts::{Moment, Sign};

/// Hears a token of a script, which is given too.
#[tactic(auto, using(tree_build::proofs::Steps::grows_in))]
pub fn hear_token(
    frames: &mut Frames,
    alloc: Global,
    script: &[u8],
    sign: Sign,
    bytes: &[u8],
) -> Result<(), Unbuilt>
    ensures grows { GrowsIn script.now (Lexed sign bytes.now) frames.old frames.new result }
    ensures moves { Fitting sign bytes.now → AllMove (token_rows sign.mode sign.kind) frames.old frames.new result }
{
    match sign.mode {
        Mode::Command | Mode::Pattern | Mode::Condition | Mode::Value => between(
            frames, alloc, script, sign, bytes,
        ),
        Mode::Parameter => in_braces(frames, alloc, sign, bytes),
        Mode::Form => behind_name(frames, alloc, sign, bytes),
        Mode::Target => behind_path(frames, alloc, sign, bytes),
        _ => in_text(frames, alloc, script, sign, bytes),
    }
}

#[tactic(auto, using(crate::proofs::Fitted::special_moves))]
fn in_braces(frames: &mut Frames, alloc: Global, sign: Sign, bytes: &[u8]) -> Result<(), Unbuilt>
    ensures grows { Grows (Lexed sign bytes.now) frames.old frames.new result }
    ensures moves { Fitting sign bytes.now → AllMove (brace_steps sign.kind) frames.old frames.new result }
{
    match sign.kind {
        Kind::Length | Kind::Target => ask_parameter(frames, sign, bytes),
        Kind::Name => name_parameter(frames, alloc, sign, bytes),
        _ => special_parameter(frames, alloc, sign, bytes),
    }
}

#[tactic(auto, using(crate::proofs::Fitted::form_moves, crate::proofs::Fitted::member_moves, crate::proofs::Fitted::items_moves))]
fn behind_name(frames: &mut Frames, alloc: Global, sign: Sign, bytes: &[u8]) -> Result<(), Unbuilt>
    ensures grows { Grows (Lexed sign bytes.now) frames.old frames.new result }
    ensures moves { Fitting sign bytes.now → AllMove (name_steps sign.kind) frames.old frames.new result }
{
    match sign.kind {
        Kind::Open => begin_subscript(frames, alloc, sign, bytes),
        Kind::Member => add_member(frames, alloc, sign, bytes),
        Kind::Items => add_all_items(frames, sign, bytes),
        Kind::Prefix => take_prefix(frames, alloc, sign, bytes),
        Kind::Close => close_plain(frames, sign, bytes),
        _ => begin_form(frames, alloc, sign, bytes),
    }
}

#[tactic(auto, using(crate::proofs::Fitted::otherwise_moves, crate::proofs::Fitted::member_moves, crate::proofs::Fitted::assign_is, crate::proofs::Fitted::add_assign_is, crate::proofs::Fitted::value_assign_is))]
fn behind_path(frames: &mut Frames, alloc: Global, sign: Sign, bytes: &[u8]) -> Result<(), Unbuilt>
    ensures grows { Grows (Lexed sign bytes.now) frames.old frames.new result }
    ensures moves { Fitting sign bytes.now → sign.mode ≡ mode.Target → AllMove (target_steps sign.kind (place_at frames.old 0)) frames.old frames.new result }
{
    match sign.kind {
        Kind::Open => begin_subscript(frames, alloc, sign, bytes),
        Kind::Member => add_member(frames, alloc, sign, bytes),
        Kind::Assign => begin_behind_assign(frames, alloc, sign, bytes),
        Kind::AddAssign => begin_assigned(frames, alloc, sign, bytes),
        Kind::ValueOpen => assign_element(frames, sign, bytes),
        _ => end_as_word(frames, alloc, sign, bytes),
    }
}

/// A `=`.
#[tactic(auto, using(crate::proofs::Fitted::assign_is))]
fn begin_behind_assign(
    frames: &mut Frames,
    alloc: Global,
    sign: Sign,
    bytes: &[u8],
) -> Result<(), Unbuilt>
    ensures grows { Grows (Lexed sign bytes.now) frames.old frames.new result }
    ensures moves { Fitting sign bytes.now → sign.mode ≡ mode.Target → sign.kind ≡ kind.Assign → AllMove (assign_steps (place_at frames.old 0)) frames.old frames.new result }
{
    match frames.at(0) {
        Place::Keyed => begin_pair_word(frames, alloc, sign, bytes),
        _ => begin_assigned(frames, alloc, sign, bytes),
    }
}

#[tactic(auto, using(tree_build::proofs::Steps::grows_stays, crate::proofs::Fitted::pass_at, crate::proofs::Joined::rows_then, crate::proofs::Joined::rows_fail))]
fn begin_pair_word(
    frames: &mut Frames,
    alloc: Global,
    sign: Sign,
    bytes: &[u8],
) -> Result<(), Unbuilt>
    ensures grows { Grows (Lexed sign bytes.now) frames.old frames.new result }
    ensures moves { sign.kind ≡ kind.Assign → place_at frames.old 0 ≡ place.Keyed → AllMove (push (tag.Text ∷ [])) frames.old frames.new result }
{
    pass_token(frames, sign, bytes)?;
    open_text(frames, alloc)
}

#[tactic(auto, using(tree_build::proofs::Steps::grows_in, crate::proofs::Fitted::expand_moves, crate::proofs::Fitted::literal_moves))]
fn in_text(
    frames: &mut Frames,
    alloc: Global,
    script: &[u8],
    sign: Sign,
    bytes: &[u8],
) -> Result<(), Unbuilt>
    ensures grows { GrowsIn script.now (Lexed sign bytes.now) frames.old frames.new result }
    ensures moves { Fitting sign bytes.now → is_between sign.mode ≡ false → AllMove (in_text_steps sign.mode sign.kind (place_at frames.old 0) (place_at frames.old 1)) frames.old frames.new result }
{
    match sign.kind {
        Kind::Expand => hear_expansion(frames, alloc, sign, bytes),
        Kind::OpenParameter => open_braces(frames, sign, bytes),
        Kind::OpenCurrent | Kind::OpenSubstitution | Kind::Backquote => begin_substitution(
            frames, alloc, sign, bytes,
        ),
        Kind::OpenArithmetic => begin_arithmetic(frames, alloc, sign, bytes),
        Kind::WordEnd => end_word(frames, alloc, script, sign, bytes),
        Kind::Separator => part_text(frames, alloc, sign, bytes),
        Kind::Close => close_text(frames, alloc, sign, bytes),
        _ => hear_literal(frames, alloc, sign, bytes),
    }
}

/// What parts texts.
fn part_text(frames: &mut Frames, alloc: Global, sign: Sign, bytes: &[u8]) -> Result<(), Unbuilt>
    ensures grows { Grows (Lexed sign bytes.now) frames.old frames.new result }
    ensures moves { sign.kind ≡ kind.Separator → AllMove (part_steps sign.mode) frames.old frames.new result }
{
    match sign.mode {
        Mode::LoopArithmetic => part_for(frames, alloc, sign, bytes),
        _ => part_form(frames, alloc, sign, bytes),
    }
}

#[tactic(auto, using(crate::proofs::Fitted::nested_moves))]
fn close_text(frames: &mut Frames, alloc: Global, sign: Sign, bytes: &[u8]) -> Result<(), Unbuilt>
    ensures grows { Grows (Lexed sign bytes.now) frames.old frames.new result }
    ensures moves { Fitting sign bytes.now → is_between sign.mode ≡ false → sign.kind ≡ kind.Close → AllMove (close_text_steps sign.mode (place_at frames.old 0) (place_at frames.old 1)) frames.old frames.new result }
{
    match sign.mode {
        Mode::Brace | Mode::Colon | Mode::Slash => close_formed(frames, alloc, sign, bytes),
        Mode::Subscript => close_bracket(frames, alloc, sign, bytes),
        Mode::Arithmetic => close_arithmetic(frames, alloc, sign, bytes),
        _ => hear_literal(frames, alloc, sign, bytes),
    }
}

/// A `]` that closes a subscript, a pair's key, or a bracket within one.
#[tactic(auto, using(crate::proofs::Fitted::subscript_moves))]
fn close_bracket(
    frames: &mut Frames,
    alloc: Global,
    sign: Sign,
    bytes: &[u8],
) -> Result<(), Unbuilt>
    ensures grows { Grows (Lexed sign bytes.now) frames.old frames.new result }
    ensures moves { Fitting sign bytes.now → sign.mode ≡ mode.Subscript → sign.kind ≡ kind.Close → AllMove (bracket_steps (place_at frames.old 0) (place_at frames.old 1)) frames.old frames.new result }
{
    match frames.at(0) {
        Place::Subscript => close_whole_subscript(frames, sign, bytes),
        _ => hear_literal(frames, alloc, sign, bytes),
    }
}

fn close_whole_subscript(frames: &mut Frames, sign: Sign, bytes: &[u8]) -> Result<(), Unbuilt>
    ensures grows { Grows (Lexed sign bytes.now) frames.old frames.new result }
    ensures moves { sign.kind ≡ kind.Close → AllMove (whole_subscript_steps (place_at frames.old 1)) frames.old frames.new result }
{
    match frames.at(1) {
        Place::Value => close_key(frames, sign, bytes),
        _ => close_subscript(frames, sign, bytes),
    }
}

/// The `))` of an arithmetic text.
fn close_arithmetic(
    frames: &mut Frames,
    alloc: Global,
    sign: Sign,
    bytes: &[u8],
) -> Result<(), Unbuilt>
    ensures grows { Grows (Lexed sign bytes.now) frames.old frames.new result }
    ensures moves { sign.kind ≡ kind.Close → AllMove (arithmetic_steps (place_at frames.old 1)) frames.old frames.new result }
{
    match frames.at(1) {
        Place::Arithmetic => close_number(frames, alloc, sign, bytes),
        Place::ForArithmetic => close_for_part(frames, alloc, sign, bytes),
        _ => close_arithmetic_command(frames, alloc, sign, bytes),
    }
}

#[tactic(auto, using(tree_build::proofs::Steps::grows_stays_in))]
fn close_and_settle(
    frames: &mut Frames,
    alloc: Global,
    script: &[u8],
    sign: Sign,
    bytes: &[u8],
) -> Result<(), Unbuilt>
    ensures grows { GrowsIn script.now (Lexed sign bytes.now) frames.old frames.new result }
    ensures moves { sign.kind ≡ kind.WordEnd → AllMove (then_rows close_word_steps settle_steps) frames.old frames.new result }
{
    close_word(frames, alloc, sign, bytes)?;
    settle_word(frames, alloc, script)
}

#[tactic(auto, using(tree_build::proofs::Steps::grows_stays))]
fn close_assigned(
    frames: &mut Frames,
    alloc: Global,
    sign: Sign,
    bytes: &[u8],
) -> Result<(), Unbuilt>
    ensures grows { Grows (Lexed sign bytes.now) frames.old frames.new result }
    ensures moves { sign.kind ≡ kind.WordEnd → AllMove close_assigned_steps frames.old frames.new result }
{
    close_word(frames, alloc, sign, bytes)?;
    give_assignment(frames)
}

/// The end of a word with pieces.
#[tactic(auto, using(tree_build::proofs::Steps::grows_in))]
fn end_word(
    frames: &mut Frames,
    alloc: Global,
    script: &[u8],
    sign: Sign,
    bytes: &[u8],
) -> Result<(), Unbuilt>
    ensures grows { GrowsIn script.now (Lexed sign bytes.now) frames.old frames.new result }
    ensures moves { sign.kind ≡ kind.WordEnd → AllMove (word_end_steps (place_at frames.old 1)) frames.old frames.new result }
{
    match frames.at(1) {
        Place::Keyed => close_pair(frames, sign, bytes),
        Place::Assigning => close_assigned(frames, alloc, sign, bytes),
        _ => close_and_settle(frames, alloc, script, sign, bytes),
    }
}

#[tactic(auto, using(tree_build::proofs::Steps::stays_grows_in))]
fn settle_and_begin_member(
    frames: &mut Frames,
    alloc: Global,
    script: &[u8],
    moment: Moment,
) -> Result<(), Unbuilt>
    ensures grows { GrowsIn script.now (Marked MemberBody moment) frames.old frames.new result }
    ensures moves { AllMove (then_rows settle_steps (push (tag.MemberBody ∷ []))) frames.old frames.new result }
{
    settle_word(frames, alloc, script)?;
    begin_member_body(frames, moment)
}

/// The body of a function among members begins. Its name may still wait, and is an entry before it.
#[tactic(auto, using(tree_build::proofs::Steps::grows_in))]
fn begin_member(
    frames: &mut Frames,
    alloc: Global,
    script: &[u8],
    moment: Moment,
) -> Result<(), Unbuilt>
    ensures grows { GrowsIn script.now (Marked MemberBody moment) frames.old frames.new result }
    ensures moves { AllMove (begin_member_steps (place_at frames.old 0)) frames.old frames.new result }
{
    if frames.at(0) == Place::Whole {
        return settle_and_begin_member(frames, alloc, script, moment);
    }
    begin_member_body(frames, moment)
}

/// Hears a mark between two tokens of a script, which is given too.
#[tactic(auto, using(tree_build::proofs::Steps::grows_in, crate::proofs::Tables::mark_moves, crate::proofs::Tables::mark_passes))]
pub fn hear_mark(
    frames: &mut Frames,
    alloc: Global,
    script: &[u8],
    mark: Mark,
    moment: Moment,
) -> Result<(), Unbuilt>
    ensures grows { GrowsIn script.now (Marked mark moment) frames.old frames.new result }
    ensures moves { MarkMoves mark frames.old frames.new result }
{
    match mark {
        Mark::SimpleBegins => begin_simple(frames, alloc, moment),
        Mark::SimpleEnds => end_simple(frames, moment),
        Mark::PipelineBegins => begin_pipeline(frames, alloc, moment),
        Mark::AndOrBegins => begin_chain(frames, moment),
        Mark::ListEnds => end_list(frames, alloc, moment),
        Mark::CompoundEnds => end_compound(frames, alloc, script, moment),
        Mark::SubscriptEnds => end_subscript(frames, moment),
        Mark::TermEnds => end_term(frames, moment),
        Mark::MemberBody => begin_member(frames, alloc, script, moment),
        mark => pass_mark(frames, mark, moment),
    }
}
