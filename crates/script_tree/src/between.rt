//! Tokens between words.
ghost use Rattle.script_tree.specs.Taken.{and_if_steps, bar_steps, done_steps, entry_steps, item_word_steps, list_close_steps, name_word_steps, or_if_steps, plain_steps, right_brace_steps, term_word_steps, any_word_steps, between_steps, break_steps, close_steps, command_steps, double_steps, entry_break_steps, list_steps, open_steps, prepare_steps, prepared_steps, push, settle_steps, settled_steps, value_close_steps, word_steps};
ghost use Rattle.script_tree.specs.Steps.{AllMove, then_rows};
ghost use Rattle.tree_build.specs.Fitting.{Fitting, is_between};
ghost use Rattle.std.specs.Prelude.{◌≡◌, true, [], ◌∷◌};
ghost use Rattle.ksh_syntax.specs.declared.kind.Kind.TheVariants as kind;
ghost use Rattle.tree_build.specs.declared.place.Place.TheVariants as place;
ghost use Rattle.tree_moves.specs.Tags as tag;
ghost use Rattle.tree_build.specs.Places.{place_at};
ghost use Rattle.tree_build.specs.Reads.{breaks};
ghost use Rattle.tree_build.specs.Frames.{Grows, GrowsIn, StaysIn};
ghost use Rattle.tree_build.specs.Heard.{Lexed};

use ksh_syntax::{Kind, Mode};
use std::alloc::Global;
use tree_build::{
    Frames, Place, Unbuilt, alternative, assign_value, bar, begin_arithmetic_command,
    begin_condition, begin_element, begin_for_arithmetic, begin_list_command, begin_member_group,
    begin_nested, begin_redirection, begin_subscript, break_entries, case_in, close_condition,
    close_group, close_nested, close_subshell, close_substitution, close_value, do_for, do_loop,
    elif, end_case, end_case_list, end_command, end_for, end_for_arithmetic, end_item, end_loop,
    end_words, fi, for_in, for_name, function_name, join, name_function, name_member, negate,
    not_term, open_compound, open_list, open_operands, open_patterns, open_value, otherwise_list,
    pass_token, push_word, settle_word, start_word, then, typeset,
};
use tree_parts::Sign;

/// Makes room for what begins here: for patterns before the first of an item, for the words of a term, and a word before this one
/// among entries.
#[tactic(auto, using(tree_build::proofs::Steps::stays_in, tree_build::proofs::Steps::nothing_stays_in))]
fn prepare(frames: &mut Frames, alloc: Global, script: &[u8]) -> Result<(), Unbuilt>
    ensures stays { StaysIn script.now frames.old frames.new result }
    ensures moves { AllMove (prepare_steps (place_at frames.old 0)) frames.old frames.new result }
{
    match frames.at(0) {
        Place::Cases => open_patterns(frames, alloc),
        Place::Terms => open_operands(frames, alloc),
        Place::Whole => settle_word(frames, alloc, script),
        _ => Ok(()),
    }
}

/// A token that is read between words.
#[tactic(auto, using(tree_build::proofs::Steps::grows_in, crate::proofs::Fitted::pass_moves, crate::proofs::Fitted::redirect_moves, crate::proofs::Fitted::here_redirect_moves, crate::proofs::Fitted::break_ends))]
pub(crate) fn between(
    frames: &mut Frames,
    alloc: Global,
    script: &[u8],
    sign: Sign,
    bytes: &[u8],
) -> Result<(), Unbuilt>
    ensures grows { GrowsIn script.now (Lexed sign bytes.now) frames.old frames.new result }
    ensures moves { Fitting sign bytes.now → is_between sign.mode ≡ true → AllMove (between_steps sign.mode sign.kind (place_at frames.old 0) (place_at frames.old 1)) frames.old frames.new result }
{
    match sign.kind {
        Kind::Newline | Kind::NewlineBodies | Kind::Semicolon => break_line(
            frames, alloc, script, sign, bytes,
        ),
        Kind::Ampersand | Kind::BarAmpersand => end_command(frames, alloc, sign, bytes),
        Kind::AndIf => and_if(frames, alloc, sign, bytes),
        Kind::OrIf => or_if(frames, alloc, sign, bytes),
        Kind::Bar => any_bar(frames, alloc, sign, bytes),
        Kind::DoubleSemicolon | Kind::SemicolonAmpersand => end_item(frames, sign, bytes),
        Kind::DoubleParenthesis => double_parenthesis(frames, alloc, sign, bytes),
        Kind::Open => open_parenthesis(frames, alloc, sign, bytes),
        Kind::Close => close(frames, alloc, script, sign, bytes),
        Kind::Backquote => close_substitution(frames, sign, bytes),
        Kind::Redirect | Kind::HereRedirect => begin_redirection(frames, alloc, sign, bytes),
        _ => word(frames, alloc, script, sign, bytes),
    }
}

/// A `&&`.
#[tactic(auto, using(crate::proofs::Fitted::pass_moves))]
fn and_if(frames: &mut Frames, alloc: Global, sign: Sign, bytes: &[u8]) -> Result<(), Unbuilt>
    ensures grows { Grows (Lexed sign bytes.now) frames.old frames.new result }
    ensures moves { sign.kind ≡ kind.AndIf → AllMove (and_if_steps sign.mode (place_at frames.old 0)) frames.old frames.new result }
{
    match sign.mode {
        Mode::Condition => pass_token(frames, sign, bytes),
        _ => join(frames, alloc, sign, bytes),
    }
}

/// A `||`.
fn or_if(frames: &mut Frames, alloc: Global, sign: Sign, bytes: &[u8]) -> Result<(), Unbuilt>
    ensures grows { Grows (Lexed sign bytes.now) frames.old frames.new result }
    ensures moves { sign.kind ≡ kind.OrIf → AllMove (or_if_steps sign.mode) frames.old frames.new result }
{
    match sign.mode {
        Mode::Condition => alternative(frames, alloc, sign, bytes),
        _ => join(frames, alloc, sign, bytes),
    }
}

/// A `|`.
#[tactic(auto, using(crate::proofs::Fitted::pass_moves))]
fn any_bar(frames: &mut Frames, alloc: Global, sign: Sign, bytes: &[u8]) -> Result<(), Unbuilt>
    ensures grows { Grows (Lexed sign bytes.now) frames.old frames.new result }
    ensures moves { sign.kind ≡ kind.Bar → AllMove (bar_steps sign.mode (place_at frames.old 0)) frames.old frames.new result }
{
    match sign.mode {
        Mode::Pattern => pass_token(frames, sign, bytes),
        _ => bar(frames, alloc, sign, bytes),
    }
}

/// A newline or `;`.
#[tactic(auto, using(tree_build::proofs::Steps::grows_in, crate::proofs::Fitted::pass_moves, crate::proofs::Fitted::break_ends))]
fn break_line(
    frames: &mut Frames,
    alloc: Global,
    script: &[u8],
    sign: Sign,
    bytes: &[u8],
) -> Result<(), Unbuilt>
    ensures grows { GrowsIn script.now (Lexed sign bytes.now) frames.old frames.new result }
    ensures moves { breaks sign.kind ≡ true → AllMove (break_steps sign.kind (place_at frames.old 0)) frames.old frames.new result }
{
    match frames.at(0) {
        Place::Finished => end_command(frames, alloc, sign, bytes),
        Place::Value => break_entries(frames, sign, bytes),
        Place::Whole => settle_and_break(frames, alloc, script, sign, bytes),
        Place::ForWords => end_words(frames, sign, bytes),
        _ => pass_token(frames, sign, bytes),
    }
}

#[tactic(auto, using(tree_build::proofs::Steps::stays_grows_in))]
fn settle_and_break(
    frames: &mut Frames,
    alloc: Global,
    script: &[u8],
    sign: Sign,
    bytes: &[u8],
) -> Result<(), Unbuilt>
    ensures grows { GrowsIn script.now (Lexed sign bytes.now) frames.old frames.new result }
    ensures moves { breaks sign.kind ≡ true → AllMove (then_rows settle_steps entry_break_steps) frames.old frames.new result }
{
    settle_word(frames, alloc, script)?;
    break_entries(frames, sign, bytes)
}

fn double_parenthesis(
    frames: &mut Frames,
    alloc: Global,
    sign: Sign,
    bytes: &[u8],
) -> Result<(), Unbuilt>
    ensures grows { Grows (Lexed sign bytes.now) frames.old frames.new result }
    ensures moves { sign.kind ≡ kind.DoubleParenthesis → AllMove (double_steps (place_at frames.old 0)) frames.old frames.new result }
{
    if frames.at(0) == Place::For {
        return begin_for_arithmetic(frames, alloc, sign, bytes);
    }
    begin_arithmetic_command(frames, alloc, sign, bytes)
}

#[tactic(auto, using(tree_build::proofs::Steps::stays_grows))]
fn open_pattern(frames: &mut Frames, alloc: Global, sign: Sign, bytes: &[u8]) -> Result<(), Unbuilt>
    ensures grows { Grows (Lexed sign bytes.now) frames.old frames.new result }
    ensures moves { sign.kind ≡ kind.Open → AllMove (push (tag.Patterns ∷ [])) frames.old frames.new result }
{
    open_patterns(frames, alloc)?;
    pass_token(frames, sign, bytes)
}

/// A `(`.
fn open_parenthesis(
    frames: &mut Frames,
    alloc: Global,
    sign: Sign,
    bytes: &[u8],
) -> Result<(), Unbuilt>
    ensures grows { Grows (Lexed sign bytes.now) frames.old frames.new result }
    ensures moves { sign.kind ≡ kind.Open → AllMove (open_steps (place_at frames.old 0)) frames.old frames.new result }
{
    match frames.at(0) {
        Place::Simple => name_function(frames, alloc, sign, bytes),
        Place::Cases => open_pattern(frames, alloc, sign, bytes),
        Place::Terms => begin_nested(frames, alloc, sign, bytes),
        Place::Assigning => open_value(frames, alloc, sign, bytes),
        Place::Whole => name_member(frames, alloc, sign, bytes),
        _ => begin_list_command(frames, alloc, sign, bytes),
    }
}

#[tactic(auto, using(tree_build::proofs::Steps::grows_stays, crate::proofs::Fitted::pass_at, crate::proofs::Joined::rows_then, crate::proofs::Joined::rows_fail))]
fn close_patterns(
    frames: &mut Frames,
    alloc: Global,
    sign: Sign,
    bytes: &[u8],
) -> Result<(), Unbuilt>
    ensures grows { Grows (Lexed sign bytes.now) frames.old frames.new result }
    ensures moves { sign.kind ≡ kind.Close → place_at frames.old 0 ≡ place.Patterns → AllMove (push (tag.Lines ∷ [])) frames.old frames.new result }
{
    pass_token(frames, sign, bytes)?;
    open_list(frames, alloc)
}

#[tactic(auto, using(tree_build::proofs::Steps::stays_grows_in))]
fn settle_and_close(
    frames: &mut Frames,
    alloc: Global,
    script: &[u8],
    sign: Sign,
    bytes: &[u8],
) -> Result<(), Unbuilt>
    ensures grows { GrowsIn script.now (Lexed sign bytes.now) frames.old frames.new result }
    ensures moves { sign.kind ≡ kind.Close → AllMove (then_rows settle_steps value_close_steps) frames.old frames.new result }
{
    settle_word(frames, alloc, script)?;
    close_value(frames, alloc, sign, bytes)
}

/// A `)`.
#[tactic(auto, using(tree_build::proofs::Steps::grows_in, crate::proofs::Fitted::pass_moves))]
fn close(
    frames: &mut Frames,
    alloc: Global,
    script: &[u8],
    sign: Sign,
    bytes: &[u8],
) -> Result<(), Unbuilt>
    ensures grows { GrowsIn script.now (Lexed sign bytes.now) frames.old frames.new result }
    ensures moves { sign.kind ≡ kind.Close → AllMove (close_steps (place_at frames.old 0) (place_at frames.old 1)) frames.old frames.new result }
{
    match frames.at(0) {
        Place::Listed => close_list(frames, alloc, sign, bytes),
        Place::Patterns => close_patterns(frames, alloc, sign, bytes),
        Place::Terms => close_nested(frames, sign, bytes),
        Place::Value => close_value(frames, alloc, sign, bytes),
        Place::Whole => settle_and_close(frames, alloc, script, sign, bytes),
        _ => pass_token(frames, sign, bytes),
    }
}

/// A `)` behind a list.
fn close_list(frames: &mut Frames, alloc: Global, sign: Sign, bytes: &[u8]) -> Result<(), Unbuilt>
    ensures grows { Grows (Lexed sign bytes.now) frames.old frames.new result }
    ensures moves { sign.kind ≡ kind.Close → AllMove (list_close_steps (place_at frames.old 1)) frames.old frames.new result }
{
    match frames.at(1) {
        Place::Subshell => close_subshell(frames, alloc, sign, bytes),
        _ => close_substitution(frames, sign, bytes),
    }
}

/// A word, or what begins one.
#[tactic(auto, using(tree_build::proofs::Steps::grows_in, crate::proofs::Fitted::for_name_moves, crate::proofs::Fitted::do_for_moves, crate::proofs::Fitted::function_name_moves, crate::proofs::Fitted::case_in_moves, crate::proofs::Fitted::member_group_moves))]
fn word(
    frames: &mut Frames,
    alloc: Global,
    script: &[u8],
    sign: Sign,
    bytes: &[u8],
) -> Result<(), Unbuilt>
    ensures grows { GrowsIn script.now (Lexed sign bytes.now) frames.old frames.new result }
    ensures moves { Fitting sign bytes.now → is_between sign.mode ≡ true → AllMove (word_steps sign.mode sign.kind (place_at frames.old 0) (place_at frames.old 1)) frames.old frames.new result }
{
    match frames.at(0) {
        Place::Stages | Place::FunctionName => command_word(frames, alloc, sign, bytes),
        Place::Listed => list_word(frames, alloc, sign, bytes),
        Place::For => for_name(frames, alloc, sign, bytes),
        Place::ForName => name_word(frames, alloc, sign, bytes),
        Place::ForReady | Place::ForArithmetic => do_for(frames, alloc, sign, bytes),
        Place::Function => function_name(frames, alloc, sign, bytes),
        Place::CaseWord => case_in(frames, alloc, sign, bytes),
        Place::MemberBody => begin_member_group(frames, alloc, sign, bytes),
        Place::Cases => item_word(frames, alloc, script, sign, bytes),
        Place::Terms => term_word(frames, alloc, script, sign, bytes),
        _ => prepared_word(frames, alloc, script, sign, bytes),
    }
}

/// A word behind the name of `for`.
#[tactic(auto, using(crate::proofs::Fitted::do_for_moves, crate::proofs::Defaults::name_word_moves))]
fn name_word(frames: &mut Frames, alloc: Global, sign: Sign, bytes: &[u8]) -> Result<(), Unbuilt>
    ensures grows { Grows (Lexed sign bytes.now) frames.old frames.new result }
    ensures moves { AllMove (name_word_steps sign.kind) frames.old frames.new result }
{
    match sign.kind {
        Kind::In => for_in(frames, alloc, sign, bytes),
        _ => do_for(frames, alloc, sign, bytes),
    }
}

/// A word where an item of `case` may begin.
#[tactic(auto, using(tree_build::proofs::Steps::grows_in, crate::proofs::Defaults::item_word_moves))]
fn item_word(
    frames: &mut Frames,
    alloc: Global,
    script: &[u8],
    sign: Sign,
    bytes: &[u8],
) -> Result<(), Unbuilt>
    ensures grows { GrowsIn script.now (Lexed sign bytes.now) frames.old frames.new result }
    ensures moves { Fitting sign bytes.now → is_between sign.mode ≡ true → place_at frames.old 0 ≡ place.Cases → AllMove (item_word_steps sign.mode sign.kind) frames.old frames.new result }
{
    match sign.kind {
        Kind::Esac => end_case(frames, alloc, sign, bytes),
        _ => prepared_word(frames, alloc, script, sign, bytes),
    }
}

/// A word where a term of a condition may begin.
#[tactic(auto, using(tree_build::proofs::Steps::grows_in, crate::proofs::Defaults::term_word_moves))]
fn term_word(
    frames: &mut Frames,
    alloc: Global,
    script: &[u8],
    sign: Sign,
    bytes: &[u8],
) -> Result<(), Unbuilt>
    ensures grows { GrowsIn script.now (Lexed sign bytes.now) frames.old frames.new result }
    ensures moves { Fitting sign bytes.now → is_between sign.mode ≡ true → place_at frames.old 0 ≡ place.Terms → AllMove (term_word_steps sign.mode sign.kind) frames.old frames.new result }
{
    match sign.kind {
        Kind::Bang => not_term(frames, sign, bytes),
        Kind::RightBrackets => close_condition(frames, alloc, sign, bytes),
        _ => prepared_word(frames, alloc, script, sign, bytes),
    }
}

/// A reserved word where a command begins.
#[tactic(auto, using(crate::proofs::Fitted::opened_moves, crate::proofs::Defaults::command_default, crate::proofs::Defaults::list_command))]
fn command_word(frames: &mut Frames, alloc: Global, sign: Sign, bytes: &[u8]) -> Result<(), Unbuilt>
    ensures grows { Grows (Lexed sign bytes.now) frames.old frames.new result }
    ensures moves { AllMove (command_steps sign.kind) frames.old frames.new result }
{
    match sign.kind {
        Kind::Bang => negate(frames, sign, bytes),
        Kind::If | Kind::While | Kind::Until | Kind::LeftBrace => begin_list_command(
            frames, alloc, sign, bytes,
        ),
        Kind::LeftBrackets => begin_condition(frames, alloc, sign, bytes),
        _ => open_compound(frames, alloc, sign, bytes),
    }
}

/// A reserved word behind a list.
#[tactic(auto, using(crate::proofs::Defaults::list_default))]
fn list_word(frames: &mut Frames, alloc: Global, sign: Sign, bytes: &[u8]) -> Result<(), Unbuilt>
    ensures grows { Grows (Lexed sign bytes.now) frames.old frames.new result }
    ensures moves { AllMove (list_steps sign.kind (place_at frames.old 1)) frames.old frames.new result }
{
    match sign.kind {
        Kind::Then => then(frames, alloc, sign, bytes),
        Kind::Elif => elif(frames, alloc, sign, bytes),
        Kind::Else => otherwise_list(frames, alloc, sign, bytes),
        Kind::Fi => fi(frames, alloc, sign, bytes),
        Kind::Do => do_loop(frames, alloc, sign, bytes),
        Kind::Done => end_any_loop(frames, alloc, sign, bytes),
        Kind::Esac => end_case_list(frames, alloc, sign, bytes),
        _ => close_braces(frames, alloc, sign, bytes),
    }
}

/// A `done`.
fn end_any_loop(frames: &mut Frames, alloc: Global, sign: Sign, bytes: &[u8]) -> Result<(), Unbuilt>
    ensures grows { Grows (Lexed sign bytes.now) frames.old frames.new result }
    ensures moves { sign.kind ≡ kind.Done → AllMove (done_steps (place_at frames.old 1)) frames.old frames.new result }
{
    match frames.at(1) {
        Place::LoopBody => end_loop(frames, alloc, sign, bytes),
        Place::ForBody => end_for(frames, alloc, sign, bytes),
        _ => end_for_arithmetic(frames, alloc, sign, bytes),
    }
}

/// A `}`.
#[tactic(auto, using(crate::proofs::Fitted::group_moves, crate::proofs::Fitted::current_moves))]
fn close_braces(frames: &mut Frames, alloc: Global, sign: Sign, bytes: &[u8]) -> Result<(), Unbuilt>
    ensures grows { Grows (Lexed sign bytes.now) frames.old frames.new result }
    ensures moves { AllMove (right_brace_steps sign.kind (place_at frames.old 1)) frames.old frames.new result }
{
    match frames.at(1) {
        Place::Group => close_group(frames, alloc, sign, bytes),
        _ => close_substitution(frames, sign, bytes),
    }
}

#[tactic(auto, using(tree_build::proofs::Steps::stays_in_grows_in))]
fn prepared_word(
    frames: &mut Frames,
    alloc: Global,
    script: &[u8],
    sign: Sign,
    bytes: &[u8],
) -> Result<(), Unbuilt>
    ensures grows { GrowsIn script.now (Lexed sign bytes.now) frames.old frames.new result }
    ensures moves { Fitting sign bytes.now → is_between sign.mode ≡ true → AllMove (prepared_steps sign.mode sign.kind (place_at frames.old 0)) frames.old frames.new result }
{
    prepare(frames, alloc, script)?;
    any_word(frames, alloc, script, sign, bytes)
}

#[tactic(auto, using(tree_build::proofs::Steps::grows_in, crate::proofs::Fitted::element_is, crate::proofs::Fitted::value_open_is, crate::proofs::Defaults::any_word_default))]
fn any_word(
    frames: &mut Frames,
    alloc: Global,
    script: &[u8],
    sign: Sign,
    bytes: &[u8],
) -> Result<(), Unbuilt>
    ensures grows { GrowsIn script.now (Lexed sign bytes.now) frames.old frames.new result }
    ensures moves { Fitting sign bytes.now → is_between sign.mode ≡ true → AllMove (any_word_steps sign.mode sign.kind) frames.old frames.new result }
{
    match sign.kind {
        Kind::Start | Kind::StartAssignment => start_word(frames, alloc, sign, bytes),
        Kind::Element => begin_element(frames, alloc, sign, bytes),
        Kind::ValueOpen => assign_value(frames, alloc, sign, bytes),
        Kind::Key => begin_subscript(frames, alloc, sign, bytes),
        _ => plain_word(frames, alloc, script, sign, bytes),
    }
}

/// A word of plain bytes.
#[tactic(auto, using(tree_build::proofs::Steps::grows_in, crate::proofs::Defaults::plain_moves))]
fn plain_word(
    frames: &mut Frames,
    alloc: Global,
    script: &[u8],
    sign: Sign,
    bytes: &[u8],
) -> Result<(), Unbuilt>
    ensures grows { GrowsIn script.now (Lexed sign bytes.now) frames.old frames.new result }
    ensures moves { Fitting sign bytes.now → is_between sign.mode ≡ true → AllMove (plain_steps sign.mode sign.kind) frames.old frames.new result }
{
    match sign.mode {
        Mode::Value => entry_word(frames, alloc, sign, bytes),
        _ => settled_word(frames, alloc, script, sign, bytes),
    }
}

/// A word of plain bytes among entries.
#[tactic(auto, using(crate::proofs::Fitted::push_moves, crate::proofs::Defaults::entry_moves))]
fn entry_word(frames: &mut Frames, alloc: Global, sign: Sign, bytes: &[u8]) -> Result<(), Unbuilt>
    ensures grows { Grows (Lexed sign bytes.now) frames.old frames.new result }
    ensures moves { Fitting sign bytes.now → is_between sign.mode ≡ true → AllMove (entry_steps sign.kind) frames.old frames.new result }
{
    match sign.kind {
        Kind::Typeset => typeset(frames, sign, bytes),
        _ => push_word(frames, alloc, sign, bytes),
    }
}

#[tactic(auto, using(tree_build::proofs::Steps::grows_stays_in))]
fn settled_word(
    frames: &mut Frames,
    alloc: Global,
    script: &[u8],
    sign: Sign,
    bytes: &[u8],
) -> Result<(), Unbuilt>
    ensures grows { GrowsIn script.now (Lexed sign bytes.now) frames.old frames.new result }
    ensures moves { Fitting sign bytes.now → is_between sign.mode ≡ true → AllMove (settled_steps sign.kind) frames.old frames.new result }
{
    push_word(frames, alloc, sign, bytes)?;
    settle_word(frames, alloc, script)
}
