//! Functions, and the entries of values.
ghost use Rattle.ksh_syntax.specs.declared.kind.Kind.TheVariants as kind;
ghost use Rattle.tree_build.specs.Fits.{Is, IsNames, Moves};
ghost use Rattle.tree_build.specs.Frame.{Value};
ghost use Rattle.tree_parts.specs.declared.entry.Entry.TheVariants as entry;
ghost use Rattle.ksh_ast.specs.declared.tree.Piece.{Piece};
ghost use Rattle.tree_build.specs.Tables.{is_word};
ghost use Rattle.tree_moves.specs.Tags as tag;
ghost use Rattle.ksh_syntax.specs.declared.part.Mark.TheVariants.{CompoundEnds, MemberBody, SimpleBegins, SimpleEnds};
ghost use Rattle.tree_build.specs.Frames.{Grows, GrowsIn, Stays, StaysIn};
ghost use Rattle.tree_build.specs.Heard.{Lexed, Marked};
ghost use Rattle.tree_build.specs.Reads.{EndsWithFunction, IsWordOf, are_breaks, definition, slice, breaks};
ghost use Rattle.std.specs.Prelude.{◌≡◌, ℕ, true, false, List, [], ◌∷◌, ◌++◌, None, Some, IfOk, IfSome, OnOk};
ghost use Rattle.tree_build.specs.Names.{IsOneWord, StandsBehind};
ghost use Rattle.tree_parts.specs.Literals.{literal};
ghost use Rattle.tree_parts.specs.Parts.{item, with_redirects, all_names, names_of};
ghost use Rattle.tree_build.specs.Loads.{IsThere, below, top};
ghost use Rattle.ksh_ast.specs.declared.tree.Command.TheVariants as command;

use crate::begins::open_list;
use crate::frames::Frames;
use crate::opening::{Open, Opening};
use crate::place::Place;
use crate::script::slice;
use crate::stack::Stack;
use crate::tables::{breaks, is_word};
use crate::unbuilt::Unbuilt;
use ksh_ast::{Argument, Assign, Command, FunctionDef, List, Piece, Redirect, Word};
use ksh_base::{Items, Memory, Name, Shared, Text};
use ksh_syntax::Kind;
use std::alloc::Global;
use tree_parts::{Entry, Moment, Sign, list_of, names_of, with_redirects};

/// The name behind `function`.
#[tactic(auto, using(crate::proofs::Onto::function_loaded))]
pub fn function_name(
    frames: &mut Frames,
    alloc: Global,
    sign: Sign,
    bytes: &[u8],
) -> Result<(), Unbuilt>
    ensures grows { Grows (Lexed sign bytes.now) frames.old frames.new result }
    ensures moves { is_word sign.kind ≡ true → all_names (names_of bytes.now) ≡ true → Moves (tag.Function ∷ [], tag.FunctionName ∷ []) frames.old frames.new result }
{
    if !is_word(sign.kind) {
        return Err(frames.opened.stray());
    }
    let Ok(found) = names_of(alloc, bytes) else {
        return Err(frames.opened.lost());
    };
    let Some(name) = found else {
        return Err(frames.opened.stray());
    };
    let Some(Open::Opened(Opening::Function(from, line))) = frames.opened.pop() else {
        return Err(frames.opened.stray());
    };
    let ready = frames.lists.function_names.push(name);
    let open = Open::FunctionName(from, line, true);
    frames.opened.push_after(ready, open)?;
    Ok(())
}

/// The `(` behind the name of a function.
#[tactic(auto, using(crate::proofs::Onto::simple_loaded, crate::proofs::Onto::simple_on, crate::proofs::MovingR::never_simple_name))]
pub fn name_function(
    frames: &mut Frames,
    alloc: Global,
    sign: Sign,
    bytes: &[u8],
) -> Result<(), Unbuilt>
    ensures grows { Grows (Lexed sign bytes.now) frames.old frames.new result }
    ensures moves { sign.kind ≡ kind.Open → Moves (tag.SimpleName ∷ [], tag.FunctionName ∷ []) frames.old frames.new result }
{
    if sign.kind != Kind::Open {
        return Err(frames.opened.stray());
    }
    let Some(Open::Simple(from, line)) = frames.opened.pop() else {
        return Err(frames.opened.stray());
    };
    let Some(given) = frames.simples.assigns.pop() else {
        unreachable!();
    };
    let Some(words) = frames.simples.arguments.pop() else {
        unreachable!();
    };
    let Some(redirects) = frames.redirections.redirects.pop() else {
        unreachable!();
    };
    let Some(word) = only_word(given, words, redirects) else {
        return Err(frames.opened.stray());
    };
    let Some(text) = literal_text(word) else {
        return Err(frames.opened.stray());
    };
    let Ok(found) = names_of(alloc, text.bytes()) else {
        return Err(frames.opened.lost());
    };
    let Some(name) = found else {
        return Err(frames.opened.stray());
    };
    let ready = frames.lists.function_names.push(name);
    let open = Open::FunctionName(from, line, false);
    frames.opened.push_after(ready, open)?;
    Ok(())
}

/// The `(` behind the name of a function among members.
#[tactic(auto, using(crate::proofs::Onto::whole_loaded, crate::proofs::Onto::whole_on, crate::proofs::MovingR::never_whole_name, crate::proofs::MovingR::not_names))]
pub fn name_member(
    frames: &mut Frames,
    alloc: Global,
    sign: Sign,
    bytes: &[u8],
) -> Result<(), Unbuilt>
    ensures grows { Grows (Lexed sign bytes.now) frames.old frames.new result }
    ensures moves { sign.kind ≡ kind.Open → Moves (tag.WholeName ∷ [], tag.FunctionName ∷ []) frames.old frames.new result }
{
    if sign.kind != Kind::Open {
        return Err(frames.opened.stray());
    }
    let Some(Open::Whole(from, _, false)) = frames.opened.pop() else {
        return Err(frames.opened.stray());
    };
    let Some(word) = frames.texts.words.pop() else {
        unreachable!();
    };
    let Some(text) = literal_text(word) else {
        return Err(frames.opened.stray());
    };
    let Ok(found) = names_of(alloc, text.bytes()) else {
        return Err(frames.opened.lost());
    };
    let Some(name) = found else {
        return Err(frames.opened.stray());
    };
    let ready = frames.lists.function_names.push(name);
    let open = Open::FunctionName(from, sign.line, false);
    frames.opened.push_after(ready, open)?;
    Ok(())
}

/// The text of a function that begins at a place and ends at a moment.
fn text_from(alloc: Global, script: &[u8], from: usize, moment: Moment) -> Result<Text, Memory>
    ensures { IfOk result (λ text. text ≡ slice script.now from moment.to) }
{
    Text::of(alloc, slice(script, from, moment.to))
}

/// A function whose body is this command, on that line.
fn definition_of(
    alloc: Global,
    own: u32,
    command: Command,
    name: Items<Name>,
    own_scope: bool,
    text: Text,
) -> Result<Shared<FunctionDef<List>>, Memory>
    ensures { IfOk result (λ d. d ≡ definition name own_scope (item own command ∷ []) text) }
{
    let definition = FunctionDef {
        name,
        own_scope,
        body: list_of(alloc, own, command)?,
        text,
    };
    Ok(Shared::new(alloc, definition)?)
}

/// Takes the command on top, with its redirections.
fn end_body(
    commands: &mut Stack<Command>,
    redirects: &mut Stack<Items<Redirect<Word>>>,
) -> Option<Command>
    requires { IsThere commands.old × IsThere redirects.old }
    ensures command { IfSome result (λ c. with_redirects (top (command.Simple [] [] []) commands.old) (top [] redirects.old) ≡ Some c) }
    ensures none { result ≡ None → with_redirects (top (command.Simple [] [] []) commands.old) (top [] redirects.old) ≡ None }
    ensures rest { (commands.new ≡ below commands.old) × (redirects.new ≡ below redirects.old) }
{
    let Some(command) = commands.pop() else {
        unreachable!();
    };
    let Some(behind) = redirects.pop() else {
        unreachable!();
    };
    with_redirects(command, behind)
}

#[tactic(auto, using(crate::proofs::Onto::compound_loaded, crate::proofs::Onto::function_name_loaded))]
fn close_function(
    frames: &mut Frames,
    alloc: Global,
    script: &[u8],
    moment: Moment,
) -> Result<(), Unbuilt>
    ensures grows { GrowsIn script.now (Marked CompoundEnds moment) frames.old frames.new result }
    ensures moves { Moves (tag.Compound ∷ tag.FunctionName ∷ [], tag.Defined ∷ []) frames.old frames.new result }
{
    let Some(Open::Compound(own)) = frames.opened.pop() else {
        return Err(frames.opened.stray());
    };
    let Some(Open::FunctionName(from, line, own_scope)) = frames.opened.pop() else {
        return Err(frames.opened.stray());
    };
    let Ok(text) = text_from(alloc, script, from, moment) else {
        return Err(frames.opened.lost());
    };
    let Some(command) = end_body(
        &mut frames.lists.commands,
        &mut frames.redirections.redirects,
    ) else {
        return Err(frames.opened.stray());
    };
    let Some(name) = frames.lists.function_names.pop() else {
        unreachable!();
    };
    let Ok(defined) = definition_of(alloc, own, command, name, own_scope, text) else {
        return Err(frames.opened.lost());
    };
    let ready = frames.lists.functions.push(defined);
    frames.opened.push_after(ready, Open::Defined(line))?;
    Ok(())
}

/// Makes a command of a function.
#[tactic(auto, using(crate::proofs::Defining::reads_defines, crate::proofs::Onto::defined_on, crate::proofs::Onto::finished_on, crate::proofs::Onto::defined_loaded, crate::proofs::MovingR::moves_defines))]
fn define(frames: &mut Frames) -> Result<(), Unbuilt>
    ensures stays { Stays frames.old frames.new result }
    ensures moves { Moves (tag.Defined ∷ [], tag.Finished ∷ []) frames.old frames.new result }
{
    let Some(Open::Defined(line)) = frames.opened.pop() else {
        return Err(frames.opened.stray());
    };
    let Some(definition) = frames.lists.functions.pop() else {
        unreachable!();
    };
    let ready = frames.lists.commands.push(Command::Function { definition });
    frames.opened.push_after(ready, Open::Finished(line))?;
    Ok(())
}

/// Gives a function to the value of which it is a member.
#[tactic(auto, using(crate::proofs::Onto::defined_loaded, crate::proofs::Onto::value_loaded))]
fn give_member(frames: &mut Frames) -> Result<(), Unbuilt>
    ensures stays { Stays frames.old frames.new result }
    ensures moves { Moves (tag.Defined ∷ tag.Value ∷ [], tag.Value ∷ []) frames.old frames.new result }
{
    let Some(Open::Defined(_)) = frames.opened.pop() else {
        return Err(frames.opened.stray());
    };
    let Some(Open::Value) = frames.opened.pop() else {
        return Err(frames.opened.stray());
    };
    let Some(definition) = frames.lists.functions.pop() else {
        unreachable!();
    };
    let ready = frames.texts.entries.add(Entry::Function(definition));
    frames.opened.push_after(ready, Open::Value)?;
    Ok(())
}

/// Gives a function to the value of which it is a member, or makes a command of it.
#[tactic(auto, using(crate::proofs::MovingR::stages_not_value))]
fn give_function(frames: &mut Frames) -> Result<(), Unbuilt>
    ensures stays { Stays frames.old frames.new result }
    ensures moves_command { Moves (tag.Defined ∷ tag.Stages ∷ [], tag.Finished ∷ tag.Stages ∷ []) frames.old frames.new result }
    ensures moves_member { Moves (tag.Defined ∷ tag.Value ∷ [], tag.Value ∷ []) frames.old frames.new result }
{
    match frames.at(1) {
        Place::Value => give_member(frames),
        _ => define(frames),
    }
}

#[tactic(auto, using(crate::proofs::Steps::grows_in_stays, crate::proofs::MovingR::two_fail))]
fn end_function(
    frames: &mut Frames,
    alloc: Global,
    script: &[u8],
    moment: Moment,
) -> Result<(), Unbuilt>
    ensures grows { GrowsIn script.now (Marked CompoundEnds moment) frames.old frames.new result }
    ensures moves_function { Moves (tag.Compound ∷ tag.FunctionName ∷ tag.Stages ∷ [], tag.Finished ∷ tag.Stages ∷ []) frames.old frames.new result }
    ensures moves_member { Moves (tag.Compound ∷ tag.FunctionName ∷ tag.Value ∷ [], tag.Value ∷ []) frames.old frames.new result }
{
    close_function(frames, alloc, script, moment)?;
    give_function(frames)
}

#[tactic(auto, using(crate::proofs::Onto::compound_loaded))]
fn close_compound(frames: &mut Frames, moment: Moment) -> Result<(), Unbuilt>
    ensures grows { Grows (Marked CompoundEnds moment) frames.old frames.new result }
    ensures moves { Moves (tag.Compound ∷ [], tag.Finished ∷ []) frames.old frames.new result }
{
    let Some(Open::Compound(line)) = frames.opened.pop() else {
        return Err(frames.opened.stray());
    };
    let Some(command) = end_body(
        &mut frames.lists.commands,
        &mut frames.redirections.redirects,
    ) else {
        return Err(frames.opened.stray());
    };
    let ready = frames.lists.commands.push(command);
    frames.opened.push_after(ready, Open::Finished(line))?;
    Ok(())
}

/// The `{` of a function comes among members.
#[tactic(auto, using(crate::proofs::Defining::reads_member_body, crate::proofs::Onto::member_body_on, crate::proofs::MovingR::moves_member_body))]
pub fn begin_member_body(frames: &mut Frames, moment: Moment) -> Result<(), Unbuilt>
    ensures grows { Grows (Marked MemberBody moment) frames.old frames.new result }
    ensures moves { Moves ([], tag.MemberBody ∷ []) frames.old frames.new result }
{
    frames
        .opened
        .push_after(Ok(()), Open::Opened(Opening::MemberBody))?;
    Ok(())
}

#[tactic(auto, using(crate::proofs::Onto::member_body_loaded))]
fn open_member_body(frames: &mut Frames, sign: Sign, bytes: &[u8]) -> Result<(), Unbuilt>
    ensures grows { Grows (Lexed sign bytes.now) frames.old frames.new result }
    ensures moves { sign.kind ≡ kind.LeftBrace → Moves (tag.MemberBody ∷ [], tag.Group ∷ []) frames.old frames.new result }
{
    if sign.kind != Kind::LeftBrace {
        return Err(frames.opened.stray());
    }
    let Some(Open::Opened(Opening::MemberBody)) = frames.opened.pop() else {
        return Err(frames.opened.stray());
    };
    frames
        .opened
        .push_after(Ok(()), Open::Opened(Opening::Group(sign.line)))?;
    Ok(())
}

/// That `{`.
#[tactic(auto, using(crate::proofs::Steps::grows_stays, crate::proofs::MovingR::fails_as))]
pub fn begin_member_group(
    frames: &mut Frames,
    alloc: Global,
    sign: Sign,
    bytes: &[u8],
) -> Result<(), Unbuilt>
    ensures grows { Grows (Lexed sign bytes.now) frames.old frames.new result }
    ensures moves { sign.kind ≡ kind.LeftBrace → Moves (tag.MemberBody ∷ [], tag.Lines ∷ tag.Group ∷ []) frames.old frames.new result }
{
    open_member_body(frames, sign, bytes)?;
    open_list(frames, alloc)
}

/// Takes `function`, a name and newlines from behind the entries on top: the first's place, the name, and the function's text.
#[tactic(auto, using(crate::proofs::Names::named_on_top))]
fn end_named(
    entries: &mut Stack<Items<Entry>>,
    alloc: Global,
    script: &[u8],
    moment: Moment,
) -> Result<Option<(usize, Items<Name>, Text)>, Memory>
    requires { IsThere entries.old }
    ensures named { IfOk result (λ o. IfSome o (λ f. EndsWithFunction (top [] entries.old) (top [] entries.new) f.0 f.1 × (f.2 ≡ slice script.now f.0 moment.to))) }
    ensures none { IfOk result (λ o. o ≡ None → Is tag.ValueBroken (Value (top [] entries.old)) → ⊥) }
    ensures rest { OnOk result ((below entries.new ≡ below entries.old) × IsThere entries.new) }
{
    let Some(mut all) = entries.pop() else {
        unreachable!();
    };
    let named = named_text(alloc, script, &mut all, moment)?;
    entries.push(all)?;
    Ok(named)
}

#[tactic(auto, using(crate::proofs::Onto::compound_loaded, crate::proofs::Onto::value_loaded, crate::proofs::Onto::compound_on, crate::proofs::Onto::value_on, crate::proofs::MovingR::never_named, crate::proofs::MovingR::never_compound))]
fn close_named_member(
    frames: &mut Frames,
    alloc: Global,
    script: &[u8],
    moment: Moment,
) -> Result<(), Unbuilt>
    ensures grows { GrowsIn script.now (Marked CompoundEnds moment) frames.old frames.new result }
    ensures moves { Moves (tag.Compound ∷ tag.ValueBroken ∷ [], tag.Value ∷ []) frames.old frames.new result }
{
    let Some(Open::Compound(own)) = frames.opened.pop() else {
        return Err(frames.opened.stray());
    };
    let Some(Open::Value) = frames.opened.pop() else {
        return Err(frames.opened.stray());
    };
    let Ok(named) = end_named(&mut frames.texts.entries, alloc, script, moment) else {
        return Err(frames.opened.lost());
    };
    let Some((_from, name, text)) = named else {
        return Err(frames.opened.stray());
    };
    let Some(command) = end_body(
        &mut frames.lists.commands,
        &mut frames.redirections.redirects,
    ) else {
        return Err(frames.opened.stray());
    };
    let Ok(defined) = definition_of(alloc, own, command, name, true, text) else {
        return Err(frames.opened.lost());
    };
    let ready = frames.texts.entries.add(Entry::Function(defined));
    frames.opened.push_after(ready, Open::Value)?;
    Ok(())
}

/// A compound command and the redirections behind it end.
#[tactic(auto, using(crate::proofs::Steps::grows_in, crate::proofs::MovingR::stages_not_value, crate::proofs::MovingR::function_not_value, crate::proofs::MovingR::stages_not_function, crate::proofs::MovingR::broken_not_function))]
pub fn end_compound(
    frames: &mut Frames,
    alloc: Global,
    script: &[u8],
    moment: Moment,
) -> Result<(), Unbuilt>
    ensures grows { GrowsIn script.now (Marked CompoundEnds moment) frames.old frames.new result }
    ensures moves_command { Moves (tag.Compound ∷ tag.Stages ∷ [], tag.Finished ∷ tag.Stages ∷ []) frames.old frames.new result }
    ensures moves_function { Moves (tag.Compound ∷ tag.FunctionName ∷ tag.Stages ∷ [], tag.Finished ∷ tag.Stages ∷ []) frames.old frames.new result }
    ensures moves_member { Moves (tag.Compound ∷ tag.FunctionName ∷ tag.Value ∷ [], tag.Value ∷ []) frames.old frames.new result }
    ensures moves_named { Moves (tag.Compound ∷ tag.ValueBroken ∷ [], tag.Value ∷ []) frames.old frames.new result }
{
    match frames.at(1) {
        Place::FunctionName => end_function(frames, alloc, script, moment),
        Place::Value => close_named_member(frames, alloc, script, moment),
        _ => close_compound(frames, moment),
    }
}

/// The word `typeset` among entries.
#[tactic(auto, using(crate::proofs::Onto::value_loaded))]
pub fn typeset(frames: &mut Frames, sign: Sign, bytes: &[u8]) -> Result<(), Unbuilt>
    ensures grows { Grows (Lexed sign bytes.now) frames.old frames.new result }
    ensures moves_entry { sign.kind ≡ kind.Typeset → Moves (tag.Value ∷ [], tag.Value ∷ []) frames.old frames.new result }
    ensures moves_name { sign.kind ≡ kind.Typeset → Moves (tag.ValueWord ∷ [], tag.ValueTypeset ∷ []) frames.old frames.new result }
{
    if sign.kind != Kind::Typeset {
        return Err(frames.opened.stray());
    }
    let Some(Open::Value) = frames.opened.pop() else {
        return Err(frames.opened.stray());
    };
    let ready = frames.texts.entries.add(Entry::Typeset);
    frames.opened.push_after(ready, Open::Value)?;
    Ok(())
}

/// A newline or `;` among entries.
#[tactic(auto, using(crate::proofs::Onto::value_loaded))]
pub fn break_entries(frames: &mut Frames, sign: Sign, bytes: &[u8]) -> Result<(), Unbuilt>
    ensures grows { Grows (Lexed sign bytes.now) frames.old frames.new result }
    ensures moves_entry { breaks sign.kind ≡ true → Moves (tag.Value ∷ [], tag.Value ∷ []) frames.old frames.new result }
    ensures moves_named { breaks sign.kind ≡ true → Moves (tag.ValueBroken ∷ [], tag.ValueBroken ∷ []) frames.old frames.new result }
{
    if !breaks(sign.kind) {
        return Err(frames.opened.stray());
    }
    let Some(Open::Value) = frames.opened.pop() else {
        return Err(frames.opened.stray());
    };
    let ready = frames.texts.entries.add(Entry::Break);
    frames.opened.push_after(ready, Open::Value)?;
    Ok(())
}

/// The word that a simple command is; nothing where it is more.
#[tactic(auto, using(crate::proofs::Names::one_word, crate::proofs::Names::word_alone, crate::proofs::Names::word_there))]
fn only_word(
    given: Items<Assign>,
    words: Items<Argument>,
    redirects: Items<Redirect<Word>>,
) -> Option<Word>
    ensures one { IfSome result (λ word. IsOneWord given words redirects word) }
    ensures none { result ≡ None → (word : List Piece) → IsOneWord given words redirects word → ⊥ }
{
    if !given.is_empty() {
        return None;
    }
    if !redirects.is_empty() {
        return None;
    }
    let mut front = words;
    let Some(Argument::Word(word)) = front.pop() else {
        return None;
    };
    if !front.is_empty() {
        return None;
    }
    Some(word)
}

/// The bytes of a word that is an unquoted literal.
#[tactic(auto, using(crate::proofs::Names::one_plain, crate::proofs::Names::names_not_none, crate::proofs::Names::names_not_more, crate::proofs::Names::names_not_other, crate::proofs::Names::names_not_quoted, crate::proofs::Names::names_not_empty))]
fn literal_text(word: Word) -> Option<Text>
    ensures text { IfSome result (λ text. word ≡ literal text false) }
    ensures none { result ≡ None → IsNames word → ⊥ }
{
    let mut front = word;
    let Some(last) = front.pop() else {
        return None;
    };
    let Piece::Literal { text, quoted } = last else {
        return None;
    };
    if quoted {
        return None;
    }
    if !front.is_empty() {
        return None;
    }
    if text.is_empty() {
        return None;
    }
    Some(text)
}

/// Takes newlines and `;` from behind entries, and what stands before them.
fn before_breaks(entries: &mut Items<Entry>) -> Option<Entry>
    ensures some { IfSome result (λ e. StandsBehind entries.old entries.new e × (e ≡ entry.Break → ⊥)) }
    ensures none { result ≡ None → are_breaks entries.old ≡ true }
{
    while let Some(entry) = entries.pop() {
        match entry {
            Entry::Break => {}
            other => return Some(other),
        }
    }
    None
}

/// The bytes of an entry that is a word of plain bytes, or `typeset`.
#[tactic(auto, using(crate::proofs::Names::names_by))]
fn word_of(alloc: Global, entry: Entry) -> Result<Option<Text>, Memory>
    ensures some { IfOk result (λ o. IfSome o (λ text. IsWordOf entry text)) }
    ensures none { IfOk result (λ o. o ≡ None → (name : List ℕ) → all_names (names_of name) ≡ true → IsWordOf entry name → ⊥) }
{
    match entry {
        Entry::Word(word, _) => Ok(literal_text(word)),
        Entry::Typeset => Ok(Some(Text::of(alloc, b"typeset")?)),
        _ => Ok(None),
    }
}

/// Takes `function`, a name and newlines from behind entries: the first's place, and the name.
#[tactic(auto, using(crate::proofs::Names::ends_with, crate::proofs::Names::never_breaks, crate::proofs::Names::named_first, crate::proofs::Names::named_other, crate::proofs::Names::named_nothing, crate::proofs::Names::named_quoted, crate::proofs::Names::named_unnamed))]
fn named_function(
    alloc: Global,
    entries: &mut Items<Entry>,
) -> Result<Option<(usize, Items<Name>)>, Memory>
    ensures named { IfOk result (λ o. IfSome o (λ f. EndsWithFunction entries.old entries.new f.0 f.1)) }
    ensures none { IfOk result (λ o. o ≡ None → Is tag.ValueBroken (Value entries.old) → ⊥) }
{
    let Some(named) = before_breaks(entries) else {
        return Ok(None);
    };
    let Some(last) = entries.pop() else {
        return Ok(None);
    };
    let Entry::Word(word, from) = last else {
        return Ok(None);
    };
    let Some(name) = word_of(alloc, named)? else {
        return Ok(None);
    };
    let Some(_word) = literal_text(word) else {
        return Ok(None);
    };
    let Some(names) = names_of(alloc, name.bytes())? else {
        return Ok(None);
    };
    Ok(Some((from, names)))
}

/// The same, and the text of the function from that place to a moment.
fn named_text(
    alloc: Global,
    script: &[u8],
    entries: &mut Items<Entry>,
    moment: Moment,
) -> Result<Option<(usize, Items<Name>, Text)>, Memory>
    ensures named { IfOk result (λ o. IfSome o (λ f. EndsWithFunction entries.old entries.new f.0 f.1 × (f.2 ≡ slice script.now f.0 moment.to))) }
    ensures none { IfOk result (λ o. o ≡ None → Is tag.ValueBroken (Value entries.old) → ⊥) }
{
    let Some((from, names)) = named_function(alloc, entries)? else {
        return Ok(None);
    };
    let text = text_from(alloc, script, from, moment)?;
    Ok(Some((from, names, text)))
}
