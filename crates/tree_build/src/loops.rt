//! `for`, `select` and `case`.
ghost use Rattle.ksh_syntax.specs.declared.kind.Kind.TheVariants as kind;
ghost use Rattle.tree_build.specs.Fits.{Fits, Moves};
ghost use Rattle.tree_build.specs.Loads.{Loads, frames_of};
ghost use Rattle.tree_moves.specs.Tags.{Tag};
ghost use Rattle.tree_build.specs.Tables.{ends_item, ends_part, is_word};
ghost use Rattle.tree_moves.specs.Tags as tag;
ghost use Rattle.tree_parts.specs.Parts.{is_name};
ghost use Rattle.std.specs.Prelude.{◌≡◌, [], ◌∷◌, ◌++◌, IfOk, IfSome, false, None, true, length, List};
ghost use Rattle.ksh_ast.specs.declared.tree.Command.TheVariants.{Case};
ghost use Rattle.tree_build.specs.Counts.{Counts};
ghost use Rattle.tree_build.specs.Frames.{Grows};
ghost use Rattle.tree_build.specs.Heard.{Lexed};
ghost use Rattle.tree_build.specs.Reads.{case_item, repeated, breaks};
ghost use Rattle.tree_build.specs.declared.opening.Open.TheVariants.{Cases, Listed, Patterns};

use crate::begins::open_list;
use crate::compounds::push_compound;
use crate::frames::Frames;
use crate::opening::{Open, Opening};
use crate::place::Place;
use crate::stack::Stack;
use crate::tables::{breaks, ends_item, ends_part, is_word};
use crate::texts::open_text;
use crate::unbuilt::Unbuilt;
use ksh_ast::{Arith, CaseItem, Command, List, Word};
use ksh_base::{Items, Memory, Name};
use ksh_syntax::Kind;
use std::alloc::Global;
use tree_parts::{Sign, name_of, part_of_for};

/// The name of `for` or `select`.
#[tactic(auto, using(crate::proofs::Compounding::reads_for_name, crate::proofs::Onto::for_on, crate::proofs::Onto::for_name_on, crate::proofs::Onto::for_loaded, crate::proofs::MovingR::moves_for, crate::proofs::MovingR::moves_select))]
pub fn for_name(frames: &mut Frames, alloc: Global, sign: Sign, bytes: &[u8]) -> Result<(), Unbuilt>
    ensures grows { Grows (Lexed sign bytes.now) frames.old frames.new result }
    ensures moves_for { is_word sign.kind ≡ true → is_name bytes.now ≡ true → Moves (tag.ForLoop ∷ [], tag.ForName ∷ []) frames.old frames.new result }
    ensures moves_select { is_word sign.kind ≡ true → is_name bytes.now ≡ true → Moves (tag.ForSelect ∷ [], tag.ForName ∷ []) frames.old frames.new result }
{
    if !is_word(sign.kind) {
        return Err(frames.opened.stray());
    }
    let Ok(read) = name_of(alloc, bytes) else {
        return Err(frames.opened.lost());
    };
    let Some(name) = read else {
        return Err(frames.opened.stray());
    };
    let Some(Open::Opened(Opening::For(line, select))) = frames.opened.pop() else {
        return Err(frames.opened.stray());
    };
    let ready = frames.compounds.names.push(name);
    frames
        .opened
        .push_after(ready, Open::ForName(line, select))?;
    Ok(())
}

/// `in` behind the name.
#[tactic(auto, using(crate::proofs::Compounding::reads_for_in, crate::proofs::Onto::for_name_on, crate::proofs::Onto::for_words_on, crate::proofs::Onto::for_name_loaded, crate::proofs::MovingR::moves_for_in))]
pub fn for_in(frames: &mut Frames, alloc: Global, sign: Sign, bytes: &[u8]) -> Result<(), Unbuilt>
    ensures grows { Grows (Lexed sign bytes.now) frames.old frames.new result }
    ensures moves { sign.kind ≡ kind.In → Moves (tag.ForName ∷ [], tag.ForWords ∷ []) frames.old frames.new result }
{
    if sign.kind != Kind::In {
        return Err(frames.opened.stray());
    }
    let Some(Open::ForName(line, select)) = frames.opened.pop() else {
        return Err(frames.opened.stray());
    };
    let ready = frames.compounds.word_lists.push(Items::new(alloc));
    frames
        .opened
        .push_after(ready, Open::ForWords(line, select))?;
    Ok(())
}

/// `do` behind the name.
#[tactic(auto, using(crate::proofs::Compounding::reads_for_do, crate::proofs::Onto::for_name_on, crate::proofs::Onto::for_body_on, crate::proofs::Onto::for_name_loaded, crate::proofs::MovingR::moves_do_name))]
fn do_name(frames: &mut Frames, sign: Sign, bytes: &[u8]) -> Result<(), Unbuilt>
    ensures grows { Grows (Lexed sign bytes.now) frames.old frames.new result }
    ensures moves { sign.kind ≡ kind.Do → Moves (tag.ForName ∷ [], tag.ForBody ∷ []) frames.old frames.new result }
{
    if sign.kind != Kind::Do {
        return Err(frames.opened.stray());
    }
    let Some(Open::ForName(line, select)) = frames.opened.pop() else {
        return Err(frames.opened.stray());
    };
    let ready = frames.compounds.optional_words.push(None);
    frames
        .opened
        .push_after(ready, Open::ForBody(line, select))?;
    Ok(())
}

/// `do` behind the words.
#[tactic(auto, using(crate::proofs::Compounding::reads_for_words_do, crate::proofs::Onto::for_ready_on, crate::proofs::Onto::for_body_on, crate::proofs::Onto::for_ready_loaded, crate::proofs::MovingR::moves_do_words))]
fn do_words(frames: &mut Frames, sign: Sign, bytes: &[u8]) -> Result<(), Unbuilt>
    ensures grows { Grows (Lexed sign bytes.now) frames.old frames.new result }
    ensures moves { sign.kind ≡ kind.Do → Moves (tag.ForReady ∷ [], tag.ForBody ∷ []) frames.old frames.new result }
{
    if sign.kind != Kind::Do {
        return Err(frames.opened.stray());
    }
    let Some(Open::ForReady(line, select)) = frames.opened.pop() else {
        return Err(frames.opened.stray());
    };
    let Some(words) = frames.compounds.word_lists.pop() else {
        unreachable!();
    };
    let ready = frames.compounds.optional_words.push(Some(words));
    frames
        .opened
        .push_after(ready, Open::ForBody(line, select))?;
    Ok(())
}

/// `do` behind `for ((`.
#[tactic(auto, using(crate::proofs::Compounding::reads_for_arithmetic_do, crate::proofs::Onto::for_arithmetic_on, crate::proofs::Onto::for_arithmetic_body_on, crate::proofs::Onto::for_arithmetic_loaded, crate::proofs::MovingR::moves_do_parts))]
fn do_parts(frames: &mut Frames, sign: Sign, bytes: &[u8]) -> Result<(), Unbuilt>
    ensures grows { Grows (Lexed sign bytes.now) frames.old frames.new result }
    ensures moves { sign.kind ≡ kind.Do → Moves (tag.ForArithmeticThree ∷ [], tag.ForArithmeticBody ∷ []) frames.old frames.new result }
{
    if sign.kind != Kind::Do {
        return Err(frames.opened.stray());
    }
    let Some(Open::ForArithmetic(line)) = frames.opened.pop() else {
        return Err(frames.opened.stray());
    };
    frames
        .opened
        .push_after(Ok(()), Open::ForArithmeticBody(line))?;
    Ok(())
}

#[tactic(auto, using(crate::proofs::MovingR::ready_not_name, crate::proofs::MovingR::parts_not_name, crate::proofs::MovingR::name_not_ready, crate::proofs::MovingR::parts_not_ready))]
fn end_for_words(frames: &mut Frames, sign: Sign, bytes: &[u8]) -> Result<(), Unbuilt>
    ensures grows { Grows (Lexed sign bytes.now) frames.old frames.new result }
    ensures moves_name { sign.kind ≡ kind.Do → Moves (tag.ForName ∷ [], tag.ForBody ∷ []) frames.old frames.new result }
    ensures moves_words { sign.kind ≡ kind.Do → Moves (tag.ForReady ∷ [], tag.ForBody ∷ []) frames.old frames.new result }
    ensures moves_parts { sign.kind ≡ kind.Do → Moves (tag.ForArithmeticThree ∷ [], tag.ForArithmeticBody ∷ []) frames.old frames.new result }
{
    match frames.at(0) {
        Place::ForName => do_name(frames, sign, bytes),
        Place::ForReady => do_words(frames, sign, bytes),
        _ => do_parts(frames, sign, bytes),
    }
}

/// The newline or `;` behind the words of `for` or `select`.
#[tactic(auto, using(crate::proofs::Compounding::reads_for_words_end, crate::proofs::Onto::for_words_on, crate::proofs::Onto::for_ready_on, crate::proofs::Onto::for_words_loaded, crate::proofs::MovingR::moves_end_words))]
pub fn end_words(frames: &mut Frames, sign: Sign, bytes: &[u8]) -> Result<(), Unbuilt>
    ensures grows { Grows (Lexed sign bytes.now) frames.old frames.new result }
    ensures moves { breaks sign.kind ≡ true → Moves (tag.ForWords ∷ [], tag.ForReady ∷ []) frames.old frames.new result }
{
    if !breaks(sign.kind) {
        return Err(frames.opened.stray());
    }
    let Some(Open::ForWords(line, select)) = frames.opened.pop() else {
        return Err(frames.opened.stray());
    };
    frames
        .opened
        .push_after(Ok(()), Open::ForReady(line, select))?;
    Ok(())
}

/// The `do` of `for` or `select`.
#[tactic(auto, using(crate::proofs::Steps::grows_stays, crate::proofs::MovingR::fails_as))]
pub fn do_for(frames: &mut Frames, alloc: Global, sign: Sign, bytes: &[u8]) -> Result<(), Unbuilt>
    ensures grows { Grows (Lexed sign bytes.now) frames.old frames.new result }
    ensures moves_name { sign.kind ≡ kind.Do → Moves (tag.ForName ∷ [], tag.Lines ∷ tag.ForBody ∷ []) frames.old frames.new result }
    ensures moves_words { sign.kind ≡ kind.Do → Moves (tag.ForReady ∷ [], tag.Lines ∷ tag.ForBody ∷ []) frames.old frames.new result }
    ensures moves_parts { sign.kind ≡ kind.Do → Moves (tag.ForArithmeticThree ∷ [], tag.Lines ∷ tag.ForArithmeticBody ∷ []) frames.old frames.new result }
{
    end_for_words(frames, sign, bytes)?;
    open_list(frames, alloc)
}

/// `for`, or `select`.
fn repeated(
    alloc: Global,
    select: bool,
    name: Name,
    words: Option<Items<Word>>,
    body: List,
) -> Command
    ensures { result ≡ repeated select name words body }
{
    let redirects = Items::new(alloc);
    if select {
        return Command::Select {
            name,
            words,
            body,
            redirects,
        };
    }
    Command::For {
        name,
        words,
        body,
        redirects,
    }
}

/// The `done` of `for` or `select`.
#[tactic(auto, using(crate::proofs::Onto::listed_loaded, crate::proofs::Onto::for_body_loaded))]
pub fn end_for(frames: &mut Frames, alloc: Global, sign: Sign, bytes: &[u8]) -> Result<(), Unbuilt>
    ensures grows { Grows (Lexed sign bytes.now) frames.old frames.new result }
    ensures moves { sign.kind ≡ kind.Done → Moves (tag.Listed ∷ tag.ForBody ∷ [], tag.Compound ∷ []) frames.old frames.new result }
{
    if sign.kind != Kind::Done {
        return Err(frames.opened.stray());
    }
    let Some(Open::Listed) = frames.opened.pop() else {
        return Err(frames.opened.stray());
    };
    let Some(Open::ForBody(line, select)) = frames.opened.pop() else {
        return Err(frames.opened.stray());
    };
    let Some(body) = frames.lists.lists.pop() else {
        unreachable!();
    };
    let Some(name) = frames.compounds.names.pop() else {
        unreachable!();
    };
    let Some(words) = frames.compounds.optional_words.pop() else {
        unreachable!();
    };
    let command = repeated(alloc, select, name, words, body);
    let ready = push_compound(
        &mut frames.lists.commands,
        &mut frames.redirections.redirects,
        alloc,
        command,
    );
    frames.opened.push_after(ready, Open::Compound(line))?;
    Ok(())
}

#[tactic(auto, using(crate::proofs::Compounding::reads_for_arithmetic, crate::proofs::Onto::for_on, crate::proofs::Onto::for_arithmetic_on, crate::proofs::Onto::for_loaded, crate::proofs::MovingR::moves_for_arithmetic))]
fn open_for_arithmetic(
    frames: &mut Frames,
    alloc: Global,
    sign: Sign,
    bytes: &[u8],
) -> Result<(), Unbuilt>
    ensures grows { Grows (Lexed sign bytes.now) frames.old frames.new result }
    ensures moves { sign.kind ≡ kind.DoubleParenthesis → Moves (tag.ForLoop ∷ [], tag.ForArithmeticNone ∷ []) frames.old frames.new result }
{
    if sign.kind != Kind::DoubleParenthesis {
        return Err(frames.opened.stray());
    }
    let Some(Open::Opened(Opening::For(line, false))) = frames.opened.pop() else {
        return Err(frames.opened.stray());
    };
    let ready = frames.compounds.parts.push(Items::new(alloc));
    frames.opened.push_after(ready, Open::ForArithmetic(line))?;
    Ok(())
}

/// The `((` of `for`.
#[tactic(auto, using(crate::proofs::Steps::grows_stays, crate::proofs::MovingR::fails_as))]
pub fn begin_for_arithmetic(
    frames: &mut Frames,
    alloc: Global,
    sign: Sign,
    bytes: &[u8],
) -> Result<(), Unbuilt>
    ensures grows { Grows (Lexed sign bytes.now) frames.old frames.new result }
    ensures moves { sign.kind ≡ kind.DoubleParenthesis → Moves (tag.ForLoop ∷ [], tag.Text ∷ tag.ForArithmeticNone ∷ []) frames.old frames.new result }
{
    open_for_arithmetic(frames, alloc, sign, bytes)?;
    open_text(frames, alloc)
}

/// The end of an expression of `for ((`.
#[tactic(auto, using(crate::proofs::Onto::text_loaded, crate::proofs::Onto::for_arithmetic_loaded))]
pub fn close_for_part(
    frames: &mut Frames,
    alloc: Global,
    sign: Sign,
    bytes: &[u8],
) -> Result<(), Unbuilt>
    ensures grows { Grows (Lexed sign bytes.now) frames.old frames.new result }
    ensures moves_first { ends_part sign.kind ≡ true → Moves (tag.Text ∷ tag.ForArithmeticNone ∷ [], tag.ForArithmeticOne ∷ []) frames.old frames.new result }
    ensures moves_second { ends_part sign.kind ≡ true → Moves (tag.Text ∷ tag.ForArithmeticOne ∷ [], tag.ForArithmeticTwo ∷ []) frames.old frames.new result }
    ensures moves_third { ends_part sign.kind ≡ true → Moves (tag.Text ∷ tag.ForArithmeticTwo ∷ [], tag.ForArithmeticThree ∷ []) frames.old frames.new result }
{
    if !ends_part(sign.kind) {
        return Err(frames.opened.stray());
    }
    let Some(Open::Text) = frames.opened.pop() else {
        return Err(frames.opened.stray());
    };
    let Some(Open::ForArithmetic(line)) = frames.opened.pop() else {
        return Err(frames.opened.stray());
    };
    let Some(pieces) = frames.texts.words.pop() else {
        unreachable!();
    };
    let Ok(part) = part_of_for(alloc, pieces) else {
        return Err(frames.opened.lost());
    };
    let ready = frames.compounds.parts.add(part);
    frames.opened.push_after(ready, Open::ForArithmetic(line))?;
    Ok(())
}

/// What parts the expressions of `for ((`.
#[tactic(auto, using(crate::proofs::Steps::grows_stays, crate::proofs::MovingR::fails_as))]
pub fn part_for(frames: &mut Frames, alloc: Global, sign: Sign, bytes: &[u8]) -> Result<(), Unbuilt>
    ensures grows { Grows (Lexed sign bytes.now) frames.old frames.new result }
    ensures moves_first { ends_part sign.kind ≡ true → Moves (tag.Text ∷ tag.ForArithmeticNone ∷ [], tag.Text ∷ tag.ForArithmeticOne ∷ []) frames.old frames.new result }
    ensures moves_second { ends_part sign.kind ≡ true → Moves (tag.Text ∷ tag.ForArithmeticOne ∷ [], tag.Text ∷ tag.ForArithmeticTwo ∷ []) frames.old frames.new result }
{
    close_for_part(frames, alloc, sign, bytes)?;
    open_text(frames, alloc)
}

/// `for ((` of its expressions and its list; nothing where they aren't three.
#[tactic(auto, using(crate::proofs::Parts::counts, crate::proofs::Parts::three_or_none, crate::proofs::Parts::three_or_one, crate::proofs::Parts::three_or_two))]
fn counted(alloc: Global, parts: Items<Option<Arith>>, body: List) -> Option<Command>
    ensures counts { IfSome result (λ c. Counts parts body c) }
    ensures none { result ≡ None → length parts ≡ 3 → ⊥ }
{
    if parts.len() != 3 {
        return None;
    }
    let mut front = parts;
    let Some(step) = front.pop() else {
        unreachable!();
    };
    let Some(test) = front.pop() else {
        unreachable!();
    };
    let Some(first) = front.pop() else {
        unreachable!();
    };
    Some(Command::ForArith {
        first,
        test,
        step,
        body,
        redirects: Items::new(alloc),
    })
}

/// The `done` of `for ((`.
#[tactic(auto, using(crate::proofs::Onto::listed_loaded, crate::proofs::Onto::for_arithmetic_body_loaded))]
pub fn end_for_arithmetic(
    frames: &mut Frames,
    alloc: Global,
    sign: Sign,
    bytes: &[u8],
) -> Result<(), Unbuilt>
    ensures grows { Grows (Lexed sign bytes.now) frames.old frames.new result }
    ensures moves { sign.kind ≡ kind.Done → Moves (tag.Listed ∷ tag.ForArithmeticBody ∷ [], tag.Compound ∷ []) frames.old frames.new result }
{
    if sign.kind != Kind::Done {
        return Err(frames.opened.stray());
    }
    let Some(Open::Listed) = frames.opened.pop() else {
        return Err(frames.opened.stray());
    };
    let Some(Open::ForArithmeticBody(line)) = frames.opened.pop() else {
        return Err(frames.opened.stray());
    };
    let Some(body) = frames.lists.lists.pop() else {
        unreachable!();
    };
    let Some(parts) = frames.compounds.parts.pop() else {
        unreachable!();
    };
    let Some(command) = counted(alloc, parts, body) else {
        return Err(frames.opened.stray());
    };
    let ready = push_compound(
        &mut frames.lists.commands,
        &mut frames.redirections.redirects,
        alloc,
        command,
    );
    frames.opened.push_after(ready, Open::Compound(line))?;
    Ok(())
}

/// `in` behind the word of `case`.
#[tactic(auto, using(crate::proofs::Compounding::reads_case_in, crate::proofs::Onto::case_word_on, crate::proofs::Onto::cases_on, crate::proofs::Onto::case_word_loaded, crate::proofs::MovingR::moves_case_in))]
pub fn case_in(frames: &mut Frames, alloc: Global, sign: Sign, bytes: &[u8]) -> Result<(), Unbuilt>
    ensures grows { Grows (Lexed sign bytes.now) frames.old frames.new result }
    ensures moves { sign.kind ≡ kind.In → Moves (tag.CaseWord ∷ [], tag.Cases ∷ []) frames.old frames.new result }
{
    if sign.kind != Kind::In {
        return Err(frames.opened.stray());
    }
    let Some(Open::CaseWord(line)) = frames.opened.pop() else {
        return Err(frames.opened.stray());
    };
    let ready = frames.compounds.cases.push(Items::new(alloc));
    frames.opened.push_after(ready, Open::Cases(line))?;
    Ok(())
}

/// Takes away the list and the patterns of an item, and their `case`; answers the line of that.
fn pop_item(opened: &mut Stack<Open>) -> Option<u32>
    ensures some { IfSome result (λ line. opened.old ≡ Listed ∷ Patterns ∷ Cases line ∷ opened.new) }
    ensures none { result ≡ None → (b : Loads) (rest : List Tag) → Fits (tag.Listed ∷ tag.Patterns ∷ tag.Cases ∷ rest) (frames_of opened.old b) → ⊥ }
{
    let Some(Open::Listed) = opened.pop() else {
        return None;
    };
    let Some(Open::Patterns) = opened.pop() else {
        return None;
    };
    let Some(Open::Cases(line)) = opened.pop() else {
        return None;
    };
    Some(line)
}

/// `;;` or `;&`
#[tactic(auto, using(crate::proofs::Onto::listed_loaded, crate::proofs::Onto::patterns_loaded, crate::proofs::Onto::cases_loaded))]
pub fn end_item(frames: &mut Frames, sign: Sign, bytes: &[u8]) -> Result<(), Unbuilt>
    ensures grows { Grows (Lexed sign bytes.now) frames.old frames.new result }
    ensures moves { (ends_item sign.kind ≡ None → ⊥) → Moves (tag.Listed ∷ tag.Patterns ∷ tag.Cases ∷ [], tag.Cases ∷ []) frames.old frames.new result }
{
    let Some(falls) = ends_item(sign.kind) else {
        return Err(frames.opened.stray());
    };
    let Some(line) = pop_item(&mut frames.opened) else {
        return Err(frames.opened.stray());
    };
    let Some(body) = frames.lists.lists.pop() else {
        unreachable!();
    };
    let Some(patterns) = frames.compounds.word_lists.pop() else {
        unreachable!();
    };
    let ready = frames.compounds.cases.add(CaseItem {
        patterns,
        body,
        falls,
    });
    frames.opened.push_after(ready, Open::Cases(line))?;
    Ok(())
}

/// `case` with one more item behind the others, that `esac` ends.
fn case_of(
    alloc: Global,
    word: Word,
    items: Items<CaseItem>,
    patterns: Items<Word>,
    body: List,
) -> Result<Command, Memory>
    ensures { IfOk result (λ c. c ≡ Case word (items ++ case_item patterns body false ∷ []) []) }
{
    let mut all = items;
    all.push(CaseItem {
        patterns,
        body,
        falls: false,
    })?;
    Ok(Command::Case {
        word,
        items: all,
        redirects: Items::new(alloc),
    })
}

/// `esac` behind a list.
#[tactic(auto, using(crate::proofs::Onto::listed_loaded, crate::proofs::Onto::patterns_loaded, crate::proofs::Onto::cases_loaded))]
pub fn end_case_list(
    frames: &mut Frames,
    alloc: Global,
    sign: Sign,
    bytes: &[u8],
) -> Result<(), Unbuilt>
    ensures grows { Grows (Lexed sign bytes.now) frames.old frames.new result }
    ensures moves { sign.kind ≡ kind.Esac → Moves (tag.Listed ∷ tag.Patterns ∷ tag.Cases ∷ [], tag.Compound ∷ []) frames.old frames.new result }
{
    if sign.kind != Kind::Esac {
        return Err(frames.opened.stray());
    }
    let Some(line) = pop_item(&mut frames.opened) else {
        return Err(frames.opened.stray());
    };
    let Some(body) = frames.lists.lists.pop() else {
        unreachable!();
    };
    let Some(patterns) = frames.compounds.word_lists.pop() else {
        unreachable!();
    };
    let Some(word) = frames.texts.words.pop() else {
        unreachable!();
    };
    let Some(items) = frames.compounds.cases.pop() else {
        unreachable!();
    };
    let Ok(command) = case_of(alloc, word, items, patterns, body) else {
        return Err(frames.opened.lost());
    };
    let ready = push_compound(
        &mut frames.lists.commands,
        &mut frames.redirections.redirects,
        alloc,
        command,
    );
    frames.opened.push_after(ready, Open::Compound(line))?;
    Ok(())
}

/// `esac` behind an item.
#[tactic(auto, using(crate::proofs::Compounding::reads_case_ends, crate::proofs::Onto::cases_on, crate::proofs::Onto::compound_on, crate::proofs::Onto::cases_loaded, crate::proofs::MovingR::moves_case_ends))]
pub fn end_case(frames: &mut Frames, alloc: Global, sign: Sign, bytes: &[u8]) -> Result<(), Unbuilt>
    ensures grows { Grows (Lexed sign bytes.now) frames.old frames.new result }
    ensures moves { sign.kind ≡ kind.Esac → Moves (tag.Cases ∷ [], tag.Compound ∷ []) frames.old frames.new result }
{
    if sign.kind != Kind::Esac {
        return Err(frames.opened.stray());
    }
    let Some(Open::Cases(line)) = frames.opened.pop() else {
        return Err(frames.opened.stray());
    };
    let Some(word) = frames.texts.words.pop() else {
        unreachable!();
    };
    let Some(items) = frames.compounds.cases.pop() else {
        unreachable!();
    };
    let command = Command::Case {
        word,
        items,
        redirects: Items::new(alloc),
    };
    let ready = push_compound(
        &mut frames.lists.commands,
        &mut frames.redirections.redirects,
        alloc,
        command,
    );
    frames.opened.push_after(ready, Open::Compound(line))?;
    Ok(())
}
