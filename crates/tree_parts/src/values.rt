//! Values in parentheses.
ghost use Rattle.std.specs.Prelude.{◌≡◌, ◌++◌, ◌∷◌, [], IfOk, OnOk, Some, None, false};
ghost use Rattle.ksh_ast.specs.declared.tree.Argument.TheVariants as argument;
ghost use Rattle.tree_parts.specs.Values.{are_members, are_pairs, assign_word, assigned_word, declared, entered, members, open_behind, opened, pair_word, pairs, sign_of, typeset_word, value_of, with_argument, with_assign, word_of, words};

use crate::entry::Entry;
use crate::literals::{add_literal, add_pieces, literal_word};
use crate::names::path_word;
use crate::queue::Queue;
use ksh_ast::{Argument, Assign, AssignValue, Member, Pair, Word};
use ksh_base::{Items, Memory};
use std::alloc::Global;

/// Whether a `typeset` is open behind an entry; nothing where the entry is no member.
fn open_behind(is_open: bool, entry: &Entry) -> Option<bool>
    ensures { result ≡ open_behind is_open entry.now }
{
    match entry {
        Entry::Word(_, _) => { if is_open { Some(true) } else { None } }
        Entry::Typeset => Some(true),
        Entry::Assign(_) => Some(is_open),
        Entry::Pair(_) => None,
        Entry::Function(_) => Some(false),
        Entry::Break => Some(false),
    }
}

/// Whether all entries are members.
fn are_members(entries: &[Entry]) -> bool
    ensures { result ≡ are_members (Some false) entries.now }
{
    let mut is_open = false;
    for entry in entries {
        match open_behind(is_open, entry) {
            Some(next) => is_open = next,
            None => return false,
        }
    }
    true
}

/// Whether all entries are pairs.
fn are_pairs(entries: &[Entry]) -> bool
    ensures { result ≡ are_pairs entries.now }
{
    for entry in entries {
        match entry {
            Entry::Pair(_) => {}
            Entry::Break => {}
            _ => return false,
        }
    }
    true
}

/// Adds what a `typeset` declares, where one is open.
#[tactic(auto, using(crate::proofs::Pieces::none_behind))]
fn declare(members: &mut Items<Member>, declaring: Option<Items<Argument>>) -> Result<(), Memory>
    ensures { OnOk result (members.new ≡ members.old ++ declared declaring) }
{
    match declaring {
        Some(words) => {
            members.push(Member::Declare(words))?;
            Ok(())
        }
        None => Ok(()),
    }
}

fn with_argument(
    declaring: Option<Items<Argument>>,
    argument: Argument,
) -> Result<Option<Items<Argument>>, Memory>
    ensures { IfOk result (λ o. o ≡ with_argument declaring argument) }
{
    match declaring {
        Some(words) => {
            let mut words = words;
            words.push(argument)?;
            Ok(Some(words))
        }
        None => Ok(None),
    }
}

/// The words of a `typeset`, which may be one within another.
fn with_typeset(
    alloc: Global,
    declaring: Option<Items<Argument>>,
) -> Result<Items<Argument>, Memory>
    ensures { IfOk result (λ ws. ws ≡ opened declaring ++ argument.Word typeset_word ∷ []) }
{
    let mut words = match declaring {
        Some(words) => words,
        None => Items::new(alloc),
    };
    words.push(Argument::Word(literal_word(alloc, b"typeset", false)?))?;
    Ok(words)
}

/// Adds an assignment: to the open `typeset`, or else as a member.
#[tactic(auto, using(crate::proofs::Pieces::none_behind))]
fn with_assign(
    members: &mut Items<Member>,
    declaring: Option<Items<Argument>>,
    assign: Assign,
) -> Result<Option<Items<Argument>>, Memory>
    ensures { IfOk result (λ o. (members.new ≡ members.old ++ (with_assign declaring assign).0) × (o ≡ (with_assign declaring assign).1)) }
{
    match declaring {
        Some(words) => Ok(with_argument(Some(words), Argument::Assign(assign))?),
        None => {
            members.push(Member::Assign(assign))?;
            Ok(None)
        }
    }
}

/// Adds the members that an entry gives, and answers the words of a `typeset` that isn't over.
#[tactic(auto, using(crate::proofs::Pieces::none_behind, crate::proofs::Pieces::two_lists))]
fn enter(
    alloc: Global,
    members: &mut Items<Member>,
    declaring: Option<Items<Argument>>,
    entry: Entry,
) -> Result<Option<Items<Argument>>, Memory>
    ensures { IfOk result (λ o. (members.new ≡ members.old ++ (entered declaring entry).0) × (o ≡ (entered declaring entry).1)) }
{
    match entry {
        Entry::Word(word, _) => Ok(with_argument(declaring, Argument::Word(word))?),
        Entry::Typeset => Ok(Some(with_typeset(alloc, declaring)?)),
        Entry::Assign(assign) => Ok(with_assign(members, declaring, assign)?),
        Entry::Pair(_) => Ok(declaring),
        Entry::Function(definition) => {
            declare(members, declaring)?;
            members.push(Member::Function(definition))?;
            Ok(None)
        }
        Entry::Break => {
            declare(members, declaring)?;
            Ok(None)
        }
    }
}

/// The members that the entries are.
fn members_of(alloc: Global, entries: Items<Entry>) -> Result<Items<Member>, Memory>
    ensures { IfOk result (λ ms. ms ≡ members None entries) }
{
    let mut left = Queue::of(alloc, entries)?;
    let mut found = Items::new(alloc);
    let mut declaring = None;
    while let Some(entry) = left.next() {
        declaring = enter(alloc, &mut found, declaring, entry)?;
    }
    declare(&mut found, declaring)?;
    Ok(found)
}

/// The pairs among the entries.
fn pairs_of(alloc: Global, entries: Items<Entry>) -> Result<Items<Pair<Word>>, Memory>
    ensures { IfOk result (λ ps. ps ≡ pairs entries) }
{
    let mut left = Queue::of(alloc, entries)?;
    let mut found = Items::new(alloc);
    while let Some(entry) = left.next() {
        match entry {
            Entry::Pair(pair) => found.push(pair)?,
            _ => {}
        }
    }
    Ok(found)
}

/// `+=`, or `=`.
fn sign_of(append: bool) -> &'static [u8]
    ensures { result.now ≡ sign_of append }
{
    if append { b"+=" } else { b"=" }
}

/// The word that an assignment is.
fn assign_word(alloc: Global, assign: Assign) -> Result<Word, Memory>
    ensures { IfOk result (λ w. w ≡ assign_word assign) }
{
    let Assign {
        path,
        append,
        value,
    } = assign;
    let mut word = path_word(alloc, path)?;
    add_literal(alloc, &mut word, sign_of(append), false)?;
    match value {
        AssignValue::Word(more) => {
            add_pieces(alloc, &mut word, more)?;
            Ok(word)
        }
        _ => Ok(word),
    }
}

/// The word that a pair is.
fn pair_word(alloc: Global, pair: Pair<Word>) -> Result<Word, Memory>
    ensures { IfOk result (λ w. w ≡ pair_word pair) }
{
    let Pair { subscript, value } = pair;
    let mut word = literal_word(alloc, b"[", false)?;
    add_pieces(alloc, &mut word, subscript)?;
    add_literal(alloc, &mut word, b"]=", false)?;
    add_pieces(alloc, &mut word, value)?;
    Ok(word)
}

/// Adds the word that an entry is, if it is one.
#[tactic(auto, using(crate::proofs::Pieces::none_behind))]
fn add_word(alloc: Global, words: &mut Items<Word>, entry: Entry) -> Result<(), Memory>
    ensures { OnOk result (words.new ≡ words.old ++ word_of entry) }
{
    let word = match entry {
        Entry::Word(word, _) => word,
        Entry::Typeset => literal_word(alloc, b"typeset", false)?,
        Entry::Assign(assign) => assign_word(alloc, assign)?,
        Entry::Pair(pair) => pair_word(alloc, pair)?,
        Entry::Function(_) => return Ok(()),
        Entry::Break => return Ok(()),
    };
    words.push(word)?;
    Ok(())
}

/// The words that the entries are.
fn words_of(alloc: Global, entries: Items<Entry>) -> Result<Items<Word>, Memory>
    ensures { IfOk result (λ ws. ws ≡ words entries) }
{
    let mut left = Queue::of(alloc, entries)?;
    let mut found = Items::new(alloc);
    while let Some(entry) = left.next() {
        add_word(alloc, &mut found, entry)?;
    }
    Ok(found)
}

/// What stands in parentheses: members where all entries are some, else pairs where all are some, else words.
pub fn value_of(alloc: Global, entries: Items<Entry>) -> Result<AssignValue, Memory>
    ensures { IfOk result (λ v. v ≡ value_of entries) }
{
    if are_members(entries.as_slice()) {
        return Ok(AssignValue::Members(members_of(alloc, entries)?));
    }
    if are_pairs(entries.as_slice()) {
        return Ok(AssignValue::Pairs(pairs_of(alloc, entries)?));
    }
    Ok(AssignValue::Words(words_of(alloc, entries)?))
}
