//! Copies of assignments and arguments. Functions are shared.
ghost use Rattle.std.specs.Prelude.{◌≡◌, IfOk};

use crate::tree::{Argument, Assign, AssignValue, Member, Pair, Word};
use crate::word_copies::{copy_path, copy_word};
use ksh_base::{Items, Memory};
use std::alloc::Global;

/// Copies of the words.
pub fn copy_words(alloc: Global, words: &[Word]) -> Result<Items<Word>, Memory>
    ensures { IfOk result (λ c. c ≡ words.now) }
{
    let mut copies = Items::new(alloc);
    for word in words {
        copies.push(copy_word(alloc, word)?)?;
    }
    Ok(copies)
}

fn copy_pair(alloc: Global, pair: &Pair<Word>) -> Result<Pair<Word>, Memory>
    ensures { IfOk result (λ c. c ≡ pair.now) }
{
    let subscript = copy_word(alloc, &pair.subscript)?;
    let value = copy_word(alloc, &pair.value)?;
    Ok(Pair { subscript, value })
}

fn copy_pairs(alloc: Global, pairs: &[Pair<Word>]) -> Result<Items<Pair<Word>>, Memory>
    ensures { IfOk result (λ c. c ≡ pairs.now) }
{
    let mut copies = Items::new(alloc);
    for pair in pairs {
        copies.push(copy_pair(alloc, pair)?)?;
    }
    Ok(copies)
}

/// A copy of the assignment.
#[cycle(assigns)]
pub fn copy_assign(alloc: Global, assign: &Assign) -> Result<Assign, Memory>
    ensures { IfOk result (λ c. c ≡ assign.now) }
{
    let path = copy_path(alloc, &assign.path)?;
    let value = copy_value(alloc, &assign.value)?;
    Ok(Assign {
        path,
        append: assign.append,
        value,
    })
}

#[cycle(assigns)]
fn copy_value(alloc: Global, value: &AssignValue) -> Result<AssignValue, Memory>
    ensures { IfOk result (λ c. c ≡ value.now) }
{
    match value {
        AssignValue::Word(word) => Ok(AssignValue::Word(copy_word(alloc, word)?)),
        AssignValue::Words(words) => Ok(AssignValue::Words(copy_words(alloc, words.as_slice())?)),
        AssignValue::Pairs(pairs) => Ok(AssignValue::Pairs(copy_pairs(alloc, pairs.as_slice())?)),
        AssignValue::Members(members) => Ok(AssignValue::Members(copy_members(
            alloc,
            members.as_slice(),
        )?)),
    }
}

#[cycle(assigns)]
fn copy_members(alloc: Global, members: &[Member]) -> Result<Items<Member>, Memory>
    ensures { IfOk result (λ c. c ≡ members.now) }
{
    let mut copies = Items::new(alloc);
    for member in members {
        copies.push(copy_member(alloc, member)?)?;
    }
    Ok(copies)
}

#[cycle(assigns)]
fn copy_member(alloc: Global, member: &Member) -> Result<Member, Memory>
    ensures { IfOk result (λ c. c ≡ member.now) }
{
    match member {
        Member::Assign(assign) => Ok(Member::Assign(copy_assign(alloc, assign)?)),
        Member::Declare(arguments) => Ok(Member::Declare(copy_arguments(
            alloc,
            arguments.as_slice(),
        )?)),
        Member::Function(definition) => Ok(Member::Function(definition.copy()?)),
    }
}

#[cycle(assigns)]
fn copy_argument(alloc: Global, argument: &Argument) -> Result<Argument, Memory>
    ensures { IfOk result (λ c. c ≡ argument.now) }
{
    match argument {
        Argument::Word(word) => Ok(Argument::Word(copy_word(alloc, word)?)),
        Argument::Assign(assign) => Ok(Argument::Assign(copy_assign(alloc, assign)?)),
    }
}

/// Copies of the arguments.
#[cycle(assigns)]
pub fn copy_arguments(alloc: Global, arguments: &[Argument]) -> Result<Items<Argument>, Memory>
    ensures { IfOk result (λ c. c ≡ arguments.now) }
{
    let mut copies = Items::new(alloc);
    for argument in arguments {
        copies.push(copy_argument(alloc, argument)?)?;
    }
    Ok(copies)
}

/// Copies of the assignments.
pub fn copy_assigns(alloc: Global, assigns: &[Assign]) -> Result<Items<Assign>, Memory>
    ensures { IfOk result (λ c. c ≡ assigns.now) }
{
    let mut copies = Items::new(alloc);
    for assign in assigns {
        copies.push(copy_assign(alloc, assign)?)?;
    }
    Ok(copies)
}
