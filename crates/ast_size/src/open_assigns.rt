//! Parts of assignments and arguments, one level at a time.
ghost use Rattle.std.specs.Prelude.{IfOk, ◌≡◌, ◌+◌, map};
ghost use Rattle.ast_size.specs.Parts.{size_of, Adds};
ghost use Rattle.ast_size.specs.Size.{total, size_of_value, size_of_assign, size_of_member, size_of_argument};

use crate::left::Left;
use crate::part::{Part, list_part, word_part};
use ksh_ast::{Argument, Assign, AssignValue, Member};
use ksh_base::Memory;

/// One of them, and the others.
pub fn open_assigns<'a>(assigns: &'a [Assign], left: &mut Left<'a>) -> Result<u64, Memory>
    ensures { IfOk result (λ nodes. Adds nodes (total (map size_of_assign assigns.now)) left.old left.new) }
{
    let Some((first, rest)) = assigns.split_first() else {
        return Ok(0);
    };
    left.put(0, Part::Assign(first), Part::Assigns(rest), Part::Nothing)
}

/// An assignment, its path and its value.
#[tactic(auto, using(crate::proofs::Levels::assign_parts, crate::proofs::Levels::path_parts))]
pub fn open_assign<'a>(assign: &'a Assign, left: &mut Left<'a>) -> Result<u64, Memory>
    ensures { IfOk result (λ nodes. Adds nodes (size_of_assign assign.now) left.old left.new) }
{
    let path = Part::Path(assign.path.parts.as_slice());
    left.put(1, path, inside_value(&assign.value), Part::Nothing)
}

#[tactic(auto, using(crate::proofs::Levels::value_sizes))]
fn inside_value<'a>(value: &'a AssignValue) -> Part<'a>
    ensures { size_of result ≡ size_of_value value.now }
{
    match value {
        AssignValue::Word(word) => word_part(word),
        AssignValue::Words(words) => Part::Words(words.as_slice()),
        AssignValue::Pairs(pairs) => Part::Pairs(pairs.as_slice()),
        AssignValue::Members(members) => Part::Members(members.as_slice()),
    }
}

/// One of them, and the others.
pub fn open_members<'a>(members: &'a [Member], left: &mut Left<'a>) -> Result<u64, Memory>
    ensures { IfOk result (λ nodes. Adds nodes (total (map size_of_member members.now)) left.old left.new) }
{
    let Some((first, rest)) = members.split_first() else {
        return Ok(0);
    };
    left.put(1, inside_member(first), Part::Members(rest), Part::Nothing)
}

/// What a member holds.
#[tactic(auto, using(crate::proofs::Levels::member_sizes))]
fn inside_member<'a>(member: &'a Member) -> Part<'a>
    ensures { 1 + size_of result ≡ size_of_member member.now }
{
    match member {
        Member::Assign(assign) => Part::Assign(assign),
        Member::Declare(arguments) => Part::Arguments(arguments.as_slice()),
        Member::Function(definition) => list_part(&definition.get().body),
    }
}

/// One of them, and the others.
pub fn open_arguments<'a>(arguments: &'a [Argument], left: &mut Left<'a>) -> Result<u64, Memory>
    ensures { IfOk result (λ nodes. Adds nodes (total (map size_of_argument arguments.now)) left.old left.new) }
{
    let Some((first, rest)) = arguments.split_first() else {
        return Ok(0);
    };
    left.put(
        0,
        inside_argument(first),
        Part::Arguments(rest),
        Part::Nothing,
    )
}

#[tactic(auto, using(crate::proofs::Levels::argument_sizes))]
fn inside_argument<'a>(argument: &'a Argument) -> Part<'a>
    ensures { size_of result ≡ size_of_argument argument.now }
{
    match argument {
        Argument::Word(word) => word_part(word),
        Argument::Assign(assign) => Part::Assign(assign),
    }
}
