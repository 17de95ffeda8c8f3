//! `if` and `case`.
ghost use Rattle.std.specs.Prelude.{◌≡◌, OnOk, codes, map};
ghost use Rattle.ksh_unparse.specs.Commands.{arm_put, arms_put, elifs_put, item_end, redirects_put};
ghost use Rattle.ksh_unparse.specs.Marks.{each, say};
ghost use Rattle.ksh_unparse.specs.Stack.{arm_puts, maybe_else, redirect_spots, to_write};
ghost use Rattle.ksh_unparse.specs.Tree.{case_item_put};

use crate::assigns::put_words_between;
use crate::left::{Left, Task};
use crate::sections::put_section;
use ksh_ast::{Arm, CaseItem, List, Redirect, Word};
use ksh_base::Memory;

/// `if`, the further tests, `else` where it is there, `fi` and redirections.
pub fn put_if<'a>(
    arms: &'a [Arm<List>],
    otherwise: &'a Option<List>,
    redirects: &'a [Redirect<Word>],
    left: &mut Left<'a>,
) -> Result<(), Memory>
    ensures { OnOk result (to_write left.new.tasks ≡ arms_put (map arm_puts arms.now) (maybe_else otherwise.now (say (codes "fi") (redirects_put (map redirect_spots redirects.now) (to_write left.old.tasks))))) }
{
    left.push(Task::Redirects(redirects))?;
    left.push(Task::Bytes(b"fi"))?;
    put_else(otherwise, left)?;
    put_arms(arms, left)
}

fn put_else<'a>(otherwise: &'a Option<List>, left: &mut Left<'a>) -> Result<(), Memory>
    ensures { OnOk result (to_write left.new.tasks ≡ maybe_else otherwise.now (to_write left.old.tasks)) }
{
    match otherwise {
        Some(list) => put_section(b"else", list, left),
        None => Ok(()),
    }
}

fn put_arms<'a>(arms: &'a [Arm<List>], left: &mut Left<'a>) -> Result<(), Memory>
    ensures { OnOk result (to_write left.new.tasks ≡ arms_put (map arm_puts arms.now) (to_write left.old.tasks)) }
{
    let Some((arm, rest)) = arms.split_first() else {
        return Ok(());
    };
    left.push(Task::Arms(rest))?;
    put_arm(b"if", arm, left)
}

/// Further tests and their lists.
pub fn put_elifs<'a>(arms: &'a [Arm<List>], left: &mut Left<'a>) -> Result<(), Memory>
    ensures { OnOk result (to_write left.new.tasks ≡ elifs_put (map arm_puts arms.now) (to_write left.old.tasks)) }
{
    let Some((arm, rest)) = arms.split_first() else {
        return Ok(());
    };
    left.push(Task::Arms(rest))?;
    put_arm(b"elif", arm, left)
}

fn put_arm<'a>(keyword: &'a [u8], arm: &'a Arm<List>, left: &mut Left<'a>) -> Result<(), Memory>
    ensures { OnOk result (to_write left.new.tasks ≡ arm_put keyword.now (arm_puts arm.now) (to_write left.old.tasks)) }
{
    put_section(b"then", &arm.body, left)?;
    put_section(keyword, &arm.test, left)
}

/// Items of `case`.
pub fn put_case_items<'a>(items: &'a [CaseItem], left: &mut Left<'a>) -> Result<(), Memory>
    ensures { OnOk result (to_write left.new.tasks ≡ each (map case_item_put items.now) (to_write left.old.tasks)) }
{
    let Some((item, rest)) = items.split_first() else {
        return Ok(());
    };
    left.push(Task::CaseItems(rest))?;
    put_case_item(item, left)
}

#[tactic(auto, unfolding(crate::specs::Tree::case_item_put, crate::specs::Tree::item_put, crate::specs::Tree::piece_spot))]
fn put_case_item<'a>(item: &'a CaseItem, left: &mut Left<'a>) -> Result<(), Memory>
    ensures { OnOk result (to_write left.new.tasks ≡ case_item_put item.now (to_write left.old.tasks)) }
{
    left.push(Task::Line)?;
    left.push(Task::Bytes(item_end(item.falls)))?;
    put_section(b")", &item.body, left)?;
    put_words_between(b" | ", item.patterns.as_slice(), left)?;
    left.push(Task::Bytes(b"("))
}

fn item_end<'a>(falls: bool) -> &'a [u8]
    ensures { result.now ≡ item_end falls }
{
    if falls { b";&" } else { b";;" }
}
