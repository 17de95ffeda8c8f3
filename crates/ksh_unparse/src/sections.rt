//! Lists inside commands.
ghost use Rattle.std.specs.Prelude.{◌≡◌, OnOk, map};
ghost use Rattle.ksh_unparse.specs.Commands.{do_put, redirects_put, section};
ghost use Rattle.ksh_unparse.specs.Stack.{list_puts, redirect_spots, to_write};

use crate::left::{Left, Task};
use ksh_ast::{List, Redirect, Word};
use ksh_base::Memory;

/// A keyword, and a list that begins on the next line.
pub fn put_section<'a>(keyword: &'a [u8], list: &'a List, left: &mut Left<'a>) -> Result<(), Memory>
    ensures { OnOk result (to_write left.new.tasks ≡ section keyword.now (list_puts list.now) (to_write left.old.tasks)) }
{
    left.push(Task::List(list.get().as_slice()))?;
    left.push(Task::Line)?;
    left.push(Task::Bytes(keyword))
}

/// `do`, the list, `done`, and redirections.
pub fn put_do<'a>(
    body: &'a List,
    redirects: &'a [Redirect<Word>],
    left: &mut Left<'a>,
) -> Result<(), Memory>
    ensures { OnOk result (to_write left.new.tasks ≡ do_put (list_puts body.now) (redirects_put (map redirect_spots redirects.now) (to_write left.old.tasks))) }
{
    left.push(Task::Redirects(redirects))?;
    left.push(Task::Bytes(b"done"))?;
    put_section(b"do", body, left)
}
