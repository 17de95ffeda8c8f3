//! The sizes of trees.
ghost use Rattle.std.specs.Prelude.{◌≡◌, IfOk};
ghost use Rattle.ast_size.specs.Parts.{size_of};
ghost use Rattle.ast_size.specs.Size.{size_of_script, size_of_items, size_of_pieces};

use crate::left::Left;
use crate::open::open;
use crate::part::Part;
use ksh_ast::{Item, Piece, Script};
use ksh_base::Memory;
use std::alloc::Global;

/// How many nodes the word of these pieces has. 2^64 nodes and more count as want of memory.
pub fn word_size(alloc: Global, pieces: &[Piece]) -> Result<u64, Memory>
    ensures { IfOk result (λ size. size ≡ size_of_pieces pieces.now) }
{
    size(alloc, Part::Pieces(pieces))
}

/// How many nodes the list of commands has. 2^64 nodes and more count as want of memory.
pub fn items_size(alloc: Global, items: &[Item]) -> Result<u64, Memory>
    ensures { IfOk result (λ size. size ≡ size_of_items items.now) }
{
    size(alloc, Part::Items(items))
}

/// How many nodes the script has. 2^64 nodes and more count as want of memory.
pub fn script_size(alloc: Global, script: &Script) -> Result<u64, Memory>
    ensures { IfOk result (λ size. size ≡ size_of_script script.now) }
{
    items_size(alloc, script.list.get().as_slice())
}

/// How many nodes the part has.
fn size<'a>(alloc: Global, part: Part<'a>) -> Result<u64, Memory>
    ensures { IfOk result (λ size. size ≡ size_of part.entry) }
{
    let mut left = Left::new(alloc);
    let mut nodes = left.put(0, part, Part::Nothing, Part::Nothing)?;
    for _ in 0..u64::MAX {
        let Some(next) = left.pop() else {
            return Ok(nodes);
        };
        let met = open(next, &mut left)?;
        let Some(sum) = nodes.checked_add(met) else {
            return Err(Memory);
        };
        nodes = sum;
    }
    Err(Memory)
}
