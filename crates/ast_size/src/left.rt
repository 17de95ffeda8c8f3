//! The parts of a tree that weren't counted yet.
ghost use Rattle.std.specs.Prelude.{◌≡◌, ◌+◌, [], ◌∷◌, IfOk, OnOk, MatchOption};
ghost use Rattle.ast_size.specs.Parts.{size_of, size_of_all, waiting, Adds};

use crate::part::Part;
use ksh_base::Memory;
use std::alloc::Global;

/// The parts that are left.
#[derive(Drop)]
pub struct Left<'a> {
    parts: Vec<Part<'a>>,
}

impl<'a> Left<'a> {
    pub fn new(alloc: Global) -> Left<'a>
        ensures { waiting result ≡ [] }
    {
        Left {
            parts: Vec::new(alloc),
        }
    }

    fn keep(&mut self, part: Part<'a>) -> Result<(), Memory>
        ensures { OnOk result (waiting self.new ≡ part.entry ∷ waiting self.old) }
    {
        self.parts.push(part)?;
        Ok(())
    }

    /// Adds the part; where it is nothing, it needn't wait.
    fn add(&mut self, part: Part<'a>) -> Result<(), Memory>
        ensures { OnOk result (size_of_all (waiting self.new) ≡ size_of part.entry + size_of_all (waiting self.old)) }
    {
        match part {
            Part::Nothing => Ok(()),
            _ => self.keep(part),
        }
    }

    /// Adds the parts, and gives back the number of nodes that were met with them.
    pub fn put(
        &mut self,
        nodes: u64,
        first: Part<'a>,
        second: Part<'a>,
        third: Part<'a>,
    ) -> Result<u64, Memory>
        ensures { IfOk result (λ met. Adds met (nodes + size_of first.entry + size_of second.entry + size_of third.entry) self.old self.new) }
    {
        self.add(third)?;
        self.add(second)?;
        self.add(first)?;
        Ok(nodes)
    }

    /// The same for a node and one part that it holds.
    pub fn put_node(&mut self, part: Part<'a>) -> Result<u64, Memory>
        ensures { IfOk result (λ met. Adds met (1 + size_of part.entry) self.old self.new) }
    {
        self.put(1, part, Part::Nothing, Part::Nothing)
    }

    pub fn pop(&mut self) -> Option<Part<'a>>
        ensures { MatchOption result (waiting self.old ≡ []) (λ part. waiting self.old ≡ part ∷ waiting self.new) }
    {
        self.parts.pop()
    }
}
