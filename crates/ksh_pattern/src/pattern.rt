//! A pattern and its calls.
ghost use Rattle.std.specs.Prelude.{◌≡◌, ◌≤◌, List, length, IfOk};
ghost use Rattle.ksh_pattern.specs.declared.marked.Marked as marked;
ghost use Rattle.ksh_pattern.specs.declared.part.Part as part;
ghost use Rattle.ksh_pattern.specs.Match.{matches};
ghost use Rattle.ksh_pattern.specs.Ends.{IsGreatest, IsLeast, IsFirstIn, front_matches, tail_matches};
ghost use Rattle.ksh_pattern.specs.Reading.{IsReadAs};

use crate::build::build;
use crate::marked::Marked;
use crate::part::Part;
use crate::search;
use crate::token::tokens_of;
use ksh_base::{Items, Memory};
use std::alloc::Global;
use std::marker::Model;

/// A pattern. Contracts see it as the list of its parts.
#[derive(Drop)]
pub struct Pattern {
    parts: Items<Part>,
    alloc: Global,
}

impl Model for Pattern {
    ghost use Rattle.std.specs.Prelude.{List};
    ghost use Rattle.ksh_pattern.specs.declared.part.Part.{Part};

    ghost Value = { List Part };

    ghost use Rattle.std.specs.Coded.{codes};
    ghost use Rattle.ksh_pattern.specs.contracts.part.Part as part;

    ghost coded = { Prim.hlevel (codes, part.the_row.coded) };

    ghost view = { λ p. p.parts };
}

impl Pattern {
    /// Reads a pattern. `*`, `?`, brackets with ranges and the twelve classes, and the groups `?(p)`, `*(p)`, `+(p)`,
    /// `@(p)` and `!(p)` with alternatives have their meaning where they are unquoted. A quoted byte stands for itself,
    /// and so do a bracket or a group without its end, and a group in more than 64 others.
    pub fn make(alloc: Global, pieces: &[Marked]) -> Result<Pattern, Memory>
        ensures { IfOk result (λ pattern. IsReadAs pieces.now pattern) }
    {
        let tokens = tokens_of(alloc, pieces)?;
        let parts = build(alloc, tokens.as_slice())?;
        Ok(Pattern { parts, alloc })
    }

    /// The parts that the pattern is read as.
    pub fn parts(&self) -> &[Part]
        ensures { result.now ≡ self.now }
    {
        self.parts.as_slice()
    }

    /// Whether the pattern matches the whole text.
    pub fn matches(&self, text: &[u8]) -> Result<bool, Memory>
        ensures { IfOk result (λ matched. matched ≡ matches self.now text.now) }
    {
        search::matches_text(self.alloc, self.parts.as_slice(), text)
    }

    /// The length of the longest front of the text that matches, in bytes.
    pub fn longest_front(&self, text: &[u8]) -> Result<Option<usize>, Memory>
        ensures { IfOk result (IsGreatest (front_matches self.now text.now) (length text.now)) }
    {
        search::longest_front(self.alloc, self.parts.as_slice(), text)
    }

    /// The length of the shortest front that matches.
    pub fn shortest_front(&self, text: &[u8]) -> Result<Option<usize>, Memory>
        ensures { IfOk result (IsLeast (front_matches self.now text.now) (length text.now)) }
    {
        search::shortest_front(self.alloc, self.parts.as_slice(), text)
    }

    /// The length of the longest tail that matches.
    pub fn longest_tail(&self, text: &[u8]) -> Result<Option<usize>, Memory>
        ensures { IfOk result (IsGreatest (tail_matches self.now text.now) (length text.now)) }
    {
        search::longest_tail(self.alloc, self.parts.as_slice(), text)
    }

    /// The length of the shortest tail that matches.
    pub fn shortest_tail(&self, text: &[u8]) -> Result<Option<usize>, Memory>
        ensures { IfOk result (IsLeast (tail_matches self.now text.now) (length text.now)) }
    {
        search::shortest_tail(self.alloc, self.parts.as_slice(), text)
    }

    /// Where the leftmost match that begins at `from` or later begins and ends; it is the longest there.
    pub fn first_in(&self, text: &[u8], from: usize) -> Result<Option<(usize, usize)>, Memory>
        requires { from ≤ length text.now }
        ensures { IfOk result (IsFirstIn self.now text.now from) }
    {
        search::first_in(self.alloc, self.parts.as_slice(), text, from)
    }
}

/// Marked bytes are read as one pattern at most.
pub fn one_reading()
    ensures { (pieces : List marked.Marked) (a b : List part.Part) → IsReadAs pieces a → IsReadAs pieces b → a ≡ b }
{}
