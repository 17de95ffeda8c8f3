//! A pattern as a tree.
ghost use Rattle.std.specs.Prelude.{◌≡◌};
ghost use Rattle.ksh_pattern.specs.Match.{has_empty, may_vanish, is_not, goes_on};

use crate::byte_test::ByteTest;
use ksh_base::{Items, Shared};

/// How often a group stands for one of its alternatives: `?(p)` at most once, `*(p)` any number of times,
/// `+(p)` once or more, `@(p)` once, and `!(p)` for every text that isn't one.
#[derive(Clone, Copy, Debug, PartialEq, Eq)]
pub enum Kind {
    Optional,
    Any,
    Many,
    One,
    Not,
}

/// A part of a pattern: one byte, `*`, or a group with its alternatives.
#[derive(Drop)]
pub enum Part {
    One(ByteTest),
    AnyText,
    Group(Kind, Shared<Items<Items<Part>>>),
}

impl Kind {
    /// Whether a group matches the empty text, where `one` tells whether one of its alternatives does.
    pub fn has_empty(self, one: bool) -> bool
        ensures { result ≡ has_empty self one }
    {
        match self {
            Kind::Optional | Kind::Any => true,
            Kind::Many | Kind::One => one,
            Kind::Not => !one,
        }
    }

    /// The same, where `!` is left to a cell of its own and passes for `@`.
    pub fn may_vanish(self, one: bool) -> bool
        ensures { result ≡ may_vanish self one }
    {
        match self {
            Kind::Optional | Kind::Any => true,
            Kind::Many | Kind::One | Kind::Not => one,
        }
    }

    /// Whether it is `!`.
    pub fn is_not(self) -> bool
        ensures { result ≡ is_not self }
    {
        match self {
            Kind::Not => true,
            Kind::Optional | Kind::Any | Kind::Many | Kind::One => false,
        }
    }

    /// Whether such a group may go on with its alternatives where one of them ended.
    pub fn goes_on(self) -> bool
        ensures { result ≡ goes_on self }
    {
        match self {
            Kind::Any | Kind::Many => true,
            Kind::Optional | Kind::One | Kind::Not => false,
        }
    }
}
