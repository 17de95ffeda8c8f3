//! The tree of a pattern from its tokens.
ghost use Rattle.std.specs.Prelude.{◌≡◌, ◌&&◌, ◌==◌, nat_le, ◌≤◌, ◌<◌, ◌+◌, ◌-◌, List, [], ◌∷◌, ◌++◌, IfOk, OnOk};
ghost use Rattle.ksh_pattern.specs.Reading.{opening, literal, part_spelling, spelling, settled, unopened};
ghost use Rattle.ksh_pattern.specs.Building.{spelled, depth};
ghost use Rattle.ksh_pattern.specs.declared.token.Token.{Token};
ghost use Rattle.ksh_pattern.specs.declared.token.Token.TheVariants as token;
ghost use Rattle.ksh_pattern.specs.declared.byte_test.ByteTest.TheVariants as test;

use crate::byte_test::ByteTest;
use crate::part::{Kind, Part};
use crate::token::{Token, has_end};
use ksh_base::{Items, Memory, Shared};
use std::alloc::Global;
use std::mem;

/// In how many others a group may stand.
const DEEPEST: usize = 64;

/// A group that is open: what stands before it, and its alternatives so far.
#[derive(Drop)]
pub struct Opened {
    kind: Kind,
    before: Items<Part>,
    alternatives: Items<Items<Part>>,
}

/// A tree that is being built: the open groups, the parts behind the last opening, bar or closing, and how many
/// openings are open that are too deep to be groups.
#[derive(Drop)]
pub struct Builder {
    opened: Items<Opened>,
    parts: Items<Part>,
    deep: usize,
}

impl Builder {
    fn new(alloc: Global) -> Builder
        ensures spelled { spelled result ≡ [] }
        ensures depth { depth result ≡ 0 }
        ensures deep { result.deep ≡ 0 }
    {
        Builder {
            opened: Items::new(alloc),
            parts: Items::new(alloc),
            deep: 0,
        }
    }

    /// Adds a part.
    fn push(&mut self, part: Part) -> Result<(), Memory>
        ensures spelled { OnOk result (spelled self.new ≡ spelled self.old ++ part_spelling part) }
        ensures depth { OnOk result (depth self.new ≡ depth self.old) }
        ensures deep { self.new.deep ≡ self.old.deep }
    {
        self.parts.push(part)?;
        Ok(())
    }

    /// Adds a part that is a byte.
    fn push_byte(&mut self, byte: u8) -> Result<(), Memory>
        ensures spelled { OnOk result (spelled self.new ≡ spelled self.old ++ token.One (test.Is byte) ∷ []) }
        ensures depth { OnOk result (depth self.new ≡ depth self.old) }
        ensures deep { self.new.deep ≡ self.old.deep }
    {
        self.push(Part::One(ByteTest::Is(byte)))
    }

    /// Opens a group.
    fn open(&mut self, alloc: Global, kind: Kind) -> Result<(), Memory>
        ensures spelled { OnOk result (spelled self.new ≡ spelled self.old ++ token.Open kind ∷ []) }
        ensures depth { OnOk result (depth self.new ≡ depth self.old + 1) }
        ensures deep { self.new.deep ≡ self.old.deep }
    {
        let before = mem::replace(&mut self.parts, Items::new(alloc));
        self.opened.push(Opened {
            kind,
            before,
            alternatives: Items::new(alloc),
        })?;
        Ok(())
    }

    /// Adds the bytes of an opening that opens no group.
    fn push_opening(&mut self, kind: Kind) -> Result<(), Memory>
        ensures spelled { OnOk result (spelled self.new ≡ spelled self.old ++ opening kind) }
        ensures depth { OnOk result (depth self.new ≡ depth self.old) }
        ensures deep { self.new.deep ≡ self.old.deep }
    {
        self.push(opening_part(kind))?;
        self.push_byte(b'(')
    }

    /// Begins another alternative of the innermost group.
    fn bar(&mut self, alloc: Global) -> Result<(), Memory>
        requires { 0 < depth self.old }
        ensures spelled { OnOk result (spelled self.new ≡ spelled self.old ++ token.Bar ∷ []) }
        ensures depth { OnOk result (depth self.new ≡ depth self.old) }
        ensures deep { self.new.deep ≡ self.old.deep }
    {
        let Some(mut group) = self.opened.pop() else {
            return Ok(());
        };
        let parts = mem::replace(&mut self.parts, Items::new(alloc));
        group.alternatives.push(parts)?;
        self.opened.push(group)?;
        Ok(())
    }

    /// Ends the innermost group.
    fn close(&mut self, alloc: Global) -> Result<(), Memory>
        requires { 0 < depth self.old }
        ensures spelled { OnOk result (spelled self.new ≡ spelled self.old ++ token.Close ∷ []) }
        ensures depth { OnOk result (depth self.new + 1 ≡ depth self.old) }
        ensures deep { self.new.deep ≡ self.old.deep }
    {
        let Some(group) = self.opened.pop() else {
            return Ok(());
        };
        let Opened {
            kind,
            before,
            mut alternatives,
        } = group;
        let parts = mem::replace(&mut self.parts, before);
        alternatives.push(parts)?;
        self.parts
            .push(Part::Group(kind, Shared::new(alloc, alternatives)?))?;
        Ok(())
    }

    /// Whether a group may be opened.
    fn may_open(&self) -> bool
        ensures { result ≡ (nat_le (depth self.now) 64 && self.now.deep == 0) }
    {
        self.opened.len() <= DEEPEST && self.deep == 0
    }

    /// Adds an opening, before the tokens that follow it.
    fn add_opening(&mut self, alloc: Global, kind: Kind, rest: &[Token]) -> Result<(), Memory>
        requires { depth self.old + self.old.deep ≤ unopened rest.now - 1 }
        ensures spelled { OnOk result (spelled self.new ++ settled (depth self.new) self.new.deep rest.now
            ≡ spelled self.old ++ settled (depth self.old) self.old.deep (token.Open kind ∷ rest.now)) }
        ensures ends { OnOk result (depth self.new + self.new.deep ≤ unopened rest.now) }
    {
        if !has_end(rest) {
            return self.push_opening(kind);
        }
        if self.may_open() {
            return self.open(alloc, kind);
        }
        self.push_opening(kind)?;
        self.deep += 1;
        Ok(())
    }

    /// Adds a bar.
    fn add_bar(&mut self, alloc: Global) -> Result<(), Memory>
        ensures spelled { OnOk result ((rest : List Token) → spelled self.new ++ settled (depth self.new) self.new.deep rest
            ≡ spelled self.old ++ settled (depth self.old) self.old.deep (token.Bar ∷ rest)) }
        ensures depth { OnOk result (depth self.new ≡ depth self.old) }
        ensures deep { self.new.deep ≡ self.old.deep }
    {
        if self.deep > 0 {
            return self.push_byte(b'|');
        }
        if self.opened.is_empty() {
            return self.push_byte(b'|');
        }
        self.bar(alloc)
    }

    /// Adds a closing.
    fn add_closing(&mut self, alloc: Global) -> Result<(), Memory>
        ensures spelled { OnOk result ((rest : List Token) → spelled self.new ++ settled (depth self.new) self.new.deep rest
            ≡ spelled self.old ++ settled (depth self.old) self.old.deep (token.Close ∷ rest)) }
        ensures ends { OnOk result (depth self.new + self.new.deep ≡ depth self.old + self.old.deep - 1) }
    {
        if self.deep > 0 {
            self.push_byte(b')')?;
            self.deep -= 1;
            return Ok(());
        }
        if self.opened.is_empty() {
            return self.push_byte(b')');
        }
        self.close(alloc)
    }

    /// Adds a token, before those that follow it.
    fn add(&mut self, alloc: Global, token: &Token, rest: &[Token]) -> Result<(), Memory>
        requires { depth self.old + self.old.deep ≤ unopened (token.now ∷ rest.now) }
        ensures spelled { OnOk result (spelled self.new ++ settled (depth self.new) self.new.deep rest.now
            ≡ spelled self.old ++ settled (depth self.old) self.old.deep (token.now ∷ rest.now)) }
        ensures ends { OnOk result (depth self.new + self.new.deep ≤ unopened rest.now) }
    {
        match token {
            Token::One(test) => self.push(Part::One(test.copy()?)),
            Token::AnyText => self.push(Part::AnyText),
            Token::Open(kind) => self.add_opening(alloc, *kind, rest),
            Token::Bar => self.add_bar(alloc),
            Token::Close => self.add_closing(alloc),
        }
    }
}

/// What an opening that opens no group begins with.
fn opening_part(kind: Kind) -> Part
    ensures { part_spelling result ++ literal 40 ∷ [] ≡ opening kind }
{
    match kind {
        Kind::Optional => Part::One(ByteTest::Any),
        Kind::Any => Part::AnyText,
        Kind::Many => Part::One(ByteTest::Is(b'+')),
        Kind::One => Part::One(ByteTest::Is(b'@')),
        Kind::Not => Part::One(ByteTest::Is(b'!')),
    }
}

/// The parts that the tokens spell, where bytes stand in place of some.
pub fn build(alloc: Global, tokens: &[Token]) -> Result<Items<Part>, Memory>
    ensures { IfOk result (λ parts. spelling parts ≡ settled 0 0 tokens.now) }
{
    let mut builder = Builder::new(alloc);
    for (index, token) in tokens.iter().enumerate() {
        builder.add(alloc, token, &tokens[index + 1..])?;
    }
    Ok(builder.parts)
}
