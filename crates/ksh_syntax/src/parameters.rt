//! Parameters in braces.
ghost use Rattle.ksh_syntax.specs.Steps.{IsRead};
ghost use Rattle.ksh_syntax.specs.declared.part.Part.TheVariants as part;

use crate::kind::{Kind, Mode};
use crate::part::Terminal::One;
use crate::part::{Mark, Part};
use crate::reading::{Reading, Step};
use ksh_base::Memory;
use ksh_grammar::Place::{Make, Part as P, Token};

impl Reading {
    pub(crate) fn parameter(&mut self, depth: u8, kind: Kind) -> Result<Step, Memory>
        ensures { IsRead part.Parameter depth kind result self.old.left.items self.new.left.items }
    {
        match kind {
            Kind::Length => {
                self.put(
                    depth,
                    &[Token(One(Mode::Parameter, Kind::Length)), P(Part::LengthOf)],
                )
            }
            Kind::Target => {
                self.put(
                    depth,
                    &[
                        Token(One(Mode::Parameter, Kind::Target)),
                        Token(One(Mode::Parameter, Kind::Name)),
                        P(Part::TargetPath),
                    ],
                )
            }
            Kind::Name => {
                self.put(
                    depth,
                    &[Token(One(Mode::Parameter, Kind::Name)), P(Part::PathForm)],
                )
            }
            Kind::Digits => {
                self.put(
                    depth,
                    &[
                        Token(One(Mode::Parameter, Kind::Digits)),
                        P(Part::SpecialForm),
                    ],
                )
            }
            Kind::Special => {
                self.put(
                    depth,
                    &[
                        Token(One(Mode::Parameter, Kind::Special)),
                        P(Part::SpecialForm),
                    ],
                )
            }
            _ => { Ok(Step::Refused) }
        }
    }

    pub(crate) fn length_of(&mut self, depth: u8, kind: Kind) -> Result<Step, Memory>
        ensures { IsRead part.LengthOf depth kind result self.old.left.items self.new.left.items }
    {
        match kind {
            Kind::Name => {
                self.put(
                    depth,
                    &[Token(One(Mode::Parameter, Kind::Name)), P(Part::LengthPath)],
                )
            }
            Kind::Digits => {
                self.put(
                    depth,
                    &[
                        Token(One(Mode::Parameter, Kind::Digits)),
                        Make(Mark::Closes),
                        Token(One(Mode::Form, Kind::Close)),
                    ],
                )
            }
            Kind::Special => {
                self.put(
                    depth,
                    &[
                        Token(One(Mode::Parameter, Kind::Special)),
                        Make(Mark::Closes),
                        Token(One(Mode::Form, Kind::Close)),
                    ],
                )
            }
            _ => { Ok(Step::Refused) }
        }
    }

    pub(crate) fn length_path(&mut self, depth: u8, kind: Kind) -> Result<Step, Memory>
        ensures { IsRead part.LengthPath depth kind result self.old.left.items self.new.left.items }
    {
        match kind {
            Kind::Open => {
                self.put(
                    depth,
                    &[
                        Token(One(Mode::Form, Kind::Open)),
                        P(Part::Text(Mode::Subscript)),
                        Make(Mark::SubscriptEnds),
                        Token(One(Mode::Subscript, Kind::Close)),
                        P(Part::LengthPath),
                    ],
                )
            }
            Kind::Member => {
                self.put(
                    depth,
                    &[Token(One(Mode::Form, Kind::Member)), P(Part::LengthPath)],
                )
            }
            Kind::Items => {
                self.put(
                    depth,
                    &[
                        Token(One(Mode::Form, Kind::Items)),
                        Make(Mark::Closes),
                        Token(One(Mode::Form, Kind::Close)),
                    ],
                )
            }
            Kind::Close => {
                self.put(
                    depth,
                    &[Make(Mark::Closes), Token(One(Mode::Form, Kind::Close))],
                )
            }
            _ => { Ok(Step::Refused) }
        }
    }

    pub(crate) fn target_path(&mut self, depth: u8, kind: Kind) -> Result<Step, Memory>
        ensures { IsRead part.TargetPath depth kind result self.old.left.items self.new.left.items }
    {
        match kind {
            Kind::Open => {
                self.put(
                    depth,
                    &[
                        Token(One(Mode::Form, Kind::Open)),
                        P(Part::Text(Mode::Subscript)),
                        Make(Mark::SubscriptEnds),
                        Token(One(Mode::Subscript, Kind::Close)),
                        P(Part::TargetPath),
                    ],
                )
            }
            Kind::Member => {
                self.put(
                    depth,
                    &[Token(One(Mode::Form, Kind::Member)), P(Part::TargetPath)],
                )
            }
            Kind::Items => {
                self.put(
                    depth,
                    &[
                        Token(One(Mode::Form, Kind::Items)),
                        Make(Mark::Closes),
                        Token(One(Mode::Form, Kind::Close)),
                    ],
                )
            }
            Kind::Prefix => {
                self.put(
                    depth,
                    &[
                        Token(One(Mode::Form, Kind::Prefix)),
                        Make(Mark::Closes),
                        Token(One(Mode::Form, Kind::Close)),
                    ],
                )
            }
            Kind::Close => {
                self.put(
                    depth,
                    &[Make(Mark::Closes), Token(One(Mode::Form, Kind::Close))],
                )
            }
            _ => { Ok(Step::Refused) }
        }
    }

    pub(crate) fn path_form(&mut self, depth: u8, kind: Kind) -> Result<Step, Memory>
        ensures { IsRead part.PathForm depth kind result self.old.left.items self.new.left.items }
    {
        match kind {
            Kind::Open => {
                self.put(
                    depth,
                    &[
                        Token(One(Mode::Form, Kind::Open)),
                        P(Part::Text(Mode::Subscript)),
                        Make(Mark::SubscriptEnds),
                        Token(One(Mode::Subscript, Kind::Close)),
                        P(Part::PathForm),
                    ],
                )
            }
            Kind::Member => {
                self.put(
                    depth,
                    &[Token(One(Mode::Form, Kind::Member)), P(Part::PathForm)],
                )
            }
            Kind::Items => {
                self.put(
                    depth,
                    &[Token(One(Mode::Form, Kind::Items)), P(Part::SpecialForm)],
                )
            }
            Kind::Close => {
                self.put(
                    depth,
                    &[Make(Mark::Closes), Token(One(Mode::Form, Kind::Close))],
                )
            }
            Kind::Instead => {
                self.put(
                    depth,
                    &[
                        Token(One(Mode::Form, Kind::Instead)),
                        P(Part::Text(Mode::Brace)),
                        Make(Mark::Closes),
                        Token(One(Mode::Brace, Kind::Close)),
                    ],
                )
            }
            Kind::Cut => {
                self.put(
                    depth,
                    &[
                        Token(One(Mode::Form, Kind::Cut)),
                        P(Part::Text(Mode::Brace)),
                        Make(Mark::Closes),
                        Token(One(Mode::Brace, Kind::Close)),
                    ],
                )
            }
            Kind::Slice => {
                self.put(
                    depth,
                    &[
                        Token(One(Mode::Form, Kind::Slice)),
                        P(Part::Text(Mode::Colon)),
                        P(Part::SliceEnd),
                    ],
                )
            }
            Kind::Replace => {
                self.put(
                    depth,
                    &[
                        Token(One(Mode::Form, Kind::Replace)),
                        P(Part::Text(Mode::Slash)),
                        P(Part::ReplaceEnd),
                    ],
                )
            }
            _ => { Ok(Step::Refused) }
        }
    }

    pub(crate) fn special_form(&mut self, depth: u8, kind: Kind) -> Result<Step, Memory>
        ensures { IsRead part.SpecialForm depth kind result self.old.left.items self.new.left.items }
    {
        match kind {
            Kind::Close => {
                self.put(
                    depth,
                    &[Make(Mark::Closes), Token(One(Mode::Form, Kind::Close))],
                )
            }
            Kind::Instead => {
                self.put(
                    depth,
                    &[
                        Token(One(Mode::Form, Kind::Instead)),
                        P(Part::Text(Mode::Brace)),
                        Make(Mark::Closes),
                        Token(One(Mode::Brace, Kind::Close)),
                    ],
                )
            }
            Kind::Cut => {
                self.put(
                    depth,
                    &[
                        Token(One(Mode::Form, Kind::Cut)),
                        P(Part::Text(Mode::Brace)),
                        Make(Mark::Closes),
                        Token(One(Mode::Brace, Kind::Close)),
                    ],
                )
            }
            Kind::Slice => {
                self.put(
                    depth,
                    &[
                        Token(One(Mode::Form, Kind::Slice)),
                        P(Part::Text(Mode::Colon)),
                        P(Part::SliceEnd),
                    ],
                )
            }
            Kind::Replace => {
                self.put(
                    depth,
                    &[
                        Token(One(Mode::Form, Kind::Replace)),
                        P(Part::Text(Mode::Slash)),
                        P(Part::ReplaceEnd),
                    ],
                )
            }
            _ => { Ok(Step::Refused) }
        }
    }

    pub(crate) fn slice_end(&mut self, depth: u8, kind: Kind) -> Result<Step, Memory>
        ensures { IsRead part.SliceEnd depth kind result self.old.left.items self.new.left.items }
    {
        match kind {
            Kind::Close => {
                self.put(
                    depth,
                    &[Make(Mark::Closes), Token(One(Mode::Colon, Kind::Close))],
                )
            }
            Kind::Separator => {
                self.put(
                    depth,
                    &[
                        Token(One(Mode::Colon, Kind::Separator)),
                        P(Part::Text(Mode::Brace)),
                        Make(Mark::Closes),
                        Token(One(Mode::Brace, Kind::Close)),
                    ],
                )
            }
            _ => { Ok(Step::Refused) }
        }
    }

    pub(crate) fn replace_end(&mut self, depth: u8, kind: Kind) -> Result<Step, Memory>
        ensures { IsRead part.ReplaceEnd depth kind result self.old.left.items self.new.left.items }
    {
        match kind {
            Kind::Close => {
                self.put(
                    depth,
                    &[Make(Mark::Closes), Token(One(Mode::Slash, Kind::Close))],
                )
            }
            Kind::Separator => {
                self.put(
                    depth,
                    &[
                        Token(One(Mode::Slash, Kind::Separator)),
                        P(Part::Text(Mode::Brace)),
                        Make(Mark::Closes),
                        Token(One(Mode::Brace, Kind::Close)),
                    ],
                )
            }
            _ => { Ok(Step::Refused) }
        }
    }
}
