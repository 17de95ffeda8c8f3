//! Simple commands and redirections.
ghost use Rattle.ksh_syntax.specs.Steps.{IsRead};
ghost use Rattle.ksh_syntax.specs.declared.part.Part.TheVariants as part;

use crate::kind::{Kind, Mode};
use crate::part::Terminal::{Any, One};
use crate::part::{Mark, Part, Words};
use crate::reading::{Reading, Step};
use crate::words::is_in;
use ksh_base::Memory;
use ksh_grammar::Place::{Make, Part as P, Token};

impl Reading {
    pub(crate) fn line(&mut self, depth: u8, kind: Kind) -> Result<Step, Memory>
        ensures { IsRead part.Line depth kind result self.old.left.items self.new.left.items }
    {
        match kind {
            Kind::Newline => { self.put(depth, &[Token(One(Mode::Command, Kind::Newline))]) }
            Kind::NewlineBodies => {
                self.put(
                    depth,
                    &[
                        Token(One(Mode::Command, Kind::NewlineBodies)),
                        P(Part::BodyTexts),
                    ],
                )
            }
            _ => { Ok(Step::Refused) }
        }
    }

    pub(crate) fn body_texts(&mut self, depth: u8, _kind: Kind) -> Result<Step, Memory>
        ensures { IsRead part.BodyTexts depth _kind result self.old.left.items self.new.left.items }
    {
        self.put(depth, &[P(Part::Text(Mode::Body)), P(Part::BodyEnd)])
    }

    pub(crate) fn body_end(&mut self, depth: u8, kind: Kind) -> Result<Step, Memory>
        ensures { IsRead part.BodyEnd depth kind result self.old.left.items self.new.left.items }
    {
        match kind {
            Kind::BodyNext => {
                self.put(
                    depth,
                    &[Token(One(Mode::Body, Kind::BodyNext)), P(Part::BodyTexts)],
                )
            }
            Kind::BodyLast => { self.put(depth, &[Token(One(Mode::Body, Kind::BodyLast))]) }
            _ => { Ok(Step::Refused) }
        }
    }

    pub(crate) fn newlines(&mut self, depth: u8, kind: Kind) -> Result<Step, Memory>
        ensures { IsRead part.Newlines depth kind result self.old.left.items self.new.left.items }
    {
        match kind {
            Kind::Newline | Kind::NewlineBodies => {
                self.put(depth, &[P(Part::Line), P(Part::Newlines)])
            }
            _ => { self.put(depth, &[]) }
        }
    }

    pub(crate) fn simple(&mut self, depth: u8, kind: Kind) -> Result<Step, Memory>
        ensures { IsRead part.Simple depth kind result self.old.left.items self.new.left.items }
    {
        match kind {
            Kind::Start => {
                self.put(
                    depth,
                    &[
                        Token(One(Mode::Command, Kind::Start)),
                        P(Part::Text(Mode::Word)),
                        Token(One(Mode::Word, Kind::WordEnd)),
                        P(Part::Arguments),
                    ],
                )
            }
            Kind::StartAssignment => {
                self.put(
                    depth,
                    &[
                        Token(One(Mode::Command, Kind::StartAssignment)),
                        P(Part::Text(Mode::Word)),
                        Token(One(Mode::Word, Kind::WordEnd)),
                        P(Part::FirstArguments),
                    ],
                )
            }
            Kind::Element => {
                self.put(
                    depth,
                    &[
                        Token(One(Mode::Command, Kind::Element)),
                        P(Part::FirstElement),
                    ],
                )
            }
            Kind::ValueOpen => {
                self.put(
                    depth,
                    &[
                        Token(One(Mode::Command, Kind::ValueOpen)),
                        P(Part::Value),
                        P(Part::FirstArguments),
                    ],
                )
            }
            Kind::Assignment => {
                self.put(
                    depth,
                    &[
                        Token(One(Mode::Command, Kind::Assignment)),
                        P(Part::FirstArguments),
                    ],
                )
            }
            _ => {
                if is_in(Words::CommandWord, kind) {
                    self.put(
                        depth,
                        &[
                            Make(Mark::CommandWord),
                            Make(Mark::CommandName),
                            Token(Any(Mode::Command, Words::CommandWord)),
                            P(Part::Arguments),
                        ],
                    )
                } else {
                    self.put(depth, &[P(Part::Redirection), P(Part::FirstArguments)])
                }
            }
        }
    }

    pub(crate) fn first_arguments(&mut self, depth: u8, kind: Kind) -> Result<Step, Memory>
        ensures { IsRead part.FirstArguments depth kind result self.old.left.items self.new.left.items }
    {
        match kind {
            Kind::Start => {
                self.put(
                    depth,
                    &[
                        Token(One(Mode::Command, Kind::Start)),
                        P(Part::Text(Mode::Word)),
                        Token(One(Mode::Word, Kind::WordEnd)),
                        P(Part::Arguments),
                    ],
                )
            }
            Kind::StartAssignment => {
                self.put(
                    depth,
                    &[
                        Token(One(Mode::Command, Kind::StartAssignment)),
                        P(Part::Text(Mode::Word)),
                        Token(One(Mode::Word, Kind::WordEnd)),
                        P(Part::FirstArguments),
                    ],
                )
            }
            Kind::Element => {
                self.put(
                    depth,
                    &[
                        Token(One(Mode::Command, Kind::Element)),
                        P(Part::FirstElement),
                    ],
                )
            }
            Kind::ValueOpen => {
                self.put(
                    depth,
                    &[
                        Token(One(Mode::Command, Kind::ValueOpen)),
                        P(Part::Value),
                        P(Part::FirstArguments),
                    ],
                )
            }
            Kind::Assignment => {
                self.put(
                    depth,
                    &[
                        Token(One(Mode::Command, Kind::Assignment)),
                        P(Part::FirstArguments),
                    ],
                )
            }
            Kind::Redirect | Kind::HereRedirect => {
                self.put(depth, &[P(Part::Redirection), P(Part::FirstArguments)])
            }
            _ => {
                if is_in(Words::NotAssignment, kind) {
                    self.put(
                        depth,
                        &[
                            Make(Mark::CommandName),
                            Token(Any(Mode::Command, Words::NotAssignment)),
                            P(Part::Arguments),
                        ],
                    )
                } else {
                    self.put(depth, &[Make(Mark::SimpleEnds)])
                }
            }
        }
    }

    pub(crate) fn first_element(&mut self, depth: u8, kind: Kind) -> Result<Step, Memory>
        ensures { IsRead part.FirstElement depth kind result self.old.left.items self.new.left.items }
    {
        match kind {
            Kind::Open => {
                self.put(
                    depth,
                    &[
                        Token(One(Mode::Target, Kind::Open)),
                        P(Part::Text(Mode::Subscript)),
                        Make(Mark::SubscriptEnds),
                        Token(One(Mode::Subscript, Kind::Close)),
                        P(Part::FirstElement),
                    ],
                )
            }
            Kind::Member => {
                self.put(
                    depth,
                    &[
                        Token(One(Mode::Target, Kind::Member)),
                        P(Part::FirstElement),
                    ],
                )
            }
            Kind::Assign => {
                self.put(
                    depth,
                    &[
                        Token(One(Mode::Target, Kind::Assign)),
                        P(Part::Text(Mode::Word)),
                        Token(One(Mode::Word, Kind::WordEnd)),
                        P(Part::FirstArguments),
                    ],
                )
            }
            Kind::AddAssign => {
                self.put(
                    depth,
                    &[
                        Token(One(Mode::Target, Kind::AddAssign)),
                        P(Part::Text(Mode::Word)),
                        Token(One(Mode::Word, Kind::WordEnd)),
                        P(Part::FirstArguments),
                    ],
                )
            }
            Kind::ValueOpen => {
                self.put(
                    depth,
                    &[
                        Token(One(Mode::Target, Kind::ValueOpen)),
                        P(Part::Value),
                        P(Part::FirstArguments),
                    ],
                )
            }
            Kind::Otherwise => {
                self.put(
                    depth,
                    &[
                        Token(One(Mode::Target, Kind::Otherwise)),
                        P(Part::Text(Mode::Word)),
                        Token(One(Mode::Word, Kind::WordEnd)),
                        P(Part::Arguments),
                    ],
                )
            }
            _ => { Ok(Step::Refused) }
        }
    }

    pub(crate) fn arguments(&mut self, depth: u8, kind: Kind) -> Result<Step, Memory>
        ensures { IsRead part.Arguments depth kind result self.old.left.items self.new.left.items }
    {
        match kind {
            Kind::Start | Kind::StartAssignment => {
                self.put(
                    depth,
                    &[
                        Token(Any(Mode::Command, Words::AnyStart)),
                        P(Part::Text(Mode::Word)),
                        Token(One(Mode::Word, Kind::WordEnd)),
                        P(Part::Arguments),
                    ],
                )
            }
            Kind::Element => {
                self.put(
                    depth,
                    &[
                        Token(One(Mode::Command, Kind::Element)),
                        P(Part::ElementValue),
                        P(Part::Arguments),
                    ],
                )
            }
            Kind::ValueOpen => {
                self.put(
                    depth,
                    &[
                        Token(One(Mode::Command, Kind::ValueOpen)),
                        P(Part::Value),
                        P(Part::Arguments),
                    ],
                )
            }
            Kind::Redirect | Kind::HereRedirect => {
                self.put(depth, &[P(Part::Redirection), P(Part::Arguments)])
            }
            _ => {
                if is_in(Words::AnyWord, kind) {
                    self.put(
                        depth,
                        &[
                            Token(Any(Mode::Command, Words::AnyWord)),
                            P(Part::Arguments),
                        ],
                    )
                } else {
                    self.put(depth, &[Make(Mark::SimpleEnds)])
                }
            }
        }
    }

    pub(crate) fn redirections(&mut self, depth: u8, kind: Kind) -> Result<Step, Memory>
        ensures { IsRead part.Redirections depth kind result self.old.left.items self.new.left.items }
    {
        match kind {
            Kind::Redirect | Kind::HereRedirect => {
                self.put(depth, &[P(Part::Redirection), P(Part::Redirections)])
            }
            _ => { self.put(depth, &[Make(Mark::CompoundEnds)]) }
        }
    }

    pub(crate) fn redirection(&mut self, depth: u8, kind: Kind) -> Result<Step, Memory>
        ensures { IsRead part.Redirection depth kind result self.old.left.items self.new.left.items }
    {
        match kind {
            Kind::Redirect => {
                self.put(
                    depth,
                    &[
                        Token(One(Mode::Command, Kind::Redirect)),
                        P(Part::RedirectWord),
                    ],
                )
            }
            Kind::HereRedirect => {
                self.put(
                    depth,
                    &[
                        Token(One(Mode::Command, Kind::HereRedirect)),
                        P(Part::RedirectWord),
                    ],
                )
            }
            _ => { Ok(Step::Refused) }
        }
    }

    pub(crate) fn redirect_word(&mut self, depth: u8, kind: Kind) -> Result<Step, Memory>
        ensures { IsRead part.RedirectWord depth kind result self.old.left.items self.new.left.items }
    {
        match kind {
            Kind::Start | Kind::StartAssignment | Kind::Element => {
                self.put(
                    depth,
                    &[
                        Make(Mark::Opens),
                        Token(Any(Mode::Condition, Words::RedirectStart)),
                        P(Part::Text(Mode::Word)),
                        Make(Mark::Closes),
                        Token(One(Mode::Word, Kind::WordEnd)),
                    ],
                )
            }
            _ => {
                if is_in(Words::AnyWord, kind) {
                    self.put(depth, &[Token(Any(Mode::Condition, Words::AnyWord))])
                } else {
                    Ok(Step::Refused)
                }
            }
        }
    }

    pub(crate) fn element_value(&mut self, depth: u8, kind: Kind) -> Result<Step, Memory>
        ensures { IsRead part.ElementValue depth kind result self.old.left.items self.new.left.items }
    {
        match kind {
            Kind::Open => {
                self.put(
                    depth,
                    &[
                        Token(One(Mode::Target, Kind::Open)),
                        P(Part::Text(Mode::Subscript)),
                        Make(Mark::SubscriptEnds),
                        Token(One(Mode::Subscript, Kind::Close)),
                        P(Part::ElementValue),
                    ],
                )
            }
            Kind::Member => {
                self.put(
                    depth,
                    &[
                        Token(One(Mode::Target, Kind::Member)),
                        P(Part::ElementValue),
                    ],
                )
            }
            Kind::Assign => {
                self.put(
                    depth,
                    &[
                        Token(One(Mode::Target, Kind::Assign)),
                        P(Part::Text(Mode::Word)),
                        Token(One(Mode::Word, Kind::WordEnd)),
                    ],
                )
            }
            Kind::AddAssign => {
                self.put(
                    depth,
                    &[
                        Token(One(Mode::Target, Kind::AddAssign)),
                        P(Part::Text(Mode::Word)),
                        Token(One(Mode::Word, Kind::WordEnd)),
                    ],
                )
            }
            Kind::ValueOpen => {
                self.put(
                    depth,
                    &[Token(One(Mode::Target, Kind::ValueOpen)), P(Part::Value)],
                )
            }
            Kind::Otherwise => {
                self.put(
                    depth,
                    &[
                        Token(One(Mode::Target, Kind::Otherwise)),
                        P(Part::Text(Mode::Word)),
                        Token(One(Mode::Word, Kind::WordEnd)),
                    ],
                )
            }
            _ => { Ok(Step::Refused) }
        }
    }
}
