//! Members of values.
ghost use Rattle.ksh_syntax.specs.Steps.{IsRead};
ghost use Rattle.ksh_syntax.specs.declared.part.Part.TheVariants as part;

use crate::kind::{Kind, Mode};
use crate::part::Terminal::{Any, One};
use crate::part::{Ending, Mark, Part, Words};
use crate::reading::{Reading, Step};
use crate::words::is_in;
use ksh_base::Memory;
use ksh_grammar::Place::{Inside, Make, Part as P, Token};

impl Reading {
    pub(crate) fn member_element(&mut self, depth: u8, kind: Kind) -> Result<Step, Memory>
        ensures { IsRead part.MemberElement depth kind result self.old.left.items self.new.left.items }
    {
        match kind {
            Kind::Open => {
                self.put(
                    depth,
                    &[
                        Token(One(Mode::Target, Kind::Open)),
                        P(Part::Text(Mode::Subscript)),
                        Make(Mark::SubscriptEnds),
                        Token(One(Mode::Subscript, Kind::Close)),
                        P(Part::MemberElement),
                    ],
                )
            }
            Kind::Member => {
                self.put(
                    depth,
                    &[
                        Token(One(Mode::Target, Kind::Member)),
                        P(Part::MemberElement),
                    ],
                )
            }
            Kind::Assign => {
                self.put(
                    depth,
                    &[
                        Token(One(Mode::Target, Kind::Assign)),
                        P(Part::Text(Mode::Word)),
                        Token(One(Mode::Word, Kind::WordEnd)),
                    ],
                )
            }
            Kind::AddAssign => {
                self.put(
                    depth,
                    &[
                        Token(One(Mode::Target, Kind::AddAssign)),
                        P(Part::Text(Mode::Word)),
                        Token(One(Mode::Word, Kind::WordEnd)),
                    ],
                )
            }
            Kind::ValueOpen => {
                self.put(
                    depth,
                    &[Token(One(Mode::Target, Kind::ValueOpen)), P(Part::Value)],
                )
            }
            _ => { Ok(Step::Refused) }
        }
    }

    pub(crate) fn items_members(&mut self, depth: u8, kind: Kind) -> Result<Step, Memory>
        ensures { IsRead part.ItemsMembers depth kind result self.old.left.items self.new.left.items }
    {
        match kind {
            Kind::Close => {
                self.put(
                    depth,
                    &[Make(Mark::Closes), Token(One(Mode::Value, Kind::Close))],
                )
            }
            Kind::Semicolon => {
                self.put(
                    depth,
                    &[
                        Token(One(Mode::Value, Kind::Semicolon)),
                        P(Part::ItemsMembers),
                    ],
                )
            }
            Kind::Assignment => {
                self.put(
                    depth,
                    &[
                        Token(One(Mode::Value, Kind::Assignment)),
                        P(Part::ItemsMembers),
                    ],
                )
            }
            Kind::StartAssignment => {
                self.put(
                    depth,
                    &[
                        Token(One(Mode::Value, Kind::StartAssignment)),
                        P(Part::Text(Mode::Word)),
                        Token(One(Mode::Word, Kind::WordEnd)),
                        P(Part::ItemsMembers),
                    ],
                )
            }
            Kind::Element => {
                self.put(
                    depth,
                    &[
                        Token(One(Mode::Value, Kind::Element)),
                        P(Part::MemberElement),
                        P(Part::ItemsMembers),
                    ],
                )
            }
            Kind::ValueOpen => {
                self.put(
                    depth,
                    &[
                        Token(One(Mode::Value, Kind::ValueOpen)),
                        P(Part::Value),
                        P(Part::ItemsMembers),
                    ],
                )
            }
            Kind::Typeset => {
                self.put(
                    depth,
                    &[
                        Token(One(Mode::Value, Kind::Typeset)),
                        P(Part::TypesetMember),
                    ],
                )
            }
            Kind::Function => {
                self.put(
                    depth,
                    &[
                        Token(One(Mode::Value, Kind::Function)),
                        Token(Any(Mode::Value, Words::DottedName)),
                        P(Part::ValueLines),
                        Make(Mark::MemberBody),
                        Make(Mark::Opens),
                        Token(One(Mode::Value, Kind::LeftBrace)),
                        Inside(Part::Body(Ending::Word)),
                        Make(Mark::Closes),
                        Token(One(Mode::Command, Kind::RightBrace)),
                        P(Part::MemberRedirections),
                    ],
                )
            }
            Kind::In | Kind::Name | Kind::Dotted => {
                self.put(
                    depth,
                    &[
                        Token(Any(Mode::Value, Words::MemberName)),
                        P(Part::MemberFunction),
                    ],
                )
            }
            _ => { self.put(depth, &[P(Part::ValueLine), P(Part::ItemsMembers)]) }
        }
    }

    pub(crate) fn member_function(&mut self, depth: u8, kind: Kind) -> Result<Step, Memory>
        ensures { IsRead part.MemberFunction depth kind result self.old.left.items self.new.left.items }
    {
        match kind {
            Kind::Open => {
                self.put(
                    depth,
                    &[
                        Token(One(Mode::Value, Kind::Open)),
                        Token(One(Mode::Command, Kind::Close)),
                        P(Part::Newlines),
                        P(Part::Compound),
                        P(Part::MemberRedirections),
                    ],
                )
            }
            _ => { Ok(Step::Refused) }
        }
    }

    pub(crate) fn typeset_member(&mut self, depth: u8, kind: Kind) -> Result<Step, Memory>
        ensures { IsRead part.TypesetMember depth kind result self.old.left.items self.new.left.items }
    {
        match kind {
            Kind::Close => {
                self.put(
                    depth,
                    &[Make(Mark::Closes), Token(One(Mode::Value, Kind::Close))],
                )
            }
            Kind::Semicolon => {
                self.put(
                    depth,
                    &[
                        Token(One(Mode::Value, Kind::Semicolon)),
                        P(Part::ItemsMembers),
                    ],
                )
            }
            Kind::Assignment => {
                self.put(
                    depth,
                    &[
                        Token(One(Mode::Value, Kind::Assignment)),
                        P(Part::TypesetMember),
                    ],
                )
            }
            Kind::StartAssignment => {
                self.put(
                    depth,
                    &[
                        Token(One(Mode::Value, Kind::StartAssignment)),
                        P(Part::Text(Mode::Word)),
                        Token(One(Mode::Word, Kind::WordEnd)),
                        P(Part::TypesetMember),
                    ],
                )
            }
            Kind::Element => {
                self.put(
                    depth,
                    &[
                        Token(One(Mode::Value, Kind::Element)),
                        P(Part::MemberElement),
                        P(Part::TypesetMember),
                    ],
                )
            }
            Kind::ValueOpen => {
                self.put(
                    depth,
                    &[
                        Token(One(Mode::Value, Kind::ValueOpen)),
                        P(Part::Value),
                        P(Part::TypesetMember),
                    ],
                )
            }
            Kind::Start => {
                self.put(
                    depth,
                    &[
                        Token(One(Mode::Value, Kind::Start)),
                        P(Part::Text(Mode::Word)),
                        Token(One(Mode::Word, Kind::WordEnd)),
                        P(Part::TypesetMember),
                    ],
                )
            }
            _ => {
                if is_in(Words::NotAssignment, kind) {
                    self.put(
                        depth,
                        &[
                            Token(Any(Mode::Value, Words::NotAssignment)),
                            P(Part::TypesetMember),
                        ],
                    )
                } else {
                    self.put(depth, &[P(Part::ValueLine), P(Part::ItemsMembers)])
                }
            }
        }
    }

    pub(crate) fn member_redirections(&mut self, depth: u8, kind: Kind) -> Result<Step, Memory>
        ensures { IsRead part.MemberRedirections depth kind result self.old.left.items self.new.left.items }
    {
        match kind {
            Kind::Close => {
                self.put(
                    depth,
                    &[
                        Make(Mark::CompoundEnds),
                        Make(Mark::Closes),
                        Token(One(Mode::Command, Kind::Close)),
                    ],
                )
            }
            Kind::Semicolon => {
                self.put(
                    depth,
                    &[
                        Make(Mark::CompoundEnds),
                        Token(One(Mode::Command, Kind::Semicolon)),
                        P(Part::ItemsMembers),
                    ],
                )
            }
            Kind::Redirect | Kind::HereRedirect => {
                self.put(depth, &[P(Part::Redirection), P(Part::MemberRedirections)])
            }
            _ => {
                self.put(
                    depth,
                    &[
                        Make(Mark::CompoundEnds),
                        P(Part::Line),
                        P(Part::ItemsMembers),
                    ],
                )
            }
        }
    }
}
