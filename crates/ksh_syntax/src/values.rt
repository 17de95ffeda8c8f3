//! Values in parentheses that may still be words.
ghost use Rattle.ksh_syntax.specs.Steps.{IsRead};
ghost use Rattle.ksh_syntax.specs.declared.part.Part.TheVariants as part;

use crate::kind::{Kind, Mode};
use crate::part::Terminal::{Any, One};
use crate::part::{Ending, Mark, Part, Words};
use crate::reading::{Reading, Step};
use crate::words::is_in;
use ksh_base::Memory;
use ksh_grammar::Place::{Inside, Make, Part as P, Token};

impl Reading {
    pub(crate) fn value(&mut self, depth: u8, kind: Kind) -> Result<Step, Memory>
        ensures { IsRead part.Value depth kind result self.old.left.items self.new.left.items }
    {
        match kind {
            Kind::Open => {
                self.put(
                    depth,
                    &[
                        Make(Mark::Opens),
                        Token(One(Mode::Value, Kind::Open)),
                        Inside(Part::Items),
                    ],
                )
            }
            _ => { Ok(Step::Refused) }
        }
    }

    pub(crate) fn value_line(&mut self, depth: u8, kind: Kind) -> Result<Step, Memory>
        ensures { IsRead part.ValueLine depth kind result self.old.left.items self.new.left.items }
    {
        match kind {
            Kind::Newline => { self.put(depth, &[Token(One(Mode::Value, Kind::Newline))]) }
            Kind::NewlineBodies => {
                self.put(
                    depth,
                    &[
                        Token(One(Mode::Value, Kind::NewlineBodies)),
                        P(Part::BodyTexts),
                    ],
                )
            }
            _ => { Ok(Step::Refused) }
        }
    }

    pub(crate) fn value_lines(&mut self, depth: u8, kind: Kind) -> Result<Step, Memory>
        ensures { IsRead part.ValueLines depth kind result self.old.left.items self.new.left.items }
    {
        match kind {
            Kind::Newline | Kind::NewlineBodies => {
                self.put(depth, &[P(Part::ValueLine), P(Part::ValueLines)])
            }
            _ => { self.put(depth, &[]) }
        }
    }

    pub(crate) fn items(&mut self, depth: u8, kind: Kind) -> Result<Step, Memory>
        ensures { IsRead part.Items depth kind result self.old.left.items self.new.left.items }
    {
        match kind {
            Kind::Close => {
                self.put(
                    depth,
                    &[Make(Mark::Closes), Token(One(Mode::Value, Kind::Close))],
                )
            }
            Kind::Semicolon => {
                self.put(
                    depth,
                    &[
                        Token(One(Mode::Value, Kind::Semicolon)),
                        P(Part::ItemsMembers),
                    ],
                )
            }
            Kind::Assignment => {
                self.put(
                    depth,
                    &[
                        Token(One(Mode::Value, Kind::Assignment)),
                        P(Part::ItemsMixed),
                    ],
                )
            }
            Kind::StartAssignment => {
                self.put(
                    depth,
                    &[
                        Token(One(Mode::Value, Kind::StartAssignment)),
                        P(Part::Text(Mode::Word)),
                        Token(One(Mode::Word, Kind::WordEnd)),
                        P(Part::ItemsMixed),
                    ],
                )
            }
            Kind::Element => {
                self.put(
                    depth,
                    &[Token(One(Mode::Value, Kind::Element)), P(Part::ItemElement)],
                )
            }
            Kind::ValueOpen => {
                self.put(
                    depth,
                    &[
                        Token(One(Mode::Value, Kind::ValueOpen)),
                        P(Part::Value),
                        P(Part::ItemsMembers),
                    ],
                )
            }
            Kind::Key => {
                self.put(
                    depth,
                    &[
                        Token(One(Mode::Value, Kind::Key)),
                        P(Part::Text(Mode::Subscript)),
                        Make(Mark::SubscriptEnds),
                        Token(One(Mode::Subscript, Kind::Close)),
                        P(Part::KeyValue),
                        P(Part::ItemsPairs),
                    ],
                )
            }
            Kind::Typeset => {
                self.put(
                    depth,
                    &[
                        Token(One(Mode::Value, Kind::Typeset)),
                        P(Part::ItemsTypeset),
                    ],
                )
            }
            Kind::Function => {
                self.put(
                    depth,
                    &[
                        Token(One(Mode::Value, Kind::Function)),
                        P(Part::ItemsFunction),
                    ],
                )
            }
            Kind::In | Kind::Name | Kind::Dotted => {
                self.put(
                    depth,
                    &[
                        Token(Any(Mode::Value, Words::MemberName)),
                        P(Part::AfterItemName),
                    ],
                )
            }
            Kind::Start => {
                self.put(
                    depth,
                    &[
                        Token(One(Mode::Value, Kind::Start)),
                        P(Part::Text(Mode::Word)),
                        Token(One(Mode::Word, Kind::WordEnd)),
                        P(Part::ItemsWords),
                    ],
                )
            }
            _ => {
                if is_in(Words::ItemWord, kind) {
                    self.put(
                        depth,
                        &[
                            Token(Any(Mode::Value, Words::ItemWord)),
                            P(Part::ItemsWords),
                        ],
                    )
                } else {
                    self.put(depth, &[P(Part::ValueLine), P(Part::Items)])
                }
            }
        }
    }

    pub(crate) fn key_value(&mut self, depth: u8, kind: Kind) -> Result<Step, Memory>
        ensures { IsRead part.KeyValue depth kind result self.old.left.items self.new.left.items }
    {
        match kind {
            Kind::Assign => {
                self.put(
                    depth,
                    &[
                        Token(One(Mode::Target, Kind::Assign)),
                        P(Part::Text(Mode::Word)),
                        Token(One(Mode::Word, Kind::WordEnd)),
                    ],
                )
            }
            _ => { Ok(Step::Refused) }
        }
    }

    pub(crate) fn items_mixed(&mut self, depth: u8, kind: Kind) -> Result<Step, Memory>
        ensures { IsRead part.ItemsMixed depth kind result self.old.left.items self.new.left.items }
    {
        match kind {
            Kind::Close => {
                self.put(
                    depth,
                    &[Make(Mark::Closes), Token(One(Mode::Value, Kind::Close))],
                )
            }
            Kind::Semicolon => {
                self.put(
                    depth,
                    &[
                        Token(One(Mode::Value, Kind::Semicolon)),
                        P(Part::ItemsMembers),
                    ],
                )
            }
            Kind::Assignment => {
                self.put(
                    depth,
                    &[
                        Token(One(Mode::Value, Kind::Assignment)),
                        P(Part::ItemsMixed),
                    ],
                )
            }
            Kind::StartAssignment => {
                self.put(
                    depth,
                    &[
                        Token(One(Mode::Value, Kind::StartAssignment)),
                        P(Part::Text(Mode::Word)),
                        Token(One(Mode::Word, Kind::WordEnd)),
                        P(Part::ItemsMixed),
                    ],
                )
            }
            Kind::Element => {
                self.put(
                    depth,
                    &[Token(One(Mode::Value, Kind::Element)), P(Part::ItemElement)],
                )
            }
            Kind::ValueOpen => {
                self.put(
                    depth,
                    &[
                        Token(One(Mode::Value, Kind::ValueOpen)),
                        P(Part::Value),
                        P(Part::ItemsMembers),
                    ],
                )
            }
            Kind::Key => {
                self.put(
                    depth,
                    &[
                        Token(One(Mode::Value, Kind::Key)),
                        P(Part::Text(Mode::Subscript)),
                        Make(Mark::SubscriptEnds),
                        Token(One(Mode::Subscript, Kind::Close)),
                        P(Part::KeyValue),
                        P(Part::ItemsWords),
                    ],
                )
            }
            Kind::Typeset => {
                self.put(
                    depth,
                    &[
                        Token(One(Mode::Value, Kind::Typeset)),
                        P(Part::ItemsTypeset),
                    ],
                )
            }
            Kind::Function => {
                self.put(
                    depth,
                    &[
                        Token(One(Mode::Value, Kind::Function)),
                        P(Part::ItemsFunction),
                    ],
                )
            }
            Kind::In | Kind::Name | Kind::Dotted => {
                self.put(
                    depth,
                    &[
                        Token(Any(Mode::Value, Words::MemberName)),
                        P(Part::AfterItemName),
                    ],
                )
            }
            Kind::Start => {
                self.put(
                    depth,
                    &[
                        Token(One(Mode::Value, Kind::Start)),
                        P(Part::Text(Mode::Word)),
                        Token(One(Mode::Word, Kind::WordEnd)),
                        P(Part::ItemsWords),
                    ],
                )
            }
            _ => {
                if is_in(Words::ItemWord, kind) {
                    self.put(
                        depth,
                        &[
                            Token(Any(Mode::Value, Words::ItemWord)),
                            P(Part::ItemsWords),
                        ],
                    )
                } else {
                    self.put(depth, &[P(Part::ValueLine), P(Part::ItemsMixed)])
                }
            }
        }
    }

    pub(crate) fn item_element(&mut self, depth: u8, kind: Kind) -> Result<Step, Memory>
        ensures { IsRead part.ItemElement depth kind result self.old.left.items self.new.left.items }
    {
        match kind {
            Kind::Open => {
                self.put(
                    depth,
                    &[
                        Token(One(Mode::Target, Kind::Open)),
                        P(Part::Text(Mode::Subscript)),
                        Make(Mark::SubscriptEnds),
                        Token(One(Mode::Subscript, Kind::Close)),
                        P(Part::ItemElement),
                    ],
                )
            }
            Kind::Member => {
                self.put(
                    depth,
                    &[Token(One(Mode::Target, Kind::Member)), P(Part::ItemElement)],
                )
            }
            Kind::Assign => {
                self.put(
                    depth,
                    &[
                        Token(One(Mode::Target, Kind::Assign)),
                        P(Part::Text(Mode::Word)),
                        Token(One(Mode::Word, Kind::WordEnd)),
                        P(Part::ItemsMixed),
                    ],
                )
            }
            Kind::AddAssign => {
                self.put(
                    depth,
                    &[
                        Token(One(Mode::Target, Kind::AddAssign)),
                        P(Part::Text(Mode::Word)),
                        Token(One(Mode::Word, Kind::WordEnd)),
                        P(Part::ItemsMixed),
                    ],
                )
            }
            Kind::ValueOpen => {
                self.put(
                    depth,
                    &[
                        Token(One(Mode::Target, Kind::ValueOpen)),
                        P(Part::Value),
                        P(Part::ItemsMembers),
                    ],
                )
            }
            Kind::Otherwise => {
                self.put(
                    depth,
                    &[
                        Token(One(Mode::Target, Kind::Otherwise)),
                        P(Part::Text(Mode::Word)),
                        Token(One(Mode::Word, Kind::WordEnd)),
                        P(Part::ItemsWords),
                    ],
                )
            }
            _ => { Ok(Step::Refused) }
        }
    }

    pub(crate) fn items_typeset(&mut self, depth: u8, kind: Kind) -> Result<Step, Memory>
        ensures { IsRead part.ItemsTypeset depth kind result self.old.left.items self.new.left.items }
    {
        match kind {
            Kind::Close => {
                self.put(
                    depth,
                    &[Make(Mark::Closes), Token(One(Mode::Value, Kind::Close))],
                )
            }
            Kind::Semicolon => {
                self.put(
                    depth,
                    &[
                        Token(One(Mode::Value, Kind::Semicolon)),
                        P(Part::ItemsMembers),
                    ],
                )
            }
            Kind::Assignment => {
                self.put(
                    depth,
                    &[
                        Token(One(Mode::Value, Kind::Assignment)),
                        P(Part::ItemsTypeset),
                    ],
                )
            }
            Kind::StartAssignment => {
                self.put(
                    depth,
                    &[
                        Token(One(Mode::Value, Kind::StartAssignment)),
                        P(Part::Text(Mode::Word)),
                        Token(One(Mode::Word, Kind::WordEnd)),
                        P(Part::ItemsTypeset),
                    ],
                )
            }
            Kind::Element => {
                self.put(
                    depth,
                    &[
                        Token(One(Mode::Value, Kind::Element)),
                        P(Part::MemberElement),
                        P(Part::TypesetMember),
                    ],
                )
            }
            Kind::ValueOpen => {
                self.put(
                    depth,
                    &[
                        Token(One(Mode::Value, Kind::ValueOpen)),
                        P(Part::Value),
                        P(Part::TypesetMember),
                    ],
                )
            }
            Kind::Start => {
                self.put(
                    depth,
                    &[
                        Token(One(Mode::Value, Kind::Start)),
                        P(Part::Text(Mode::Word)),
                        Token(One(Mode::Word, Kind::WordEnd)),
                        P(Part::ItemsTypeset),
                    ],
                )
            }
            _ => {
                if is_in(Words::NotAssignment, kind) {
                    self.put(
                        depth,
                        &[
                            Token(Any(Mode::Value, Words::NotAssignment)),
                            P(Part::ItemsTypeset),
                        ],
                    )
                } else {
                    self.put(depth, &[P(Part::ValueLine), P(Part::ItemsMixed)])
                }
            }
        }
    }
}
