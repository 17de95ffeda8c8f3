//! Values in parentheses that are known to be words, pairs or a function.
ghost use Rattle.ksh_syntax.specs.Steps.{IsRead};
ghost use Rattle.ksh_syntax.specs.declared.part.Part.TheVariants as part;

use crate::kind::{Kind, Mode};
use crate::part::Terminal::{Any, One};
use crate::part::{Ending, Mark, Part, Words};
use crate::reading::{Reading, Step};
use crate::words::is_in;
use ksh_base::Memory;
use ksh_grammar::Place::{Inside, Make, Part as P, Token};

impl Reading {
    pub(crate) fn items_function(&mut self, depth: u8, kind: Kind) -> Result<Step, Memory>
        ensures { IsRead part.ItemsFunction depth kind result self.old.left.items self.new.left.items }
    {
        match kind {
            Kind::Close => {
                self.put(
                    depth,
                    &[Make(Mark::Closes), Token(One(Mode::Value, Kind::Close))],
                )
            }
            Kind::Assignment => {
                self.put(
                    depth,
                    &[
                        Token(One(Mode::Value, Kind::Assignment)),
                        P(Part::ItemsWords),
                    ],
                )
            }
            Kind::StartAssignment => {
                self.put(
                    depth,
                    &[
                        Token(One(Mode::Value, Kind::StartAssignment)),
                        P(Part::Text(Mode::Word)),
                        Token(One(Mode::Word, Kind::WordEnd)),
                        P(Part::ItemsWords),
                    ],
                )
            }
            Kind::Start => {
                self.put(
                    depth,
                    &[
                        Token(One(Mode::Value, Kind::Start)),
                        P(Part::Text(Mode::Word)),
                        Token(One(Mode::Word, Kind::WordEnd)),
                        P(Part::ItemsWords),
                    ],
                )
            }
            _ => {
                if is_in(Words::DottedName, kind) {
                    self.put(
                        depth,
                        &[
                            Token(Any(Mode::Value, Words::DottedName)),
                            P(Part::ItemsBrace),
                        ],
                    )
                } else {
                    if is_in(Words::NotName, kind) {
                        self.put(
                            depth,
                            &[Token(Any(Mode::Value, Words::NotName)), P(Part::ItemsWords)],
                        )
                    } else {
                        self.put(depth, &[P(Part::ValueLine), P(Part::ItemsWords)])
                    }
                }
            }
        }
    }

    pub(crate) fn items_brace(&mut self, depth: u8, kind: Kind) -> Result<Step, Memory>
        ensures { IsRead part.ItemsBrace depth kind result self.old.left.items self.new.left.items }
    {
        match kind {
            Kind::Close => {
                self.put(
                    depth,
                    &[Make(Mark::Closes), Token(One(Mode::Value, Kind::Close))],
                )
            }
            Kind::LeftBrace => {
                self.put(
                    depth,
                    &[
                        Make(Mark::MemberBody),
                        Make(Mark::Opens),
                        Token(One(Mode::Value, Kind::LeftBrace)),
                        Inside(Part::Body(Ending::Word)),
                        Make(Mark::Closes),
                        Token(One(Mode::Command, Kind::RightBrace)),
                        P(Part::MemberRedirections),
                    ],
                )
            }
            Kind::Assignment => {
                self.put(
                    depth,
                    &[
                        Token(One(Mode::Value, Kind::Assignment)),
                        P(Part::ItemsWords),
                    ],
                )
            }
            Kind::StartAssignment => {
                self.put(
                    depth,
                    &[
                        Token(One(Mode::Value, Kind::StartAssignment)),
                        P(Part::Text(Mode::Word)),
                        Token(One(Mode::Word, Kind::WordEnd)),
                        P(Part::ItemsWords),
                    ],
                )
            }
            Kind::Start => {
                self.put(
                    depth,
                    &[
                        Token(One(Mode::Value, Kind::Start)),
                        P(Part::Text(Mode::Word)),
                        Token(One(Mode::Word, Kind::WordEnd)),
                        P(Part::ItemsWords),
                    ],
                )
            }
            _ => {
                if is_in(Words::NotBrace, kind) {
                    self.put(
                        depth,
                        &[
                            Token(Any(Mode::Value, Words::NotBrace)),
                            P(Part::ItemsWords),
                        ],
                    )
                } else {
                    self.put(depth, &[P(Part::ValueLine), P(Part::ItemsBrace)])
                }
            }
        }
    }

    pub(crate) fn after_item_name(&mut self, depth: u8, kind: Kind) -> Result<Step, Memory>
        ensures { IsRead part.AfterItemName depth kind result self.old.left.items self.new.left.items }
    {
        match kind {
            Kind::Open => {
                self.put(
                    depth,
                    &[
                        Token(One(Mode::Value, Kind::Open)),
                        Token(One(Mode::Command, Kind::Close)),
                        P(Part::Newlines),
                        P(Part::Compound),
                        P(Part::MemberRedirections),
                    ],
                )
            }
            Kind::Close => {
                self.put(
                    depth,
                    &[Make(Mark::Closes), Token(One(Mode::Value, Kind::Close))],
                )
            }
            Kind::Assignment => {
                self.put(
                    depth,
                    &[
                        Token(One(Mode::Value, Kind::Assignment)),
                        P(Part::ItemsWords),
                    ],
                )
            }
            Kind::StartAssignment => {
                self.put(
                    depth,
                    &[
                        Token(One(Mode::Value, Kind::StartAssignment)),
                        P(Part::Text(Mode::Word)),
                        Token(One(Mode::Word, Kind::WordEnd)),
                        P(Part::ItemsWords),
                    ],
                )
            }
            Kind::Start => {
                self.put(
                    depth,
                    &[
                        Token(One(Mode::Value, Kind::Start)),
                        P(Part::Text(Mode::Word)),
                        Token(One(Mode::Word, Kind::WordEnd)),
                        P(Part::ItemsWords),
                    ],
                )
            }
            _ => {
                if is_in(Words::NotAssignment, kind) {
                    self.put(
                        depth,
                        &[
                            Token(Any(Mode::Value, Words::NotAssignment)),
                            P(Part::ItemsWords),
                        ],
                    )
                } else {
                    self.put(depth, &[P(Part::ValueLine), P(Part::ItemsWords)])
                }
            }
        }
    }

    pub(crate) fn items_words(&mut self, depth: u8, kind: Kind) -> Result<Step, Memory>
        ensures { IsRead part.ItemsWords depth kind result self.old.left.items self.new.left.items }
    {
        match kind {
            Kind::Close => {
                self.put(
                    depth,
                    &[Make(Mark::Closes), Token(One(Mode::Value, Kind::Close))],
                )
            }
            Kind::Assignment => {
                self.put(
                    depth,
                    &[
                        Token(One(Mode::Value, Kind::Assignment)),
                        P(Part::ItemsWords),
                    ],
                )
            }
            Kind::StartAssignment => {
                self.put(
                    depth,
                    &[
                        Token(One(Mode::Value, Kind::StartAssignment)),
                        P(Part::Text(Mode::Word)),
                        Token(One(Mode::Word, Kind::WordEnd)),
                        P(Part::ItemsWords),
                    ],
                )
            }
            Kind::Start => {
                self.put(
                    depth,
                    &[
                        Token(One(Mode::Value, Kind::Start)),
                        P(Part::Text(Mode::Word)),
                        Token(One(Mode::Word, Kind::WordEnd)),
                        P(Part::ItemsWords),
                    ],
                )
            }
            Kind::Key => {
                self.put(
                    depth,
                    &[
                        Token(One(Mode::Value, Kind::Key)),
                        P(Part::Text(Mode::Subscript)),
                        Make(Mark::SubscriptEnds),
                        Token(One(Mode::Subscript, Kind::Close)),
                        P(Part::KeyValue),
                        P(Part::ItemsWords),
                    ],
                )
            }
            _ => {
                if is_in(Words::NotAssignment, kind) {
                    self.put(
                        depth,
                        &[
                            Token(Any(Mode::Value, Words::NotAssignment)),
                            P(Part::ItemsWords),
                        ],
                    )
                } else {
                    self.put(depth, &[P(Part::ValueLine), P(Part::ItemsWords)])
                }
            }
        }
    }

    pub(crate) fn items_pairs(&mut self, depth: u8, kind: Kind) -> Result<Step, Memory>
        ensures { IsRead part.ItemsPairs depth kind result self.old.left.items self.new.left.items }
    {
        match kind {
            Kind::Close => {
                self.put(
                    depth,
                    &[Make(Mark::Closes), Token(One(Mode::Value, Kind::Close))],
                )
            }
            Kind::Key => {
                self.put(
                    depth,
                    &[
                        Token(One(Mode::Value, Kind::Key)),
                        P(Part::Text(Mode::Subscript)),
                        Make(Mark::SubscriptEnds),
                        Token(One(Mode::Subscript, Kind::Close)),
                        P(Part::KeyValue),
                        P(Part::ItemsPairs),
                    ],
                )
            }
            Kind::Assignment => {
                self.put(
                    depth,
                    &[
                        Token(One(Mode::Value, Kind::Assignment)),
                        P(Part::ItemsWords),
                    ],
                )
            }
            Kind::StartAssignment => {
                self.put(
                    depth,
                    &[
                        Token(One(Mode::Value, Kind::StartAssignment)),
                        P(Part::Text(Mode::Word)),
                        Token(One(Mode::Word, Kind::WordEnd)),
                        P(Part::ItemsWords),
                    ],
                )
            }
            Kind::Start => {
                self.put(
                    depth,
                    &[
                        Token(One(Mode::Value, Kind::Start)),
                        P(Part::Text(Mode::Word)),
                        Token(One(Mode::Word, Kind::WordEnd)),
                        P(Part::ItemsWords),
                    ],
                )
            }
            _ => {
                if is_in(Words::NotAssignment, kind) {
                    self.put(
                        depth,
                        &[
                            Token(Any(Mode::Value, Words::NotAssignment)),
                            P(Part::ItemsWords),
                        ],
                    )
                } else {
                    self.put(depth, &[P(Part::ValueLine), P(Part::ItemsPairs)])
                }
            }
        }
    }
}
