//! Compound commands.
ghost use Rattle.ksh_syntax.specs.Steps.{IsRead};
ghost use Rattle.ksh_syntax.specs.declared.part.Part.TheVariants as part;

use crate::kind::{Kind, Mode};
use crate::part::Terminal::{Any, One};
use crate::part::{Ending, Mark, Part, Words};
use crate::reading::{Reading, Step};
use crate::words::is_in;
use ksh_base::Memory;
use ksh_grammar::Place::{Inside, Make, Part as P, Token};

impl Reading {
    pub(crate) fn script(&mut self, depth: u8, _kind: Kind) -> Result<Step, Memory>
        ensures { IsRead part.Script depth _kind result self.old.left.items self.new.left.items }
    {
        self.put(
            depth,
            &[
                P(Part::Lines(Ending::Operator)),
                Token(One(Mode::Command, Kind::End)),
            ],
        )
    }

    pub(crate) fn compounded(&mut self, depth: u8, kind: Kind) -> Result<Step, Memory>
        ensures { IsRead part.Compounded depth kind result self.old.left.items self.new.left.items }
    {
        match kind {
            Kind::Function => {
                self.put(
                    depth,
                    &[
                        Token(One(Mode::Command, Kind::Function)),
                        Token(Any(Mode::Command, Words::DottedName)),
                        P(Part::Newlines),
                        Make(Mark::Opens),
                        Token(One(Mode::Command, Kind::LeftBrace)),
                        Inside(Part::Body(Ending::Word)),
                        Make(Mark::Closes),
                        Token(One(Mode::Command, Kind::RightBrace)),
                        P(Part::Redirections),
                    ],
                )
            }
            _ => { self.put(depth, &[P(Part::Compound), P(Part::Redirections)]) }
        }
    }

    pub(crate) fn compound(&mut self, depth: u8, kind: Kind) -> Result<Step, Memory>
        ensures { IsRead part.Compound depth kind result self.old.left.items self.new.left.items }
    {
        match kind {
            Kind::LeftBrace => {
                self.put(
                    depth,
                    &[
                        Make(Mark::Opens),
                        Token(One(Mode::Command, Kind::LeftBrace)),
                        Inside(Part::Body(Ending::Word)),
                        Make(Mark::Closes),
                        Token(One(Mode::Command, Kind::RightBrace)),
                    ],
                )
            }
            Kind::Open => {
                self.put(
                    depth,
                    &[
                        Make(Mark::Opens),
                        Token(One(Mode::Command, Kind::Open)),
                        Inside(Part::Body(Ending::Operator)),
                        Make(Mark::Closes),
                        Token(One(Mode::Command, Kind::Close)),
                    ],
                )
            }
            Kind::DoubleParenthesis => {
                self.put(
                    depth,
                    &[
                        Make(Mark::Opens),
                        Token(One(Mode::Command, Kind::DoubleParenthesis)),
                        Inside(Part::Text(Mode::Arithmetic)),
                        Make(Mark::Closes),
                        Token(One(Mode::Arithmetic, Kind::Close)),
                    ],
                )
            }
            Kind::LeftBrackets => {
                self.put(
                    depth,
                    &[
                        Make(Mark::Opens),
                        Token(One(Mode::Command, Kind::LeftBrackets)),
                        Inside(Part::Condition),
                        Make(Mark::Closes),
                        Token(One(Mode::Condition, Kind::RightBrackets)),
                    ],
                )
            }
            Kind::If => {
                self.put(
                    depth,
                    &[
                        Make(Mark::Opens),
                        Token(One(Mode::Command, Kind::If)),
                        Inside(Part::IfBody),
                    ],
                )
            }
            Kind::While => {
                self.put(
                    depth,
                    &[
                        Make(Mark::Opens),
                        Token(One(Mode::Command, Kind::While)),
                        Inside(Part::LoopBody),
                    ],
                )
            }
            Kind::Until => {
                self.put(
                    depth,
                    &[
                        Make(Mark::Opens),
                        Token(One(Mode::Command, Kind::Until)),
                        Inside(Part::LoopBody),
                    ],
                )
            }
            Kind::For => {
                self.put(
                    depth,
                    &[
                        Make(Mark::Opens),
                        Token(One(Mode::Command, Kind::For)),
                        Inside(Part::ForBody),
                    ],
                )
            }
            Kind::Select => {
                self.put(
                    depth,
                    &[
                        Make(Mark::Opens),
                        Token(One(Mode::Command, Kind::Select)),
                        Inside(Part::SelectBody),
                    ],
                )
            }
            Kind::Case => {
                self.put(
                    depth,
                    &[
                        Make(Mark::Opens),
                        Token(One(Mode::Command, Kind::Case)),
                        Inside(Part::CaseBody),
                    ],
                )
            }
            _ => { Ok(Step::Refused) }
        }
    }

    pub(crate) fn if_body(&mut self, depth: u8, _kind: Kind) -> Result<Step, Memory>
        ensures { IsRead part.IfBody depth _kind result self.old.left.items self.new.left.items }
    {
        self.put(
            depth,
            &[
                P(Part::Body(Ending::Word)),
                Token(One(Mode::Command, Kind::Then)),
                P(Part::Body(Ending::Word)),
                P(Part::IfRest),
            ],
        )
    }

    pub(crate) fn if_rest(&mut self, depth: u8, kind: Kind) -> Result<Step, Memory>
        ensures { IsRead part.IfRest depth kind result self.old.left.items self.new.left.items }
    {
        match kind {
            Kind::Elif => {
                self.put(
                    depth,
                    &[
                        Token(One(Mode::Command, Kind::Elif)),
                        P(Part::Body(Ending::Word)),
                        Token(One(Mode::Command, Kind::Then)),
                        P(Part::Body(Ending::Word)),
                        P(Part::IfRest),
                    ],
                )
            }
            Kind::Else => {
                self.put(
                    depth,
                    &[
                        Token(One(Mode::Command, Kind::Else)),
                        P(Part::Body(Ending::Word)),
                        Make(Mark::Closes),
                        Token(One(Mode::Command, Kind::Fi)),
                    ],
                )
            }
            Kind::Fi => {
                self.put(
                    depth,
                    &[Make(Mark::Closes), Token(One(Mode::Command, Kind::Fi))],
                )
            }
            _ => { Ok(Step::Refused) }
        }
    }

    pub(crate) fn loop_body(&mut self, depth: u8, _kind: Kind) -> Result<Step, Memory>
        ensures { IsRead part.LoopBody depth _kind result self.old.left.items self.new.left.items }
    {
        self.put(
            depth,
            &[
                P(Part::Body(Ending::Word)),
                Token(One(Mode::Command, Kind::Do)),
                P(Part::Body(Ending::Word)),
                Make(Mark::Closes),
                Token(One(Mode::Command, Kind::Done)),
            ],
        )
    }

    pub(crate) fn for_body(&mut self, depth: u8, kind: Kind) -> Result<Step, Memory>
        ensures { IsRead part.ForBody depth kind result self.old.left.items self.new.left.items }
    {
        match kind {
            Kind::DoubleParenthesis => {
                self.put(
                    depth,
                    &[
                        Make(Mark::Opens),
                        Token(One(Mode::Command, Kind::DoubleParenthesis)),
                        P(Part::Text(Mode::LoopArithmetic)),
                        Token(One(Mode::LoopArithmetic, Kind::Separator)),
                        P(Part::Text(Mode::LoopArithmetic)),
                        Token(One(Mode::LoopArithmetic, Kind::Separator)),
                        P(Part::Text(Mode::Arithmetic)),
                        Make(Mark::Closes),
                        Token(One(Mode::Arithmetic, Kind::Close)),
                        P(Part::ForSeparator),
                        Token(One(Mode::Command, Kind::Do)),
                        P(Part::Body(Ending::Word)),
                        Make(Mark::Closes),
                        Token(One(Mode::Command, Kind::Done)),
                    ],
                )
            }
            _ => {
                if is_in(Words::VariableName, kind) {
                    self.put(
                        depth,
                        &[
                            Token(Any(Mode::Command, Words::VariableName)),
                            P(Part::ForWords),
                        ],
                    )
                } else {
                    Ok(Step::Refused)
                }
            }
        }
    }

    pub(crate) fn for_separator(&mut self, depth: u8, kind: Kind) -> Result<Step, Memory>
        ensures { IsRead part.ForSeparator depth kind result self.old.left.items self.new.left.items }
    {
        match kind {
            Kind::Semicolon => {
                self.put(
                    depth,
                    &[
                        Token(One(Mode::Command, Kind::Semicolon)),
                        P(Part::Newlines),
                    ],
                )
            }
            _ => { self.put(depth, &[P(Part::Newlines)]) }
        }
    }

    pub(crate) fn select_body(&mut self, depth: u8, kind: Kind) -> Result<Step, Memory>
        ensures { IsRead part.SelectBody depth kind result self.old.left.items self.new.left.items }
    {
        match kind {
            _ => {
                if is_in(Words::VariableName, kind) {
                    self.put(
                        depth,
                        &[
                            Token(Any(Mode::Command, Words::VariableName)),
                            P(Part::ForWords),
                        ],
                    )
                } else {
                    Ok(Step::Refused)
                }
            }
        }
    }

    pub(crate) fn for_words(&mut self, depth: u8, kind: Kind) -> Result<Step, Memory>
        ensures { IsRead part.ForWords depth kind result self.old.left.items self.new.left.items }
    {
        match kind {
            Kind::In => {
                self.put(
                    depth,
                    &[Token(One(Mode::Command, Kind::In)), P(Part::WordList)],
                )
            }
            Kind::Do => {
                self.put(
                    depth,
                    &[
                        Token(One(Mode::Command, Kind::Do)),
                        P(Part::Body(Ending::Word)),
                        Make(Mark::Closes),
                        Token(One(Mode::Command, Kind::Done)),
                    ],
                )
            }
            Kind::Semicolon => {
                self.put(
                    depth,
                    &[
                        Token(One(Mode::Command, Kind::Semicolon)),
                        P(Part::Newlines),
                        Token(One(Mode::Command, Kind::Do)),
                        P(Part::Body(Ending::Word)),
                        Make(Mark::Closes),
                        Token(One(Mode::Command, Kind::Done)),
                    ],
                )
            }
            _ => { self.put(depth, &[P(Part::Line), P(Part::ForLines)]) }
        }
    }

    pub(crate) fn for_lines(&mut self, depth: u8, kind: Kind) -> Result<Step, Memory>
        ensures { IsRead part.ForLines depth kind result self.old.left.items self.new.left.items }
    {
        match kind {
            Kind::In => {
                self.put(
                    depth,
                    &[Token(One(Mode::Command, Kind::In)), P(Part::WordList)],
                )
            }
            Kind::Do => {
                self.put(
                    depth,
                    &[
                        Token(One(Mode::Command, Kind::Do)),
                        P(Part::Body(Ending::Word)),
                        Make(Mark::Closes),
                        Token(One(Mode::Command, Kind::Done)),
                    ],
                )
            }
            _ => { self.put(depth, &[P(Part::Line), P(Part::ForLines)]) }
        }
    }

    pub(crate) fn word_list(&mut self, depth: u8, kind: Kind) -> Result<Step, Memory>
        ensures { IsRead part.WordList depth kind result self.old.left.items self.new.left.items }
    {
        match kind {
            Kind::Start | Kind::StartAssignment => {
                self.put(
                    depth,
                    &[
                        Token(Any(Mode::Command, Words::AnyStart)),
                        P(Part::Text(Mode::Word)),
                        Token(One(Mode::Word, Kind::WordEnd)),
                        P(Part::WordList),
                    ],
                )
            }
            Kind::Semicolon => {
                self.put(
                    depth,
                    &[
                        Token(One(Mode::Command, Kind::Semicolon)),
                        P(Part::Newlines),
                        Token(One(Mode::Command, Kind::Do)),
                        P(Part::Body(Ending::Word)),
                        Make(Mark::Closes),
                        Token(One(Mode::Command, Kind::Done)),
                    ],
                )
            }
            _ => {
                if is_in(Words::AnyWord, kind) {
                    self.put(
                        depth,
                        &[Token(Any(Mode::Command, Words::AnyWord)), P(Part::WordList)],
                    )
                } else {
                    self.put(
                        depth,
                        &[
                            P(Part::Line),
                            P(Part::Newlines),
                            Token(One(Mode::Command, Kind::Do)),
                            P(Part::Body(Ending::Word)),
                            Make(Mark::Closes),
                            Token(One(Mode::Command, Kind::Done)),
                        ],
                    )
                }
            }
        }
    }

    pub(crate) fn case_body(&mut self, depth: u8, _kind: Kind) -> Result<Step, Memory>
        ensures { IsRead part.CaseBody depth _kind result self.old.left.items self.new.left.items }
    {
        self.put(
            depth,
            &[
                P(Part::AnyWord),
                P(Part::Newlines),
                Token(One(Mode::Command, Kind::In)),
                P(Part::CaseItems),
            ],
        )
    }

    pub(crate) fn any_word(&mut self, depth: u8, kind: Kind) -> Result<Step, Memory>
        ensures { IsRead part.AnyWord depth kind result self.old.left.items self.new.left.items }
    {
        match kind {
            Kind::Start | Kind::StartAssignment => {
                self.put(
                    depth,
                    &[
                        Token(Any(Mode::Command, Words::AnyStart)),
                        P(Part::Text(Mode::Word)),
                        Token(One(Mode::Word, Kind::WordEnd)),
                    ],
                )
            }
            _ => {
                if is_in(Words::AnyWord, kind) {
                    self.put(depth, &[Token(Any(Mode::Command, Words::AnyWord))])
                } else {
                    Ok(Step::Refused)
                }
            }
        }
    }

    pub(crate) fn case_items(&mut self, depth: u8, kind: Kind) -> Result<Step, Memory>
        ensures { IsRead part.CaseItems depth kind result self.old.left.items self.new.left.items }
    {
        match kind {
            Kind::Esac => {
                self.put(
                    depth,
                    &[Make(Mark::Closes), Token(One(Mode::Pattern, Kind::Esac))],
                )
            }
            Kind::Open => {
                self.put(
                    depth,
                    &[
                        Token(One(Mode::Pattern, Kind::Open)),
                        P(Part::PatternWord),
                        P(Part::PatternRest),
                        P(Part::Lines(Ending::Case)),
                    ],
                )
            }
            Kind::Start | Kind::StartAssignment | Kind::Element | Kind::ValueOpen => {
                self.put(
                    depth,
                    &[
                        Token(Any(Mode::Pattern, Words::EveryStart)),
                        P(Part::Text(Mode::Word)),
                        Token(One(Mode::Word, Kind::WordEnd)),
                        P(Part::PatternRest),
                        P(Part::Lines(Ending::Case)),
                    ],
                )
            }
            _ => {
                if is_in(Words::NotEsac, kind) {
                    self.put(
                        depth,
                        &[
                            Token(Any(Mode::Pattern, Words::NotEsac)),
                            P(Part::PatternRest),
                            P(Part::Lines(Ending::Case)),
                        ],
                    )
                } else {
                    self.put(depth, &[P(Part::PatternLine), P(Part::CaseItems)])
                }
            }
        }
    }

    pub(crate) fn pattern_line(&mut self, depth: u8, kind: Kind) -> Result<Step, Memory>
        ensures { IsRead part.PatternLine depth kind result self.old.left.items self.new.left.items }
    {
        match kind {
            Kind::Newline => { self.put(depth, &[Token(One(Mode::Pattern, Kind::Newline))]) }
            Kind::NewlineBodies => {
                self.put(
                    depth,
                    &[
                        Token(One(Mode::Pattern, Kind::NewlineBodies)),
                        P(Part::BodyTexts),
                    ],
                )
            }
            _ => { Ok(Step::Refused) }
        }
    }

    pub(crate) fn pattern_rest(&mut self, depth: u8, kind: Kind) -> Result<Step, Memory>
        ensures { IsRead part.PatternRest depth kind result self.old.left.items self.new.left.items }
    {
        match kind {
            Kind::Bar => {
                self.put(
                    depth,
                    &[
                        Token(One(Mode::Pattern, Kind::Bar)),
                        P(Part::PatternWord),
                        P(Part::PatternRest),
                    ],
                )
            }
            Kind::Close => { self.put(depth, &[Token(One(Mode::Pattern, Kind::Close))]) }
            _ => { Ok(Step::Refused) }
        }
    }

    pub(crate) fn pattern_word(&mut self, depth: u8, kind: Kind) -> Result<Step, Memory>
        ensures { IsRead part.PatternWord depth kind result self.old.left.items self.new.left.items }
    {
        match kind {
            Kind::Start | Kind::StartAssignment | Kind::Element | Kind::ValueOpen => {
                self.put(
                    depth,
                    &[
                        Token(Any(Mode::Pattern, Words::EveryStart)),
                        P(Part::Text(Mode::Word)),
                        Token(One(Mode::Word, Kind::WordEnd)),
                    ],
                )
            }
            _ => {
                if is_in(Words::AnyWord, kind) {
                    self.put(depth, &[Token(Any(Mode::Pattern, Words::AnyWord))])
                } else {
                    Ok(Step::Refused)
                }
            }
        }
    }
}
