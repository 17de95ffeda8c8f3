//! Lists of commands, by what ends them directly.
ghost use Rattle.ksh_syntax.specs.Steps.{IsRead};
ghost use Rattle.ksh_syntax.specs.declared.part.Part.TheVariants as part;

use crate::kind::{Kind, Mode};
use crate::part::Terminal::{Any, One};
use crate::part::{Ending, Mark, Part, Words};
use crate::reading::{Reading, Step};
use ksh_base::Memory;
use ksh_grammar::Place::{Make, Part as P, Token};

impl Reading {
    pub(crate) fn lines(&mut self, ending: Ending, depth: u8, kind: Kind) -> Result<Step, Memory>
        ensures { IsRead (part.Lines ending) depth kind result self.old.left.items self.new.left.items }
    {
        match kind {
            Kind::Newline | Kind::NewlineBodies => self.put(
                depth,
                &[P(Part::Line), P(Part::Lines(ending))],
            ),
            Kind::End
            | Kind::Close
            | Kind::Backquote
            | Kind::Then
            | Kind::Else
            | Kind::Elif
            | Kind::Fi
            | Kind::Do
            | Kind::Done
            | Kind::RightBrace
            | Kind::DoubleSemicolon => match ending {
                Ending::Case => self.put(
                    depth,
                    &[
                        Make(Mark::ListEnds),
                        Token(One(Mode::Command, Kind::DoubleSemicolon)),
                        P(Part::CaseItems),
                    ],
                ),
                _ => self.put(depth, &[Make(Mark::ListEnds)])
            },
            Kind::SemicolonAmpersand => match ending {
                Ending::Case => self.put(
                    depth,
                    &[
                        Make(Mark::ListEnds),
                        Token(One(Mode::Command, Kind::SemicolonAmpersand)),
                        P(Part::CaseItems),
                    ],
                ),
                _ => Ok(Step::Refused)
            },
            Kind::Esac => match ending {
                Ending::Case => self.put(
                    depth,
                    &[
                        Make(Mark::ListEnds),
                        Make(Mark::Closes),
                        Token(One(Mode::Command, Kind::Esac)),
                    ],
                ),
                _ => Ok(Step::Refused)
            },
            _ => self.put(depth, &[Make(Mark::AndOrBegins), P(Part::Commands(ending))]),
        }
    }

    pub(crate) fn body(&mut self, ending: Ending, depth: u8, kind: Kind) -> Result<Step, Memory>
        ensures { IsRead (part.Body ending) depth kind result self.old.left.items self.new.left.items }
    {
        match kind {
            Kind::Newline | Kind::NewlineBodies => self.put(
                depth,
                &[P(Part::Line), P(Part::Body(ending))],
            ),
            _ => self.put(depth, &[Make(Mark::AndOrBegins), P(Part::Commands(ending))]),
        }
    }

    pub(crate) fn commands(&mut self, ending: Ending, depth: u8, kind: Kind) -> Result<Step, Memory>
        ensures { IsRead (part.Commands ending) depth kind result self.old.left.items self.new.left.items }
    {
        match kind {
            Kind::Bang => self.put(
                depth,
                &[
                    Make(Mark::PipelineBegins),
                    Token(One(Mode::Command, Kind::Bang)),
                    P(Part::Piped(ending)),
                ],
            ),
            _ => self.put(depth, &[Make(Mark::PipelineBegins), P(Part::Piped(ending))]),
        }
    }

    pub(crate) fn piped(&mut self, ending: Ending, depth: u8, kind: Kind) -> Result<Step, Memory>
        ensures { IsRead (part.Piped ending) depth kind result self.old.left.items self.new.left.items }
    {
        match kind {
            Kind::Name | Kind::Dotted | Kind::Typeset | Kind::In => self.put(
                depth,
                &[
                    Make(Mark::SimpleBegins),
                    Make(Mark::CommandName),
                    Token(Any(Mode::Command, Words::FunctionName)),
                    P(Part::AfterName(ending)),
                ],
            ),
            Kind::DoubleParenthesis
            | Kind::Open
            | Kind::LeftBrace
            | Kind::LeftBrackets
            | Kind::If
            | Kind::While
            | Kind::Until
            | Kind::For
            | Kind::Select
            | Kind::Case
            | Kind::Function => self.put(
                depth,
                &[P(Part::Compounded), P(Part::AfterCompound(ending))],
            ),
            _ => self.put(
                depth,
                &[
                    Make(Mark::SimpleBegins),
                    P(Part::Simple),
                    P(Part::AfterSimple(ending)),
                ],
            ),
        }
    }

    pub(crate) fn after_name(
        &mut self,
        ending: Ending,
        depth: u8,
        kind: Kind,
    ) -> Result<Step, Memory>
        ensures { IsRead (part.AfterName ending) depth kind result self.old.left.items self.new.left.items }
    {
        match kind {
            Kind::Open => self.put(
                depth,
                &[
                    Token(One(Mode::Command, Kind::Open)),
                    Token(One(Mode::Command, Kind::Close)),
                    P(Part::Newlines),
                    P(Part::Compound),
                    P(Part::Redirections),
                    P(Part::AfterCompound(ending)),
                ],
            ),
            _ => self.put(depth, &[P(Part::Arguments), P(Part::AfterSimple(ending))]),
        }
    }

    pub(crate) fn after_simple(
        &mut self,
        ending: Ending,
        depth: u8,
        kind: Kind,
    ) -> Result<Step, Memory>
        ensures { IsRead (part.AfterSimple ending) depth kind result self.old.left.items self.new.left.items }
    {
        match kind {
            Kind::Bar => self.put(
                depth,
                &[
                    Token(One(Mode::Command, Kind::Bar)),
                    P(Part::Newlines),
                    P(Part::Piped(ending)),
                ],
            ),
            Kind::AndIf => self.put(
                depth,
                &[
                    Token(One(Mode::Command, Kind::AndIf)),
                    P(Part::Newlines),
                    P(Part::Commands(ending)),
                ],
            ),
            Kind::OrIf => self.put(
                depth,
                &[
                    Token(One(Mode::Command, Kind::OrIf)),
                    P(Part::Newlines),
                    P(Part::Commands(ending)),
                ],
            ),
            Kind::Semicolon => self.put(
                depth,
                &[
                    Token(One(Mode::Command, Kind::Semicolon)),
                    P(Part::Lines(ending)),
                ],
            ),
            Kind::Ampersand => self.put(
                depth,
                &[
                    Token(One(Mode::Command, Kind::Ampersand)),
                    P(Part::Lines(ending)),
                ],
            ),
            Kind::BarAmpersand => self.put(
                depth,
                &[
                    Token(One(Mode::Command, Kind::BarAmpersand)),
                    P(Part::Lines(ending)),
                ],
            ),
            Kind::Newline | Kind::NewlineBodies => self.put(
                depth,
                &[P(Part::Line), P(Part::Lines(ending))],
            ),
            Kind::SemicolonAmpersand => match ending {
                Ending::Case => self.put(
                    depth,
                    &[
                        Make(Mark::ListEnds),
                        Token(One(Mode::Command, Kind::SemicolonAmpersand)),
                        P(Part::CaseItems),
                    ],
                ),
                _ => Ok(Step::Refused)
            },
            Kind::Esac => Ok(Step::Refused),
            _ => match ending {
                Ending::Operator => self.put(depth, &[Make(Mark::ListEnds)]),
                Ending::Word => Ok(Step::Refused),
                Ending::Case => self.put(
                    depth,
                    &[
                        Make(Mark::ListEnds),
                        Token(One(Mode::Command, Kind::DoubleSemicolon)),
                        P(Part::CaseItems),
                    ],
                )
            },
        }
    }

    pub(crate) fn after_compound(
        &mut self,
        ending: Ending,
        depth: u8,
        kind: Kind,
    ) -> Result<Step, Memory>
        ensures { IsRead (part.AfterCompound ending) depth kind result self.old.left.items self.new.left.items }
    {
        match kind {
            Kind::Bar => self.put(
                depth,
                &[
                    Token(One(Mode::Command, Kind::Bar)),
                    P(Part::Newlines),
                    P(Part::Piped(ending)),
                ],
            ),
            Kind::AndIf => self.put(
                depth,
                &[
                    Token(One(Mode::Command, Kind::AndIf)),
                    P(Part::Newlines),
                    P(Part::Commands(ending)),
                ],
            ),
            Kind::OrIf => self.put(
                depth,
                &[
                    Token(One(Mode::Command, Kind::OrIf)),
                    P(Part::Newlines),
                    P(Part::Commands(ending)),
                ],
            ),
            Kind::Semicolon => self.put(
                depth,
                &[
                    Token(One(Mode::Command, Kind::Semicolon)),
                    P(Part::Lines(ending)),
                ],
            ),
            Kind::Ampersand => self.put(
                depth,
                &[
                    Token(One(Mode::Command, Kind::Ampersand)),
                    P(Part::Lines(ending)),
                ],
            ),
            Kind::BarAmpersand => self.put(
                depth,
                &[
                    Token(One(Mode::Command, Kind::BarAmpersand)),
                    P(Part::Lines(ending)),
                ],
            ),
            Kind::Newline | Kind::NewlineBodies => self.put(
                depth,
                &[P(Part::Line), P(Part::Lines(ending))],
            ),
            Kind::SemicolonAmpersand => match ending {
                Ending::Case => self.put(
                    depth,
                    &[
                        Make(Mark::ListEnds),
                        Token(One(Mode::Command, Kind::SemicolonAmpersand)),
                        P(Part::CaseItems),
                    ],
                ),
                _ => Ok(Step::Refused)
            },
            Kind::Esac => match ending {
                Ending::Case => self.put(
                    depth,
                    &[
                        Make(Mark::ListEnds),
                        Make(Mark::Closes),
                        Token(One(Mode::Command, Kind::Esac)),
                    ],
                ),
                _ => Ok(Step::Refused)
            },
            _ => match ending {
                Ending::Case => self.put(
                    depth,
                    &[
                        Make(Mark::ListEnds),
                        Token(One(Mode::Command, Kind::DoubleSemicolon)),
                        P(Part::CaseItems),
                    ],
                ),
                _ => self.put(depth, &[Make(Mark::ListEnds)])
            },
        }
    }
}
