//! Conditions.
ghost use Rattle.ksh_syntax.specs.Steps.{IsRead};
ghost use Rattle.ksh_syntax.specs.declared.part.Part.TheVariants as part;

use crate::kind::{Kind, Mode};
use crate::part::Terminal::{Any, One};
use crate::part::{Mark, Part, Words};
use crate::reading::{Reading, Step};
use crate::words::is_in;
use ksh_base::Memory;
use ksh_grammar::Place::{Inside, Make, Part as P, Token};

impl Reading {
    pub(crate) fn condition(&mut self, depth: u8, _kind: Kind) -> Result<Step, Memory>
        ensures { IsRead part.Condition depth _kind result self.old.left.items self.new.left.items }
    {
        self.put(
            depth,
            &[
                P(Part::ConditionLines),
                P(Part::Conjunction),
                P(Part::Alternatives),
            ],
        )
    }

    pub(crate) fn condition_lines(&mut self, depth: u8, kind: Kind) -> Result<Step, Memory>
        ensures { IsRead part.ConditionLines depth kind result self.old.left.items self.new.left.items }
    {
        match kind {
            Kind::Newline | Kind::NewlineBodies => {
                self.put(depth, &[P(Part::ConditionLine), P(Part::ConditionLines)])
            }
            _ => { self.put(depth, &[]) }
        }
    }

    pub(crate) fn condition_line(&mut self, depth: u8, kind: Kind) -> Result<Step, Memory>
        ensures { IsRead part.ConditionLine depth kind result self.old.left.items self.new.left.items }
    {
        match kind {
            Kind::Newline => { self.put(depth, &[Token(One(Mode::Condition, Kind::Newline))]) }
            Kind::NewlineBodies => {
                self.put(
                    depth,
                    &[
                        Token(One(Mode::Condition, Kind::NewlineBodies)),
                        P(Part::BodyTexts),
                    ],
                )
            }
            _ => { Ok(Step::Refused) }
        }
    }

    pub(crate) fn alternatives(&mut self, depth: u8, kind: Kind) -> Result<Step, Memory>
        ensures { IsRead part.Alternatives depth kind result self.old.left.items self.new.left.items }
    {
        match kind {
            Kind::OrIf => {
                self.put(
                    depth,
                    &[
                        Token(One(Mode::Condition, Kind::OrIf)),
                        P(Part::ConditionLines),
                        P(Part::Conjunction),
                        P(Part::Alternatives),
                    ],
                )
            }
            _ => { self.put(depth, &[]) }
        }
    }

    pub(crate) fn conjunction(&mut self, depth: u8, _kind: Kind) -> Result<Step, Memory>
        ensures { IsRead part.Conjunction depth _kind result self.old.left.items self.new.left.items }
    {
        self.put(depth, &[P(Part::Negation), P(Part::Conjuncts)])
    }

    pub(crate) fn conjuncts(&mut self, depth: u8, kind: Kind) -> Result<Step, Memory>
        ensures { IsRead part.Conjuncts depth kind result self.old.left.items self.new.left.items }
    {
        match kind {
            Kind::AndIf => {
                self.put(
                    depth,
                    &[
                        Token(One(Mode::Condition, Kind::AndIf)),
                        P(Part::ConditionLines),
                        P(Part::Negation),
                        P(Part::Conjuncts),
                    ],
                )
            }
            _ => { self.put(depth, &[]) }
        }
    }

    pub(crate) fn negation(&mut self, depth: u8, kind: Kind) -> Result<Step, Memory>
        ensures { IsRead part.Negation depth kind result self.old.left.items self.new.left.items }
    {
        match kind {
            Kind::Bang => {
                self.put(
                    depth,
                    &[
                        Token(One(Mode::Condition, Kind::Bang)),
                        P(Part::ConditionLines),
                        P(Part::Negation),
                    ],
                )
            }
            _ => {
                self.put(
                    depth,
                    &[P(Part::Term), Make(Mark::TermEnds), P(Part::ConditionLines)],
                )
            }
        }
    }

    pub(crate) fn term(&mut self, depth: u8, kind: Kind) -> Result<Step, Memory>
        ensures { IsRead part.Term depth kind result self.old.left.items self.new.left.items }
    {
        match kind {
            Kind::Open => {
                self.put(
                    depth,
                    &[
                        Token(One(Mode::Condition, Kind::Open)),
                        Inside(Part::Condition),
                        Token(One(Mode::Condition, Kind::Close)),
                    ],
                )
            }
            Kind::Unary => {
                self.put(
                    depth,
                    &[
                        Token(One(Mode::Condition, Kind::Unary)),
                        P(Part::AfterUnary),
                    ],
                )
            }
            Kind::Start | Kind::StartAssignment | Kind::Element | Kind::ValueOpen => {
                self.put(
                    depth,
                    &[
                        Token(Any(Mode::Condition, Words::EveryStart)),
                        P(Part::Text(Mode::Word)),
                        Token(One(Mode::Word, Kind::WordEnd)),
                        P(Part::AfterOperand),
                    ],
                )
            }
            _ => {
                if is_in(Words::FirstOperand, kind) {
                    self.put(
                        depth,
                        &[
                            Token(Any(Mode::Condition, Words::FirstOperand)),
                            P(Part::AfterOperand),
                        ],
                    )
                } else {
                    Ok(Step::Refused)
                }
            }
        }
    }

    pub(crate) fn after_operand(&mut self, depth: u8, kind: Kind) -> Result<Step, Memory>
        ensures { IsRead part.AfterOperand depth kind result self.old.left.items self.new.left.items }
    {
        match kind {
            Kind::Binary => {
                self.put(
                    depth,
                    &[Token(One(Mode::Condition, Kind::Binary)), P(Part::Operand)],
                )
            }
            Kind::Order => {
                self.put(
                    depth,
                    &[Token(One(Mode::Condition, Kind::Order)), P(Part::Operand)],
                )
            }
            _ => { self.put(depth, &[]) }
        }
    }

    pub(crate) fn operand(&mut self, depth: u8, kind: Kind) -> Result<Step, Memory>
        ensures { IsRead part.Operand depth kind result self.old.left.items self.new.left.items }
    {
        match kind {
            Kind::Start | Kind::StartAssignment | Kind::Element | Kind::ValueOpen => {
                self.put(
                    depth,
                    &[
                        Token(Any(Mode::Condition, Words::EveryStart)),
                        P(Part::Text(Mode::Word)),
                        Token(One(Mode::Word, Kind::WordEnd)),
                    ],
                )
            }
            _ => {
                if is_in(Words::OperandWord, kind) {
                    self.put(depth, &[Token(Any(Mode::Condition, Words::OperandWord))])
                } else {
                    Ok(Step::Refused)
                }
            }
        }
    }

    pub(crate) fn after_unary(&mut self, depth: u8, kind: Kind) -> Result<Step, Memory>
        ensures { IsRead part.AfterUnary depth kind result self.old.left.items self.new.left.items }
    {
        match kind {
            Kind::Start | Kind::StartAssignment | Kind::Element | Kind::ValueOpen => {
                self.put(
                    depth,
                    &[
                        Token(Any(Mode::Condition, Words::EveryStart)),
                        P(Part::Text(Mode::Word)),
                        Token(One(Mode::Word, Kind::WordEnd)),
                    ],
                )
            }
            Kind::Binary => {
                self.put(
                    depth,
                    &[
                        Token(One(Mode::Condition, Kind::Binary)),
                        P(Part::AfterBinary),
                    ],
                )
            }
            Kind::Order => {
                self.put(
                    depth,
                    &[Token(One(Mode::Condition, Kind::Order)), P(Part::Operand)],
                )
            }
            _ => {
                if is_in(Words::NotBinary, kind) {
                    self.put(depth, &[Token(Any(Mode::Condition, Words::NotBinary))])
                } else {
                    self.put(depth, &[])
                }
            }
        }
    }

    pub(crate) fn after_binary(&mut self, depth: u8, kind: Kind) -> Result<Step, Memory>
        ensures { IsRead part.AfterBinary depth kind result self.old.left.items self.new.left.items }
    {
        match kind {
            Kind::Start | Kind::StartAssignment | Kind::Element | Kind::ValueOpen => {
                self.put(
                    depth,
                    &[
                        Token(Any(Mode::Condition, Words::EveryStart)),
                        P(Part::Text(Mode::Word)),
                        Token(One(Mode::Word, Kind::WordEnd)),
                    ],
                )
            }
            _ => {
                if is_in(Words::OperandWord, kind) {
                    self.put(depth, &[Token(Any(Mode::Condition, Words::OperandWord))])
                } else {
                    self.put(depth, &[])
                }
            }
        }
    }
}
