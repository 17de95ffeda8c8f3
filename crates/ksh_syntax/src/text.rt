//! The pieces of texts.
ghost use Rattle.ksh_syntax.specs.Steps.{IsQuoting, IsRead};
ghost use Rattle.ksh_syntax.specs.declared.part.Part.TheVariants as part;
ghost use Rattle.ksh_syntax.specs.declared.kind.Kind.TheVariants as kind;

use crate::kind::{Kind, Mode};
use crate::part::Terminal::One;
use crate::part::{Ending, Mark, Part};
use crate::reading::{Reading, Step};
use ksh_base::Memory;
use ksh_grammar::Place::{Inside, Make, Part as P, Token};

impl Reading {
    pub(crate) fn text(&mut self, mode: Mode, depth: u8, kind: Kind) -> Result<Step, Memory>
        ensures { IsRead (part.Text mode) depth kind result self.old.left.items self.new.left.items }
    {
        match kind {
            Kind::Plain => self.put(depth, &[Token(One(mode, Kind::Plain)), P(Part::Text(mode))]),
            Kind::Joined => self.put(
                depth,
                &[Token(One(mode, Kind::Joined)), P(Part::Text(mode))],
            ),
            Kind::Escaped => self.put(
                depth,
                &[Token(One(mode, Kind::Escaped)), P(Part::Text(mode))],
            ),
            Kind::Expand => self.put(
                depth,
                &[Token(One(mode, Kind::Expand)), P(Part::Text(mode))],
            ),
            Kind::Dollar => self.put(
                depth,
                &[Token(One(mode, Kind::Dollar)), P(Part::Text(mode))],
            ),
            Kind::Backquote => self.put(
                depth,
                &[
                    Make(Mark::Opens),
                    Token(One(mode, Kind::Backquote)),
                    Inside(Part::Lines(Ending::Operator)),
                    Make(Mark::Closes),
                    Token(One(Mode::Command, Kind::Backquote)),
                    P(Part::Text(mode)),
                ],
            ),
            Kind::OpenParameter => self.put(
                depth,
                &[
                    Make(Mark::Opens),
                    Token(One(mode, Kind::OpenParameter)),
                    Inside(Part::Parameter),
                    P(Part::Text(mode)),
                ],
            ),
            Kind::OpenCurrent => self.put(
                depth,
                &[
                    Make(Mark::Opens),
                    Token(One(mode, Kind::OpenCurrent)),
                    Inside(Part::Body(Ending::Word)),
                    Make(Mark::Closes),
                    Token(One(Mode::Command, Kind::RightBrace)),
                    P(Part::Text(mode)),
                ],
            ),
            Kind::OpenSubstitution => self.put(
                depth,
                &[
                    Make(Mark::Opens),
                    Token(One(mode, Kind::OpenSubstitution)),
                    Inside(Part::Lines(Ending::Operator)),
                    Make(Mark::Closes),
                    Token(One(Mode::Command, Kind::Close)),
                    P(Part::Text(mode)),
                ],
            ),
            Kind::OpenArithmetic => self.put(
                depth,
                &[
                    Make(Mark::Opens),
                    Token(One(mode, Kind::OpenArithmetic)),
                    Inside(Part::Text(Mode::Arithmetic)),
                    Make(Mark::Closes),
                    Token(One(Mode::Arithmetic, Kind::Close)),
                    P(Part::Text(mode)),
                ],
            ),
            Kind::Single | Kind::Ansi | Kind::OpenQuote => self.quoting(mode, depth, kind),
            Kind::Open => self.nested(mode, depth),
            _ => self.put(depth, &[]),
        }
    }

    /// A quoting, which stands neither in double quotes nor in a body.
    fn quoting(&mut self, mode: Mode, depth: u8, kind: Kind) -> Result<Step, Memory>
        requires { IsQuoting kind }
        ensures { IsRead (part.Text mode) depth kind result self.old.left.items self.new.left.items }
    {
        match (mode, kind) {
            (Mode::Quoted, _) | (Mode::Body, _) => Ok(Step::Refused),
            (_, Kind::Single) => self.put(
                depth,
                &[Token(One(mode, Kind::Single)), P(Part::Text(mode))],
            ),
            (_, Kind::Ansi) => self.put(
                depth,
                &[Token(One(mode, Kind::Ansi)), P(Part::Text(mode))],
            ),
            _ => self.put(
                depth,
                &[
                    Make(Mark::Opens),
                    Token(One(mode, Kind::OpenQuote)),
                    P(Part::Text(Mode::Quoted)),
                    Make(Mark::Closes),
                    Token(One(Mode::Quoted, Kind::CloseQuote)),
                    P(Part::Text(mode)),
                ],
            ),
        }
    }

    /// What opens within a text: a group of a pattern, a bracket of a subscript, a parenthesis of an arithmetic text.
    fn nested(&mut self, mode: Mode, depth: u8) -> Result<Step, Memory>
        ensures { IsRead (part.Text mode) depth kind.Open result self.old.left.items self.new.left.items }
    {
        match mode {
            Mode::Word => self.put(
                depth,
                &[
                    Token(One(Mode::Word, Kind::Open)),
                    P(Part::Text(Mode::Group)),
                    Token(One(Mode::Group, Kind::Close)),
                    P(Part::Text(Mode::Word)),
                ],
            ),
            Mode::Group => self.put(
                depth,
                &[
                    Token(One(Mode::Group, Kind::Open)),
                    P(Part::Text(Mode::Group)),
                    Token(One(Mode::Group, Kind::Close)),
                    P(Part::Text(Mode::Group)),
                ],
            ),
            Mode::Subscript => self.put(
                depth,
                &[
                    Token(One(Mode::Subscript, Kind::Open)),
                    P(Part::Text(Mode::Subscript)),
                    Token(One(Mode::Subscript, Kind::Close)),
                    P(Part::Text(Mode::Subscript)),
                ],
            ),
            Mode::Arithmetic => self.put(
                depth,
                &[
                    Token(One(Mode::Arithmetic, Kind::Open)),
                    Inside(Part::Text(Mode::Parentheses)),
                    Token(One(Mode::Parentheses, Kind::Close)),
                    P(Part::Text(Mode::Arithmetic)),
                ],
            ),
            Mode::LoopArithmetic => self.put(
                depth,
                &[
                    Token(One(Mode::LoopArithmetic, Kind::Open)),
                    Inside(Part::Text(Mode::Parentheses)),
                    Token(One(Mode::Parentheses, Kind::Close)),
                    P(Part::Text(Mode::LoopArithmetic)),
                ],
            ),
            Mode::Parentheses => self.put(
                depth,
                &[
                    Token(One(Mode::Parentheses, Kind::Open)),
                    Inside(Part::Text(Mode::Parentheses)),
                    Token(One(Mode::Parentheses, Kind::Close)),
                    P(Part::Text(Mode::Parentheses)),
                ],
            ),
            _ => Ok(Step::Refused),
        }
    }
}
