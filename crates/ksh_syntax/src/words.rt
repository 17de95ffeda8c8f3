//! Which kinds of token a terminal takes.
ghost use Rattle.std.specs.Prelude.{◌≡◌, ◌&&◌, true};
ghost use Rattle.ksh_syntax.specs.Rules.{mode_of};
ghost use Rattle.ksh_syntax.specs.Takes.{are_in, is_bare, is_reserved, is_reserved_name, kind_number, mode_number, names_function, takes, takes_in};

use crate::kind::{Kind, Mode};
use crate::part::{Part, Terminal, Words};

/// A whole word of plain bytes.
pub(crate) fn is_bare(kind: Kind) -> bool
    ensures { result ≡ is_bare kind }
{
    is_reserved(kind)
        || names_function(kind)
        || matches!(
            kind,
            Kind::RightBrackets | Kind::Unary | Kind::Binary | Kind::Assignment | Kind::Other
        )
}

/// A reserved word that is a name, or one that is refused.
pub(crate) fn is_reserved_name(kind: Kind) -> bool
    ensures { result ≡ is_reserved_name kind }
{
    matches!(
        kind,
        Kind::If
            | Kind::Then
            | Kind::Else
            | Kind::Elif
            | Kind::Fi
            | Kind::Case
            | Kind::Esac
            | Kind::For
            | Kind::While
            | Kind::Until
            | Kind::Do
            | Kind::Done
            | Kind::Function
            | Kind::Select
            | Kind::Time
            | Kind::Namespace
    )
}

/// A word that is reserved or refused where a command begins.
pub(crate) fn is_reserved(kind: Kind) -> bool
    ensures { result ≡ is_reserved kind }
{
    is_reserved_name(kind)
        || matches!(
            kind,
            Kind::LeftBrace | Kind::RightBrace | Kind::LeftBrackets | Kind::Bang
        )
}

/// A name that isn't reserved, or names with dots between them.
pub(crate) fn names_function(kind: Kind) -> bool
    ensures { result ≡ names_function kind }
{
    matches!(kind, Kind::Name | Kind::Dotted | Kind::Typeset | Kind::In)
}

/// Whether a set has the kind.
pub(crate) fn is_in(words: Words, kind: Kind) -> bool
    ensures { result ≡ are_in words kind }
{
    match words {
        Words::AnyWord => is_bare(kind),
        Words::FunctionName => names_function(kind),
        Words::CommandWord => {
            is_bare(kind)
                && !(is_reserved(kind) || names_function(kind) || kind == Kind::Assignment)
        }
        Words::AnyStart => matches!(kind, Kind::Start | Kind::StartAssignment),
        Words::DottedName => names_function(kind) || is_reserved_name(kind),
        Words::RedirectStart => matches!(kind, Kind::Start | Kind::StartAssignment | Kind::Element),
        Words::VariableName => {
            (names_function(kind) && kind != Kind::Dotted) || is_reserved_name(kind)
        }
        Words::NotEsac => is_bare(kind) && kind != Kind::Esac,
        Words::EveryStart => matches!(
            kind,
            Kind::Start | Kind::StartAssignment | Kind::Element | Kind::ValueOpen
        ),
        Words::FirstOperand => {
            is_bare(kind) && !matches!(kind, Kind::Bang | Kind::RightBrackets | Kind::Unary)
        }
        Words::OperandWord => is_bare(kind) && kind != Kind::RightBrackets,
        Words::NotBinary => { is_bare(kind) && !matches!(kind, Kind::RightBrackets | Kind::Binary) }
        Words::MemberName => names_function(kind) && kind != Kind::Typeset,
        Words::ItemWord => {
            is_bare(kind)
                && !(names_function(kind) || matches!(kind, Kind::Assignment | Kind::Function))
        }
        Words::NotAssignment => is_bare(kind) && kind != Kind::Assignment,
        Words::NotName => {
            is_bare(kind)
                && !(names_function(kind) || is_reserved_name(kind) || kind == Kind::Assignment)
        }
        Words::NotBrace => is_bare(kind) && !matches!(kind, Kind::Assignment | Kind::LeftBrace),
    }
}

impl Kind {
    fn number(self) -> u8
        ensures { result ≡ kind_number self }
    {
        self as u8
    }
}

impl Mode {
    fn number(self) -> u8
        ensures { result ≡ mode_number self }
    {
        self as u8
    }
}

impl Part {
    /// The mode in which the part is read.
    pub(crate) fn mode(self) -> Mode
        ensures { result ≡ mode_of self }
    {
        match self {
            Part::Text(mode) => mode,
            Part::Parameter | Part::LengthOf => Mode::Parameter,
            Part::LengthPath | Part::TargetPath | Part::PathForm | Part::SpecialForm => Mode::Form,
            Part::SliceEnd => Mode::Colon,
            Part::ReplaceEnd => Mode::Slash,
            Part::BodyTexts | Part::BodyEnd => Mode::Body,
            Part::RedirectWord
            | Part::Condition
            | Part::ConditionLines
            | Part::ConditionLine
            | Part::Alternatives
            | Part::Conjunction
            | Part::Conjuncts
            | Part::Negation
            | Part::Term
            | Part::AfterOperand
            | Part::Operand
            | Part::AfterUnary
            | Part::AfterBinary => Mode::Condition,
            Part::ElementValue
            | Part::FirstElement
            | Part::ItemElement
            | Part::MemberElement
            | Part::KeyValue => Mode::Target,
            Part::CaseItems | Part::PatternLine | Part::PatternRest | Part::PatternWord =>
                Mode::Pattern,
            Part::Value
            | Part::ValueLine
            | Part::Items
            | Part::ItemsMixed
            | Part::ItemsMembers
            | Part::ValueLines
            | Part::MemberFunction
            | Part::TypesetMember
            | Part::ItemsTypeset
            | Part::ItemsFunction
            | Part::ItemsBrace
            | Part::AfterItemName
            | Part::ItemsWords
            | Part::ItemsPairs => Mode::Value,
            _ => Mode::Command,
        }
    }
}

impl Terminal {
    /// Whether the terminal takes a token of that kind, read in that mode.
    pub fn takes(self, mode: Mode, kind: Kind) -> bool
        ensures { result ≡ (takes_in self mode && takes self kind) }
    {
        match self {
            Terminal::One(own, taken) => own.number() == mode.number()
                && taken.number() == kind.number(),
            Terminal::Any(own, words) => own.number() == mode.number() && is_in(words, kind),
        }
    }

    /// The mode in which its tokens are read.
    pub(crate) fn mode(self) -> Mode
        ensures { takes_in self result ≡ true }
    {
        match self {
            Terminal::One(own, _) | Terminal::Any(own, _) => own,
        }
    }
}
