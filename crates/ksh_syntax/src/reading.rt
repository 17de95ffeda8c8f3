ghost use Rattle.std.specs.Prelude.{◌≡◌, ◌↔◌, true, Some, List, [], ◌∷◌, ◌++◌, IfOk, OnOk};
ghost use Rattle.ksh_grammar.specs.Rules.{opens};
ghost use Rattle.ksh_syntax.specs.declared.kind.Mode.{Mode};
ghost use Rattle.ksh_syntax.specs.declared.kind.Kind.{Kind};
ghost use Rattle.ksh_syntax.specs.Sentences.{Decides, Event, GoesOn, HasRead, IsLive, IsScript, MayCome, Token};
ghost use Rattle.ksh_syntax.specs.Steps.{placed, Left, IsPut, IsRead};

use crate::kind::{Kind, Mode};
use crate::part::{Mark, Part, Terminal};
use ksh_base::Memory;
use ksh_grammar::Place::{Inside, Make, Part as P, Token};
use ksh_grammar::{Place, Symbol};
use std::alloc::Global;

/// So many openings may stand inside one another.
pub const DEEPEST: u8 = 64;

/// What becomes of a reading by a token.
#[derive(Clone, Copy, Debug, PartialEq, Eq)]
pub enum Next {
    /// The token was read.
    Taken,
    /// No script goes on with the token.
    Refused,
    /// The token opens something inside 64 openings.
    TooDeep,
}

/// What reading a part did.
#[derive(Clone, Copy, Debug, PartialEq, Eq)]
pub(crate) enum Step {
    /// The rule is in front of what is left.
    Read,
    /// The token begins no rule of the part.
    Refused,
    /// The rule opens something inside too many openings.
    TooDeep,
}

/// A reading of a script from the left: what is still to be read, the next last.
#[derive(Drop)]
pub struct Reading {
    left: Vec<Symbol<Terminal, Part, Mark>>,
}

/// A place of a rule that stands inside so many openings, with one more for what it opens.
fn placed(depth: u8, inner: u8, place: Place<Terminal, Part, Mark>) -> Symbol<Terminal, Part, Mark>
    ensures { result ≡ placed depth inner place }
{
    match place {
        Token(terminal) => Symbol::Token(terminal),
        P(part) => Symbol::Part(part, depth),
        Inside(part) => Symbol::Part(part, inner),
        Make(mark) => Symbol::Make(mark),
    }
}

/// Whether a rule opens something.
fn opens(rule: &[Place<Terminal, Part, Mark>]) -> bool
    ensures { result ≡ opens rule.now }
{
    for place in rule {
        if let Inside(_) = place {
            return true;
        }
    }
    false
}

/// What was read can be completed to a script.
pub fn what_was_read_is_live()
    ensures { (front : List Token) (left : Left) (events : List Event) → HasRead front left events → IsLive front }
{}

impl Reading {
    /// A reading of which nothing was read.
    pub fn new(alloc: Global) -> Result<Reading, Memory>
        ensures { IfOk result (λ r. HasRead [] r.left.items []) }
    {
        let mut left = Vec::new(alloc);
        left.push(Symbol::Part(Part::Script, 0))?;
        Ok(Reading { left })
    }

    /// The mode in which the next token is to be read: no script goes on with a token of another.
    pub fn mode(&self) -> Mode
        ensures { (front : List Token) (events : List Event) (m : Mode) (k : Kind) → HasRead front self.now.left.items events → IsLive (front ++ (m, k) ∷ []) → m ≡ result }
    {
        let mut at = self.left.len();
        while at > 0 {
            at -= 1;
            match self.left[at] {
                Symbol::Make(_) => {}
                Symbol::Token(terminal) => return terminal.mode(),
                Symbol::Part(part, _) => return part.mode(),
            }
        }
        Mode::Command
    }

    /// Another reading that has read the same.
    pub fn copy(&self, alloc: Global) -> Result<Reading, Memory>
        ensures { IfOk result (λ r. r.left.items ≡ self.now.left.items) }
    {
        let mut left = Vec::new(alloc);
        for symbol in self.left.iter() {
            left.push(*symbol)?;
        }
        Ok(Reading { left })
    }

    /// Goes to where another reading is.
    pub fn go_to(&mut self, reading: &Reading) -> Result<(), Memory>
        ensures { OnOk result (self.new.left.items ≡ reading.now.left.items) }
    {
        self.left.clear();
        for symbol in reading.left.iter() {
            self.left.push(*symbol)?;
        }
        Ok(())
    }

    /// Whether some script goes on with a token of that kind.
    pub fn may_come(&self, alloc: Global, kind: Kind) -> Result<bool, Memory>
        ensures { IfOk result (λ b. (front : List Token) (events : List Event) → HasRead front self.now.left.items events → Decides b (MayCome front kind)) }
    {
        let mut marks = Vec::new(alloc);
        let mut trial = self.copy(alloc)?;
        match trial.take(self.mode(), kind, &mut marks)? {
            Next::Taken => Ok(true),
            Next::TooDeep => Ok(true),
            Next::Refused => Ok(false),
        }
    }

    /// Whether nothing is left to read: then what was read is a script.
    pub fn is_finished(&self) -> bool
        ensures empty { result ≡ true ↔ (self.now.left.items ≡ []) }
        ensures script { (front : List Token) (events : List Event) → HasRead front self.now.left.items events → result ≡ true → IsScript front events }
    {
        self.left.is_empty()
    }

    /// Puts a rule in front of what is left, unless it opens something that would be too deep.
    pub(crate) fn put(
        &mut self,
        depth: u8,
        rule: &[Place<Terminal, Part, Mark>],
    ) -> Result<Step, Memory>
        ensures { IsPut (Some rule.now) depth result self.old.left.items self.new.left.items }
    {
        if opens(rule) && depth >= DEEPEST {
            return Ok(Step::TooDeep);
        }
        let inner = if depth < DEEPEST { depth + 1 } else { depth };
        let mut at = rule.len();
        while at > 0 {
            at -= 1;
            self.left.push(placed(depth, inner, rule[at]))?;
        }
        Ok(Step::Read)
    }

    /// Reads a token of that kind, which was read in that mode, and adds what is told before it. After an answer
    /// other than `Taken` nothing more can be read.
    pub fn take(&mut self, mode: Mode, kind: Kind, marks: &mut Vec<Mark>) -> Result<Next, Memory>
        ensures { GoesOn (mode, kind) self.old.left.items self.new.left.items marks.old.items marks.new.items result }
    {
        loop {
            match self.left.pop() {
                None => return Ok(Next::Refused),
                Some(Symbol::Make(mark)) => marks.push(mark)?,
                Some(Symbol::Token(terminal)) => {
                    return Ok(if terminal.takes(mode, kind) {
                        Next::Taken
                    } else {
                        Next::Refused
                    });
                }
                Some(Symbol::Part(part, depth)) => match self.read(part, depth, kind)? {
                    Step::Read => {}
                    Step::Refused => return Ok(Next::Refused),
                    Step::TooDeep => return Ok(Next::TooDeep),
                },
            }
        }
    }

    /// Reads a part by the rule that the kind of the token in hand picks.
    fn read(&mut self, part: Part, depth: u8, kind: Kind) -> Result<Step, Memory>
        ensures { IsRead part depth kind result self.old.left.items self.new.left.items }
    {
        match part {
            Part::Text(mode) => self.text(mode, depth, kind),
            Part::Lines(ending) => self.lines(ending, depth, kind),
            Part::Body(ending) => self.body(ending, depth, kind),
            Part::Commands(ending) => self.commands(ending, depth, kind),
            Part::Piped(ending) => self.piped(ending, depth, kind),
            Part::AfterName(ending) => self.after_name(ending, depth, kind),
            Part::AfterSimple(ending) => self.after_simple(ending, depth, kind),
            Part::AfterCompound(ending) => self.after_compound(ending, depth, kind),
            Part::Parameter => self.parameter(depth, kind),
            Part::LengthOf => self.length_of(depth, kind),
            Part::LengthPath => self.length_path(depth, kind),
            Part::TargetPath => self.target_path(depth, kind),
            Part::PathForm => self.path_form(depth, kind),
            Part::SpecialForm => self.special_form(depth, kind),
            Part::SliceEnd => self.slice_end(depth, kind),
            Part::ReplaceEnd => self.replace_end(depth, kind),
            Part::Line => self.line(depth, kind),
            Part::BodyTexts => self.body_texts(depth, kind),
            Part::BodyEnd => self.body_end(depth, kind),
            Part::Newlines => self.newlines(depth, kind),
            Part::Simple => self.simple(depth, kind),
            Part::Arguments => self.arguments(depth, kind),
            Part::FirstArguments => self.first_arguments(depth, kind),
            Part::FirstElement => self.first_element(depth, kind),
            Part::Redirections => self.redirections(depth, kind),
            Part::Redirection => self.redirection(depth, kind),
            Part::RedirectWord => self.redirect_word(depth, kind),
            Part::ElementValue => self.element_value(depth, kind),
            Part::Script => self.script(depth, kind),
            Part::Compounded => self.compounded(depth, kind),
            Part::Compound => self.compound(depth, kind),
            Part::IfBody => self.if_body(depth, kind),
            Part::IfRest => self.if_rest(depth, kind),
            Part::LoopBody => self.loop_body(depth, kind),
            Part::ForBody => self.for_body(depth, kind),
            Part::ForSeparator => self.for_separator(depth, kind),
            Part::SelectBody => self.select_body(depth, kind),
            Part::ForWords => self.for_words(depth, kind),
            Part::ForLines => self.for_lines(depth, kind),
            Part::WordList => self.word_list(depth, kind),
            Part::CaseBody => self.case_body(depth, kind),
            Part::AnyWord => self.any_word(depth, kind),
            Part::CaseItems => self.case_items(depth, kind),
            Part::PatternLine => self.pattern_line(depth, kind),
            Part::PatternRest => self.pattern_rest(depth, kind),
            Part::PatternWord => self.pattern_word(depth, kind),
            Part::Condition => self.condition(depth, kind),
            Part::ConditionLines => self.condition_lines(depth, kind),
            Part::ConditionLine => self.condition_line(depth, kind),
            Part::Alternatives => self.alternatives(depth, kind),
            Part::Conjunction => self.conjunction(depth, kind),
            Part::Conjuncts => self.conjuncts(depth, kind),
            Part::Negation => self.negation(depth, kind),
            Part::Term => self.term(depth, kind),
            Part::AfterOperand => self.after_operand(depth, kind),
            Part::Operand => self.operand(depth, kind),
            Part::AfterUnary => self.after_unary(depth, kind),
            Part::AfterBinary => self.after_binary(depth, kind),
            Part::Value => self.value(depth, kind),
            Part::ValueLine => self.value_line(depth, kind),
            Part::ValueLines => self.value_lines(depth, kind),
            Part::Items => self.items(depth, kind),
            Part::KeyValue => self.key_value(depth, kind),
            Part::ItemsMixed => self.items_mixed(depth, kind),
            Part::ItemElement => self.item_element(depth, kind),
            Part::ItemsTypeset => self.items_typeset(depth, kind),
            Part::ItemsFunction => self.items_function(depth, kind),
            Part::ItemsBrace => self.items_brace(depth, kind),
            Part::AfterItemName => self.after_item_name(depth, kind),
            Part::ItemsWords => self.items_words(depth, kind),
            Part::ItemsPairs => self.items_pairs(depth, kind),
            Part::MemberElement => self.member_element(depth, kind),
            Part::ItemsMembers => self.items_members(depth, kind),
            Part::MemberFunction => self.member_function(depth, kind),
            Part::TypesetMember => self.typeset_member(depth, kind),
            Part::MemberRedirections => self.member_redirections(depth, kind),
        }
    }
}
