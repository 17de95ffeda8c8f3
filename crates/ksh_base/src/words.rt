ghost use Rattle.std.specs.Prelude.{◌≡◌, ℕ, ◌+◌, ◌≤◌, ◌<◌, ◌↔◌, IfOk, IfSome, drop, take, true, false, IsTrue, MatchOption, if◌then◌else◌, Option, Some, None, codes};
ghost use Rattle.ksh_base.specs.Words.{AnswersPlan, IsKnown, words_plan, script_plan, after_c, after_dashes, read_option, with_budget, budget_of, word_behind, is_budget, is_budget_word, begins_with_dash, usage_number, written};

use crate::memory::Memory;
use crate::text::Text;
use sqlite_items::Items;
use std::alloc::Global;
use thiserror::Error;

/// The budget of a run without `--budget`, in units.
pub const DEFAULT_BUDGET: u64 = 1_000_000_000_000;

/// The largest budget that may be asked for, in units.
pub const LARGEST_BUDGET: u64 = 1_000_000_000_000_000_000;

/// Where the script comes from.
#[derive(Debug, Drop)]
pub enum ScriptFrom {
    /// The file of that path.
    File(Text),
    /// This text.
    Given(Text),
    /// The script that the generator makes for that number.
    Generated(u32),
}

/// What the program's words ask for.
#[derive(Debug, Drop)]
pub struct Plan {
    /// The script is checked and not run.
    pub check: bool,
    /// The script runs in a world in memory.
    pub boxed: bool,
    /// The units that the root may spend.
    pub budget: u64,
    pub script: ScriptFrom,
    /// `$0`.
    pub zero: Text,
    /// The positional parameters, from `$1` on.
    pub args: Items<Text>,
}

/// The kinds of a fault in the words.
#[derive(Clone, Copy, Debug, PartialEq, Eq)]
pub enum UsageKind {
    /// No script is named. The fault stands at the word after the last.
    NoScript,
    /// The word begins with `-` and is no option.
    UnknownOption,
    /// The option stands a second time.
    Repeated,
    /// The number has no digits or other bytes, or is out of range.
    BadNumber,
    /// The option's own word is the last.
    NoArgument,
}

impl UsageKind {
    /// The number under which the kind is told.
    pub fn number(self) -> u8
        ensures { result ≡ usage_number self }
    {
        match self {
            UsageKind::NoScript => 1,
            UsageKind::UnknownOption => 2,
            UsageKind::Repeated => 3,
            UsageKind::BadNumber => 4,
            UsageKind::NoArgument => 5,
        }
    }
}

/// A fault in the words: its kind's number, and its word, counted from 1.
#[derive(Clone, Copy, Debug, PartialEq, Eq, Error)]
#[error("usage fault {kind} at word {word}")]
pub struct UsageFault {
    pub kind: u8,
    pub word: u32,
}

/// Why words give no plan.
#[derive(Clone, Copy, Debug, PartialEq, Eq, Error)]
pub enum WordsRefused {
    #[error("usage fault {} at word {}", .0.kind, .0.word)]
    Usage(UsageFault),
    #[error("out of memory")]
    Memory,
}

impl From<Memory> for WordsRefused {
    ghost use Rattle.std.specs.Prelude.{◌≡◌};
    ghost use Rattle.ksh_base.specs.declared.words.WordsRefused.TheVariants.{Memory};

    ghost from_gives = { λ _ e. e ≡ Memory };

    fn from(_refused: Memory) -> WordsRefused {
        WordsRefused::Memory
    }
}

/// The options that were read.
#[derive(Clone, Copy)]
struct Options {
    /// `-n` stood.
    check: bool,
    /// The budget of `--budget=N`, where that stood.
    budget: Option<u64>,
}

/// The plan of `[-n] [--budget=N]`, in either order, and then `-c TEXT [zero [args]]`,
/// `FILE [args]` or `-- FILE [args]`, or the first fault from the left. With `-n` the script is to be
/// checked and not run. An option that stands a second time is that fault whatever its number is.
pub fn read_words(alloc: Global, words: &[Text]) -> Result<Plan, WordsRefused>
    ensures means { AnswersPlan result (words_plan words.now) }
    ensures known { IfOk result (λ p. IsKnown p.script) }
{
    let mut seen = Options {
        check: false,
        budget: None,
    };
    let mut at = 1u32;
    let mut rest = words;
    while let Some((word, more)) = rest.split_first() {
        match read_option(seen, word.bytes()) {
            None => return read_script(alloc, seen, at, word, more),
            Some(Err(kind)) => return Err(usage(kind, at)),
            Some(Ok(next)) => seen = next,
        }
        at += 1;
        rest = more;
    }
    Err(usage(UsageKind::NoScript, at))
}

/// The options with that of the word, or its fault; None where the word is no option.
fn read_option(seen: Options, word: &[u8]) -> Option<Result<Options, UsageKind>>
    ensures means { result ≡ read_option seen word.now }
    ensures one { IfSome result (λ r. IfOk r (λ next. word_behind next ≡ word_behind seen + 1)) }
{
    if word == b"-n".as_slice() {
        if seen.check {
            return Some(Err(UsageKind::Repeated));
        }
        return Some(Ok(Options {
            check: true,
            budget: seen.budget,
        }));
    }
    let number = budget_option(word)?;
    Some(with_budget(seen, number))
}

/// The options with the budget that the digits write, or the fault.
fn with_budget(seen: Options, number: &[u8]) -> Result<Options, UsageKind>
    ensures means { result ≡ with_budget seen number.now }
    ensures one { IfOk result (λ next. word_behind next ≡ word_behind seen + 1) }
{
    if seen.budget.is_some() {
        return Err(UsageKind::Repeated);
    }
    match read_budget(number) {
        Some(budget) => Ok(Options {
            check: seen.check,
            budget: Some(budget),
        }),
        None => Err(UsageKind::BadNumber),
    }
}

/// Reads the word `at`, the first that is no option, and those behind it.
fn read_script(
    alloc: Global,
    seen: Options,
    at: u32,
    first: &Text,
    rest: &[Text],
) -> Result<Plan, WordsRefused>
    ensures means { AnswersPlan result (script_plan seen at first.now rest.now) }
    ensures known { IfOk result (λ p. IsKnown p.script) }
{
    let word = first.bytes();
    if word == b"-c".as_slice() {
        read_given(alloc, seen, at, rest)
    } else if word == b"--".as_slice() {
        read_named(alloc, seen, at, rest)
    } else if begins_with_dash(word) {
        Err(usage(UsageKind::UnknownOption, at))
    } else {
        Ok(file_plan(alloc, seen, first, rest)?)
    }
}

fn read_given(alloc: Global, seen: Options, at: u32, words: &[Text]) -> Result<Plan, WordsRefused>
    ensures means { AnswersPlan result (after_c seen at words.now) }
    ensures known { IfOk result (λ p. IsKnown p.script) }
{
    let Some((text, rest)) = words.split_first() else {
        return Err(usage(UsageKind::NoArgument, at));
    };
    let script = ScriptFrom::Given(text.copy(alloc)?);
    let Some((zero, args)) = rest.split_first() else {
        let zero = Text::of(alloc, b"kshtree")?;
        return Ok(make_plan(seen, script, zero, Items::new(alloc)));
    };
    let zero = zero.copy(alloc)?;
    let args = copy_texts(alloc, args)?;
    Ok(make_plan(seen, script, zero, args))
}

fn read_named(alloc: Global, seen: Options, at: u32, words: &[Text]) -> Result<Plan, WordsRefused>
    ensures means { AnswersPlan result (after_dashes seen at words.now) }
    ensures known { IfOk result (λ p. IsKnown p.script) }
{
    let Some((file, args)) = words.split_first() else {
        return Err(usage(UsageKind::NoArgument, at));
    };
    Ok(file_plan(alloc, seen, file, args)?)
}

fn file_plan(alloc: Global, seen: Options, file: &Text, args: &[Text]) -> Result<Plan, Memory>
    ensures means { IfOk result (λ p. p ≡ record { check = seen.check; boxed = false; budget = budget_of seen.budget; script = ScriptFrom.File file.now; zero = file.now; args = args.now }) }
    ensures known { IfOk result (λ p. IsKnown p.script) }
{
    let script = ScriptFrom::File(file.copy(alloc)?);
    let zero = file.copy(alloc)?;
    let args = copy_texts(alloc, args)?;
    Ok(make_plan(seen, script, zero, args))
}

fn make_plan(seen: Options, script: ScriptFrom, zero: Text, args: Items<Text>) -> Plan
    ensures { result ≡ record { check = seen.check; boxed = false; budget = budget_of seen.budget; script = script; zero = zero; args = args } }
{
    Plan {
        check: seen.check,
        boxed: false,
        budget: budget_of(seen.budget),
        script,
        zero,
        args,
    }
}

/// The budget that was asked for, else the one of a run without `--budget`.
fn budget_of(asked: Option<u64>) -> u64
    ensures { result ≡ budget_of asked }
{
    match asked {
        Some(budget) => budget,
        None => DEFAULT_BUDGET,
    }
}

/// Copies of the texts.
pub fn copy_texts(alloc: Global, texts: &[Text]) -> Result<Items<Text>, Memory>
    ensures { IfOk result (λ copies. copies ≡ texts.now) }
{
    let mut copies = Items::new(alloc);
    for text in texts {
        copies.push(text.copy(alloc)?)?;
    }
    Ok(copies)
}

fn usage(kind: UsageKind, word: u32) -> WordsRefused
    ensures { result ≡ WordsRefused.Usage (record { kind = usage_number kind; word = word }) }
{
    WordsRefused::Usage(UsageFault {
        kind: kind.number(),
        word,
    })
}

fn begins_with_dash(word: &[u8]) -> bool
    ensures { result ≡ begins_with_dash word.now }
{
    match word.split_first() {
        Some((first, _)) => *first == b'-',
        None => false,
    }
}

/// What follows `--budget=` in the word, where it begins so.
fn budget_option(word: &[u8]) -> Option<&[u8]>
    ensures { MatchOption result (is_budget_word word.now ≡ false) (λ n. (is_budget_word word.now ≡ true) × (n.now ≡ drop 9 word.now)) }
{
    word.strip_prefix(b"--budget=".as_slice())
}

/// The budget that decimal digits write.
fn read_budget(digits: &[u8]) -> Option<u64>
    ensures { MatchOption result (is_budget digits.now ≡ false) (λ n. (is_budget digits.now ≡ true) × (n ≡ written digits.now)) }
{
    let mut value = 0u64;
    for digit in digits {
        if !digit.is_ascii_digit() {
            return None;
        }
        if value > LARGEST_BUDGET {
            return None;
        }
        value = value * 10 + u64::from(*digit - b'0');
    }
    if value == 0 || value > LARGEST_BUDGET {
        return None;
    }
    Some(value)
}

#[cfg(test)]
mod tests {
    use super::*;
    use std::test::Fail;

    fn texts(alloc: Global, words: &[&[u8]]) -> Result<Items<Text>, Memory> {
        let mut texts = Items::new(alloc);
        for word in words {
            texts.push(Text::of(alloc, word)?)?;
        }
        Ok(texts)
    }

    #[test]
    fn faults_are_the_first_from_the_left(rt: HostRuntime) -> Result<(), Fail> {
        let alloc = rt.alloc();
        let rows: [(&[&[u8]], UsageKind, u32); 25] = [
            (&[], UsageKind::NoScript, 1),
            (&[b"--budget=7"], UsageKind::NoScript, 2),
            (&[b"-q"], UsageKind::UnknownOption, 1),
            (&[b"-"], UsageKind::UnknownOption, 1),
            (&[b"-nf", b"f"], UsageKind::UnknownOption, 1),
            (&[b"-n"], UsageKind::NoScript, 2),
            (&[b"-n", b"-q"], UsageKind::UnknownOption, 2),
            (&[b"-n", b"-n", b"f"], UsageKind::Repeated, 2),
            (&[b"-n", b"--budget=5", b"-n", b"f"], UsageKind::Repeated, 3),
            (&[b"-n", b"--budget=x", b"f"], UsageKind::BadNumber, 2),
            (&[b"-n", b"-c"], UsageKind::NoArgument, 2),
            (&[b"--box", b"f"], UsageKind::UnknownOption, 1),
            (&[b"--gen", b"5"], UsageKind::UnknownOption, 1),
            (&[b"--budget"], UsageKind::UnknownOption, 1),
            (&[b"--budget=1", b"-q"], UsageKind::UnknownOption, 2),
            (
                &[b"--budget=1", b"--budget=2", b"f"],
                UsageKind::Repeated,
                2,
            ),
            (
                &[b"--budget=1", b"--budget=x", b"f"],
                UsageKind::Repeated,
                2,
            ),
            (&[b"--budget=0", b"f"], UsageKind::BadNumber, 1),
            (&[b"--budget=", b"-q"], UsageKind::BadNumber, 1),
            (&[b"--budget=1x", b"f"], UsageKind::BadNumber, 1),
            (&[b"--budget=+1", b"f"], UsageKind::BadNumber, 1),
            (
                &[b"--budget=1000000000000000001", b"f"],
                UsageKind::BadNumber,
                1,
            ),
            (
                &[b"--budget=99999999999999999999999999", b"f"],
                UsageKind::BadNumber,
                1,
            ),
            (&[b"-c"], UsageKind::NoArgument, 1),
            (&[b"--budget=1", b"--"], UsageKind::NoArgument, 2),
        ];
        for (words, kind, word) in rows {
            let words = texts(alloc, words)?;
            let fault = UsageFault {
                kind: kind.number(),
                word,
            };
            assert!(rt;
                read_words(alloc, words.as_slice()).err() == Some(WordsRefused::Usage(fault))
            );
        }
        Ok(())
    }

    #[test]
    fn plans_have_a_script_and_its_parameters(rt: HostRuntime) -> Result<(), Fail> {
        let alloc = rt.alloc();
        let rows: [(&[&[u8]], &[u8], &[u8], u64, usize); 8] = [
            (
                &[b"-c", b"print a"],
                b"c print a",
                b"kshtree",
                DEFAULT_BUDGET,
                0,
            ),
            (&[b"-c", b"-x", b"-q"], b"c -x", b"-q", DEFAULT_BUDGET, 0),
            (
                &[b"-c", b"", b"z", b"a", b"b"],
                b"c ",
                b"z",
                DEFAULT_BUDGET,
                2,
            ),
            (&[b"f"], b"f f", b"f", DEFAULT_BUDGET, 0),
            (&[b"", b"-c"], b"f ", b"", DEFAULT_BUDGET, 1),
            (
                &[b"--", b"-f", b"--budget=0"],
                b"f -f",
                b"-f",
                DEFAULT_BUDGET,
                1,
            ),
            (
                &[b"--budget=0000000000000000000000007", b"f"],
                b"f f",
                b"f",
                7,
                0,
            ),
            (
                &[b"--budget=1000000000000000000", b"-c", b"x"],
                b"c x",
                b"kshtree",
                LARGEST_BUDGET,
                0,
            ),
        ];
        for (words, script, zero, budget, args) in rows {
            let words = texts(alloc, words)?;
            let plan = read_words(alloc, words.as_slice())?;
            let mut shown = Text::empty(alloc);
            match &plan.script {
                ScriptFrom::Given(text) => {
                    shown.append(b"c ")?;
                    shown.append(text.bytes())?;
                }
                ScriptFrom::File(path) => {
                    shown.append(b"f ")?;
                    shown.append(path.bytes())?;
                }
                ScriptFrom::Generated(_) => {}
            }
            assert!(rt; shown.bytes() == script);
            assert!(rt; plan.zero.bytes() == zero);
            assert_eq!(rt; plan.budget, budget);
            assert_eq!(rt; plan.args.len(), args);
            assert!(rt; !plan.check && !plan.boxed);
            if let (Some(last), Some(want)) = (
                plan.args.as_slice().last(),
                words.as_slice().last(),
            ) {
                assert!(rt; last == want);
            }
        }
        Ok(())
    }

    #[test]
    fn options_stand_in_any_order(rt: HostRuntime) -> Result<(), Fail> {
        let alloc = rt.alloc();
        let rows: [(&[&[u8]], bool, u64, usize); 5] = [
            (&[b"-n", b"--", b"f", b"a"], true, DEFAULT_BUDGET, 1),
            (&[b"-n", b"--budget=7", b"f", b"-n"], true, 7, 1),
            (
                &[b"--budget=7", b"-n", b"-c", b"print a", b"z", b"b"],
                true,
                7,
                1,
            ),
            (&[b"f", b"-n"], false, DEFAULT_BUDGET, 1),
            (&[b"-c", b"-n"], false, DEFAULT_BUDGET, 0),
        ];
        for (words, check, budget, args) in rows {
            let words = texts(alloc, words)?;
            let plan = read_words(alloc, words.as_slice())?;
            assert!(rt; plan.check == check && !plan.boxed);
            assert_eq!(rt; plan.budget, budget);
            assert_eq!(rt; plan.args.len(), args);
        }
        Ok(())
    }
}
