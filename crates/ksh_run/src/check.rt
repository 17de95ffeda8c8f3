// Scripts that are checked and not run.
ghost use Rattle.std.specs.Prelude.{◌≡◌, [], IfOk};
ghost use Rattle.ksh_base.specs.Words.{IsKnown};
ghost use Rattle.ksh_run.specs.Checks.{ChecksBy, ChecksPlan, ChecksText};
ghost use Rattle.ksh_run.specs.Texts.{source_line, syntax_line, usage_line};
ghost use Rattle.ksh_run.specs.Top.{EndsCheck, IsFresh, IsRoot};
ghost use Rattle.ksh_run.specs.declared.check.Checked.TheVariants.{Refused};
ghost use Rattle.ksh_run.specs.declared.ended.Why.TheVariants.{SourceFault, Syntax, Usage};
ghost use Rattle.shell_family.specs.Told.{ForTold, from};

use crate::ended::{Ended, Why};
use crate::refuse::{lose, pass, refuse_text};
use crate::run::script_text;
use crate::texts::{source_text, syntax_text, usage_text};
use kernel_ask::Port;
use ksh_base::{Memory, Plan, ReadRefused, Source, Text, UsageFault, WordsRefused, read_words};
use ksh_lexer::SyntaxFault;
use ksh_scan::{SyntaxRefused, check_text};
use shell_state::Start;
use shell_thread::{Album, Spawner};
use std::alloc::Global;

/// What a check of the program's words and of the script that they name says.
#[derive(Debug, Drop)]
pub enum Checked {
    /// Neither has a fault.
    Fine,
    /// The fault `why`, which is `Usage`, `Syntax` or `SourceFault`, the program's status and the line that tells it.
    Refused { status: u8, why: Why, text: Text },
}

/// Checks the program's words and the script that they name, with `-n` or without it, and runs nothing.
///
/// `Fine` exactly where the words have no fault, no read of this call failed and the text is a script; else
/// the first fault, in this order: `Usage` exactly where the words have it, `SourceFault` exactly where a
/// read failed, `Syntax` with the text's first fault. Waits for nobody.
pub fn check_script<S: Source>(
    alloc: Global,
    words: &[Text],
    source: &mut S,
) -> Result<Checked, Memory>
    ensures checks { IfOk result (ChecksBy words.now (S.left source.old) (S.faults source.old) (S.faults source.new)) }
{
    match read_words(alloc, words) {
        Ok(plan) => check_plan(alloc, plan, source),
        Err(WordsRefused::Usage(fault)) => misused(alloc, fault),
        Err(WordsRefused::Memory) => Err(Memory),
    }
}

// The words have this fault.
fn misused(alloc: Global, fault: UsageFault) -> Result<Checked, Memory>
    ensures { IfOk result (λ c. c ≡ Refused 2 (Usage fault) (usage_line fault)) }
{
    let text = usage_text(alloc, fault)?;
    let why = Why::Usage(fault);
    Ok(Checked::Refused {
        status: 2,
        why,
        text,
    })
}

// A read failed.
fn unread(alloc: Global) -> Result<Checked, Memory>
    ensures { IfOk result (λ c. c ≡ Refused 122 SourceFault source_line) }
{
    let text = source_text(alloc)?;
    Ok(Checked::Refused {
        status: 122,
        why: Why::SourceFault,
        text,
    })
}

// The text has this fault.
fn faulty(alloc: Global, fault: SyntaxFault) -> Result<Checked, Memory>
    ensures { IfOk result (λ c. c ≡ Refused 2 (Syntax fault) (syntax_line fault)) }
{
    let text = syntax_text(alloc, fault)?;
    let why = Why::Syntax(fault);
    Ok(Checked::Refused {
        status: 2,
        why,
        text,
    })
}

// Reads the script and checks it.
fn check_plan<S: Source>(alloc: Global, plan: Plan, source: &mut S) -> Result<Checked, Memory>
    requires known { IsKnown plan.script }
    ensures checks { IfOk result (ChecksPlan plan (S.left source.old) (S.faults source.old) (S.faults source.new)) }
{
    match script_text(alloc, source, plan.script) {
        Ok(text) => check_bytes(alloc, text.bytes()),
        Err(ReadRefused::Failed) => unread(alloc),
        Err(ReadRefused::Memory) => Err(Memory),
    }
}

// Checks the text.
fn check_bytes(alloc: Global, text: &[u8]) -> Result<Checked, Memory>
    ensures checks { IfOk result (ChecksText text.now) }
{
    match check_text(alloc, text) {
        Ok(()) => Ok(Checked::Fine),
        Err(SyntaxRefused::Fault(fault)) => faulty(alloc, fault),
        Err(SyntaxRefused::Memory) => Err(Memory),
    }
}

/// Checks the text for a root that runs nothing.
pub fn check_root<Po: Port<Start>, P: Spawner, A: Album<Po>>(
    alloc: Global,
    text: &[u8],
    port: Po,
    spawner: P,
    album: A,
) -> Ended<Po, A>
    requires fresh { IsFresh (Po.sees port) }
    requires album { ForTold (A.list album) (λ ends. ends ≡ []) }
    ensures ends { EndsCheck Po.sees text.now result }
    ensures root { ForTold result.root (IsRoot Po.sees A.list P.faults (from (Po.sees port))) }
{
    match check_text(alloc, text) {
        Ok(()) => pass(alloc, port, spawner, album),
        Err(SyntaxRefused::Fault(fault)) => refuse_text(alloc, fault, port, spawner, album),
        Err(SyntaxRefused::Memory) => lose(alloc, port, spawner, album),
    }
}
