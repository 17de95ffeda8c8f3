ghost use Rattle.std.specs.Prelude.{◌≡◌, IfOk};
ghost use Rattle.ksh_meaning.specs.Texts.{refusal_words, fault_line, refused_words, var_fault_words, var_refused_words};

use itoa::Buffer;
use kernel_ask::Refusal;
use ksh_base::{Memory, Text};
use std::alloc::Global;
use var_store::VarFault;

/// The words of a refusal.
pub fn refusal_words(refusal: Refusal) -> &'static [u8]
    ensures { result.now ≡ refusal_words refusal }
{
    match refusal {
        Refusal::NoEntry => b"no entry",
        Refusal::NotDir => b"not a directory",
        Refusal::IsDir => b"is a directory",
        Refusal::Exists => b"exists",
        Refusal::Denied => b"denied",
        Refusal::BadHandle => b"bad handle",
        Refusal::Broken => b"broken",
        Refusal::Io => b"refused",
        Refusal::TooMany => b"too many",
    }
}

/// A line of text from the command of that line of the script: `kshtree: line L: WORDS`.
pub fn fault_text(alloc: Global, line: u32, words: &[u8]) -> Result<Text, Memory>
    ensures { IfOk result (λ t. t ≡ fault_line line words.now) }
{
    let mut text = Text::of(alloc, b"kshtree: line ")?;
    let mut buffer = Buffer::new();
    text.append(buffer.format(line).as_bytes())?;
    text.append(b": ")?;
    text.append(words)?;
    text.append(b"\n")?;
    Ok(text)
}

/// That an ask of this name was refused: `NAME: REFUSAL`.
pub fn refused_text(alloc: Global, name: &[u8], refusal: Refusal) -> Result<Text, Memory>
    ensures { IfOk result (λ t. t ≡ refused_words name.now refusal) }
{
    let mut text = Text::of(alloc, name)?;
    text.append(b": ")?;
    text.append(refusal_words(refusal))?;
    Ok(text)
}

fn var_fault_words(fault: VarFault) -> &'static [u8]
    ensures { result.now ≡ var_fault_words fault }
{
    match fault {
        VarFault::NoParent => b"no parent",
        VarFault::ReadOnly => b"is read only",
        VarFault::NotArray => b"not an array",
        VarFault::SubscriptRange => b"subscript out of range",
        VarFault::NotAName => b"not a name",
        VarFault::WrongKind => b"wrong kind",
        VarFault::Memory => b"out of memory",
    }
}

/// That a change of this variable was refused: `NAME: FAULT`.
pub fn var_refused_text(alloc: Global, name: &[u8], fault: VarFault) -> Result<Text, Memory>
    ensures { IfOk result (λ t. t ≡ var_refused_words name.now fault) }
{
    let mut text = Text::of(alloc, name)?;
    text.append(b": ")?;
    text.append(var_fault_words(fault))?;
    Ok(text)
}
