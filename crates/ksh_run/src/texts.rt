// The texts of what is refused before a script runs.
ghost use Rattle.std.specs.Prelude.{◌≡◌, IfOk};
ghost use Rattle.ksh_run.specs.Texts.{source_line, syntax_line, usage_line};

use itoa::Buffer;
use ksh_base::{Memory, Text, UsageFault};
use ksh_lexer::SyntaxFault;
use std::alloc::Global;

/// `kshtree: usage fault K at word N` and a newline.
pub fn usage_text(alloc: Global, fault: UsageFault) -> Result<Text, Memory>
    ensures { IfOk result (λ t. t ≡ usage_line fault) }
{
    let mut text = Text::of(alloc, b"kshtree: usage fault ")?;
    let mut buffer = Buffer::new();
    text.append(buffer.format(fault.kind).as_bytes())?;
    text.append(b" at word ")?;
    let mut buffer = Buffer::new();
    text.append(buffer.format(fault.word).as_bytes())?;
    text.append(b"\n")?;
    Ok(text)
}

/// `kshtree: cannot read the script` and a newline.
pub fn source_text(alloc: Global) -> Result<Text, Memory>
    ensures { IfOk result (λ t. t ≡ source_line) }
{
    Text::of(alloc, b"kshtree: cannot read the script\n")
}

/// `kshtree: syntax fault K at line L, byte B: KIND` and a newline.
pub fn syntax_text(alloc: Global, fault: SyntaxFault) -> Result<Text, Memory>
    ensures { IfOk result (λ t. t ≡ syntax_line fault) }
{
    let mut text = Text::of(alloc, b"kshtree: syntax fault ")?;
    let mut buffer = Buffer::new();
    text.append(buffer.format(fault.kind.number()).as_bytes())?;
    text.append(b" at line ")?;
    let mut buffer = Buffer::new();
    text.append(buffer.format(fault.place.line).as_bytes())?;
    text.append(b", byte ")?;
    let mut buffer = Buffer::new();
    text.append(buffer.format(fault.place.byte).as_bytes())?;
    text.append(b": ")?;
    text.append(fault.kind.name())?;
    text.append(b"\n")?;
    Ok(text)
}
