//! Answers as texts.
use anyhow::Result;
use ksh_base::{Name, Shared, Text};
use ksh_nameref::RefFault;
use std::alloc::Global;
use var_store::VarFault;
use var_types::{Attrs, Cell, HookSet, Path, Step, Value};

/// Adds a number in decimal.
pub fn add_number(alloc: Global, out: &mut Text, number: i64) -> Result<()> {
    let text = format!(in alloc; "{number}")?;
    out.append(text.as_bytes())?;
    Ok(())
}

fn add_step(alloc: Global, out: &mut Text, step: &Step) -> Result<()> {
    match step {
        Step::Member(name) => {
            out.append(b".")?;
            out.append(name.text().bytes())?;
        }
        Step::Index(at) => {
            out.append(b"[")?;
            add_number(alloc, out, i64::from(*at))?;
            out.append(b"]")?;
        }
        Step::Key(text) => {
            out.append(b"[")?;
            out.append(text.bytes())?;
            out.append(b"]")?;
        }
    }
    Ok(())
}

/// Adds steps as a path writes them.
pub fn add_steps(alloc: Global, out: &mut Text, steps: &[Step]) -> Result<()> {
    for step in steps {
        add_step(alloc, out, step)?;
    }
    Ok(())
}

/// Adds a path, with its scope where that isn't 0.
pub fn add_path(alloc: Global, out: &mut Text, path: &Path) -> Result<()> {
    if path.scope > 0 {
        add_number(alloc, out, i64::from(path.scope))?;
        out.append(b"/")?;
    }
    out.append(path.name.text().bytes())?;
    add_steps(alloc, out, path.steps.as_slice())
}

/// Adds a kind of value and what it holds.
fn add_value(alloc: Global, out: &mut Text, value: &Value) -> Result<()> {
    match value {
        Value::Unset => out.append(b"unset")?,
        Value::Plain(text) => {
            out.append(b"text ")?;
            out.append(text.bytes())?;
        }
        Value::Number(number) => {
            out.append(b"number ")?;
            add_number(alloc, out, *number)?;
        }
        Value::Compound => out.append(b"compound")?,
        Value::Indexed => out.append(b"indexed")?,
        Value::Assoc => out.append(b"associative")?,
        Value::Reference(path) => {
            out.append(b"reference ")?;
            add_path(alloc, out, path)?;
        }
        Value::NoReference => out.append(b"targetless")?,
        Value::Instance(name) => {
            out.append(b"instance ")?;
            out.append(name.text().bytes())?;
        }
    }
    Ok(())
}

/// Adds a word, behind a blank where it isn't the first.
fn add_word(out: &mut Text, word: &[u8]) -> Result<()> {
    if !out.is_empty() {
        out.append(b" ")?;
    }
    out.append(word)?;
    Ok(())
}

fn add_letter(out: &mut Text, letter: &[u8], there: bool) -> Result<()> {
    if there {
        add_word(out, letter)?;
    }
    Ok(())
}

fn add_width(alloc: Global, out: &mut Text, letter: &[u8], width: Option<u32>) -> Result<()> {
    if let Some(width) = width {
        add_word(out, letter)?;
        add_number(alloc, out, i64::from(width))?;
    }
    Ok(())
}

/// Adds the letters of the attributes, with bases and widths.
pub fn add_attributes(alloc: Global, out: &mut Text, attrs: &Attrs) -> Result<()> {
    add_width(alloc, out, b"-i", attrs.integer.map(u32::from))?;
    add_letter(out, b"-u", attrs.upper)?;
    add_letter(out, b"-l", attrs.lower)?;
    add_width(alloc, out, b"-L", attrs.left)?;
    add_width(alloc, out, b"-R", attrs.right)?;
    add_width(alloc, out, b"-Z", attrs.zero)?;
    add_letter(out, b"-r", attrs.readonly)?;
    add_letter(out, b"-x", attrs.exported)
}

fn add_function(
    alloc: Global,
    out: &mut Text,
    kind: &[u8],
    function: &Option<Shared<u8>>,
) -> Result<()> {
    if let Some(held) = function {
        add_word(out, kind)?;
        add_number(alloc, out, i64::from(*held.get()))?;
    }
    Ok(())
}

fn add_functions(alloc: Global, out: &mut Text, hooks: &HookSet<u8>) -> Result<()> {
    add_function(alloc, out, b"get=", &hooks.get)?;
    add_function(alloc, out, b"set=", &hooks.set)?;
    add_function(alloc, out, b"append=", &hooks.append)?;
    add_function(alloc, out, b"unset=", &hooks.unset)
}

/// What a row has beside its path.
pub fn cell_text(alloc: Global, cell: Option<&Cell<u8>>) -> Result<Text> {
    let Some(cell) = cell else {
        return Ok(Text::of(alloc, b"no row")?);
    };
    let mut out = Text::empty(alloc);
    add_value(alloc, &mut out, &cell.value)?;
    add_attributes(alloc, &mut out, &cell.attrs)?;
    add_functions(alloc, &mut out, &cell.hooks)?;
    Ok(out)
}

/// What an empty answer says.
fn or_nothing(alloc: Global, out: Text) -> Result<Text> {
    if out.is_empty() {
        return Ok(Text::of(alloc, b"nothing")?);
    }
    Ok(out)
}

/// Texts with blanks between them.
pub fn texts(alloc: Global, texts: &[Text]) -> Result<Text> {
    let mut out = Text::empty(alloc);
    for text in texts {
        add_word(&mut out, text.bytes())?;
    }
    or_nothing(alloc, out)
}

/// Names with blanks between them.
pub fn names(alloc: Global, names: &[Name]) -> Result<Text> {
    let mut out = Text::empty(alloc);
    for name in names {
        add_word(&mut out, name.text().bytes())?;
    }
    or_nothing(alloc, out)
}

/// `ok`, or the fault.
pub fn done(alloc: Global, answer: Result<(), VarFault>) -> Result<Text> {
    match answer {
        Ok(()) => Ok(Text::of(alloc, b"ok")?),
        Err(fault) => refused(alloc, fault),
    }
}

/// The fault.
pub fn refused(alloc: Global, fault: VarFault) -> Result<Text> {
    let text = format!(in alloc; "{fault}")?;
    Ok(Text::of(alloc, text.as_bytes())?)
}

/// Why a path stands for nothing.
pub fn unresolved(alloc: Global, fault: RefFault) -> Result<Text> {
    let text = format!(in alloc; "{fault}")?;
    Ok(Text::of(alloc, text.as_bytes())?)
}
