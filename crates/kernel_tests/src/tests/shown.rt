// An answer as a table says it: the bytes of Bytes, the names of Names, the facts in letters, else as the debugger says it.
use kernel_ask::{Answer, FileFacts, Texts};
use ksh_base::Memory;
use std::alloc::Global;
use std::fmt::Write;
use std::test::Fail;

pub(crate) fn word(alloc: Global, bytes: &[u8]) -> Result<Vec<u8>, Memory> {
    Ok(Vec::from_slice(alloc, bytes)?)
}

fn bytes(alloc: Global, bytes: &[u8]) -> Result<Vec<u8>, Memory> {
    let mut out = Vec::new(alloc);
    out.extend_from_slice(b"Bytes <")?;
    out.extend_from_slice(bytes)?;
    out.push(b'>')?;
    Ok(out)
}

fn names(alloc: Global, names: &Texts) -> Result<Vec<u8>, Memory> {
    let mut out = Vec::new(alloc);
    out.extend_from_slice(b"Names")?;
    for name in names.as_slice() {
        out.push(b' ')?;
        out.extend_from_slice(name.bytes())?;
    }
    Ok(out)
}

fn letter(holds: bool, letter: char) -> char {
    if holds { letter } else { '-' }
}

// Folder, plain, readable, writable and runnable, each a letter or a dash, and then the size.
fn facts(alloc: Global, facts: &FileFacts) -> Result<Vec<u8>, Fail> {
    let mut out = String::new(alloc);
    write!(
        out,
        "Facts {}{}{}{}{} {}",
        letter(facts.folder, 'd'),
        letter(facts.plain, 'p'),
        letter(facts.readable, 'r'),
        letter(facts.writable, 'w'),
        letter(facts.runnable, 'x'),
        facts.size
    )?;
    Ok(word(alloc, out.as_str().as_bytes())?)
}

fn shown(alloc: Global, answer: &Answer) -> Result<Vec<u8>, Fail> {
    let mut out = String::new(alloc);
    write!(out, "{answer:?}")?;
    Ok(word(alloc, out.as_str().as_bytes())?)
}

pub(crate) fn text(alloc: Global, answer: &Answer) -> Result<Vec<u8>, Fail> {
    match answer {
        Answer::Bytes(text) => Ok(bytes(alloc, text.bytes())?),
        Answer::Names(texts) => Ok(names(alloc, texts)?),
        Answer::Facts(found) => facts(alloc, found),
        _ => shown(alloc, answer),
    }
}
