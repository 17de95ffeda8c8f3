// Matches a text against a pattern, again and again.

use anyhow::Result;
use ksh_pattern::{Marked, Pattern};
use std::alloc::{AllocGlobal, Global};
use std::io::Print;
use std::time::{Clock, Instant};

// Tells how often the pattern matched, and how many microseconds all took. The first line of the file is how often to match, the second the pattern, and
// all that follows is the text.
pub(crate) fn run(rt: &(impl Print + AllocGlobal + Clock), file: &[u8]) -> Result<()> {
    let (count, rest) = line(file);
    let (pattern, text) = line(rest);
    let count = number(count);
    let pattern = Pattern::make(rt.alloc(), plain(rt.alloc(), pattern)?.as_slice())?;
    let start = Instant::now(rt)?;
    let mut matched = 0u64;
    for _ in 0..count {
        if pattern.matches(text)? {
            matched = matched.saturating_add(1);
        }
    }
    let micros = start.elapsed(rt)?.as_micros();
    println!(rt; "{matched} {micros}")?;
    Ok(())
}

// The first line, and what follows it.
fn line(text: &[u8]) -> (&[u8], &[u8]) {
    let end = text
        .iter()
        .position(|byte| *byte == b'\n')
        .unwrap_or(text.len());
    if end < text.len() {
        (&text[..end], &text[end + 1..])
    } else {
        (text, &[])
    }
}

// The number that digits write.
fn number(digits: &[u8]) -> u64 {
    let mut value = 0u64;
    for digit in digits {
        value = value
            .saturating_mul(10)
            .saturating_add(u64::from(digit.saturating_sub(b'0')));
    }
    value
}

// The bytes, none of them quoted.
fn plain(alloc: Global, text: &[u8]) -> Result<Vec<Marked>> {
    let mut marks = Vec::new(alloc);
    for byte in text {
        marks.push(Marked {
            byte: *byte,
            quoted: false,
        })?;
    }
    Ok(marks)
}
