// Times whether a text is a script.

use anyhow::Result;
use ksh_scan::check_text;
use std::alloc::AllocGlobal;
use std::io::Print;
use std::time::{Clock, Instant};

pub(crate) fn run(rt: &(impl Print + AllocGlobal + Clock), text: &[u8]) -> Result<()> {
    let start = Instant::now(rt)?;
    let answer = check_text(rt.alloc(), text);
    let micros = start.elapsed(rt)?.as_micros();
    println!(rt; "{} {micros} 0 {answer:?}", text.len())?;
    Ok(())
}
