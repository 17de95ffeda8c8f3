//! Times parts of the shell. The scripts of bench/ run it by hand; the first word picks the part, and the second is a file that it reads.
#![tactic(auto)]

mod arith;
mod kernel;
mod lexing;
mod pattern;
mod scanning;
mod store;

use ksh_base::{FileSource, Text, read_script};
use std::env;
use std::process::ExitCode;

// More than a script may have, so that a text that is too long is seen to be.
const LIMIT: usize = 16_777_217;

fn main(rt: HostRuntime) -> anyhow::Result<ExitCode> {
    let mut words = env::args(&rt)?;
    let _program = words.next();
    let Some(part) = words.next() else {
        return Ok(ExitCode::SUCCESS);
    };
    match part.as_str() {
        "arith" => arith::run(&rt)?,
        "kernel" => kernel::run(&rt)?,
        "store" => store::run(&rt)?,
        _ => {
            let Some(file) = words.next() else {
                return Ok(ExitCode::from(2));
            };
            let path = Text::of(rt.alloc(), file.as_str().as_bytes())?;
            let text = read_script(rt.alloc(), &mut FileSource::new(rt, path), LIMIT)?;
            match part.as_str() {
                "lexing" => lexing::run(&rt, text.bytes())?,
                "pattern" => pattern::run(&rt, text.bytes())?,
                "scanning" => scanning::run(&rt, text.bytes())?,
                _ => return Ok(ExitCode::from(2)),
            }
        }
    }
    Ok(ExitCode::SUCCESS)
}
