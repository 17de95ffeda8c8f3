//! Calls on the variables of a shell, one a line of the input, and what each answers.
#![tactic(auto)]

ghost use Rattle.std.specs.Prelude.{◌≡◌, ◌<◌};

mod reading;
mod session;
mod telling;

use session::Session;
use std::marker::Brand;
use std::sync::ledger::{Blank, Ledger};

/// Makes the calls one after the other, and prints each line with its answer. A line that begins with `#` is only printed.
fn run<L: Ledger>(rt: HostRuntime, blank: Blank) -> anyhow::Result<()>
    requires name { blank.name ≡ L.name }
    requires parts { blank.parts ≡ L.parts }
    requires some { 0 < L.parts }
{
    let alloc = rt.alloc();
    let mut session = Session::<L>::open(alloc, blank)?;
    for line in rt.lines(alloc) {
        let line = line?;
        let text = line.as_str();
        if text.is_empty() || text.starts_with('#') {
            println!(rt; "{text}")?;
        } else {
            let answer = session.call(alloc, text)?;
            println!(rt; "{text}: {}", std::str::from_utf8(answer.bytes())?)?;
        }
    }
    Ok(())
}

fn main(rt: HostRuntime) -> anyhow::Result<()> {
    run::<Brand>(rt, Blank::new(1))
}
