//! Trees that the lines of the input ask for: how many nodes each has, what it equals, and how it is written.
#![tactic(auto)]

mod sample;

use crate::sample::{deep, number, simple};
use ast_equal::{scripts_equal, words_equal};
use ast_size::{script_size, word_size};
use ksh_arith::parse_arith;
use ksh_base::Text;
use ksh_unparse::write_script;
use std::alloc::AllocGlobal;
use std::io::Print;

/// `deep N`: a command behind N times `!`.
fn report_deep(rt: &(impl Print + AllocGlobal), line: &str, depth: u32) -> anyhow::Result<()> {
    let alloc = rt.alloc();
    let script = deep(alloc, 1, depth)?;
    let size = script_size(alloc, &script)?;
    let same = scripts_equal(alloc, &script, &deep(alloc, 1, depth)?)?;
    let deeper = scripts_equal(alloc, &script, &deep(alloc, 1, depth.saturating_add(1))?)?;
    let moved = scripts_equal(alloc, &script, &deep(alloc, 2, depth)?)?;
    println!(rt;
        "{line}: {size} nodes, equal to itself {same}, deeper {deeper}, on another line {moved}"
    )?;
    Ok(())
}

/// `simple TEXT`: the text stands in an assignment, a word and a redirection.
fn report_simple(rt: &(impl Print + AllocGlobal), line: &str, text: &[u8]) -> anyhow::Result<()> {
    let alloc = rt.alloc();
    let script = simple(alloc, text, false)?;
    let size = script_size(alloc, &script)?;
    let same = scripts_equal(alloc, &script, &simple(alloc, text, false)?)?;
    let quoted = scripts_equal(alloc, &script, &simple(alloc, text, true)?)?;
    println!(rt; "{line}: {size} nodes, equal to itself {same}, with a quoted word {quoted}")?;
    Ok(())
}

/// `text TEXT`: the canonical text of both, the word bare and quoted.
fn report_text(rt: &(impl Print + AllocGlobal), line: &str, text: &[u8]) -> anyhow::Result<()> {
    let alloc = rt.alloc();
    let mut out = Text::empty(alloc);
    write_script(alloc, &simple(alloc, text, false)?, &mut out)?;
    write_script(alloc, &simple(alloc, text, true)?, &mut out)?;
    if let Ok(written) = std::str::from_utf8(out.bytes()) {
        println!(rt; "{line}:\n{written}")?;
    }
    Ok(())
}

/// `arith LEFT RIGHT`: two expressions.
fn report_arith(rt: &(impl Print + AllocGlobal), line: &str, both: &str) -> anyhow::Result<()> {
    let alloc = rt.alloc();
    let Some((left, right)) = both.split_once(' ') else {
        return Ok(());
    };
    let Ok(left) = parse_arith(alloc, left.as_bytes()) else {
        return Ok(());
    };
    let Ok(right) = parse_arith(alloc, right.as_bytes()) else {
        return Ok(());
    };
    let left = number(alloc, left)?;
    let right = number(alloc, right)?;
    let size = word_size(alloc, left.as_slice())?;
    let same = words_equal(alloc, left.as_slice(), right.as_slice())?;
    println!(rt; "{line}: {size} nodes, equal {same}")?;
    Ok(())
}

fn report(rt: &(impl Print + AllocGlobal), line: &str) -> anyhow::Result<()> {
    let Some((kind, rest)) = line.split_once(' ') else {
        return Ok(());
    };
    if kind == "arith" {
        return report_arith(rt, line, rest);
    }
    if kind == "simple" {
        return report_simple(rt, line, rest.as_bytes());
    }
    if kind == "text" {
        return report_text(rt, line, rest.as_bytes());
    }
    match rest.parse::<u32>() {
        Ok(depth) => report_deep(rt, line, depth),
        Err(_) => Ok(()),
    }
}

fn main(rt: HostRuntime) -> anyhow::Result<()> {
    for line in rt.lines(rt.alloc()) {
        let line = line?;
        report(&rt, line.as_str())?;
    }
    Ok(())
}
