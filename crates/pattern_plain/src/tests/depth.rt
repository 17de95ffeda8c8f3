use super::{matches, pattern};
use crate::plain_matches;
use ksh_base::Memory;
use std::alloc::Global;
use std::test::Fail;

/// A text some number of times, and then another.
fn repeated(alloc: Global, text: &[u8], count: usize, then: &[u8]) -> Result<Vec<u8>, Memory> {
    let mut all = Vec::new(alloc);
    for _ in 0..count {
        all.extend_from_slice(text)?;
    }
    all.extend_from_slice(then)?;
    Ok(all)
}

/// 65 groups, one in the other, are groups; a further one isn't, and thousands take no more of the stack.
#[test]
fn groups_are_as_deep_as_they_may_be(rt: HostRuntime) -> Result<(), Fail> {
    let alloc = rt.alloc();
    let ends = repeated(alloc, b")", 65, b"")?;
    let text = repeated(alloc, b"+(", 65, b"a")?;
    let text = repeated(alloc, text.as_slice(), 1, ends.as_slice())?;
    assert!(rt; matches(alloc, text.as_slice(), b"aaa")?);
    let text = repeated(alloc, b"+(", 66, b"a|b)")?;
    let text = repeated(alloc, text.as_slice(), 1, ends.as_slice())?;
    assert!(rt; matches(alloc, text.as_slice(), b"+(a|b)")?);
    Ok(())
}

#[test]
fn openings_without_an_end(rt: HostRuntime) -> Result<(), Fail> {
    let alloc = rt.alloc();
    let text = repeated(alloc, b"@(", 1000, b"@(a|b)")?;
    let candidate = repeated(alloc, b"@(", 1000, b"b")?;
    assert!(rt; matches(alloc, text.as_slice(), candidate.as_slice())?);
    Ok(())
}

#[test]
fn no_pattern_takes_long(rt: HostRuntime) -> Result<(), Fail> {
    let alloc = rt.alloc();
    let text = repeated(alloc, b"a", 2_000, b"")?;
    let short = repeated(alloc, b"a", 200, b"")?;
    assert!(rt; !matches(alloc, b"*a*a*a*a*a*[b]", text.as_slice())?);
    assert!(rt; !matches(alloc, b"+(+(+(a)))b", text.as_slice())?);
    assert!(rt; matches(alloc, b"!(*b*)!(*c*)", short.as_slice())?);
    assert!(rt; !matches(alloc, b"*(?*(?*(?*(?)b|?)b|?)b|?)c", text.as_slice())?);
    Ok(())
}

#[test]
fn what_is_too_large_for_the_definition(rt: HostRuntime) -> Result<(), Fail> {
    let alloc = rt.alloc();
    let row = [b'?'; 65];
    let p = pattern(alloc, &row[..64])?;
    assert!(rt; plain_matches(&p, &row[..64]) == Some(true));
    assert!(rt; plain_matches(&p, &row).is_none());
    assert!(rt; plain_matches(&pattern(alloc, &row)?, b"").is_none());
    Ok(())
}
