use super::{matches, pattern};
use std::test::Fail;

#[test]
fn worked_rows(rt: HostRuntime) -> Result<(), Fail> {
    let alloc = rt.alloc();
    let p = pattern(alloc, b"a*b")?;
    assert!(rt; p.matches(b"aXbYb")?);
    assert!(rt; p.longest_front(b"aXbYb")? == Some(5));
    assert!(rt; p.shortest_front(b"aXbYb")? == Some(3));
    Ok(())
}

#[test]
fn worked_tails(rt: HostRuntime) -> Result<(), Fail> {
    let alloc = rt.alloc();
    let p = pattern(alloc, b"b")?;
    assert!(rt; p.longest_tail(b"aXbYb")? == Some(1));
    assert!(rt; p.shortest_tail(b"aXbYb")? == Some(1));
    assert!(rt; pattern(alloc, b"+(b)")?.first_in(b"aXbYb", 0)? == Some((2, 3)));
    Ok(())
}

#[test]
fn tails_of_different_lengths(rt: HostRuntime) -> Result<(), Fail> {
    let alloc = rt.alloc();
    let p = pattern(alloc, b"*[bY]")?;
    assert!(rt; p.longest_tail(b"aXbYb")? == Some(5));
    assert!(rt; p.shortest_tail(b"aXbYb")? == Some(1));
    assert!(rt; pattern(alloc, b"*(b)")?.shortest_tail(b"ab")? == Some(0));
    Ok(())
}

#[test]
fn a_first_match_may_be_empty(rt: HostRuntime) -> Result<(), Fail> {
    let p = pattern(rt.alloc(), b"*(a)")?;
    assert!(rt; p.first_in(b"baa", 0)? == Some((0, 0)));
    assert!(rt; p.first_in(b"baa", 1)? == Some((1, 3)));
    assert!(rt; p.first_in(b"baa", 3)? == Some((3, 3)));
    Ok(())
}

#[test]
fn worked_matches(rt: HostRuntime) -> Result<(), Fail> {
    let alloc = rt.alloc();
    assert!(rt; matches(alloc, b"!(x)", b"")?);
    assert!(rt; matches(alloc, b"[[:digit:]]*([a-c])", b"7abc")?);
    assert!(rt; !matches(alloc, b"[[:digit:]]*([a-c])", b"7abd")?);
    Ok(())
}

#[test]
fn an_empty_pattern(rt: HostRuntime) -> Result<(), Fail> {
    let alloc = rt.alloc();
    let p = pattern(alloc, b"")?;
    assert!(rt; p.matches(b"")? && !p.matches(b"a")?);
    assert!(rt; p.longest_front(b"ab")? == Some(0));
    assert!(rt; p.first_in(b"ab", 1)? == Some((1, 1)));
    Ok(())
}

#[test]
fn fronts_and_tails_that_are_not_there(rt: HostRuntime) -> Result<(), Fail> {
    let alloc = rt.alloc();
    let p = pattern(alloc, b"*/")?;
    assert!(rt; p.longest_front(b"a/b/c")? == Some(4));
    assert!(rt; p.longest_front(b"abc")?.is_none());
    assert!(rt; p.shortest_front(b"")?.is_none());
    assert!(rt; p.longest_tail(b"abc")?.is_none());
    assert!(rt; p.shortest_tail(b"")?.is_none());
    Ok(())
}

#[test]
fn the_first_match_is_the_longest_there(rt: HostRuntime) -> Result<(), Fail> {
    let alloc = rt.alloc();
    let p = pattern(alloc, b"+([[:digit:]])")?;
    assert!(rt; p.first_in(b"ab12c345", 0)? == Some((2, 4)));
    assert!(rt; p.first_in(b"ab12c345", 5)? == Some((5, 8)));
    assert!(rt; p.first_in(b"abc", 3)?.is_none());
    Ok(())
}
