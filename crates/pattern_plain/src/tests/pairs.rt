use super::{cut, pattern};
use crate::plain_matches;
use ksh_base::Memory;
use ksh_pattern::Pattern;
use std::test::Fail;

/// Patterns, and the texts on each of which both ways agree: 30 times 15 pairs.
const PATTERNS: &[u8] =
    b"a b ? * a* *a a*b [ab] [!a]* ?(a) *(a) +(a) @(a|b) !(a) !(a)b a!(b) *(ab|a) +(a|b)b !(*(a)) +(!(a)) !(!(a|b)) ?(a)?(b) *(a)*(b) @(|a)b !(a*)!(b) +(+(a)b) *(?)a @(a*|*b) *(!(b)a) !(?(a)b)";

const TEXTS: &[u8] = b",a,b,aa,ab,ba,bb,aaa,aab,aba,abb,baa,bab,bba,bbb";

/// Whether both ways say the same of each text.
fn agree(p: &Pattern) -> Result<bool, Memory> {
    let mut texts = TEXTS;
    for _ in 0..15 {
        let (text, rest) = cut(texts, b',');
        texts = rest;
        if plain_matches(p, text) != Some(p.matches(text)?) {
            return Ok(false);
        }
    }
    Ok(true)
}

#[test]
fn both_ways_agree(rt: HostRuntime) -> Result<(), Fail> {
    let mut patterns = PATTERNS;
    for _ in 0..30 {
        let (text, rest) = cut(patterns, b' ');
        patterns = rest;
        assert!(rt; agree(&pattern(rt.alloc(), text)?)?);
    }
    Ok(())
}
