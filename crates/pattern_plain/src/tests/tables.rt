use super::{both_say, cut, pattern};
use ksh_base::Memory;
use std::alloc::Global;
use std::test::Fail;

/// The texts of the table of pairs.
const TEXTS: &[u8] = b" a b ab ba aab abc a.c foo.c";

/// Patterns, and for each of the texts whether bash matches it with `extglob`.
const PAIRS: &[u8] =
    b"a 010000000\nab 000100000\n? 011000000\n?? 000110000\n* 111111111\na* 010101110\n*a 010010000\n*b* 001111100\na*b 000101000\n*.c 000000011\n*.? 000000011\nf*c 000000001\na?c 000000110\n*a*b* 000101100\n?*? 000111111\n[ab] 011000000\n[!ab] 000000000\n[a-c] 011000000\n[!a-c] 000000000\n[c-a] 000000000\n[]a] 010000000\n[a-] 010000000\n*[.]c 000000011\n[[:alpha:]] 011000000\n[[:alpha:]]* 011111111\n*[[:punct:]]* 000000011\n[![:lower:]]* 000000000\n[[:lower:]]*([[:lower:]]) 011111100\n?(a) 110000000\n?(a)b 001100000\n*(a) 110000000\n*(a)b 001101000\n+(a) 010000000\n+(a|b) 011111000\n+(ab|a)b 000101000\n@(a|b) 011000000\n@(a|ab)* 010101110\n@(foo|a).c 000000011\n*(ab|ba) 100110000\n+(?)c 000000111\n!(a) 101111111\n!(*) 000000000\n!(?) 100111111\n!(*.c) 111111100\n!(a|b) 100111111\na!(b) 010001110\n!(a)b 001001000\n!(!(a)) 010000000\n!(a*)!(b) 111111111\n*(*(a)|b) 111111000\n+(+(a)b) 000101000\n@(!(a)|b)c 000000111\n?(?(a)b)* 111111111\n+(!(a)) 101111111\n*(?) 111111111\n@(*)b 001101000\n@(a*|*b) 011101110\n@(|a)b 001100000\n+(a|) 110000000";

/// Patterns in which a backslash quotes, a text that each matches, and one that it doesn't.
const LITERALS: &[u8] =
    b"\\* * a\na\\? a? ab\n\\[ab] [ab] a\n[\\]a] ] b\n[a\\-c] - b\n[\\!a] ! b\n@\\(a) @(a) a\n@(a\\|b) a|b a\n@(a\\)) a) a\n[ab [ab a\n[ [ a\n[] [] ]\n[! [! a\n[a[:x:]b] xb] a\n@(a @(a a\n*(a xx(a a\n?(a x(a (a\n+(a|b +(a|b a\n!(a@(b) !(ab x\na|b a|b a\na) a) a\n@([)]|b) ) a";

/// Classes, a text of bytes that are of the class, and one of bytes that aren't.
const CLASSES: &[u8] =
    b"[[:alnum:]],azAZ09,_ -\x80\r[[:alpha:]],azAZ,09_@[`{\r[[:blank:]], \t,\n\x0ba\r[[:cntrl:]],\x00\x1f\x7f, a~\r[[:digit:]],059,/:a\r[[:graph:]],!a~, \n\x7f\r[[:lower:]],az,AZ`{\r[[:print:]], !a~,\n\x7f\x80\r[[:punct:]],!/:@[`{~,aZ0 \r[[:space:]], \t\n\x0b\x0c,a_\x08\x0e\r[[:upper:]],AZ,az@[\r[[:xdigit:]],09afAF,gG/:@`";

/// Whether the digits tell which of the texts the pattern matches.
fn agrees(alloc: Global, row: &[u8]) -> Result<bool, Memory> {
    let (text, answers) = cut(row, b' ');
    let p = pattern(alloc, text)?;
    let mut texts = TEXTS;
    for answer in answers {
        let (candidate, rest) = cut(texts, b' ');
        texts = rest;
        if !both_say(&p, candidate, *answer == b'1')? {
            return Ok(false);
        }
    }
    Ok(true)
}

/// Whether the pattern matches the second word and not the third.
fn parts(alloc: Global, row: &[u8]) -> Result<bool, Memory> {
    let (text, words) = cut(row, b' ');
    let (inside, outside) = cut(words, b' ');
    let p = pattern(alloc, text)?;
    Ok(both_say(&p, inside, true)? && both_say(&p, outside, false)?)
}

/// Whether the pattern matches each byte of the second word and none of the third.
fn parts_bytes(alloc: Global, row: &[u8]) -> Result<bool, Memory> {
    let (text, words) = cut(row, b',');
    let (inside, outside) = cut(words, b',');
    let p = pattern(alloc, text)?;
    for byte in inside {
        if !both_say(&p, &[*byte], true)? {
            return Ok(false);
        }
    }
    for byte in outside {
        if !both_say(&p, &[*byte], false)? {
            return Ok(false);
        }
    }
    Ok(true)
}

#[test]
fn pairs_agree_with_another_shell(rt: HostRuntime) -> Result<(), Fail> {
    let mut rows = PAIRS;
    for _ in 0..59 {
        let (row, rest) = cut(rows, b'\n');
        rows = rest;
        assert!(rt; agrees(rt.alloc(), row)?);
    }
    Ok(())
}

#[test]
fn literal_bytes(rt: HostRuntime) -> Result<(), Fail> {
    let mut rows = LITERALS;
    for _ in 0..22 {
        let (row, rest) = cut(rows, b'\n');
        rows = rest;
        assert!(rt; parts(rt.alloc(), row)?);
    }
    Ok(())
}

#[test]
fn each_class_has_its_bytes(rt: HostRuntime) -> Result<(), Fail> {
    let mut rows = CLASSES;
    for _ in 0..12 {
        let (row, rest) = cut(rows, b'\r');
        rows = rest;
        assert!(rt; parts_bytes(rt.alloc(), row)?);
    }
    Ok(())
}
