//! The matches of a list of parts in a text.
ghost use Rattle.std.specs.Prelude.{◌≡◌, ℕ, List, ◌≤◌, true, false, length, Some, if◌then◌else◌, IfOk, IfNone, IfSome};
ghost use Rattle.ksh_pattern.specs.Match.{matches};
ghost use Rattle.ksh_pattern.specs.Ends.{IsGreatest, IsLeast, IsFirstIn, front_matches, tail_matches};

use crate::cell::{begin_all, empty_all, look_all, shift_all};
use crate::part::Part;
use ksh_base::Memory;
use std::alloc::Global;

/// Whether the parts match the whole text. Bytes at the ends of the pattern are compared as they are, so that only
/// what lies between them is walked.
pub fn matches_text(alloc: Global, parts: &[Part], text: &[u8]) -> Result<bool, Memory>
    ensures { IfOk result (λ matched. matched ≡ matches parts.now text.now) }
{
    let Some((parts, text)) = without_front(parts, text) else {
        return Ok(false);
    };
    let Some((parts, text)) = without_back(parts, text) else {
        return Ok(false);
    };
    if parts.is_empty() {
        return Ok(text.is_empty());
    }
    if is_any_text(parts) {
        return Ok(true);
    }
    walks_to_end(alloc, parts, text)
}

/// Whether the parts are one `*`.
fn is_any_text(parts: &[Part]) -> bool
    ensures { result ≡ true → (w : List ℕ) → matches parts.now w ≡ true }
{
    if parts.len() != 1 {
        return false;
    }
    let Part::AnyText = &parts[0] else {
        return false;
    };
    true
}

/// What is left behind the parts of one byte at the front, and of the text; or nothing where these don't match.
fn without_front<'a>(parts: &'a [Part], text: &'a [u8]) -> Option<(&'a [Part], &'a [u8])>
    ensures none { IfNone result (matches parts.now text.now ≡ false) }
    ensures some { IfSome result (λ r. matches r.0.now r.1.now ≡ matches parts.now text.now) }
{
    let mut at = 0;
    while at < parts.len() {
        let Part::One(test) = &parts[at] else {
            break;
        };
        if at == text.len() {
            return None;
        }
        if !test.accepts(text[at]) {
            return None;
        }
        at += 1;
    }
    Some((&parts[at..], &text[at..]))
}

/// What is left before the parts of one byte at the end, and of the text; or nothing where these don't match.
fn without_back<'a>(parts: &'a [Part], text: &'a [u8]) -> Option<(&'a [Part], &'a [u8])>
    ensures none { IfNone result (matches parts.now text.now ≡ false) }
    ensures some { IfSome result (λ r. matches r.0.now r.1.now ≡ matches parts.now text.now) }
{
    let mut end = parts.len();
    let mut to = text.len();
    while end > 0 {
        let Part::One(test) = &parts[end - 1] else {
            break;
        };
        if to == 0 {
            return None;
        }
        if !test.accepts(text[to - 1]) {
            return None;
        }
        end -= 1;
        to -= 1;
    }
    Some((&parts[..end], &text[..to]))
}

/// Whether a walk over the whole text ends at the end of the parts.
fn walks_to_end(alloc: Global, parts: &[Part], text: &[u8]) -> Result<bool, Memory>
    ensures { IfOk result (λ matched. matched ≡ matches parts.now text.now) }
{
    let Some((first, rest)) = text.split_first() else {
        return Ok(empty_all(parts));
    };
    let mut cells = begin_all(alloc, parts, true, *first)?;
    for byte in rest {
        let step = shift_all(alloc, &mut cells, false, *byte)?;
        if !step.live {
            return Ok(false);
        }
    }
    Ok(look_all(&cells).last)
}

/// Whether no match can begin with the text, since the first part is one byte, and another.
fn can_not_begin(parts: &[Part], text: &[u8]) -> bool
    ensures { result ≡ true → (n : ℕ) → front_matches parts.now text.now n ≡ false }
{
    if parts.is_empty() {
        return false;
    }
    let Part::One(test) = &parts[0] else {
        return false;
    };
    if text.is_empty() {
        return true;
    }
    !test.accepts(text[0])
}

/// The place, where the text ends there, and else what was found before.
fn or_place(found: Option<usize>, place: usize, ends: bool) -> Option<usize>
    ensures { result ≡ (if ends then Some place else found) }
{
    if ends { Some(place) } else { found }
}

/// The length of the longest front of the text that the parts match.
pub fn longest_front(alloc: Global, parts: &[Part], text: &[u8]) -> Result<Option<usize>, Memory>
    ensures { IfOk result (IsGreatest (front_matches parts.now text.now) (length text.now)) }
{
    if can_not_begin(parts, text) {
        return Ok(None);
    }
    let longest = or_place(None, 0, empty_all(parts));
    let Some((first, rest)) = text.split_first() else {
        return Ok(longest);
    };
    let mut longest = longest;
    let mut cells = begin_all(alloc, parts, true, *first)?;
    for (index, byte) in rest.iter().enumerate() {
        let step = shift_all(alloc, &mut cells, false, *byte)?;
        longest = or_place(longest, index + 1, step.before.last);
        if !step.live {
            return Ok(longest);
        }
    }
    Ok(or_place(longest, text.len(), look_all(&cells).last))
}

/// The length of the shortest front of the text that the parts match.
pub fn shortest_front(alloc: Global, parts: &[Part], text: &[u8]) -> Result<Option<usize>, Memory>
    ensures { IfOk result (IsLeast (front_matches parts.now text.now) (length text.now)) }
{
    if can_not_begin(parts, text) {
        return Ok(None);
    }
    if empty_all(parts) {
        return Ok(Some(0));
    }
    let Some((first, rest)) = text.split_first() else {
        return Ok(None);
    };
    let mut cells = begin_all(alloc, parts, true, *first)?;
    for (index, byte) in rest.iter().enumerate() {
        let step = shift_all(alloc, &mut cells, false, *byte)?;
        if step.before.last {
            return Ok(Some(index + 1));
        }
        if !step.live {
            return Ok(None);
        }
    }
    Ok(or_place(None, text.len(), look_all(&cells).last))
}

/// The length of the longest tail of the text that the parts match.
pub fn longest_tail(alloc: Global, parts: &[Part], text: &[u8]) -> Result<Option<usize>, Memory>
    ensures { IfOk result (IsGreatest (tail_matches parts.now text.now) (length text.now)) }
{
    for start in 0..=text.len() {
        if matches_text(alloc, parts, &text[start..])? {
            return Ok(Some(text.len() - start));
        }
    }
    Ok(None)
}

/// The length of the shortest tail of the text that the parts match.
pub fn shortest_tail(alloc: Global, parts: &[Part], text: &[u8]) -> Result<Option<usize>, Memory>
    ensures { IfOk result (IsLeast (tail_matches parts.now text.now) (length text.now)) }
{
    for length in 0..=text.len() {
        if matches_text(alloc, parts, &text[text.len() - length..])? {
            return Ok(Some(length));
        }
    }
    Ok(None)
}

/// The first and the last place of the leftmost match from a place on, which is the longest there.
pub fn first_in(
    alloc: Global,
    parts: &[Part],
    text: &[u8],
    from: usize,
) -> Result<Option<(usize, usize)>, Memory>
    requires { from ≤ length text.now }
    ensures { IfOk result (IsFirstIn parts.now text.now from) }
{
    for start in from..=text.len() {
        if let Some(count) = longest_front(alloc, parts, &text[start..])? {
            return Ok(Some((start, start + count)));
        }
    }
    Ok(None)
}
