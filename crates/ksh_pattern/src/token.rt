//! The tokens of a pattern.
ghost use Rattle.std.specs.Prelude.{◌≡◌, ◌<◌, ◌^◌, ◌≤◌, ◌==◌, ◌&&◌, not, length, true, nat_lt, IfOk, IfSome};
ghost use Rattle.ksh_pattern.specs.Reading.{is_plain, spells, named, class_at, range_at, member_at, members_at, bracket_at, opens, open_or, plain_token, literal, token_at, tokens_of, unopened};

use crate::byte_test::{ByteTest, Class, Member};
use crate::marked::Marked;
use crate::part::Kind;
use ksh_base::{Items, Memory, Shared};
use std::alloc::Global;

/// A token: a part of one byte, `*`, the opening of a group, `|` or `)`.
#[derive(Drop)]
pub enum Token {
    One(ByteTest),
    AnyText,
    Open(Kind),
    Bar,
    Close,
}

impl Marked {
    /// Whether it is that byte, and not quoted.
    fn is_plain(self, byte: u8) -> bool
        ensures { result ≡ is_plain byte self }
    {
        !self.quoted && self.byte == byte
    }
}

/// Whether the marked bytes begin with those of a text, none quoted.
fn spells(text: &[u8], marks: &[Marked]) -> bool
    ensures { result ≡ spells text.now marks.now }
{
    for (at, byte) in text.iter().enumerate() {
        if at >= marks.len() {
            return false;
        }
        if !marks[at].is_plain(*byte) {
            return false;
        }
    }
    true
}

/// A class by its text, with the length of that, or else another answer.
fn named(
    text: &[u8],
    class: Class,
    marks: &[Marked],
    other: Option<(Class, usize)>,
) -> Option<(Class, usize)>
    ensures { result ≡ named text.now class marks.now other }
{
    if spells(text, marks) {
        Some((class, text.len()))
    } else {
        other
    }
}

/// The class whose text stands behind a `[`, with the length of that.
fn class_at(marks: &[Marked]) -> Option<(Class, usize)>
    ensures { result ≡ class_at marks.now }
{
    let found = named(b":xdigit:]", Class::Xdigit, marks, None);
    let found = named(b":upper:]", Class::Upper, marks, found);
    let found = named(b":space:]", Class::Space, marks, found);
    let found = named(b":punct:]", Class::Punct, marks, found);
    let found = named(b":print:]", Class::Print, marks, found);
    let found = named(b":lower:]", Class::Lower, marks, found);
    let found = named(b":graph:]", Class::Graph, marks, found);
    let found = named(b":digit:]", Class::Digit, marks, found);
    let found = named(b":cntrl:]", Class::Cntrl, marks, found);
    let found = named(b":blank:]", Class::Blank, marks, found);
    let found = named(b":alpha:]", Class::Alpha, marks, found);
    named(b":alnum:]", Class::Alnum, marks, found)
}

/// A byte, or the range that begins with it, and how many further bytes that has.
fn range_at(from: u8, marks: &[Marked]) -> (Member, usize)
    ensures { result ≡ range_at from marks.now }
{
    if marks.len() < 2 {
        return (Member::Byte(from), 0);
    }
    if marks[0].is_plain(b'-') && !marks[1].is_plain(b']') {
        return (Member::Range(from, marks[1].byte), 2);
    }
    (Member::Byte(from), 0)
}

/// The member of a bracket that begins with a byte, and how many further bytes it has.
fn member_at(mark: Marked, marks: &[Marked]) -> (Member, usize)
    ensures { result ≡ member_at mark marks.now }
{
    if mark.is_plain(b'[')
        && let Some((class, length)) = class_at(marks)
    {
        return (Member::Class(class), length);
    }
    range_at(mark.byte, marks)
}

/// Whether a byte ends the members of a bracket, which it doesn't as the first of them.
fn ends_bracket(mark: Marked, index: usize) -> bool
    ensures { result ≡ (is_plain 93 mark && not (index == 0)) }
{
    index > 0 && mark.is_plain(b']')
}

/// The members up to the `]` that ends a bracket, and the number of bytes with it.
fn members_at(alloc: Global, marks: &[Marked]) -> Result<Option<(Items<Member>, usize)>, Memory>
    ensures found { IfOk result (λ found. found ≡ members_at 0 true marks.now) }
    ensures within { IfOk result (λ found. IfSome found (λ r. r.1 ≤ length marks.now)) }
{
    let mut members = Items::new(alloc);
    let mut skip = 0;
    for (index, mark) in marks.iter().enumerate() {
        if skip > 0 {
            skip -= 1;
            continue;
        }
        if ends_bracket(*mark, index) {
            return Ok(Some((members, index + 1)));
        }
        let (member, further) = member_at(*mark, &marks[index + 1..]);
        members.push(member)?;
        skip = further;
    }
    Ok(None)
}

/// The test that stands behind a `[`, and how many bytes it has there.
fn bracket_at(alloc: Global, marks: &[Marked]) -> Result<Option<(ByteTest, usize)>, Memory>
    ensures { IfOk result (λ found. found ≡ bracket_at marks.now) }
{
    if marks.is_empty() {
        return Ok(None);
    }
    let turned = marks[0].is_plain(b'!');
    let sign = usize::from(turned);
    let Some((members, count)) = members_at(alloc, &marks[sign..])? else {
        return Ok(None);
    };
    let members = Shared::new(alloc, members)?;
    Ok(Some((ByteTest::Bracket(turned, members), sign + count)))
}

/// The opening of a group, where an unquoted `(` comes next, and else another token.
fn open_or(kind: Kind, other: Token, marks: &[Marked]) -> (Token, usize)
    ensures { result ≡ open_or kind other marks.now }
{
    if spells(b"(", marks) {
        (Token::Open(kind), 1)
    } else {
        (other, 0)
    }
}

/// A token that is a byte.
pub fn literal(byte: u8) -> Token
    ensures { result ≡ literal byte }
{
    Token::One(ByteTest::Is(byte))
}

/// The token that begins with a byte, and how many further bytes it has.
fn token_at(alloc: Global, mark: Marked, marks: &[Marked]) -> Result<(Token, usize), Memory>
    ensures { IfOk result (λ found. found ≡ token_at mark marks.now) }
{
    if mark.quoted {
        return Ok((literal(mark.byte), 0));
    }
    match mark.byte {
        b'?' => Ok(open_or(Kind::Optional, Token::One(ByteTest::Any), marks)),
        b'*' => Ok(open_or(Kind::Any, Token::AnyText, marks)),
        b'+' => Ok(open_or(Kind::Many, literal(b'+'), marks)),
        b'@' => Ok(open_or(Kind::One, literal(b'@'), marks)),
        b'!' => Ok(open_or(Kind::Not, literal(b'!'), marks)),
        b'|' => Ok((Token::Bar, 0)),
        b')' => Ok((Token::Close, 0)),
        b'[' => match bracket_at(alloc, marks)? {
            Some((test, count)) => Ok((Token::One(test), count)),
            None => Ok((literal(b'['), 0)),
        },
        byte => Ok((literal(byte), 0)),
    }
}

/// The tokens of a pattern.
pub fn tokens_of(alloc: Global, marks: &[Marked]) -> Result<Items<Token>, Memory>
    ensures { IfOk result (λ tokens. tokens ≡ tokens_of 0 marks.now) }
{
    let mut tokens = Items::new(alloc);
    let mut skip = 0;
    for (index, mark) in marks.iter().enumerate() {
        if skip > 0 {
            skip -= 1;
            continue;
        }
        let (token, further) = token_at(alloc, *mark, &marks[index + 1..])?;
        tokens.push(token)?;
        skip = further;
    }
    Ok(tokens)
}

/// Whether the group that opened before the tokens ends among them.
pub fn has_end(tokens: &[Token]) -> bool
    ensures end { result ≡ nat_lt 0 (unopened tokens.now) }
    ensures countable { length tokens.now < 2 ^ 64 }
{
    let mut open = 0usize;
    for token in tokens {
        match token {
            Token::Open(_) => open += 1,
            Token::Close => {
                if open == 0 {
                    return true;
                }
                open -= 1;
            }
            Token::One(_) | Token::AnyText | Token::Bar => {}
        }
    }
    false
}
