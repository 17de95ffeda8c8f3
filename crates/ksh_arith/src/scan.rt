//! The bytes of arithmetic: blanks, operators and literals.
ghost use Rattle.std.specs.Prelude.{◌≡◌, ◌≤◌, ◌^◌, take, drop, length};
ghost use Rattle.ksh_arith.specs.Grammar.{is_blank, skipped, begins, begins_two, stands_alone, operator_at, multiplying, adding, shifting, comparing, equating, bit_and, bit_xor, bit_or, both, either, comma, assigning, stepping, signing, common_bytes, common_first, is_common, worth, digits_by, some_digits, after_base, literal, Gives, name_length, begins_name, begins_digit};
ghost use Rattle.ksh_arith.specs.LevelAt.{angled, doubled, level_at, level_by, loose_level, with_equals};
ghost use Rattle.ksh_base.specs.Name.{starts_name, goes_on_in_name};

use crate::fault::ArithRefused;
use arith_tree::{BinaryOp, ChainOp, UnaryOp};

/// The greatest number that a literal may write.
const LARGEST: u64 = 1 << 63;

/// The text behind so many bytes.
pub fn behind(text: &[u8], count: usize) -> &[u8]
    ensures { result.now ≡ drop count text.now }
{
    if count <= text.len() {
        return &text[count..];
    }
    &text[text.len()..]
}

/// So many bytes at the front of the text, or all.
pub fn front(text: &[u8], count: usize) -> &[u8]
    ensures { result.now ≡ take count text.now }
{
    if count <= text.len() {
        return &text[..count];
    }
    text
}

fn is_blank(byte: u8) -> bool
    ensures { result ≡ is_blank byte }
{
    byte == b' ' || byte == b'\t' || byte == b'\n'
}

/// The text without the blanks at its front.
#[tactic(auto, unfolding(crate::specs::Grammar::skipped))]
pub fn skip(text: &[u8]) -> &[u8]
    ensures { result.now ≡ skipped text.now }
{
    let mut text = text;
    while let Some((first, rest)) = text.split_first() {
        if !is_blank(*first) {
            return text;
        }
        text = rest;
    }
    text
}

/// Whether the text begins with the byte.
#[tactic(auto, unfolding(crate::specs::Grammar::begins))]
pub fn begins(byte: u8, text: &[u8]) -> bool
    ensures { result ≡ begins byte text.now }
{
    match text.split_first() {
        Some((first, _)) => *first == byte,
        None => false,
    }
}

pub fn begins_two(first: u8, second: u8, text: &[u8]) -> bool
    ensures { result ≡ begins_two first second text.now }
{
    begins(first, text) && begins(second, behind(text, 1))
}

fn stands_alone(byte: u8, one: u8, other: u8, text: &[u8]) -> bool
    ensures { result ≡ stands_alone byte one other text.now }
{
    if !begins(byte, text) {
        return false;
    }
    let rest = behind(text, 1);
    !begins(one, rest) && !begins(other, rest)
}

/// An operator of a level that groups from the left, 0 being the tightest, and its length.
#[tactic(auto, unfolding(crate::specs::Grammar::operator_at))]
pub fn operator_at(level: u32, text: &[u8]) -> Option<(ChainOp, usize)>
    ensures { result ≡ operator_at level text.now }
{
    match level {
        0 => multiplying(text),
        1 => adding(text),
        2 => shifting(text),
        3 => comparing(text),
        4 => equating(text),
        5 => bit_and(text),
        6 => bit_xor(text),
        7 => bit_or(text),
        8 => both(text),
        9 => either(text),
        _ => comma(text),
    }
}

fn multiplying(text: &[u8]) -> Option<(ChainOp, usize)>
    ensures { result ≡ multiplying text.now }
{
    if stands_alone(b'*', b'*', b'=', text) {
        return Some((ChainOp::Binary(BinaryOp::Multiply), 1));
    }
    if stands_alone(b'/', b'=', b'=', text) {
        return Some((ChainOp::Binary(BinaryOp::Divide), 1));
    }
    if stands_alone(b'%', b'=', b'=', text) {
        return Some((ChainOp::Binary(BinaryOp::Remainder), 1));
    }
    None
}

fn adding(text: &[u8]) -> Option<(ChainOp, usize)>
    ensures { result ≡ adding text.now }
{
    if stands_alone(b'+', b'+', b'=', text) {
        return Some((ChainOp::Binary(BinaryOp::Add), 1));
    }
    if stands_alone(b'-', b'-', b'=', text) {
        return Some((ChainOp::Binary(BinaryOp::Subtract), 1));
    }
    None
}

fn shifting(text: &[u8]) -> Option<(ChainOp, usize)>
    ensures { result ≡ shifting text.now }
{
    if begins_two(b'<', b'<', text) && !begins(b'=', behind(text, 2)) {
        return Some((ChainOp::Binary(BinaryOp::ShiftLeft), 2));
    }
    if begins_two(b'>', b'>', text) && !begins(b'=', behind(text, 2)) {
        return Some((ChainOp::Binary(BinaryOp::ShiftRight), 2));
    }
    None
}

fn comparing(text: &[u8]) -> Option<(ChainOp, usize)>
    ensures { result ≡ comparing text.now }
{
    if begins_two(b'<', b'=', text) {
        return Some((ChainOp::Binary(BinaryOp::LessEqual), 2));
    }
    if stands_alone(b'<', b'<', b'=', text) {
        return Some((ChainOp::Binary(BinaryOp::Less), 1));
    }
    if begins_two(b'>', b'=', text) {
        return Some((ChainOp::Binary(BinaryOp::GreaterEqual), 2));
    }
    if stands_alone(b'>', b'>', b'=', text) {
        return Some((ChainOp::Binary(BinaryOp::Greater), 1));
    }
    None
}

fn equating(text: &[u8]) -> Option<(ChainOp, usize)>
    ensures { result ≡ equating text.now }
{
    if begins_two(b'=', b'=', text) {
        return Some((ChainOp::Binary(BinaryOp::Equal), 2));
    }
    if begins_two(b'!', b'=', text) {
        return Some((ChainOp::Binary(BinaryOp::NotEqual), 2));
    }
    None
}

fn bit_and(text: &[u8]) -> Option<(ChainOp, usize)>
    ensures { result ≡ bit_and text.now }
{
    if stands_alone(b'&', b'&', b'=', text) {
        return Some((ChainOp::Binary(BinaryOp::BitAnd), 1));
    }
    None
}

fn bit_xor(text: &[u8]) -> Option<(ChainOp, usize)>
    ensures { result ≡ bit_xor text.now }
{
    if stands_alone(b'^', b'=', b'=', text) {
        return Some((ChainOp::Binary(BinaryOp::BitXor), 1));
    }
    None
}

fn bit_or(text: &[u8]) -> Option<(ChainOp, usize)>
    ensures { result ≡ bit_or text.now }
{
    if stands_alone(b'|', b'|', b'=', text) {
        return Some((ChainOp::Binary(BinaryOp::BitOr), 1));
    }
    None
}

fn both(text: &[u8]) -> Option<(ChainOp, usize)>
    ensures { result ≡ both text.now }
{
    if begins_two(b'&', b'&', text) {
        return Some((ChainOp::And, 2));
    }
    None
}

fn either(text: &[u8]) -> Option<(ChainOp, usize)>
    ensures { result ≡ either text.now }
{
    if begins_two(b'|', b'|', text) {
        return Some((ChainOp::Or, 2));
    }
    None
}

fn comma(text: &[u8]) -> Option<(ChainOp, usize)>
    ensures { result ≡ comma text.now }
{
    if begins(b',', text) {
        return Some((ChainOp::Comma, 1));
    }
    None
}

/// The level behind a byte: one where it stands twice, 12 where `=` makes it one of its kin, and else another.
fn doubled(byte: u8, twice: u32, once: u32, rest: &[u8]) -> u32
    ensures { result ≡ doubled byte twice once rest.now }
{
    if begins(byte, rest) {
        return twice;
    }
    if begins(b'=', rest) { 12 } else { once }
}

/// The level behind a byte: one where `=` stands there, and else another.
fn with_equals(equals: u32, other: u32, rest: &[u8]) -> u32
    ensures { result ≡ with_equals equals other rest.now }
{
    if begins(b'=', rest) { equals } else { other }
}

/// The level of `<`, `>` and what begins with them.
fn angled(byte: u8, rest: &[u8]) -> u32
    ensures { result ≡ angled byte rest.now }
{
    if begins(byte, rest) {
        return with_equals(12, 3, behind(rest, 1));
    }
    4
}

#[tactic(auto, unfolding(crate::specs::LevelAt::loose_level))]
fn loose_level(byte: u8, rest: &[u8]) -> u32
    ensures { result ≡ loose_level byte rest.now }
{
    match byte {
        b'=' => with_equals(5, 12, rest),
        b'!' => with_equals(5, 14, rest),
        b'&' => doubled(b'&', 9, 6, rest),
        b'^' => with_equals(12, 7, rest),
        b'|' => doubled(b'|', 10, 8, rest),
        b'?' => 11,
        b',' => 13,
        _ => 14,
    }
}

#[tactic(auto, unfolding(crate::specs::LevelAt::level_by))]
fn level_by(byte: u8, rest: &[u8]) -> u32
    ensures { result ≡ level_by byte rest.now }
{
    match byte {
        b'*' => doubled(b'*', 0, 1, rest),
        b'/' | b'%' => with_equals(12, 1, rest),
        b'+' => doubled(b'+', 14, 2, rest),
        b'-' => doubled(b'-', 14, 2, rest),
        b'<' | b'>' => angled(byte, rest),
        _ => loose_level(byte, rest),
    }
}

/// The level that goes on with the operator at the front of the text: 0 for `**`, 1 to 10 for those that group from the
/// left, the tightest first, 11 for `?`, 12 for `=` and its kin, 13 for the comma, and 14 where no operator stands there.
#[tactic(auto, unfolding(crate::specs::LevelAt::level_at))]
pub fn level_at(text: &[u8]) -> u32
    ensures { result ≡ level_at text.now }
{
    match text.split_first() {
        Some((first, rest)) => level_by(*first, rest),
        None => 14,
    }
}

/// `=` or one of its kin: the operator that is done before, if any, and the length.
#[tactic(auto, unfolding(crate::specs::Grammar::assigning))]
pub fn assigning(text: &[u8]) -> Option<(Option<BinaryOp>, usize)>
    ensures { result ≡ assigning text.now }
{
    if stands_alone(b'=', b'=', b'=', text) {
        return Some((None, 1));
    }
    if begins_two(b'+', b'=', text) {
        return Some((Some(BinaryOp::Add), 2));
    }
    if begins_two(b'-', b'=', text) {
        return Some((Some(BinaryOp::Subtract), 2));
    }
    if begins_two(b'*', b'=', text) {
        return Some((Some(BinaryOp::Multiply), 2));
    }
    if begins_two(b'/', b'=', text) {
        return Some((Some(BinaryOp::Divide), 2));
    }
    if begins_two(b'%', b'=', text) {
        return Some((Some(BinaryOp::Remainder), 2));
    }
    if begins_two(b'&', b'=', text) {
        return Some((Some(BinaryOp::BitAnd), 2));
    }
    if begins_two(b'^', b'=', text) {
        return Some((Some(BinaryOp::BitXor), 2));
    }
    if begins_two(b'|', b'=', text) {
        return Some((Some(BinaryOp::BitOr), 2));
    }
    if begins_two(b'<', b'<', text) && begins(b'=', behind(text, 2)) {
        return Some((Some(BinaryOp::ShiftLeft), 3));
    }
    if begins_two(b'>', b'>', text) && begins(b'=', behind(text, 2)) {
        return Some((Some(BinaryOp::ShiftRight), 3));
    }
    None
}

/// `++` or `--`: whether it is down.
#[tactic(auto, unfolding(crate::specs::Grammar::stepping))]
pub fn stepping(text: &[u8]) -> Option<bool>
    ensures { result ≡ stepping text.now }
{
    if begins_two(b'+', b'+', text) {
        return Some(false);
    }
    if begins_two(b'-', b'-', text) {
        return Some(true);
    }
    None
}

/// `-` or one of its kin.
#[tactic(auto, unfolding(crate::specs::Grammar::signing))]
pub fn signing(text: &[u8]) -> Option<UnaryOp>
    ensures { result ≡ signing text.now }
{
    if begins(b'+', text) {
        return Some(UnaryOp::Plus);
    }
    if begins(b'-', text) {
        return Some(UnaryOp::Minus);
    }
    if begins(b'!', text) {
        return Some(UnaryOp::Not);
    }
    if begins(b'~', text) {
        return Some(UnaryOp::Complement);
    }
    None
}

/// Whether an operator that may be longer begins with the byte.
fn is_common(byte: u8) -> bool
    ensures { result ≡ is_common byte }
{
    byte == b'='
        || byte == b'!'
        || byte == b'+'
        || byte == b'-'
        || byte == b'*'
        || byte == b'/'
        || byte == b'%'
        || byte == b'&'
        || byte == b'^'
        || byte == b'|'
}

/// Where no token that may stand there does, how many of its bytes one that may has in common with it.
#[tactic(auto, unfolding(crate::specs::Grammar::common_bytes))]
pub fn common_bytes(text: &[u8]) -> usize
    ensures { result ≡ common_bytes text.now }
{
    if begins_two(b'<', b'<', text) || begins_two(b'>', b'>', text) {
        return 2;
    }
    common_first(text)
}

fn common_first(text: &[u8]) -> usize
    ensures { result ≡ common_first text.now }
{
    let Some((first, _)) = text.split_first() else {
        return 0;
    };
    if is_common(*first) { 1 } else { 0 }
}

/// What a letter or digit is worth as a digit, and 36 for any other byte.
fn worth(byte: u8) -> u8
    ensures value { result ≡ worth byte }
    ensures small { result ≤ 36 }
{
    if byte.is_ascii_digit() {
        return byte - b'0';
    }
    if byte.is_ascii_lowercase() {
        return byte - b'a' + 10;
    }
    if byte.is_ascii_uppercase() {
        return byte - b'A' + 10;
    }
    36
}

/// The digits of a base at the front, behind a number that was read already.
#[tactic(auto, unfolding(crate::specs::Grammar::digits_by))]
fn digits(base: u8, text: &[u8]) -> Result<(u64, &[u8]), ArithRefused>
    requires { base ≤ 36 }
    ensures { Gives (λ r. (r.0, r.1.now)) result (digits_by base 0 text.now) }
{
    let mut value = 0u64;
    let mut text = text;
    while let Some((first, rest)) = text.split_first() {
        let digit = worth(*first);
        if digit >= base {
            break;
        }
        let next = u128::from(value) * u128::from(base) + u128::from(digit);
        if next > u128::from(LARGEST) {
            return Err(ArithRefused::Bad(text.len()));
        }
        value = next as u64;
        text = rest;
    }
    Ok((value, text))
}

/// At least one digit of the base.
#[tactic(auto, unfolding(crate::specs::Grammar::some_digits))]
fn some_digits(base: u8, text: &[u8]) -> Result<(u64, &[u8]), ArithRefused>
    requires { base ≤ 36 }
    ensures { Gives (λ r. (r.0, r.1.now)) result (some_digits base text.now) }
{
    match text.split_first() {
        Some((first, _)) => {
            if worth(*first) >= base {
                return Err(ArithRefused::Bad(text.len()));
            }
            digits(base, text)
        }
        None => Err(ArithRefused::Bad(text.len())),
    }
}

/// A literal: `0x` and hexadecimal digits, `base#digits`, or decimal digits.
#[tactic(auto, unfolding(crate::specs::Grammar::literal))]
pub fn literal(text: &[u8]) -> Result<(u64, &[u8]), ArithRefused>
    ensures { Gives (λ r. (r.0, r.1.now)) result (literal text.now) }
{
    if begins_two(b'0', b'x', text) || begins_two(b'0', b'X', text) {
        return some_digits(16, behind(text, 2));
    }
    match digits(10, text) {
        Ok((value, rest)) => with_base(value, rest),
        Err(refused) => Err(refused),
    }
}

/// `#digits` behind a base, or the number as it is.
fn with_base(value: u64, text: &[u8]) -> Result<(u64, &[u8]), ArithRefused>
    ensures { Gives (λ r. (r.0, r.1.now)) result (after_base (value, text.now)) }
{
    if !begins(b'#', text) {
        return Ok((value, text));
    }
    if value < 2 || value > 36 {
        return Err(ArithRefused::Bad(text.len()));
    }
    some_digits(value as u8, behind(text, 1))
}

fn goes_on(byte: u8) -> bool
    ensures { result ≡ goes_on_in_name byte }
{
    byte.is_ascii_alphabetic() || byte == b'_' || byte.is_ascii_digit()
}

/// How many bytes at the front go on in a name.
#[tactic(auto, unfolding(crate::specs::Grammar::name_length))]
pub fn name_length(text: &[u8]) -> usize
    ensures value { result ≡ name_length text.now }
    ensures within { result ≤ length text.now }
{
    let mut count = 0;
    let mut rest = text;
    while let Some((first, behind)) = rest.split_first() {
        if !goes_on(*first) {
            break;
        }
        count += 1;
        rest = behind;
    }
    count
}

/// Whether a name begins there.
#[tactic(auto, unfolding(crate::specs::Grammar::begins_name))]
pub fn begins_name(text: &[u8]) -> bool
    ensures { result ≡ begins_name text.now }
{
    match text.split_first() {
        Some((first, _)) => first.is_ascii_alphabetic() || *first == b'_',
        None => false,
    }
}

/// Whether a digit stands there.
#[tactic(auto, unfolding(crate::specs::Grammar::begins_digit))]
pub fn begins_digit(text: &[u8]) -> bool
    ensures { result ≡ begins_digit text.now }
{
    match text.split_first() {
        Some((first, _)) => first.is_ascii_digit(),
        None => false,
    }
}
