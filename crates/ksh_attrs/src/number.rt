//! Numbers as texts.
ghost use Rattle.std.specs.Prelude.{◌≡◌, ◌≤◌, ◌<◌, ◌^◌, false, true, IfOk, MatchOption, map};
ghost use Rattle.ksh_base.specs.Words.{written};
ghost use Rattle.ksh_attrs.specs.Numbers.{number_of, is_within, digit, low_digits, AreDigits, numeral, is_base, based, number_text};

use itoa::Buffer;
use ksh_base::{Memory, Text};
use std::alloc::Global;

/// The greatest value that the digits behind a minus sign may have.
const LARGEST: u64 = 1 << 63;

/// The number that a text is: decimal digits, with or without one `-` before them, from -2^63 to 2^63-1.
pub fn read_number(text: &[u8]) -> Option<i64>
    ensures { result ≡ number_of text.now }
{
    let (first, rest) = text.split_first()?;
    if *first == b'-' {
        let size = read_digits(rest, LARGEST)?;
        return Some(size.wrapping_neg().cast_signed());
    }
    let size = read_digits(text, LARGEST - 1)?;
    Some(size.cast_signed())
}

/// The number of one or more decimal digits, where it is small enough.
fn read_digits(digits: &[u8], most: u64) -> Option<u64>
    requires { most ≤ 2 ^ 63 }
    ensures { MatchOption result (is_within most digits.now ≡ false) (λ n. (is_within most digits.now ≡ true) × (n ≡ written digits.now)) }
{
    if digits.is_empty() {
        return None;
    }
    let most = u128::from(most);
    let mut value = 0u128;
    for digit in digits {
        if !digit.is_ascii_digit() {
            return None;
        }
        if value > most {
            return None;
        }
        value = value * 10 + u128::from(*digit - b'0');
    }
    if value > most {
        return None;
    }
    Some(value as u64)
}

/// The byte of a digit.
fn digit(value: u8) -> u8
    requires { value < 36 }
    ensures { result ≡ digit value }
{
    if value < 10 {
        b'0' + value
    } else {
        b'a' - 10 + value
    }
}

/// The digits of a number, the last first.
fn low_digits(alloc: Global, base: u8, number: u64) -> Result<Vec<u8>, Memory>
    requires { (2 ≤ base) × (base ≤ 36) }
    ensures { IfOk result (λ v. v.items ≡ map digit (low_digits number base number)) }
{
    let wide = u64::from(base);
    let mut digits = Vec::new(alloc);
    let mut left = number;
    while left >= wide {
        digits.push(digit((left % wide) as u8))?;
        left /= wide;
    }
    digits.push(digit(left as u8))?;
    Ok(digits)
}

/// The digits of a number.
fn numeral(alloc: Global, base: u8, number: u64) -> Result<Vec<u8>, Memory>
    requires { (2 ≤ base) × (base ≤ 36) }
    ensures is { IfOk result (λ v. v.items ≡ numeral base number) }
    ensures law { AreDigits base number (low_digits number base number) }
{
    let mut digits = low_digits(alloc, base, number)?;
    digits.reverse();
    Ok(digits)
}

/// Whether a base stands before its digits.
fn is_base(base: u8) -> bool
    ensures { result ≡ is_base base }
{
    2 <= base && base <= 36 && base != 10
}

/// A number in a base, `base#digits`, with a minus sign in front where it is below zero.
fn based(alloc: Global, base: u8, number: i64) -> Result<Text, Memory>
    requires { (2 ≤ base) × (base ≤ 36) }
    ensures { IfOk result (λ t. t ≡ based base number) }
{
    let digits = numeral(alloc, base, number.unsigned_abs())?;
    let mut text = Text::empty(alloc);
    if number < 0 {
        text.push(b'-')?;
    }
    let mut buffer = Buffer::new();
    text.append(buffer.format(base).as_bytes())?;
    text.push(b'#')?;
    text.append(digits.as_slice())?;
    Ok(text)
}

/// What a number prints.
pub fn number_text(alloc: Global, base: Option<u8>, number: i64) -> Result<Text, Memory>
    ensures { IfOk result (λ t. t ≡ number_text base number) }
{
    if let Some(base) = base
        && is_base(base)
    {
        return based(alloc, base, number);
    }
    let mut buffer = Buffer::new();
    Text::of(alloc, buffer.format(number).as_bytes())
}
