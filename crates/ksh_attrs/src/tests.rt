use crate::{AttrFault, joined, shape, show, with_widths};
use std::alloc::Global;
use std::test::Fail;
use var_types::{Attrs, Value};

/// The attributes of the letters, with one width.
fn attrs(letters: &[u8], width: u32) -> Attrs {
    let has = |letter: u8| letters.contains(&letter);
    let width_of = |letter: u8| if letters.contains(&letter) {
        Some(width)
    } else {
        None
    };
    Attrs {
        integer: None,
        upper: has(b'u'),
        lower: has(b'l'),
        left: width_of(b'L'),
        right: width_of(b'R'),
        zero: width_of(b'Z'),
        readonly: has(b'r'),
        exported: has(b'x'),
    }
}

/// Those of an integer.
fn integer(base: u8) -> Attrs {
    Attrs {
        integer: Some(base),
        ..Attrs::none()
    }
}

/// Whether a text is made another by the attributes of the letters.
fn shapes(
    alloc: Global,
    letters: &[u8],
    width: u32,
    bytes: &[u8],
    want: &[u8],
) -> Result<bool, AttrFault> {
    let given = attrs(letters, width);
    let value = shape(alloc, &given, bytes)?;
    let shown = show(alloc, &value, &given)?;
    Ok(shown.bytes() == want)
}

/// Whether a number's text is shown as another in a base.
fn shows(alloc: Global, base: u8, bytes: &[u8], want: &[u8]) -> Result<bool, AttrFault> {
    let given = integer(base);
    let value = shape(alloc, &given, bytes)?;
    let shown = show(alloc, &value, &given)?;
    Ok(shown.bytes() == want)
}

/// Whether the attributes of the one letter and then of the other are those of the wanted letters.
fn joins(before: &[u8], given: &[u8], want: &[u8]) -> bool {
    joined(&attrs(before, 3), &attrs(given, 3)) == attrs(want, 3)
}

/// Whether an integer can't have the text.
fn is_no_number(alloc: Global, bytes: &[u8]) -> bool {
    shape(alloc, &integer(10), bytes).err() == Some(AttrFault::NotANumber)
}

#[test]
fn worked_rows(rt: HostRuntime) -> Result<(), Fail> {
    let alloc = rt.alloc();
    assert!(rt; shapes(alloc, b"Z", 3, b"7", b"007")?);
    assert!(rt; is_no_number(alloc, b"q"));
    assert!(rt; shows(alloc, 16, b"255", b"16#ff")?);
    assert!(rt; shapes(alloc, b"L", 3, b"  abcd", b"abc")?);
    Ok(())
}

#[test]
fn left_and_right(rt: HostRuntime) -> Result<(), Fail> {
    let alloc = rt.alloc();
    assert!(rt; shapes(alloc, b"L", 5, b"\t ab ", b"ab   ")?);
    assert!(rt; shapes(alloc, b"L", 2, b"  ", b"  ")?);
    assert!(rt; shapes(alloc, b"R", 5, b"ab ", b"   ab")?);
    assert!(rt; shapes(alloc, b"R", 2, b"abc  ", b"bc")?);
    assert!(rt; shapes(alloc, b"R", 3, b"", b"   ")?);
    Ok(())
}

#[test]
fn zeros(rt: HostRuntime) -> Result<(), Fail> {
    let alloc = rt.alloc();
    assert!(rt; shapes(alloc, b"Z", 5, b"  42", b"00042")?);
    assert!(rt; shapes(alloc, b"Z", 5, b"4x ", b"0004x")?);
    assert!(rt; shapes(alloc, b"Z", 2, b"1234", b"34")?);
    assert!(rt; shapes(alloc, b"Z", 4, b"ab", b"  ab")?);
    assert!(rt; shapes(alloc, b"Z", 4, b"-5", b"  -5")?);
    Ok(())
}

#[test]
fn which_attribute_counts(rt: HostRuntime) -> Result<(), Fail> {
    let alloc = rt.alloc();
    assert!(rt; shapes(alloc, b"ul", 0, b"aBc1", b"ABC1")?);
    assert!(rt; shapes(alloc, b"l", 0, b"aBc1", b"abc1")?);
    assert!(rt; shapes(alloc, b"LRZ", 4, b"7", b"7   ")?);
    assert!(rt; shapes(alloc, b"RZ", 4, b"7", b"0007")?);
    assert!(rt; shapes(alloc, b"uR", 4, b"ab", b"  AB")?);
    Ok(())
}

#[test]
fn widths_that_were_not_told(rt: HostRuntime) -> Result<(), Fail> {
    let alloc = rt.alloc();
    assert!(rt; shapes(alloc, b"L", 0, b"  ab", b"ab  ")?);
    assert!(rt; with_widths(&attrs(b"LZ", 0), b"abcd") == attrs(b"LZ", 4));
    assert!(rt; with_widths(&attrs(b"R", 2), b"abcd") == attrs(b"R", 2));
    assert!(rt; with_widths(&attrs(b"ux", 2), b"abcd") == attrs(b"ux", 2));
    Ok(())
}

#[test]
fn case_turns_off_case(rt: HostRuntime) -> Result<(), Fail> {
    assert!(rt; joins(b"l", b"u", b"u"));
    assert!(rt; joins(b"u", b"l", b"l"));
    assert!(rt; joins(b"u", b"x", b"ux"));
    assert!(rt; joins(b"lr", b"", b"lr"));
    assert!(rt; joins(b"l", b"ul", b"ul"));
    Ok(())
}

#[test]
fn widths_turn_off_widths(rt: HostRuntime) -> Result<(), Fail> {
    assert!(rt; joins(b"RZ", b"L", b"L"));
    assert!(rt; joins(b"L", b"R", b"R"));
    assert!(rt; joins(b"L", b"Z", b"Z"));
    assert!(rt; joins(b"R", b"Z", b"RZ"));
    assert!(rt; joins(b"Z", b"R", b"RZ"));
    assert!(rt; joins(b"Lu", b"x", b"Lux"));
    Ok(())
}

#[test]
fn a_base_is_declared_anew(rt: HostRuntime) -> Result<(), Fail> {
    assert!(rt; joined(&integer(16), &integer(2)) == integer(2));
    assert!(rt; joined(&integer(16), &Attrs::none()) == integer(16));
    Ok(())
}

/// In each base, one less than its square is twice the highest digit.
#[test]
fn every_base(rt: HostRuntime) -> Result<(), Fail> {
    let alloc = rt.alloc();
    let digits = b"0123456789abcdefghijklmnopqrstuvwxyz";
    for base in 2u8..=36 {
        if base != 10 {
            let number = i64::from(base) * i64::from(base) - 1;
            let shown = show(alloc, &Value::Number(number), &integer(base))?;
            let last = digits[base as usize - 1];
            assert!(rt; shown.bytes().ends_with(&[b'#', last, last]));
        }
    }
    Ok(())
}

#[test]
fn bases_in_front(rt: HostRuntime) -> Result<(), Fail> {
    let alloc = rt.alloc();
    assert!(rt; shows(alloc, 2, b"5", b"2#101")?);
    assert!(rt; shows(alloc, 36, b"-35", b"-36#z")?);
    assert!(rt; shows(alloc, 8, b"0", b"8#0")?);
    assert!(rt; shows(alloc, 10, b"-0012", b"-12")?);
    assert!(rt; shows(alloc, 0, b"12", b"12")? && shows(alloc, 37, b"12", b"12")?);
    Ok(())
}

#[test]
fn the_limits_of_64_bits(rt: HostRuntime) -> Result<(), Fail> {
    let alloc = rt.alloc();
    let least = b"-9223372036854775808";
    let most = b"9223372036854775807";
    assert!(rt; shows(alloc, 10, least, least)? && shows(alloc, 10, most, most)?);
    assert!(rt; shows(alloc, 16, least, b"-16#8000000000000000")?);
    assert!(rt; shows(alloc, 16, most, b"16#7fffffffffffffff")?);
    assert!(rt; shows(alloc, 36, least, b"-36#1y2p0ij32e8e8")?);
    assert!(rt; is_no_number(alloc, b"9223372036854775808"));
    assert!(rt; is_no_number(alloc, b"-9223372036854775809"));
    Ok(())
}

#[test]
fn texts_that_are_no_numbers(rt: HostRuntime) -> Result<(), Fail> {
    let alloc = rt.alloc();
    assert!(rt; is_no_number(alloc, b"") && is_no_number(alloc, b"-"));
    assert!(rt; is_no_number(alloc, b"+1") && is_no_number(alloc, b" 1"));
    assert!(rt; is_no_number(alloc, b"16#ff") && is_no_number(alloc, b"1:"));
    Ok(())
}

#[test]
fn numbers_have_a_width(rt: HostRuntime) -> Result<(), Fail> {
    let alloc = rt.alloc();
    let mut given = attrs(b"Zu", 7);
    given.integer = Some(16);
    let shown = show(alloc, &Value::Number(255), &given)?;
    assert!(rt; shown.bytes() == b"0016#ff".as_slice());
    let shown = show(alloc, &Value::Compound, &given)?;
    assert!(rt; shown.is_empty());
    Ok(())
}
