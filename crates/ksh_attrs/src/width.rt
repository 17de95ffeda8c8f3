//! Texts of a width.
ghost use Rattle.std.specs.Prelude.{◌≡◌, IfOk};
ghost use Rattle.ksh_attrs.specs.Shapes.{filled_behind, filled_before, width_for, at_left, at_right, with_zeros, by_width, widened};

use crate::blanks::{begins_with_digit, without_back, without_front};
use ksh_base::{Memory, Text};
use std::alloc::Global;
use var_types::Attrs;

/// The first bytes, up to a width, and blanks behind them.
fn filled_behind(alloc: Global, width: usize, text: &[u8]) -> Result<Text, Memory>
    ensures { IfOk result (λ t. t ≡ filled_behind width text.now) }
{
    if text.len() >= width {
        return Text::of(alloc, &text[..width]);
    }
    let mut filled = Text::of(alloc, text)?;
    while filled.len() < width {
        filled.push(b' ')?;
    }
    Ok(filled)
}

/// The last bytes, up to a width, and before them so many of one byte as are missing.
fn filled_before(alloc: Global, fill: u8, width: usize, text: &[u8]) -> Result<Text, Memory>
    ensures { IfOk result (λ t. t ≡ filled_before fill width text.now) }
{
    if text.len() >= width {
        return Text::of(alloc, &text[text.len() - width..]);
    }
    let mut filled = Text::empty(alloc);
    while filled.len() < width - text.len() {
        filled.push(fill)?;
    }
    filled.append(text)?;
    Ok(filled)
}

/// A width in bytes, of which 0 is that of the text.
fn width_for(width: u32, text: &[u8]) -> usize
    ensures { result ≡ width_for width text.now }
{
    if width == 0 {
        text.len()
    } else {
        width as usize
    }
}

/// The text without blanks in front, at the left of its width.
fn at_left(alloc: Global, width: usize, text: &[u8]) -> Result<Text, Memory>
    ensures { IfOk result (λ t. t ≡ at_left width text.now) }
{
    filled_behind(alloc, width, without_front(text))
}

/// The text without blanks behind it, at the right of its width.
fn at_right(alloc: Global, width: usize, text: &[u8]) -> Result<Text, Memory>
    ensures { IfOk result (λ t. t ≡ at_right width text.now) }
{
    filled_before(alloc, b' ', width, without_back(text))
}

/// The same with zeros in front, where the text's first byte that isn't a blank is a digit.
fn with_zeros(alloc: Global, width: usize, text: &[u8]) -> Result<Text, Memory>
    ensures { IfOk result (λ t. t ≡ with_zeros width text.now) }
{
    let inner = without_front(text);
    if begins_with_digit(inner) {
        return filled_before(alloc, b'0', width, without_back(inner));
    }
    at_right(alloc, width, text)
}

/// The text in the width that counts: the left one before that with zeros, and that before the right one.
fn by_width(
    alloc: Global,
    left: Option<u32>,
    zero: Option<u32>,
    right: Option<u32>,
    text: &[u8],
) -> Result<Text, Memory>
    ensures { IfOk result (λ t. t ≡ by_width left zero right text.now) }
{
    if let Some(width) = left {
        return at_left(alloc, width_for(width, text), text);
    }
    if let Some(width) = zero {
        return with_zeros(alloc, width_for(width, text), text);
    }
    if let Some(width) = right {
        return at_right(alloc, width_for(width, text), text);
    }
    Text::of(alloc, text)
}

/// The text in the width of its attributes.
pub fn widened(alloc: Global, attrs: &Attrs, text: &[u8]) -> Result<Text, Memory>
    ensures { IfOk result (λ t. t ≡ widened attrs.now text.now) }
{
    by_width(alloc, attrs.left, attrs.zero, attrs.right, text)
}
