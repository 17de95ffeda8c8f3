//! What attributes make of a text, and what a value shows.
ghost use Rattle.std.specs.Prelude.{◌≡◌, IfOk, map};
ghost use Rattle.std.specs.Char.{to_ascii_uppercase, to_ascii_lowercase};
ghost use Rattle.ksh_attrs.specs.Shapes.{cased, shape_of, text_of, AnswersShape};

use crate::fault::AttrFault;
use crate::number::{number_text, read_number};
use crate::width::widened;
use ksh_base::{Memory, Text};
use std::alloc::Global;
use var_types::{Attrs, Value};

fn uppercase(alloc: Global, text: &[u8]) -> Result<Text, Memory>
    ensures { IfOk result (λ t. t ≡ map to_ascii_uppercase text.now) }
{
    let mut upper = Text::empty(alloc);
    for byte in text {
        upper.push(byte.to_ascii_uppercase())?;
    }
    Ok(upper)
}

fn lowercase(alloc: Global, text: &[u8]) -> Result<Text, Memory>
    ensures { IfOk result (λ t. t ≡ map to_ascii_lowercase text.now) }
{
    let mut lower = Text::empty(alloc);
    for byte in text {
        lower.push(byte.to_ascii_lowercase())?;
    }
    Ok(lower)
}

/// The text in the case of its attributes.
fn cased(alloc: Global, attrs: &Attrs, text: &[u8]) -> Result<Text, Memory>
    ensures { IfOk result (λ t. t ≡ cased attrs.now text.now) }
{
    if attrs.upper {
        return uppercase(alloc, text);
    }
    if attrs.lower {
        return lowercase(alloc, text);
    }
    Text::of(alloc, text)
}

/// The value that a text has once it is assigned under attributes: a number where these are an integer's, and else a
/// text, whose case is changed first and then its width. `NotANumber` comes where an integer is given a text that is
/// no number, which is decimal digits, with or without a minus sign, from -2^63 to 2^63-1.
pub fn shape(alloc: Global, attrs: &Attrs, bytes: &[u8]) -> Result<Value, AttrFault>
    ensures { AnswersShape (shape_of attrs.now bytes.now) result }
{
    if attrs.integer.is_some() {
        return match read_number(bytes) {
            Some(number) => Ok(Value::Number(number)),
            None => Err(AttrFault::NotANumber),
        };
    }
    let text = cased(alloc, attrs, bytes)?;
    let text = widened(alloc, attrs, text.bytes())?;
    Ok(Value::Plain(text))
}

/// The text that a value shows under attributes: a number in its base and width, and a text as it is. A value that has
/// no text of its own shows an empty one.
pub fn show(alloc: Global, value: &Value, attrs: &Attrs) -> Result<Text, Memory>
    ensures { IfOk result (λ t. t ≡ text_of value.now attrs.now) }
{
    match value {
        Value::Plain(text) => text.copy(alloc),
        Value::Number(number) => {
            let text = number_text(alloc, attrs.integer, *number)?;
            widened(alloc, attrs, text.bytes())
        }
        Value::Unset
        | Value::Compound
        | Value::Indexed
        | Value::Assoc
        | Value::Reference(_)
        | Value::NoReference
        | Value::Instance(_) => Ok(Text::empty(alloc)),
    }
}
