ghost use Rattle.std.specs.Prelude.{◌≡◌, IfOk};
ghost use Rattle.var_store.specs.Standing.{Held};
ghost use Rattle.ksh_attrs.specs.Shapes.{shape_of, text_of};
ghost use Rattle.var_store.specs.Shaping.{added, assigned, appended_by};

use ksh_attrs::{AttrFault, shape, show};
use ksh_base::{Memory, Text};
use std::alloc::Global;
use var_types::{Attrs, Value};

/// The value that a text becomes in a row of those attributes; nothing where it is no number and
/// has to be one.
fn shaped(alloc: Global, attrs: &Attrs, bytes: &[u8]) -> Result<Option<Value>, Memory>
    ensures { IfOk result (λ v. v ≡ shape_of attrs.now bytes.now) }
{
    match shape(alloc, attrs, bytes) {
        Ok(value) => Ok(Some(value)),
        Err(AttrFault::NotANumber) => Ok(None),
        Err(AttrFault::Memory) => Err(Memory),
    }
}

/// The text that a value shows, which may be unset.
fn shown(alloc: Global, value: Option<&Value>, attrs: &Attrs) -> Result<Text, Memory>
    ensures { IfOk result (λ t. t ≡ text_of (Held value.entry) attrs.now) }
{
    match value {
        Some(value) => show(alloc, value, attrs),
        None => show(alloc, &Value::Unset, attrs),
    }
}

/// A number added to a value.
fn sum(value: Option<&Value>, more: Value) -> Value
    ensures { result ≡ added (Held value.entry) more }
{
    match (value, &more) {
        (Some(Value::Number(m)), Value::Number(n)) => Value::Number(m.wrapping_add(*n)),
        _ => more,
    }
}

/// What a row's value becomes where a text is added behind it.
fn appended(
    alloc: Global,
    attrs: &Attrs,
    value: Option<&Value>,
    text: &[u8],
) -> Result<Option<Value>, Memory>
    ensures { IfOk result (λ v. v ≡ appended_by attrs.now.integer attrs.now (Held value.entry) text.now) }
{
    match attrs.integer {
        None => {
            let mut whole = shown(alloc, value, attrs)?;
            whole.append(text)?;
            shaped(alloc, attrs, whole.bytes())
        }
        Some(_) => match shaped(alloc, attrs, text)? {
            Some(more) => Ok(Some(sum(value, more))),
            None => Ok(None),
        },
    }
}

/// What a row's value becomes where a text is put, or added behind it.
pub fn assigned(
    alloc: Global,
    append: bool,
    attrs: &Attrs,
    value: Option<&Value>,
    text: &[u8],
) -> Result<Option<Value>, Memory>
    ensures { IfOk result (λ v. v ≡ assigned append attrs.now (Held value.entry) text.now) }
{
    if append {
        return appended(alloc, attrs, value, text);
    }
    shaped(alloc, attrs, text)
}
