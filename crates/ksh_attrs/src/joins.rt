//! The attributes of a row after a declaration.
ghost use Rattle.std.specs.Prelude.{◌≡◌};
ghost use Rattle.ksh_attrs.specs.Joins.{stays, joined, width_of_first, with_widths};

use var_types::Attrs;

/// The width that is given, or else the one from before, unless that is turned off.
fn stays(given: Option<u32>, before: Option<u32>, off: bool) -> Option<u32>
    ensures { result ≡ stays given before off }
{
    match given {
        Some(width) => Some(width),
        None => { if off { None } else { before } }
    }
}

/// The attributes of a row that had some, and that is declared with further ones. Upper case turns off lower case and
/// the reverse; the left width turns off the right one and the one with zeros, and each of these the left one.
pub fn joined(before: &Attrs, given: &Attrs) -> Attrs
    ensures { result ≡ joined before.now given.now }
{
    Attrs {
        integer: given.integer.or(before.integer),
        upper: given.upper || (before.upper && !given.lower),
        lower: given.lower || (before.lower && !given.upper),
        left: stays(
            given.left,
            before.left,
            given.right.is_some() || given.zero.is_some(),
        ),
        right: stays(given.right, before.right, given.left.is_some()),
        zero: stays(given.zero, before.zero, given.left.is_some()),
        readonly: before.readonly || given.readonly,
        exported: before.exported || given.exported,
    }
}

/// A width, where one that wasn't told, 0, is the length of a text; at most 2^32-1.
fn width_of_first(width: Option<u32>, text: &[u8]) -> Option<u32>
    ensures { result ≡ width_of_first text.now width }
{
    match width {
        Some(0) => Some(u32::try_from(text.len()).unwrap_or(u32::MAX)),
        other => other,
    }
}

/// The attributes once the first value is assigned, whose length is each width that wasn't told.
pub fn with_widths(attrs: &Attrs, bytes: &[u8]) -> Attrs
    ensures { result ≡ with_widths attrs.now bytes.now }
{
    Attrs {
        integer: attrs.integer,
        upper: attrs.upper,
        lower: attrs.lower,
        left: width_of_first(attrs.left, bytes),
        right: width_of_first(attrs.right, bytes),
        zero: width_of_first(attrs.zero, bytes),
        readonly: attrs.readonly,
        exported: attrs.exported,
    }
}
