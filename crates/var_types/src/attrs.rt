ghost use Rattle.std.specs.Prelude.{◌≡◌};
ghost use Rattle.var_types.specs.Rows.{no_attrs};

/// The attributes of a row. Widths count bytes.
#[derive(Clone, Copy, Debug, PartialEq, Eq)]
pub struct Attrs {
    /// The base in which a number is shown, from 2 to 36; none where the row isn't an integer.
    pub integer: Option<u8>,
    pub upper: bool,
    pub lower: bool,
    pub left: Option<u32>,
    pub right: Option<u32>,
    pub zero: Option<u32>,
    pub readonly: bool,
    pub exported: bool,
}

impl Attrs {
    /// No attribute.
    pub fn none() -> Attrs
        ensures { result ≡ no_attrs }
    {
        Attrs {
            integer: None,
            upper: false,
            lower: false,
            left: None,
            right: None,
            zero: None,
            readonly: false,
            exported: false,
        }
    }
}
