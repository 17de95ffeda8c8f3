/// What stands before the name of a parameter in braces.
#[derive(Clone, Copy, Debug, PartialEq, Eq)]
pub enum Asked {
    /// Nothing.
    Value,
    /// `#`
    Length,
    /// `!`
    Target,
}
