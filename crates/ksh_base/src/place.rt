/// A place in a script: its line, counted from 1, and its byte, counted from 0.
#[derive(Clone, Copy, Debug, PartialEq, Eq, PartialOrd, Ord)]
pub struct Place {
    pub line: u32,
    pub byte: u32,
}
