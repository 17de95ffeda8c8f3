/// A test of one word.
#[derive(Clone, Copy, Debug, PartialEq, Eq)]
pub enum UnaryTest {
    /// `-n`
    NotEmpty,
    /// `-z`
    Empty,
    /// `-a` or `-e`
    Exists,
    /// `-f`
    Plain,
    /// `-d`
    Folder,
    /// `-r`
    Readable,
    /// `-w`
    Writable,
    /// `-x`
    Runnable,
    /// `-s`
    HasBytes,
    /// `-o`
    OptionOn,
    /// `-v`
    IsSet,
}

/// A test of two words.
#[derive(Clone, Copy, Debug, PartialEq, Eq)]
pub enum BinaryTest {
    /// `=` or `==`: the right is a pattern.
    Matches,
    /// `!=`
    Differs,
    /// `<`, by bytes
    Before,
    /// `>`, by bytes
    After,
    /// `-eq`
    Equal,
    /// `-ne`
    NotEqual,
    /// `-lt`
    Less,
    /// `-le`
    LessEqual,
    /// `-gt`
    Greater,
    /// `-ge`
    GreaterEqual,
}

/// How a substitution runs.
#[derive(Clone, Copy, Debug, PartialEq, Eq)]
pub enum SubstKind {
    /// In a shell of its own.
    Fork,
    /// `$(<file)`: it reads the file.
    File,
    /// `${ ..;}`: in this shell.
    Current,
}

/// Which matches are replaced.
#[derive(Clone, Copy, Debug, PartialEq, Eq)]
pub enum Replaced {
    /// `/`
    First,
    /// `//`
    All,
    /// `/#`
    Front,
    /// `/%`
    Tail,
}
