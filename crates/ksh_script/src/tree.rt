use ksh_base::{Items, Name, Shared, Text};

/// A list of commands. A copy shares it.
pub type List = Shared<Items<Item>>;

/// A command, with the line of its first byte, counted from 1.
#[cycle(tree)]
#[derive(Drop)]
pub struct Item {
    pub line: u32,
    pub command: Command,
}

/// A command.
#[cycle(tree)]
#[derive(Drop)]
pub enum Command {
    /// Writes its words.
    Print { words: Items<Word> },
    /// Gives variables values, from the left.
    Assign { assigns: Items<Assign> },
    /// Runs its list in a shell of its own, and waits for it.
    Subshell { body: Shared<Items<Item>> },
    /// A form that isn't built yet. It is a fault, which ends its shell.
    NotBuilt,
}

/// `name=value`.
#[derive(Debug, Drop)]
pub struct Assign {
    pub name: Name,
    pub value: Word,
}

/// A word: the text is that of its pieces, one after another.
#[derive(Debug, Drop)]
pub struct Word {
    pub pieces: Items<Piece>,
}

/// A part of a word.
#[derive(Debug, Drop)]
pub enum Piece {
    /// These bytes.
    Literal { text: Text },
    /// The value of a variable, nothing where it is unset.
    Value { name: Name },
}
