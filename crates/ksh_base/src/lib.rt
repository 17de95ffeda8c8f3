//! What every crate of the shell speaks of: texts, names, shells' names, budgets, places, and
//! wrappers under which trees of plain data compare by value.
#![tactic(auto)]

mod budget;
mod memory;
mod name;
mod place;
mod shared;
mod shell_name;
mod source;
mod text;
mod words;

pub use budget::Budget;
pub use memory::Memory;
pub use name::{Name, NameFault};
pub use place::Place;
pub use shared::Shared;
pub use shell_name::ShellName;
pub use source::{BytesSource, Failed, FileSource, ReadRefused, Source, read_script};
pub use sqlite_items::{Boxed, Items};
pub use text::Text;
pub use words::{
    DEFAULT_BUDGET, LARGEST_BUDGET, Plan, ScriptFrom, UsageFault, UsageKind, WordsRefused,
    copy_texts, read_words,
};

#[cfg(test)]
mod tests {
    use super::*;
    use std::test::Fail;

    #[test]
    fn each_call_succeeds_once(rt: HostRuntime) -> Result<(), Fail> {
        let alloc = rt.alloc();
        let mut text = Text::of(alloc, b"ab")?;
        text.push(b'c')?;
        text.append(b"de")?;
        assert!(rt; text.bytes() == b"abcde".as_slice() && text.len() == 5 && !text.is_empty());
        assert!(rt; Text::empty(alloc).is_empty());
        let copy = text.copy(alloc)?;
        assert!(rt; copy == text && copy <= text);
        assert!(rt; Text::from_vec(Vec::from_slice(alloc, b"abd")?) > text);
        let texts = copy_texts(alloc, &[text, copy])?;
        assert!(rt; texts.len() == 2);

        let name = Name::read(alloc, b"x1")?;
        assert!(rt; name.copy(alloc)? == name);

        let root = ShellName::root(alloc);
        let child = root.child(alloc, 3)?.child(alloc, 1)?;
        assert!(rt; child.forks() == [3, 1].as_slice());
        assert!(rt; child.copy(alloc)? == child && root < child);

        let mut budget = Budget::new(5);
        assert!(rt; !budget.spend(6) && budget.spend(2) && budget.left() == 3);

        let shared = Shared::new(alloc, 7u32)?;
        assert!(rt; *shared.copy()?.get() == *shared.get());
        Ok(())
    }
}
