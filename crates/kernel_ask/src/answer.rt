// Copies of answers.
ghost use Rattle.std.specs.Prelude.{◌≡◌, IfOk};

use crate::ask::{Answer, Texts};
use ksh_base::{Items, Memory, Text};
use std::alloc::Global;

impl Answer {
    /// An answer that equals this.
    pub fn copy(&self, alloc: Global) -> Result<Answer, Memory>
        ensures { IfOk result (λ a. a ≡ self.now) }
    {
        Ok(match self {
            Answer::Opened(handle) => Answer::Opened(*handle),
            Answer::Pair(read, write) => Answer::Pair(*read, *write),
            Answer::Bytes(text) => Answer::Bytes(text.copy(alloc)?),
            Answer::Taken => Answer::Taken,
            Answer::Closed => Answer::Closed,
            Answer::Names(texts) => Answer::Names(copy_texts(alloc, texts.as_slice())?),
            Answer::Facts(facts) => Answer::Facts(*facts),
            Answer::Started(number) => Answer::Started(*number),
            Answer::ProgramEnded(status) => Answer::ProgramEnded(*status),
            Answer::Running => Answer::Running,
            Answer::Over => Answer::Over,
            Answer::Forked(number) => Answer::Forked(*number),
            Answer::Begun => Answer::Begun,
            Answer::NoThread => Answer::NoThread,
            Answer::ShellEnded(status) => Answer::ShellEnded(*status),
            Answer::Refused(why) => Answer::Refused(*why),
        })
    }
}

fn copy_texts(alloc: Global, texts: &[Text]) -> Result<Texts, Memory>
    ensures { IfOk result (λ copies. copies ≡ texts.now) }
{
    let mut copies = Items::new(alloc);
    for text in texts {
        copies.push(text.copy(alloc)?)?;
    }
    Ok(copies)
}
