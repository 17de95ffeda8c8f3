// The world of the tests.
ghost use Rattle.std.specs.Prelude.{◌≡◌, true, [], IfOk, IfNone, get_or, if◌then◌else◌, OnOk};
ghost use Rattle.kernel_ask.specs.Listed.{answers_for, unlisted};
ghost use Rattle.kernel_ask.specs.Seen.{root_of};

use crate::ask::{Answer, Call, Refusal, Snapshot};
use crate::list_port::ListPort;
use crate::port::World;
use ksh_base::{Memory, Shared, ShellName};
use std::alloc::Global;

/// A world in memory that gives listed answers, and tells every transcript.
///
/// A listed shell gets the answers of its list to its calls, in order. After them, and in a shell
/// that isn't listed, a Write is answered Taken, a Close is answered Closed, and every other call
/// is refused as Io.
#[derive(Drop)]
pub struct ListWorld {
    lists: Vec<(ShellName, Vec<Answer>)>,
}

impl ListWorld {
    /// The world with these answers. Of two lists of one name the first counts.
    pub fn new(answers: Vec<(ShellName, Vec<Answer>)>) -> ListWorld
        ensures { result.lists ≡ answers }
    {
        ListWorld { lists: answers }
    }
}

impl<F: Snapshot + Send + 'static> World<F> for ListWorld {
    type Port = ListPort<F>;

    ghost origin = { λ _. 0 };

    ghost told = { λ _. true };

    fn root(self, alloc: Global) -> Result<ListPort<F>, Memory> {
        let lists = Shared::new(alloc, self.lists)?;
        Ok(ListPort::new(alloc, ShellName::root(alloc), lists))
    }
}

/// The answers that are listed for a shell.
pub(crate) fn answers_of<'a>(
    lists: &'a [(ShellName, Vec<Answer>)],
    name: &ShellName,
) -> &'a [Answer]
    ensures { result.now ≡ answers_for lists.now name.now }
{
    for (listed, answers) in lists {
        if listed == name {
            return answers.as_slice();
        }
    }
    &[]
}

/// The answer where none is listed.
pub(crate) fn default_answer(call: &Call) -> Answer
    ensures { result ≡ unlisted call.now }
{
    match call {
        Call::Write { .. } => Answer::Taken,
        Call::Close { .. } => Answer::Closed,
        _ => Answer::Refused(Refusal::Io),
    }
}

#[cfg(test)]
mod tests {
    use super::*;
    use crate::ask::{Entry, Handle, Phase};
    use crate::port::Port;
    use ksh_base::Text;
    use std::test::Fail;

    #[derive(Debug, Drop)]
    struct Start {
        line: u32,
    }

    impl Snapshot for Start {
        fn fork(&self, _alloc: Global) -> Result<Start, Memory> {
            Ok(Start { line: self.line })
        }
    }

    fn text(alloc: Global, bytes: &[u8]) -> Result<Text, Memory> {
        Text::of(alloc, bytes)
    }

    fn stat(alloc: Global) -> Result<Call, Memory> {
        Ok(Call::Stat {
            path: text(alloc, b"/tmp")?,
        })
    }

    fn write(alloc: Global) -> Result<Call, Memory> {
        Ok(Call::Write {
            handle: Handle(1),
            bytes: text(alloc, b"x")?,
        })
    }

    // The answers as the debugger shows them, one a line.
    fn shown(alloc: Global, entries: &[Entry<Start>]) -> Result<String, std::fmt::Error> {
        let mut all = String::new(alloc);
        for entry in entries {
            write!(all, "{:?}\n", entry.answer)?;
        }
        Ok(all)
    }

    // One list: for the root.
    fn root_answers(alloc: Global) -> Result<Vec<(ShellName, Vec<Answer>)>, Memory> {
        let mut answers = Vec::new(alloc);
        answers.push(Answer::Opened(Handle(3)))?;
        answers.push(Answer::Refused(Refusal::NoEntry))?;
        let mut lists = Vec::new(alloc);
        lists.push((ShellName::root(alloc), answers))?;
        Ok(lists)
    }

    fn act_for(
        alloc: Global,
        lists: Vec<(ShellName, Vec<Answer>)>,
    ) -> Result<ListPort<Start>, Memory> {
        let mut port: ListPort<Start> = ListWorld::new(lists).root(alloc)?;
        port.act(alloc, write(alloc)?)?;
        port.act(alloc, stat(alloc)?)?;
        port.act(alloc, write(alloc)?)?;
        port.act(alloc, Call::Close { handle: Handle(3) })?;
        port.act(alloc, stat(alloc)?)?;
        port.act(alloc, Call::Pipe)?;
        Ok(port)
    }

    #[test]
    fn a_shell_gets_its_list_and_then_the_rest(rt: HostRuntime) -> Result<(), Fail> {
        let alloc = rt.alloc();
        let port = act_for(alloc, root_answers(alloc)?)?;
        let want = "Opened(Handle(3))\nRefused(NoEntry)\nTaken\nClosed\nRefused(Io)\nRefused(Io)\n";
        assert!(rt; shown(alloc, port.entries())?.as_str() == want);
        assert_eq!(rt; port.refusals(), 3);
        Ok(())
    }

    // Lists for the forks 1 and 1.1 of the root.
    fn family_answers(alloc: Global) -> Result<Vec<(ShellName, Vec<Answer>)>, Memory> {
        let child = ShellName::root(alloc).child(alloc, 1)?;
        let grandchild = child.child(alloc, 1)?;
        let mut lists = Vec::new(alloc);
        let mut answers = Vec::new(alloc);
        answers.push(Answer::Started(5))?;
        lists.push((grandchild, answers))?;
        let mut answers = Vec::new(alloc);
        answers.push(Answer::Bytes(text(alloc, b"a")?))?;
        lists.push((child, answers))?;
        Ok(lists)
    }

    // A call, a fork that is given up, and the end; the fork's port comes back.
    fn run_child(alloc: Global, port: &mut ListPort<Start>) -> Result<ListPort<Start>, Fail>
        requires live { port.old.live ≡ true }
        requires none { port.old.children.items ≡ [] }
    {
        port.act(alloc, stat(alloc)?)?;
        let (number, mut child) = port.fork(alloc, Start { line: 2 }, &[])?;
        child.act(alloc, stat(alloc)?)?;
        port.mark(number, false);
        port.end();
        Ok(child)
    }

    #[test]
    fn each_shell_of_a_family_has_its_own_list(rt: HostRuntime) -> Result<(), Fail> {
        let alloc = rt.alloc();
        let world = ListWorld::new(family_answers(alloc)?);
        let mut root: ListPort<Start> = world.root(alloc)?;
        let (number, mut child) = root.fork(alloc, Start { line: 1 }, &[Handle(1)])?;
        root.mark(number, true);
        let grandchild = run_child(alloc, &mut child)?;
        root.act(alloc, stat(alloc)?)?;
        root.waited(number, 7);
        let want = "Forked(1)\nBegun\nRefused(Io)\nShellEnded(7)\n";
        assert!(rt; shown(alloc, root.entries())?.as_str() == want);
        assert!(rt; root.children() == [Phase::Waited].as_slice());
        let want = "Bytes(Text { bytes: [97] })\nForked(1)\nNoThread\n";
        assert!(rt; shown(alloc, child.entries())?.as_str() == want);
        assert!(rt; child.children() == [Phase::Unrun].as_slice());
        assert!(rt; shown(alloc, grandchild.entries())?.as_str() == "Started(5)\n");
        assert!(rt; grandchild.name().forks() == [1, 1].as_slice());
        assert!(rt; root.live() && !child.live() && grandchild.live());
        assert!(rt; root.refusals() == 1 && child.refusals() == 0);
        Ok(())
    }
}
