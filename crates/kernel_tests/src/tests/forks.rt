// Forks and their ends.
use super::differs_at;
use std::test::Fail;

const KEPT: &[u8] = b"\
0 pipe: Pair(Handle(3), Handle(4))
0 fork 4 4: Forked(1)
1 write 1 a: Refused(BadHandle)
1 dup 4: Opened(Handle(5))
1 read 3 1: Refused(BadHandle)
0 close 4: Closed
1 write 4 a: Taken
0 read 3 2: waits
1 end: ended
0 read 3 2: Bytes <a>
0 fork 9: Refused(BadHandle)
0 fork 0 4: Refused(BadHandle)
0 fork: Forked(2)
2 open read /dev/null: Opened(Handle(5))
0 dup 0: Opened(Handle(5))";

#[test]
fn a_fork_has_the_handles_that_are_kept(rt: HostRuntime) -> Result<(), Fail> {
    assert_eq!(rt; differs_at(rt.alloc(), KEPT)?, 0);
    Ok(())
}

const WAITED: &[u8] = b"\
0 fork: Forked(1)
0 phase 1: made
0 phase 2: none
0 poll 1: Refused(BadHandle)
0 poll 0: Refused(BadHandle)
0 begin 1: done
0 begin 1: no
0 poll 1: Running
0 wait-shell 1: waits
0 phase 1: begun
1 end: ended
1 dup 1: gone
0 poll 1: Over
0 wait-shell 1: ended
0 wait-shell 1: no
0 phase 1: waited
0 poll 1: Over";

#[test]
fn a_fork_is_marked_and_waited_for(rt: HostRuntime) -> Result<(), Fail> {
    assert_eq!(rt; differs_at(rt.alloc(), WAITED)?, 0);
    Ok(())
}

const UNRUN: &[u8] = b"\
0 fork 1: Forked(1)
0 no-thread 1: done
0 phase 1: unrun
0 wait-shell 1: no
0 poll 1: Refused(BadHandle)
0 fork 1 3: Refused(BadHandle)
0 fork: Forked(2)";

#[test]
fn a_fork_without_a_thread_is_unrun(rt: HostRuntime) -> Result<(), Fail> {
    assert_eq!(rt; differs_at(rt.alloc(), UNRUN)?, 0);
    Ok(())
}
