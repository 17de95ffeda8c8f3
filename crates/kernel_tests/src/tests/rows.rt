// The rows of the asks, each refusal in its order.
use super::{differs, differs_at, plans, standard};
use kernel_core::Kernel;
use ksh_base::Text;
use std::test::Fail;

const PIPE: &[u8] = b"\
0 pipe: Pair(Handle(3), Handle(4))
0 write 4 abc: Taken
0 read 3 4: waits
0 read 3 3: Bytes <abc>
0 read 3 4: waits
0 read 3 0: Bytes <>
0 read 4 1: Refused(BadHandle)
0 read 9 1: Refused(BadHandle)
0 write 3 a: Refused(BadHandle)
0 write 9 a: Refused(BadHandle)
0 write 4 d: Taken
0 close 4: Closed
0 read 3 4: Bytes <d>
0 read 3 4: Bytes <>
0 close 4: Refused(BadHandle)
0 close 3: Closed
0 pipe: Pair(Handle(5), Handle(6))";

#[test]
fn a_pipe_gives_what_was_put_in(rt: HostRuntime) -> Result<(), Fail> {
    assert_eq!(rt; differs_at(rt.alloc(), PIPE)?, 0);
    Ok(())
}

const BROKEN: &[u8] = b"\
0 pipe: Pair(Handle(3), Handle(4))
0 dup 3: Opened(Handle(5))
0 close 3: Closed
0 write 4 a: Taken
0 close 5: Closed
0 write 4 a: Refused(Broken)
0 write 4: Refused(Broken)
0 start /bin/fail - 4 -: Refused(Broken)
0 close 4: Closed
0 write 4 a: Refused(BadHandle)";

#[test]
fn a_pipe_without_reader_is_broken(rt: HostRuntime) -> Result<(), Fail> {
    assert_eq!(rt; differs_at(rt.alloc(), BROKEN)?, 0);
    Ok(())
}

const OPEN: &[u8] = b"\
0 open read /bin/hello/x/y: Refused(NotDir)
0 open write /dev/null/x: Refused(NotDir)
0 open write /no/x: Refused(NoEntry)
0 open new /no/x/y: Refused(NoEntry)
0 open read /tmp/no: Refused(NoEntry)
0 open new /tmp: Refused(IsDir)
0 open read /: Refused(IsDir)
0 open append /bin: Refused(IsDir)
0 open new /bin/hello: Refused(Exists)
0 open new /dev/null: Refused(Exists)
0 open read /bin/hello: Refused(Denied)
0 open append /bin/hello: Refused(Denied)
0 open both /dev/null: Opened(Handle(3))
0 read 3 4: Bytes <>
0 write 3 gone: Taken
0 read 3 4: Bytes <>
0 open new /tmp/new: Opened(Handle(4))
0 open new /tmp/new: Refused(Exists)
0 read 4 1: Refused(BadHandle)
0 open read /tmp/new: Opened(Handle(5))
0 write 5 a: Refused(BadHandle)";

#[test]
fn open_refuses_in_order(rt: HostRuntime) -> Result<(), Fail> {
    assert_eq!(rt; differs_at(rt.alloc(), OPEN)?, 0);
    Ok(())
}

const READ_ONLY: &[u8] = b"\
0 open write /f: Refused(Denied)
0 open append /f: Refused(Denied)
0 open both /f: Refused(Denied)
0 open new /f: Refused(Exists)
0 open write /f/x: Refused(NotDir)
0 open read /f: Opened(Handle(3))
0 read 3 2: Bytes <ab>
0 read 3 2: Bytes <c>
0 read 3 2: Bytes <>
0 stat /f: Facts -pr-- 3
0 start /f - - -: Refused(Denied)
0 read 0 9: Bytes <in>
0 read 0 9: Bytes <>";

#[test]
fn a_file_that_is_not_writable_is_only_read(rt: HostRuntime) -> Result<(), Fail> {
    let alloc = rt.alloc();
    let bytes = Text::of(alloc, b"abc")?;
    let plan = plans::with_file(alloc, bytes, false)?;
    let mut kernel = Kernel::new(alloc, plan)?;
    assert_eq!(rt; differs(alloc, &mut kernel, READ_ONLY)?, 0);
    Ok(())
}

const MODES: &[u8] = b"\
0 open write /tmp/f: Opened(Handle(3))
0 write 3 abcd: Taken
0 open both /tmp/f: Opened(Handle(4))
0 write 4 x: Taken
0 read 4 2: Bytes <bc>
0 open append /tmp/f: Opened(Handle(5))
0 write 5 e: Taken
0 read 4 9: Bytes <de>
0 open write /tmp/f: Opened(Handle(6))
0 stat /tmp/f: Facts -prw- 0
0 write 3 z: Taken
0 open read /tmp/f: Opened(Handle(7))
0 read 7 9: Bytes <\0\0\0\0z>";

#[test]
fn each_mode_begins_at_its_place(rt: HostRuntime) -> Result<(), Fail> {
    let alloc = rt.alloc();
    let mut kernel = standard(alloc)?;
    assert_eq!(rt; differs(alloc, &mut kernel, MODES)?, 0);
    let files = kernel.files(alloc)?;
    assert_eq!(rt; files.len(), 1);
    let (path, bytes) = &files.as_slice()[0];
    assert!(rt; path.bytes() == b"/tmp/f".as_slice());
    assert!(rt; bytes.bytes() == b"\0\0\0\0z".as_slice());
    Ok(())
}

const SCRATCH: &[u8] = b"\
0 open scratch /no/path: Pair(Handle(3), Handle(4))
0 write 4 abcd: Taken
0 dup 3: Opened(Handle(5))
0 read 3 1: Bytes <a>
0 read 5 1: Bytes <b>
0 write 4 e: Taken
0 read 3 9: Bytes <cde>
0 read 4 1: Refused(BadHandle)
0 write 3 a: Refused(BadHandle)
0 dup 9: Refused(BadHandle)
0 close 9: Refused(BadHandle)
0 list /tmp: Names";

#[test]
fn a_dup_shares_its_place_and_scratch_has_two(rt: HostRuntime) -> Result<(), Fail> {
    assert_eq!(rt; differs_at(rt.alloc(), SCRATCH)?, 0);
    Ok(())
}

const LOOKS: &[u8] = b"\
0 list /: Names bin dev tmp
0 list /bin: Names fail hello
0 list /tmp: Names
0 list /bin/fail: Refused(NotDir)
0 list /dev/null/a/b: Refused(NotDir)
0 list /no: Refused(NoEntry)
0 list /no/a: Refused(NoEntry)
0 stat /bin/hello/a: Refused(NotDir)
0 stat /no/a: Refused(NoEntry)
0 stat /tmp/no: Refused(NoEntry)
0 open append /tmp/f: Opened(Handle(3))
0 write 3 abc: Taken
0 stat /tmp/f: Facts -prw- 3
0 stat /tmp: Facts d-rwx 0
0 stat /: Facts d-rwx 0
0 stat /bin/hello: Facts -p--x 0
0 stat /dev/null: Facts --rw- 0";

#[test]
fn list_and_stat_look(rt: HostRuntime) -> Result<(), Fail> {
    assert_eq!(rt; differs_at(rt.alloc(), LOOKS)?, 0);
    Ok(())
}

const PROGRAMS: &[u8] = b"\
0 start /dev/null/a - 9 -: Refused(NotDir)
0 start /no/a - 9 -: Refused(NoEntry)
0 start /bin/no - 9 -: Refused(NoEntry)
0 start /bin - 9 -: Refused(IsDir)
0 start /dev/null - 9 -: Refused(Denied)
0 start /bin/hello 9 1 2: Refused(BadHandle)
0 start /bin/hello 1 1 2: Refused(BadHandle)
0 start /bin/hello 0 0 2: Refused(BadHandle)
0 start /bin/hello 0 1 0: Refused(BadHandle)
0 start /bin/hello 0 1 2: Started(1)
0 start /bin/fail - - -: Started(2)
0 start /bin/hello - - 2: Started(3)
0 wait 2: ProgramEnded(3)
0 wait 2: Refused(BadHandle)
0 wait 4: Refused(BadHandle)
0 wait 1: ProgramEnded(0)
0 write 2 oh: Taken
0 write 1 you: Taken";

#[test]
fn a_program_puts_out_at_once(rt: HostRuntime) -> Result<(), Fail> {
    let alloc = rt.alloc();
    let mut kernel = standard(alloc)?;
    assert_eq!(rt; differs(alloc, &mut kernel, PROGRAMS)?, 0);
    assert!(rt; kernel.output() == b"hello\nyou".as_slice());
    assert!(rt; kernel.errors() == b"oh".as_slice());
    Ok(())
}
