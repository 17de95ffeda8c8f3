// The limits of a box. The last number of a handle and of a program isn't reached by asks in reasonable time: a law says
// what is answered there.
use super::plans::{plan, with_file, zeros};
use super::{differs, is_so, standard};
use kernel_core::Kernel;
use kernel_objects::{BoxEntry, BoxPlan};
use ksh_base::{Memory, Text};
use std::alloc::Global;
use std::test::Fail;

// Whether so many bytes are taken by the root's handle 4.
fn takes(alloc: Global, kernel: &mut Kernel, many: usize) -> Result<bool, Fail> {
    let mut row = Vec::new(alloc);
    row.extend_from_slice(b"0 write 4 ")?;
    row.resize(row.len().saturating_add(many), b'a')?;
    row.extend_from_slice(b": Taken")?;
    is_so(alloc, kernel, row.as_slice())
}

const FILLED: &[u8] = b"\
0 write 4 a: waits
0 start /bin/hello - 4 -: waits
0 write 4: Taken
0 read 3 1: Bytes <a>
0 write 4 a: Taken
0 write 4 a: waits";

#[test]
fn a_pipe_holds_65536_bytes(rt: HostRuntime) -> Result<(), Fail> {
    let alloc = rt.alloc();
    let mut kernel = standard(alloc)?;
    assert!(rt; is_so(alloc, &mut kernel, b"0 pipe: Pair(Handle(3), Handle(4))")?);
    assert!(rt; !takes(alloc, &mut kernel, 65_537)?);
    assert!(rt; takes(alloc, &mut kernel, 65_536)?);
    assert_eq!(rt; differs(alloc, &mut kernel, FILLED)?, 0);
    Ok(())
}

const LONGEST: &[u8] = b"\
0 open append /f: Opened(Handle(3))
0 write 3 a: Refused(Io)
0 write 3: Taken
0 open both /f: Opened(Handle(4))
0 write 4 a: Taken
0 stat /f: Facts -prw- 16777216";

#[test]
fn a_file_has_16777216_bytes(rt: HostRuntime) -> Result<(), Fail> {
    let alloc = rt.alloc();
    let plan = with_file(alloc, zeros(alloc, 16_777_216)?, true)?;
    let mut kernel = Kernel::new(alloc, plan)?;
    assert_eq!(rt; differs(alloc, &mut kernel, LONGEST)?, 0);
    Ok(())
}

// How often the row is answered otherwise before it is so, and that often at most.
fn before(alloc: Global, kernel: &mut Kernel, row: &[u8], most: usize) -> Result<usize, Fail> {
    for often in 0..most {
        if is_so(alloc, kernel, row)? {
            return Ok(often);
        }
    }
    Ok(most)
}

const HANDLES: &[u8] = b"\
0 dup 2000: Refused(BadHandle)
0 pipe: Refused(TooMany)
0 open scratch x: Refused(TooMany)
0 open read /bin/fail: Refused(Denied)
0 open read /dev/null: Refused(TooMany)
0 close 5: Closed
0 pipe: Refused(TooMany)
0 open scratch x: Refused(TooMany)
0 open read /dev/null: Opened(Handle(1024))
0 open read /dev/null: Refused(TooMany)";

#[test]
fn a_shell_holds_1024_handles(rt: HostRuntime) -> Result<(), Fail> {
    let alloc = rt.alloc();
    let mut kernel = standard(alloc)?;
    assert_eq!(rt;
        before(alloc, &mut kernel, b"0 dup 0: Refused(TooMany)", 2000)?,
        1021
    );
    assert_eq!(rt; differs(alloc, &mut kernel, HANDLES)?, 0);
    Ok(())
}

const SHELLS: &[u8] = b"\
4095 end: ended
0 fork 9: Refused(TooMany)
0 fork: Refused(TooMany)";

#[test]
fn a_box_has_4096_shells(rt: HostRuntime) -> Result<(), Fail> {
    let alloc = rt.alloc();
    let mut kernel = standard(alloc)?;
    assert_eq!(rt;
        before(alloc, &mut kernel, b"0 fork: Refused(TooMany)", 5000)?,
        4095
    );
    assert_eq!(rt; differs(alloc, &mut kernel, SHELLS)?, 0);
    Ok(())
}

// A plan of `/` and so many entries in it.
fn many_entries(alloc: Global, many: u32) -> Result<BoxPlan, Fail> {
    let mut plan = plan(alloc, &[], b"/", BoxEntry::Folder)?;
    for number in 0..many {
        let path = format!(in alloc; "/{number}")?;
        let path = Text::of(alloc, path.as_bytes())?;
        add(&mut plan, path)?;
    }
    Ok(plan)
}

fn add(plan: &mut BoxPlan, path: Text) -> Result<(), Memory> {
    plan.entries.push((path, BoxEntry::Null))?;
    Ok(())
}

const FILES: &[u8] = b"\
0 open scratch x: Pair(Handle(3), Handle(4))
0 open scratch x: Refused(TooMany)
0 open write /x: Refused(TooMany)
0 open write /7: Opened(Handle(5))
0 close 3: Closed
0 open write /x: Refused(TooMany)
0 close 4: Closed
0 open write /x: Opened(Handle(6))
0 close 6: Closed
0 open scratch x: Refused(TooMany)
0 open new /y: Refused(TooMany)
0 open write /x: Opened(Handle(7))";

#[test]
fn a_box_has_65536_files(rt: HostRuntime) -> Result<(), Fail> {
    let alloc = rt.alloc();
    let plan = many_entries(alloc, 65_534)?;
    let mut kernel = Kernel::new(alloc, plan)?;
    assert_eq!(rt; differs(alloc, &mut kernel, FILES)?, 0);
    Ok(())
}
