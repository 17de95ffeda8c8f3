// Which plans open.
use kernel_core::Kernel;
use kernel_objects::{BoxEntry, BoxFault, BoxPlan};
use ksh_base::{Items, Memory, Text};
use std::alloc::Global;
use std::test::Fail;

// A plan of the folders at these paths, and the entry at another.
pub(crate) fn plan(
    alloc: Global,
    folders: &[&[u8]],
    path: &[u8],
    entry: BoxEntry,
) -> Result<BoxPlan, Memory> {
    let mut entries = Items::new(alloc);
    for folder in folders {
        let folder = Text::of(alloc, folder)?;
        entries.push((folder, BoxEntry::Folder))?;
    }
    let path = Text::of(alloc, path)?;
    entries.push((path, entry))?;
    let input = Text::of(alloc, b"in")?;
    Ok(BoxPlan {
        entries,
        input,
        refusals: Items::new(alloc),
        patience: None,
    })
}

// A plan of `/` and the file `/f`.
pub(crate) fn with_file(alloc: Global, bytes: Text, writable: bool) -> Result<BoxPlan, Memory> {
    plan(alloc, &[b"/"], b"/f", BoxEntry::Plain { bytes, writable })
}

pub(crate) fn zeros(alloc: Global, many: usize) -> Result<Text, Memory> {
    let mut bytes = Vec::new(alloc);
    bytes.resize(many, 0)?;
    Ok(Text::from_vec(bytes))
}

// Why the plan of `/` and those folders doesn't open.
fn fault(alloc: Global, folders: &[&[u8]]) -> Result<Option<BoxFault>, Memory> {
    let plan = plan(alloc, folders, b"/last", BoxEntry::Null)?;
    Ok(Kernel::new(alloc, plan).err())
}

fn fault_of(alloc: Global, entry: BoxEntry) -> Result<Option<BoxFault>, Memory> {
    let plan = plan(alloc, &[b"/"], b"/last", entry)?;
    Ok(Kernel::new(alloc, plan).err())
}

#[test]
fn a_path_is_absolute_and_plain(rt: HostRuntime) -> Result<(), Fail> {
    let bad: [&[u8]; 6] = [b"", b"a", b"/a/", b"/a//b", b"/.", b"/a/.."];
    for path in bad {
        assert!(rt; fault(rt.alloc(), &[b"/", path])? == Some(BoxFault::BadPath(1)));
    }
    let fine: [&[u8]; 3] = [b"/a", b"/..a", b"/a."];
    for path in fine {
        assert!(rt; fault(rt.alloc(), &[b"/", path])?.is_none());
    }
    Ok(())
}

#[test]
fn a_path_stands_once_in_its_folder(rt: HostRuntime) -> Result<(), Fail> {
    let alloc = rt.alloc();
    assert!(rt; fault(alloc, &[b"a"])? == Some(BoxFault::BadPath(0)));
    assert!(rt; fault(alloc, &[b"/", b"/a", b"/a"])? == Some(BoxFault::Doubled(2)));
    assert!(rt; fault(alloc, &[b"/", b"/"])? == Some(BoxFault::Doubled(1)));
    assert!(rt; fault(alloc, &[b"/", b"/a/b", b"x"])? == Some(BoxFault::NoFolder(1)));
    assert!(rt; fault(alloc, &[b"/a", b"/"])? == Some(BoxFault::NoFolder(0)));
    Ok(())
}

fn program(alloc: Global, many: usize) -> Result<BoxEntry, Memory> {
    let output = zeros(alloc, many)?;
    Ok(BoxEntry::Program { output, status: 0 })
}

fn file(alloc: Global, many: usize) -> Result<BoxEntry, Memory> {
    let bytes = zeros(alloc, many)?;
    Ok(BoxEntry::Plain {
        bytes,
        writable: true,
    })
}

#[test]
fn an_entry_is_too_long_past_its_limit(rt: HostRuntime) -> Result<(), Fail> {
    let alloc = rt.alloc();
    let long = Some(BoxFault::TooLong(1));
    assert!(rt; fault_of(alloc, program(alloc, 4096)?)?.is_none());
    assert!(rt; fault_of(alloc, program(alloc, 4097)?)? == long);
    assert!(rt; fault_of(alloc, file(alloc, 16_777_216)?)?.is_none());
    assert!(rt; fault_of(alloc, file(alloc, 16_777_217)?)? == long);
    Ok(())
}
