ghost use Rattle.std.specs.Prelude.{◌≡◌, IfOk, codes};
ghost use Rattle.std.specs.Option.{option_copied};
ghost use Rattle.kernel_objects.specs.Paths.{node_at, root_or, prefix_refusal};

use kernel_ask::Refusal;
use kernel_tables::{FileBytes, Table};
use ksh_base::{Memory, Text};
use std::alloc::Global;

/// What stands at a path.
#[derive(Drop)]
pub enum Node {
    Folder,
    File { bytes: FileBytes, writable: bool },
    Program { output: Text, status: u8 },
    Null,
}

/// What has a path, rising by path.
pub type Files = Table<Text, Node>;

/// Why nothing can be reached at the path, whatever stands there: NotDir where a proper prefix is
/// no folder, else NoEntry where one is missing.
pub fn refused_before(files: &Files, alloc: Global, path: &Text) -> Result<Option<Refusal>, Memory>
    ensures { IfOk result (λ r. r ≡ prefix_refusal files.now path.now) }
{
    let root = Text::of(alloc, b"/")?;
    if *path == root {
        return Ok(None);
    }
    let mut front = Text::empty(alloc);
    let mut missing = false;
    for byte in path.bytes() {
        if *byte == b'/' {
            match prefix_at(files, &root, &front) {
                Some(Node::Folder) => {}
                Some(_) => return Ok(Some(Refusal::NotDir)),
                None => missing = true,
            }
        }
        front.push(*byte)?;
    }
    Ok(if missing {
        Some(Refusal::NoEntry)
    } else {
        None
    })
}

// The node at a prefix. Before the first `/` it is that of `/`.
#[tactic(auto, using(crate::proofs::Prefixes::itself))]
fn prefix_at<'a>(files: &'a Files, root: &Text, front: &Text) -> Option<&'a Node>
    requires { root.now ≡ codes "/" }
    ensures { option_copied result ≡ node_at files.now (root_or front.now) }
{
    if front.len() == 0 {
        files.get(root)
    } else {
        files.get(front)
    }
}
