// List and Stat.
ghost use Rattle.std.specs.Prelude.{◌≡◌, IfOk, drop};
ghost use Rattle.std.specs.Option.{option_copied};
ghost use Rattle.std.specs.List.{filter_map};
ghost use Rattle.kernel_core.specs.Look.{facts, front_of, list_refusal, list_turn, name_in, name_of, names_in, stat_turn};
ghost use Rattle.kernel_core.specs.Turn.{Does};

use crate::kernel::{Kernel, refuse};
use kernel_ask::{Answer, FileFacts, Refusal, Texts};
use kernel_objects::{Files, Node, refused_before};
use ksh_base::{Items, Memory, ShellName, Text};
use std::alloc::Global;

fn facts(node: &Node) -> FileFacts
    ensures { result ≡ facts node.now }
{
    let (folder, plain, size, readable, writable, runnable) = match node {
        Node::Folder => (true, false, 0, true, true, true),
        Node::File { bytes, writable } => (false, true, bytes.len() as u64, true, *writable, false),
        Node::Program { .. } => (false, true, 0, false, false, true),
        Node::Null => (false, false, 0, true, true, false),
    };
    FileFacts {
        folder,
        plain,
        size,
        readable,
        writable,
        runnable,
    }
}

fn list_refusal(before: Option<Refusal>, node: Option<&Node>) -> Option<Refusal>
    ensures { result ≡ list_refusal before (option_copied node.entry) }
{
    match (before, node) {
        (Some(Refusal::NotDir), _) => Some(Refusal::NotDir),
        (_, Some(Node::Folder)) => before,
        (_, Some(_)) => Some(Refusal::NotDir),
        (_, None) => Some(Refusal::NoEntry),
    }
}

// What stands in a path before the names in a folder.
fn front_of(alloc: Global, folder: &Text) -> Result<Text, Memory>
    ensures { IfOk result (λ t. t ≡ front_of folder.now) }
{
    let mut front = folder.copy(alloc)?;
    if folder.bytes() != b"/".as_slice() {
        front.push(b'/')?;
    }
    Ok(front)
}

fn name_of(bytes: &[u8]) -> Option<&[u8]>
    ensures { option_copied result ≡ name_of bytes.now }
{
    if bytes.is_empty() || bytes.contains(&b'/') {
        None
    } else {
        Some(bytes)
    }
}

fn name_in<'a>(front: &[u8], path: &'a [u8]) -> Option<&'a [u8]>
    ensures { option_copied result ≡ name_in front.now path.now }
{
    if path.starts_with(front) {
        name_of(&path[front.len()..])
    } else {
        None
    }
}

fn names_in(alloc: Global, files: &Files, folder: &Text) -> Result<Texts, Memory>
    ensures { IfOk result (λ names. names ≡ names_in files.now folder.now) }
{
    let front = front_of(alloc, folder)?;
    let mut names = Items::new(alloc);
    for (path, _) in files.iter() {
        if let Some(name) = name_in(front.bytes(), path.bytes()) {
            names.push(Text::of(alloc, name)?)?;
        }
    }
    Ok(names)
}

impl Kernel {
    /// What is known of the file at a path.
    pub(crate) fn stat(
        &self,
        alloc: Global,
        who: &ShellName,
        path: &Text,
    ) -> Result<Option<Answer>, Memory>
        ensures { Does (stat_turn self.now who.now path.now) result self.now self.now }
    {
        if !self.shells.has(who) {
            return Ok(None);
        }
        if let Some(why) = refused_before(&self.stores.files, alloc, path)? {
            return Ok(refuse(why));
        }
        let Some(node) = self.stores.files.get(path) else {
            return Ok(refuse(Refusal::NoEntry));
        };
        Ok(Some(Answer::Facts(facts(node))))
    }

    /// The names in the folder at a path.
    pub(crate) fn list(
        &self,
        alloc: Global,
        who: &ShellName,
        path: &Text,
    ) -> Result<Option<Answer>, Memory>
        ensures { Does (list_turn self.now who.now path.now) result self.now self.now }
    {
        if !self.shells.has(who) {
            return Ok(None);
        }
        let before = refused_before(&self.stores.files, alloc, path)?;
        if let Some(why) = list_refusal(before, self.stores.files.get(path)) {
            return Ok(refuse(why));
        }
        let names = names_in(alloc, &self.stores.files, path)?;
        Ok(Some(Answer::Names(names)))
    }
}
