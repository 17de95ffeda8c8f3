ghost use Rattle.std.specs.Prelude.{ℕ, List, Option, ◌≡◌, ◌<◌, ◌≤◌, ◌+◌, ◌++◌, ◌-◌, ◌^◌, ◌↔◌, min, take, drop, vec_len, length, IfOk, OnOk, OnErr, IsErr, Contains, Some, None, option_map, IfSome, IsErrOf};
ghost use Rattle.ksh_base.specs.Source.{HasCause, ReadsLeft, Rose, SameTold};

use crate::memory::Memory;
use crate::text::Text;
use std::alloc::Global;
use std::io::Read;
use std::marker::Model;
use std::rt::Files;
use std::{fs, io};
use thiserror::Error;

/// A read failed.
#[derive(Clone, Copy, Debug, PartialEq, Eq, Error)]
#[error("a read failed")]
pub struct Failed;

/// Where a script's bytes come from.
pub trait Source {
    /// The bytes that are left, where it tells them.
    ghost left: { Self → Option (List ℕ) };

    /// How often a read has failed.
    ghost faults: { Self → ℕ };

    /// Puts bytes from the front of what is left into the front of `into`, and says how many; none
    /// only at the end.
    fn read(&mut self, into: &mut [u8]) -> Result<usize, Failed>
        requires { 0 < length into.old }
        ensures bytes { IfOk result (λ n. ReadsLeft (left self.old) (left self.new) n into.new) }
        ensures told { SameTold (left self.old) (left self.new) }
        ensures cause { HasCause (faults self.old) (faults self.new) result };
}

/// A source over bytes, some of whose reads fail.
#[derive(Drop)]
pub struct BytesSource {
    bytes: Text,
    at: usize,
    reads: u64,
    fails: Vec<u64>,
    faults: u64,
}

impl Model for BytesSource {
    ghost use Rattle.std.specs.Prelude.{◌≤◌, drop, length};
    ghost use Rattle.ksh_base.specs.Source.{Script};

    ghost Value = { Script };

    ghost view = { λ s. record { left = drop s.at s.bytes; reads = s.reads; fails = s.fails.items; faults = s.faults } };

    ghost invariant = { λ s. s.at ≤ length s.bytes };
}

impl BytesSource {
    /// A source over the bytes. The calls of `read` in the list fail, counted from 0.
    pub fn new(bytes: Text, fails: Vec<u64>) -> BytesSource
        ensures { result ≡ record { left = bytes; reads = 0; fails = fails.items; faults = 0 } }
    {
        BytesSource {
            bytes,
            at: 0,
            reads: 0,
            fails,
            faults: 0,
        }
    }
}

impl Source for BytesSource {
    ghost left = { λ s. Some s.left };

    ghost faults = { λ s. s.faults };

    /// Fails exactly where the list of failing calls has this one, and else fills `into` as far as
    /// the bytes reach.
    fn read(&mut self, into: &mut [u8]) -> Result<usize, Failed>
        requires { 0 < length into.old }
        ensures bytes { IfOk result (λ n. ReadsLeft (Some self.old.left) (Some self.new.left) n into.new) }
        ensures full { IfOk result (λ n. n ≡ min (length self.old.left) (length into.old)) }
        ensures cause { HasCause self.old.faults self.new.faults result }
        ensures listed { IsErr result ↔ Contains self.old.fails self.old.reads }
        ensures kept { OnErr result (self.new.left ≡ self.old.left) }
    {
        let read = self.reads;
        self.reads = self.reads.saturating_add(1);
        if self.fails.contains(&read) {
            self.faults = self.faults.saturating_add(1);
            return Err(Failed);
        }
        let left = &self.bytes.bytes()[self.at..];
        let count = left.len().min(into.len());
        into[..count].copy_from_slice(&left[..count]);
        self.at += count;
        Ok(count)
    }
}

/// A source over a file, which it opens at its first read. It tells nothing of its bytes.
#[derive(Drop)]
pub struct FileSource<R: Files> {
    rt: R,
    path: Text,
    file: Option<R::File>,
    faults: u64,
}

impl<R: Files> FileSource<R> {
    /// A source over the file of that path, which isn't opened yet.
    pub fn new(rt: R, path: Text) -> FileSource<R>
        ensures { result.faults ≡ 0 }
    {
        FileSource {
            rt,
            path,
            file: None,
            faults: 0,
        }
    }

    fn read_file(&mut self, into: &mut [u8]) -> io::Result<usize>
        ensures within { IfOk result (λ n. n ≤ length into.new) }
        ensures faults { self.new.faults ≡ self.old.faults }
    {
        let mut file = match self.file.take() {
            Some(file) => file,
            None => open_path(&self.rt, &self.path)?,
        };
        let count = file.read(into);
        self.file = Some(file);
        count
    }
}

/// The file of that path. A path that isn't UTF-8 names none.
fn open_path<R: Files>(rt: &R, path: &Text) -> io::Result<R::File> {
    match str::from_utf8(path.bytes()) {
        Ok(path) => fs::open(rt, path),
        Err(_) => Err(io::Error::from(io::ErrorKind::InvalidInput)),
    }
}

impl<R: Files> Source for FileSource<R> {
    ghost left = { λ s. None };

    ghost faults = { λ s. s.faults };

    fn read(&mut self, into: &mut [u8]) -> Result<usize, Failed> {
        match self.read_file(into) {
            Ok(count) => Ok(count),
            Err(_) => {
                self.faults = self.faults.saturating_add(1);
                Err(Failed)
            }
        }
    }
}

/// Why a script couldn't be read.
#[derive(Clone, Copy, Debug, PartialEq, Eq, Error)]
pub enum ReadRefused {
    /// A read of this call failed.
    #[error("a read failed")]
    Failed,
    #[error("out of memory")]
    Memory,
}

impl From<Failed> for ReadRefused {
    ghost use Rattle.std.specs.Prelude.{◌≡◌};
    ghost use Rattle.ksh_base.specs.declared.source.ReadRefused.TheVariants.{Failed};

    ghost from_gives = { λ _ e. e ≡ Failed };

    fn from(_failed: Failed) -> ReadRefused {
        ReadRefused::Failed
    }
}

impl From<Memory> for ReadRefused {
    ghost use Rattle.std.specs.Prelude.{◌≡◌};
    ghost use Rattle.ksh_base.specs.declared.source.ReadRefused.TheVariants.{Memory};

    ghost from_gives = { λ _ e. e ≡ Memory };

    fn from(_refused: Memory) -> ReadRefused {
        ReadRefused::Memory
    }
}

/// How many bytes a read asks for, but where the limit is nearer.
const PIECE: usize = 65_536;

/// Reads the source to its end, or until `limit` bytes were taken. `Failed` comes only where a read
/// of this call failed, and then at once.
pub fn read_script<S: Source>(
    alloc: Global,
    source: &mut S,
    limit: usize,
) -> Result<Text, ReadRefused>
    ensures text { IfOk result (λ t. IfSome (S.left source.old) (λ all. t ≡ take limit all)) }
    ensures rest { OnOk result (S.left source.new ≡ option_map (drop limit) (S.left source.old)) }
    ensures within { IfOk result (λ t. length t ≤ limit) }
    ensures told { SameTold (S.left source.old) (S.left source.new) }
    ensures kept { OnOk result (S.faults source.new ≡ S.faults source.old) }
    ensures failed { IsErrOf result ReadRefused.Failed → Rose (S.faults source.old) (S.faults source.new) }
    ensures memory { IsErrOf result ReadRefused.Memory → S.faults source.new ≡ S.faults source.old }
{
    let mut piece = zeros(alloc, PIECE)?;
    let mut script = Text::empty(alloc);
    while script.len() < limit {
        let room = PIECE.min(limit - script.len());
        if read_piece(source, &mut piece[..room], &mut script)? == 0 {
            break;
        }
    }
    Ok(script)
}

/// Reads once, and puts the bytes that came behind the text.
fn read_piece<S: Source>(
    source: &mut S,
    piece: &mut [u8],
    text: &mut Text,
) -> Result<usize, ReadRefused>
    requires { 0 < length piece.old }
    ensures bytes { IfOk result (λ n. ReadsLeft (S.left source.old) (S.left source.new) n piece.new) }
    ensures text { IfOk result (λ n. text.new ≡ text.old ++ take n piece.new) }
    ensures told { SameTold (S.left source.old) (S.left source.new) }
    ensures kept { OnOk result (S.faults source.new ≡ S.faults source.old) }
    ensures failed { IsErrOf result ReadRefused.Failed → Rose (S.faults source.old) (S.faults source.new) }
    ensures memory { IsErrOf result ReadRefused.Memory → S.faults source.new ≡ S.faults source.old }
{
    let count = source.read(piece)?;
    text.append(&piece[..count])?;
    Ok(count)
}

fn zeros(alloc: Global, count: usize) -> Result<Vec<u8>, Memory>
    ensures { IfOk result (λ v. vec_len v ≡ count) }
{
    Ok(vec![in alloc; 0u8; count]?)
}

#[cfg(test)]
mod tests {
    use super::*;
    use std::test::Fail;

    /// That many bytes, no two neighbours the same.
    fn pattern(alloc: Global, count: usize) -> Result<Text, Memory> {
        let mut text = Text::empty(alloc);
        for i in 0..count {
            text.push((i % 251) as u8)?;
        }
        Ok(text)
    }

    #[test]
    fn a_script_is_read_to_its_end_or_the_limit(rt: HostRuntime) -> Result<(), Fail> {
        let alloc = rt.alloc();
        for (count, limit) in [
            (0, 10),
            (10, 0),
            (10, 3),
            (65_536, 65_536),
            (200_000, 199_999),
            (200_000, 1_000_000),
        ] {
            let bytes = pattern(alloc, count)?;
            let want = bytes.copy(alloc)?;
            let mut source = BytesSource::new(bytes, Vec::new(alloc));
            let text = read_script(alloc, &mut source, limit)?;
            let end = count.min(limit);
            assert!(rt; want.bytes().get(..end) == Some(text.bytes()));
            if end < count {
                let mut next = [0u8; 1];
                assert!(rt; source.read(&mut next) == Ok(1));
                assert!(rt; want.bytes().get(end) == Some(&next[0]));
            }
        }
        Ok(())
    }

    #[test]
    fn a_failing_read_ends_it(rt: HostRuntime) -> Result<(), Fail> {
        let alloc = rt.alloc();
        for (fails, want) in [(0, true), (1, true), (3, true), (4, true), (5, false)] {
            let mut list = Vec::new(alloc);
            list.push(fails)?;
            let mut source = BytesSource::new(pattern(alloc, 200_000)?, list);
            let read = read_script(alloc, &mut source, 1_000_000);
            assert!(rt; (read.err() == Some(ReadRefused::Failed)) == want);
        }
        Ok(())
    }

    #[test]
    fn a_file_is_read_or_fails(rt: HostRuntime) -> Result<(), Fail> {
        let alloc = rt.alloc();
        let path = format!(in alloc; "/tmp/ksh_base-source-{}", std::process::id(rt.process()))?;
        let want = pattern(alloc, 100_000)?;
        fs::write(&rt, path.as_str(), want.bytes())?;
        let mut source = FileSource::new(rt, Text::of(alloc, path.as_bytes())?);
        let text = read_script(alloc, &mut source, 1_000_000);
        fs::remove_file(&rt, path.as_str())?;
        assert!(rt; text?.bytes() == want.bytes());
        let bad: [&[u8]; 5] = [b"", b"/", b"/tmp", b"/no/such/file", b"/\xff"];
        for path in bad {
            let mut source = FileSource::new(rt, Text::of(alloc, path)?);
            assert!(rt; read_script(alloc, &mut source, 10).err() == Some(ReadRefused::Failed));
            assert!(rt; source.faults == 1);
        }
        Ok(())
    }
}
