ghost use Rattle.std.specs.Prelude.{◌≡◌, ◌<◌, ◌≤◌, [], length, take, drop, IfOk, OnOk, OnErr};
ghost use Rattle.kernel_tables.specs.Overlaid.{overlaid, spread};

use ksh_base::{Memory, Text};
use std::alloc::Global;
use std::marker::Model;

/// The bytes of a file.
#[derive(Drop)]
pub struct FileBytes {
    bytes: Vec<u8>,
}

impl Model for FileBytes {
    ghost use Rattle.std.specs.Prelude.{ℕ, List};

    ghost Value = { List ℕ };

    ghost view = { λ b. b.bytes.items };
}

impl FileBytes {
    /// No bytes. Takes no memory.
    pub fn empty(alloc: Global) -> FileBytes
        ensures { result ≡ [] }
    {
        FileBytes {
            bytes: Vec::new(alloc),
        }
    }

    pub fn of(alloc: Global, bytes: &[u8]) -> Result<FileBytes, Memory>
        ensures { IfOk result (λ b. b ≡ bytes.now) }
    {
        let bytes = Vec::from_slice(alloc, bytes)?;
        Ok(FileBytes { bytes })
    }

    pub fn len(&self) -> usize
        ensures { result ≡ length self.now }
    {
        self.bytes.len()
    }

    pub fn as_slice(&self) -> &[u8]
        ensures { result.now ≡ self.now }
    {
        self.bytes.as_slice()
    }

    /// Lets all bytes go.
    pub fn cut(&mut self)
        ensures { self.new ≡ [] }
    {
        self.bytes.clear();
    }

    /// Up to that many bytes from that place on.
    pub fn read(&self, alloc: Global, place: usize, many: usize) -> Result<Text, Memory>
        ensures { IfOk result (λ t. t ≡ take many (drop place self.now)) }
    {
        if place >= self.bytes.len() {
            return Ok(Text::empty(alloc));
        }
        let rest = &self.bytes[place..];
        Text::of(alloc, &rest[..many.min(rest.len())])
    }

    /// Writes the bytes from that place on. A gap before them is filled with zeros.
    pub fn write(&mut self, place: usize, bytes: &[u8]) -> Result<(), Memory>
        ensures ok { OnOk result (self.new ≡ overlaid place bytes.now self.old) }
        ensures err { OnErr result (self.new ≡ self.old) }
    {
        if bytes.is_empty() {
            return Ok(());
        }
        if place > self.bytes.len() {
            write_past(&mut self.bytes, place, bytes)
        } else {
            write_within(&mut self.bytes, place, bytes)
        }
    }
}

fn write_past(file: &mut Vec<u8>, place: usize, bytes: &[u8]) -> Result<(), Memory>
    requires { length file.old.items < place }
    ensures ok { OnOk result (file.new.items ≡ spread place bytes.now file.old.items) }
    ensures err { OnErr result (file.new.items ≡ file.old.items) }
{
    let len = file.len();
    file.resize(place, 0)?;
    if file.extend_from_slice(bytes).is_err() {
        file.truncate(len);
        return Err(Memory);
    }
    Ok(())
}

fn write_within(file: &mut Vec<u8>, place: usize, bytes: &[u8]) -> Result<(), Memory>
    requires { place ≤ length file.old.items }
    ensures ok { OnOk result (file.new.items ≡ spread place bytes.now file.old.items) }
    ensures err { OnErr result (file.new.items ≡ file.old.items) }
{
    let over = bytes.len().min(file.len() - place);
    file.extend_from_slice(&bytes[over..])?;
    file[place..place + over].copy_from_slice(&bytes[..over]);
    Ok(())
}
