ghost use Rattle.std.specs.Prelude.{◌≡◌, ◌≤◌, [], ◌++◌, length, take, drop, IfOk, OnOk, OnErr};

use ksh_base::{Memory, Text};
use std::alloc::Global;
use std::marker::Model;

/// Bytes that are put in at the back and taken out at the front. Contracts see the bytes held,
/// the front first. A call costs the bytes that it moves, on average, and not the bytes held.
#[derive(Drop)]
pub struct Queue {
    bytes: Vec<u8>,
    // How many of `bytes` were taken.
    taken: usize,
}

impl Model for Queue {
    ghost use Rattle.std.specs.Prelude.{ℕ, List, drop, length, ◌≤◌};

    ghost Value = { List ℕ };

    ghost view = { λ q. drop q.taken q.bytes.items };

    ghost invariant = { λ q. q.taken ≤ length q.bytes.items };
}

impl Queue {
    /// An empty queue. Takes no memory.
    pub fn new(alloc: Global) -> Queue
        ensures { result ≡ [] }
    {
        Queue {
            bytes: Vec::new(alloc),
            taken: 0,
        }
    }

    pub fn len(&self) -> usize
        ensures { result ≡ length self.now }
    {
        self.bytes.len() - self.taken
    }

    /// Puts the bytes in at the back.
    pub fn push(&mut self, bytes: &[u8]) -> Result<(), Memory>
        ensures ok { OnOk result (self.new ≡ self.old ++ bytes.now) }
        ensures err { OnErr result (self.new ≡ self.old) }
    {
        self.bytes.extend_from_slice(bytes)?;
        Ok(())
    }

    /// Takes that many bytes from the front, or all where there are fewer.
    pub fn take(&mut self, alloc: Global, many: usize) -> Result<Text, Memory>
        ensures bytes { IfOk result (λ t. t ≡ take many self.old) }
        ensures rest { OnOk result (self.new ≡ drop many self.old) }
        ensures err { OnErr result (self.new ≡ self.old) }
    {
        let held = &self.bytes[self.taken..];
        let many = many.min(held.len());
        let front = Text::of(alloc, &held[..many])?;
        self.taken += many;
        settle(&mut self.bytes, &mut self.taken);
        Ok(front)
    }
}

// Moves what is held to the front once no more is held than was taken.
fn settle(bytes: &mut Vec<u8>, taken: &mut usize)
    requires { taken.old ≤ length bytes.old.items }
    ensures held { drop taken.new bytes.new.items ≡ drop taken.old bytes.old.items }
    ensures within { taken.new ≤ length bytes.new.items }
{
    let from = *taken;
    let held = bytes.len() - from;
    if held > from {
        return;
    }
    let (front, back) = bytes.split_at_mut(from);
    front[..held].copy_from_slice(back);
    bytes.truncate(held);
    *taken = 0;
}
