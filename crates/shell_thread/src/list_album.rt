// An album that keeps a list.
ghost use Rattle.std.specs.Prelude.{◌≡◌, ◌-◌, ◌+◌, ◌<◌, ◌≤◌, Some, [], ◌∷◌, map, vec_len, vec_capacity};
ghost use Rattle.shell_thread.specs.Ends.{end_of};
ghost use Rattle.shell_thread.specs.Kept.{with};

use crate::album::{Album, ShellEnd, ShellStop};
use ksh_base::{Memory, ShellName};
use std::alloc::Global;

/// An end as the album keeps it, with the ends of its children.
#[derive(Debug, Drop)]
pub struct Kept<Po> {
    pub name: ShellName,
    pub status: u8,
    pub stop: ShellStop,
    pub port: Po,
    pub album: Vec<Kept<Po>>,
}

/// Keeps the ends of a shell's children, and theirs, in a list.
#[derive(Debug, Drop)]
pub struct ListAlbum<Po> {
    kept: Vec<Kept<Po>>,
}

impl<Po> ListAlbum<Po> {
    pub fn new(alloc: Global) -> Self
        ensures { result.kept.items ≡ [] }
    {
        ListAlbum {
            kept: Vec::new(alloc),
        }
    }

    /// What was kept, the oldest first.
    pub fn ends(self) -> Vec<Kept<Po>>
        ensures { result ≡ self.kept }
    {
        let ListAlbum { kept } = self;
        kept
    }
}

impl<Po: Send + Drop> Album<Po> for ListAlbum<Po> {
    ghost list = { λ a. Some (map end_of a.kept.items) };

    ghost spare = { λ a. vec_capacity a.kept - vec_len a.kept };

    fn fresh(&self) -> Self {
        ListAlbum::new(*self.kept.allocator())
    }

    fn room(&mut self, ends: usize) -> Result<(), Memory> {
        self.kept.reserve(ends)?;
        Ok(())
    }

    fn keep(&mut self, end: ShellEnd<Po, ListAlbum<Po>>)
        requires room { 0 < vec_capacity self.old.kept - vec_len self.old.kept }
        ensures list { Some (map end_of self.new.kept.items) ≡ with (Some (map end_of self.old.kept.items)) end }
        ensures spare { vec_capacity self.old.kept - vec_len self.old.kept ≤ (vec_capacity self.new.kept - vec_len self.new.kept) + 1 }
    {
        let ShellEnd {
            name,
            status,
            stop,
            port,
            album,
        } = end;
        let ListAlbum { kept } = album;
        let kept = Kept {
            name,
            status,
            stop,
            port,
            album: kept,
        };
        self.kept.push_reserved(kept);
    }
}
