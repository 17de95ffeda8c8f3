// An album that keeps nothing.
ghost use Rattle.std.specs.Prelude.{◌≡◌, ◌≤◌, ◌-◌, ◌^◌, List, Option, None};
ghost use Rattle.shell_thread.specs.declared.album.ShellEnd.{ShellEnd};
ghost use Rattle.shell_thread.specs.declared.no_album.NoAlbum.{NoAlbum};

use crate::album::{Album, ShellEnd};
use ksh_base::Memory;

/// Lets each end go, and tells nothing.
#[derive(Debug, Drop)]
pub struct NoAlbum;

impl<Po: Send + Drop> Album<Po> for NoAlbum {
    ghost list = { λ _. None };

    ghost spare = { λ _. 2 ^ 64 - 1 };

    fn fresh(&self) -> Self {
        NoAlbum
    }

    fn room(&mut self, _ends: usize) -> Result<(), Memory> {
        Ok(())
    }

    fn keep(&mut self, end: ShellEnd<Po, NoAlbum>)
        ensures list { ◌≡◌ {A = Option (List (ShellEnd Po NoAlbum))} None None }
        ensures spare { 2 ^ 64 - 1 ≤ 2 ^ 64 }
    {
        drop(end);
    }
}
