//! What starts shells, and what keeps their ends.
#![tactic(auto)]

mod album;
mod caller;
mod few;
mod handled;
mod list_album;
mod no_album;
mod spawner;
#[cfg(test)]
mod tests;
mod thread;

pub use album::{Album, ShellEnd, ShellStop};
pub use caller::CallerSpawner;
pub use few::FewSpawner;
pub use handled::Handled;
pub use list_album::{Kept, ListAlbum};
pub use no_album::NoAlbum;
pub use spawner::{Flag, STACK_SIZE, Spawner, Way};
pub use thread::ThreadSpawner;
