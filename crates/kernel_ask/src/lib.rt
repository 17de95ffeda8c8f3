//! What a shell asks of the world, and what the world answers.
#![tactic(auto)]

mod answer;
mod ask;
mod list_port;
mod list_world;
mod port;

pub use ask::{
    Answer, Ask, Call, Entry, FileFacts, ForkRefused, Handle, Mode, Phase, Program, Refusal,
    Snapshot, Texts,
};
pub use list_port::ListPort;
pub use list_world::ListWorld;
pub use port::{Port, World};
