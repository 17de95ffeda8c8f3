//! Tables in the order of their keys, and stores of bytes.
#![tactic(auto)]

mod file_bytes;
mod queue;
mod table;

pub use file_bytes::FileBytes;
pub use queue::Queue;
pub use table::Table;
