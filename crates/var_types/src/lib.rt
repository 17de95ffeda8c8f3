//! The types of a shell's variables: paths and their order, values, attributes, and rows.
#![tactic(auto)]

mod attrs;
mod cell;
mod laws;
mod path;
mod value;

pub use attrs::Attrs;
pub use cell::{Cell, Cells, HookKind, HookSet};
pub use laws::path_laws;
pub use path::{Path, Step, copy_steps, is_prefix};
pub use value::Value;
