//! Why no tree is built.
use ksh_base::Memory;
use std::alloc::AllocError;
use thiserror::Error;

/// Why no tree is built.
#[derive(Clone, Copy, Debug, PartialEq, Eq, Error)]
pub enum Unbuilt {
    /// What comes belongs to no tree.
    #[error("what comes belongs to no tree")]
    Stray,
    #[error("out of memory")]
    Memory,
}

impl From<AllocError> for Unbuilt {
    ghost use Rattle.std.specs.Prelude.{◌≡◌};
    ghost use Rattle.tree_build.specs.declared.unbuilt.Unbuilt.TheVariants as unbuilt;

    ghost from_gives = { λ _ e. e ≡ unbuilt.Memory };

    fn from(_refused: AllocError) -> Unbuilt {
        Unbuilt::Memory
    }
}

impl From<Memory> for Unbuilt {
    ghost use Rattle.std.specs.Prelude.{◌≡◌};
    ghost use Rattle.tree_build.specs.declared.unbuilt.Unbuilt.TheVariants as unbuilt;

    ghost from_gives = { λ _ e. e ≡ unbuilt.Memory };

    fn from(_refused: Memory) -> Unbuilt {
        Unbuilt::Memory
    }
}
