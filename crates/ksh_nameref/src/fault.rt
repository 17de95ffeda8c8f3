use ksh_base::Memory;
use thiserror::Error;

/// Why a path stands for nothing.
#[derive(Clone, Copy, Debug, PartialEq, Eq, Error)]
pub enum RefFault {
    #[error("reference loop")]
    Loop,
    #[error("no target")]
    NoTarget,
    #[error("out of memory")]
    Memory,
}

impl From<Memory> for RefFault {
    ghost use Rattle.std.specs.Prelude.{◌≡◌};
    ghost use Rattle.ksh_nameref.specs.declared.fault.RefFault.TheVariants.{Memory};

    ghost from_gives = { λ _ e. e ≡ Memory };

    fn from(_refused: Memory) -> RefFault {
        RefFault::Memory
    }
}
