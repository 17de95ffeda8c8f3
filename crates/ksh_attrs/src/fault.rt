use ksh_base::Memory;
use thiserror::Error;

/// Why a text has no shape.
#[derive(Clone, Copy, Debug, PartialEq, Eq, Error)]
pub enum AttrFault {
    #[error("not a number")]
    NotANumber,
    #[error("out of memory")]
    Memory,
}

impl From<Memory> for AttrFault {
    ghost use Rattle.std.specs.Prelude.{◌≡◌};
    ghost use Rattle.ksh_attrs.specs.declared.fault.AttrFault.TheVariants.{Memory};

    ghost from_gives = { λ _ e. e ≡ Memory };

    fn from(_refused: Memory) -> AttrFault {
        AttrFault::Memory
    }
}
