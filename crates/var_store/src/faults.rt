ghost use Rattle.std.specs.Prelude.{◌≡◌};
ghost use Rattle.var_store.specs.Faults.{no_faults, both, first_fault};

use ksh_base::Memory;
use thiserror::Error;

/// Why a call on the variables is refused. Where several apply, the first of them is answered.
#[derive(Clone, Copy, Debug, PartialEq, Eq, Error)]
pub enum VarFault {
    /// A member behind a path that has no row, or one that isn't set.
    #[error("no parent")]
    NoParent,
    /// The row, or one whose path is a front of its path, is read only; to unset, one below it too.
    #[error("is read only")]
    ReadOnly,
    /// A subscript behind a compound with members, an instance or a reference.
    #[error("not an array")]
    NotArray,
    /// An index above 4,194,303.
    #[error("subscript out of range")]
    SubscriptRange,
    /// A reference whose target's path has more than 64 steps.
    #[error("not a name")]
    NotAName,
    /// A row or a step of a kind that the call doesn't take, or a text that is no number for an integer.
    #[error("wrong kind")]
    WrongKind,
    #[error("out of memory")]
    Memory,
}

impl From<Memory> for VarFault {
    ghost use Rattle.std.specs.Prelude.{◌≡◌};
    ghost use Rattle.var_store.specs.declared.faults.VarFault.TheVariants.{Memory};

    ghost from_gives = { λ _ e. e ≡ Memory };

    fn from(_refused: Memory) -> VarFault {
        VarFault::Memory
    }
}

/// The faults that apply to a call, each by itself.
#[derive(Clone, Copy, Debug, PartialEq, Eq)]
pub struct Faults {
    pub no_parent: bool,
    pub read_only: bool,
    pub not_array: bool,
    pub out_of_range: bool,
    pub not_a_name: bool,
    pub wrong_kind: bool,
}

impl Faults {
    pub fn none() -> Faults
        ensures { result ≡ no_faults }
    {
        Faults {
            no_parent: false,
            read_only: false,
            not_array: false,
            out_of_range: false,
            not_a_name: false,
            wrong_kind: false,
        }
    }

    /// Those of either.
    pub fn and(self, other: Faults) -> Faults
        ensures { result ≡ both self other }
    {
        Faults {
            no_parent: self.no_parent || other.no_parent,
            read_only: self.read_only || other.read_only,
            not_array: self.not_array || other.not_array,
            out_of_range: self.out_of_range || other.out_of_range,
            not_a_name: self.not_a_name || other.not_a_name,
            wrong_kind: self.wrong_kind || other.wrong_kind,
        }
    }

    /// The first that applies, in the order of the fields.
    pub fn first(self) -> Option<VarFault>
        ensures { result ≡ first_fault self }
    {
        if self.no_parent {
            return Some(VarFault::NoParent);
        }
        if self.read_only {
            return Some(VarFault::ReadOnly);
        }
        if self.not_array {
            return Some(VarFault::NotArray);
        }
        if self.out_of_range {
            return Some(VarFault::SubscriptRange);
        }
        if self.not_a_name {
            return Some(VarFault::NotAName);
        }
        if self.wrong_kind {
            return Some(VarFault::WrongKind);
        }
        None
    }
}
