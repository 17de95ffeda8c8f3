//! Laws of the kernel in memory, over its definition alone: they hold in each kernel that a box comes to.
#![tactic(auto)]

ghost use Rattle.kernel_laws.specs.Bounds.{HasBounds};
ghost use Rattle.kernel_laws.specs.Counts.{CountsHandles, EndedHoldNone};
ghost use Rattle.kernel_laws.specs.LastNumbers.{GivesLastNumber, NeedsTwoNumbers, StartsNoneAfter};
ghost use Rattle.kernel_laws.specs.Nameless.{CountsNameless};
ghost use Rattle.kernel_laws.specs.Refusals.{RefusalsKeep};
ghost use Rattle.kernel_laws.specs.Stored.{HasFewFiles, StoresFew};

/// Each open row counts the handles that stand for it, those that read (or do both) and those that only write, over
/// all shells; it is open as long as there is one, and no handle stands for a row that isn't open. A shell that has
/// ended holds none, so the shells that live hold them all.
pub fn handles_are_counted<F>()
    ensures counts { CountsHandles F }
    ensures ended { EndedHoldNone F }
{}

/// A box has at most 4,096 shells. Each holds at most 1,024 handles, by numbers below that of its next one; neither these
/// nor the numbers of its programs pass 4,294,967,295.
#[tactic(auto, using(crate::proofs::Laws::bounds))]
pub fn shells_are_bounded<F>()
    ensures { HasBounds F }
{}

/// A file has at most 16,777,216 bytes, a nameless one too, and a pipe holds at most 65,536. Where the plan has at most 65,536
/// entries the box has at most 65,536 files: what has a path, and nameless files.
#[tactic(auto, using(crate::proofs::StoredTurns::stores_few, crate::proofs::StoredTurns::few_files))]
pub fn stores_are_bounded<F>()
    ensures bytes { StoresFew F }
    ensures files { HasFewFiles F }
{}

/// An ask that is refused leaves the kernel as it was, whatever kernel it is.
#[tactic(auto, using(crate::proofs::RefusedTurns::refusals_keep))]
pub fn refusals_change_nothing<F>()
    ensures { RefusalsKeep F }
{}

/// A shell is given the number 4,294,967,295 for a handle, and then no handle more: Dup is refused as TooMany. Pipe and
/// Scratch, which need two numbers, are refused where one is left. No program is started after the 4,294,967,295th.
#[tactic(auto, using(crate::proofs::LastNumbers::gives_last, crate::proofs::LastNumbers::needs_two, crate::proofs::LastNumbers::starts_none_after))]
pub fn numbers_end()
    ensures handles { GivesLastNumber }
    ensures pairs { NeedsTwoNumbers }
    ensures programs { StartsNoneAfter }
{}

/// The count of nameless files is that of the open rows that are one: it counts until its last handle goes.
#[tactic(auto, using(crate::proofs::NamelessTurns::nameless))]
pub fn nameless_files_are_counted<F>()
    ensures { CountsNameless F }
{}
