//! Laws of what shells do, over the definitions alone.
#![tactic(auto)]

ghost use Rattle.shell_laws.specs.Agree.{SameSoFar};

/// Two shells with equal starts, whatever worlds they run in, whose answers agree up to some entry: their asks
/// agree up to there, and so does the next ask, or that there is none and then the outcome. Want of memory and
/// shells that found no thread aside.
pub fn same_so_far()
    ensures { SameSoFar }
{}
