ghost use Rattle.std.specs.Prelude.{◌≡◌, IfOk};
ghost use Rattle.ksh_meaning.specs.Assign.{assigned, assigned_one};

use crate::words::word_text;
use ksh_base::{Memory, Text};
use ksh_meaning::var_refused_text;
use ksh_script::Assign;
use shell_state::{ShellState, named, put_text};
use std::alloc::Global;
use var_store::VarFault;

/// Assignments without a command word, from the left; each sees what those before it gave. The status is then 0. One
/// that is refused is the last, and its words are answered; what those before it gave stays.
#[tactic(auto, using(crate::proofs::Loops::assign_more, crate::proofs::Loops::assign_last))]
pub fn assign(
    alloc: Global,
    state: &mut ShellState,
    assigns: &[Assign],
) -> Result<Option<Text>, Memory>
    ensures done { IfOk result (λ words. assigned assigns.now state.old ≡ (state.new, words)) }
    ensures level { state.new.level ≡ state.old.level }
    ensures budget { state.new.budget ≡ state.old.budget }
{
    for one in assigns {
        match assign_one(alloc, state, one)? {
            None => {}
            Some(words) => return Ok(Some(words)),
        }
    }
    state.status = 0;
    Ok(None)
}

/// One assignment. The words of the fault where it is refused.
fn assign_one(
    alloc: Global,
    state: &mut ShellState,
    assign: &Assign,
) -> Result<Option<Text>, Memory>
    ensures done { IfOk result (λ words. assigned_one assign.now state.old ≡ (state.new, words)) }
    ensures level { state.new.level ≡ state.old.level }
    ensures budget { state.new.budget ≡ state.old.budget }
{
    let value = word_text(alloc, &state.vars, &assign.value)?;
    let path = named(alloc, &assign.name)?;
    match put_text(&mut state.vars, &path, value.bytes()) {
        Ok(()) => Ok(None),
        Err(fault) => match fault {
            VarFault::Memory => Err(Memory),
            refused => Ok(Some(var_refused_text(alloc, assign.name.text().bytes(), refused)?)),
        },
    }
}
