ghost use Rattle.std.specs.Prelude.{◌≡◌, ◌≤◌, ◌+◌, IsTrue};
ghost use Rattle.ksh_meaning.specs.Units.{units, left_by};

use shell_state::ShellState;

/// Takes that many units together, exactly where they are left.
#[tactic(auto, unfolding(crate::specs::Units::units))]
pub fn spend(state: &mut ShellState, count: u64) -> bool
    ensures units { units count state.old ≡ left_by result state.new }
    ensures fewer { IsTrue result → state.old.budget ≡ state.new.budget + count }
    ensures most { state.new.budget ≤ state.old.budget }
    ensures level { state.new.level ≡ state.old.level }
{
    state.budget.spend(count)
}
