ghost use Rattle.std.specs.Prelude.{◌≡◌, ◌≤◌};
ghost use Rattle.ksh_meaning.specs.Answers.{write_refused, is_broken};
ghost use Rattle.ksh_meaning.specs.Output.{text_left};

use kernel_ask::{Answer, Refusal};
use shell_state::{Flow, ShellState};

/// Why a Write was refused, nothing where its bytes were taken. An answer of another kind is taken
/// as refused.
pub fn write_refused(answer: Answer) -> Option<Refusal>
    ensures { result ≡ write_refused answer }
{
    match answer {
        Answer::Taken => None,
        Answer::Refused(refusal) => Some(refusal),
        _ => Some(Refusal::Io),
    }
}

/// Whether no reader was left.
pub fn is_broken(refusal: Refusal) -> bool
    ensures { result ≡ is_broken refusal }
{
    matches!(refusal, Refusal::Broken)
}

/// What follows the answer to a text on descriptor 2: it is lost where it was refused, but where no
/// reader was left the shell ends with 141.
pub fn settle_text(state: &mut ShellState, answer: Answer) -> Flow
    ensures left { text_left (write_refused answer) state.old ≡ (state.new, result) }
    ensures level { state.new.level ≡ state.old.level }
    ensures budget { state.new.budget ≤ state.old.budget }
{
    let Some(refusal) = write_refused(answer) else {
        return Flow::Next;
    };
    if is_broken(refusal) {
        state.status = 141;
        return Flow::Exit;
    }
    Flow::Next
}
