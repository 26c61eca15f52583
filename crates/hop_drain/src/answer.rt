//! What a reducer's turn did.
ghost use Rattle.std.specs.Prelude.{◌≡◌, ℕ, List};
ghost use Rattle.hop_base.specs.Meaning.{Meaning};
ghost use Rattle.hop_base.specs.Run.{ScriptLines, RunSettings};
ghost use Rattle.hop_actors.specs.Acting.{said_turn, Reduces};
ghost use Rattle.hop_actors.specs.Counting.{TurnCause, no_folder};
ghost use Rattle.hop_machine.specs.actors.ReducerTurns.{Reducer};
ghost use Rattle.hop_drain.specs.Answers.{said_answer};

use hop_actors::{Fault, Turn};

// A reducer neither ends nor has a fault but want of memory.
#[derive(Clone, Copy, Debug)]
pub(crate) enum Answer {
    Worked,
    Idle,
    Stopped,
}

impl Answer {
    // The turn that it is.
    pub(crate) fn turn(self) -> Turn
        ensures said { said_turn result ≡ said_answer self }
        ensures cause { (job : Meaning) (lines : List (List ℕ)) (script : ScriptLines) (settings : RunSettings) (r : Reducer) → TurnCause job lines script settings (Reduces r) no_folder no_folder result }
    {
        match self {
            Answer::Worked => Turn::Worked,
            Answer::Idle => Turn::Idle,
            Answer::Stopped => Turn::Failed(Fault::NoMemory),
        }
    }
}
