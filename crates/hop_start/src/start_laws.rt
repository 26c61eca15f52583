//! A run as it begins is a start of the machine.
ghost use Rattle.std.specs.Prelude.{◌≡◌, List, Bool, ℕ};
ghost use Rattle.hop_base.specs.Run.{ScriptLines, RunSettings};
ghost use Rattle.hop_machine.specs.step.Steps.{Setup, Ends, Deeds};
ghost use Rattle.hop_machine.specs.actors.MapperTurns.{Mapper};
ghost use Rattle.hop_machine.specs.actors.ReducerTurns.{Reducer};
ghost use Rattle.hop_machine.specs.home.ReducerHome.{IsSetup};
ghost use Rattle.hop_machine.specs.play.FirstState.{new_actors, IsNew};
ghost use Rattle.hop_machine.specs.run.AllHome.{IsStart, new_deeds};
ghost use Rattle.hop_inner.specs.Setups.{setup_of};
ghost use Rattle.hop_mapper.specs.Mappers.{settings_of};
ghost use Rattle.hop_start.specs.Made.{actors_with};

use hop_base::{RunName, Settings};
use hop_machine::run_laws::runs_start;

/// The settings of a run are in their ranges by their type, so the run has workers, reducers, marks in order and a size
/// of spills, whatever its records and its script are. It does nothing: proofs learn it so.
pub fn settings_make_a_setup<N: RunName>(settings: &Settings)
    requires { settings_of settings.now ≡ N.settings }
    ensures { IsSetup (setup_of N.records N.script N.settings) }
{
    let _marks = settings.marks.as_slice();
}

/// New mappers, new reducers and the writer as it is made are a start of the machine, in a world of which nothing was
/// done, and on one thread the start of its play.
pub fn new_actors_start()
    ensures start { (s : Setup) (backup : Bool) (mappers : List Mapper) (reducers : List Reducer) (d : Deeds) → IsSetup s → mappers ≡ (new_actors s backup).mappers → reducers ≡ (new_actors s backup).reducers → d ≡ new_deeds s d.ends → IsStart backup (actors_with s mappers reducers) d }
    ensures new { (s : Setup) (backup : Bool) (mappers : List Mapper) (reducers : List Reducer) (d : Deeds) → IsSetup s → mappers ≡ (new_actors s backup).mappers → reducers ≡ (new_actors s backup).reducers → d ≡ new_deeds s d.ends → IsNew backup (record { actors = actors_with s mappers reducers; deeds = d }) }
{
    runs_start();
}
