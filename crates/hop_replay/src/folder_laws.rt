//! Laws on the spill folders of a run.
ghost use Rattle.std.specs.Prelude.{◌≡◌, ℕ, List, length, map};
ghost use Rattle.hop_base.specs.Meaning.{Meaning};
ghost use Rattle.hop_base.specs.Run.{ScriptLines, RunSettings};
ghost use Rattle.hop_ports.specs.Views.{FolderView};
ghost use Rattle.hop_actors.specs.declared.fault.Fault.{Fault};
ghost use Rattle.hop_actors.specs.Counting.{Counts};
ghost use Rattle.hop_settle.specs.Stops.{CrewStops};
ghost use Rattle.hop_replay.specs.Folders.{counts_seen, NoneFailed, Stopped};

/// What the counts of the mappers say is so of their folders: where they are as before, no call of a folder failed; where a run stopped, only a call of the folder that the fault tells of.
pub fn counts_tell_of_folders()
    ensures none { (before after : List FolderView) → map counts_seen after ≡ map counts_seen before → NoneFailed (record { before = before; after = after }) }
    ensures stopped { (workers : ℕ) (before after : List FolderView) → length before ≡ workers → (f : Fault) → (x y : Counts) → (job : Meaning) (records : List (List ℕ)) (script : ScriptLines) (settings : RunSettings) → CrewStops job records script settings (map counts_seen before) (map counts_seen after) x y f → Stopped workers (record { before = before; after = after }) f }
{}
