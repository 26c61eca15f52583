//! The name of a run.
use std::marker::Brand;

/// What the values of one run speak of. It has no part at run time: for contracts it is the job, the
/// records, the script and the settings of the run, whether the outside tells what it holds, and what
/// the folders held at the start.
pub trait RunName {
    ghost use Rattle.std.specs.Prelude.{Bool, ℕ, List, Option};
    ghost use Rattle.hop_base.specs.Files.{Files};
    ghost use Rattle.hop_base.specs.Meaning.{Meaning};
    ghost use Rattle.hop_base.specs.Run.{ScriptLines, RunSettings};

    /// The job, as the meanings of its calls.
    ghost job: { Meaning };

    /// The records of the input, in order.
    ghost records: { List (List ℕ) };

    /// The lines of the fault script.
    ghost script: { ScriptLines };

    /// The settings.
    ghost settings: { RunSettings };

    /// Whether the spill folders tell what they hold.
    ghost tells: { Bool };

    /// What the job folder held at the start, where it tells.
    ghost folder: { Option Files };

    /// What the spill folders held at the start, by worker, where they tell.
    ghost spills: { List (Option Files) };
}

/// A run of no records, whose job emits nothing. That job has no name, so it isn't lawful: a call that
/// asks for a lawful job is made under a name of its own.
impl RunName for Brand {
    ghost use Rattle.std.specs.Prelude.{[], None, true};
    ghost use Rattle.hop_base.specs.Meaning.{no_job};
    ghost use Rattle.hop_base.specs.Run.{no_lines, least_settings};

    ghost job = { no_job };

    ghost records = { [] };

    ghost script = { no_lines };

    ghost settings = { least_settings };

    ghost tells = { true };

    ghost folder = { None };

    ghost spills = { [] };
}
