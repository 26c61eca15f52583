//! A law on the size of a run.
ghost use Rattle.std.specs.Prelude.{◌≡◌, ◌≤◌, ◌<◌, ℕ, List};
ghost use Rattle.hop_base.specs.Ranges.{AreLens};
ghost use Rattle.hop_base.specs.Run.{RunSettings, ScriptLines, delay_of};
ghost use Rattle.hop_inner.specs.Setups.{setup_of};
ghost use Rattle.hop_records.specs.Records.{lens_of};
ghost use Rattle.hop_settle.specs.Crews.{IsSized};
ghost use Rattle.hop_shelf.specs.Names.{book_of};

/// Settings in their ranges, the record counts of a book and short delays make a run of a size for which the turns of its mappers are counted.
pub fn runs_are_sized()
    ensures { (records : List (List ℕ)) (script : ScriptLines) (settings : RunSettings) (lens : List ℕ) → settings.workers ≤ 8 → settings.reducers ≤ 8 → settings.attempts ≤ 16 → 0 < settings.lane
        → lens ≡ lens_of (book_of records settings) → AreLens lens → ((w : ℕ) → delay_of script w ≤ 10000) → IsSized (setup_of records script settings) }
{}
