//! A law on scripts.
ghost use Rattle.std.specs.Prelude.{◌≤◌, ℕ, List};
ghost use Rattle.hop_base.specs.Run.{delay_of};
ghost use Rattle.hop_script.specs.Script.{script_of};

/// By the script of a text no worker is delayed by more than 10,000 turns.
pub fn delays_are_short()
    ensures { (text : List ℕ) (w : ℕ) → delay_of (script_of text) w ≤ 10000 }
{}
