//! Laws on what the writer of a run wrote.
ghost use Rattle.std.specs.Prelude.{true, ◌≡◌, ℕ, List};
ghost use Rattle.hop_actors.specs.declared.fault.Fault.{Fault};
ghost use Rattle.hop_event.specs.declared.event.Event.{Event};
ghost use Rattle.hop_machine.specs.ending.Finishing.{AreHistories};
ghost use Rattle.hop_machine.specs.play.FirstState.{IsNew};
ghost use Rattle.hop_machine.specs.play.Play.{Opening, Place, Went, World};
ghost use Rattle.hop_machine.specs.run.AllHome.{IsStart, RanToItsEnd};
ghost use Rattle.hop_settle.specs.Playing.{EndsAt, orders_of};
ghost use Rattle.hop_replay.specs.Given.{Given, setup_given};
ghost use Rattle.hop_replay.specs.Snapshots.{Wrote, WroteUntil};

use hop_ending::cut_laws::{cuts_are_put, cuts_are_sent, cuts_go_on, cuts_start};
use hop_ending::reach_laws::{spent_runs_leave_cuts, written_cuts_reached};

/// Where a run came to its end over exact ends, its writer put the cuts of its histories, in order. Where it came to any other place, each cut that it wrote was of a mark that was reached.
pub fn writers_write_cuts()
    ensures wrote { (g : Given) (a d : World) → d.deeds.setup ≡ setup_given g → IsStart g.settings.backup a.actors a.deeds → RanToItsEnd true (Opening 0 (orders_of g.turns)) a d → (begun : List ℕ) (histories : List (List Event)) → AreHistories d.deeds histories
        → Wrote g (record { begun = begun; histories = histories }) d.actors.writer.writings }
    ensures until { (g : Given) (a d : World) → a.deeds.setup ≡ setup_given g → d.deeds.setup ≡ setup_given g → IsNew g.settings.backup a → IsStart g.settings.backup a.actors a.deeds → (f : Fault) (at : Place) → Went true (Opening 0 (orders_of g.turns), a) (at, d) → EndsAt f at
        → WroteUntil g f d.actors.writer.writings }
{
    cuts_start();
    cuts_go_on();
    cuts_are_put();
    cuts_are_sent();
    written_cuts_reached();
    spent_runs_leave_cuts();
}
