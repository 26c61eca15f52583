//! Laws of traces. The functions do nothing.
ghost use Rattle.std.specs.Prelude.{ℕ, List};
ghost use Rattle.hop_event.specs.declared.event.Event.{Event};
ghost use Rattle.hop_trace.specs.Told.{IsTold, TellsOnly};
ghost use Rattle.hop_trace.specs.Trace.{trace_of};

/// A trace tells the job's name, how many attempts of each split were begun and the history of each
/// reducer: where any of these differ, so do the texts.
pub fn trace_tells_only()
    ensures { (name begun : List ℕ) (histories : List (List Event)) → IsTold name begun histories → TellsOnly (trace_of name begun histories) name begun histories }
{}
