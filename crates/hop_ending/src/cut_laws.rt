//! The cuts of the reducers of a run, and what its writer put of them.
ghost use Rattle.std.specs.Prelude.{◌≡◌, ◌≢◌, ℕ, ◌≤◌, ◌<◌, Bool, true, List, [], ◌∷◌, ◌++◌, map};
ghost use Rattle.hop_event.specs.declared.event.Event.{Event};
ghost use Rattle.hop_event.specs.declared.event.Event.TheVariants.{Finish};
ghost use Rattle.hop_machine.specs.step.Steps.{Setup};
ghost use Rattle.hop_machine.specs.actors.ReducerTurns.{cut_after, marks_due};
ghost use Rattle.hop_machine.specs.home.Said.{history_of};
ghost use Rattle.hop_machine.specs.home.ReducerHome.{IsSetup, cuts_of, cuts_from};
ghost use Rattle.hop_machine.specs.play.Play.{Place, Writing, Over, Halted, World, Went};
ghost use Rattle.hop_machine.specs.play.Worked.{tentative};
ghost use Rattle.hop_machine.specs.run.AllHome.{IsStart, RanToItsEnd};
ghost use Rattle.hop_machine.specs.settling.Meeting.{CutMet};
ghost use Rattle.hop_ending.specs.Cuts.{put_of, writings_of, ArePut, HasPut, CutsFollow};
ghost use Rattle.hop_ending.specs.WorkedCuts.{with_marks, cut_said, half_arrived, half_again, all_arrived};

/// The cuts of a history are those that the empty one makes due and then, with each event, those that it makes due, in the order of the marks. A mark is cut once, where it is first reached.
pub fn cuts_grow()
    ensures first { (s : Setup) → IsSetup s → cuts_of s [] ≡ map (cut_after s []) (marks_due s []) }
    ensures next { (s : Setup) (e : Event) (h : List Event) → IsSetup s → cuts_of s (e ∷ h) ≡ cuts_of s h ++ map (cut_after s (e ∷ h)) (marks_due s (e ∷ h)) }
{}

/// At a start nothing was sent, taken or put.
pub fn cuts_start()
    ensures put { (backup : Bool) (a : World) → IsStart backup a.actors a.deeds → HasPut a.actors.writer a.deeds.setup }
    ensures follow { (backup : Bool) (a : World) → IsStart backup a.actors a.deeds → CutsFollow a.deeds }
{}

/// Along a run that did not halt, over any ends, the writer puts all that it takes; over exact ends, along any run, it takes the first of what is sent.
pub fn cuts_go_on()
    ensures put { (e : Bool) (from at : Place) (a b : World) → Went e (from, a) (at, b) → at ≢ Halted → HasPut a.actors.writer a.deeds.setup → HasPut b.actors.writer b.deeds.setup }
    ensures follow { (from at : Place) (a b : World) → Went true (from, a) (at, b) → CutsFollow a.deeds → CutsFollow b.deeds }
{}

/// Over any ends, where a run came to its end: what a reducer sent to its cut lane is the cuts of its finished history, and what the writer took of it is what it wrote of that reducer. It put each cut that it took, and wrote of no other reducers.
pub fn cuts_are_sent()
    ensures sent { (e : Bool) (from : Place) (a d : World) → RanToItsEnd e from a d → (p : ℕ) → p < d.deeds.setup.reducers → (d.deeds.did.cut_outs p).sent ≡ cuts_of d.deeds.setup (history_of d.deeds p) }
    ensures took { (e : Bool) (from : Place) (a d : World) → RanToItsEnd e from a d → (p : ℕ) → p < d.deeds.setup.reducers → (d.deeds.did.cut_ins p).taken ≡ cuts_from p d.actors.writer.writings }
    ensures put { (e : Bool) (from : Place) (a d : World) → HasPut a.actors.writer a.deeds.setup → RanToItsEnd e from a d → ArePut d.deeds.setup.reducers d.actors.writer.writings }
    ensures others { (e : Bool) (from : Place) (a d : World) → HasPut a.actors.writer a.deeds.setup → RanToItsEnd e from a d → (p : ℕ) → d.deeds.setup.reducers ≤ p → writings_of p d.actors.writer.writings ≡ [] }
{}

/// At the end no cut lane holds anything: over exact ends, and over any ends where the two ends of the lane were told of each other before the writer's last turns and after them.
pub fn cut_lanes_are_emptied()
    ensures exact { (from : Place) (a d : World) → HasPut a.actors.writer a.deeds.setup → CutsFollow a.deeds → RanToItsEnd true from a d → (p : ℕ) → p < d.deeds.setup.reducers → (d.deeds.did.cut_ins p).taken ≡ (d.deeds.did.cut_outs p).sent }
    ensures met { (e : Bool) (a d : World) → HasPut a.actors.writer a.deeds.setup → Went e (Writing, a) (Over, d) → (p : ℕ) → p < d.deeds.setup.reducers → CutMet a.deeds p → CutMet d.deeds p → (d.deeds.did.cut_ins p).taken ≡ (d.deeds.did.cut_outs p).sent }
{}

/// So the writer put exactly the cuts of each finished history, in order. Over any ends this is so where the cut lane holds nothing at the end.
pub fn cuts_are_put()
    ensures exact { (from : Place) (a d : World) → HasPut a.actors.writer a.deeds.setup → CutsFollow a.deeds → RanToItsEnd true from a d → (p : ℕ) → p < d.deeds.setup.reducers → writings_of p d.actors.writer.writings ≡ map (put_of p) (cuts_of d.deeds.setup (history_of d.deeds p)) }
    ensures emptied { (e : Bool) (from : Place) (a d : World) → HasPut a.actors.writer a.deeds.setup → RanToItsEnd e from a d → (p : ℕ) → p < d.deeds.setup.reducers → (d.deeds.did.cut_ins p).taken ≡ (d.deeds.did.cut_outs p).sent → writings_of p d.actors.writer.writings ≡ map (put_of p) (cuts_of d.deeds.setup (history_of d.deeds p)) }
{}

/// Small histories: an event that reaches two marks makes a cut of each; after a restart a mark that was cut is not cut again; without splits the empty history reaches all marks.
pub fn few_cuts_are_worked_out()
    ensures none { cuts_of (with_marks (2 ∷ [])) [] ≡ [] }
    ensures two { cuts_of (with_marks (2 ∷ [])) half_arrived ≡ cut_said 2000 5000 (tentative 0 1 ∷ []) ∷ cut_said 5000 5000 (tentative 0 1 ∷ []) ∷ [] }
    ensures again { cuts_of (with_marks (2 ∷ [])) half_again ≡ cut_said 2000 5000 (tentative 0 1 ∷ []) ∷ cut_said 5000 5000 (tentative 0 1 ∷ []) ∷ [] }
    ensures third { cuts_of (with_marks (2 ∷ [])) all_arrived ≡ cut_said 2000 5000 (tentative 0 1 ∷ []) ∷ cut_said 5000 5000 (tentative 0 1 ∷ []) ∷ cut_said 8000 10000 (tentative 0 2 ∷ []) ∷ [] }
    ensures no_splits { cuts_of (with_marks []) (Finish ∷ []) ≡ cut_said 2000 10000 [] ∷ cut_said 5000 10000 [] ∷ cut_said 8000 10000 [] ∷ [] }
{}
