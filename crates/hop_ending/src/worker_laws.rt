//! The workers of the attempts of a run.
ghost use Rattle.std.specs.Prelude.{◌≡◌, ℕ, ◌<◌, Bool, List, length, Some, slice_index};
ghost use Rattle.std.specs.List.{slice_get};
ghost use Rattle.hop_event.specs.declared.event.Event.{Event};
ghost use Rattle.hop_machine.specs.step.Steps.{rules_of};
ghost use Rattle.hop_machine.specs.actors.MapperTurns.{Mapper};
ghost use Rattle.hop_machine.specs.play.Play.{Place, World};
ghost use Rattle.hop_machine.specs.ending.Finishing.{AreBegun, AreHistories};
ghost use Rattle.hop_machine.specs.run.AllHome.{RanToItsEnd, mapper_of};
ghost use Rattle.hop_ending.specs.Workers.{KeptByOne, HasOneWorker};

/// Over any ends, where a run came to its end: each attempt that was begun is of one worker, whose vault alone kept it, up to its end, and by whose lanes alone it came to the histories; and no vault kept anything of an attempt that was not begun.
pub fn attempts_have_one_worker()
    ensures kept { (e : Bool) (from : Place) (a d : World) → RanToItsEnd e from a d
        → (begun : List ℕ) → AreBegun (rules_of d.deeds.setup) (mapper_of d.actors d.deeds.setup) begun
        → (i n : ℕ) → i < length d.deeds.setup.lens → n < slice_index begun i
        → (w : ℕ) × (w < d.deeds.setup.workers) × KeptByOne d w i n }
    ensures came { (e : Bool) (from : Place) (a d : World) → RanToItsEnd e from a d
        → (begun : List ℕ) → AreBegun (rules_of d.deeds.setup) (mapper_of d.actors d.deeds.setup) begun
        → (histories : List (List Event)) → AreHistories d.deeds histories
        → (i n : ℕ) → i < length d.deeds.setup.lens → n < slice_index begun i
        → (w : ℕ) × HasOneWorker d histories w i n }
    ensures others { (e : Bool) (from : Place) (a d : World) → RanToItsEnd e from a d
        → (begun : List ℕ) → AreBegun (rules_of d.deeds.setup) (mapper_of d.actors d.deeds.setup) begun
        → (i n : ℕ) → (i < length d.deeds.setup.lens → n < slice_index begun i → ⊥)
        → (v : ℕ) (m : Mapper) → slice_get d.actors.mappers v ≡ Some m → m.kept i n ≡ 0 }
{}
