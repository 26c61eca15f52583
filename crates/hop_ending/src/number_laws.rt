//! The numbers of the mappers of a run.
ghost use Rattle.std.specs.Prelude.{◌≡◌, ℕ, Bool, Some, map};
ghost use Rattle.std.specs.List.{slice_get};
ghost use Rattle.hop_machine.specs.actors.MapperTurns.{Mapper};
ghost use Rattle.hop_machine.specs.play.Play.{Place, World, Went};
ghost use Rattle.hop_machine.specs.run.AllHome.{IsStart};

/// Over any ends, along any run, also one that a fault ended: the mappers keep their numbers, each at its place. From a start on, the mapper at each place has the number of that place.
pub fn mappers_keep_their_numbers()
    ensures same { (e : Bool) (from at : Place) (a b : World) → Went e (from, a) (at, b) → map (λ (m : Mapper). m.number) b.actors.mappers ≡ map (λ (m : Mapper). m.number) a.actors.mappers }
    ensures start { (e : Bool) (backup : Bool) (from at : Place) (a b : World) → IsStart backup a.actors a.deeds → Went e (from, a) (at, b) → (w : ℕ) (m : Mapper) → slice_get b.actors.mappers w ≡ Some m → m.number ≡ w }
{}
