//! The runs that a shelf keeps.
ghost use Rattle.std.specs.Prelude.{◌≡◌, ◌≢◌, ◌<◌, map, filter, length, All, IfSome, IfNone};
ghost use Rattle.hop_shelf.specs.Kept.{committed_by, is_other, at_number};

use hop_run::Run;

/// Whose a run is: all its parts are of winners, or of this one attempt, which may still lose.
#[derive(Clone, Copy, Debug, PartialEq, Eq, Hash)]
pub enum Owner {
    Committed,
    Attempt { split: u32, attempt: u8 },
}

/// A run with its number.
#[derive(Debug, Drop)]
pub struct Kept {
    pub number: u64,
    pub owner: Owner,
    pub run: Run,
}

// The run is committed if it is the attempt's.
fn commit_one(kept: &mut Kept, split: u32, attempt: u8)
    ensures { kept.new ≡ committed_by split attempt kept.old }
{
    if kept.owner == (Owner::Attempt { split, attempt }) {
        kept.owner = Owner::Committed;
    }
}

// The attempt's runs are committed from now on.
fn commit(kept: &mut [Kept], split: u32, attempt: u8)
    ensures { kept.new ≡ map (committed_by split attempt) kept.old }
{
    for one in kept.iter_mut() {
        commit_one(one, split, attempt);
    }
}

/// The same of a `Vec`.
pub fn commit_all(kept: &mut Vec<Kept>, split: u32, attempt: u8)
    ensures { kept.new.items ≡ map (committed_by split attempt) kept.old.items }
{
    commit(kept, split, attempt);
}

// Whether the run isn't the attempt's.
fn is_other(one: &Kept, split: u32, attempt: u8) -> bool
    ensures { result ≡ is_other split attempt one.now }
{
    one.owner != (Owner::Attempt { split, attempt })
}

/// The attempt's runs are gone.
pub fn forget(kept: &mut Vec<Kept>, split: u32, attempt: u8)
    ensures { kept.new.items ≡ filter (is_other split attempt) kept.old.items }
{
    kept.retain(|one| is_other(one, split, attempt));
}

/// The place of the run with this number.
pub fn place_of(kept: &[Kept], number: u64) -> Option<usize>
    ensures found { IfSome result (λ i. (i < length kept.now) × ((at_number kept.now i) ≡ number)) }
    ensures none { IfNone result (All (λ k. k.number ≢ number) kept.now) }
{
    for (i, one) in kept.iter().enumerate() {
        if one.number == number {
            return Some(i);
        }
    }
    None
}
