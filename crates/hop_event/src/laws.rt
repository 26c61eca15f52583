//! Laws of what is read off a history, in the subject's words. The functions do nothing.
ghost use Rattle.std.specs.Prelude.{ℕ};
ghost use Rattle.hop_event.specs.Coverage.{leader, Leads};

/// The attempt that counts for a split without a winner is the one with the most records, of which
/// there are some, and the least attempt at a tie; there is none exactly where no attempt has records.
pub fn leader_leads()
    ensures { (records : ℕ → ℕ) (n : ℕ) → Leads records n (leader records n) }
{}
