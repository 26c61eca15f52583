//! Small runs: the definitions, computed, give the traces that were worked out by hand.
ghost use Rattle.std.specs.Prelude.{[], ◌∷◌, None};
ghost use Rattle.hop_machine.specs.play.Worked.{GivesTrace, EndsSpent, snapshot, tentative, committed, half_a_file, half_a_file_traced, a_failed_attempt, a_failed_attempt_traced, a_failed_attempt_committed, a_restart, a_restart_traced, a_late_failure, a_late_failure_traced, a_full_lane, a_full_lane_traced, a_backup, a_backup_traced, a_doomed_split, a_spared_split, a_spared_split_traced};

/// Where the turn list ends after half of the file, the rest arrives while settling; the snapshot has tentative data.
pub fn half_a_file_is_traced()
    ensures { GivesTrace half_a_file half_a_file_traced (1 ∷ 1 ∷ []) (snapshot 5000 5000 (tentative 0 2 ∷ None ∷ []) ∷ []) }
{}

/// An attempt that fails is revoked, and the next one starts from nothing; a snapshot taken before shows what arrived of it, and one of committed data waits for the next one's commit.
pub fn a_failed_attempt_is_retried()
    ensures tentative { GivesTrace a_failed_attempt a_failed_attempt_traced (2 ∷ 1 ∷ []) (snapshot 2500 2500 (tentative 0 1 ∷ None ∷ []) ∷ []) }
    ensures committed { GivesTrace a_failed_attempt_committed a_failed_attempt_traced (2 ∷ 1 ∷ []) (snapshot 2500 5000 (committed 1 2 ∷ None ∷ []) ∷ []) }
{}

/// A reducer that restarted ignores what doesn't start from nothing, and pulls the whole split once it is won.
pub fn a_restart_is_pulled()
    ensures { GivesTrace a_restart a_restart_traced (1 ∷ []) (snapshot 6000 6666 (tentative 0 2 ∷ []) ∷ []) }
{}

/// An attempt may fail after its last record and before its commit.
pub fn a_late_failure_is_retried()
    ensures { GivesTrace a_late_failure a_late_failure_traced (2 ∷ []) [] }
{}

/// Ranges that wait behind a full lane are joined.
pub fn waiting_ranges_are_joined()
    ensures { GivesTrace a_full_lane a_full_lane_traced (1 ∷ []) [] }
{}

/// Of two attempts of a split the second to commit loses and is revoked.
pub fn a_backup_loses()
    ensures { GivesTrace a_backup a_backup_traced (2 ∷ []) [] }
{}

/// A split whose only attempt fails is spent; one attempt more is enough.
pub fn a_doomed_split_is_spent()
    ensures spent { EndsSpent a_doomed_split 0 }
    ensures spared { GivesTrace a_spared_split a_spared_split_traced (2 ∷ 1 ∷ []) [] }
{}
