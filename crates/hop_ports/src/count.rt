//! Counters of calls and faults.
ghost use Rattle.std.specs.Prelude.{◌≡◌, ◌≤◌};
ghost use Rattle.hop_base.specs.Causes.{Rose};
ghost use Rattle.hop_ports.specs.Counts.{one_more};

// One more, but for a count at its greatest value.
pub fn raised(count: u64) -> u64
    ensures value { result ≡ one_more count }
    ensures rose { Rose count result }
    ensures later { count ≤ result }
{
    count.saturating_add(1)
}
