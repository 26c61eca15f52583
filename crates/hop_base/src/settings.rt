//! How a run is set up.
ghost use Rattle.std.specs.Prelude.{◌≤◌};

use crate::marks::Marks;

/// The settings of a run. Each is in its range by the type.
#[derive(Debug, Drop)]
pub struct Settings {
    /// Reducers, and so partitions: 1 to 8.
    pub reducers: u8,
    /// Records of a split: 1 to 16,777,216.
    pub split: u32,
    /// Records of a spill: 1 to 65,535.
    pub spill: u32,
    /// Map workers: 1 to 8.
    pub workers: u8,
    /// Attempts of a split that may be begun: 1 to 16.
    pub attempts: u8,
    /// Messages that a lane has room for: 1 to 64.
    pub lane: u8,
    /// Background mergers: 0 to 4.
    pub mergers: u8,
    /// Threads: 1 to 16.
    pub threads: u8,
    /// Whether idle workers begin backup attempts.
    pub backup: bool,
    /// Whether snapshots cover tentative data.
    pub tentative: bool,
    /// The progress marks at which snapshots are taken.
    pub marks: Marks,
    ghost some_reducers: { 1 ≤ reducers },
    ghost few_reducers: { reducers ≤ 8 },
    ghost some_split: { 1 ≤ split },
    ghost few_split: { split ≤ 16777216 },
    ghost some_spill: { 1 ≤ spill },
    ghost few_spill: { spill ≤ 65535 },
    ghost some_workers: { 1 ≤ workers },
    ghost few_workers: { workers ≤ 8 },
    ghost some_attempts: { 1 ≤ attempts },
    ghost few_attempts: { attempts ≤ 16 },
    ghost some_lane: { 1 ≤ lane },
    ghost few_lane: { lane ≤ 64 },
    ghost few_mergers: { mergers ≤ 4 },
    ghost some_threads: { 1 ≤ threads },
    ghost few_threads: { threads ≤ 16 },
}
