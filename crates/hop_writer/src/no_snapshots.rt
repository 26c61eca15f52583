//! What is left where a writer of snapshots can't be made.
use hop_ports::Folder;

/// Memory was wanting; the folder is handed back.
#[derive(Drop)]
pub struct NoSnapshots<F: Folder>(pub F);
