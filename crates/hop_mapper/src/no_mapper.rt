//! What is left where a mapper can't be made.
use hop_ports::Folder;
use hop_vault::Vault;

/// Memory was wanting; the vault is handed back.
#[derive(Drop)]
pub struct NoMapper<V: Folder>(pub Vault<V>);
