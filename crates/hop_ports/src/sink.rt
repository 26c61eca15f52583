//! Sinks: bytes go in and are appended.
ghost use Rattle.std.specs.Prelude.{◌≡◌, ◌≤◌, IfErr, OnOk};
ghost use Rattle.hop_ports.specs.Views.{SinkView, appended};
ghost use Rattle.hop_ports.specs.Causes.{SayCause};

use thiserror::Error;

/// Why bytes were not all appended. A prefix of them was.
#[derive(Clone, Copy, Debug, PartialEq, Eq, Error)]
pub enum SayFault {
    /// The sink failed. It comes only where the count of faults rose in this call.
    #[error("the text can't be written")]
    Failed,
    /// No memory was to be had. The count of faults is as before.
    #[error("no memory")]
    NoMemory,
}

/// What takes bytes in order. A sink may tell contracts what it took, as one in memory does, or not,
/// as standard output. It has a count of faults: `Failed` always raises it, and a write that succeeds or
/// finds no memory never does. It doesn't fall, and one that stands at 2^64 - 1 counts as risen.
pub trait Sink {
    /// What the sink took, where it tells it, and its count of faults.
    ghost seen: { Self → SinkView };

    /// Appends the bytes. After a fault a prefix of them was appended.
    fn write(&mut self, bytes: &[u8]) -> Result<(), SayFault>
        ensures counts { (seen self.old).faults ≤ (seen self.new).faults }
        ensures no_fault { OnOk result ((seen self.new).faults ≡ (seen self.old).faults) }
        ensures done { OnOk result ((seen self.new).taken ≡ appended (seen self.old).taken bytes.now) }
        ensures cause { IfErr result (SayCause (seen self.old) (seen self.new) bytes.now) };
}
