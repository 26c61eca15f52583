//! A sink in memory of whose writes some fail, and standard output.
ghost use Rattle.std.specs.Prelude.{◌≡◌, ◌≤◌, ◌↔◌, [], Some, IfErr, OnOk, IsTrue};
ghost use Rattle.hop_ports.specs.Views.{appended};
ghost use Rattle.hop_ports.specs.Causes.{SayCause};
ghost use Rattle.hop_ports.specs.Counts.{counted};

use crate::count::raised;
use crate::sink::{SayFault, Sink};
use std::alloc::Global;
use std::io;
use std::io::Write;

/// A sink in memory that tells what it took. The writes with the given numbers, counted from 1, fail
/// and take nothing.
#[derive(Drop)]
pub struct MemSink {
    taken: Vec<u8>,
    fails: Vec<u64>,
    calls: u64,
    faults: u64,
}

impl MemSink {
    ghost use Rattle.hop_ports.specs.Sinks.{told, memory_sink, writes_made, failing_writes, write_fails_next, IsNextWrite};

    /// A sink that took nothing. `fails` are the numbers of the writes that fail, ascending. It takes
    /// no memory.
    pub fn new(alloc: Global, fails: Vec<u64>) -> MemSink
        ensures empty { memory_sink result ≡ told [] 0 }
        ensures fresh { writes_made result ≡ 0 }
        ensures failing { failing_writes result ≡ fails.items }
    {
        MemSink {
            taken: Vec::new(alloc),
            fails,
            calls: 0,
            faults: 0,
        }
    }

    /// The bytes that it took.
    pub fn taken(&self) -> &[u8]
        ensures { (memory_sink self.now).taken ≡ Some result.now }
    {
        &self.taken
    }

    // Counts a write, and says whether it fails.
    fn fails_now(&mut self) -> bool
        ensures fails { result ≡ write_fails_next self.old }
        ensures counted { IsNextWrite self.old self.new }
        ensures view { memory_sink self.new ≡ memory_sink self.old }
    {
        self.calls = raised(self.calls);
        self.fails.contains(&self.calls)
    }
}

impl Sink for MemSink {
    ghost use Rattle.hop_ports.specs.Sinks.{memory_sink, write_fails_next, IsNextWrite};

    ghost seen = { memory_sink };

    fn write(&mut self, bytes: &[u8]) -> Result<(), SayFault>
        ensures counts { (memory_sink self.old).faults ≤ (memory_sink self.new).faults }
        ensures no_fault { OnOk result ((memory_sink self.new).faults ≡ (memory_sink self.old).faults) }
        ensures done { OnOk result ((memory_sink self.new).taken ≡ appended (memory_sink self.old).taken bytes.now) }
        ensures cause { IfErr result (SayCause (memory_sink self.old) (memory_sink self.new) bytes.now) }
        ensures failing { (result ≡ Err SayFault.Failed) ↔ IsTrue (write_fails_next self.old) }
        ensures faults { (memory_sink self.new).faults ≡ counted (write_fails_next self.old) (memory_sink self.old).faults }
        ensures unchanged { IfErr result (λ _. (memory_sink self.new).taken ≡ (memory_sink self.old).taken) }
        ensures next { IsNextWrite self.old self.new }
    {
        if self.fails_now() {
            self.faults = raised(self.faults);
            return Err(SayFault::Failed);
        }
        match self.taken.extend_from_slice(bytes) {
            Ok(()) => Ok(()),
            Err(_) => Err(SayFault::NoMemory),
        }
    }
}

/// Standard output. It doesn't tell contracts what it took: what reaches the system is trusted.
#[derive(Drop)]
pub struct StdSink<R: Print + Drop> {
    rt: R,
    faults: u64,
}

impl<R: Print + Drop> StdSink<R> {
    ghost use Rattle.hop_ports.specs.Sinks.{untold_sink, output_view};

    /// Standard output with no faults yet. It takes no memory.
    pub fn new(rt: R) -> StdSink<R>
        ensures { output_view result ≡ untold_sink 0 }
    {
        StdSink { rt, faults: 0 }
    }

    // Writes all bytes through to the system.
    fn write_through(&self, bytes: &[u8]) -> io::Result<()> {
        let mut out = io::writer(&self.rt);
        out.write_all(bytes)?;
        out.flush()
    }
}

impl<R: Print + Drop> Sink for StdSink<R> {
    ghost use Rattle.hop_ports.specs.Sinks.{output_view};

    ghost seen = { output_view };

    fn write(&mut self, bytes: &[u8]) -> Result<(), SayFault> {
        match self.write_through(bytes) {
            Ok(()) => Ok(()),
            Err(_) => {
                self.faults = raised(self.faults);
                Err(SayFault::Failed)
            }
        }
    }
}
