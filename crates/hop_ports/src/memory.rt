//! A folder in memory of whose calls some fail.
ghost use Rattle.std.specs.Prelude.{◌≡◌, ◌≤◌, ◌↔◌, Some, IfOk, IfErr, OnOk, IfSome, IsTrue, vec_len};
ghost use Rattle.std.specs.FinMap as map;
ghost use Rattle.hop_ports.specs.Views.{with_file};
ghost use Rattle.hop_ports.specs.Causes.{OnlyRead, OnlyPut, GetCause, PutCause};
ghost use Rattle.hop_ports.specs.Counts.{counted};

use crate::count::raised;
use crate::files::{FileMap, look_up, store};
use crate::folder::{Folder, GetFault, PutFault};
use hop_base::NoMemory;
use std::alloc::Global;
use std::collections::BTreeMap;

/// A folder in memory that tells what it holds. The calls with the given numbers fail, where gets and
/// puts are counted together from 1; a call that fails does nothing else.
#[derive(Drop)]
pub struct MemFolder {
    alloc: Global,
    files: FileMap,
    fails: Vec<u64>,
    calls: u64,
    gets: u64,
    puts: u64,
}

impl MemFolder {
    ghost use Rattle.hop_ports.specs.Memory.{memory_view, calls_made, failing_calls, fails_next, IsNextCall};
    ghost use Rattle.hop_ports.specs.Clean.{nothing_held};

    /// A folder that holds nothing and was not called yet. `fails` are the numbers of the calls that
    /// fail, ascending. It takes no memory.
    pub fn new(alloc: Global, fails: Vec<u64>) -> MemFolder
        ensures empty { memory_view result ≡ nothing_held }
        ensures fresh { calls_made result ≡ 0 }
        ensures failing { failing_calls result ≡ fails.items }
    {
        MemFolder {
            alloc,
            files: BTreeMap::new(alloc),
            fails,
            calls: 0,
            gets: 0,
            puts: 0,
        }
    }

    // Counts a call, and says whether it fails.
    fn fails_now(&mut self) -> bool
        ensures fails { result ≡ fails_next self.old }
        ensures counted { IsNextCall self.old self.new }
        ensures view { memory_view self.new ≡ memory_view self.old }
    {
        self.calls = raised(self.calls);
        self.fails.contains(&self.calls)
    }
}

impl Folder for MemFolder {
    ghost use Rattle.hop_ports.specs.Memory.{memory_view, fails_next, IsNextCall};

    ghost seen = { memory_view };

    fn get(&mut self, name: &str, max: u64) -> Result<Vec<u8>, GetFault>
        ensures left { OnlyRead (memory_view self.old) (memory_view self.new) }
        ensures no_fault { OnOk result ((memory_view self.new).gets ≡ (memory_view self.old).gets) }
        ensures found { IfOk result (λ bytes. IfSome (memory_view self.old).held (λ files. map.get files name.now ≡ Some bytes.items)) }
        ensures bound { IfOk result (λ bytes. vec_len bytes ≤ max) }
        ensures cause { IfErr result (GetCause (memory_view self.old) (memory_view self.new) name.now max) }
        ensures failing { (result ≡ Err GetFault.Failed) ↔ IsTrue (fails_next self.old) }
        ensures faults { (memory_view self.new).gets ≡ counted (fails_next self.old) (memory_view self.old).gets }
        ensures next { IsNextCall self.old self.new }
    {
        if self.fails_now() {
            self.gets = raised(self.gets);
            return Err(GetFault::Failed);
        }
        look_up(self.alloc, &self.files, name, max)
    }

    fn put(&mut self, name: &str, bytes: &[u8]) -> Result<(), PutFault>
        ensures counts { OnlyPut (memory_view self.old) (memory_view self.new) }
        ensures no_fault { OnOk result ((memory_view self.new).puts ≡ (memory_view self.old).puts) }
        ensures done { OnOk result ((memory_view self.new).held ≡ with_file (memory_view self.old).held name.now bytes.now) }
        ensures cause { IfErr result (PutCause (memory_view self.old) (memory_view self.new) name.now bytes.now) }
        ensures failing { (result ≡ Err PutFault.Failed) ↔ IsTrue (fails_next self.old) }
        ensures faults { (memory_view self.new).puts ≡ counted (fails_next self.old) (memory_view self.old).puts }
        ensures unchanged { result ≡ Err PutFault.Failed → (memory_view self.new).held ≡ (memory_view self.old).held }
        ensures next { IsNextCall self.old self.new }
    {
        if self.fails_now() {
            self.puts = raised(self.puts);
            return Err(PutFault::Failed);
        }
        match store(self.alloc, &mut self.files, name, bytes) {
            Ok(()) => Ok(()),
            Err(NoMemory) => Err(PutFault::NoMemory),
        }
    }
}
