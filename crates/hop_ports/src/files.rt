//! Files in memory, by name.
ghost use Rattle.std.specs.Prelude.{◌≡◌, ◌≤◌, None, Some, IfOk, OnOk, OnErr, IsErrOf, vec_len};
ghost use Rattle.std.specs.Option.{option_copied};
ghost use Rattle.std.specs.FinMap as map;
ghost use Rattle.hop_ports.specs.Files.{files_of};
ghost use Rattle.hop_ports.specs.Causes.{IsLonger};

use crate::folder::GetFault;
use hop_base::NoMemory;
use std::alloc::Global;
use std::collections::BTreeMap;

pub(crate) type FileMap = BTreeMap<String, Vec<u8>>;

// The bytes under a name, where there are any.
fn find<'a>(files: &'a FileMap, name: &str) -> Option<&'a [u8]>
    ensures { option_copied result ≡ map.get (files_of files.now) name.now }
{
    match files.get(name) {
        Some(bytes) => Some(bytes.as_slice()),
        None => None,
    }
}

// A copy of the bytes under a name.
pub(crate) fn look_up(
    alloc: Global,
    files: &FileMap,
    name: &str,
    max: u64,
) -> Result<Vec<u8>, GetFault>
    ensures found { IfOk result (λ bytes. map.get (files_of files.now) name.now ≡ Some bytes.items) }
    ensures bound { IfOk result (λ bytes. vec_len bytes ≤ max) }
    ensures missing { IsErrOf result GetFault.Missing → map.get (files_of files.now) name.now ≡ None }
    ensures too_long { IsErrOf result GetFault.TooLong → IsLonger max (map.get (files_of files.now) name.now) }
    ensures failed { IsErrOf result GetFault.Failed → ⊥ }
{
    let Some(bytes) = find(files, name) else {
        return Err(GetFault::Missing);
    };
    if bytes.len() as u64 > max {
        return Err(GetFault::TooLong);
    }
    match bytes.to_vec(alloc) {
        Ok(copy) => Ok(copy),
        Err(_) => Err(GetFault::NoMemory),
    }
}

// Puts bytes under a name.
pub(crate) fn store(
    alloc: Global,
    files: &mut FileMap,
    name: &str,
    bytes: &[u8],
) -> Result<(), NoMemory>
    ensures ok { OnOk result (files_of files.new ≡ map.insert (files_of files.old) name.now bytes.now) }
    ensures err { OnErr result (files_of files.new ≡ files_of files.old) }
{
    let key = String::from_str(alloc, name)?;
    let value = bytes.to_vec(alloc)?;
    files.insert(key, value)?;
    Ok(())
}
