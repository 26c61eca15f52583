//! Folders and sinks called by hand.
use hop_ports::{
    CleanFolder, DiskFolder, Folder, Gate, GetFault, MemFolder, MemSink, OpenGate, Point, PutFault,
    SayFault, Sink, StdSink,
};
use std::fs;
use std::test::Fail;

#[test]
fn a_folder_in_memory_fails_where_it_is_told(rt: HostRuntime) -> Result<(), Fail> {
    let mut folder = MemFolder::new(rt.alloc(), vec![in rt.alloc(); 5, 6]?);
    folder.put("a", b"three")?;
    assert_eq!(rt; folder.get("a", 5)?.as_slice(), b"three".as_slice());
    let faults = [
        folder.get("a", 4).err(),
        folder.get("b", 5).err(),
        folder.get("a", 5).err(),
    ];
    assert_eq!(rt;
        faults,
        [
            Some(GetFault::TooLong),
            Some(GetFault::Missing),
            Some(GetFault::Failed)
        ]
    );
    assert_eq!(rt; folder.put("b", b""), Err(PutFault::Failed));
    assert_eq!(rt; folder.get("b", 5).err(), Some(GetFault::Missing));
    Ok(())
}

#[test]
fn a_clean_folder_holds_what_was_put_last(rt: HostRuntime) -> Result<(), Fail> {
    let mut clean = CleanFolder::new(rt.alloc());
    clean.put("a", b"one")?;
    clean.put("a", b"two")?;
    assert_eq!(rt; clean.get("a", 3)?.as_slice(), b"two".as_slice());
    Ok(())
}

#[test]
fn sinks_take_what_is_written(rt: HostRuntime) -> Result<(), Fail> {
    let mut sink = MemSink::new(rt.alloc(), vec![in rt.alloc(); 2]?);
    assert_eq!(rt; sink.write(b"a"), Ok(()));
    assert_eq!(rt; sink.write(b"b"), Err(SayFault::Failed));
    assert_eq!(rt; sink.write(b"c"), Ok(()));
    assert_eq!(rt; sink.taken(), b"ac".as_slice());
    OpenGate.pass(Point::Merged { merger: 0 });
    let mut out = StdSink::new(rt);
    assert_eq!(rt; out.write(b"said\n"), Ok(()));
    Ok(())
}

#[test]
fn a_folder_on_disk(rt: HostRuntime) -> Result<(), Fail> {
    let alloc = rt.alloc();
    let id = std::process::id(rt.process());
    let path = format!(in alloc; "/tmp/hop_ports-{id}")?;
    let path = path.as_str();
    let mut folder = DiskFolder::new(rt, path)?;
    assert_eq!(rt; folder.get("a", 9).err(), Some(GetFault::Missing));
    assert!(rt; !fs::exists(&rt, path)?);
    folder.put("a", b"three")?;
    assert_eq!(rt; folder.get("a", 5)?.as_slice(), b"three".as_slice());
    let inside = format!(in alloc; "{path}/inside")?;
    fs::create_dir(&rt, inside.as_str())?;
    let faults = [folder.get("a", 4).err(), folder.get("inside", 9).err()];
    assert_eq!(rt; faults, [Some(GetFault::TooLong), Some(GetFault::Failed)]);
    assert_eq!(rt; folder.put("inside", b"x"), Err(PutFault::Failed));
    let beside = format!(in alloc; "{path}/.hop-inside")?;
    assert!(rt; !fs::exists(&rt, beside.as_str())?);
    folder.put("a", b"")?;
    assert!(rt; folder.get("a", 0)?.is_empty());
    fs::remove_dir_all(&rt, path)?;
    Ok(())
}
