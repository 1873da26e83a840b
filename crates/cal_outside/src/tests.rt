use crate::{
    FileStore, Got, MemFile, MemSink, MemStore, ReadAllFault, Sink, SinkFault, StdSink, Store,
    Took, Word, read_all, write_all_text,
};
use cal_value::{List, NoMemory};
use std::alloc::Global;
use std::fs;
use std::test::Fail;

#[test]
fn real_files(rt: HostRuntime) -> Result<(), Fail> {
    let alloc = rt.alloc();
    fs::write(&rt, "a.txt", "some text")?;
    let mut store = FileStore::new(&rt);
    let bytes = read_all(alloc, &mut store, "a.txt", 9)?;
    assert_eq!(rt; bytes.as_slice(), b"some text".as_slice());
    assert_eq!(rt; store.fault_count(), 0);
    let longer = read_all(alloc, &mut store, "a.txt", 8).err();
    assert_eq!(rt; longer, Some(ReadAllFault::TooBig { limit: 8 }));
    let missing = read_all(alloc, &mut store, "b.txt", 8).err();
    assert_eq!(rt; missing, Some(ReadAllFault::ReadFault));
    assert_eq!(rt; store.fault_count(), 1);
    Ok(())
}

#[test]
fn real_output(rt: HostRuntime) -> Result<(), Fail> {
    let mut out = StdSink::new(&rt);
    let written = write_all_text(&mut out, b"some text\n");
    assert_eq!(rt; written, Ok(()));
    assert_eq!(rt; out.fault_count(), 0);
    Ok(())
}

// A store with the file `a`, whose second and fourth reads fail.
fn memory_store(alloc: Global) -> Result<MemStore, NoMemory> {
    let mut bytes = List::new(alloc);
    bytes.extend(b"abcde")?;
    let name = Word::of(alloc, "a")?;
    let mut files = List::new(alloc);
    files.push(MemFile { name, bytes })?;
    let mut failing = List::new(alloc);
    failing.push(2)?;
    failing.push(4)?;
    Ok(MemStore::new(files, failing))
}

#[test]
fn a_store_in_memory(rt: HostRuntime) -> Result<(), Fail> {
    let mut store = memory_store(rt.alloc())?;
    let mut buffer = [0u8; 3];
    for (name, at, got, faults) in [
        ("a", 0u64, Got::Bytes(3), 0u64),
        ("a", 3, Got::Failed, 1),
        ("a", 3, Got::Bytes(2), 1),
        ("a", 5, Got::Failed, 2),
        ("a", 5, Got::End, 2),
        ("b", 0, Got::Failed, 3),
        ("a", 0, Got::Bytes(3), 3),
    ] {
        assert_eq!(rt; store.read(name, at, &mut buffer), got);
        assert_eq!(rt; store.fault_count(), faults);
    }
    Ok(())
}

#[test]
fn a_sink_in_memory(rt: HostRuntime) -> Result<(), Fail> {
    let alloc = rt.alloc();
    let mut failing = List::new(alloc);
    failing.push(2u64)?;
    failing.push(5)?;
    let mut out = MemSink::new(alloc, 2, failing);
    for (piece, took) in [
        ("abc", Took::Bytes(2)),
        ("c", Took::Failed),
        ("c", Took::Bytes(1)),
    ] {
        assert_eq!(rt; out.write(piece.as_bytes()), took);
    }
    let cut = write_all_text(&mut out, b"defg");
    assert_eq!(rt; cut, Err(SinkFault));
    assert_eq!(rt; out.bytes().as_slice(), b"abcde".as_slice());
    assert_eq!(rt; out.fault_count(), 2);
    Ok(())
}
