use crate::run;
use cal_outside::{MemFile, MemSink, MemStore, Word};
use cal_value::{List, NoMemory};
use std::alloc::Global;
use std::test::Fail;

// A store with the file `a`, whose read of this number fails.
fn store(alloc: Global, text: &str, failing: u64) -> Result<MemStore, NoMemory> {
    let mut bytes = List::new(alloc);
    bytes.extend(text.as_bytes())?;
    let name = Word::of(alloc, "a")?;
    let mut files = List::new(alloc);
    files.push(MemFile { name, bytes })?;
    let mut numbers = List::new(alloc);
    numbers.push(failing)?;
    Ok(MemStore::new(files, numbers))
}

#[test]
fn each_end(rt: HostRuntime) -> Result<(), Fail> {
    let alloc = rt.alloc();
    for (name, text, read, write, status, written) in [
        (Some("a"), "N:int\n1\n2\n", 0u64, 0u64, 0u8, "rows 2\n"),
        (None, "", 0, 0, 2, ""),
        (Some("a"), "N:int\nx\n", 0, 0, 3, ""),
        (Some("a"), "N:byte\n", 0, 0, 3, ""),
        (Some("b"), "N:int\n", 0, 0, 5, ""),
        (Some("a"), "N:int\n", 1, 0, 5, ""),
        (Some("a"), "N:int\n", 0, 1, 6, ""),
    ] {
        let mut store = store(alloc, text, read)?;
        let mut failing = List::new(alloc);
        failing.push(write)?;
        let mut out = MemSink::new(alloc, 100, failing);
        assert_eq!(rt; run(alloc, name, &mut store, &mut out), status);
        assert_eq!(rt; out.bytes().as_slice(), written.as_bytes());
    }
    Ok(())
}
