//! A look box: performs a script of calls from standard input on an atomic write adapter over a store that starts empty.
//! Prints one line for each call, and at the end what the store holds.
#![tactic(auto)]

use atomic_write::atomic_write::AtomicWriteStorageAdapter;
use memory_store::memory_store::MemoryStore;
use session::run::{run_line, write_holds};
use std::io;
use std::io::{Read, Write};

/// Performs the lines of a script in order.
fn run(
    rt: &HostRuntime,
    look_box: &mut AtomicWriteStorageAdapter<MemoryStore>,
    script: &[u8],
) -> io::Result<()> {
    for (i, line) in script.split(|b| *b == b'\n').enumerate() {
        let mut out = Vec::new(rt.alloc());
        run_line(look_box, i as u64 + 1, line, &mut out)?;
        rt.stdout().write_all(out.as_slice())?;
    }
    Ok(())
}

fn main(rt: HostRuntime) -> io::Result<()> {
    let mut script = Vec::new(rt.alloc());
    rt.stdin().read_to_end(&mut script)?;
    let store = MemoryStore::new(rt.alloc())?;
    let mut look_box = AtomicWriteStorageAdapter::new(store);
    let ran = run(&rt, &mut look_box, script.as_slice());
    let mut out = Vec::new(rt.alloc());
    let written = write_holds(&look_box, &mut out);
    drop(look_box.into_inner());
    ran?;
    written?;
    rt.stdout().write_all(b"holds:\n")?;
    rt.stdout().write_all(out.as_slice())
}
