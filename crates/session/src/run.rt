//! A script, line by line.
ghost use Rattle.std.specs.Prelude.{◌≡◌, true, ◌++◌, OnOk};
ghost use Rattle.script.specs.Commands.{line_says};
ghost use Rattle.session.specs.Runs.{LineRun, holds_text};

use crate::calls::perform;
use atomic_write::atomic_write::AtomicWriteStorageAdapter;
use listings::stored_keys::stored_keys;
use script::command::parse;
use std::alloc::AllocError;
use storage::storage_sync::writes::{AtomicRenameStorageTraits, ListableStorageTraits};
use transcript::lines::{write_call_line, write_entry_line, write_mistake_line, write_total_line};

/// Performs what a line asks for, and writes what came of it. A line that is no call changes nothing in the store.
pub fn run_line<S: AtomicRenameStorageTraits + ListableStorageTraits>(
    look_box: &mut AtomicWriteStorageAdapter<S>,
    number: u64,
    line: &[u8],
    out: &mut Vec<u8>,
) -> Result<(), AllocError>
    ensures { S.ReadableStorageTraits.tidy ≡ true → OnOk result (LineRun S.ReadableStorageTraits number (line_says line.now) look_box.old.storage look_box.new.storage out.old.items out.new.items) }
{
    match parse(line) {
        Ok(None) => Ok(()),
        Ok(Some(command)) => {
            let answer = perform(look_box, &command, *out.allocator())?;
            write_call_line(out, number, &command, &answer)
        }
        Err(error) => write_mistake_line(out, number, &error),
    }
}

/// Writes what the store holds: each key with the length of its value, ascending, and the total.
pub fn write_holds<S: ListableStorageTraits>(store: &S, out: &mut Vec<u8>) -> Result<(), AllocError>
    ensures { OnOk result (out.new.items ≡ out.old.items ++ holds_text (S.ReadableStorageTraits.contents store.now)) }
{
    let mut count: u64 = 0;
    let mut bytes: u64 = 0;
    for key in stored_keys(store) {
        let size = store.size_key(&key).unwrap_or(0);
        write_entry_line(out, key.as_bytes(), size)?;
        bytes += size;
        count += 1;
    }
    write_total_line(out, count, bytes)
}
