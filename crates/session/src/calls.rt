//! One call.
ghost use Rattle.std.specs.Prelude.{◌≡◌, true, map, length, IfOk};
ghost use Rattle.keys.specs.StoreKeys.{text};
ghost use Rattle.storage.specs.Contents.{keys_of};
ghost use Rattle.script.specs.Commands.{call_of};
ghost use Rattle.session.specs.Calls.{refusal_of, export_answer, ExportAnswered, ReadAnswered, ListAnswered, Performed};

use atomic_write::atomic_write::AtomicWriteStorageAdapter;
use keys::store_key::StoreKey;
use listings::stored_keys::stored_keys;
use script::command::Command;
use std::alloc::{AllocError, Global};
use storage::fault::Fault;
use storage::reads::get;
use storage::storage_sync::ReadableStorageTraits;
use storage::storage_sync::writes::{
    AtomicRenameStorageTraits, ListableStorageTraits, WritableStorageTraits,
};
use transcript::answer::{Answer, Refusal};

/// What is printed of a fault.
fn refusal(fault: &Fault) -> Refusal
    ensures { result ≡ refusal_of fault.now }
{
    Refusal {
        number: fault.cause.number(),
        layer: fault.depth,
        step: fault.step,
    }
}

/// Stores a value under a label.
fn set_labelled<S: AtomicRenameStorageTraits>(
    look_box: &mut AtomicWriteStorageAdapter<S>,
    label: &[u8],
    value: &[u8],
) -> Result<(), Fault>
    ensures { S.ReadableStorageTraits.tidy ≡ true → ExportAnswered S.ReadableStorageTraits label.now value.now look_box.old.storage look_box.new.storage (export_answer (length value.now) result) }
{
    let key = StoreKey::new(label)?;
    look_box.set(&key, value)
}

/// Exports a value under a label.
pub fn export<S: AtomicRenameStorageTraits>(
    look_box: &mut AtomicWriteStorageAdapter<S>,
    label: &[u8],
    value: &[u8],
) -> Answer
    ensures { S.ReadableStorageTraits.tidy ≡ true → ExportAnswered S.ReadableStorageTraits label.now value.now look_box.old.storage look_box.new.storage result }
{
    match set_labelled(look_box, label, value) {
        Ok(()) => Answer::Done(value.len()),
        Err(fault) => Answer::Refused(refusal(&fault)),
    }
}

/// Reads a label back.
pub fn read<S: ReadableStorageTraits>(
    store: &S,
    label: &[u8],
    heap: Global,
) -> Result<Answer, AllocError>
    ensures { IfOk result (λ a. ReadAnswered label.now (S.ReadableStorageTraits.contents store.now) a) }
{
    let key = match StoreKey::new(label) {
        Ok(key) => key,
        Err(e) => return Ok(Answer::Refused(refusal(&Fault::from(e)))),
    };
    let Some(size) = store.size_key(&key) else {
        return Ok(Answer::Absent);
    };
    let mut value = vec![in heap; 0; size as usize]?;
    match get(store, &key, value.as_mut_slice()) {
        Ok(Some(_)) => Ok(Answer::Value(value)),
        Ok(None) => Ok(Answer::Absent),
        Err(fault) => Ok(Answer::Refused(refusal(&fault))),
    }
}

/// Lists every key.
pub fn list<S: ListableStorageTraits>(store: &S, heap: Global) -> Result<Answer, AllocError>
    ensures { IfOk result (λ a. ListAnswered (S.ReadableStorageTraits.contents store.now) a) }
{
    let mut keys = Vec::new(heap);
    for key in stored_keys(store) {
        keys.push(key)?;
    }
    Ok(Answer::Keys(keys))
}

/// Performs a command on the box.
pub fn perform<S: AtomicRenameStorageTraits + ListableStorageTraits>(
    look_box: &mut AtomicWriteStorageAdapter<S>,
    command: &Command,
    heap: Global,
) -> Result<Answer, AllocError>
    ensures { S.ReadableStorageTraits.tidy ≡ true → IfOk result (λ a. Performed S.ReadableStorageTraits (call_of command.now) look_box.old.storage look_box.new.storage a) }
{
    match command {
        Command::Export { label, value } => {
            let bytes = value.to_bytes(heap)?;
            Ok(export(look_box, label, bytes.as_slice()))
        }
        Command::Read { label } => read(look_box, label, heap),
        Command::List => list(look_box, heap),
    }
}
