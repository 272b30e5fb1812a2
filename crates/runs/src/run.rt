//! Runs of calls: the laws over them.

ghost use Rattle.std.specs.Prelude.{◌≡◌, [], is_ok};
ghost use Rattle.runs.specs.Runs.{RanOnTidy, Reached, LawfulRun, LawfulTwoRuns};

use crate::call::{Answer, Call};
use crate::perform::perform;
use atomic_write::atomic_write::AtomicWriteStorageAdapter;
use std::alloc::{AllocError, Global};
use storage::storage_sync::ReadableStorageTraits;
use storage::storage_sync::writes::{AtomicRenameStorageTraits, ListableStorageTraits};

/// The answers to the first calls of a run, and how it ended: all calls are answered, or there was no memory to record the next.
#[derive(Drop)]
pub struct Recorded {
    pub answers: Vec<Answer>,
    pub ended: Result<(), AllocError>,
}

/// Performs calls in order, and records their answers. Want of memory ends it before the call.
fn record<S: AtomicRenameStorageTraits + ListableStorageTraits>(
    adapter: &mut AtomicWriteStorageAdapter<S>,
    calls: &[Call],
    answers: &mut Vec<Answer>,
    heap: Global,
) -> Result<(), AllocError>
    requires { answers.old.items ≡ [] }
    ensures ran { RanOnTidy S.ReadableStorageTraits calls.now answers.new.items adapter.old.storage adapter.new.storage }
    ensures reached { Reached calls.now (is_ok result) answers.new.items }
{
    for call in calls {
        answers.reserve(1)?;
        let answer = perform(adapter, call, heap)?;
        answers.push(answer)?;
    }
    Ok(())
}

/// The calls of a run, performed in order from an empty record on.
fn performed<S: AtomicRenameStorageTraits + ListableStorageTraits>(
    adapter: &mut AtomicWriteStorageAdapter<S>,
    calls: &[Call],
    heap: Global,
) -> Recorded
    ensures ran { RanOnTidy S.ReadableStorageTraits calls.now result.answers.items adapter.old.storage adapter.new.storage }
    ensures reached { Reached calls.now (is_ok result.ended) result.answers.items }
{
    let mut answers = Vec::new(heap);
    let ended = record(adapter, calls, &mut answers, heap);
    Recorded { answers, ended }
}

/// Makes a run, and records its answers, refused ones too. The laws hold of it.
pub fn run<S: AtomicRenameStorageTraits + ListableStorageTraits>(
    adapter: &mut AtomicWriteStorageAdapter<S>,
    calls: &[Call],
    heap: Global,
) -> Recorded
    ensures laws { LawfulRun S.ReadableStorageTraits calls.now result.answers.items adapter.old.storage adapter.new.storage }
    ensures reached { Reached calls.now (is_ok result.ended) result.answers.items }
{
    performed(adapter, calls, heap)
}

/// Makes two runs, on piles of their own. Where they are alike on a prefix, and no write was refused below, they leave and answer the same there.
pub fn run_two<
    S: AtomicRenameStorageTraits + ListableStorageTraits,
    R: AtomicRenameStorageTraits + ListableStorageTraits,
>(
    one: &mut AtomicWriteStorageAdapter<S>,
    calls: &[Call],
    other: &mut AtomicWriteStorageAdapter<R>,
    others: &[Call],
    heap: Global,
) -> (Recorded, Recorded)
    ensures first { LawfulRun S.ReadableStorageTraits calls.now result.0.answers.items one.old.storage one.new.storage }
    ensures second { LawfulRun R.ReadableStorageTraits others.now result.1.answers.items other.old.storage other.new.storage }
    ensures reached { Reached calls.now (is_ok result.0.ended) result.0.answers.items × Reached others.now (is_ok result.1.ended) result.1.answers.items }
    ensures same { LawfulTwoRuns S.ReadableStorageTraits R.ReadableStorageTraits calls.now result.0.answers.items one.old.storage one.new.storage others.now result.1.answers.items other.old.storage other.new.storage }
{
    let first = performed(one, calls, heap);
    let second = performed(other, others, heap);
    (first, second)
}
