//! How answers are written.
use keys::store_key::StoreKey;
use script::command::{Command, parse};
use script::value::Value;
use std::alloc::{AllocError, Global};
use std::process::Abort;
use std::test::Fail;
use transcript::answer::{Answer, Refusal};
use transcript::lines::{write_call_line, write_entry_line, write_total_line};

/// The line for a call.
fn line(heap: Global, command: &Command, answer: &Answer) -> Result<Vec<u8>, AllocError> {
    let mut out = Vec::new(heap);
    write_call_line(&mut out, 12, command, answer)?;
    Ok(out)
}

fn answered(
    rt: &impl Abort,
    heap: Global,
    command: Command,
    answer: Answer,
    what: &[u8],
) -> Result<(), Fail> {
    let out = line(heap, &command, &answer)?;
    assert!(rt; out.as_slice() == what);
    Ok(())
}

#[test]
fn exports(rt: HostRuntime) -> Result<(), Fail> {
    let heap = rt.alloc();
    let command = Command::Export {
        label: b"r1/a",
        value: Value::Hex(b"0a"),
    };
    answered(
        &rt,
        heap,
        command,
        Answer::Done(1),
        b"12 export r1/a: done, 1 byte\n",
    )?;
    answered(
        &rt,
        heap,
        command,
        Answer::Done(0),
        b"12 export r1/a: done, 0 bytes\n",
    )?;
    let refusal = Refusal {
        number: 10,
        layer: 1,
        step: 2,
    };
    answered(
        &rt,
        heap,
        command,
        Answer::Refused(refusal),
        b"12 export r1/a: refused 10, layer 1, step 2\n",
    )
}

#[test]
fn readings(rt: HostRuntime) -> Result<(), Fail> {
    let heap = rt.alloc();
    let command = Command::Read { label: b"" };
    answered(
        &rt,
        heap,
        command,
        Answer::Absent,
        b"12 read \"\": absent\n",
    )?;
    let value = Vec::from_slice(heap, b"a b")?;
    answered(
        &rt,
        heap,
        command,
        Answer::Value(value),
        b"12 read \"\": 3 bytes \"a b\"\n",
    )?;
    let value = Vec::from_slice(heap, &[9, 255])?;
    answered(
        &rt,
        heap,
        command,
        Answer::Value(value),
        b"12 read \"\": 2 bytes x09ff\n",
    )
}

/// The root key, and a key if the bytes are one.
fn two_keys(heap: Global, bytes: &[u8]) -> Result<Vec<StoreKey>, AllocError> {
    let mut keys = Vec::new(heap);
    keys.push(StoreKey::root())?;
    if let Ok(key) = StoreKey::new(bytes) {
        keys.push(key)?;
    }
    Ok(keys)
}

/// The line for a listing.
fn listed(rt: &impl Abort, heap: Global, answer: &Answer, what: &[u8]) -> Result<(), Fail> {
    let mut out = Vec::new(heap);
    if let Ok(Some(command)) = parse(b"list") {
        write_call_line(&mut out, 12, &command, answer)?;
    }
    assert!(rt; out.as_slice() == what);
    Ok(())
}

#[test]
fn listings(rt: HostRuntime) -> Result<(), Fail> {
    let heap = rt.alloc();
    let none = Answer::Keys(Vec::new(heap));
    listed(&rt, heap, &none, b"12 list: 0 keys\n")?;
    let keys = Answer::Keys(two_keys(heap, b"a/b")?);
    listed(&rt, heap, &keys, b"12 list: 2 keys \"\" a/b\n")
}

#[test]
fn ends(rt: HostRuntime) -> Result<(), Fail> {
    let heap = rt.alloc();
    let mut out = Vec::new(heap);
    write_entry_line(&mut out, b"a/b", 32768)?;
    write_total_line(&mut out, 1, 32768)?;
    assert!(rt; out.as_slice() == b"a/b 32768\ntotal 1 key, 32768 bytes\n".as_slice());
    Ok(())
}
