//! What lines say.
use script::command::parse;
use std::alloc::{AllocError, Global};
use std::process::Abort;
use std::test::Fail;
use transcript::lines::write_mistake_line;
use transcript::write::write_command;

/// What a line says: the call as it is written, `nothing`, or what is wrong.
fn told(heap: Global, line: &[u8]) -> Result<Vec<u8>, AllocError> {
    let mut out = Vec::new(heap);
    match parse(line) {
        Ok(None) => out.extend_from_slice(b"nothing")?,
        Ok(Some(command)) => write_command(&mut out, &command)?,
        Err(error) => write_mistake_line(&mut out, 7, &error)?,
    }
    Ok(out)
}

fn says(rt: &impl Abort, heap: Global, line: &[u8], what: &[u8]) -> Result<(), Fail> {
    let out = told(heap, line)?;
    assert!(rt; out.as_slice() == what);
    Ok(())
}

#[test]
fn nothing_is_said(rt: HostRuntime) -> Result<(), Fail> {
    let heap = rt.alloc();
    says(&rt, heap, b"", b"nothing")?;
    says(&rt, heap, b" \t\r", b"nothing")?;
    says(&rt, heap, b"# export a x", b"nothing")?;
    says(&rt, heap, b"  #", b"nothing")
}

#[test]
fn calls_are_read(rt: HostRuntime) -> Result<(), Fail> {
    let heap = rt.alloc();
    says(&rt, heap, b"list", b"list")?;
    says(&rt, heap, b"  list  \r", b"list")?;
    says(&rt, heap, b"read r1/grade.prj", b"read r1/grade.prj")?;
    says(&rt, heap, b"read \"\"", b"read \"\"")?;
    says(&rt, heap, b"\tread\ta ", b"read a")
}

#[test]
fn values_are_read(rt: HostRuntime) -> Result<(), Fail> {
    let heap = rt.alloc();
    says(
        &rt,
        heap,
        b"export a \"exposure 3\"",
        b"export a \"exposure 3\"",
    )?;
    says(&rt, heap, b"export a \"\"  ", b"export a \"\"")?;
    says(&rt, heap, b"export a x", b"export a \"\"")?;
    says(&rt, heap, b"export a x6162", b"export a \"ab\"")?;
    says(&rt, heap, b"export a x00ff7f", b"export a x00ff7f")?;
    says(
        &rt,
        heap,
        b"export a \"say \"hi\" \" ",
        b"export a x736179202268692220",
    )?;
    says(&rt, heap, b"export a/b \" \"", b"export a/b \" \"")
}

#[test]
fn mistakes_are_told(rt: HostRuntime) -> Result<(), Fail> {
    let heap = rt.alloc();
    says(&rt, heap, b"exprot a x", b"line 7: unknown word exprot\n")?;
    says(&rt, heap, b"List", b"line 7: unknown word List\n")?;
    says(&rt, heap, b"read", b"line 7: no label\n")?;
    says(&rt, heap, b"export", b"line 7: no label\n")?;
    says(&rt, heap, b"export a", b"line 7: no value\n")?;
    says(&rt, heap, b"export a b", b"line 7: bad value\n")?;
    says(&rt, heap, b"export a \"", b"line 7: bad value\n")?;
    says(&rt, heap, b"export a \"b\" c", b"line 7: bad value\n")
}

#[test]
fn more_mistakes_are_told(rt: HostRuntime) -> Result<(), Fail> {
    let heap = rt.alloc();
    says(&rt, heap, b"export a x0", b"line 7: bad value\n")?;
    says(&rt, heap, b"export a x0G", b"line 7: bad value\n")?;
    says(&rt, heap, b"export a xAB", b"line 7: bad value\n")?;
    says(&rt, heap, b"export a x00 x", b"line 7: bad value\n")?;
    says(&rt, heap, b"read a b c ", b"line 7: extra text b c\n")?;
    says(&rt, heap, b"list all", b"line 7: extra text all\n")
}
