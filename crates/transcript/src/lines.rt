//! The lines of a run: one for each call, and what the store holds at the end.
ghost use Rattle.std.specs.Prelude.{◌≡◌, ◌++◌, OnOk};
ghost use Rattle.script.specs.Commands.{call_of, mistake_of};
ghost use Rattle.transcript.specs.Answers.{call_line, mistake_line, entry_line, total_line};

use crate::answer::{Answer, Count, write_answer, write_head, write_mistake, write_shown};
use crate::write::write_label;
use script::command::{Command, ParseError};
use std::alloc::AllocError;

/// Writes the line for a call: the number of its line, the call and its answer.
pub fn write_call_line(
    out: &mut Vec<u8>,
    number: u64,
    command: &Command,
    answer: &Answer,
) -> Result<(), AllocError>
    ensures { OnOk result (out.new.items ≡ out.old.items ++ call_line number (call_of command.now) answer.now) }
{
    write_shown(out, number)?;
    out.push(b' ')?;
    write_head(out, command)?;
    out.extend_from_slice(b": ")?;
    write_answer(out, answer)?;
    out.push(b'\n')?;
    Ok(())
}

/// Writes the line for a line that is no call.
pub fn write_mistake_line(
    out: &mut Vec<u8>,
    number: u64,
    error: &ParseError,
) -> Result<(), AllocError>
    ensures { OnOk result (out.new.items ≡ out.old.items ++ mistake_line number (mistake_of error.now)) }
{
    out.extend_from_slice(b"line ")?;
    write_shown(out, number)?;
    out.extend_from_slice(b": ")?;
    write_mistake(out, error)?;
    out.push(b'\n')?;
    Ok(())
}

/// Writes the line for a key that the store holds: its bytes, and the length of its value.
pub fn write_entry_line(out: &mut Vec<u8>, key: &[u8], len: u64) -> Result<(), AllocError>
    ensures { OnOk result (out.new.items ≡ out.old.items ++ entry_line key.now len) }
{
    write_label(out, key)?;
    out.push(b' ')?;
    write_shown(out, len)?;
    out.push(b'\n')?;
    Ok(())
}

/// Writes the last line: how many keys the store holds, and how many bytes in all.
pub fn write_total_line(out: &mut Vec<u8>, keys: u64, bytes: u64) -> Result<(), AllocError>
    ensures { OnOk result (out.new.items ≡ out.old.items ++ total_line keys bytes) }
{
    out.extend_from_slice(b"total ")?;
    write_shown(out, Count(keys, "key"))?;
    out.extend_from_slice(b", ")?;
    write_shown(out, Count(bytes, "byte"))?;
    out.push(b'\n')?;
    Ok(())
}
