//! Values and calls written as a script has them.
ghost use Rattle.std.specs.Prelude.{◌≡◌, ◌++◌, Some, OnOk};
ghost use Rattle.script.specs.Commands.{call_of, exporting, reading};
ghost use Rattle.script.specs.Values.{value_said};
ghost use Rattle.transcript.specs.Written.{shown_byte, printable, value_text, label_text, WrittenAs};

use script::command::Command;
use script::hex::encode;
use std::alloc::AllocError;

/// True for printable ASCII other than a quote.
fn is_shown(b: u8) -> bool
    ensures { result ≡ shown_byte b }
{
    matches!(b, b' '..=b'~') && b != b'"'
}

/// True if each byte is printable ASCII other than a quote.
fn is_printable(bytes: &[u8]) -> bool
    ensures { result ≡ printable bytes.now }
{
    bytes.iter().all(|b| is_shown(*b))
}

/// Writes a value: text in quotes where it is printable, else `x` and pairs of hexadecimal digits.
fn put_value(out: &mut Vec<u8>, bytes: &[u8]) -> Result<(), AllocError>
    ensures { OnOk result (out.new.items ≡ out.old.items ++ value_text bytes.now) }
{
    if is_printable(bytes) {
        out.push(b'"')?;
        out.extend_from_slice(bytes)?;
        out.push(b'"')?;
        Ok(())
    } else {
        out.push(b'x')?;
        encode(bytes, out)
    }
}

/// Writes a value: text in quotes where it is printable, else `x` and pairs of hexadecimal digits.
/// A script reads it back as the same bytes.
pub fn write_value(out: &mut Vec<u8>, bytes: &[u8]) -> Result<(), AllocError>
    ensures writes { OnOk result (out.new.items ≡ out.old.items ++ value_text bytes.now) }
    ensures back { value_said (value_text bytes.now) ≡ Some bytes.now }
{
    put_value(out, bytes)
}

/// Writes a label: two quotes for the empty one.
pub(crate) fn write_label(out: &mut Vec<u8>, label: &[u8]) -> Result<(), AllocError>
    ensures { OnOk result (out.new.items ≡ out.old.items ++ label_text label.now) }
{
    if label.is_empty() {
        out.extend_from_slice(b"\"\"")
    } else {
        out.extend_from_slice(label)
    }
}

/// Writes an export.
fn write_export(out: &mut Vec<u8>, label: &[u8], bytes: &[u8]) -> Result<(), AllocError>
    ensures { OnOk result (WrittenAs (exporting label.now bytes.now) out.old.items out.new.items) }
{
    out.extend_from_slice(b"export ")?;
    write_label(out, label)?;
    out.push(b' ')?;
    write_value(out, bytes)
}

/// Writes a reading.
fn write_read(out: &mut Vec<u8>, label: &[u8]) -> Result<(), AllocError>
    ensures { OnOk result (WrittenAs (reading label.now) out.old.items out.new.items) }
{
    out.extend_from_slice(b"read ")?;
    write_label(out, label)
}

/// Writes a command as a line of a script, which reads back as the same call.
pub fn write_command(out: &mut Vec<u8>, command: &Command) -> Result<(), AllocError>
    ensures { OnOk result (WrittenAs (call_of command.now) out.old.items out.new.items) }
{
    match command {
        Command::Export { label, value } => {
            let bytes = value.to_bytes(*out.allocator())?;
            write_export(out, label, bytes.as_slice())
        }
        Command::Read { label } => write_read(out, label),
        Command::List => out.extend_from_slice(b"list"),
    }
}
