//! How a call was answered, and the lines that say so.
ghost use Rattle.std.specs.Prelude.{◌≡◌, ◌++◌, Some, IfSome, OnOk};
ghost use Rattle.std.specs.List.{flat_map};
ghost use Rattle.keys.specs.StoreKeys.{text};
ghost use Rattle.script.specs.Commands.{call_of, mistake_of};
ghost use Rattle.transcript.specs.Answers.{refusal_text, mistake_text, head_text, count_text, key_text, done_text, sized_text, counted_text, answer_text};
ghost use Rattle.transcript.specs.Written.{label_text};

use crate::write::{write_label, write_value};
use keys::store_key::StoreKey;
use script::command::{Command, ParseError};
use std::alloc::AllocError;
use std::fmt;

/// A refusal, in the numbers that a line says: which it is, how many layers below the called one it arose,
/// and the step of an export.
#[derive(Clone, Copy)]
pub struct Refusal {
    pub number: u8,
    pub layer: u16,
    pub step: u8,
}

/// How a call was answered.
#[derive(Drop)]
pub enum Answer {
    /// That many bytes were exported.
    Done(usize),
    /// The call was refused.
    Refused(Refusal),
    /// The bytes of a label.
    Value(Vec<u8>),
    /// Nothing stands under the label.
    Absent,
    /// The stored keys.
    Keys(Vec<StoreKey>),
}

impl fmt::Display for Refusal {
    ghost output = { λ r. Some (refusal_text r) };

    fn fmt<W: fmt::Write>(&self, f: &mut fmt::Formatter<W>) -> fmt::Result {
        let Refusal {
            number,
            layer,
            step,
        } = *self;
        write!(f, "refused {number}, layer {layer}, step {step}")
    }
}

/// A number and what is counted.
#[derive(Clone, Copy)]
pub(crate) struct Count<'a>(pub u64, pub &'a str);

impl fmt::Display for Count<'_> {
    ghost output = { λ c. Some (count_text c.0 c.1.now) };

    fn fmt<W: fmt::Write>(&self, f: &mut fmt::Formatter<W>) -> fmt::Result {
        let Count(number, what) = *self;
        if number == 1 {
            write!(f, "{number} {what}")
        } else {
            write!(f, "{number} {what}s")
        }
    }
}

/// Writes what is shown of a value.
pub(crate) fn write_shown<D: fmt::Display + Drop>(
    out: &mut Vec<u8>,
    shown: D,
) -> Result<(), AllocError>
    ensures { OnOk result (IfSome (D.output shown) (λ text. out.new.items ≡ out.old.items ++ text)) }
{
    let text = format!(in *out.allocator(); "{shown}")?;
    out.extend_from_slice(text.as_bytes())
}

/// Writes what is wrong with a line, with the bytes that it is about.
pub(crate) fn write_mistake(out: &mut Vec<u8>, error: &ParseError) -> Result<(), AllocError>
    ensures { OnOk result (out.new.items ≡ out.old.items ++ mistake_text (mistake_of error.now)) }
{
    out.extend_from_slice(error.name().as_bytes())?;
    match error {
        ParseError::UnknownWord(bytes) | ParseError::ExtraText(bytes) => {
            out.push(b' ')?;
            out.extend_from_slice(bytes)
        }
        ParseError::NoLabel | ParseError::NoValue | ParseError::BadValue => Ok(()),
    }
}

/// Writes a text and a label.
fn write_labelled(out: &mut Vec<u8>, front: &[u8], label: &[u8]) -> Result<(), AllocError>
    ensures { OnOk result (out.new.items ≡ out.old.items ++ (front.now ++ label_text label.now)) }
{
    out.extend_from_slice(front)?;
    write_label(out, label)
}

/// Writes a call, less its value.
pub(crate) fn write_head(out: &mut Vec<u8>, command: &Command) -> Result<(), AllocError>
    ensures { OnOk result (out.new.items ≡ out.old.items ++ head_text (call_of command.now)) }
{
    match command {
        Command::Export { label, value: _ } => write_labelled(out, b"export ", label),
        Command::Read { label } => write_labelled(out, b"read ", label),
        Command::List => out.extend_from_slice(b"list"),
    }
}

/// Writes keys, each behind a space.
fn write_keys(out: &mut Vec<u8>, keys: &[StoreKey]) -> Result<(), AllocError>
    ensures { OnOk result (out.new.items ≡ out.old.items ++ flat_map key_text keys.now) }
{
    for key in keys {
        write_labelled(out, b" ", key.as_bytes())?;
    }
    Ok(())
}

/// Writes a value with the number of its bytes.
fn write_sized(out: &mut Vec<u8>, value: &[u8]) -> Result<(), AllocError>
    ensures { OnOk result (out.new.items ≡ out.old.items ++ sized_text value.now) }
{
    write_shown(out, Count(value.len() as u64, "byte"))?;
    out.push(b' ')?;
    write_value(out, value)
}

/// Writes keys with their number.
fn write_counted(out: &mut Vec<u8>, keys: &[StoreKey]) -> Result<(), AllocError>
    ensures { OnOk result (out.new.items ≡ out.old.items ++ counted_text keys.now) }
{
    write_shown(out, Count(keys.len() as u64, "key"))?;
    write_keys(out, keys)
}

/// Writes how many bytes were exported.
fn write_done(out: &mut Vec<u8>, n: usize) -> Result<(), AllocError>
    ensures { OnOk result (out.new.items ≡ out.old.items ++ done_text n) }
{
    out.extend_from_slice(b"done, ")?;
    write_shown(out, Count(n as u64, "byte"))
}

/// Writes how a call was answered.
pub(crate) fn write_answer(out: &mut Vec<u8>, answer: &Answer) -> Result<(), AllocError>
    ensures { OnOk result (out.new.items ≡ out.old.items ++ answer_text answer.now) }
{
    match answer {
        Answer::Done(n) => write_done(out, *n),
        Answer::Refused(refusal) => write_shown(out, *refusal),
        Answer::Value(value) => write_sized(out, value.as_slice()),
        Answer::Absent => out.extend_from_slice(b"absent"),
        Answer::Keys(keys) => write_counted(out, keys.as_slice()),
    }
}
