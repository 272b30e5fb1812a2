//! What a line of a script says.
ghost use Rattle.std.specs.Prelude.{◌≡◌, Some};
ghost use Rattle.script.specs.Commands.{skipped, verb_of, label_of, call_of, command_line, line_of, line_says, verb_says, export_says, read_says, finish_says, LabelRead, ValueRead, mistake_of, mistake_name};

use crate::value::{Value, value_of};
use crate::words::{next_word, trim};
use std::fmt;

/// A call of the box, as a line asks for it.
#[derive(Clone, Copy)]
pub enum Command<'a> {
    /// Export a value under a label.
    Export { label: &'a [u8], value: Value<'a> },
    /// Read a label back.
    Read { label: &'a [u8] },
    /// List every key.
    List,
}

/// Why a line is no call.
#[derive(Clone, Copy)]
pub enum ParseError<'a> {
    /// The first word names no call.
    UnknownWord(&'a [u8]),
    /// The call needs a label.
    NoLabel,
    /// The call needs a value.
    NoValue,
    /// The value is neither text in quotes nor `x` and pairs of hexadecimal digits.
    BadValue,
    /// Something stands behind the call's last word.
    ExtraText(&'a [u8]),
}

/// The first word of a call.
#[derive(Clone, Copy)]
pub enum Verb {
    Export,
    Read,
    List,
}

impl ParseError<'_> {
    /// What is wrong, in words.
    pub fn name(&self) -> &'static str
        ensures { result.now ≡ mistake_name (mistake_of self.now) }
    {
        match self {
            ParseError::UnknownWord(_) => "unknown word",
            ParseError::NoLabel => "no label",
            ParseError::NoValue => "no value",
            ParseError::BadValue => "bad value",
            ParseError::ExtraText(_) => "extra text",
        }
    }
}

impl fmt::Display for ParseError<'_> {
    ghost output = { λ e. Some (mistake_name (mistake_of e)) };

    fn fmt<W: fmt::Write>(&self, f: &mut fmt::Formatter<W>) -> fmt::Result {
        f.write_str(self.name())
    }
}

/// True if a line with this first word is blank or a remark.
fn is_skipped(word: &[u8]) -> bool
    ensures { result ≡ skipped word.now }
{
    matches!(word, [] | [b'#', ..])
}

/// The call that a word names.
fn verb_of(word: &[u8]) -> Option<Verb>
    ensures { result ≡ verb_of word.now }
{
    match word {
        b"export" => Some(Verb::Export),
        b"read" => Some(Verb::Read),
        b"list" => Some(Verb::List),
        _ => None,
    }
}

/// The label that a word stands for: two quotes are the empty one.
fn label_of(word: &[u8]) -> &[u8]
    ensures { result.now ≡ label_of word.now }
{
    match word {
        b"\"\"" => &[],
        _ => word,
    }
}

/// The next label, and what stands behind it.
fn next_label(text: &[u8]) -> Result<(&[u8], &[u8]), ParseError<'_>>
    ensures { LabelRead text.now result }
{
    let (word, rest) = next_word(text);
    if word.is_empty() {
        return Err(ParseError::NoLabel);
    }
    Ok((label_of(word), rest))
}

/// The value that the rest of a line writes.
fn parse_value(text: &[u8]) -> Result<Value<'_>, ParseError<'_>>
    ensures { ValueRead text.now result }
{
    let text = trim(text);
    if text.is_empty() {
        return Err(ParseError::NoValue);
    }
    value_of(text).ok_or(ParseError::BadValue)
}

/// The command, if nothing stands behind it.
fn finish<'a>(rest: &'a [u8], command: Command<'a>) -> Result<Command<'a>, ParseError<'a>>
    ensures { command_line result ≡ finish_says (call_of command.entry) rest.now }
{
    let rest = trim(rest);
    if rest.is_empty() {
        return Ok(command);
    }
    Err(ParseError::ExtraText(rest))
}

/// An export, from what stands behind its first word.
fn parse_export(text: &[u8]) -> Result<Command<'_>, ParseError<'_>>
    ensures { command_line result ≡ export_says text.now }
{
    let (label, rest) = next_label(text)?;
    let value = parse_value(rest)?;
    Ok(Command::Export { label, value })
}

/// A reading, from what stands behind its first word.
fn parse_read(text: &[u8]) -> Result<Command<'_>, ParseError<'_>>
    ensures { command_line result ≡ read_says text.now }
{
    let (label, rest) = next_label(text)?;
    finish(rest, Command::Read { label })
}

/// The command of a first word and what stands behind it.
fn parse_command<'a>(word: &'a [u8], rest: &'a [u8]) -> Result<Command<'a>, ParseError<'a>>
    ensures { command_line result ≡ verb_says (verb_of word.now) word.now rest.now }
{
    match verb_of(word) {
        Some(Verb::Export) => parse_export(rest),
        Some(Verb::Read) => parse_read(rest),
        Some(Verb::List) => finish(rest, Command::List),
        None => Err(ParseError::UnknownWord(word)),
    }
}

/// What a line says: nothing where it is blank or a remark.
pub fn parse(line: &[u8]) -> Result<Option<Command<'_>>, ParseError<'_>>
    ensures { line_of result ≡ line_says line.now }
{
    let (word, rest) = next_word(line);
    if is_skipped(word) {
        return Ok(None);
    }
    parse_command(word, rest).map(Some)
}
