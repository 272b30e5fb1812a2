//! Compares vectors of the original crate's answers with the answers of this port.
#![tactic(auto)]

mod fields;
mod key_calls;
mod outcome;
mod range_calls;

use fields::{cut, cut_answer};
use key_calls::{KeyCall, PrefixCall};
use outcome::{Failure, Outcome};
use range_calls::{RangeCall, ValueCall};
use std::alloc::{AllocError, Global};
use std::io;
use std::io::{BufRead, BufReader, Write};

/// What comes of a line.
#[derive(Drop)]
enum Verdict<'a> {
    /// The port answers as the original does.
    Agrees,
    /// It answers otherwise.
    Differs {
        call: &'a [u8],
        expected: &'a [u8],
        got: Vec<u8>,
    },
    /// The port differs on purpose.
    OnPurpose,
    /// A reading by seeks, which is not compared.
    BySeeks,
    /// A line or a call of another kind.
    Unknown,
}

/// How many lines were compared, how many of them differ, and how many were left out, by reason.
#[derive(Clone, Copy, Default)]
struct Tally {
    compared: u64,
    differ: u64,
    on_purpose: u64,
    by_seeks: u64,
    unknown: u64,
}

/// One more.
fn add_one(count: &mut u64) {
    *count = count.saturating_add(1);
}

impl Tally {
    fn count(&mut self, verdict: &Verdict) {
        match verdict {
            Verdict::Agrees => add_one(&mut self.compared),
            Verdict::Differs { .. } => {
                add_one(&mut self.compared);
                add_one(&mut self.differ);
            }
            Verdict::OnPurpose => add_one(&mut self.on_purpose),
            Verdict::BySeeks => add_one(&mut self.by_seeks),
            Verdict::Unknown => add_one(&mut self.unknown),
        }
    }
}

/// The port's answer to a call.
fn answer(text: &[u8], heap: Global) -> Outcome {
    let (name, words) = cut(text, b' ');
    if let Some(call) = KeyCall::named(name) {
        return call.answer(words, heap);
    }
    if let Some(call) = PrefixCall::named(name) {
        return call.answer(words, heap);
    }
    if let Some(call) = RangeCall::named(name) {
        return call.answer(words, heap);
    }
    if let Some(call) = ValueCall::named(name) {
        return call.answer(words, heap);
    }
    Err(Failure::Unknown)
}

/// Compares the port's answer with the expected one: where the original panics, the port refuses.
fn compare<'a>(
    call: &'a [u8],
    expected: &'a [u8],
    heap: Global,
) -> Result<Verdict<'a>, AllocError> {
    let got = match answer(call, heap) {
        Ok(words) => words,
        Err(Failure::Refused(_)) if expected == b"panic".as_slice() => return Ok(Verdict::Agrees),
        Err(Failure::Refused(refusal)) => format!(in heap; "{refusal}")?.into_bytes(),
        Err(Failure::Unknown) => return Ok(Verdict::Unknown),
        Err(Failure::Memory(error)) => return Err(error),
    };
    if got.as_slice() == expected {
        return Ok(Verdict::Agrees);
    }
    Ok(Verdict::Differs {
        call,
        expected,
        got,
    })
}

/// What comes of a line.
fn replay(line: &[u8], heap: Global) -> Result<Verdict<'_>, AllocError> {
    let Some((call, expected)) = cut_answer(line) else {
        return Ok(Verdict::Unknown);
    };
    let (name, _) = cut(call, b' ');
    if name.ends_with(b"_crate") {
        return Ok(Verdict::OnPurpose);
    }
    if name == b"read_seek".as_slice() {
        return Ok(Verdict::BySeeks);
    }
    compare(call, expected, heap)
}

/// Prints a difference, by one write.
fn print_difference(
    rt: &HostRuntime,
    number: u64,
    call: &[u8],
    expected: &[u8],
    got: &[u8],
) -> io::Result<()> {
    let mut line = format!(in rt.alloc(); "line {number}: ")?.into_bytes();
    line.extend_from_slice(call)?;
    line.extend_from_slice(b": expected ")?;
    line.extend_from_slice(expected)?;
    line.extend_from_slice(b", got ")?;
    line.extend_from_slice(got)?;
    line.push(b'\n')?;
    rt.stdout().write_all(line.as_slice())
}

fn main(rt: HostRuntime) -> io::Result<()> {
    let heap = rt.alloc();
    let mut tally = Tally::default();
    let mut number: u64 = 0;
    for line in BufReader::new(heap, rt.stdin())?.lines(heap) {
        let line = line?;
        number = number.saturating_add(1);
        let verdict = replay(line.as_bytes(), heap)?;
        tally.count(&verdict);
        if let Verdict::Differs {
            call,
            expected,
            got,
        } = &verdict
        {
            print_difference(&rt, number, call, expected, got.as_slice())?;
        }
    }
    let Tally {
        compared,
        differ,
        on_purpose,
        by_seeks,
        unknown,
    } = tally;
    println!(rt; "{compared} compared, {differ} differ")?;
    println!(rt;
        "left out: {on_purpose} where the port differs on purpose, {by_seeks} readings by seeks, {unknown} of other kinds"
    )
}
