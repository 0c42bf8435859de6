// Takes records there and back: reads them from standard input, writes each to a tag of its own and reads it, and prints what
// came of it. The layout of a case and of a line stands in tests/trips.py. A buffer, or a part of a record, has at most 4096 bytes.
#![tactic(auto)]

mod same;

use back::there_and_back;
use format::refusals::Refusal;
use format::{Given, Heading};
use same::is_same;
use std::io;
use std::io::{Read, Write};
use streams::read_full;
use test_cases::{Case, Parts, next_parts};
use test_prints::{decimal, either, say};

// The number of a refusal.
fn refused<W: Write>(to: &mut W, k: Refusal) -> io::Result<()> {
    say(to, b" refused")?;
    decimal(to, u64::from(k.number))?;
    say(to, b"\n")
}

// Takes a record there and back, and prints what came of it.
fn trip<W: Write>(
    to: &mut W,
    buffer: &mut [u8],
    output: &mut [u8],
    work: &mut [u8],
    case: Case,
    heading: Heading,
    given: &Given<'_>,
) -> io::Result<()> {
    let back = there_and_back(
        buffer,
        output,
        work,
        case.version,
        case.mode,
        case.padding as usize,
        heading,
        given,
    );
    match back {
        Ok(Some((n, record))) => {
            say(to, b" read")?;
            decimal(to, n as u64)?;
            let s = if record.in_work {
                &work[..]
            } else {
                &output[..]
            };
            let same = is_same(s, record, heading, given);
            either(to, same, b" same\n", b" changed\n")
        }
        Err(k) => refused(to, k),
        Ok(None) => say(to, b" lost\n"),
    }
}

// Reads the record that comes next, and takes it there and back.
fn trip_next<R: Read, W: Write>(
    from: &mut R,
    to: &mut W,
    buffer: &mut [u8],
    output: &mut [u8],
    work: &mut [u8],
    case: Case,
) -> io::Result<()> {
    let heading = test_cases::next_heading(from)?;
    let mut parts = Parts::new();
    next_parts(from, &mut parts)?;
    trip(to, buffer, output, work, case, heading, &parts.given())
}

// Lends a case its buffers.
fn replay<R: Read, W: Write>(from: &mut R, to: &mut W, case: Case) -> io::Result<()> {
    let mut buffer = [0xA5u8; 4096];
    let a = buffer.len().min(case.buffer as usize);
    let mut output = [0xA5u8; 4096];
    let b = output.len().min(case.output as usize);
    let mut work = [0xA5u8; 4096];
    let c = work.len().min(case.lent as usize);
    trip_next(
        from,
        to,
        &mut buffer[..a],
        &mut output[..b],
        &mut work[..c],
        case,
    )
}

// Reads a case and replays it, and answers whether there was one.
fn next<R: Read, W: Write>(from: &mut R, to: &mut W, number: u64) -> io::Result<bool> {
    let mut version = [0u8; 1];
    if read_full(from, &mut version)? < 1 {
        return Ok(false);
    }
    say(to, b"case")?;
    decimal(to, number)?;
    let case = test_cases::next_case(from, &version)?;
    replay(from, to, case)?;
    Ok(true)
}

// The number of cases is not known, so that the loop counts up to one that no input reaches.
fn main(rt: HostRuntime) -> io::Result<()> {
    let mut from = rt.stdin();
    let mut to = rt.stdout();
    for number in 1..u64::MAX {
        if !next(&mut from, &mut to, number)? {
            break;
        }
    }
    Ok(())
}
