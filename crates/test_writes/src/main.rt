// Replays cases of writing: reads them from standard input, and prints what each call answers, what it left and which bytes it
// reports. The layout of a case and of a line stands in tests/writes.py. A buffer, or a part of a record, has at most 4096 bytes.
#![tactic(auto)]

mod print;

use format::refusals::Refusal;
use format::{Given, Heading};
use print::is_kept;
use std::io;
use std::io::{Read, Write};
use streams::read_full;
use test_cases::{Case, Parts, next_parts};
use test_prints::{decimal, say};
use writer::Writer;

// Adds a record, and prints what the call answers and leaves in the buffer, which held the bytes `before`.
fn add<W: Write>(
    to: &mut W,
    buffer: &mut [u8],
    before: &[u8],
    writer: &mut Writer,
    heading: Heading,
    given: &Given<'_>,
) -> io::Result<()> {
    let at = writer.used;
    let (added, next) = writer.add(buffer, heading, given);
    *writer = next;
    match added {
        Ok(n) => {
            let kept = is_kept(buffer, before, at, n);
            say(to, b"add accepted")?;
            print::reported(to, buffer, at, n, writer.used, kept)
        }
        Err(k) => {
            let kept = is_kept(buffer, before, 0, 0);
            say(to, b"add refused")?;
            print::refused(to, k, writer.used, kept)
        }
    }
}

// Reads the record that comes next, and adds it.
fn add_next<R: Read, W: Write>(
    from: &mut R,
    to: &mut W,
    buffer: &mut [u8],
    before: &[u8],
    writer: &mut Writer,
) -> io::Result<()> {
    let heading = test_cases::next_heading(from)?;
    let mut parts = Parts::new();
    next_parts(from, &mut parts)?;
    add(to, buffer, before, writer, heading, &parts.given())
}

// Finishes a tag, and prints what the call answers and leaves in the output and in the buffer, which held the bytes `was` and
// `before`.
fn finish<W: Write>(
    to: &mut W,
    output: &mut [u8],
    was: &[u8],
    case: Case,
    writer: Writer,
    buffer: &[u8],
    before: &[u8],
) -> io::Result<()> {
    let lent = buffer.len().min(case.lent as usize);
    let (finished, writer) = writer.finish(output, &buffer[..lent], case.padding as usize);
    let same = is_kept(buffer, before, 0, 0);
    match finished {
        Ok(n) => {
            let kept = is_kept(output, was, 0, n) & same;
            say(to, b"finish done")?;
            print::reported(to, output, 0, n, writer.used, kept)
        }
        Err(k) => {
            let kept = is_kept(output, was, 0, 0) & same;
            say(to, b"finish refused")?;
            print::refused(to, k, writer.used, kept)
        }
    }
}

// Lends a case its output.
fn finish_in_output<W: Write>(
    to: &mut W,
    case: Case,
    writer: Writer,
    buffer: &[u8],
    before: &[u8],
) -> io::Result<()> {
    let mut space = [0xA5u8; 4096];
    let n = space.len().min(case.output as usize);
    let was = space;
    finish(to, &mut space[..n], &was[..n], case, writer, buffer, before)
}

// Adds the records of a case, and finishes its tag.
fn write<R: Read, W: Write>(
    from: &mut R,
    to: &mut W,
    case: Case,
    mut writer: Writer,
) -> io::Result<()> {
    let mut space = [0xA5u8; 4096];
    let n = space.len().min(case.buffer as usize);
    for _ in 0..case.records {
        let before = space;
        add_next(from, to, &mut space[..n], &before[..n], &mut writer)?;
    }
    let before = space;
    finish_in_output(to, case, writer, &space[..n], &before[..n])
}

// Begins the writer of a case.
fn begun(case: Case) -> Result<Writer, Refusal> {
    if case.by_mode {
        writer::begin::begin(case.version, case.mode, case.altered)
    } else {
        writer::begin::begin_plain(case.version)
    }
}

// Replays a case. One whose beginning is refused has no records.
fn replay<R: Read, W: Write>(from: &mut R, to: &mut W, case: Case) -> io::Result<()> {
    match begun(case) {
        Ok(writer) => write(from, to, case, writer),
        Err(k) => {
            say(to, b"begin refused")?;
            decimal(to, u64::from(k.number))?;
            say(to, b"\n")
        }
    }
}

// Reads a case and replays it, and answers whether there was one.
fn next<R: Read, W: Write>(from: &mut R, to: &mut W, number: u64) -> io::Result<bool> {
    let mut version = [0u8; 1];
    if read_full(from, &mut version)? < 1 {
        return Ok(false);
    }
    say(to, b"case")?;
    decimal(to, number)?;
    say(to, b"\n")?;
    let case = test_cases::next_case(from, &version)?;
    replay(from, to, case)?;
    Ok(true)
}

// The number of cases is not known, so that the loop counts up to one that no input reaches.
fn main(rt: HostRuntime) -> io::Result<()> {
    let mut from = rt.stdin();
    let mut to = rt.stdout();
    for number in 1..u64::MAX {
        if !next(&mut from, &mut to, number)? {
            break;
        }
    }
    Ok(())
}
