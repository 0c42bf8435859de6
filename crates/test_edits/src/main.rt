// Replays edits in place: reads cases from standard input, and prints for each edit what it answers and the sums of all the lent
// bytes after it, and last these bytes. The layout of a case and of a line stands in tests/edits.py. A tag with what follows it
// has at most 4096 bytes, and so has a user or a part of a record.
#![tactic(auto)]

use format::refusals::Refusal;
use format::{Given, Heading};
use loads::read32;
use std::io;
use std::io::{Read, Write};
use streams::read_full;
use test_cases::{Parts, next_parts};
use test_prints::input::{next_bytes, next_u8, next_u32, next_u64};
use test_prints::{decimal, hex, say, sums};

// The number of a refusal.
fn refused<W: Write>(to: &mut W, k: Refusal) -> io::Result<()> {
    say(to, b" refused")?;
    decimal(to, u64::from(k.number))
}

// What an edit answers.
fn edited<W: Write>(to: &mut W, answer: Result<(), Refusal>) -> io::Result<()> {
    match answer {
        Ok(()) => say(to, b" done"),
        Err(k) => refused(to, k),
    }
}

// What a lift answers.
fn lifted<W: Write>(to: &mut W, answer: Result<u64, Refusal>) -> io::Result<()> {
    match answer {
        Ok(counter) => {
            say(to, b" counts")?;
            decimal(to, counter)
        }
        Err(k) => refused(to, k),
    }
}

// Puts a record after the last frame, or in the place of the one with this number.
fn put(
    tag: &mut [u8],
    last: bool,
    number: usize,
    heading: Heading,
    given: &Given<'_>,
) -> Result<(), Refusal> {
    if last {
        edit::append(tag, heading, given)
    } else {
        edit::replace(tag, number, heading, given)
    }
}

// Reads the record that comes next, and puts it there.
fn put_next<R: Read, W: Write>(
    from: &mut R,
    to: &mut W,
    tag: &mut [u8],
    last: bool,
    number: usize,
) -> io::Result<()> {
    let heading = test_cases::next_heading(from)?;
    let mut parts = Parts::new();
    next_parts(from, &mut parts)?;
    let answer = put(tag, last, number, heading, &parts.given());
    edited(to, answer)
}

// Reads a user and an amount, and lifts that user's counter.
fn lift_next<R: Read, W: Write>(from: &mut R, to: &mut W, tag: &mut [u8]) -> io::Result<()> {
    let mut user = [0u8; 4096];
    let most = next_u32(from)?;
    let n = next_bytes(from, &mut user, most)?;
    let amount = next_u64(from)?;
    lifted(to, edit::lift(tag, &user[..n], amount))
}

// Reads the edit that comes next, makes it, and prints what it answers.
fn edit_next<R: Read, W: Write>(from: &mut R, to: &mut W, tag: &mut [u8]) -> io::Result<()> {
    match next_u8(from)? {
        0 => {
            say(to, b"replace")?;
            let number = next_u64(from)? as usize;
            put_next(from, to, tag, false, number)
        }
        1 => {
            say(to, b"remove")?;
            let number = next_u64(from)? as usize;
            edited(to, edit::remove(tag, number))
        }
        2 => {
            say(to, b"append")?;
            put_next(from, to, tag, true, 0)
        }
        _ => {
            say(to, b"lift")?;
            lift_next(from, to, tag)
        }
    }
}

// Makes the edits of a case one after the other.
fn replay<R: Read, W: Write>(
    from: &mut R,
    to: &mut W,
    tag: &mut [u8],
    edits: u32,
) -> io::Result<()> {
    for _ in 0..edits {
        edit_next(from, to, tag)?;
        sums(to, tag)?;
        say(to, b"\n")?;
    }
    say(to, b"then")?;
    hex(to, tag)?;
    say(to, b"\n")
}

// Reads a case and replays it, and answers whether there was one.
fn next<R: Read, W: Write>(from: &mut R, to: &mut W, number: u64) -> io::Result<bool> {
    let mut front = [0u8; 4];
    if read_full(from, &mut front)? < 4 {
        return Ok(false);
    }
    say(to, b"case")?;
    decimal(to, number)?;
    say(to, b"\n")?;
    let mut tag = [0u8; 4096];
    let n = next_bytes(from, &mut tag, read32(&front, 0))?;
    let edits = next_u32(from)?;
    replay(from, to, &mut tag[..n], edits)?;
    Ok(true)
}

// The number of cases is not known, so that the loop counts up to one that no input reaches.
fn main(rt: HostRuntime) -> io::Result<()> {
    let mut from = rt.stdin();
    let mut to = rt.stdout();
    for number in 1..u64::MAX {
        if !next(&mut from, &mut to, number)? {
            break;
        }
    }
    Ok(())
}
